//! The command line of avscan: what its words ask for, and its help.
//!
//! ```text
//! match read_words(alloc, words.as_slice(), &mut out, &mut err) {
//!     Ok(Request::Scan(scan)) => ..,
//!     Err(status) => return status,                      // help was written, or a line says what was not understood
//! }
//! ```
#![tactic(auto)]

mod commands;
pub mod request;
mod size;
#[cfg(test)]
mod tests;
pub mod words;

pub use request::{Check, Filter, Host, Request, Scan, Script, Service};
pub use words::{PROGRAM, read_words};
