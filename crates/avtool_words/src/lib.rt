//! The command line of avtool: what its words ask for, and its help.
//!
//! ```text
//! match read_words(alloc, words.as_slice(), &mut out, &mut err) {
//!     Ok(Request::Chart(chart)) => ..,
//!     Err(status) => return status,                      // help was written, or a line says what was not understood
//! }
//! ```
#![tactic(auto)]

mod commands;
pub mod request;
#[cfg(test)]
mod tests;
pub mod words;

pub use request::{Chart, Generate, Import, Merge, Request, Sign, Taking};
pub use words::{PROGRAM, read_words};
