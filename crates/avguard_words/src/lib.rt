//! The command line of avguard and its configuration file: what they ask for, and the help.
//!
//! ```text
//! match read_words(alloc, words.as_slice(), &mut out, &mut err) {
//!     Ok(Request::Guard(guard)) => ..,
//!     Ok(Request::Configured(asked)) => ..,              // configured(alloc, asked, text, &table, &mut err)
//!     Err(status) => return status,                      // help was written, or a line says what was not understood
//! }
//! ```
#![tactic(auto)]

pub mod bounds;
mod commands;
pub mod config;
pub mod misfit;
pub mod place;
pub mod request;
pub mod settings;
pub mod shown;
pub mod sockets;
#[cfg(test)]
mod tests;
pub mod words;

pub use config::{MAX_CONFIG, config_table};
pub use misfit::config_too_long;
pub use request::{Ask, Configured, Guard, Paths, Report, Request, View};
pub use settings::{NOTHING_SAID, Settings};
pub use shown::config_lines;
pub use sockets::configured;
pub use words::{PROGRAM, read_words};
