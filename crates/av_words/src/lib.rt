//! What the command lines of several programs share: words and commands as rows, what clap makes of them, which files were named and
//! what is printed of them, the paths of sockets, and how a program says that its words were not understood.
//!
//! ```text
//! let command = with(Command::new(alloc, "avguard"), ask_command(alloc))?;
//! let matches = matches_of(alloc, "avguard", Ok(command), words, &mut out, &mut err)?;   // help was written, or a line says why not
//! ```
#![tactic(auto)]

pub mod command;
pub mod matched;
pub mod request;
pub mod rows;
pub mod sockets;
#[cfg(test)]
mod tests;
pub mod usage;
pub mod word;

pub use command::{command_of, with};
pub use request::{Finding, List, Named};
pub use sockets::bad_socket_of;
pub use usage::{first_bad_word, matches_of, say_usage};
pub use word::{Absent, Kind, Word};
