//! What a client of clamd's protocol says to a guard and is told (clamd(8), COMMANDS): a `Door` turns the bytes that it
//! sends into lines that are said at once and contents that are asked about, whole or in parts; replies are spelled as clamd
//! spells them. README.md has the commands. No socket stands here: bytes go in, bytes come out.
//!
//! ```text
//! let (taken, heard) = door.hear(b"zPING\0zPING\0", Sending::Whole)?;  // 6 bytes, and PONG: the rest is for the next call
//! assert!(matches!(heard, Some(Heard::Say(line)) if line.as_slice() == b"PONG\0"));
//! ```
#![tactic(auto)]

pub mod about;
pub mod door;
pub mod laws;
pub mod reply;
#[cfg(test)]
mod tests;
mod text;

pub use about::{About, date_of};
pub use door::{Door, Heard, Sending};
pub use reply::{Failing, Spoken, put_path_reply, put_reply, put_timed_out};
