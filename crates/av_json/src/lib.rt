//! Lines of JSON: objects of named texts and numbers, one object a line, as `--json` prints them. A line is built in a `Vec` that
//! the next line uses again, and what was written reads back as the tokens that were put.
//!
//! ```text
//! let mut line = Writer::new(room);
//! put_object(&mut line, &[Member::Text("is", "boot"), Member::Number("boot", 1)])?;
//! let room = write_line(line, &mut writer)?;     // {"is":"boot","boot":1}
//! ```
#![tactic(auto)]

pub mod cause;
pub mod file;
pub mod line;
pub mod member;
mod shown;
#[cfg(test)]
mod tests;

pub use cause::why;
pub use file::{put_opened, put_scanned};
pub use json::Writer;
pub use line::{LineFault, write_line};
pub use member::{Member, put_members, put_named, put_object};
