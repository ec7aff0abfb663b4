//! Signature files of other products, taken as far as they can be said exactly: ClamAV's `.ndb` and `.db` lines, and YARA rules.
//!
//! ```text
//! let mut import = Import::new(alloc, Rules { takes_any_target: false, has_ranges: true });
//! import.take("a.ndb", b"Win.Test-1:0:*:4d5a9000\n", &mut err)?;
//! import.write(7, &mut out)?;     // avsig 1, version 7, Win.Test-1 4d5a9000
//! ```
#![tactic(auto)]

pub mod clamav;
mod condition;
mod hexadecimal;
pub mod import;
mod kind;
mod lexer;
pub mod name;
mod number;
mod offset;
mod strings;
#[cfg(test)]
mod tests;
mod told;
pub mod why;
mod yara;

pub use import::{Import, ImportFault, Rules};
pub use why::Why;
