//! How a program ends: its exit statuses, the line on standard error that says why it did not do all, what came of files in
//! numbers, and how far a run got that takes long.
//!
//! ```text
//! let mut err = Progress::new(&rt, Prefixed::new("avscan", rt.stderr()), true);
//! err.step("scanned", 3, 10);                            // on a terminal, once the run takes long: `3 of 10 files`
//! return unreadable(&mut err, "a.bin");                  // `avscan: a.bin: cannot read`, and Status::Device
//! ```
#![tactic(auto)]

pub mod ends;
pub mod faults;
pub mod prefixed;
pub mod progress;
pub mod status;
pub mod tally;
#[cfg(test)]
mod tests;

pub use ends::{end_told, gravest, status_of};
pub use prefixed::Prefixed;
pub use progress::Progress;
pub use status::Status;
pub use tally::{Form, Shown, Tally, Wishes, conclude};
