//! An infected file, moved into a folder on its file system. No file is overwritten, and only the very file that was judged is
//! moved.
//!
//! ```text
//! let seen = Seen::of(&file.metadata()?);                                  // of the file as it was opened to be judged
//! let new = move_into(&rt, alloc, Judged { path, seen }, folder, &mut err)?;  // FOLDER/NAME, or NAME.1 and on if that is taken
//! ```
#![tactic(auto)]

pub mod carrying;
pub mod laws;
pub mod looks;
pub mod moving;
pub mod naming;
pub mod steps;
#[cfg(test)]
mod tests;

pub use looks::{Node, Seen};
pub use moving::{Judged, move_into};
pub use steps::{MoveFault, Outcome, Step};
