//! Rows that are found by a number, each with a value beside it that may have to be spent. The rows stand in a slab whose keys are
//! used again. `Numbered` grows as rows come; `Bounded` takes the memory for all of its rows at first.
//!
//! ```text
//! let mut rows = Numbered::new(alloc);
//! rows.insert(7, row, value)?;                       // the value comes back where memory is refused
//! let Some((row, value)) = rows.remove(7) else { .. };
//! ```
#![tactic(auto)]

pub mod bounded;
pub mod numbered;

pub use bounded::Bounded;
pub use numbered::Numbered;
