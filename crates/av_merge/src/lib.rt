//! Signature sets, merged into one: each signature once, in the order of the sets.
//!
//! ```text
//! let mut merger = Merger::new(alloc);
//! merger.add(alloc, 0, &first)?;
//! merger.add(alloc, 1, &second)?;                     // Err: a name of both has two patterns, or a limit is passed
//! merger.write(merger.version(), &mut out)?;
//! ```
#![tactic(auto)]

mod compare;
pub mod fault;
pub mod laws;
pub mod merger;
#[cfg(test)]
mod tests;

pub use fault::MergeFault;
pub use merger::Merger;
