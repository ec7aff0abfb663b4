//! All signatures of a set that occur in a content, each with the least end of its own.
//!
//! ```text
//! let all = all_verdicts(alloc, &set, content)?;
//! // [Clean], or for each signature that occurs, in the order of the set, Infected { index, end_at }
//! ```
#![tactic(auto)]

pub mod finding;
pub mod laws;
#[cfg(test)]
mod tests;

pub use finding::all_verdicts;
