//! What a guard, and a filter, promise together with a scanning service: a content that was granted is clean.
#![tactic(auto)]

pub mod laws;
pub mod lines;
pub mod ranges;
