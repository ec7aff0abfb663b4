//! What a set of signatures says of a content: the plain verdict, and a scan that comes to the same one however the
//! content is cut into chunks, and keeps none of it.
//!
//! ```text
//! let automaton = Automaton::build(alloc, &set)?;
//! let mut scan = Scan::start(set.version(), 3);
//! assert_eq!(scan.feed(&automaton, b"ABC"), Step::Hit(plain_verdict(&set, b"ABC")));
//! ```
#![tactic(auto)]

pub mod automaton;
mod cells;
mod credit;
mod endings;
mod lanes;
pub mod laws;
mod leaps;
mod outputs;
mod parts;
mod pieces;
pub mod plain;
mod quiet;
mod ranged;
mod rare;
mod reach;
mod rows;
pub mod scan;
mod searches;
mod shifts;
mod shorts;
mod six_parts;
mod skim;
pub mod step;
mod tables;
#[cfg(test)]
mod tests;
mod trie;
mod walks;
mod windows;

pub use automaton::Automaton;
pub use scan::Scan;
pub use step::Step;
