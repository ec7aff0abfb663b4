//! The volume: streams of bytes under names, in memory, each with the generation of its content. Contents and
//! generations are a fold over the calls that were accepted; a refused call names the first reason and changes nothing.
//!
//! ```text
//! let id = volume.create(alloc, b"report.doc")?;    // generation 1, no bytes
//! volume.write(id, 0, b"first draft")?;             // generation 2
//! assert_eq!(volume.length(id), Some(11));
//! ```
#![tactic(auto)]

mod content;
pub mod fault;
pub mod laws;
mod stream;
mod table;
#[cfg(test)]
mod tests;
pub mod volume;

pub use fault::{BootSpent, OpensSpent, StoreFault};
pub use volume::Volume;
