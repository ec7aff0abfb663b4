//! What a filter knows of streams: contexts that are counted. A table gives a reference to a context, and attaches a context
//! to a stream; a context stays as long as something refers to it, and is gone when its last reference is.
//!
//! ```text
//! let context = table.allocate(ContextState::Modified)?;
//! let set = table.set_keep(stream, &context);                       // Ok(Set::Attached): two references now
//! table.release(context);                                            // the attachment's is left
//! ```
#![tactic(auto)]

pub mod context;
pub mod context_fault;
pub mod context_ref;
pub mod context_state;
pub mod context_table;
mod rows;
#[cfg(test)]
mod tests;

pub use context::Context;
pub use context_fault::ContextFault;
pub use context_ref::{ContextRef, Set};
pub use context_state::ContextState;
pub use context_table::ContextTable;
