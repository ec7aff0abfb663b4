//! Verdicts that were found before. A cache keeps the verdict of a content, which a stream and its generation name, under
//! the signature set of a version: most recently used first, and no more of them than its capacity.
//!
//! ```text
//! let mut cache = VerdictCache::new(rt.alloc(), 2)?;
//! cache.put(stream, Generation::new(1), Version::new(1), Verdict::Clean)?;
//! assert_eq!(cache.look(stream, Generation::new(1), Version::new(1)), Some(Verdict::Clean));
//! ```
#![tactic(auto)]

pub mod cache;
pub mod entry;
mod key;
#[cfg(test)]
mod tests;

pub use cache::VerdictCache;
pub use entry::Entry;
