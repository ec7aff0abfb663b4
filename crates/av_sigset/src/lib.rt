//! Signature sets: what a scan looks for, read from a signature file or made of patterns without names, and the catalogue of
//! the sets that were published.
//!
//! ```text
//! let set = SignatureSet::read(alloc, b"avsig 1\nversion 7\nt.a 4142\nb 4A4b\n")?;
//! assert_eq!(set.name(0), Some(b"t.a".as_slice()));
//! catalogue.publish(set)?;
//! ```
#![tactic(auto)]

pub mod catalogue;
pub mod fault;
mod format;
pub mod hexadecimal;
mod judge;
pub mod laws;
mod line;
mod made;
mod read;
pub mod set;
pub mod signature;
pub mod spelling;
#[cfg(test)]
mod tests;

pub use catalogue::Catalogue;
pub use fault::{CatalogueFault, SetFault, SetFaultKind};
pub use line::{MAX_NAME, is_name_byte};
pub use read::stands_in;
pub use set::SignatureSet;
pub use signature::{AsPattern, Pattern, Signature, Span};
pub use spelling::write_signatures;
