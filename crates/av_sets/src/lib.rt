//! Signature sets of files, as far as the files are trusted, with the line that a program prints where there is none.
//!
//! ```text
//! let set = read_trusted(alloc, Trust::Signed(&key), Input { name, content }, &mut err)?;
//! ```
#![tactic(auto)]

pub mod reading;
#[cfg(test)]
mod tests;

pub use reading::{read_trusted, trusted_text};
