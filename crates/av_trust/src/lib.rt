//! Signature files that are signed: the key, what a signed file is, and which files are taken.
//!
//! ```text
//! let key = Key::new(b"0123456789abcdef0123456789abcdef".as_slice())?;
//! let file = sign(alloc, &key, b"avsig 1\nversion 7\na 41\n".as_slice())?;       // avsigned 1 HEX, and then the text
//! let text = text_of(Trust::Signed(&key), file.as_slice())?;                      // the text again, or why not
//! ```
#![tactic(auto)]

pub mod key;
pub mod mac;
pub mod signed;
#[cfg(test)]
mod tests;
pub mod trust;

pub use key::{Key, KeyFault, LONGEST_KEY, SHORTEST_KEY};
pub use mac::hmac_sha256;
pub use signed::{sign, trusted};
pub use trust::{Trust, TrustFault, text_of};
