ghost use Rattle.std.specs.Prelude.{◌≡◌, ◌≤◌, length, MatchResult, Ok, Err};
ghost use Rattle.av_trust.specs.Key.{key_of};

use std::marker::Model;
use thiserror::Error;

/// The fewest bytes of a key.
pub const SHORTEST_KEY: usize = 32;

/// The most bytes of a key.
pub const LONGEST_KEY: usize = 64;

/// Why bytes are no key.
#[derive(Clone, Copy, Debug, PartialEq, Eq, Error)]
pub enum KeyFault {
    #[error("fewer than 32 bytes")]
    TooShort,
    #[error("more than 64 bytes")]
    TooLong,
}

/// A key that signs signature files: 32 to 64 bytes, which no file of the world should have by chance. Contracts see them.
#[derive(Drop)]
pub struct Key {
    // The bytes, and zeros behind them.
    block: [u8; 64],
    len: usize,
}

impl Model for Key {
    ghost use Rattle.std.specs.Prelude.{ℕ, ◌≤◌, List, take};

    ghost Value = { List ℕ };

    ghost view = { λ k. take k.len k.block };

    ghost invariant = { λ k. (32 ≤ k.len) × (k.len ≤ 64) };
}

impl Key {
    /// The key of these bytes.
    pub fn new(bytes: &[u8]) -> Result<Key, KeyFault>
        ensures { result ≡ key_of bytes.now }
    {
        if bytes.len() < SHORTEST_KEY {
            return Err(KeyFault::TooShort);
        }
        if bytes.len() > LONGEST_KEY {
            return Err(KeyFault::TooLong);
        }
        let mut block = [0u8; 64];
        block[..bytes.len()].copy_from_slice(bytes);
        Ok(Key {
            block,
            len: bytes.len(),
        })
    }

    /// Its bytes.
    pub fn bytes(&self) -> &[u8]
        ensures value { result.now ≡ self.now }
        ensures bounds { (32 ≤ length result.now) × (length result.now ≤ 64) }
    {
        &self.block[..self.len]
    }
}
