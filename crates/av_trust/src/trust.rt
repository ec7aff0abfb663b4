//! Which signature files are taken.

ghost use Rattle.std.specs.Prelude.{◌≡◌, MatchResult, Ok, Err};
ghost use Rattle.av_trust.specs.Trust.{text_by, trust_by};

use crate::key::Key;
use crate::signed::{is_signed, trusted};
use thiserror::Error;

/// Which signature files are taken.
#[derive(Clone, Copy)]
pub enum Trust<'a> {
    /// Those that are not signed. A signed one is refused, since nobody verified it.
    Unsigned,
    /// Those alone that were signed with this key.
    Signed(&'a Key),
}

impl<'a> Trust<'a> {
    /// The trust in a key, where there is one.
    pub fn by(key: Option<&'a Key>) -> Trust<'a>
        ensures { result ≡ trust_by key.entry }
    {
        match key {
            Some(key) => Trust::Signed(key),
            None => Trust::Unsigned,
        }
    }
}

/// Why a signature file is not taken, before it is read as one.
#[derive(Clone, Copy, Debug, PartialEq, Eq, Error)]
pub enum TrustFault {
    /// It is signed, and there is no key to verify it.
    #[error("is signed")]
    NoKey,
    /// It is not signed, and only signed ones are taken.
    #[error("is not signed")]
    NotSigned,
    /// It begins as signed ones do, and its first line is none.
    #[error("bad first line")]
    BadLine,
    /// It was not signed with this key, or was changed since.
    #[error("not signed with this key, or changed since")]
    OtherKey,
}

/// The text of a file that is taken: the file as it is, or what was signed.
pub fn text_of<'a>(trust: Trust<'_>, file: &'a [u8]) -> Result<&'a [u8], TrustFault>
    ensures { MatchResult result (λ text. text_by trust.entry file.now ≡ Ok text.now) (λ fault. text_by trust.entry file.now ≡ Err fault) }
{
    match trust {
        Trust::Unsigned if is_signed(file) => Err(TrustFault::NoKey),
        Trust::Unsigned => Ok(file),
        Trust::Signed(key) => trusted(key, file),
    }
}
