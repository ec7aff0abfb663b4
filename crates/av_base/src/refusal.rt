use std::alloc::{AllocError, AllocFailed};
use std::fmt::Display;
use thiserror::Error;

/// Why a call was refused: for a fault that the call names, or because memory was refused to it. Memory is the last
/// reason: a call that says `NoMemory` would otherwise have been accepted, and has changed nothing.
#[derive(Clone, Copy, Debug, PartialEq, Eq, Error)]
#[error_bound(F: Display)]
pub enum Refusal<F> {
    #[error("{0}")]
    Fault(F),
    #[error("NoMemory")]
    NoMemory,
}

impl<F> From<AllocError> for Refusal<F> {
    ghost use Rattle.std.specs.Prelude.{◌≡◌};
    ghost use Rattle.av_base.specs.declared.refusal.Refusal.TheVariants.{NoMemory};

    ghost from_gives = { λ _ e. e ≡ NoMemory };

    fn from(_e: AllocError) -> Refusal<F> {
        Refusal::NoMemory
    }
}

impl<F, T: Drop> From<AllocFailed<T>> for Refusal<F> {
    ghost use Rattle.std.specs.Prelude.{◌≡◌};
    ghost use Rattle.av_base.specs.declared.refusal.Refusal.TheVariants.{NoMemory};

    ghost from_gives = { λ _ e. e ≡ NoMemory };

    fn from(_e: AllocFailed<T>) -> Refusal<F> {
        Refusal::NoMemory
    }
}

/// A refused call hands back the value that it was given.
#[derive(Debug, Drop)]
pub struct Refused<T, F> {
    pub value: T,
    pub why: Refusal<F>,
}
