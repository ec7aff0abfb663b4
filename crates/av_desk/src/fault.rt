ghost use Rattle.std.specs.Prelude.{◌≡◌};
ghost use Rattle.av_base.specs.declared.refusal.Refusal.TheVariants.{Fault, NoMemory};
ghost use Rattle.av_desk.specs.declared.fault.DeskFault.TheVariants.{AuditFull};

use av_base::{Refusal, Refused};
use thiserror::Error;

/// Why a desk refuses a call, the first that holds. Want of memory comes last and has no word here.
#[derive(Clone, Copy, Debug, PartialEq, Eq, Error)]
pub enum DeskFault {
    /// The audit has as many events as the limits say.
    #[error("AuditFull")]
    AuditFull,
    /// No signature set was published.
    #[error("NoSignatures")]
    NoSignatures,
    /// The service is connected.
    #[error("AlreadyConnected")]
    AlreadyConnected,
    /// The set's version is not above those that were published.
    #[error("OldVersion")]
    OldVersion,
    /// The catalogue has as many sets as it may have.
    #[error("CatalogueFull")]
    CatalogueFull,
}

// The refusals that hand a value back.

pub(crate) fn full<T>(value: T) -> Refused<T, DeskFault>
    ensures value { result.value ≡ value }
    ensures why { result.why ≡ Fault AuditFull }
{
    Refused {
        value,
        why: Refusal::Fault(DeskFault::AuditFull),
    }
}

pub(crate) fn no_memory<T>(value: T) -> Refused<T, DeskFault>
    ensures value { result.value ≡ value }
    ensures why { result.why ≡ NoMemory }
{
    Refused {
        value,
        why: Refusal::NoMemory,
    }
}
