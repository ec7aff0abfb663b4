ghost use Rattle.std.specs.Prelude.{◌≡◌};
ghost use Rattle.av_history.specs.Refusals.{word_of, judge_word_of};

use av_service::ConnectFault;
use av_sigset::CatalogueFault;
use av_store::StoreFault;
use thiserror::Error;

/// Why a step of a world is refused.
#[derive(Clone, Copy, Debug, PartialEq, Eq, Error)]
pub enum StepFault {
    /// No stream that is there has the name.
    #[error("NoSuchName")]
    NoSuchName,
    /// No message stands at that place.
    #[error("NoSuchFrame")]
    NoSuchFrame,
    /// No piece of work stands at that place, or it came back.
    #[error("NoSuchWork")]
    NoSuchWork,
    /// The version is 0, or the patterns are no signature set.
    #[error("BadSet")]
    BadSet,
    /// The catalogue refuses the set.
    #[error("{0}")]
    Catalogue(CatalogueFault),
    /// The volume refuses the change.
    #[error("{0}")]
    Store(StoreFault),
    /// The volume has given all its open numbers.
    #[error("OpensSpent")]
    OpensSpent,
    /// The volume was mounted as often as it can be.
    #[error("BootSpent")]
    BootSpent,
    /// The service does not connect.
    #[error("{0}")]
    Connect(ConnectFault),
}

impl StepFault {
    /// The word that a script's output has for the fault.
    pub fn word(self) -> &'static str
        ensures { result.now ≡ word_of self }
    {
        match self {
            StepFault::NoSuchName => "NoSuchName",
            StepFault::NoSuchFrame => "NoSuchFrame",
            StepFault::NoSuchWork => "NoSuchWork",
            StepFault::BadSet => "BadSet",
            StepFault::Catalogue(CatalogueFault::OldVersion) => "OldVersion",
            StepFault::Catalogue(CatalogueFault::CatalogueFull) => "CatalogueFull",
            StepFault::Store(StoreFault::BadName) => "BadName",
            StepFault::Store(StoreFault::Exists) => "Exists",
            StepFault::Store(StoreFault::Full) => "Full",
            StepFault::Store(StoreFault::NoStream) => "NoStream",
            StepFault::Store(StoreFault::Hole) => "Hole",
            StepFault::Store(StoreFault::TooLarge) => "TooLarge",
            StepFault::Store(StoreFault::GenerationSpent) => "GenerationSpent",
            StepFault::OpensSpent => "OpensSpent",
            StepFault::BootSpent => "BootSpent",
            StepFault::Connect(ConnectFault::NoSignatures) => "NoSignatures",
            StepFault::Connect(ConnectFault::AlreadyConnected) => "AlreadyConnected",
        }
    }
}

/// Why a stream is not judged.
#[derive(Clone, Copy, Debug, PartialEq, Eq, Error)]
pub enum JudgeFault {
    /// No stream that is there has the name.
    #[error("NoSuchName")]
    NoSuchName,
    /// No signature set was published.
    #[error("NoSignatures")]
    NoSignatures,
}

impl JudgeFault {
    /// The word that a script's output has for the fault.
    pub fn word(self) -> &'static str
        ensures { result.now ≡ judge_word_of self }
    {
        match self {
            JudgeFault::NoSuchName => "NoSuchName",
            JudgeFault::NoSignatures => "NoSignatures",
        }
    }
}
