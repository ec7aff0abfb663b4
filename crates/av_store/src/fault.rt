use thiserror::Error;

/// Why a call of a volume is refused. Each call lists the ones that it can answer, in the order in which they are tested.
#[derive(Clone, Copy, Debug, PartialEq, Eq, Error)]
pub enum StoreFault {
    /// The name is empty, longer than 255 bytes, or has a byte outside 33 to 126.
    #[error("BadName")]
    BadName,
    /// A stream that is there has the name.
    #[error("Exists")]
    Exists,
    /// As many streams are there as the limit allows, or the last stream number was given.
    #[error("Full")]
    Full,
    /// No stream has the number.
    #[error("NoStream")]
    NoStream,
    /// The place is past the end of the stream.
    #[error("Hole")]
    Hole,
    /// The stream would be longer than the limit.
    #[error("TooLarge")]
    TooLarge,
    /// The stream's generation is at the limit.
    #[error("GenerationSpent")]
    GenerationSpent,
}

/// A volume was mounted 2^64 - 1 times, as often as it can be.
#[derive(Clone, Copy, Debug, PartialEq, Eq, Error)]
#[error("BootSpent")]
pub struct BootSpent;

/// A volume has given all its 2^64 - 1 open numbers.
#[derive(Clone, Copy, Debug, PartialEq, Eq, Error)]
#[error("OpensSpent")]
pub struct OpensSpent;
