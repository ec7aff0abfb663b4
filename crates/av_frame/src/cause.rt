ghost use Rattle.std.specs.Prelude.{◌≡◌};
ghost use Rattle.av_frame.specs.Cause.{no_chunk_number, no_chunk_cause, fail_number, fail_cause};

/// Why content that was asked for is not sent. Frames write it as its number.
#[derive(Clone, Copy, Debug, PartialEq, Eq)]
pub enum NoChunkCause {
    /// The filter has no such question.
    NoQuestion = 1,
    /// No content stands at that offset.
    PastEnd = 2,
}

impl NoChunkCause {
    /// The number that stands for the cause.
    pub fn number(self) -> u8
        ensures { result ≡ no_chunk_number self }
    {
        self as u8
    }

    /// The cause of this number, where there is one.
    pub fn from_number(number: u8) -> Option<NoChunkCause>
        ensures { result ≡ no_chunk_cause number }
    {
        match number {
            1 => Some(NoChunkCause::NoQuestion),
            2 => Some(NoChunkCause::PastEnd),
            _ => None,
        }
    }
}

/// Why a question ends with no verdict. Frames write it as its number.
#[derive(Clone, Copy, Debug, PartialEq, Eq)]
pub enum FailCause {
    /// The scanning service runs as many scans as it may.
    JobsFull = 1,
    /// A chunk went past the length that the question gave.
    PastLength = 2,
}

impl FailCause {
    /// The number that stands for the cause.
    pub fn number(self) -> u8
        ensures { result ≡ fail_number self }
    {
        self as u8
    }

    /// The cause of this number, where there is one.
    pub fn from_number(number: u8) -> Option<FailCause>
        ensures { result ≡ fail_cause number }
    {
        match number {
            1 => Some(FailCause::JobsFull),
            2 => Some(FailCause::PastLength),
            _ => None,
        }
    }
}
