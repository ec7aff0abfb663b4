use thiserror::Error;

/// Why bytes are no message: the first of these that holds, in this order but for a reply, whose status is judged before
/// the length that the status wants.
#[derive(Clone, Copy, Debug, PartialEq, Eq, Error)]
pub enum FrameFault {
    /// The body is empty or longer than 4,122 bytes.
    #[error("Length")]
    Length = 1,
    /// No kind of message has its first byte.
    #[error("Kind")]
    Kind = 2,
    /// No message of its kind, or of its status, has as many bytes.
    #[error("Shape")]
    Shape = 3,
    /// A field is out of its range.
    #[error("Range")]
    Range = 4,
}

/// Why a feed gives no message.
#[derive(Clone, Copy, Debug, PartialEq, Eq, Error)]
pub enum FeedFault {
    /// A fault was met before. The feed is of no further use.
    #[error("Broken")]
    Broken,
    /// This fault stands where a frame should; it is told once.
    #[error("{0}")]
    Frame(FrameFault),
}
