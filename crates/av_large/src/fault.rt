use thiserror::Error;

/// Why a content can't begin: the first of these that holds.
#[derive(Clone, Copy, Debug, PartialEq, Eq, Error)]
pub enum BeginFault {
    /// The client is within a content. No client that speaks the protocol begins another one there.
    #[error("Within")]
    Within,
    /// Numbers are spent: 2^64 - 1 was given. A new guard begins anew.
    #[error("NumbersSpent")]
    NumbersSpent,
}

/// Why what a service says may not come: the first of these that holds. The caller closes the second connection, which loses it.
#[derive(Clone, Copy, Debug, PartialEq, Eq, Error)]
pub enum Unwelcome {
    /// It greets a second time.
    #[error("Twice")]
    Twice,
    /// It greets with a version below the guard's floor.
    #[error("Older")]
    Older,
    /// The number was never given.
    #[error("NotGiven")]
    NotGiven,
    /// Clean is said of a content whose end was not sent.
    #[error("NotEnded")]
    NotEnded,
    /// Clean is said of another count of bytes than was sent.
    #[error("Count")]
    Count,
    /// A signature is said to end behind the bytes that were sent.
    #[error("PastEnd")]
    PastEnd,
}
