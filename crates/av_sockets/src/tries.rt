//! When a service makes its second connection, at which a guard sends it contents in parts.

ghost use Rattle.std.specs.Prelude.{◌≡◌, ◌+◌, nat_le, length};
ghost use Rattle.av_sockets.specs.Tries.{next_of};

use std::time::Duration;

/// The most bytes of the path of a socket.
pub const MAX_PATH: usize = 107;

/// What the path of a service's second socket has behind that of its first.
pub const BEHIND: &str = ".parts";

// How many bytes that is.
const BEHIND_SIZE: usize = 6;

/// The first connection of a service.
#[derive(Clone, Copy, Debug, PartialEq, Eq)]
pub enum First {
    /// The service has not greeted yet.
    Silent,
    /// The service has greeted, and the connection lives.
    Greeted,
    /// The connection is gone.
    Gone,
}

/// What is next for the second connection, while there is none.
#[derive(Clone, Copy, Debug, PartialEq, Eq)]
pub enum Next {
    /// It is tried now.
    Tries,
    /// It is not tried yet.
    Waits,
    /// It is not tried any more.
    Ends,
}

/// What is next, if it was tried or lost that long ago. It is tried as soon as the service has greeted on its first connection, and
/// again each second as long as that one lives.
pub fn next_of(first: First, tried: Option<Duration>) -> Next
    ensures { result ≡ next_of first tried }
{
    match (first, tried) {
        (First::Gone, _) => Next::Ends,
        (First::Silent, _) => Next::Waits,
        (First::Greeted, None) => Next::Tries,
        (First::Greeted, Some(ago)) if ago >= Duration::from_secs(1) => Next::Tries,
        (First::Greeted, Some(_)) => Next::Waits,
    }
}

/// Whether the path of a second socket is one that a socket can have, where the first has one of so many bytes.
pub fn has_second(size: usize) -> bool
    ensures { result ≡ nat_le (size + BEHIND_SIZE) MAX_PATH }
{
    size <= MAX_PATH - BEHIND_SIZE
}
