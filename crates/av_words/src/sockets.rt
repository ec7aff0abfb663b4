//! The paths of sockets.

ghost use Rattle.std.specs.Prelude.{◌≡◌, IfNone, IfSome};
ghost use Rattle.av_words.specs.Words.{IsSocketPath};

// The most bytes of a socket's path: what Linux has room for, less the byte behind its end.
const MAX_SOCKET: usize = 107;

/// A path, where it can be none of a socket.
pub fn bad_socket_of<'a>(path: &'a str) -> Option<&'a str>
    ensures good { IfNone result (IsSocketPath path.now) }
    ensures bad { IfSome result (λ bad. (bad.now ≡ path.now) × (IsSocketPath path.now → ⊥)) }
{
    if path.is_empty() || path.len() > MAX_SOCKET {
        Some(path)
    } else {
        None
    }
}
