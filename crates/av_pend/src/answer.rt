ghost use Rattle.std.specs.Prelude.{◌≡◌};
ghost use Rattle.av_pend.specs.Pend.{open_of};

use av_base::{Cause, Generation, OpenId, StreamId, Version};

/// What an open is told.
#[derive(Clone, Copy, Debug, PartialEq, Eq)]
pub enum Answer {
    /// The content of this generation is clean under the signature set of `version`, which is `least` or later.
    Granted {
        open_id: OpenId,
        least: Version,
        stream: StreamId,
        generation: Generation,
        version: Version,
    },
    /// The open is let through, with a content that could not be judged, for this cause.
    Unscanned {
        open_id: OpenId,
        stream: StreamId,
        generation: Generation,
        cause: Cause,
    },
    /// The open is kept out, for this cause.
    Denied {
        open_id: OpenId,
        cause: Cause,
    },
}

impl Answer {
    /// The open that it is for.
    pub fn open_id(&self) -> OpenId
        ensures { result ≡ open_of self.now }
    {
        match *self {
            Answer::Granted { open_id, .. } => open_id,
            Answer::Unscanned { open_id, .. } => open_id,
            Answer::Denied { open_id, .. } => open_id,
        }
    }
}
