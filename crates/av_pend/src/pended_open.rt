ghost use Rattle.std.specs.Prelude.{◌≡◌, ◌≤◌};
ghost use Rattle.av_pend.specs.Pend.{waiting_from, granted, refused, denied, AgainOf};

use crate::again::Again;
use crate::answer::Answer;
use av_base::{Cause, Generation, Mode, OpenId, StreamId, Version};
use std::marker::Model;

/// How many rescans an open may see.
pub const MOST_RESCANS: u8 = 8;

/// An open that waits for its answer: what is to be opened, the least version that may judge it, and how many rescans it has
/// seen, from 0 to 8. Exactly one of `grant`, `refuse` and `deny` spends it; a value that is let go does not compile. No call
/// takes memory, and each takes the same short time.
pub struct PendedOpen {
    open_id: OpenId,
    stream: StreamId,
    least: Version,
    rescans: u8,
}

impl Model for PendedOpen {
    ghost use Rattle.std.specs.Prelude.{◌≤◌};
    ghost use Rattle.av_pend.specs.Waiting.{Waiting};

    ghost Value = { Waiting };

    ghost view = { λ p. record { open_id = p.open_id; stream = p.stream; least = p.least; rescans = p.rescans } };

    ghost invariant = { λ p. p.rescans ≤ 8 };
}

impl PendedOpen {
    /// An open that begins to wait, with no rescan seen. A version below `least` can't grant it; at 0 each can.
    pub fn new(open_id: OpenId, stream: StreamId, least: Version) -> PendedOpen
        ensures { result ≡ waiting_from open_id stream least }
    {
        PendedOpen {
            open_id,
            stream,
            least,
            rescans: 0,
        }
    }

    /// The number of the open.
    pub fn open_id(&self) -> OpenId
        ensures { result ≡ self.now.open_id }
    {
        self.open_id
    }

    /// The stream that is to be opened.
    pub fn stream(&self) -> StreamId
        ensures { result ≡ self.now.stream }
    {
        self.stream
    }

    /// The least version that may grant the open.
    pub fn least(&self) -> Version
        ensures { result ≡ self.now.least }
    {
        self.least
    }

    /// How many rescans were counted, 8 at most.
    pub fn rescans(&self) -> u8
        ensures value { result ≡ self.now.rescans }
        ensures bound { self.now.rescans ≤ 8 }
    {
        self.rescans
    }

    /// Lets the open through: its stream's content of this generation is clean under this version.
    pub fn grant(self, generation: Generation, version: Version) -> Answer
        requires { self.least ≤ version }
        ensures { result ≡ granted generation version self }
    {
        let PendedOpen {
            open_id,
            stream,
            least,
            rescans: _,
        } = self;
        Answer::Granted {
            open_id,
            least,
            stream,
            generation,
            version,
        }
    }

    /// Answers an open that can't be judged: it is denied, or let through as unscanned, as the mode says.
    pub fn refuse(self, mode: Mode, generation: Generation, cause: Cause) -> Answer
        ensures { result ≡ refused mode generation cause self }
    {
        let PendedOpen {
            open_id,
            stream,
            least: _,
            rescans: _,
        } = self;
        match mode {
            Mode::FailClosed => Answer::Denied { open_id, cause },
            Mode::FailOpen => Answer::Unscanned {
                open_id,
                stream,
                generation,
                cause,
            },
        }
    }

    /// Keeps the open out, in either mode.
    pub fn deny(self, cause: Cause) -> Answer
        ensures { result ≡ denied cause self }
    {
        let PendedOpen {
            open_id,
            stream: _,
            least: _,
            rescans: _,
        } = self;
        Answer::Denied { open_id, cause }
    }

    /// Counts one rescan more, where fewer than 8 were counted.
    pub fn again(self) -> Again
        ensures { AgainOf self result }
    {
        if self.rescans == MOST_RESCANS {
            return Again::Spent(self);
        }
        let PendedOpen {
            open_id,
            stream,
            least,
            rescans,
        } = self;
        Again::Held(PendedOpen {
            open_id,
            stream,
            least,
            rescans: rescans + 1,
        })
    }
}
