ghost use Rattle.std.specs.Prelude.{◌≡◌};
ghost use Rattle.av_large.specs.Calls.{not_taken, unwelcome};
ghost use Rattle.av_large.specs.State.{tell};

use crate::answer::{Answer, Told};
use crate::fault::Unwelcome;
use av_asks::LargeCause;
use av_base::Cause;
use av_parts::Word;

/// A content without an answer: whose it is, the most bytes that it may have, how many were sent on, and whether its end was.
#[derive(Clone, Copy, Debug, PartialEq, Eq)]
pub struct Content {
    pub client: u64,
    pub tag: u64,
    pub most: u64,
    pub count: u64,
    pub ended: bool,
}

impl Content {
    // An answer to the content.
    pub(crate) fn tell(&self, answer: Answer) -> Told
        ensures { result ≡ tell self.now answer }
    {
        Told {
            client: self.client,
            tag: self.tag,
            answer,
        }
    }

    // Why this may not be said of the content, if it may not.
    pub(crate) fn fault(&self, word: &Word) -> Option<Unwelcome>
        ensures { result ≡ unwelcome self.now word.now }
    {
        match word {
            Word::Clean { .. } if !self.ended => Some(Unwelcome::NotEnded),
            Word::Clean { count, .. } if *count != self.count => Some(Unwelcome::Count),
            Word::Infected { end_at, .. } if *end_at > self.count => Some(Unwelcome::PastEnd),
            _ => None,
        }
    }
}

/// Whether the first connection of a scanning service is there.
#[derive(Clone, Copy, Debug, PartialEq, Eq)]
pub enum ServicePresence {
    Connected,
    Away,
}

impl ServicePresence {
    // Why a content can't be sent on, if it can't. `takes`: the service takes parts.
    pub(crate) fn lacks(self, takes: bool) -> Option<Answer>
        ensures { result ≡ not_taken self takes }
    {
        match self {
            ServicePresence::Away => Some(Answer::Unjudged {
                cause: Cause::NotConnected,
            }),
            ServicePresence::Connected if !takes => Some(Answer::Lacks {
                cause: LargeCause::NoParts,
            }),
            ServicePresence::Connected => None,
        }
    }
}

/// How a client ends a content.
#[derive(Clone, Copy, Debug, PartialEq, Eq)]
pub enum Ending {
    /// All of it was sent.
    Whole,
    /// It is not to be judged.
    GivenUp,
}
