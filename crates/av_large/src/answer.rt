ghost use Rattle.std.specs.Prelude.{◌≡◌, None};
ghost use Rattle.av_large.specs.Calls.{answer_of, number_of};

use av_asks::LargeCause;
use av_base::{Cause, Version};
use av_parts::{Order, Unjudged, Word};

/// What a content in parts is answered.
#[derive(Clone, Copy, Debug, PartialEq, Eq)]
pub enum Answer {
    /// It is clean under the signature set of this version, which is the guard's.
    Granted {
        version: Version,
    },
    /// A signature occurs in it: the version of the set, the index of the signature, and the count of bytes up to its end.
    Infected {
        version: Version,
        index: u32,
        end_at: u64,
    },
    /// It could not be judged, for a cause that small contents have too.
    Unjudged {
        cause: Cause,
    },
    /// It was not judged, for a cause that only contents in parts have.
    Lacks {
        cause: LargeCause,
    },
}

impl Answer {
    // What a word of the service answers, at the guard's floor.
    pub(crate) fn of(floor: Version, word: &Word) -> Answer
        ensures { result ≡ answer_of floor word.now }
    {
        match word {
            Word::Clean { version, .. } if version.get() == floor.get() => {
                Answer::Granted { version: *version }
            }
            Word::Infected {
                version,
                index,
                end_at,
                ..
            } if version.get() == floor.get() => Answer::Infected {
                version: *version,
                index: *index,
                end_at: *end_at,
            },
            Word::None {
                why: Unjudged::Full,
                ..
            } => Answer::Unjudged { cause: Cause::Busy },
            _ => Answer::Lacks {
                cause: LargeCause::AskAgain,
            },
        }
    }
}

/// An answer to a content, under the numbers of its client and the tag that the client gave it.
#[derive(Clone, Copy, Debug, PartialEq, Eq)]
pub struct Told {
    pub client: u64,
    pub tag: u64,
    pub answer: Answer,
}

/// What becomes of a content that begins.
#[derive(Clone, Copy, Debug, PartialEq, Eq)]
pub enum Begun {
    /// It has this number: the service is to be sent an `Order::Begin`.
    Sent { number: u64 },
    /// It is told at once, and nothing of it is sent.
    Answered(Told),
}

/// What an event about one content gives out: an answer to tell, and an order to send.
#[derive(Clone, Copy, Debug, PartialEq, Eq)]
pub struct LargeOut<'a> {
    pub told: Option<Told>,
    pub order: Option<Order<'a>>,
}

// Nothing.
pub(crate) fn nothing<'a>() -> LargeOut<'a>
    ensures told { result.told ≡ None }
    ensures order { result.order ≡ None }
{
    LargeOut {
        told: None,
        order: None,
    }
}

// The number of a word.
pub(crate) fn number_in(word: &Word) -> u64
    ensures { result ≡ number_of word.now }
{
    match word {
        Word::Clean { number, .. } | Word::Infected { number, .. } | Word::None { number, .. } => {
            *number
        }
    }
}
