//! When a content is asked about again.

ghost use Rattle.std.specs.Prelude.{◌≡◌};
ghost use Rattle.av_client.specs.Again.{cause_of, next_way_of, taken_after, way_after};

use crate::reply::Reply;
use av_asks::{ContentAnswer, LargeAnswer, LargeCause};

/// How often a content is asked about again.
pub const MOST_TRIES: u32 = 3;

/// How a content is asked about.
#[derive(Clone, Copy, Debug, PartialEq, Eq)]
pub enum Way {
    /// As one ask, where it has at most 1,048,576 bytes.
    One,
    /// In parts.
    Parts,
}

/// What decides whether a content can be asked about again.
#[derive(Clone, Copy, Debug, PartialEq, Eq)]
pub struct Chance {
    /// How often it was asked about again so far.
    pub tries: u32,
    /// Whether it can be had once more, from its beginning.
    pub is_kept: bool,
    /// Whether it has at most 1,048,576 bytes.
    pub is_small: bool,
}

/// How a content is asked about again behind this reply, where it is. Where it was given up since no parts were taken, they are by now.
pub fn next_way(reply: Reply, chance: Chance) -> Option<Way>
    ensures { result ≡ next_way_of reply chance }
{
    match reply {
        Reply::Open(_) => None,
        Reply::Large(answer) => {
            if chance.is_kept && chance.tries < MOST_TRIES {
                way_after(cause_of(answer), chance.is_small)
            } else {
                None
            }
        }
    }
}

fn way_after(cause: LargeCause, is_small: bool) -> Option<Way>
    ensures { result ≡ way_after cause is_small }
{
    match cause {
        LargeCause::AskAgain | LargeCause::GivenUp => Some(Way::Parts),
        LargeCause::NoParts if is_small => Some(Way::One),
        LargeCause::NoParts | LargeCause::TooLarge => None,
    }
}

// Why a content in parts was not judged.
pub(crate) fn cause_of(answer: LargeAnswer) -> LargeCause
    ensures { result ≡ cause_of answer }
{
    match answer {
        LargeAnswer::Denied { cause, .. } => cause,
        LargeAnswer::Unscanned { cause, .. } => cause,
    }
}

// Whether contents in parts are taken, behind this answer.
pub(crate) fn taken_after(answer: &ContentAnswer, before: bool) -> bool
    ensures { result ≡ taken_after answer.now before }
{
    match answer {
        ContentAnswer::Open(_) => before,
        ContentAnswer::Large(answer) => match cause_of(*answer) {
            LargeCause::AskAgain | LargeCause::TooLarge | LargeCause::GivenUp => true,
            LargeCause::NoParts => false,
        },
    }
}
