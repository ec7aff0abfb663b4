ghost use Rattle.std.specs.Prelude.{◌≡◌};
ghost use Rattle.av_client.specs.Again.{is_given_up};
ghost use Rattle.av_client.specs.Asking.{answer_of, is_grant, told_of};

use crate::again::cause_of;
use av_asks::{ContentAnswer, LargeAnswer, LargeCause, OpenAnswer};
use av_base::{OpenId, StreamId, Version};
use av_pend::Answer;

/// What a guard replied about a content.
#[derive(Clone, Copy, Debug, PartialEq, Eq)]
pub enum Reply {
    /// What an open can be told.
    Open(Answer),
    /// It was not judged, for a cause that only contents in parts have.
    Large(LargeAnswer),
}

// An answer with its tag.
pub(crate) fn told(answer: ContentAnswer) -> (u64, Reply)
    ensures { result ≡ told_of answer }
{
    match answer {
        ContentAnswer::Open(answer) => {
            let tag = match answer {
                OpenAnswer::Granted { tag, .. } => tag,
                OpenAnswer::Denied { tag, .. } => tag,
                OpenAnswer::Unscanned { tag, .. } => tag,
            };
            (tag, Reply::Open(open(answer)))
        }
        ContentAnswer::Large(answer) => {
            let tag = match answer {
                LargeAnswer::Denied { tag, .. } => tag,
                LargeAnswer::Unscanned { tag, .. } => tag,
            };
            (tag, Reply::Large(answer))
        }
    }
}

// An answer as an open's, under the tag as the open's number.
fn open(answer: OpenAnswer) -> Answer
    ensures { result ≡ answer_of answer }
{
    match answer {
        OpenAnswer::Granted {
            tag,
            generation,
            version,
        } => Answer::Granted {
            open_id: OpenId::new(tag),
            least: Version::new(0),
            stream: StreamId::new(0),
            generation,
            version,
        },
        OpenAnswer::Denied { tag, cause } => Answer::Denied {
            open_id: OpenId::new(tag),
            cause,
        },
        OpenAnswer::Unscanned {
            tag,
            generation,
            cause,
        } => Answer::Unscanned {
            open_id: OpenId::new(tag),
            stream: StreamId::new(0),
            generation,
            cause,
        },
    }
}

// Whether it grants the open.
pub(crate) fn is_grant(reply: &Reply) -> bool
    ensures { result ≡ is_grant reply.now }
{
    matches!(reply, Reply::Open(Answer::Granted { .. }))
}

// Whether it says that the content was given up, and nothing more.
pub(crate) fn is_given_up(reply: &Reply) -> bool
    ensures { result ≡ is_given_up reply.now }
{
    match reply {
        Reply::Open(_) => false,
        Reply::Large(answer) => matches!(cause_of(*answer), LargeCause::GivenUp),
    }
}
