ghost use Rattle.av_guard.specs.Asking.{GivesNothing};

use crate::answered::Answered;
use av_frame::Message;
use std::alloc::Global;

/// An answer to an ask, under the numbers of the ask: the client's, and the tag that the client gave it.
#[derive(Clone, Copy, Debug, PartialEq, Eq)]
pub struct Told {
    pub client: u64,
    pub tag: u64,
    pub answer: Answered,
}

/// What an event gives out: answers in the order in which they came about, and messages for the service in the order in which
/// they are to be sent.
#[derive(Debug, Drop)]
pub struct GuardOut {
    pub told: Vec<Told>,
    pub messages: Vec<Message>,
}

impl GuardOut {
    // Nothing. It takes no memory.
    pub(crate) fn nothing(alloc: Global) -> GuardOut
        ensures { GivesNothing result }
    {
        GuardOut {
            told: Vec::new(alloc),
            messages: Vec::new(alloc),
        }
    }
}
