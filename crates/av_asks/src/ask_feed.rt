ghost use Rattle.std.specs.Prelude.{◌≡◌, ◌+◌, ◌<◌, ◌≤◌, ◌++◌, [], length, drop, false, None, Ok, IfOk, IfSome};
ghost use Rattle.av_base.specs.Answers.{Steps};
ghost use Rattle.av_asks.specs.Spelling.{IsAsk, ask_frame, asked};
ghost use Rattle.av_asks.specs.Reading.{ask_front, ask_of};
ghost use Rattle.av_asks.specs.Feed.{GivesAsk, IsFront, IsBody, begun, given, pushed, within};

use crate::ask::Ask;
use crate::fault::AskFault;
use crate::fields::{u32_first, u64_at};
use crate::head::{Head, Side, read_head};
use crate::sizes::{ASK_HEAD, MAX_ASK, MAX_CONTENT};
use av_base::{ByteList, Refusal};
use bytes::BytesMut;
use std::alloc::Global;
use std::marker::Model;

// The most bytes of a frame whose room is used again.
const LARGE: usize = 8_192;

/// A client's stream of asks, which comes in pieces cut anywhere. A feed holds what was pushed and not taken, and asks for
/// no memory ahead of it.
#[derive(Drop)]
pub struct AskFeed {
    alloc: Global,
    rest: BytesMut,
    broken: bool,
}

impl Model for AskFeed {
    ghost use Rattle.av_asks.specs.Feed.{Fed};

    ghost Value = { Fed };

    ghost view = { λ f. record { rest = f.rest.items; broken = f.broken } };
}

impl AskFeed {
    /// A feed that got nothing yet. It takes no memory.
    pub fn new(alloc: Global) -> AskFeed
        ensures { result ≡ record { rest = []; broken = false } }
    {
        AskFeed {
            alloc,
            rest: BytesMut::new(alloc),
            broken: false,
        }
    }

    /// Takes the next piece of the stream. It may be empty.
    pub fn push(&mut self, piece: &[u8]) -> Result<(), Refusal<AskFault>>
        ensures { Steps self.old self.new result (pushed AskFault.Broken piece.now self.old) }
    {
        if self.broken {
            return Err(Refusal::Fault(AskFault::Broken));
        }
        Ok(self.rest.extend_from_slice(piece)?)
    }

    /// Takes the ask at the front off, once all of it is there; its bytes are copied once. Asks before a fault are given
    /// first; the fault is told once, and from then on every call answers `Broken`. Where nothing is given, what the feed
    /// still holds is less than one frame.
    pub fn next(&mut self) -> Result<Option<Ask>, Refusal<AskFault>>
        ensures exact { GivesAsk self.old self.new result (given AskFault.Broken ask_front self.old) }
        ensures frame { IfOk result (λ o. IfSome o (λ ask.
            IsAsk (asked ask) × (self.old.rest ≡ ask_frame (asked ask) ++ self.new.rest))) }
        ensures short { IfOk result (λ o. o ≡ None → length self.new.rest < 4 + MAX_ASK) }
    {
        if self.broken {
            return Err(Refusal::Fault(AskFault::Broken));
        }
        match front(self.alloc, self.rest.as_slice()) {
            Ok(Some((ask, size))) => {
                self.rest.advance(size);
                if size > LARGE {
                    self.give_room_back();
                }
                Ok(Some(ask))
            }
            Ok(None) => Ok(None),
            Err(Refusal::Fault(fault)) => {
                self.broken = true;
                Err(Refusal::Fault(fault))
            }
            Err(Refusal::NoMemory) => Err(Refusal::NoMemory),
        }
    }

    // Moves what is left into room of its own, so that none stays as large as a frame that was taken off. Without memory it stays.
    fn give_room_back(&mut self)
        ensures { self.new ≡ self.old }
    {
        let mut rest = BytesMut::new(self.alloc);
        if rest.extend_from_slice(self.rest.as_slice()).is_ok() {
            self.rest = rest;
        }
    }

    /// How many bytes have come of the frame at the front, and how many it has: 0 as long as its length has not come.
    pub fn begun(&self) -> (usize, usize)
        ensures { result ≡ begun self.now }
    {
        let came = self.rest.len();
        if came < 4 {
            return (came, 0);
        }
        (came, u32_first(self.rest.as_slice()) as usize + 4)
    }

    /// Whether a frame has begun that is not whole yet.
    pub fn is_within(&self) -> bool
        ensures { result ≡ within self.now }
    {
        if self.broken || self.rest.is_empty() {
            return false;
        }
        matches!(read_head(Side::Asks, self.rest.as_slice()), Head::Waits)
    }

    #[cfg(test)]
    pub fn room(&self) -> usize {
        self.rest.capacity()
    }
}

// The ask at the front, where its frame is whole, and how many bytes the frame takes.
#[tactic(auto, unfolding(crate::specs::Reading::ask_front))]
fn front(alloc: Global, rest: &[u8]) -> Result<Option<(Ask, usize)>, Refusal<AskFault>>
    ensures exact { IsFront result (ask_front rest.now) }
    ensures size { IfOk result (λ o. IfSome o (λ p. p.1 ≤ length rest.now)) }
    ensures frame { IfOk result (λ o. IfSome o (λ p.
        IsAsk (asked p.0) × (rest.now ≡ ask_frame (asked p.0) ++ drop p.1 rest.now))) }
    ensures short { IfOk result (λ o. o ≡ None → length rest.now < 4 + MAX_ASK) }
{
    match read_head(Side::Asks, rest) {
        Head::Waits => Ok(None),
        Head::Length => Err(Refusal::Fault(AskFault::Length)),
        Head::Kind => Err(Refusal::Fault(AskFault::Kind)),
        Head::Whole(size) => {
            let ask = body(alloc, &rest[4..4 + size])?;
            Ok(Some((ask, 4 + size)))
        }
    }
}

// The ask of a body that has an ask's length and kind. What is wrong with it is found before anything is copied.
#[tactic(auto, unfolding(crate::specs::Reading::ask_of))]
pub(crate) fn body(alloc: Global, body: &[u8]) -> Result<Ask, Refusal<AskFault>>
    requires { ASK_HEAD ≤ length body.now }
    ensures { IsBody result (ask_of body.now) }
{
    let label_end = ASK_HEAD + usize::from(body[9]);
    if body.len() < label_end {
        return Err(Refusal::Fault(AskFault::Label));
    }
    if body.len() - label_end > MAX_CONTENT {
        return Err(Refusal::Fault(AskFault::Content));
    }
    let label = ByteList::copied(alloc, &body[ASK_HEAD..label_end])?;
    let content = body[label_end..].to_vec(alloc)?;
    Ok(Ask {
        tag: u64_at(body, 1),
        label,
        content,
    })
}
