ghost use Rattle.std.specs.Prelude.{◌≡◌, ◌++◌, [], ◌≤◌, length, drop, false, IfOk, IfSome};
ghost use Rattle.av_base.specs.Answers.{Reads, Steps};
ghost use Rattle.av_frame.specs.Feed.{BeginsWithFrame, GivesNext, front_of, pushed};
ghost use Rattle.av_frame.specs.Message.{IsLetter};
ghost use Rattle.av_frame.specs.Spelling.{frame};

use crate::decode::decode;
use crate::fault::{FeedFault, FrameFault};
use crate::fields::u32_at;
use crate::message::Message;
use crate::sizes::MAX_BODY;
use av_base::Refusal;
use bytes::BytesMut;
use std::alloc::Global;
use std::marker::Model;

/// A stream of frames that comes in pieces, cut anywhere. What was pushed is copied once, and the room of frames that
/// were taken is used again.
#[derive(Drop)]
pub struct Feed {
    alloc: Global,
    rest: BytesMut,
    broken: bool,
}

impl Model for Feed {
    ghost use Rattle.av_frame.specs.Feed.{Fed};

    ghost Value = { Fed };

    ghost view = { λ f. record { rest = f.rest.items; broken = f.broken } };
}

impl Feed {
    /// A feed that got nothing yet. It takes no memory.
    pub fn new(alloc: Global) -> Feed
        ensures { result ≡ record { rest = []; broken = false } }
    {
        Feed {
            alloc,
            rest: BytesMut::new(alloc),
            broken: false,
        }
    }

    /// Takes the next piece of the stream. It may be empty.
    pub fn push(&mut self, piece: &[u8]) -> Result<(), Refusal<FeedFault>>
        ensures { Steps self.old self.new result (pushed piece.now self.old) }
    {
        if self.broken {
            return Err(Refusal::Fault(FeedFault::Broken));
        }
        Ok(self.rest.extend_from_slice(piece)?)
    }

    /// Takes the frame at the front off and gives its message, once all of the frame is there. Messages before a fault
    /// are given first; the fault is told once, and from then on every call answers `Broken`.
    pub fn next(&mut self) -> Result<Option<Message>, Refusal<FeedFault>>
        ensures { GivesNext self.old self.new result }
    {
        if self.broken {
            return Err(Refusal::Fault(FeedFault::Broken));
        }
        match front(self.alloc, self.rest.as_slice()) {
            Ok(Some((message, size))) => {
                self.rest.advance(size);
                Ok(Some(message))
            }
            Ok(None) => Ok(None),
            Err(Refusal::Fault(fault)) => {
                self.broken = true;
                Err(Refusal::Fault(FeedFault::Frame(fault)))
            }
            Err(Refusal::NoMemory) => Err(Refusal::NoMemory),
        }
    }
}

// The message at the front, where its frame is whole, and how many bytes the frame takes.
#[tactic(auto, unfolding(crate::specs::Feed::front_of))]
fn front(alloc: Global, rest: &[u8]) -> Result<Option<(Message, usize)>, Refusal<FrameFault>>
    ensures exact { Reads result (front_of rest.now) }
    ensures size { IfOk result (λ o. IfSome o (λ p. p.1 ≤ length rest.now)) }
    ensures message { IfOk result (λ o. IfSome o (λ p. IsLetter p.0 × (rest.now ≡ frame p.0 ++ drop p.1 rest.now))) }
    ensures memory { result ≡ Err Refusal.NoMemory → BeginsWithFrame rest.now }
{
    if rest.len() < 4 {
        return Ok(None);
    }
    let size = u32_at(rest, 0) as usize;
    if size == 0 || size > MAX_BODY {
        return Err(Refusal::Fault(FrameFault::Length));
    }
    if rest.len() < 4 + size {
        return Ok(None);
    }
    let (_, behind) = rest.split_at(4);
    let (body, _) = behind.split_at(size);
    match decode(alloc, body) {
        Ok(message) => Ok(Some((message, 4 + size))),
        Err(refusal) => Err(refusal),
    }
}

#[cfg(test)]
mod tests {
    use super::*;
    use std::test::Fail;

    #[test]
    fn the_room_of_frames_that_were_taken_is_used_again(rt: HostRuntime) -> Result<(), Fail> {
        let frame = [0, 0, 0, 10, 8, 1, 0, 0, 0, 0, 0, 0, 0, 1];
        let mut feed = Feed::new(rt.alloc());
        feed.push(&frame[..7])?;
        for _ in 0..10_000u32 {
            assert!(rt; gives_one(&mut feed, &frame[7..], &frame[..7])?);
        }
        assert!(rt; feed.rest.capacity() < 1_000);
        Ok(())
    }

    // Whether one message comes where a frame ends and the next one begins.
    fn gives_one(feed: &mut Feed, rest: &[u8], front: &[u8]) -> Result<bool, Fail> {
        feed.push(rest)?;
        feed.push(front)?;
        Ok(feed.next()?.is_some() && feed.next()?.is_none())
    }
}
