ghost use Rattle.std.specs.Prelude.{◌≡◌, ◌++◌, false, None, IfOk, OnOk};
ghost use Rattle.std.specs.List.{flat_map, AllByRecursion};
ghost use Rattle.av_frame.specs.Frames.{Ends, frames_of, joined};
ghost use Rattle.av_frame.specs.Message.{IsLetter};
ghost use Rattle.av_frame.specs.Spelling.{frame};

use crate::fault::{FeedFault, FrameFault};
use crate::feed::Feed;
use crate::message::Message;
use av_base::{ByteList, Refusal};
use std::alloc::{AllocError, Global};

/// The messages that a stream of frames spells, and the fault that ends them, where one does.
#[derive(Debug, Drop)]
pub struct ReadFrames {
    pub messages: Vec<Message>,
    pub fault: Option<FrameFault>,
}

/// Reads a stream that comes in these pieces through one feed. It doesn't matter how the stream was cut: the messages
/// and the fault are those of the pieces joined.
pub fn read_frames(alloc: Global, pieces: &[ByteList]) -> Result<ReadFrames, AllocError>
    ensures messages { IfOk result (λ read. read.messages.items ≡ (frames_of (joined pieces.now)).messages) }
    ensures fault { IfOk result (λ read. read.fault ≡ (frames_of (joined pieces.now)).fault) }
{
    let mut feed = Feed::new(alloc);
    let mut messages = Vec::new(alloc);
    'pieces: for piece in pieces {
        match feed.push(piece.as_slice()) {
            Ok(()) => {}
            Err(Refusal::Fault(_)) => unreachable!(),
            Err(Refusal::NoMemory) => return Err(AllocError),
        }
        if let Some(fault) = take_all(&mut feed, &mut messages)? {
            return Ok(ReadFrames {
                messages,
                fault: Some(fault),
            });
        }
    }
    Ok(ReadFrames {
        messages,
        fault: None,
    })
}

// Takes every message off that the feed has, and answers the fault behind them, where there is one.
fn take_all(feed: &mut Feed, messages: &mut Vec<Message>) -> Result<Option<FrameFault>, AllocError>
    requires { feed.old.broken ≡ false }
    ensures bytes { OnOk result (flat_map frame messages.new.items ++ feed.new.rest
        ≡ flat_map frame messages.old.items ++ feed.old.rest) }
    ensures in_range { AllByRecursion IsLetter messages.old.items → AllByRecursion IsLetter messages.new.items }
    ensures ends { IfOk result (λ fault. Ends feed.new.rest fault) }
    ensures sound { IfOk result (λ fault. fault ≡ None → feed.new.broken ≡ false) }
{
    'messages: loop {
        match feed.next() {
            Ok(Some(message)) => messages.push(message)?,
            Ok(None) => return Ok(None),
            Err(Refusal::Fault(FeedFault::Frame(fault))) => return Ok(Some(fault)),
            Err(Refusal::Fault(FeedFault::Broken)) => unreachable!(),
            Err(Refusal::NoMemory) => return Err(AllocError),
        }
    }
}
