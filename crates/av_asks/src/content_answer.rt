ghost use Rattle.std.specs.Prelude.{◌≡◌, ◌≤◌, ◌+◌, [], length, false, IfOk, IfSome};
ghost use Rattle.av_base.specs.Answers.{Steps};
ghost use Rattle.av_asks.specs.ContentAnswers.{content_answer_front, content_answer_of, large_of};
ghost use Rattle.av_asks.specs.Feed.{given, pushed};

use crate::answer::OpenAnswer;
use crate::answer_feed::body as answer_of;
use crate::fault::AnswerFault;
use crate::fields::u64_at;
use crate::head::{Head, Side, read_head};
use crate::large_answer::{LargeAnswer, LargeCause};
use crate::sizes::{DENIED_SIZE, UNSCANNED_SIZE};
use av_base::{Generation, Refusal};
use bytes::BytesMut;
use std::alloc::Global;
use std::marker::Model;

/// What a client is told that may send contents in parts.
#[derive(Clone, Copy, Debug, PartialEq, Eq)]
pub enum ContentAnswer {
    /// What an ask can be told too.
    Open(OpenAnswer),
    /// For a cause that only contents in parts have.
    Large(LargeAnswer),
}

/// The stream of answers that a client hears which may send contents in parts. It comes in pieces cut anywhere.
#[derive(Drop)]
pub struct ContentAnswerFeed {
    rest: BytesMut,
    broken: bool,
}

impl Model for ContentAnswerFeed {
    ghost use Rattle.av_asks.specs.Feed.{Fed};

    ghost Value = { Fed };

    ghost view = { λ f. record { rest = f.rest.items; broken = f.broken } };
}

impl ContentAnswerFeed {
    /// A feed that got nothing yet. It takes no memory.
    pub fn new(alloc: Global) -> ContentAnswerFeed
        ensures { result ≡ record { rest = []; broken = false } }
    {
        ContentAnswerFeed {
            rest: BytesMut::new(alloc),
            broken: false,
        }
    }

    /// Takes the next piece of the stream. It may be empty.
    pub fn push(&mut self, piece: &[u8]) -> Result<(), Refusal<AnswerFault>>
        ensures { Steps self.old self.new result (pushed AnswerFault.Broken piece.now self.old) }
    {
        if self.broken {
            return Err(Refusal::Fault(AnswerFault::Broken));
        }
        Ok(self.rest.extend_from_slice(piece)?)
    }

    /// Takes the answer at the front off, once all of it is there, without memory. Answers before a fault are given first;
    /// the fault is told once, and from then on every call answers `Broken`.
    pub fn next(&mut self) -> Result<Option<ContentAnswer>, AnswerFault>
        ensures { (result, self.new) ≡ given AnswerFault.Broken content_answer_front self.old }
    {
        if self.broken {
            return Err(AnswerFault::Broken);
        }
        match front(self.rest.as_slice()) {
            Ok(Some((answer, size))) => {
                self.rest.advance(size);
                Ok(Some(answer))
            }
            Ok(None) => Ok(None),
            Err(fault) => {
                self.broken = true;
                Err(fault)
            }
        }
    }
}

// The answer at the front, where its frame is whole, and how many bytes the frame takes.
#[tactic(auto, unfolding(crate::specs::ContentAnswers::content_answer_front))]
fn front(rest: &[u8]) -> Result<Option<(ContentAnswer, usize)>, AnswerFault>
    ensures exact { result ≡ content_answer_front rest.now }
    ensures size { IfOk result (λ o. IfSome o (λ p. p.1 ≤ length rest.now)) }
{
    match read_head(Side::Answers, rest) {
        Head::Waits => Ok(None),
        Head::Length => Err(AnswerFault::Length),
        Head::Kind => Err(AnswerFault::Kind),
        Head::Whole(size) => {
            let answer = body(&rest[4..4 + size])?;
            Ok(Some((answer, 4 + size)))
        }
    }
}

// The answer of a body that has an answer's kind.
#[tactic(auto, unfolding(crate::specs::ContentAnswers::content_answer_of))]
fn body(body: &[u8]) -> Result<ContentAnswer, AnswerFault>
    requires { 1 ≤ length body.now }
    ensures { result ≡ content_answer_of body.now }
{
    match answer_of(body) {
        Ok(answer) => Ok(ContentAnswer::Open(answer)),
        Err(AnswerFault::Cause) => large(body),
        Err(fault) => Err(fault),
    }
}

// The answer of a body whose cause no ask has.
#[tactic(auto, unfolding(crate::specs::ContentAnswers::large_of))]
fn large(body: &[u8]) -> Result<ContentAnswer, AnswerFault>
    requires { 1 ≤ length body.now }
    ensures { result ≡ large_of body.now }
{
    if body[0] == 3 && body.len() == DENIED_SIZE {
        let Some(cause) = LargeCause::from_number(body[9]) else {
            return Err(AnswerFault::Cause);
        };
        let tag = u64_at(body, 1);
        return Ok(ContentAnswer::Large(LargeAnswer::Denied { tag, cause }));
    }
    if body[0] == 4 && body.len() == UNSCANNED_SIZE {
        let Some(cause) = LargeCause::from_number(body[17]) else {
            return Err(AnswerFault::Cause);
        };
        let (tag, generation) = (u64_at(body, 1), Generation::new(u64_at(body, 9)));
        return Ok(ContentAnswer::Large(LargeAnswer::Unscanned {
            tag,
            generation,
            cause,
        }));
    }
    Err(AnswerFault::Cause)
}
