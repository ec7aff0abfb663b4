ghost use Rattle.std.specs.Prelude.{◌≡◌, ◌+◌, ◌<◌, ◌≤◌, ◌++◌, [], length, drop, false, None, IfOk, IfSome};
ghost use Rattle.av_base.specs.Answers.{Steps};
ghost use Rattle.av_asks.specs.Spelling.{IsAnswer, answer_frame};
ghost use Rattle.av_asks.specs.Reading.{answer_front, answer_of, cause_of, denied_of, granted_of, unscanned_of};
ghost use Rattle.av_asks.specs.Feed.{given, pushed};

use crate::answer::OpenAnswer;
use crate::fault::AnswerFault;
use crate::fields::u64_at;
use crate::head::{Head, Side, read_head};
use crate::sizes::{DENIED_SIZE, GRANTED_SIZE, UNSCANNED_SIZE};
use av_base::{Cause, Generation, Refusal, Version};
use bytes::BytesMut;
use std::alloc::Global;
use std::marker::Model;

/// The stream of answers that a client hears, which comes in pieces cut anywhere.
#[derive(Drop)]
pub struct AnswerFeed {
    rest: BytesMut,
    broken: bool,
}

impl Model for AnswerFeed {
    ghost use Rattle.av_asks.specs.Feed.{Fed};

    ghost Value = { Fed };

    ghost view = { λ f. record { rest = f.rest.items; broken = f.broken } };
}

impl AnswerFeed {
    /// A feed that got nothing yet. It takes no memory.
    pub fn new(alloc: Global) -> AnswerFeed
        ensures { result ≡ record { rest = []; broken = false } }
    {
        AnswerFeed {
            rest: BytesMut::new(alloc),
            broken: false,
        }
    }

    /// Takes the next piece of the stream. It may be empty.
    pub fn push(&mut self, piece: &[u8]) -> Result<(), Refusal<AnswerFault>>
        ensures { Steps self.old self.new result (pushed AnswerFault.Broken piece.now self.old) }
    {
        if self.broken {
            return Err(Refusal::Fault(AnswerFault::Broken));
        }
        Ok(self.rest.extend_from_slice(piece)?)
    }

    /// Takes the answer at the front off, once all of it is there, without memory. Answers before a fault are given first;
    /// the fault is told once, and from then on every call answers `Broken`.
    pub fn next(&mut self) -> Result<Option<OpenAnswer>, AnswerFault>
        ensures exact { (result, self.new) ≡ given AnswerFault.Broken answer_front self.old }
        ensures frame { IfOk result (λ o. IfSome o (λ answer.
            IsAnswer answer × (self.old.rest ≡ answer_frame answer ++ self.new.rest))) }
    {
        if self.broken {
            return Err(AnswerFault::Broken);
        }
        match front(self.rest.as_slice()) {
            Ok(Some((answer, size))) => {
                self.rest.advance(size);
                Ok(Some(answer))
            }
            Ok(None) => Ok(None),
            Err(fault) => {
                self.broken = true;
                Err(fault)
            }
        }
    }
}

// The answer at the front, where its frame is whole, and how many bytes the frame takes.
#[tactic(auto, unfolding(crate::specs::Reading::answer_front))]
fn front(rest: &[u8]) -> Result<Option<(OpenAnswer, usize)>, AnswerFault>
    ensures exact { result ≡ answer_front rest.now }
    ensures size { IfOk result (λ o. IfSome o (λ p. p.1 ≤ length rest.now)) }
    ensures frame { IfOk result (λ o. IfSome o (λ p.
        IsAnswer p.0 × (rest.now ≡ answer_frame p.0 ++ drop p.1 rest.now))) }
{
    match read_head(Side::Answers, rest) {
        Head::Waits => Ok(None),
        Head::Length => Err(AnswerFault::Length),
        Head::Kind => Err(AnswerFault::Kind),
        Head::Whole(size) => {
            let answer = body(&rest[4..4 + size])?;
            Ok(Some((answer, 4 + size)))
        }
    }
}

// The answer of a body that has an answer's kind.
#[tactic(auto, unfolding(crate::specs::Reading::answer_of))]
pub(crate) fn body(body: &[u8]) -> Result<OpenAnswer, AnswerFault>
    requires { 1 ≤ length body.now }
    ensures { result ≡ answer_of body.now }
{
    match body[0] {
        2 => granted(body),
        3 => denied(body),
        _ => unscanned(body),
    }
}

#[tactic(auto, unfolding(crate::specs::Reading::granted_of))]
fn granted(body: &[u8]) -> Result<OpenAnswer, AnswerFault>
    ensures { result ≡ granted_of body.now }
{
    if body.len() != GRANTED_SIZE {
        return Err(AnswerFault::Shape);
    }
    Ok(OpenAnswer::Granted {
        tag: u64_at(body, 1),
        generation: Generation::new(u64_at(body, 9)),
        version: Version::new(u64_at(body, 17)),
    })
}

#[tactic(auto, unfolding(crate::specs::Reading::denied_of))]
fn denied(body: &[u8]) -> Result<OpenAnswer, AnswerFault>
    ensures { result ≡ denied_of body.now }
{
    if body.len() != DENIED_SIZE {
        return Err(AnswerFault::Shape);
    }
    let Some(cause) = cause(body[9]) else {
        return Err(AnswerFault::Cause);
    };
    Ok(OpenAnswer::Denied {
        tag: u64_at(body, 1),
        cause,
    })
}

#[tactic(auto, unfolding(crate::specs::Reading::unscanned_of))]
fn unscanned(body: &[u8]) -> Result<OpenAnswer, AnswerFault>
    ensures { result ≡ unscanned_of body.now }
{
    if body.len() != UNSCANNED_SIZE {
        return Err(AnswerFault::Shape);
    }
    let Some(cause) = cause(body[17]) else {
        return Err(AnswerFault::Cause);
    };
    Ok(OpenAnswer::Unscanned {
        tag: u64_at(body, 1),
        generation: Generation::new(u64_at(body, 9)),
        cause,
    })
}

fn cause(number: u8) -> Option<Cause>
    ensures { result ≡ cause_of number }
{
    Cause::from_number(number)
}
