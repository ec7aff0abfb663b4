ghost use Rattle.std.specs.Prelude.{◌≡◌, true, IfOk, IfSome, IfNone, IsSomeAnd, OnErr};
ghost use Rattle.av_turns.specs.Line.{IsFirst, IsInFront, IsNobodyInLine, Skips};
ghost use Rattle.av_turns.specs.Turns.{IsGiven, IsHeldUp, IsInTurn, IsKept, IsNoneGiven, Jumps, TakesLarge, TakesSmall};

use super::Turns;
use crate::limits::SMALLS;
use crate::line::{First, Found, Standing, WaitingLine};
use crate::questions::Questions;
use std::alloc::AllocError;

impl Turns {
    /// The ask that is to be asked now. Every second one may be the first of a client that had none in line when it came; the others
    /// go client by client: a large one where no small one may be asked, or after 16 small ones. None where no ask is in line, or the
    /// questions that run leave no room for those in front. Err where memory is refused.
    pub fn next_in_line(&mut self) -> Result<Option<Standing>, AllocError>
        ensures some { IfOk result (λ given. IfSome given (λ s. IsGiven self.old self.new s)) }
        ensures none { IfOk result (λ given. IfNone given (IsNoneGiven self.old self.new)) }
        ensures err { OnErr result (IsKept self.old self.new) }
    {
        if let Some(standing) = self.jump()? {
            return Ok(Some(standing));
        }
        self.next_in_turn()
    }

    // The ask whose turn it is.
    fn next_in_turn(&mut self) -> Result<Option<Standing>, AllocError>
        ensures some { IfOk result (λ given. IfSome given (λ s. IsInTurn self.old self.new s)) }
        ensures none { IfOk result (λ given. IfNone given (IsNoneGiven self.old self.new)) }
        ensures err { OnErr result (IsKept self.old self.new) }
    {
        let small = front_of(&mut self.smalls, &self.questions);
        let large = front_of(&mut self.larges, &self.questions);
        match (small, large) {
            (Some(first), None) => self.take_small(first),
            (None, Some(first)) => self.take_large(first),
            (Some(small), Some(large)) => {
                if self.passed < SMALLS {
                    self.take_small(small)
                } else {
                    self.take_large(large)
                }
            }
            (None, None) => Ok(None),
        }
    }

    // The first small ask of the client that may go ahead, if one may.
    fn jump(&mut self) -> Result<Option<Standing>, AllocError>
        ensures some { IfOk result (λ given. IfSome given (λ s. Jumps self.old self.new s)) }
        ensures none { IfOk result (λ given. IfNone given (self.new ≡ self.old)) }
        ensures err { OnErr result (self.new ≡ self.old) }
    {
        if !self.may_jump {
            return Ok(None);
        }
        let Some(client) = self.ahead.front().copied() else {
            return Ok(None);
        };
        let Some(first) = self.smalls.first_of(client) else {
            let _ = self.ahead.pop_front();
            return Ok(None);
        };
        if !self.questions.has_room(first.length) {
            return Ok(None);
        }
        self.pull_small(client, first)
    }

    // The first small ask of a client is taken out of its turn.
    fn pull_small(&mut self, client: u64, first: First) -> Result<Option<Standing>, AllocError>
        requires may { self.old.may_jump ≡ true }
        requires first { (first.client ≡ client) × IsFirst self.old.smalls.asks first }
        ensures some { IfOk result (λ given. IsSomeAnd given (λ s. Jumps self.old self.new s)) }
        ensures err { OnErr result (self.new ≡ self.old) }
    {
        let Some(counts) = self.clients.get(client) else {
            unreachable!()
        };
        self.clients
            .put(client, counts.small_left(first.length, first.next))?;
        let _ = self.ahead.pop_front();
        self.may_jump = false;
        self.passed = self.passed.saturating_add(1);
        let Some(standing) = self.smalls.pull(client) else {
            unreachable!()
        };
        self.grant();
        Ok(Some(standing))
    }

    // The small ask in front is taken.
    fn take_small(&mut self, first: First) -> Result<Option<Standing>, AllocError>
        requires { IsInFront self.old.smalls first }
        ensures some { IfOk result (λ given. IsSomeAnd given (λ s. TakesSmall self.old self.new s)) }
        ensures err { OnErr result (self.new ≡ self.old) }
    {
        let Some(counts) = self.clients.get(first.client) else {
            unreachable!()
        };
        self.clients
            .put(first.client, counts.small_left(first.length, first.next))?;
        self.passed = self.passed.saturating_add(1);
        self.may_jump = true;
        let Some(standing) = self.smalls.take() else {
            unreachable!()
        };
        self.grant();
        Ok(Some(standing))
    }

    // The large ask in front is taken.
    fn take_large(&mut self, first: First) -> Result<Option<Standing>, AllocError>
        requires { IsInFront self.old.larges first }
        ensures some { IfOk result (λ given. IsSomeAnd given (λ s. TakesLarge self.old self.new s)) }
        ensures err { OnErr result (self.new ≡ self.old) }
    {
        let Some(counts) = self.clients.get(first.client) else {
            unreachable!()
        };
        self.clients
            .put(first.client, counts.large_left(first.length))?;
        self.passed = 0;
        self.may_jump = true;
        let Some(standing) = self.larges.take() else {
            unreachable!()
        };
        self.grant();
        Ok(Some(standing))
    }
}

// The ask in front, where the questions that run leave room for it. Clients without an ask leave the order.
fn front_of(line: &mut WaitingLine, questions: &Questions) -> Option<First>
    ensures skips { Skips line.old line.new }
    ensures some { IfSome result (λ first. IsInFront line.new first) }
    ensures none { IfNone result (IsHeldUp questions.now line.new) }
{
    let first = skip_bare(line)?;
    if questions.has_room(first.length) {
        Some(first)
    } else {
        None
    }
}

// The ask in front.
fn skip_bare(line: &mut WaitingLine) -> Option<First>
    ensures skips { Skips line.old line.new }
    ensures some { IfSome result (λ first. IsInFront line.new first) }
    ensures none { IfNone result (IsNobodyInLine line.new) }
{
    loop {
        match line.look() {
            Found::Front(first) => return Some(first),
            Found::Later => {}
            Found::Nobody => return None,
        }
    }
}
