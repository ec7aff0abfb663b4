ghost use Rattle.std.specs.Prelude.{◌≡◌, ◌+◌, ◌≤◌, ◌&&◌, ◌++◌, [], length, nat_le, vec_len, vec_capacity, IsSome, IfOk, IfSome, Ok, OnErr, OnOk};
ghost use Rattle.std.specs.Arc.{arc_value};
ghost use Rattle.av_base.specs.Answers.{Answers};
ghost use Rattle.av_parts.specs.Judge.{at, begins, begun, brings, ended_by_newer, ends, moves, obeyed, renewed};
ghost use Rattle.av_match.specs.Scanning.{if_found};
ghost use Rattle.av_parts.specs.Orders.{order_of};
ghost use Rattle.av_parts.specs.Spelling.{IsWord};
ghost use Rattle.av_parts.specs.declared.word.Said.TheVariants.{Hello};

use crate::fault::JudgeFault;
use crate::order::Order;
use crate::sizes::{MAX_COUNT, MAX_HELD};
use crate::word::{Said, Unjudged, Word};
use av_base::{Refusal, Verdict};
use av_match::{Automaton, Scan};
use std::alloc::{AllocError, Global};
use std::collections::BTreeMap;
use std::marker::Model;
use std::sync::Arc;

/// What a service does over a connection: each content that comes in parts is judged by a scan of its own, under the newest
/// signature set, and nothing of its bytes is kept. At most 4,096 contents are judged at once.
#[derive(Drop)]
pub struct Judge {
    automaton: Arc<Automaton, Global>,
    held: BTreeMap<u64, Scan>,
    last: u64,
}

impl Model for Judge {
    ghost use Rattle.std.specs.Arc.{arc_value};
    ghost use Rattle.av_parts.specs.Judge.{Judging};

    ghost Value = { Judging };

    ghost view = { λ j. record { set = arc_value j.automaton; held = j.held.entries; last = j.last } };
}

impl Judge {
    /// A judge of a new connection, under this set. It takes no memory yet.
    pub fn new(alloc: Global, automaton: Arc<Automaton, Global>) -> Judge
        ensures { result ≡ begun (arc_value automaton) }
    {
        Judge {
            automaton,
            held: BTreeMap::new(alloc),
            last: 0,
        }
    }

    /// What the service greets with.
    pub fn greeting(&self) -> Said
        ensures { result ≡ Hello self.now.set.version }
    {
        let version = self.automaton.version();
        Said::Hello { version }
    }

    /// How many contents are judged now.
    pub fn len(&self) -> usize
        ensures { result ≡ length self.now.held }
    {
        self.held.len()
    }

    /// Obeys an order, and answers what is said of its content, if anything. An order that no guard sends is refused by its fault,
    /// and the connection is to be closed. Memory is requested for a content that begins alone. The cost is that of the scan, and
    /// the logarithm of how many contents are judged.
    #[tactic(auto, unfolding(crate::specs::Judge::obeyed))]
    pub fn obey(&mut self, order: Order<'_>) -> Result<Option<Word>, Refusal<JudgeFault>>
        ensures exact { Answers self.old self.new result (obeyed self.old (order_of order.entry)) }
        ensures spelled { 1 ≤ self.old.set.version → IfOk result (λ w. IfSome w (λ said. IsWord said)) }
    {
        match order {
            Order::Begin { number } => self.begin(number),
            Order::Part { number, .. } | Order::End { number, .. } | Order::Drop { number }
                if !self.knows(number) => { Err(Refusal::Fault(JudgeFault::Unknown)) }
            Order::Part { number, some } => self.bring(number, some),
            Order::End { number, count } => self.end(number, count),
            Order::Drop { number } => {
                let _ = self.held.remove(&number);
                Ok(None)
            }
        }
    }

    /// Learns that a newer set came: each content without a verdict is said to have none, and is to be asked about again. Words are
    /// appended by rising number of their contents. Where memory is refused nothing has changed.
    pub fn renew(
        &mut self,
        automaton: &Arc<Automaton, Global>,
        words: &mut Vec<Word>,
    ) -> Result<(), AllocError>
        ensures ok { OnOk result (self.new ≡ renewed self.old (arc_value automaton.now)) }
        ensures words { OnOk result (words.new.items ≡ words.old.items ++ ended_by_newer self.old.held) }
        ensures err { OnErr result ((self.new ≡ self.old) × (words.new.items ≡ words.old.items)) }
    {
        words.reserve(self.held.len())?;
        self.automaton = Arc::try_clone(automaton)?;
        end_all(&mut self.held, words);
        Ok(())
    }

    // Whether a content was begun under this number.
    fn knows(&self, number: u64) -> bool
        ensures { result ≡ (nat_le 1 number && nat_le number self.now.last) }
    {
        number >= 1 && number <= self.last
    }

    // A content begins.
    fn begin(&mut self, number: u64) -> Result<Option<Word>, Refusal<JudgeFault>>
        ensures exact { Answers self.old self.new result (begins self.old number) }
        ensures spelled { IfOk result (λ w. IfSome w (λ said. IsWord said)) }
    {
        if number <= self.last {
            return Err(Refusal::Fault(JudgeFault::NotAbove));
        }
        if self.held.len() >= MAX_HELD {
            self.last = number;
            return Ok(Some(Word::None {
                number,
                why: Unjudged::Full,
            }));
        }
        let scan = Scan::start(self.automaton.version(), MAX_COUNT);
        self.held.insert(number, scan)?;
        self.last = number;
        Ok(None)
    }

    // Some of a content comes.
    fn bring(&mut self, number: u64, some: &[u8]) -> Result<Option<Word>, Refusal<JudgeFault>>
        requires { 1 ≤ number }
        ensures spelled { 1 ≤ self.old.set.version → IfOk result (λ w. IfSome w (λ said. IsWord said)) }
        ensures exact { Answers self.old self.new result (brings self.old number some.now (at self.old.held number)) }
    {
        let Some(mut scan) = self.held.get(&number).copied() else {
            return Ok(None);
        };
        if scan.fed().checked_add(some.len() as u64).is_none() {
            return Err(Refusal::Fault(JudgeFault::TooLong));
        }
        scan.feed(&self.automaton, some);
        Ok(self.went_on(number, scan))
    }

    // The scan of a content went on.
    fn went_on(&mut self, number: u64, scan: Scan) -> Option<Word>
        requires held { IsSome (at self.old.held number) }
        requires some { 1 ≤ number }
        ensures exact { moves self.old number scan (if_found scan) ≡ Ok (result, self.new) }
        ensures spelled { 1 ≤ self.old.set.version → IfSome result (λ said. IsWord said) }
    {
        if let Some(Verdict::Infected { index, end_at }) = scan.hit() {
            let _ = self.held.remove(&number);
            return Some(Word::Infected {
                number,
                version: self.automaton.version(),
                index,
                end_at,
            });
        }
        if self.held.insert(number, scan).is_err() {
            unreachable!()
        }
        None
    }

    // A content is whole.
    fn end(&mut self, number: u64, count: u64) -> Result<Option<Word>, Refusal<JudgeFault>>
        requires { 1 ≤ number }
        ensures spelled { 1 ≤ self.old.set.version → IfOk result (λ w. IfSome w (λ said. IsWord said)) }
        ensures exact { Answers self.old self.new result (ends self.old number count (at self.old.held number)) }
    {
        let Some(scan) = self.held.get(&number).copied() else {
            return Ok(None);
        };
        if scan.fed() != count {
            return Err(Refusal::Fault(JudgeFault::Count));
        }
        let _ = self.held.remove(&number);
        Ok(Some(Word::Clean {
            number,
            version: self.automaton.version(),
            count,
        }))
    }
}

// Ends each content, for whose words there is room.
fn end_all(held: &mut BTreeMap<u64, Scan>, words: &mut Vec<Word>)
    requires { vec_len words.old + length held.old.entries ≤ vec_capacity words.old }
    ensures held { held.new.entries ≡ [] }
    ensures words { words.new.items ≡ words.old.items ++ ended_by_newer held.old.entries }
{
    'contents: while let Some((number, _)) = held.pop_first() {
        words
            .push(Word::None {
                number,
                why: Unjudged::Newer,
            })
            .unwrap();
    }
}
