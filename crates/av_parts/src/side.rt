ghost use Rattle.std.specs.Prelude.{◌≡◌, ◌≤◌, ◌∷◌, ◌++◌, [], length, IfErr, IfOk, OnErr, OnOk};
ghost use Rattle.std.specs.Arc.{arc_value};
ghost use Rattle.av_parts.specs.declared.ended.Ended.TheVariants.{Memory};
ghost use Rattle.av_parts.specs.declared.word.Said.TheVariants.{Hello};
ghost use Rattle.av_parts.specs.Course.{Comes, Renews};
ghost use Rattle.av_parts.specs.Heard.{fresh, heard_of};
ghost use Rattle.av_parts.specs.Judge.{begun};
ghost use Rattle.av_parts.specs.Orders.{order_of};
ghost use Rattle.av_parts.specs.Serving.{StopsAt, frames_of};
ghost use Rattle.av_parts.specs.Spelling.{said_frame};
ghost use Rattle.av_parts.specs.Steps.{HearsFront, Leads, Obeys, RefusesAs, StopsAmid};

use crate::ended::Ended;
use crate::judge::Judge;
use crate::order::Order;
use crate::order_reader::OrderReader;
use crate::word::{Said, Word, put_said};
use av_base::Refusal;
use av_match::Automaton;
use std::alloc::{AllocError, Global};
use std::sync::Arc;

/// The service's side of a connection: what came of the guard, the judge, and the frames that wait to go out.
#[derive(Drop)]
pub struct Side {
    pub orders: OrderReader,
    pub judge: Judge,
    pub waits: Vec<u8>,
    // Words on their way to frames.
    words: Vec<Word>,
}

impl Side {
    /// A connection to which nothing came yet. The greeting waits.
    pub fn greet(alloc: Global, automaton: Arc<Automaton, Global>) -> Result<Side, AllocError>
        ensures orders { IfOk result (λ s. s.orders ≡ fresh) }
        ensures judge { IfOk result (λ s. s.judge ≡ begun (arc_value automaton)) }
        ensures waits { IfOk result (λ s. s.waits.items ≡ said_frame (Hello (arc_value automaton).version)) }
    {
        let judge = Judge::new(alloc, automaton);
        let mut waits = Vec::new(alloc);
        put_said(&mut waits, &judge.greeting())?;
        Ok(Side {
            orders: OrderReader::new(),
            judge,
            waits,
            words: Vec::new(alloc),
        })
    }

    /// A newer set came.
    pub fn renew(&mut self, newer: &Arc<Automaton, Global>) -> Result<(), AllocError>
        ensures orders { self.new.orders ≡ self.old.orders }
        ensures ok { OnOk result (Leads (Renews (arc_value newer.now) ∷ []) self.old.judge self.new.judge self.old.waits.items
            self.new.waits.items) }
        ensures err { OnErr result (self.new.waits.items ≡ self.old.waits.items) }
    {
        self.words.clear();
        self.judge.renew(newer, &mut self.words)?;
        put_words(&mut self.waits, &self.words)
    }

    // Obeys an order, and puts what is said.
    fn obey(&mut self, order: Order<'_>) -> Result<(), Ended>
        ensures orders { self.new.orders ≡ self.old.orders }
        ensures ok { OnOk result (Leads (Comes (order_of order.entry) ∷ []) self.old.judge self.new.judge self.old.waits.items
            self.new.waits.items) }
        ensures err { IfErr result (λ e. RefusesAs e self.old.judge (order_of order.entry)) }
        ensures waits { OnErr result (self.new.waits.items ≡ self.old.waits.items) }
    {
        match self.judge.obey(order) {
            Ok(None) => Ok(()),
            Ok(Some(word)) => {
                put_said(&mut self.waits, &Said::Of(word))?;
                Ok(())
            }
            Err(Refusal::Fault(fault)) => Err(Ended::Judge(fault)),
            Err(Refusal::NoMemory) => Err(Ended::Memory),
        }
    }

    // Obeys what the first bytes of a piece tell, and answers how many these are.
    fn hear_first(&mut self, piece: &[u8]) -> Result<usize, Ended>
        ensures within { IfOk result (λ taken. taken ≤ length piece.now) }
        ensures some { IfOk result (λ taken. 1 ≤ length piece.now → 1 ≤ taken) }
        ensures ok { IfOk result (λ taken. HearsFront taken piece.now self.old.orders self.new.orders self.old.judge self.new.judge
            self.old.waits.items self.new.waits.items) }
        ensures err { IfErr result (λ e. StopsAt e (heard_of piece.now self.old.orders).1 (heard_of piece.now self.old.orders).0
            self.old.judge) }
        ensures waits { OnErr result (self.new.waits.items ≡ self.old.waits.items) }
    {
        match self.orders.hear(piece) {
            Ok(heard) => {
                let taken = heard.taken;
                if let Some(order) = heard.order {
                    self.obey(order)?;
                }
                Ok(taken)
            }
            Err(fault) => Err(Ended::Order(fault)),
        }
    }
}

/// Obeys the orders of a piece in turn, and puts what is said of them.
pub fn hear(side: &mut Side, piece: &[u8]) -> Result<(), Ended>
    ensures orders { OnOk result (side.new.orders ≡ (heard_of piece.now side.old.orders).0) }
    ensures ok { OnOk result (Obeys piece.now side.old.orders side.old.judge side.new.judge side.old.waits.items side.new.waits.items []) }
    ensures err { IfErr result (λ e. StopsAmid e piece.now side.old.orders side.old.judge side.old.waits.items side.new.waits.items) }
{
    let mut at = 0;
    'orders: while at < piece.len() {
        match side.hear_first(&piece[at..]) {
            Ok(taken) => at += taken,
            Err(end) => return Err(end),
        }
    }
    Ok(())
}

// Puts the frames of words. Where memory is refused none of them is put.
fn put_words(waits: &mut Vec<u8>, words: &[Word]) -> Result<(), AllocError>
    ensures ok { OnOk result (waits.new.items ≡ waits.old.items ++ frames_of words.now) }
    ensures err { OnErr result (waits.new.items ≡ waits.old.items) }
{
    let before = waits.len();
    'words: for word in words {
        if put_said(waits, &Said::Of(*word)).is_err() {
            waits.truncate(before);
            return Err(AllocError);
        }
    }
    Ok(())
}
