ghost use Rattle.std.specs.Prelude.{◌≡◌, [], ◌∷◌, ◌++◌, length, slice_get, OnOk, IfErr, IfSome, IfNone};
ghost use Rattle.std.specs.Option.{option_map};
ghost use Rattle.av_turns.specs.Line.{asked_of, is_nobody};

use std::alloc::Global;
use std::collections::VecDeque;
use std::marker::Model;

/// An ask that waits until it may be asked.
#[derive(Drop)]
pub struct QueuedAsk {
    /// Its client's word for it.
    pub tag: u64,
    /// When its first byte came.
    pub first: u64,
    /// What is to be judged.
    pub content: Vec<u8>,
}

/// The asks of one client, in their order.
#[derive(Drop)]
pub struct Queue {
    asks: VecDeque<QueuedAsk>,
}

impl Model for Queue {
    ghost use Rattle.std.specs.Prelude.{List, map};
    ghost use Rattle.av_turns.specs.Line.{Asked, asked_of};

    ghost Value = { List Asked };

    ghost view = { λ q. map asked_of q.asks.items };
}

impl Queue {
    /// None.
    pub fn new(alloc: Global) -> Queue
        ensures { result ≡ [] }
    {
        Queue {
            asks: VecDeque::new(alloc),
        }
    }

    /// Whether there is none.
    pub fn is_empty(&self) -> bool
        ensures { result ≡ is_nobody self.now }
    {
        self.asks.is_empty()
    }

    /// One more, which is passed back where memory is refused.
    pub fn push(&mut self, ask: QueuedAsk) -> Result<(), QueuedAsk>
        ensures ok { OnOk result (self.new ≡ self.old ++ asked_of ask ∷ []) }
        ensures err { IfErr result (λ a. (a ≡ ask) × (self.new ≡ self.old)) }
    {
        match self.asks.push_back(ask) {
            Ok(_) => Ok(()),
            Err(failed) => Err(failed.value),
        }
    }

    /// The first leaves.
    pub fn pop(&mut self) -> Option<QueuedAsk>
        ensures some { IfSome result (λ a. self.old ≡ asked_of a ∷ self.new) }
        ensures none { IfNone result ((self.old ≡ []) × (self.new ≡ [])) }
    {
        self.asks.pop_front()
    }

    /// The last leaves.
    pub fn pop_last(&mut self) -> Option<QueuedAsk>
        ensures some { IfSome result (λ a. self.old ≡ self.new ++ asked_of a ∷ []) }
        ensures none { IfNone result ((self.old ≡ []) × (self.new ≡ [])) }
    {
        self.asks.pop_back()
    }

    /// How long the first one's content is.
    pub fn length(&self) -> Option<u64>
        ensures { result ≡ option_map (λ a. length a.content) (slice_get self.now 0) }
    {
        let ask = self.asks.front()?;
        Some(ask.content.len() as u64)
    }

    /// When the first byte of the second one came.
    pub fn second(&self) -> Option<u64>
        ensures { result ≡ option_map (λ a. a.first) (slice_get self.now 1) }
    {
        let ask = self.asks.get(1)?;
        Some(ask.first)
    }
}
