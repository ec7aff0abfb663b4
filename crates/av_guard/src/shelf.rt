ghost use Rattle.std.specs.Prelude.{◌≡◌, ◌+◌, ◌-◌, ◌<◌, [], None, Some, OnOk, OnErr};
ghost use Rattle.av_guard.specs.Shelf.{Adds, IsIdle, Wakes, waits_of};

use av_base::StreamId;
use std::alloc::{AllocError, Global};
use std::collections::{BTreeMap, BinaryHeap};
use std::marker::Model;

// When a content was asked for last, counted down, so that the greatest came first; and whether it stands in the queue.
#[derive(Clone, Copy)]
struct Turn {
    turn: u64,
    queued: bool,
}

/// What is known of the contents that are kept, by the numbers of their streams: how many opens wait for each, and which one
/// of those that nobody waits for was asked for longest ago. Each call costs the logarithm of their count.
#[derive(Drop)]
pub(crate) struct Shelf {
    // The opens that wait, of each stream that has some.
    waits: BTreeMap<u64, u64>,
    turns: BTreeMap<u64, Turn>,
    // Each stream that nobody waits for, by a turn that is not below its own, and perhaps others.
    queue: BinaryHeap<(u64, u64)>,
    // The next turn.
    turn: u64,
    // How many contents there are, and their bytes.
    count: u64,
    bytes: u64,
}

/// The content to let go.
pub(crate) enum Oldest {
    /// Nobody waits for this one, and of those it was asked for longest ago.
    Idle(StreamId),
    /// The queue was put in order; to be asked again.
    Later,
    /// There is none but what was asked for last.
    Nothing,
}

impl Model for Shelf {
    ghost use Rattle.av_guard.specs.Shelf.{Kept};

    ghost Value = { Kept };

    ghost view = { λ s. record { waits = s.waits.entries; count = s.count; bytes = s.bytes } };
}

impl Shelf {
    pub(crate) fn new(alloc: Global) -> Shelf
        ensures { result ≡ record { waits = []; count = 0; bytes = 0 } }
    {
        Shelf {
            waits: BTreeMap::new(alloc),
            turns: BTreeMap::new(alloc),
            queue: BinaryHeap::new(alloc),
            turn: u64::MAX,
            count: 0,
            bytes: 0,
        }
    }

    pub(crate) fn count(&self) -> u64
        ensures { result ≡ self.now.count }
    {
        self.count
    }

    pub(crate) fn bytes(&self) -> u64
        ensures { result ≡ self.now.bytes }
    {
        self.bytes
    }

    /// A content of this many bytes comes to be kept, which nobody waits for. Where it is kept already, or the bytes of all
    /// are too many for a number, memory is said to be refused.
    pub(crate) fn add(&mut self, stream: StreamId, bytes: u64) -> Result<(), AllocError>
        ensures ok { OnOk result (self.new ≡ record self.old { count = self.old.count + 1; bytes = self.old.bytes + bytes }) }
        ensures err { OnErr result (self.new ≡ self.old) }
    {
        let Some(sum) = self.bytes.checked_add(bytes) else {
            return Err(AllocError);
        };
        let Some(count) = self.count.checked_add(1) else {
            return Err(AllocError);
        };
        if self.turns.contains_key(&stream.get()) {
            return Err(AllocError);
        }
        let room = (self.turns.len() + 1).saturating_sub(self.queue.len());
        self.queue.reserve(room)?;
        let turn = Turn {
            turn: self.turn,
            queued: true,
        };
        match self.turns.insert(stream.get(), turn) {
            Ok(_) => {}
            Err(_) => return Err(AllocError),
        }
        let _ = self.queue.push((self.turn, stream.get()));
        self.turn = self.turn.saturating_sub(1);
        self.count = count;
        self.bytes = sum;
        Ok(())
    }

    /// It was asked for now.
    pub(crate) fn touch(&mut self, stream: StreamId)
        ensures { self.new ≡ self.old }
    {
        if let Some(turn) = self.turns.get_mut(&stream.get()) {
            turn.turn = self.turn;
            self.turn = self.turn.saturating_sub(1);
        }
    }

    /// One open more waits for it.
    pub(crate) fn wait(&mut self, stream: StreamId) -> Result<(), AllocError>
        ensures ok { OnOk result (Adds self.old.waits self.new.waits stream) }
        ensures rest { (self.new.count ≡ self.old.count) × (self.new.bytes ≡ self.old.bytes) }
        ensures err { OnErr result (self.new ≡ self.old) }
    {
        let count = self.waiting_for(stream);
        let Some(more) = count.checked_add(1) else {
            return Err(AllocError);
        };
        match self.waits.insert(stream.get(), more) {
            Ok(_) => Ok(()),
            Err(_) => Err(AllocError),
        }
    }

    /// One open less waits for it.
    pub(crate) fn wake(&mut self, stream: StreamId)
        ensures wakes { Wakes self.old.waits self.new.waits stream }
        ensures rest { (self.new.count ≡ self.old.count) × (self.new.bytes ≡ self.old.bytes) }
    {
        let count = self.waiting_for(stream);
        if count <= 1 {
            let _ = self.waits.remove(&stream.get());
            self.stand_in_queue(stream);
        } else if let Some(waits) = self.waits.get_mut(&stream.get()) {
            *waits = count - 1;
        }
    }

    /// How many opens wait for it.
    pub(crate) fn waiting_for(&self, stream: StreamId) -> u64
        ensures { result ≡ waits_of self.now.waits stream }
    {
        match self.waits.get(&stream.get()) {
            Some(count) => *count,
            None => 0,
        }
    }

    // Nobody waits for it any more. There is room for each content.
    fn stand_in_queue(&mut self, stream: StreamId)
        ensures { self.new ≡ self.old }
    {
        let Some(turn) = self.turns.get_mut(&stream.get()) else {
            return;
        };
        if !turn.queued {
            turn.queued = true;
            let _ = self.queue.push((turn.turn, stream.get()));
        }
    }

    /// The content to let go.
    pub(crate) fn oldest(&mut self) -> Oldest
        ensures same { self.new ≡ self.old }
        ensures idle { IsIdle self.old.waits result }
    {
        let Some((turn, stream)) = self.queue.peek().copied() else {
            return Oldest::Nothing;
        };
        let idle = !self.waits.contains_key(&stream);
        let Some(own) = self.turns.get_mut(&stream) else {
            let _ = self.queue.pop();
            return Oldest::Later;
        };
        if idle && own.turn == turn {
            return if turn == self.turn.saturating_add(1) {
                Oldest::Nothing
            } else {
                Oldest::Idle(StreamId::new(stream))
            };
        }
        own.queued = idle;
        let _ = self.queue.pop();
        if idle {
            let _ = self.queue.push((own.turn, stream));
        }
        Oldest::Later
    }

    /// A content of this many bytes is kept no more.
    pub(crate) fn remove(&mut self, stream: StreamId, bytes: u64)
        ensures { self.new ≡ record self.old { count = self.old.count - 1; bytes = self.old.bytes - bytes } }
    {
        let _ = self.turns.remove(&stream.get());
        self.count = self.count.saturating_sub(1);
        self.bytes = self.bytes.saturating_sub(bytes);
    }
}
