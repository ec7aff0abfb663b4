ghost use Rattle.std.specs.Prelude.{◌≡◌, ◌∷◌, ◌<◌, ◌≤◌, [], false, IfErr, IfOk, OnErr, OnOk};
ghost use Rattle.av_base.specs.Recorded.{AreLeft};
ghost use Rattle.av_engines.specs.Cause.{IsOfReader};
ghost use Rattle.av_engines.specs.Incoming.{EndsAs, GivesFront, HasArrived, HasNoFront, HasNoneFor, IsDue, Reads, ReadsNothing, Takes, listed, nothing_yet, to_come, unread};
ghost use Rattle.av_frame.specs.declared.end.End.TheVariants.{Memory};

use av_base::Refusal;
use av_base::recorded::RecordedRead;
use av_frame::{End, Feed, FeedFault, Message};
use std::alloc::{AllocError, Global};
use std::io::ErrorKind;
use std::marker::Model;

// How many bytes are read at once: two frames of the greatest length, or some hundred small ones.
const PIECE: usize = 8_192;

/// The messages of a stream of frames, read from any reader as they are wanted. What was read and not taken yet is kept, so
/// all reads of a stream go through one value. It holds a buffer of 8 KiB and the bytes of the frames that came.
#[derive(Drop)]
pub struct Incoming {
    feed: Feed,
    // What was read last; its first `waiting` bytes are not in the feed yet.
    buffer: Vec<u8>,
    waiting: usize,
    turns: u64,
}

impl Model for Incoming {
    ghost use Rattle.std.specs.Prelude.{take};
    ghost use Rattle.av_engines.specs.Incoming.{IsKept, Received};

    ghost Value = { Received };

    ghost view = { λ i. record { fed = i.feed; waiting = take i.waiting i.buffer.items; turns = i.turns } };

    ghost invariant = { λ i. IsKept i.feed i.buffer.items i.waiting };
}

impl Incoming {
    /// A stream of which nothing was read yet, and of which at most `turns` reads will be made.
    pub fn new(alloc: Global, turns: u64) -> Result<Incoming, AllocError>
        ensures { IfOk result (λ i. i ≡ nothing_yet turns) }
    {
        let mut buffer = Vec::new(alloc);
        buffer.resize(PIECE, 0)?;
        Ok(Incoming {
            feed: Feed::new(alloc),
            buffer,
            waiting: 0,
            turns,
        })
    }

    /// From now on at most `turns` reads are made.
    pub fn allow(&mut self, turns: u64)
        ensures { self.new ≡ record { fed = self.old.fed; waiting = self.old.waiting; turns = turns } }
    {
        self.turns = turns;
    }

    /// The next whole message of the stream, for which as many reads are made as are needed: none where it came with an
    /// earlier one. Else Frame, where what came next is no frame of a message, also at every later call; Closed, where the
    /// input ended, also within a frame; ReadFault, where a read failed or none is left; Memory. All but Frame may be called
    /// again: nothing that came is lost. A read that was interrupted is made again.
    pub fn next<R: RecordedRead>(&mut self, reader: &mut R) -> Result<Message, End>
        ensures message { IfOk result (λ m. Takes self.old self.new (R.remaining reader.old) (R.remaining reader.new) (m ∷ [])) }
        ensures nothing { OnErr result (Takes self.old self.new (R.remaining reader.old) (R.remaining reader.new) []) }
        ensures end { IfErr result (λ e. EndsAs e self.new (R.remaining reader.new)) }
        ensures spent { self.old.turns ≡ 0 → R.remaining reader.new ≡ R.remaining reader.old }
        ensures fault { IfErr result (λ e. IsDue e self.old.turns self.new.turns) }
        ensures cause { IfErr result (λ e. IsOfReader e (R.has_failed reader.new) self.new.turns) }
        ensures counted { AreLeft self.old.turns (R.reads reader.old) (R.reads reader.new) self.new.turns }
    {
        'looks: loop {
            if let Some(message) = self.step(reader, Patience::None)? {
                return Ok(message);
            }
        }
    }

    /// The next message where it has come whole, as `next` gives it; else one read is made and none is given, whatever it
    /// brought. Where the read's time was up (WouldBlock) it brought nothing, which is no fault here.
    pub fn look<R: RecordedRead>(&mut self, reader: &mut R) -> Result<Option<Message>, End>
        ensures message { IfOk result
            (λ o. Takes self.old self.new (R.remaining reader.old) (R.remaining reader.new) (listed o)) }
        ensures nothing { OnErr result (Takes self.old self.new (R.remaining reader.old) (R.remaining reader.new) []) }
        ensures end { IfErr result (λ e. EndsAs e self.new (R.remaining reader.new)) }
        ensures spent { self.old.turns ≡ 0 → R.remaining reader.new ≡ R.remaining reader.old }
        ensures fault { IfErr result (λ e. IsDue e self.old.turns self.new.turns) }
        ensures cause { IfErr result (λ e. IsOfReader e (R.has_failed reader.new) self.new.turns) }
        ensures counted { AreLeft self.old.turns (R.reads reader.old) (R.reads reader.new) self.new.turns }
        ensures less { OnOk result (to_come self.new < to_come self.old) }
    {
        self.step(reader, Patience::Timed)
    }

    // The same with this patience.
    fn step<R: RecordedRead>(
        &mut self,
        reader: &mut R,
        patience: Patience,
    ) -> Result<Option<Message>, End>
        ensures message { IfOk result
            (λ o. Takes self.old self.new (R.remaining reader.old) (R.remaining reader.new) (listed o)) }
        ensures nothing { OnErr result (Takes self.old self.new (R.remaining reader.old) (R.remaining reader.new) []) }
        ensures end { IfErr result (λ e. EndsAs e self.new (R.remaining reader.new)) }
        ensures spent { self.old.turns ≡ 0 → R.remaining reader.new ≡ R.remaining reader.old }
        ensures fault { IfErr result (λ e. IsDue e self.old.turns self.new.turns) }
        ensures cause { IfErr result (λ e. IsOfReader e (R.has_failed reader.new) self.new.turns) }
        ensures counted { AreLeft self.old.turns (R.reads reader.old) (R.reads reader.new) self.new.turns }
        ensures less { OnOk result (to_come self.new < to_come self.old) }
        ensures turns { self.new.turns ≤ self.old.turns }
    {
        match self.arrived()? {
            Some(message) => Ok(Some(message)),
            None => {
                self.read(reader, patience)?;
                Ok(None)
            }
        }
    }

    /// The next message where it has come whole, as `next` gives it. No read is made: Frame, Memory.
    pub fn arrived(&mut self) -> Result<Option<Message>, End>
        ensures given { IfOk result (λ o. HasArrived self.old self.new o) }
        ensures err { IfErr result (λ e. HasNoneFor e self.old self.new) }
    {
        self.settle()?;
        self.front()
    }

    // Puts what waits into the feed.
    fn settle(&mut self) -> Result<(), End>
        ensures ok { OnOk result ((unread self.new ≡ unread self.old) × (self.new.waiting ≡ [])
            × (self.new.turns ≡ self.old.turns)) }
        ensures err { IfErr result (λ e. (e ≡ Memory) × (self.new ≡ self.old)) }
    {
        if self.waiting == 0 {
            return Ok(());
        }
        match self.feed.push(&self.buffer[..self.waiting]) {
            Ok(()) => {
                self.waiting = 0;
                Ok(())
            }
            Err(Refusal::NoMemory) => Err(End::Memory),
            Err(Refusal::Fault(_)) => unreachable!(),
        }
    }

    // Takes the message at the front off, once it is whole.
    fn front(&mut self) -> Result<Option<Message>, End>
        requires { self.old.waiting ≡ [] }
        ensures taken { IfOk result (λ o. GivesFront self.old self.new o) }
        ensures err { IfErr result (λ e. HasNoFront e self.old self.new) }
    {
        match self.feed.next() {
            Ok(message) => Ok(message),
            Err(Refusal::NoMemory) => Err(End::Memory),
            Err(Refusal::Fault(_)) => Err(End::Frame),
        }
    }

    // One read, which gives nothing where it is to be made again.
    fn read<R: RecordedRead>(&mut self, reader: &mut R, patience: Patience) -> Result<(), End>
        requires waiting { self.old.waiting ≡ [] }
        requires sound { self.old.fed.broken ≡ false }
        ensures ok { OnOk result (Reads self.old self.new (R.remaining reader.old) (R.remaining reader.new)) }
        ensures turns { OnOk result (self.new.turns < self.old.turns) }
        ensures spent { self.old.turns ≡ 0 → R.remaining reader.new ≡ R.remaining reader.old }
        ensures fault { IfErr result (λ e. IsDue e self.old.turns self.new.turns) }
        ensures cause { IfErr result (λ e. IsOfReader e (R.has_failed reader.new) self.new.turns) }
        ensures counted { AreLeft self.old.turns (R.reads reader.old) (R.reads reader.new) self.new.turns }
        ensures err { IfErr result (λ e. ReadsNothing e self.old self.new (R.remaining reader.old) (R.remaining reader.new)) }
    {
        if self.turns == 0 {
            return Err(End::ReadFault);
        }
        self.turns -= 1;
        match reader.read_recorded(&mut self.buffer) {
            Ok(0) => Err(End::Closed),
            Ok(count) => {
                self.waiting = count;
                Ok(())
            }
            Err(error) if patience.makes_again(error.kind()) => Ok(()),
            Err(_) => Err(End::ReadFault),
        }
    }
}

// Which reads are made again: those that were interrupted, and with a reader whose reads have a time those whose time was up.
#[derive(Clone, Copy)]
enum Patience {
    None,
    Timed,
}

impl Patience {
    fn makes_again(self, kind: ErrorKind) -> bool {
        match kind {
            ErrorKind::Interrupted => true,
            ErrorKind::WouldBlock => matches!(self, Patience::Timed),
            _ => false,
        }
    }
}
