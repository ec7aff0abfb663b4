//! Lives of opens, questions, jobs and works: each is a bar of the picture.

ghost use Rattle.std.specs.Prelude.{◌≡◌, ◌<◌, [], true, is_none, length, map, slice_get, slice_set, IfSome, OnOk, None, Some};
ghost use Rattle.std.specs.List.{list_any};
ghost use Rattle.av_chart.specs.Slot.{first_free, free_places, hold, is_by, place_or_shared, slots, until};
ghost use Rattle.av_chart.specs.Life.{begins, ends, ends_all, ends_at, life_of, lives_as, lives_of, with_end};

use crate::living::Living;
use av_base::{MessageId, Port};
use std::alloc::{AllocError, Global};
use std::marker::Model;

/// When something is: in a step, counted from 0, and on a line of its row, from 0.
#[derive(Clone, Copy)]
pub struct Moment {
    pub step: u64,
    pub line: u32,
}

impl Moment {
    /// Whether it is this moment or before it.
    pub fn is_by(self, other: Moment) -> bool
        ensures { result ≡ is_by self other }
    {
        self.step < other.step || (self.step == other.step && self.line <= other.line)
    }
}

/// How a life ended. A job whose content was infected ended at the byte at which a signature did.
#[derive(Clone, Copy)]
pub enum How {
    Granted,
    Unscanned,
    Denied,
    Aborted,
    Clean,
    Infected,
    Failed,
    Ended,
    Dropped,
    Run,
    Byte(u64),
}

/// The end of a life.
#[derive(Clone, Copy)]
pub struct End {
    pub at: Moment,
    pub how: How,
}

/// One life. What never ended has no end. An open and a work have a number alone, 0 for a boot, and the first port.
#[derive(Clone, Copy)]
pub struct Bar<'a> {
    /// The port at which it is asked or worked on.
    pub port: Port,
    pub id: MessageId,
    /// The name of its stream, and the generation that a question is of.
    pub name: &'a [u8],
    pub generation: u64,
    pub begin: Moment,
    pub end: Option<End>,
    /// The place beside its lane, from 0.
    pub slot: u32,
}

/// The lives of one kind, in the order of their beginnings; each that has no end is found by its port and id.
#[derive(Drop)]
pub struct Lives<'a> {
    bars: Vec<Bar<'a>>,
    living: Living,
}

impl<'a> Model for Lives<'a> {
    ghost use Rattle.std.specs.Prelude.{List};
    ghost use Rattle.av_chart.specs.Life.{IsIndexed, lives_of};
    ghost use Rattle.av_chart.specs.Living.{place_at};
    ghost use Rattle.av_chart.specs.declared.life.Bar.{Bar};

    ghost Value = { List Bar };

    ghost view = { λ l. l.bars.items };

    ghost invariant = { λ l. IsIndexed (lives_of l.bars.items) (place_at l.living) };
}

impl<'a> Lives<'a> {
    /// No lives.
    pub fn new(alloc: Global) -> Lives<'a>
        ensures { result ≡ [] }
    {
        Lives {
            bars: Vec::new(alloc),
            living: Living::new(alloc),
        }
    }

    /// All that ever lived.
    pub fn bars(&self) -> &[Bar<'a>]
        ensures { result.now ≡ self.now }
    {
        self.bars.as_slice()
    }

    /// Whether this one lives now at a port.
    pub fn lives(&self, port: Port, id: MessageId) -> bool
        ensures { result ≡ list_any (lives_as port id) (lives_of self.now) }
    {
        self.living.has(port, id)
    }

    /// A life begins, unless one of its id lives at its port.
    pub fn begin(&mut self, bar: Bar<'a>) -> Result<(), AllocError>
        requires { is_none bar.end ≡ true }
        ensures { OnOk result (lives_of self.new ≡ begins (life_of bar.entry) (lives_of self.old)) }
    {
        if self.lives(bar.port, bar.id) {
            return Ok(());
        }
        self.bars.reserve(1)?;
        self.living.put(bar.port, bar.id, self.bars.len())?;
        self.bars.push_reserved(bar);
        Ok(())
    }

    /// Gives each bar the first place beside its lane that is free, of so many; the last one is shared. What has not ended
    /// holds its place up to `last`.
    pub fn take_slots(&mut self, last: Moment)
        ensures lives { lives_of self.new ≡ lives_of self.old }
        ensures slots { map (λ b. b.slot) self.new ≡ slots last free_places (lives_of self.old) }
    {
        give_slots(&mut self.bars, last);
    }

    /// A life ends, if it has begun and has not ended.
    pub fn end(&mut self, port: Port, id: MessageId, end: End)
        ensures { lives_of self.new ≡ ends port id end (lives_of self.old) }
    {
        if let Some(index) = self.living.take(port, id) {
            finish(&mut self.bars, index, end);
        }
    }

    /// All that live at a port end.
    pub fn end_at(&mut self, port: Port, end: End)
        ensures { lives_of self.new ≡ ends_at port end (lives_of self.old) }
    {
        'living: while let Some((_, index)) = self.living.take_first(port) {
            finish(&mut self.bars, index, end);
        }
    }

    /// All that live end.
    pub fn end_all(&mut self, end: End)
        ensures { lives_of self.new ≡ ends_all end (lives_of self.old) }
    {
        self.end_at(Port::One, end);
        self.end_at(Port::Two, end);
    }
}

// Gives each bar the first place beside its lane that is free.
fn give_slots(bars: &mut Vec<Bar<'_>>, last: Moment)
    ensures lives { lives_of bars.new.items ≡ lives_of bars.old.items }
    ensures slots { map (λ b. b.slot) bars.new.items ≡ slots last free_places (lives_of bars.old.items) }
{
    let mut held = [Moment { step: 0, line: 0 }; SLOTS];
    for index in 0..bars.len() {
        let until = until(last, bars[index].end);
        let slot = take_slot(&mut held, bars[index].begin, until);
        set_slot(bars, index, slot);
    }
}

// Until when a life holds its place.
fn until(last: Moment, end: Option<End>) -> Moment
    ensures { result ≡ until last end }
{
    match end {
        Some(end) => end.at,
        None => last,
    }
}

// Gives a bar its place.
fn set_slot(bars: &mut Vec<Bar<'_>>, index: usize, slot: u32)
    requires { index < length bars.old.items }
    ensures { IfSome (slice_get bars.old.items index)
        (λ bar. bars.new.items ≡ slice_set bars.old.items index (record bar { slot = slot })) }
{
    bars[index].slot = slot;
}

/// How many places for bars stand beside a lane, besides the shared one.
const SLOTS: usize = 4;

// The first place that is free at a moment, which is held until another; behind the last one is the shared one.
fn take_slot(held: &mut [Moment; SLOTS], begin: Moment, until: Moment) -> u32
    ensures slot { result ≡ place_or_shared (first_free held.old begin) }
    ensures held { held.new ≡ hold held.old (first_free held.old begin) until }
{
    match first_free(held, begin) {
        Some(slot) => {
            held[slot] = until;
            slot as u32
        }
        None => SLOTS as u32,
    }
}

// The first of these places that is free at a moment.
fn first_free(held: &[Moment; SLOTS], at: Moment) -> Option<usize>
    ensures first { result ≡ first_free held.now at }
    ensures within { IfSome result (λ k. k < 4) }
{
    held.iter().position(|one| one.is_by(at))
}

// Ends a life.
fn finish(bars: &mut Vec<Bar<'_>>, index: usize, end: End)
    requires { index < length bars.old.items }
    ensures { IfSome (slice_get (lives_of bars.old.items) index)
        (λ life. lives_of bars.new.items ≡ slice_set (lives_of bars.old.items) index (with_end end life)) }
{
    bars[index].end = Some(end);
}
