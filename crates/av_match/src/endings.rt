//! The patterns that end a word: what a state at which some pattern ends has to be asked.
ghost use Rattle.std.specs.Prelude.{◌≡◌, ◌<◌, ◌≤◌, ℕ, [], length, slice_index, false, IfOk};
ghost use Rattle.av_match.specs.Endings.{AreEndings, IsLast, endings_from, first_of};

use crate::plain::{begins_in, occurs};
use av_sigset::signature::MAX_PLACE;
use av_sigset::{Pattern, Span};
use std::alloc::{AllocError, Global};
use std::marker::Model;

/// A pattern that ends a word: its index, how many bytes it has, and where a match of it may begin.
#[derive(Clone, Copy)]
pub struct Ending {
    pub index: u32,
    pub length: u64,
    pub span: Span,
}

/// The patterns that end one word, which contracts see as their list, and a place of a content behind which none of them is
/// found.
#[derive(Drop)]
pub struct Endings {
    list: Vec<Ending>,
    last: u64,
}

impl Model for Endings {
    ghost use Rattle.std.specs.Prelude.{List};
    ghost use Rattle.av_match.specs.Endings.{IsLast};
    ghost use Rattle.av_match.specs.declared.endings.Ending.{Ending};

    ghost Value = { List Ending };

    ghost view = { λ e. e.list.items };

    ghost invariant = { λ e. IsLast e.list.items e.last };
}

impl Endings {
    /// No pattern.
    fn none(alloc: Global) -> Endings
        ensures { result ≡ [] }
    {
        Endings {
            list: Vec::new(alloc),
            last: 0,
        }
    }

    /// Those of the patterns that end a word, in their order.
    fn of(alloc: Global, patterns: &[Pattern], word: &[u8]) -> Result<Endings, AllocError>
        requires { length patterns.now ≤ 1024 }
        ensures { IfOk result (λ e. e ≡ endings_from 0 patterns.now word.now) }
    {
        let list = list_of(alloc, patterns, word)?;
        let last = last_of(list.as_slice());
        Ok(Endings { list, last })
    }

    /// The first that begins in its span, where the word ends at this place of a content.
    #[inline(always)]
    pub fn first(&self, end_at: u64) -> Option<u32>
        ensures { result ≡ first_of self.now end_at }
    {
        if self.last < end_at {
            return None;
        }
        first_of(self.list.as_slice(), end_at)
    }
}

// Those of the patterns that end a word, in their order.
fn list_of(alloc: Global, patterns: &[Pattern], word: &[u8]) -> Result<Vec<Ending>, AllocError>
    requires { length patterns.now ≤ 1024 }
    ensures { IfOk result (λ v. v.items ≡ endings_from 0 patterns.now word.now) }
{
    let mut list = Vec::new(alloc);
    for index in 0..patterns.len() {
        let pattern = &patterns[index];
        if occurs(pattern.bytes.as_slice(), word, word.len()) {
            list.push(Ending {
                index: index as u32,
                length: pattern.bytes.len() as u64,
                span: pattern.span,
            })?;
        }
    }
    Ok(list)
}

// A place of a content behind which none of these is found.
fn last_of(list: &[Ending]) -> u64
    ensures { IsLast list.now result }
{
    let mut last = 0u64;
    for ending in list {
        if MAX_PLACE <= ending.span.high {
            return u64::MAX;
        }
        last = last.max(ending.span.high.saturating_add(ending.length));
    }
    last
}

// The first of these that begins in its span, where they end at this place of a content.
fn first_of(list: &[Ending], end_at: u64) -> Option<u32>
    ensures { result ≡ first_of list.now end_at }
{
    for ending in list {
        if begins_in(ending.span, end_at.saturating_sub(ending.length)) {
            return Some(ending.index);
        }
    }
    None
}

/// Of each pattern that is the stop of a state, counted from 1, the patterns that end it. The others have no list.
pub fn endings_of(
    alloc: Global,
    patterns: &[Pattern],
    stops: &[u16],
) -> Result<Vec<Endings>, AllocError>
    requires { length patterns.now ≤ 1024 }
    ensures { IfOk result (λ v. AreEndings patterns.now stops.now v.items) }
{
    let mut lists = Vec::with_capacity(alloc, patterns.len())?;
    for index in 0..patterns.len() {
        let list = if is_stop(stops, index + 1) {
            Endings::of(alloc, patterns, patterns[index].bytes.as_slice())?
        } else {
            Endings::none(alloc)
        };
        lists.push(list)?;
    }
    Ok(lists)
}

// Whether a state has this stop.
fn is_stop(stops: &[u16], number: usize) -> bool
    ensures { result ≡ false → (s : ℕ) → s < length stops.now → slice_index stops.now s ≡ number → ⊥ }
{
    for stop in stops {
        if *stop as usize == number {
            return true;
        }
    }
    false
}
