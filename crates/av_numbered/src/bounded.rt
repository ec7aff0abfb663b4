ghost use Rattle.std.specs.Prelude.{◌≡◌, ◌+◌, ◌<◌, ◌^◌, [], ◌∷◌, ◌++◌, ℕ, None, Some, IsSome, IsSomeAnd, IfSome, IfNone, IfOk, length, slice_get, vec_len, vec_capacity};
ghost use Rattle.std.specs.List.{AllByRecursion};
ghost use Rattle.std.specs.Map.{keys_of};
ghost use Rattle.std.specs.Option.{option_map};
ghost use Rattle.av_context.specs.Contexts.{at, PutsAt};
ghost use Rattle.av_numbered.specs.Numbered.{slot_at, IsAscending};

use crate::numbered::{put, release, take, write};
use av_base::limits::MAX_QUESTIONS;
use slab::Slab;
use std::alloc::{AllocError, Global};
use std::marker::Model;

/// Rows that are found by a number, as `Numbered` has them, but at most so many as questions may run at once, and one more. The
/// memory for all of them is taken at first, and each number is above those before it, so that none can be refused later. The
/// numbers and the keys of their rows stand in order: taking one out moves those behind it, at most 1,024 pairs.
pub struct Bounded<R, V> {
    index: Vec<(u64, usize)>,
    rows: Slab<R>,
    values: Vec<Option<V>>,
}

impl<R, V> Model for Bounded<R, V> {
    ghost use Rattle.std.specs.Prelude.{ℕ, List, length, vec_capacity};
    ghost use Rattle.slab.specs.Slab.{slab_len};
    ghost use Rattle.av_numbered.specs.Bounded.{HasRoom};
    ghost use Rattle.av_numbered.specs.Numbered.{joined, held, IsWhole};

    ghost Value = { List (ℕ × (R × V)) };

    ghost view = { λ t. joined t.index.items (held t.rows.slots t.values.items) };

    ghost invariant = { λ t. IsWhole t.index.items t.rows.slots t.values.items
        × HasRoom (length t.index.items) (vec_capacity t.index) (slab_len t.rows) t.rows.capacity (vec_capacity t.values) };
}

/// As many rows as there is memory for: the greatest limit of questions, and one more, since a question that is asked again
/// stands beside the one that ends.
pub const MOST_ROWS: usize = MAX_QUESTIONS as usize + 1;

impl<R, V> Bounded<R, V> {
    /// No rows. All memory is taken here.
    pub fn new(alloc: Global) -> Result<Bounded<R, V>, AllocError>
    where
        R: Drop,
        ensures { IfOk result (λ t. t ≡ []) }
    {
        let index = Vec::with_capacity(alloc, MOST_ROWS)?;
        let rows = Slab::with_capacity(alloc, MOST_ROWS)?;
        let values = Vec::with_capacity(alloc, rows.capacity())?;
        Ok(Bounded {
            index,
            rows,
            values,
        })
    }

    /// Puts a row and its value at a number above all others. It takes no memory.
    pub fn insert(&mut self, number: u64, row: R, value: V)
        requires few { length self.old < MOST_ROWS }
        requires last { AllByRecursion (λ k. k < number) (keys_of self.old) }
        ensures puts { PutsAt self.old self.new number (Some (row, value)) }
        ensures whole { self.new ≡ self.old ++ (number, (row, value)) ∷ [] }
    {
        let key = self.rows.insert_reserved(row);
        lengthen(&mut self.values, key);
        put(&mut self.values, key, value);
        self.index.push_reserved((number, key));
    }

    /// Takes the row of a number out, with its value.
    pub fn remove(&mut self, number: u64) -> Option<(R, V)>
        ensures value { result ≡ at self.old number }
        ensures puts { PutsAt self.old self.new number None }
    {
        let place = self.place_of(number)?;
        let (_number, row, value) = self.take_at(place);
        Some((row, value))
    }

    /// Takes the last row out, with its number and its value.
    pub fn pop_last(&mut self) -> Option<(u64, R, V)>
        ensures none { IfNone result ((self.old ≡ []) × (self.new ≡ self.old)) }
        ensures some { IfSome result (λ p. self.old ≡ self.new ++ (p.0, (p.1, p.2)) ∷ []) }
        ensures puts { IfSome result (λ p. PutsAt self.old self.new p.0 None) }
    {
        let last = self.len().checked_sub(1)?;
        Some(self.take_at(last))
    }

    /// The row of a number.
    pub fn row(&self, number: u64) -> Option<R>
    where
        R: Copy,
        ensures { result ≡ option_map (λ p. p.0) (at self.now number) }
    {
        let place = self.place_of(number)?;
        let (_number, row) = self.nth(place)?;
        Some(row)
    }

    /// The row at a place in the order of the numbers, with its number.
    pub fn nth(&self, place: usize) -> Option<(u64, R)>
    where
        R: Copy,
        ensures { result ≡ option_map (λ p. (p.0, p.1.0)) (slice_get self.now place) }
    {
        let (number, key) = *self.index.get(place)?;
        let row = self.rows.get(key).copied()?;
        Some((number, row))
    }

    /// Sets the row of a number that has one.
    pub fn set_row(&mut self, number: u64, row: R)
    where
        R: Drop,
        requires { IsSome (at self.old number) }
        ensures { PutsAt self.old self.new number (option_map (λ p. (row, p.1)) (at self.old number)) }
    {
        let Some(place) = self.place_of(number) else {
            unreachable!()
        };
        let (_number, key) = self.index[place];
        write(&mut self.rows, key, row);
    }

    /// Lets a table without rows go.
    pub fn end(self)
    where
        R: Drop,
        requires { self ≡ [] }
    {
        let Bounded {
            index: _,
            rows: _,
            values,
        } = self;
        release(values);
    }

    /// How many rows there are.
    pub fn len(&self) -> usize
        ensures len { result ≡ length self.now }
        ensures ascend { IsAscending self.now }
        ensures small { length self.now < 2 ^ 63 }
    {
        self.index.len()
    }

    // The place of a number in their order, where it has a row.
    fn place_of(&self, number: u64) -> Option<usize>
        ensures some { IfSome result (λ place. IsSomeAnd (slice_get self.now place) (λ p. p.0 ≡ number)) }
        ensures none { IfNone result (at self.now number ≡ None) }
        ensures ascend { IsAscending self.now }
    {
        self.index.binary_search_by_key(&number, |&(n, _)| n).ok()
    }

    // Takes the row at a place out, with its number and its value.
    fn take_at(&mut self, place: usize) -> (u64, R, V)
        requires { place < length self.old }
        ensures value { slice_get self.old place ≡ Some (result.0, (result.1, result.2)) }
        ensures puts { PutsAt self.old self.new result.0 None }
    {
        let (number, key) = self.index.remove(place);
        let Some(row) = self.rows.try_remove(key) else {
            unreachable!()
        };
        let value = take(&mut self.values, key);
        (number, row, value)
    }
}

// Lengthens slots for which there is memory, so that there is one for a key.
fn lengthen<V>(values: &mut Vec<Option<V>>, key: usize)
    requires { key < vec_capacity values.old }
    ensures same { (k : ℕ) → slot_at values.new.items k ≡ slot_at values.old.items k }
    ensures room { key < vec_len values.new }
    ensures capacity { vec_capacity values.new ≡ vec_capacity values.old }
{
    'room: while values.len() <= key {
        values.push_reserved(None);
    }
}
