ghost use Rattle.std.specs.Prelude.{◌≡◌, ◌<◌, ◌^◌, [], ◌∷◌, All, IsNone, IfNone, None, Some, length, vec_len, vec_capacity, option_copied, ℕ, IsSome, IsSomeAnd, IfSome, OnOk, OnErr, IfErr};
ghost use Rattle.std.specs.Option.{option_map};
ghost use Rattle.slab.specs.Slab.{slab_len};
ghost use Rattle.av_context.specs.Contexts.{at, PutsAt};
ghost use Rattle.av_numbered.specs.Numbered.{slot_at, IsAscending, SameBut};

use slab::Slab;
use std::alloc::{AllocError, AllocFailed, Global};
use std::collections::BTreeMap;
use std::marker::Model;
use std::mem;

/// Rows that are found by a number, each with a value beside it that may have to be spent. The rows stand in a slab, under
/// keys that are used again; a value stands at the key of its row.
pub struct Numbered<R, V> {
    index: BTreeMap<u64, usize>,
    rows: Slab<R>,
    values: Vec<Option<V>>,
}

impl<R, V> Model for Numbered<R, V> {
    ghost use Rattle.std.specs.Prelude.{ℕ, List};
    ghost use Rattle.av_numbered.specs.Numbered.{joined, held, IsWhole};

    ghost Value = { List (ℕ × (R × V)) };

    ghost view = { λ t. joined t.index.entries (held t.rows.slots t.values.items) };

    ghost invariant = { λ t. IsWhole t.index.entries t.rows.slots t.values.items };
}

impl<R, V> Numbered<R, V> {
    /// No rows. It takes no memory yet.
    pub fn new(alloc: Global) -> Numbered<R, V>
        ensures { result ≡ [] }
    {
        Numbered {
            index: BTreeMap::new(alloc),
            rows: Slab::new(alloc),
            values: Vec::new(alloc),
        }
    }

    /// Puts a row and its value at a number that has none. Where memory is refused the value comes back.
    pub fn insert(&mut self, number: u64, row: R, value: V) -> Result<(), AllocFailed<V>>
    where
        R: Copy,
        requires { at self.old number ≡ None }
        ensures ok { OnOk result (PutsAt self.old self.new number (Some (row, value))) }
        ensures err { OnErr result (self.new ≡ self.old) }
        ensures back { IfErr result (λ failed. failed.value ≡ value) }
    {
        let Ok(_) = self.rows.reserve(1) else {
            return Err(AllocFailed { value });
        };
        let key = self.rows.vacant_key();
        let Ok(_) = make_room(&mut self.values, key) else {
            return Err(AllocFailed { value });
        };
        let Ok(_) = self.index.insert(number, key) else {
            return Err(AllocFailed { value });
        };
        self.rows.insert_reserved(row);
        put(&mut self.values, key, value);
        Ok(())
    }

    /// Takes the row of a number out, with its value.
    pub fn remove(&mut self, number: u64) -> Option<(R, V)>
        ensures value { result ≡ at self.old number }
        ensures puts { PutsAt self.old self.new number None }
    {
        let _numbers_ascend = self.index.len();
        let key = self.index.remove(&number)?;
        let Some(row) = self.rows.try_remove(key) else {
            unreachable!()
        };
        let value = take(&mut self.values, key);
        Some((row, value))
    }

    /// The row of a number.
    pub fn row(&self, number: u64) -> Option<R>
    where
        R: Copy,
        ensures { result ≡ option_map (λ p. p.0) (at self.now number) }
    {
        let key = *self.index.get(&number)?;
        self.rows.get(key).copied()
    }

    /// The value of a number.
    pub fn value(&self, number: u64) -> Option<&V>
        ensures { option_copied result ≡ option_map (λ p. p.1) (at self.now number) }
    {
        let key = *self.index.get(&number)?;
        look(&self.values, key)
    }

    /// Sets the row of a number that has one.
    pub fn set_row(&mut self, number: u64, row: R)
    where
        R: Drop,
        requires { IsSome (at self.old number) }
        ensures { PutsAt self.old self.new number (option_map (λ p. (row, p.1)) (at self.old number)) }
    {
        let Some(key) = self.index.get(&number).copied() else {
            unreachable!()
        };
        write(&mut self.rows, key, row);
    }

    /// Sets the row of a number that has one, and changes its value. It takes no memory.
    pub fn exchange<F: FnOnce(V) -> V>(&mut self, number: u64, row: R, change: F)
    where
        R: Drop,
        requires there { IsSome (at self.old number) }
        requires callable { IfSome (at self.old number) (λ p. F.pre change p.1) }
        ensures { IfSome (at self.old number) (λ p. IsSomeAnd (at self.new number) (λ q. F.post change p.1 q.1
            × PutsAt self.old self.new number (Some (row, q.1)))) }
    {
        let Some(key) = self.index.get(&number).copied() else {
            unreachable!()
        };
        write(&mut self.rows, key, row);
        change_at(&mut self.values, key, change);
    }

    /// Takes the first row out, with its number and its value.
    pub fn pop_first(&mut self) -> Option<(u64, R, V)>
        ensures none { IfNone result ((self.old ≡ []) × (self.new ≡ self.old)) }
        ensures some { IfSome result (λ p. (self.old ≡ (p.0, (p.1, p.2)) ∷ self.new) × PutsAt self.old self.new p.0 None) }
    {
        let _numbers_ascend = self.index.len();
        let (number, _key) = self.index.first_key_value()?;
        let number = *number;
        let Some((row, value)) = self.remove(number) else {
            unreachable!()
        };
        Some((number, row, value))
    }

    /// Lets a table without rows go.
    pub fn end(self)
    where
        R: Drop,
        requires { self ≡ [] }
    {
        let Numbered {
            index: _,
            rows: _,
            values,
        } = self;
        release(values);
    }

    /// How many rows there are.
    pub fn len(&self) -> usize
        ensures len { result ≡ length self.now }
        ensures ascend { IsAscending self.now }
        ensures small { length self.now < 2 ^ 63 }
    {
        self.index.len()
    }
}

// Lengthens the slots so that there is one for a key.
fn make_room<V>(values: &mut Vec<Option<V>>, key: usize) -> Result<(), AllocError>
    ensures same { (k : ℕ) → slot_at values.new.items k ≡ slot_at values.old.items k }
    ensures room { OnOk result (key < vec_len values.new) }
{
    'room: while values.len() <= key {
        if let Err(failed) = values.push(None) {
            let AllocFailed { value } = failed;
            let None = value else { unreachable!() };
            return Err(AllocError);
        }
    }
    Ok(())
}

// Sets the row at a key that has one.
pub(crate) fn write<R: Drop>(rows: &mut Slab<R>, key: usize, row: R)
    requires { IsSome (slot_at rows.old.slots key) }
    ensures here { slot_at rows.new.slots key ≡ Some row }
    ensures others { SameBut key rows.old.slots rows.new.slots }
    ensures len { slab_len rows.new ≡ slab_len rows.old }
    ensures capacity { rows.new.capacity ≡ rows.old.capacity }
{
    rows[key] = row;
}

// Puts a value into a slot that is empty.
pub(crate) fn put<V>(values: &mut Vec<Option<V>>, key: usize, value: V)
    requires room { key < vec_len values.old }
    requires empty { slot_at values.old.items key ≡ None }
    ensures here { slot_at values.new.items key ≡ Some value }
    ensures others { SameBut key values.old.items values.new.items }
    ensures capacity { vec_capacity values.new ≡ vec_capacity values.old }
{
    let hole = mem::replace(&mut values[key], Some(value));
    let None = hole else { unreachable!() };
}

// The value in a slot.
fn look<V>(values: &Vec<Option<V>>, key: usize) -> Option<&V>
    ensures { option_copied result ≡ slot_at values.now.items key }
{
    values.get(key)?.as_ref()
}

// Lets slots go of which each is empty.
pub(crate) fn release<V>(mut values: Vec<Option<V>>)
    requires { All (λ slot. IsNone slot) values.items }
{
    'slots: while let Some(slot) = values.pop() {
        match slot {
            None => {}
            Some(_value) => unreachable!(),
        }
    }
    values.destroy_empty();
}

// Changes the value in a slot that has one.
fn change_at<V, F: FnOnce(V) -> V>(values: &mut Vec<Option<V>>, key: usize, change: F)
    requires there { IsSome (slot_at values.old.items key) }
    requires callable { IfSome (slot_at values.old.items key) (λ v. F.pre change v) }
    ensures here { IfSome (slot_at values.old.items key)
        (λ v. IsSomeAnd (slot_at values.new.items key) (λ w. F.post change v w)) }
    ensures others { SameBut key values.old.items values.new.items }
{
    let Some(slot) = values.get_mut(key) else {
        unreachable!()
    };
    let Some(value) = slot.take() else {
        unreachable!()
    };
    let hole = mem::replace(slot, Some(change(value)));
    let None = hole else { unreachable!() };
}

// Takes the value out of a slot that has one.
pub(crate) fn take<V>(values: &mut Vec<Option<V>>, key: usize) -> V
    requires { IsSome (slot_at values.old.items key) }
    ensures value { slot_at values.old.items key ≡ Some result }
    ensures here { slot_at values.new.items key ≡ None }
    ensures others { SameBut key values.old.items values.new.items }
    ensures capacity { vec_capacity values.new ≡ vec_capacity values.old }
{
    let Some(slot) = values.get_mut(key) else {
        unreachable!()
    };
    let Some(value) = slot.take() else {
        unreachable!()
    };
    value
}
