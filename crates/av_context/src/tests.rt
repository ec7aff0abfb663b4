ghost use Rattle.std.specs.Prelude.{◌<◌};

use crate::context_fault::ContextFault;
use crate::context_ref::{ContextRef, Set};
use crate::context_state::ContextState;
use crate::context_table::ContextTable;
use av_base::{StreamId, Verdict, Version};
use av_fakes::{may_refuse, refuse_no_more};
use std::process::Abort;
use std::test::Fail;

// Calls of a table with memory, whose reference is one of that table's.

fn allocate(rt: &impl Abort, table: &mut ContextTable, state: ContextState) -> ContextRef {
    match table.allocate(state) {
        Ok(context) => context,
        Err(_) => panic!(rt; "no memory"),
    }
}

fn set_keep(
    rt: &impl Abort,
    table: &mut ContextTable,
    stream: u64,
    context: &ContextRef,
) -> Option<ContextRef> {
    assert!(rt; table.holds(context));
    match table.set_keep(StreamId::new(stream), context) {
        Ok(Set::Attached) => None,
        Ok(Set::AlreadyDefined(old)) => Some(old),
        Err(_) => panic!(rt; "refused"),
    }
}

fn set_replace(
    rt: &impl Abort,
    table: &mut ContextTable,
    stream: u64,
    context: &ContextRef,
) -> Option<ContextRef> {
    assert!(rt; table.holds(context));
    match table.set_replace(StreamId::new(stream), context) {
        Ok(old) => old,
        Err(_) => panic!(rt; "refused"),
    }
}

fn references(rt: &impl Abort, table: &ContextTable, context: &ContextRef) -> u64 {
    assert!(rt; table.holds(context));
    table.references(context)
}

fn release(rt: &impl Abort, table: &mut ContextTable, context: ContextRef) {
    assert!(rt; table.holds(&context));
    table.release(context);
}

#[test]
fn an_attachment_and_each_reference_count_one(rt: HostRuntime) -> Result<(), Fail> {
    let mut table = ContextTable::new(rt.alloc());
    let first = allocate(&rt, &mut table, ContextState::Modified);
    match set_keep(&rt, &mut table, 5, &first) {
        None => {}
        Some(_defined) => panic!(rt; "the stream had a context"),
    }
    assert_eq!(rt; references(&rt, &table, &first), 2);
    assert!(rt; table.holds(&first));
    table.set_state(&first, state_of_number(7));
    assert_eq!(rt; table.state_of(StreamId::new(5)), Some(state_of_number(7)));
    let second = allocate(&rt, &mut table, ContextState::Modified);
    let Some(defined) = set_keep(&rt, &mut table, 5, &second) else {
        panic!(rt; "the stream had no context");
    };
    assert_eq!(rt; references(&rt, &table, &first), 3);
    release(&rt, &mut table, defined);
    let Some(replaced) = set_replace(&rt, &mut table, 5, &second) else {
        panic!(rt; "the stream had no context");
    };
    assert_eq!(rt; references(&rt, &table, &first), 2);
    assert_eq!(rt; references(&rt, &table, &second), 2);
    assert_eq!(rt; table.delete(StreamId::new(5)), Ok(()));
    assert_eq!(rt; references(&rt, &table, &second), 1);
    match table.get(StreamId::new(5)) {
        Ok(_found) => panic!(rt; "a deleted attachment was found"),
        Err(fault) => assert_eq!(rt; fault, ContextFault::NotFound),
    }
    release(&rt, &mut table, first);
    release(&rt, &mut table, replaced);
    release(&rt, &mut table, second);
    assert_eq!(rt; table.len(), 0);
    Ok(())
}

// The number of a context stands in its state, as a version.
fn state_of_number(number: usize) -> ContextState {
    ContextState::Judged {
        version: Version::new(number as u64),
        verdict: Verdict::Clean,
    }
}

fn number_of(state: ContextState) -> usize {
    match state {
        ContextState::Judged { version, .. } => version.get() as usize,
        _ => usize::MAX,
    }
}

// The counts that a table has to keep: of each context, by its number, and of the eight streams the context attached.
#[derive(Drop)]
struct Plain {
    counts: Vec<u64>,
    attached: [Option<usize>; 8],
}

fn add(counts: &mut [u64], number: usize) {
    if let Some(count) = counts.get_mut(number) {
        *count = count.wrapping_add(1);
    }
}

fn take(counts: &mut [u64], number: usize) {
    if let Some(count) = counts.get_mut(number) {
        *count = count.wrapping_sub(1);
    }
}

// The next number of a fixed sequence, below 2^31.
fn next(seed: &mut u64) -> usize {
    *seed = seed
        .wrapping_mul(6_364_136_223_846_793_005)
        .wrapping_add(1_442_695_040_888_963_407);
    (*seed >> 33) as usize
}

// One call picked by the sequence, on the table and on the plain counts.
fn step(
    rt: &impl Abort,
    table: &mut ContextTable,
    held: &mut Vec<ContextRef>,
    plain: &mut Plain,
    seed: &mut u64,
) -> Result<(), Fail> {
    held.reserve(1)?;
    let place = next(seed) % 8;
    let call = next(seed) % 7;
    if call == 0 || held.is_empty() {
        let number = plain.counts.len();
        plain.counts.push(1)?;
        held.push(allocate(rt, table, state_of_number(number)))
            .unwrap();
        return Ok(());
    }
    let pick = next(seed) % held.len();
    let given = match call {
        1 => keep(rt, table, &held[pick], plain, place),
        2 => replace(rt, table, &held[pick], plain, place),
        3 => get(table, plain, place),
        4 => delete(table, plain, place),
        _ => {
            let spent = held.swap_remove(pick);
            take(&mut plain.counts, number(rt, table, &spent));
            release(rt, table, spent);
            None
        }
    };
    if let Some(context) = given {
        held.push(context).unwrap();
    }
    Ok(())
}

fn number(rt: &impl Abort, table: &ContextTable, context: &ContextRef) -> usize {
    assert!(rt; table.holds(context));
    number_of(table.state(context))
}

fn keep(
    rt: &impl Abort,
    table: &mut ContextTable,
    context: &ContextRef,
    plain: &mut Plain,
    place: usize,
) -> Option<ContextRef>
    requires { place < 8 }
{
    let number = number(rt, table, context);
    let old = set_keep(rt, table, place as u64, context);
    match plain.attached[place] {
        Some(old) => add(&mut plain.counts, old),
        None => {
            add(&mut plain.counts, number);
            plain.attached[place] = Some(number);
        }
    }
    old
}

fn replace(
    rt: &impl Abort,
    table: &mut ContextTable,
    context: &ContextRef,
    plain: &mut Plain,
    place: usize,
) -> Option<ContextRef>
    requires { place < 8 }
{
    let number = number(rt, table, context);
    add(&mut plain.counts, number);
    plain.attached[place] = Some(number);
    set_replace(rt, table, place as u64, context)
}

fn get(table: &mut ContextTable, plain: &mut Plain, place: usize) -> Option<ContextRef>
    requires { place < 8 }
{
    let found = match table.get(StreamId::new(place as u64)) {
        Ok(found) => found,
        Err(_) => return None,
    };
    if let Some(number) = plain.attached[place] {
        add(&mut plain.counts, number);
    }
    Some(found)
}

fn delete(table: &mut ContextTable, plain: &mut Plain, place: usize) -> Option<ContextRef>
    requires { place < 8 }
{
    if table.delete(StreamId::new(place as u64)).is_ok() {
        if let Some(number) = plain.attached[place] {
            take(&mut plain.counts, number);
        }
        plain.attached[place] = None;
    }
    None
}

// Each reference finds its context with its count, and no other context is there.
fn counts_agree(rt: &impl Abort, table: &ContextTable, held: &[ContextRef], plain: &Plain) -> bool {
    for context in held {
        let number = number(rt, table, context);
        if plain.counts.get(number).copied() != Some(references(rt, table, context)) {
            return false;
        }
    }
    table.len() == plain.counts.iter().filter(|count| **count > 0).count()
}

fn attachments_agree(table: &ContextTable, plain: &Plain) -> bool {
    (0..8).all(|place| {
        let stream = StreamId::new(place as u64);
        table.state_of(stream)
            == plain
                .attached
                .get(place)
                .copied()
                .flatten()
                .map(state_of_number)
    })
}

fn thousand_steps(
    rt: &impl Abort,
    table: &mut ContextTable,
    held: &mut Vec<ContextRef>,
    plain: &mut Plain,
) -> Result<bool, Fail> {
    let mut seed = 1;
    for _ in 0..1000 {
        step(rt, table, held, plain, &mut seed)?;
        if !counts_agree(rt, table, held, plain) || !attachments_agree(table, plain) {
            return Ok(false);
        }
    }
    Ok(true)
}

fn release_all(rt: &impl Abort, table: &mut ContextTable, mut held: Vec<ContextRef>) {
    'held: while let Some(context) = held.pop() {
        release(rt, table, context);
    }
    held.destroy_empty();
}

#[test]
fn a_thousand_calls_keep_step_with_plain_counts(rt: HostRuntime) -> Result<(), Fail> {
    let mut table = ContextTable::new(rt.alloc());
    let mut held = Vec::new(rt.alloc());
    let mut plain = Plain {
        counts: Vec::new(rt.alloc()),
        attached: [None; 8],
    };
    let agreed = thousand_steps(&rt, &mut table, &mut held, &mut plain);
    table.delete_all();
    release_all(&rt, &mut table, held);
    assert_eq!(rt; agreed?, true);
    assert_eq!(rt; table.len(), 0);
    Ok(())
}

#[test]
fn refused_or_not_a_context_is_allocated(rt: HostRuntime) -> Result<(), Fail> {
    let mut table = ContextTable::new(rt.alloc());
    may_refuse(rt.alloc());
    let first = table.allocate(ContextState::Modified);
    refuse_no_more(rt.alloc());
    let context = match first {
        Ok(context) => context,
        Err(_) => {
            assert_eq!(rt; table.len(), 0);
            allocate(&rt, &mut table, ContextState::Modified)
        }
    };
    release(&rt, &mut table, context);
    assert_eq!(rt; table.len(), 0);
    Ok(())
}

#[test]
fn refused_or_not_a_context_is_attached(rt: HostRuntime) -> Result<(), Fail> {
    let mut table = ContextTable::new(rt.alloc());
    let context = allocate(&rt, &mut table, ContextState::Modified);
    assert!(rt; table.holds(&context));
    may_refuse(rt.alloc());
    let first = table.set_keep(StreamId::new(5), &context);
    refuse_no_more(rt.alloc());
    match first {
        Ok(Set::Attached) => {}
        Ok(Set::AlreadyDefined(_defined)) => panic!(rt; "the stream had a context"),
        Err(_) => {
            assert_unattached(&rt, &table, &context);
            match set_keep(&rt, &mut table, 5, &context) {
                None => {}
                Some(_defined) => panic!(rt; "the stream had a context"),
            }
        }
    }
    end_attached(&rt, table, context);
    Ok(())
}

#[test]
fn refused_or_not_a_context_replaces_none(rt: HostRuntime) -> Result<(), Fail> {
    let mut table = ContextTable::new(rt.alloc());
    let context = allocate(&rt, &mut table, ContextState::Modified);
    assert!(rt; table.holds(&context));
    may_refuse(rt.alloc());
    let first = table.set_replace(StreamId::new(5), &context);
    refuse_no_more(rt.alloc());
    match first {
        Ok(None) => {}
        Ok(Some(_replaced)) => panic!(rt; "the stream had a context"),
        Err(_) => {
            assert_unattached(&rt, &table, &context);
            match set_replace(&rt, &mut table, 5, &context) {
                None => {}
                Some(_replaced) => panic!(rt; "the stream had a context"),
            }
        }
    }
    end_attached(&rt, table, context);
    Ok(())
}

// The stream 5 has no context, and this one has the reference that is out alone.
fn assert_unattached(rt: &impl Abort, table: &ContextTable, context: &ContextRef) {
    assert!(rt; table.state_of(StreamId::new(5)).is_none());
    assert!(rt; references(rt, table, context) == 1);
}

// A context that is attached to the stream 5 alone, and a reference to it: both go, and the context with them.
fn end_attached(rt: &impl Abort, mut table: ContextTable, context: ContextRef) {
    assert!(rt; references(rt, &table, &context) == 2);
    assert!(rt; table.delete(StreamId::new(5)) == Ok(()));
    release(rt, &mut table, context);
    assert!(rt; table.len() == 0);
}
