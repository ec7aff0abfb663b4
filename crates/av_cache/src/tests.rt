ghost use Rattle.std.specs.Prelude.{◌≤◌};

use crate::cache::VerdictCache;
use crate::entry::Entry;
use av_base::{Generation, StreamId, Verdict, Version};
use av_fakes::{may_refuse, refuse_no_more};
use std::alloc::AllocError;
use std::test::Fail;

fn clean(stream: u64, generation: u64, version: u64) -> Entry {
    Entry {
        stream: StreamId::new(stream),
        generation: Generation::new(generation),
        version: Version::new(version),
        verdict: Verdict::Clean,
    }
}

fn put(cache: &mut VerdictCache, entry: Entry) -> Result<(), AllocError> {
    cache.put(entry.stream, entry.generation, entry.version, entry.verdict)
}

fn look(cache: &mut VerdictCache, entry: Entry) -> Option<Verdict> {
    cache.look(entry.stream, entry.generation, entry.version)
}

#[test]
fn an_entry_that_was_looked_at_outlives_one_that_was_not(rt: HostRuntime) -> Result<(), Fail> {
    let mut cache = VerdictCache::new(rt.alloc(), 2)?;
    assert!(rt; cache.is_empty());
    assert_eq!(rt; put(&mut cache, clean(1, 1, 1)), Ok(()));
    assert_eq!(rt; put(&mut cache, clean(1, 2, 1)), Ok(()));
    assert_eq!(rt; cache.entry(0), Some(clean(1, 2, 1)));
    let first = clean(1, 1, 1);
    assert_eq!(rt;
        cache.peek(first.stream, first.generation, first.version),
        Some(Verdict::Clean)
    );
    assert_eq!(rt; cache.entry(0), Some(clean(1, 2, 1)));
    assert_eq!(rt; look(&mut cache, clean(1, 1, 1)), Some(Verdict::Clean));
    assert_eq!(rt; cache.entry(0), Some(clean(1, 1, 1)));
    assert_eq!(rt; put(&mut cache, clean(2, 1, 1)), Ok(()));
    assert_eq!(rt; look(&mut cache, clean(1, 2, 1)), None);
    assert_eq!(rt; cache.entry(1), Some(clean(1, 1, 1)));
    assert_eq!(rt; cache.entry(2), None);
    assert_eq!(rt; cache.len(), 2);
    assert_eq!(rt; cache.capacity(), 2);
    Ok(())
}

#[test]
fn all_entries_are_given_the_most_recent_first(rt: HostRuntime) -> Result<(), Fail> {
    let mut cache = VerdictCache::new(rt.alloc(), 2)?;
    put(&mut cache, clean(1, 1, 1))?;
    put(&mut cache, clean(2, 1, 1))?;
    let entries = cache.entries(rt.alloc())?;
    assert_eq!(rt;
        entries.as_slice(),
        [clean(2, 1, 1), clean(1, 1, 1)].as_slice()
    );
    Ok(())
}

// A cache as a plain list, most recent first.
fn plain_look(list: &mut Vec<Entry>, wanted: Entry) -> Result<Option<Verdict>, AllocError> {
    let Some(place) = list.iter().position(|entry| same_key(entry, &wanted)) else {
        return Ok(None);
    };
    let found = list.remove(place);
    let verdict = found.verdict;
    list.insert(0, found)?;
    Ok(Some(verdict))
}

fn plain_put(list: &mut Vec<Entry>, capacity: usize, entry: Entry) -> Result<(), AllocError> {
    if let Some(place) = list.iter().position(|other| same_key(other, &entry)) {
        let _ = list.remove(place);
    }
    list.insert(0, entry)?;
    list.truncate(capacity);
    Ok(())
}

fn same_key(entry: &Entry, other: &Entry) -> bool {
    entry.stream == other.stream
        && entry.generation == other.generation
        && entry.version == other.version
}

// The next number of a fixed sequence, below 2^31.
fn next(seed: &mut u64) -> u64 {
    *seed = seed
        .wrapping_mul(6_364_136_223_846_793_005)
        .wrapping_add(1_442_695_040_888_963_407);
    *seed >> 33
}

fn keeps_step_with_a_plain_list(rt: &HostRuntime, capacity: usize) -> Result<bool, Fail>
    requires { 1 ≤ capacity }
{
    let mut cache = VerdictCache::new(rt.alloc(), capacity)?;
    let mut list = Vec::new(rt.alloc());
    let mut seed = 1;
    for _ in 0..1000 {
        let mut entry = clean(
            next(&mut seed) % 20,
            next(&mut seed) % 4,
            next(&mut seed) % 2,
        );
        let number = next(&mut seed);
        if number % 3 == 0 {
            if look(&mut cache, entry) != plain_look(&mut list, entry)? {
                return Ok(false);
            }
        } else {
            entry.verdict = Verdict::Infected {
                index: 0,
                end_at: number,
            };
            put(&mut cache, entry)?;
            plain_put(&mut list, capacity, entry)?;
        }
        if cache.len() != list.len() {
            return Ok(false);
        }
    }
    Ok(
        list.iter()
            .enumerate()
            .all(|(place, entry)| cache.entry(place) == Some(*entry)),
    )
}

#[test]
fn a_cache_of_one_keeps_step_with_a_plain_list(rt: HostRuntime) -> Result<(), Fail> {
    assert_eq!(rt; keeps_step_with_a_plain_list(&rt, 1)?, true);
    Ok(())
}

#[test]
fn a_cache_of_thousands_keeps_step_with_a_plain_list(rt: HostRuntime) -> Result<(), Fail> {
    assert_eq!(rt; keeps_step_with_a_plain_list(&rt, 4096)?, true);
    Ok(())
}

#[test]
fn refused_or_not_an_entry_is_put_in_front(rt: HostRuntime) -> Result<(), Fail> {
    let alloc = rt.alloc();
    may_refuse(alloc);
    let new = VerdictCache::new(alloc, 2);
    refuse_no_more(alloc);
    let mut cache = match new {
        Ok(cache) => cache,
        Err(_) => VerdictCache::new(alloc, 2)?,
    };
    for stream in 1..4 {
        let before = (cache.len(), cache.entry(0));
        may_refuse(alloc);
        let done = put(&mut cache, clean(stream, 1, 1));
        refuse_no_more(alloc);
        if done.is_err() {
            assert_eq!(rt; (cache.len(), cache.entry(0)), before);
            put(&mut cache, clean(stream, 1, 1))?;
        }
        assert_eq!(rt; cache.entry(0), Some(clean(stream, 1, 1)));
    }
    assert_eq!(rt; cache.entry(1), Some(clean(2, 1, 1)));
    assert_eq!(rt; cache.len(), 2);
    Ok(())
}
