// A service and the plain one through the same events, picked by a fixed sequence of numbers.
use crate::tests::calls::Reserve;
use crate::tests::plain::{CACHE, CHUNK, Content, Id, JOBS, Plain, patterns_of};
use crate::tests::say::{readers, told};
use crate::tests::steps::{Stand, connect, discard_all, finish, message, publish};
use crate::work::Work;
use av_base::{ByteList, Generation, LimitField, LimitValues, MessageId, Port, StreamId, Version};
use av_frame::{Body, NoChunkCause};
use std::alloc::{AllocError, Global};
use std::collections::VecDeque;
use std::test::Fail;

// What must be said, each often, so that the run is known to have been everywhere.
const WORDS: [&str; 12] = [
    "hello", "refused", "updated", "read ", "lease ", "clean", "infected", "failed 1", "failed 2",
    "Orphan", "Repeat", "Ignored",
];

#[test]
fn twenty_thousand_events_go_as_in_the_plain_service(rt: HostRuntime) -> Result<(), Fail> {
    let mut seed = 20_251_122;
    let mut counts = [0u64; 12];
    let mut works = VecDeque::new(rt.alloc());
    let first_bad = run(rt.alloc(), &mut works, &mut seed, 20_000, &mut counts);
    discard_all(works);
    assert_eq!(rt; first_bad?.as_str(), "");
    for (i, count) in counts.iter().enumerate() {
        assert!(rt; *count > 50, "{i} {count}");
    }
    Ok(())
}

// Run with each request for memory refused in turn, too.
#[test]
fn refused_or_not_events_go_as_in_the_plain_service(rt: HostRuntime) -> Result<(), Fail> {
    let mut seed = 7;
    let mut counts = [0u64; 12];
    let mut works = VecDeque::new(rt.alloc());
    let first_bad = run(rt.alloc(), &mut works, &mut seed, 400, &mut counts);
    discard_all(works);
    assert_eq!(rt; first_bad?.as_str(), "");
    Ok(())
}

// What was said of the first event that goes otherwise, or nothing.
fn run(
    alloc: Global,
    works: &mut VecDeque<Work>,
    seed: &mut u64,
    events: u64,
    counts: &mut [u64; 12],
) -> Result<String, Fail> {
    let values = LimitValues::greatest()
        .with(LimitField::Jobs, JOBS as u64)
        .with(LimitField::Cache, CACHE as u64)
        .with(LimitField::Chunk, CHUNK);
    let mut stand = Stand::with_limits(alloc, Port::One, values)?;
    let mut plain = Plain::new(alloc);
    for event in 0..events {
        let (said, wanted) = happen(alloc, &mut stand, &mut plain, works, seed)?;
        count(counts, said.as_str());
        if said.as_str() != wanted.as_str() || !same_readers(alloc, &stand, &plain)? {
            return Ok(format!(in alloc; "{event}: {said} for {wanted}")?);
        }
    }
    Ok(String::new(alloc))
}

fn same_readers(alloc: Global, stand: &Stand, plain: &Plain) -> Result<bool, Fail> {
    let is = readers(alloc, &stand.service)?;
    Ok(is.as_str() == plain.readers(alloc)?.as_str())
}

fn count(counts: &mut [u64; 12], said: &str) {
    for (count, word) in counts.iter_mut().zip(WORDS.iter()) {
        if said.contains(*word) {
            *count = count.saturating_add(1);
        }
    }
}

// One event: what the service says, and what the plain one does.
fn happen(
    alloc: Global,
    stand: &mut Stand,
    plain: &mut Plain,
    works: &mut VecDeque<Work>,
    seed: &mut u64,
) -> Result<(String, String), Fail> {
    match below(seed, 100) {
        0..30 => scan(alloc, stand, plain, works, seed),
        30..60 => chunk(alloc, stand, plain, works, seed),
        60..82 => finished(alloc, stand, plain, works, seed),
        82..86 => end(alloc, stand, plain, works, seed),
        86..89 => published(alloc, stand, plain, works, seed),
        89 => {
            plain.leave();
            let said = told(alloc, stand.service.disconnect(alloc), works)?;
            Ok((said, String::new(alloc)))
        }
        90..97 => Ok((connect(alloc, stand, works)?, plain.connect(alloc)?)),
        97 => {
            plain.restart(latest(stand));
            let said = told(alloc, stand.service.restart(alloc, &stand.catalogue), works)?;
            Ok((said, String::new(alloc)))
        }
        98 => {
            if let Some(work) = works.pop_front() {
                work.discard();
            }
            Ok((String::new(alloc), String::new(alloc)))
        }
        _ => {
            let body = Body::Updated {
                version: Version::new(1),
            };
            let said = message(alloc, stand, works, body)?;
            Ok((said, String::from_str(alloc, "note Ignored")?))
        }
    }
}

fn scan(
    alloc: Global,
    stand: &mut Stand,
    plain: &mut Plain,
    works: &mut VecDeque<Work>,
    seed: &mut u64,
) -> Result<(String, String), Fail> {
    let id = any_id(seed);
    let content = Content {
        stream: from_one(seed, 3),
        generation: from_one(seed, 2),
        length: below(seed, 7),
    };
    let body = Body::Scan {
        id: MessageId {
            boot: id.boot,
            seq: id.seq,
        },
        stream: StreamId::new(content.stream),
        generation: Generation::new(content.generation),
        length: content.length,
    };
    Ok((
        message(alloc, stand, works, body)?,
        plain.scan(alloc, id, content)?,
    ))
}

// Mostly the chunk that a job waits for.
fn chunk(
    alloc: Global,
    stand: &mut Stand,
    plain: &mut Plain,
    works: &mut VecDeque<Work>,
    seed: &mut u64,
) -> Result<(String, String), Fail> {
    let (mut id, mut offset, mut count) = (any_id(seed), below(seed, 7), from_one(seed, 4));
    let place = below(seed, plain.jobs.len() as u64) as usize;
    if let Some(job) = plain.jobs.get(place) {
        if below(seed, 8) > 0 {
            id = job.id;
            offset = job.judged.len() as u64;
        }
        if below(seed, 8) > 0 {
            count = job.content.length.saturating_sub(offset).clamp(1, CHUNK);
        }
    }
    let mut bytes = Vec::new(alloc);
    for _ in 0..count {
        bytes.push(match below(seed, 4) {
            0 => b'A',
            1 => b'B',
            2 => b'C',
            _ => b'D',
        })?;
    }
    let body = Body::Chunk {
        id: MessageId {
            boot: id.boot,
            seq: id.seq,
        },
        offset,
        bytes: ByteList::copied(alloc, bytes.as_slice())?,
    };
    Ok((
        message(alloc, stand, works, body)?,
        plain.chunk(alloc, id, offset, bytes.as_slice())?,
    ))
}

// Any work that is out comes back.
fn finished(
    alloc: Global,
    stand: &mut Stand,
    plain: &mut Plain,
    works: &mut VecDeque<Work>,
    seed: &mut u64,
) -> Result<(String, String), Fail> {
    let place = below(seed, works.len() as u64) as usize;
    let lease = match works.get(place) {
        Some(work) => work.lease().get(),
        None => return Ok((String::new(alloc), String::new(alloc))),
    };
    Ok((
        finish(alloc, stand, works, place)?,
        plain.finish(alloc, lease)?,
    ))
}

fn end(
    alloc: Global,
    stand: &mut Stand,
    plain: &mut Plain,
    works: &mut VecDeque<Work>,
    seed: &mut u64,
) -> Result<(String, String), Fail> {
    let plain_id = any_id(seed);
    let id = MessageId {
        boot: plain_id.boot,
        seq: plain_id.seq,
    };
    let body = match below(seed, 2) {
        0 => Body::Abort { id },
        _ => Body::NoChunk {
            id,
            offset: 0,
            cause: NoChunkCause::PastEnd,
        },
    };
    Ok((
        message(alloc, stand, works, body)?,
        plain.end(alloc, plain_id)?,
    ))
}

fn published(
    alloc: Global,
    stand: &mut Stand,
    plain: &mut Plain,
    works: &mut VecDeque<Work>,
    seed: &mut u64,
) -> Result<(String, String), Fail> {
    let version = latest(stand).saturating_add(from_one(seed, 4));
    let said = publish(
        alloc,
        stand,
        works,
        Version::new(version),
        patterns_of(version),
        Reserve::NotMade,
    )?;
    Ok((said, plain.publish(alloc, version)?))
}

fn latest(stand: &Stand) -> u64 {
    match stand.catalogue.latest() {
        Some(version) => version.get(),
        None => 0,
    }
}

fn any_id(seed: &mut u64) -> Id {
    Id {
        boot: from_one(seed, 2),
        seq: from_one(seed, 4),
    }
}

// The next number of the sequence, from 1 to this one.
fn from_one(seed: &mut u64, most: u64) -> u64 {
    below(seed, most).saturating_add(1)
}

// The next number of the sequence, below this one; 0 below 0.
fn below(seed: &mut u64, end: u64) -> u64 {
    *seed = seed
        .wrapping_mul(6_364_136_223_846_793_005)
        .wrapping_add(1_442_695_040_888_963_407);
    (*seed >> 33).checked_rem(end).unwrap_or(0)
}
