// More works than a channel holds.
ghost use Rattle.std.specs.Prelude.{◌≡◌};

use crate::tests::calls;
use crate::tests::calls::Told;
use crate::{Giver, Pool, Taker};
use std::alloc::{AllocError, Global};
use std::process::Abort;
use std::sync::Wait;
use std::test::Fail;
use std::thread;
use std::thread::Threads;

// As many works as a desk lends at once, more or less.
const ROUND: u64 = 200;

// Gives the works of one round, every other one infected. The desk forgets its jobs before the round.
fn give_round<R: Wait>(rt: &R, alloc: Global, giver: &mut Giver)
    ensures { giver.new.channel ≡ giver.old.channel }
{
    let Some(desk) = calls::desk(rt, alloc) else {
        return;
    };
    for stream in 1..ROUND + 1 {
        let bytes: &[u8] = if stream % 2 == 0 { b"AXX" } else { b"ABC" };
        calls::give_one(rt, alloc, &desk, giver, stream, bytes);
    }
}

fn give_rounds<R: Wait>(rt: &R, alloc: Global, giver: Giver, rounds: u64) -> Giver
    ensures { result.channel ≡ giver.channel }
{
    let mut giver = giver;
    for _ in 0..rounds {
        give_round(rt, alloc, &mut giver);
    }
    giver
}

// What came out, with how often that was a mark.
fn take_all<R: Wait>(
    rt: &R,
    alloc: Global,
    taker: Taker,
    count: u64,
) -> (Taker, Result<Vec<Told>, AllocError>)
    ensures { result.0.channel ≡ taker.channel }
{
    let mut taker = taker;
    let mut all = Vec::new(alloc);
    let mut refused = false;
    for _ in 0..count {
        match calls::taken(rt, &mut taker) {
            Some(told) => refused = all.push(told).is_err() || refused,
            None => refused = true,
        }
    }
    (taker, if refused { Err(AllocError) } else { Ok(all) })
}

// Whether each lease of a round stands there as often as there were rounds, with its own verdict.
fn is_whole(all: &[Told], rounds: usize) -> bool {
    for lease in 1..ROUND + 1 {
        let hit = if lease % 2 == 0 { calls::HIT } else { None };
        if all.iter().filter(|told| **told == (lease, hit)).count() != rounds {
            return false;
        }
    }
    true
}

fn passed_through<R: Threads + Wait + Abort + Copy + Send + Sync + 'static>(
    rt: R,
    alloc: Global,
    workers: usize,
) -> Result<(), Fail> {
    let Ok((pool, giver, taker)) = Pool::start(rt, alloc, workers, ()) else {
        return Err(Fail::new("not started"));
    };
    let (giver, taken) = thread::join(
        &rt,
        move || -> Giver
            ensures { result.channel ≡ giver.channel }
        { give_rounds(&rt, alloc, giver, 3) },
        move || -> (Taker, Result<Vec<Told>, AllocError>)
            ensures { result.0.channel ≡ taker.channel }
        { take_all(&rt, alloc, taker, 600) },
    );
    let (taker, taken) = taken;
    let left = calls::left(alloc, pool.stop(&rt, giver, taker))?;
    assert!(&rt; is_whole(taken?.as_slice(), 3));
    assert!(&rt; left.is_empty());
    Ok(())
}

#[test]
fn one_worker_passes_on_more_works_than_a_channel_holds(rt: HostRuntime) -> Result<(), Fail> {
    passed_through(rt, rt.alloc(), 1)
}

#[test]
fn sixteen_workers_pass_on_more_works_than_a_channel_holds(rt: HostRuntime) -> Result<(), Fail> {
    passed_through(rt, rt.alloc(), 16)
}

#[test]
fn works_that_nobody_took_come_at_the_end(rt: HostRuntime) -> Result<(), Fail> {
    let alloc = rt.alloc();
    let Ok((pool, giver, taker)) = Pool::start(rt, alloc, 2, ()) else {
        return Err(Fail::new("not started"));
    };
    let giver = give_rounds(&rt, alloc, giver, 4);
    let left = calls::left(alloc, pool.stop(&rt, giver, taker))?;
    assert!(&rt; left.len() == 800);
    assert!(&rt; is_whole(left.as_slice(), 4));
    Ok(())
}
