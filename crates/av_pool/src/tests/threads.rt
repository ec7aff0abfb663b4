// Ends of a pool that threads own, and which come back by a promise.
ghost use Rattle.std.specs.Prelude.{◌≡◌, IfSome};

use crate::tests::calls;
use crate::tests::calls::Told;
use crate::{Giver, Pool, Taker};
use std::alloc::Global;
use std::snapshot::Snapshot;
use std::sync::Wait;
use std::test::Fail;
use std::thread;
use std::thread::{Promise, Threads};

// The giver that comes back is of the same channel.
#[derive(Drop)]
struct SameGiver(Snapshot<Giver>);

impl Promise<Giver> for SameGiver {
    ghost kept_by = { λ p r. r.channel ≡ p.0.value.channel };
}

// The taker likewise, with what it took.
#[derive(Drop)]
struct SameTaker(Snapshot<Taker>);

impl Promise<(Taker, Option<Told>)> for SameTaker {
    ghost kept_by = { λ p r. r.0.channel ≡ p.0.value.channel };
}

fn give_there<R: Threads + Wait + Copy + Send + 'static>(
    rt: R,
    alloc: Global,
    giver: Giver,
) -> Option<Giver>
    ensures { IfSome result (λ g. g.channel ≡ giver.channel) }
{
    let promise = SameGiver(Snapshot::of(&giver));
    let child = thread::spawn_with(
        &rt,
        promise,
        move || -> Giver
            ensures { result.channel ≡ giver.channel }
        {
            let mut giver = giver;
            if let Some(desk) = calls::desk(&rt, alloc) {
                calls::give_one(&rt, alloc, &desk, &mut giver, 1, b"AXX");
            }
            giver
        },
    )
    .ok()?;
    Some(child.join(&rt))
}

fn take_there<R: Threads + Wait + Copy + Send + 'static>(
    rt: R,
    taker: Taker,
) -> Option<(Taker, Option<Told>)>
    ensures { IfSome result (λ r. r.0.channel ≡ taker.channel) }
{
    let promise = SameTaker(Snapshot::of(&taker));
    let child = thread::spawn_with(
        &rt,
        promise,
        move || -> (Taker, Option<Told>)
            ensures { result.0.channel ≡ taker.channel }
        {
            let mut taker = taker;
            let told = calls::taken(&rt, &mut taker);
            (taker, told)
        },
    )
    .ok()?;
    Some(child.join(&rt))
}

// Both ends in threads of their own, one after the other, and then the pool is stopped, or abandoned where one is lost.
fn there_and_back<R: Threads + Wait + Copy + Send + 'static>(rt: R, alloc: Global) -> Option<Told> {
    let Ok((pool, giver, taker)) = Pool::start(rt, alloc, 2, ()) else {
        return None;
    };
    let Some(giver) = give_there(rt, alloc, giver) else {
        pool.abandon(&rt);
        return None;
    };
    let Some((taker, told)) = take_there(rt, taker) else {
        pool.abandon(&rt);
        return None;
    };
    pool.stop(&rt, giver, taker).discard();
    told
}

#[test]
fn ends_that_come_back_by_a_promise_stop_their_pool(rt: HostRuntime) -> Result<(), Fail> {
    assert!(&rt; there_and_back(rt, rt.alloc()) == Some((1, calls::HIT)));
    Ok(())
}

#[test]
fn a_pool_without_its_ends_is_abandoned_with_works_in_it(rt: HostRuntime) -> Result<(), Fail> {
    let alloc = rt.alloc();
    let desk = calls::desk(&rt, alloc).ok_or("no desk")?;
    let Ok((pool, mut giver, taker)) = Pool::start(rt, alloc, 3, ()) else {
        return Err(Fail::new("not started"));
    };
    drop(taker);
    for stream in 1..9u64 {
        calls::give_one(&rt, alloc, &desk, &mut giver, stream, b"ABC");
    }
    drop(giver);
    pool.abandon(&rt);
    Ok(())
}
