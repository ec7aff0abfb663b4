// Pools that are not started, and what a start gives once memory is there.
ghost use Rattle.std.specs.Prelude.{◌≡◌, IfOk};
ghost use Rattle.av_pool.specs.Pool.{AreEndsOf};

use crate::tests::calls;
use crate::tests::calls::Told;
use crate::{Giver, Pool, StartFault, Taker};
use av_base::Refusal;
use av_desk::{Desk, Lent};
use av_fakes::{may_refuse, refuse_no_more};
use std::alloc::Global;
use std::sync::Wait;
use std::test::Fail;
use std::thread::Threads;

// Why a pool of so many workers is not started.
fn why_not<R: Threads + Wait + Copy + Send + 'static>(
    rt: R,
    alloc: Global,
    workers: usize,
) -> Option<Refusal<StartFault>> {
    match Pool::start(rt, alloc, workers, ()) {
        Ok((pool, giver, taker)) => {
            pool.stop(&rt, giver, taker).discard();
            None
        }
        Err(why) => Some(why),
    }
}

#[test]
fn a_pool_has_one_to_sixteen_workers(rt: HostRuntime) -> Result<(), Fail> {
    let alloc = rt.alloc();
    let range = Some(Refusal::Fault(StartFault::WorkersRange));
    assert!(&rt; why_not(rt, alloc, 0) == range);
    assert!(&rt; why_not(rt, alloc, 1) == None);
    assert!(&rt; why_not(rt, alloc, 16) == None);
    assert!(&rt; why_not(rt, alloc, 17) == range);
    Ok(())
}

// Starts a pool. Memory may be refused, and then it is started again.
fn started<R: Threads + Wait + Copy + Send + 'static>(
    rt: R,
    alloc: Global,
) -> Result<(Pool, Giver, Taker), Fail>
    ensures { IfOk result (λ r. AreEndsOf r.0 r.1 r.2) }
{
    may_refuse(alloc);
    let first = Pool::start(rt, alloc, 3, ());
    refuse_no_more(alloc);
    let again = match first {
        Ok(all) => return Ok(all),
        Err(Refusal::Fault(StartFault::WorkersRange)) => return Err(Fail::new("refused 3")),
        Err(_) => Pool::start(rt, alloc, 3, ()),
    };
    match again {
        Ok(all) => Ok(all),
        Err(_) => Err(Fail::new("refused with memory")),
    }
}

// One work and one mark through a pool. None of the calls requests memory.
fn passed<R: Wait>(
    rt: &R,
    alloc: Global,
    lent: Lent,
    giver: &mut Giver,
    taker: &mut Taker,
) -> (Option<Told>, Option<Told>)
    ensures giver { giver.new.channel ≡ giver.old.channel }
    ensures taker { taker.new.channel ≡ taker.old.channel }
{
    may_refuse(alloc);
    giver.give(rt, lent);
    let told = calls::taken(rt, taker);
    giver.wake(rt);
    let mark = calls::taken(rt, taker);
    refuse_no_more(alloc);
    (told, mark)
}

// What came out of a pool through which a work goes, and how many were left when it was stopped without memory.
fn passed_and_stopped<R: Threads + Wait + Copy + Send + 'static>(
    rt: R,
    alloc: Global,
    desk: &Desk,
) -> Result<(Option<Told>, Option<Told>, usize), Fail> {
    let (pool, mut giver, mut taker) = started(rt, alloc)?;
    let (told, mark) = match calls::lend(&rt, alloc, desk, 1, b"AXX") {
        Some(lent) => passed(&rt, alloc, lent, &mut giver, &mut taker),
        None => (None, None),
    };
    may_refuse(alloc);
    let stopped = pool.stop(&rt, giver, taker);
    refuse_no_more(alloc);
    let count = stopped.dones.len();
    stopped.discard();
    Ok((told, mark, count))
}

#[test]
fn refused_or_not_a_pool_starts_or_leaves_no_thread_and_then_needs_no_memory(
    rt: HostRuntime,
) -> Result<(), Fail> {
    let alloc = rt.alloc();
    let desk = calls::desk(&rt, alloc).ok_or("no desk")?;
    let (told, mark, count) = passed_and_stopped(rt, alloc, &desk)?;
    assert!(&rt; told == Some((1, calls::HIT)));
    assert!(&rt; mark.is_none() && count == 0);
    Ok(())
}
