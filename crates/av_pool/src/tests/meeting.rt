// Two workers that run at once.
ghost use Rattle.std.specs.Prelude.{◌≡◌};

use crate::tests::calls;
use crate::{Giver, Pace, Pool, Taker};
use av_base::Lease;
use std::alloc::Global;
use std::process::Abort;
use std::sync::atomic::AtomicU64;
use std::sync::atomic::Ordering::SeqCst;
use std::sync::{Arc, Wait};
use std::test::Fail;
use std::thread;

// How often `before` of each lease was called, how often it saw that of the other, and how often `after` was called.
#[derive(Drop)]
struct Calls {
    first: AtomicU64,
    second: AtomicU64,
    met: AtomicU64,
    ended: AtomicU64,
}

// Holds each of leases 1 and 2 until `before` of the other was called, for a bounded time.
#[derive(Drop)]
struct Meeting {
    calls: Arc<Calls, Global>,
}

impl Pace for Meeting {
    fn before(&self, lease: Lease) {
        let calls = &*self.calls;
        let (own, other) = if lease.get() == 1 {
            (&calls.first, &calls.second)
        } else {
            (&calls.second, &calls.first)
        };
        own.fetch_add(1, SeqCst);
        for _ in 0..10_000_000u32 {
            if other.load(SeqCst) > 0 {
                calls.met.fetch_add(1, SeqCst);
                return;
            }
            thread::yield_now();
        }
    }

    fn after(&self, _lease: Lease) {
        self.calls.ended.fetch_add(1, SeqCst);
    }
}

fn calls_of_none() -> Calls {
    Calls {
        first: AtomicU64::new(0),
        second: AtomicU64::new(0),
        met: AtomicU64::new(0),
        ended: AtomicU64::new(0),
    }
}

fn two_taken<R: Wait + Abort>(
    rt: &R,
    alloc: Global,
    giver: &mut Giver,
    taker: &mut Taker,
) -> Option<()>
    ensures giver { giver.new.channel ≡ giver.old.channel }
    ensures taker { taker.new.channel ≡ taker.old.channel }
{
    let desk = calls::desk(rt, alloc)?;
    calls::give_one(rt, alloc, &desk, giver, 1, b"ABC");
    calls::give_one(rt, alloc, &desk, giver, 2, b"AXX");
    let one = calls::taken(rt, taker);
    let two = calls::taken(rt, taker);
    let clean = Some((1, None));
    let infected = Some((2, calls::HIT));
    assert!(rt; (one == clean && two == infected) || (one == infected && two == clean));
    giver.wake(rt);
    assert!(rt; calls::taken(rt, taker).is_none());
    Some(())
}

#[test]
fn two_workers_run_at_once_and_each_work_has_its_own_verdict(rt: HostRuntime) -> Result<(), Fail> {
    let alloc = rt.alloc();
    let calls = Arc::new(alloc, calls_of_none())?;
    let pace = Meeting {
        calls: Arc::try_clone(&calls)?,
    };
    let Ok((pool, mut giver, mut taker)) = Pool::start(rt, alloc, 2, pace) else {
        return Err(Fail::new("not started"));
    };
    let passed = two_taken(&rt, alloc, &mut giver, &mut taker);
    let left = calls::left(alloc, pool.stop(&rt, giver, taker))?;
    assert!(&rt; passed.is_some() && left.is_empty());
    assert!(&rt; calls.first.load(SeqCst) == 1 && calls.second.load(SeqCst) == 1);
    assert!(&rt; calls.met.load(SeqCst) == 2 && calls.ended.load(SeqCst) == 2);
    Ok(())
}
