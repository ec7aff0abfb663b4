// Two works that a desk lends and two workers run at once.
use av_base::Lease;
use av_pool::Pace;
use std::alloc::Global;
use std::sync::Arc;
use std::sync::atomic::AtomicU64;
use std::sync::atomic::Ordering::SeqCst;
use std::thread;

// How often `before` of each lease was called, and how often it saw that of the other.
#[derive(Drop)]
pub struct Begun {
    pub first: AtomicU64,
    pub second: AtomicU64,
    pub met: AtomicU64,
}

impl Begun {
    pub fn none() -> Begun {
        Begun {
            first: AtomicU64::new(0),
            second: AtomicU64::new(0),
            met: AtomicU64::new(0),
        }
    }
}

// Holds each of leases 1 and 2 until `before` of the other was called, for a bounded time.
#[derive(Drop)]
pub struct Meeting {
    pub begun: Arc<Begun, Global>,
}

impl Pace for Meeting {
    fn before(&self, lease: Lease) {
        let begun = &*self.begun;
        let (own, other) = if lease.get() == 1 {
            (&begun.first, &begun.second)
        } else {
            (&begun.second, &begun.first)
        };
        own.fetch_add(1, SeqCst);
        for _ in 0..10_000_000u32 {
            if other.load(SeqCst) > 0 {
                begun.met.fetch_add(1, SeqCst);
                return;
            }
            thread::yield_now();
        }
    }

    fn after(&self, _lease: Lease) {}
}
