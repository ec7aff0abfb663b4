ghost use Rattle.std.specs.Prelude.{◌≡◌, ◌↔◌, IfErr, IfOk, IsSome};
ghost use Rattle.av_pool.specs.Pool.{AreEndsOf};
ghost use Rattle.av_status.specs.Status.{IsFault, status_of_end};

use crate::host::Hosting;
use crate::service::{HostedService, Services};
use av_base::Refusal;
use av_engines::End;
use av_pool::{Giver, Pool, Taker};
use std::alloc::Global;
use std::sync::Wait;
use std::thread::Threads;

/// A service, and the pool of workers that scan for it with its two ends. It must be spent, by `stop`.
pub struct Staffed<'a> {
    pub service: &'a HostedService,
    pub pool: Pool,
    pub giver: Giver,
    pub taker: Taker,
    ghost ends: { AreEndsOf pool giver taker },
}

impl<'a> Staffed<'a> {
    /// A service with so many workers, 1 to 16.
    pub fn start<R: Hosting>(
        rt: &R,
        alloc: Global,
        service: &'a HostedService,
        workers: usize,
    ) -> Result<Staffed<'a>, End>
        ensures workers { IfOk result (λ staffed. staffed.pool.workers ≡ workers) }
        ensures failed { IfErr result (λ end. IsFault (status_of_end end)) }
    {
        match Pool::start(*rt, alloc, workers, ()) {
            Ok((pool, giver, taker)) => Ok(Staffed {
                service,
                pool,
                giver,
                taker,
            }),
            Err(Refusal::NoMemory) => Err(End::Memory),
            Err(Refusal::Fault(_)) => Err(End::ReadFault),
        }
    }

    /// Ends and joins its workers.
    pub fn stop<R: Threads + Wait>(self, rt: &R) {
        let Staffed {
            service: _,
            pool,
            giver,
            taker,
        } = self;
        pool.stop(rt, giver, taker).discard();
    }
}

/// All services, each with so many workers. Where those of the spare can't be started, the first one's are ended.
pub fn start_pools<'a, R: Hosting>(
    rt: &R,
    alloc: Global,
    services: &'a Services,
    workers: usize,
) -> Result<(Staffed<'a>, Option<Staffed<'a>>), End>
    ensures spare { IfOk result (λ all. IsSome all.1 ↔ IsSome services.now.spare) }
    ensures failed { IfErr result (λ end. IsFault (status_of_end end)) }
{
    let first = Staffed::start(rt, alloc, &services.first, workers)?;
    let Some(spare) = &services.spare else {
        return Ok((first, None));
    };
    match Staffed::start(rt, alloc, spare, workers) {
        Ok(spare) => Ok((first, Some(spare))),
        Err(end) => {
            first.stop(rt);
            Err(end)
        }
    }
}
