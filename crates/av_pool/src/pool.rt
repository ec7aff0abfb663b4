ghost use Rattle.std.specs.Prelude.{◌≡◌, ◌++◌, ◌<◌, ◌+◌, [], ℕ, IfOk, IfErr, length};
ghost use Rattle.std.specs.List.{All, AllByRecursion};
ghost use Rattle.crossbeam_channel.specs.Claims.{view};
ghost use Rattle.av_pool.specs.Channel.{channel_of};
ghost use Rattle.av_pool.specs.Crew.{IsFresh};
ghost use Rattle.av_pool.specs.Handle.{IsHandleOf};
ghost use Rattle.av_pool.specs.Items.{lents_of};
ghost use Rattle.av_pool.specs.Pool.{AreEndsOf, AreRunsOf, IsCrewSize, IsStartRefusal, times_done, times_given};
ghost use Rattle.av_pool.specs.Run.{IsRunOfOne};

use crate::crew::{Crew, HELD, Worker};
use crate::fault::StartFault;
use crate::giver::Giver;
use crate::pace::Pace;
use crate::rest::Rest;
use crate::stopped::Stopped;
use crate::taker::Taker;
use crate::tally::Cut;
use av_base::Refusal;
use av_match::laws::scan_goes_on;
use av_service::Done;
use std::alloc::Global;
use std::marker::Model;
use std::snapshot::Snapshot;
use std::sync::{Arc, Wait};
use std::thread::Threads;

const MAX_WORKERS: usize = 16;

// How many works may be out when a pool is stopped: both channels are full, and each worker has one.
const MOST_OUT: usize = 2 * HELD + MAX_WORKERS;

/// Workers in threads of their own. It must be spent: by `stop`, with the giver and the taker that it was
/// started with, or by `abandon`.
pub struct Pool {
    crew: Crew,
    // Room for what is out when it is stopped.
    dones: Vec<Done>,
}

impl Model for Pool {
    ghost use Rattle.std.specs.Prelude.{◌≡◌, [], length};
    ghost use Rattle.av_pool.specs.Channel.{channel_of};
    ghost use Rattle.av_pool.specs.Crew.{IsFresh};
    ghost use Rattle.av_pool.specs.Pool.{PoolState};

    ghost Value = { PoolState };

    ghost view = { λ p. record {
      works = channel_of p.crew.work_pass;
      dones = channel_of p.crew.done_pass;
      workers = length p.crew.workers.items;
    } };

    ghost invariant = { λ p. IsFresh p.crew × (p.dones.items ≡ []) };
}

impl Pool {
    /// Starts a pool of 1 to 16 workers, with its two ends. Where a thread can't be started or memory is refused, the workers
    /// that were started are ended and joined. The pace is let go at a refusal. All memory that the pool needs is made here.
    pub fn start<P: Pace + Send + Sync + Drop + 'static, R: Threads + Wait + Copy + Send + 'static>(
        rt: R,
        alloc: Global,
        workers: usize,
        pace: P,
    ) -> Result<(Pool, Giver, Taker), Refusal<StartFault>>
        ensures ends { IfOk result (λ r. AreEndsOf r.0 r.1 r.2) }
        ensures giver { IfOk result (λ r. (r.1.given ≡ []) × (r.1.marks ≡ 0)) }
        ensures taker { IfOk result (λ r. (r.2.taken ≡ []) × (r.2.marks ≡ 0)) }
        ensures workers { IfOk result (λ r. (r.0.workers ≡ workers) × IsCrewSize workers) }
        ensures err { IfErr result (IsStartRefusal workers) }
    {
        if workers == 0 || workers > MAX_WORKERS {
            return Err(Refusal::Fault(StartFault::WorkersRange));
        }
        let mut dones = Vec::new(alloc);
        if dones.reserve(MOST_OUT).is_err() {
            dones.destroy_empty();
            return Err(Refusal::NoMemory);
        }
        match crew_of(rt, alloc, workers, pace) {
            Ok((crew, giver, taker)) => Ok((Pool { crew, dones }, giver, taker)),
            Err(why) => {
                dones.destroy_empty();
                Err(why)
            }
        }
    }

    /// Ends and joins the workers, runs the works that none of them took, and gives what was run and not taken. With what was
    /// taken before it is what the runs of the given works give, each as often. Each of it is what the run of one of them gives,
    /// by the automaton that was lent with that one. Takes no memory.
    pub fn stop<R: Threads + Wait>(self, rt: &R, giver: Giver, taker: Taker) -> Stopped
        requires ends { AreEndsOf self giver taker }
        ensures all { (lease : ℕ) → times_done lease (taker.taken ++ result.dones.items) ≡ times_given lease giver.given }
        ensures runs { AreRunsOf giver.given (taker.taken ++ result.dones.items) }
        ensures each { AllByRecursion (IsRunOfOne giver.given) (taker.taken ++ result.dones.items) }
    {
        // The law of a scan that goes on, for the prover: a worker's scan is no other.
        scan_goes_on();
        let took = Snapshot::of(&taker);
        let Pool { crew, dones } = self;
        let Crew {
            workers,
            works_in,
            works_out,
            mut work_pass,
            dones_in,
            dones_out,
            mut done_pass,
        } = crew;
        let Giver { works: _, pass } = giver;
        works_in.absorb::<Cut>(&mut work_pass, pass);
        let Taker { dones: _, pass } = taker;
        dones_in.absorb::<Cut>(&mut done_pass, pass);
        let mut rest = Rest {
            works_in,
            works_out,
            work_pass,
            dones_in,
            dones_out,
            done_pass,
            dones,
            took,
        };
        let count = workers.len();
        rest.end_all(rt, count);
        rest.await_ends(rt, count);
        join_all(rt, workers, &mut rest);
        rest.finish(rt);
        rest.into_stopped()
    }

    /// Ends and joins the workers, and lets all go that was given and not taken: for a program whose giver or taker is lost,
    /// as with a thread that couldn't be started. Nobody may use either of them any more: this would wait for ever. Takes no
    /// memory.
    pub fn abandon<R: Threads + Wait>(self, rt: &R) {
        let Pool { crew, dones } = self;
        let Crew {
            workers,
            works_in,
            works_out,
            work_pass,
            dones_in,
            dones_out,
            mut done_pass,
        } = crew;
        let pass = dones_in.another::<Cut>(&mut done_pass);
        let taker = Taker {
            dones: dones_out,
            pass,
        };
        let took = Snapshot::of(&taker);
        let Taker {
            dones: dones_out,
            pass: _,
        } = taker;
        let mut rest = Rest {
            works_in,
            works_out,
            work_pass,
            dones_in,
            dones_out,
            done_pass,
            dones,
            took,
        };
        let count = workers.len();
        rest.end_all(rt, count);
        rest.await_ends(rt, count);
        join_all(rt, workers, &mut rest);
        rest.run_left(rt);
        rest.take_left(rt);
        rest.into_stopped().discard();
    }
}

// As many workers, with both ends of their channels.
fn crew_of<P: Pace + Send + Sync + Drop + 'static, R: Threads + Wait + Copy + Send + 'static>(
    rt: R,
    alloc: Global,
    workers: usize,
    pace: P,
) -> Result<(Crew, Giver, Taker), Refusal<StartFault>>
    requires { IsCrewSize workers }
    ensures fresh { IfOk result (λ r. IsFresh r.0 × (length r.0.workers.items ≡ workers)) }
    ensures giver { IfOk result (λ r. (r.1.channel ≡ channel_of r.0.work_pass) × (r.1.given ≡ []) × (r.1.marks ≡ 0)) }
    ensures taker { IfOk result (λ r. (r.2.channel ≡ channel_of r.0.done_pass) × (r.2.taken ≡ []) × (r.2.marks ≡ 0)) }
    ensures err { IfErr result (IsStartRefusal workers) }
{
    let Ok(pace) = Arc::new(alloc, pace) else {
        return Err(Refusal::NoMemory);
    };
    let Ok((mut crew, giver, taker)) = Crew::gather(alloc) else {
        return Err(Refusal::NoMemory);
    };
    if let Err(why) = crew.add_workers(rt, workers, &pace) {
        crew.disband(&rt);
        return Err(why);
    }
    Ok((crew, giver, taker))
}

// Joins the workers, and takes in what they know.
fn join_all<R: Threads + Wait>(rt: &R, mut workers: Vec<Worker>, rest: &mut Rest)
    requires promised { All (IsHandleOf rest.old.work_pass rest.old.done_pass) workers.items }
    requires works { 0 < (view rest.old.work_pass).parts }
    requires dones { 0 < (view rest.old.done_pass).parts }
    ensures works { (view rest.new.work_pass).parts ≡ (view rest.old.work_pass).parts + length workers.items }
    ensures put { lents_of (view rest.new.work_pass).put ≡ lents_of (view rest.old.work_pass).put }
    ensures dones { (view rest.new.done_pass).parts ≡ (view rest.old.done_pass).parts + length workers.items }
    ensures took { rest.new.took ≡ rest.old.took }
{
    while let Some(worker) = workers.pop() {
        let (mine, theirs) = worker.join(rt);
        rest.absorb(mine, theirs);
    }
}
