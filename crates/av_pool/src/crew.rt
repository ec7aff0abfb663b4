ghost use Rattle.std.specs.Prelude.{◌≡◌, ◌<◌, [], IfSome, IfOk, IfErr, OnOk, ℕ, ◌+◌, length};
ghost use Rattle.crossbeam_channel.specs.Claims.{view, IsSeatAt};
ghost use Rattle.crossbeam_channel.specs.Ends.{sends_on, receives_on};
ghost use Rattle.av_pool.specs.Channel.{IsLike, channel_of};
ghost use Rattle.av_pool.specs.Pool.{IsCrewSize, IsStartRefusal};
ghost use Rattle.av_pool.specs.Tally.{tally};
ghost use Rattle.av_pool.specs.Worker.{HasSent};

use crate::fault::StartFault;
use crate::giver::Giver;
use crate::item::{
    DoneItem, DonePass, DoneReceiver, DoneSender, WorkItem, WorkPass, WorkReceiver, WorkSender,
};
use crate::pace::Pace;
use crate::taker::Taker;
use crate::tally::{Cut, EachAsOften, PassTally};
use crate::worker::{send, work};
use av_base::Refusal;
use crossbeam_channel::bounded_with;
use std::alloc::{AllocError, Global};
use std::snapshot::Snapshot;
use std::sync::{Arc, Wait};
use std::thread;
use std::thread::{Promise, PromisedHandle, Threads};

/// How many items wait in a channel at most.
pub(crate) const HELD: usize = 512;

/// A worker's join says that it sent what the run of each work that it took gave.
#[derive(Drop)]
pub struct Sent {
    work: Snapshot<WorkPass>,
    done: Snapshot<DonePass>,
}

impl Promise<(WorkPass, DonePass)> for Sent {
    ghost kept_by = { λ p r. IsLike p.work.value r.0 × IsLike p.done.value r.1 × HasSent (view r.0) (view r.1) };
}

pub(crate) type Worker = PromisedHandle<(WorkPass, DonePass), Sent>;

/// Workers over two channels, one for works and one for what they gave, with the ends that stay with the pool.
#[derive(Drop)]
pub struct Crew {
    pub(crate) workers: Vec<Worker>,
    pub(crate) works_in: WorkSender,
    pub(crate) works_out: WorkReceiver,
    pub(crate) work_pass: WorkPass,
    pub(crate) dones_in: DoneSender,
    pub(crate) dones_out: DoneReceiver,
    pub(crate) done_pass: DonePass,
    ghost works_in_seat: { IsSeatAt (sends_on works_in) work_pass },
    ghost works_out_seat: { IsSeatAt (receives_on works_out) work_pass },
    ghost dones_in_seat: { IsSeatAt (sends_on dones_in) done_pass },
    ghost dones_out_seat: { IsSeatAt (receives_on dones_out) done_pass },
}

fn start_worker<P: Pace + Send + Sync + Drop + 'static, R: Threads + Wait + Copy + Send + 'static>(
    rt: R,
    pace: Arc<P, Global>,
    works: WorkReceiver,
    dones: DoneSender,
    mut mine: WorkPass,
    mut theirs: DonePass,
) -> Option<Worker>
    requires works { IsSeatAt (receives_on works) mine × (view mine ≡ tally 1 [] []) }
    requires dones { IsSeatAt (sends_on dones) theirs × (view theirs ≡ tally 1 [] []) }
    ensures { IfSome result (λ h. IsLike mine h.promise.work.value × IsLike theirs h.promise.done.value) }
{
    let promise = Sent {
        work: Snapshot::of(&mine),
        done: Snapshot::of(&theirs),
    };
    thread::spawn_with(
        &rt,
        promise,
        move || -> (WorkPass, DonePass)
            requires works { IsSeatAt (receives_on works) mine × (view mine ≡ tally 1 [] []) }
            requires dones { IsSeatAt (sends_on dones) theirs × (view theirs ≡ tally 1 [] []) }
            ensures { IsLike mine result.0 × IsLike theirs result.1 × HasSent (view result.0) (view result.1) }
        {
            work(&rt, &*pace, &works, &dones, &mut mine, &mut theirs);
            (mine, theirs)
        },
    )
    .ok()
}

impl Crew {
    ghost use Rattle.av_pool.specs.Crew.{IsFresh};

    /// Both channels and no worker yet, with the ends that a giver and a taker have.
    pub(crate) fn gather(alloc: Global) -> Result<(Crew, Giver, Taker), AllocError>
        ensures fresh { IfOk result (λ r. IsFresh r.0 × (length r.0.workers.items ≡ 0)) }
        ensures giver { IfOk result (λ r. (r.1.channel ≡ channel_of r.0.work_pass) × (r.1.given ≡ []) × (r.1.marks ≡ 0)) }
        ensures taker { IfOk result (λ r. (r.2.channel ≡ channel_of r.0.done_pass) × (r.2.taken ≡ []) × (r.2.marks ≡ 0)) }
    {
        let (works_in, works_out, mut work_pass) = bounded_with::<
            WorkItem,
            PassTally<WorkItem>,
            EachAsOften,
            Global,
        >(alloc, HELD)?;
        let (dones_in, dones_out, mut done_pass) = bounded_with::<
            DoneItem,
            PassTally<DoneItem>,
            EachAsOften,
            Global,
        >(alloc, HELD)?;
        let giver = Giver {
            works: works_in.try_clone()?,
            pass: works_in.another::<Cut>(&mut work_pass),
        };
        let taker = Taker {
            dones: dones_out.try_clone()?,
            pass: dones_in.another::<Cut>(&mut done_pass),
        };
        let crew = Crew {
            workers: Vec::new(alloc),
            works_in,
            works_out,
            work_pass,
            dones_in,
            dones_out,
            done_pass,
        };
        Ok((crew, giver, taker))
    }

    /// Starts as many workers. Where this fails, the crew can only be disbanded.
    pub(crate) fn add_workers<
        P: Pace + Send + Sync + Drop + 'static,
        R: Threads + Wait + Copy + Send + 'static,
    >(&mut self, rt: R, count: usize, pace: &Arc<P, Global>) -> Result<(), Refusal<StartFault>>
        requires fresh { IsFresh self.old × (length self.old.workers.items ≡ 0) }
        requires few { IsCrewSize count }
        ensures fresh { OnOk result (IsFresh self.new × (length self.new.workers.items ≡ count)) }
        ensures works { IsLike self.old.work_pass self.new.work_pass }
        ensures dones { IsLike self.old.done_pass self.new.done_pass }
        ensures part { 0 < (view self.new.work_pass).parts }
        ensures err { IfErr result (IsStartRefusal count) }
    {
        for _ in 0..count {
            self.add_worker(rt, pace)?;
        }
        Ok(())
    }

    // Starts one more worker.
    fn add_worker<
        P: Pace + Send + Sync + Drop + 'static,
        R: Threads + Wait + Copy + Send + 'static,
    >(&mut self, rt: R, pace: &Arc<P, Global>) -> Result<(), Refusal<StartFault>>
        requires fresh { IsFresh self.old × (length self.old.workers.items < 16) }
        ensures fresh { OnOk result (IsFresh self.new × (length self.new.workers.items ≡ length self.old.workers.items + 1)) }
        ensures works { IsLike self.old.work_pass self.new.work_pass }
        ensures dones { IsLike self.old.done_pass self.new.done_pass }
        ensures part { 0 < (view self.new.work_pass).parts }
        ensures err { (n : ℕ) → IsCrewSize n → IfErr result (IsStartRefusal n) }
    {
        self.workers.reserve(1)?;
        let pace = Arc::try_clone(pace)?;
        let works = self.works_out.try_clone()?;
        let dones = self.dones_in.try_clone()?;
        let mine = self.works_in.another::<Cut>(&mut self.work_pass);
        let theirs = self.dones_in.another::<Cut>(&mut self.done_pass);
        let Some(worker) = start_worker(rt, pace, works, dones, mine, theirs) else {
            return Err(Refusal::Fault(StartFault::NoThread));
        };
        self.workers.push_reserved(worker);
        Ok(())
    }

    /// Ends and joins the workers that were started. They have no work, so both channels have room for their ends.
    pub(crate) fn disband<R: Threads + Wait>(self, rt: &R)
        requires { 0 < (view self.work_pass).parts }
    {
        let Crew {
            workers,
            works_in,
            works_out: _,
            mut work_pass,
            dones_in: _,
            dones_out: _,
            done_pass: _,
        } = self;
        for _ in 0..workers.len() {
            send(rt, &works_in, &mut work_pass, WorkItem::End);
        }
        for worker in workers {
            let (_mine, _theirs) = worker.join(rt);
        }
    }
}
