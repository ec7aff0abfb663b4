ghost use Rattle.std.specs.Prelude.{◌≡◌, ◌+◌, ◌++◌, ◌∷◌, ◌<◌, [], vec_len, vec_capacity, IsTrue};
ghost use Rattle.crossbeam_channel.specs.Claims.{view, IsSeatAt};
ghost use Rattle.crossbeam_channel.specs.Ends.{sends_on, receives_on};
ghost use Rattle.av_pool.specs.Channel.{IsLike};
ghost use Rattle.av_pool.specs.Items.{done_in, lents_of, run_in};
ghost use Rattle.av_pool.specs.Pool.{AreRunsOf};
ghost use Rattle.av_pool.specs.Tally.{IsLater, Knows};
ghost use Rattle.av_pool.specs.Worker.{HasSent, Settles};

use crate::item::{
    DoneItem, DonePass, DoneReceiver, DoneSender, WorkItem, WorkPass, WorkReceiver, WorkSender,
};
use crate::ran::Ran;
use crate::stopped::Stopped;
use crate::taker::Taker;
use crate::tally::{Cut, Put, Took};
use crate::worker::receive;
use av_service::Done;
use std::snapshot::Snapshot;
use std::sync::Wait;
use std::thread;

/// A pool at its end: both channels, with the giver's and the taker's passes taken in, and what came out since.
pub struct Rest {
    pub(crate) works_in: WorkSender,
    pub(crate) works_out: WorkReceiver,
    pub(crate) work_pass: WorkPass,
    pub(crate) dones_in: DoneSender,
    pub(crate) dones_out: DoneReceiver,
    pub(crate) done_pass: DonePass,
    pub(crate) dones: Vec<Done>,
    // What the taker had taken before.
    pub(crate) took: Snapshot<Taker>,
    ghost works_in_seat: { IsSeatAt (sends_on works_in) work_pass },
    ghost works_out_seat: { IsSeatAt (receives_on works_out) work_pass },
    ghost dones_in_seat: { IsSeatAt (sends_on dones_in) done_pass },
    ghost dones_out_seat: { IsSeatAt (receives_on dones_out) done_pass },
    ghost settles: { Settles (took.value.taken ++ dones.items) (view done_pass) (view work_pass) },
}

// Room for one more. There is room for all that can come, which no clause knows: without it this would wait for memory.
fn room<R: Wait>(rt: &R, dones: &mut Vec<Done>)
    ensures items { dones.new.items ≡ dones.old.items }
    ensures room { vec_len dones.new < vec_capacity dones.new }
{
    for _ in rt.forever() {
        if dones.reserve(1).is_ok() {
            return;
        }
        thread::yield_now();
    }
    unreachable!()
}

// Keeps a work that was run.
fn keep_run<R: Wait>(rt: &R, ran: Ran, dones: &mut Vec<Done>)
    ensures { dones.new.items ≡ dones.old.items ++ ran ∷ [] }
{
    room(rt, dones);
    dones.push_reserved(ran.unpack());
}

// Keeps what came back. True at the end of a worker.
fn keep_back<R: Wait>(rt: &R, item: DoneItem, dones: &mut Vec<Done>) -> bool
    ensures { dones.new.items ≡ dones.old.items ++ done_in item }
{
    match item {
        DoneItem::Parcel(ran) => {
            keep_run(rt, ran, dones);
            false
        }
        DoneItem::Mark => false,
        DoneItem::End => true,
    }
}

// Runs a work that no worker took, and keeps what that gives.
fn keep_left<R: Wait>(rt: &R, item: WorkItem, dones: &mut Vec<Done>)
    ensures { dones.new.items ≡ dones.old.items ++ run_in item }
{
    match item {
        WorkItem::Parcel(parcel) => keep_run(rt, Ran::run(parcel.unpack()), dones),
        WorkItem::Mark => {}
        WorkItem::End => {}
    }
}

impl Rest {
    /// Sends as many ends.
    pub(crate) fn end_all<R: Wait>(&mut self, rt: &R, count: usize)
        requires works { 0 < (view self.old.work_pass).parts }
        requires dones { 0 < (view self.old.done_pass).parts }
        ensures works { IsLater self.old.work_pass self.new.work_pass }
        ensures put { lents_of (view self.new.work_pass).put ≡ lents_of (view self.old.work_pass).put }
        ensures dones { IsLater self.old.done_pass self.new.done_pass }
        ensures took { self.new.took ≡ self.old.took }
    {
        for _ in 0..count {
            self.end_one(rt);
        }
    }

    // Sends one end. Where there is no room it takes what was done.
    fn end_one<R: Wait>(&mut self, rt: &R)
        requires works { 0 < (view self.old.work_pass).parts }
        requires dones { 0 < (view self.old.done_pass).parts }
        ensures works { IsLater self.old.work_pass self.new.work_pass }
        ensures put { lents_of (view self.new.work_pass).put ≡ lents_of (view self.old.work_pass).put }
        ensures dones { IsLater self.old.done_pass self.new.done_pass }
        ensures took { self.new.took ≡ self.old.took }
    {
        for _ in rt.forever() {
            if self.try_end(rt) {
                return;
            }
            let _ = self.take_if(rt);
            thread::yield_now();
        }
        unreachable!()
    }

    fn try_end<R: Wait>(&mut self, rt: &R) -> bool
        requires works { 0 < (view self.old.work_pass).parts }
        ensures works { IsLater self.old.work_pass self.new.work_pass }
        ensures put { lents_of (view self.new.work_pass).put ≡ lents_of (view self.old.work_pass).put }
        ensures dones { self.new.done_pass ≡ self.old.done_pass }
        ensures took { self.new.took ≡ self.old.took }
    {
        match self
            .works_in
            .try_send_as::<Put, R>(rt, &mut self.work_pass, WorkItem::End)
        {
            Ok(()) => true,
            Err(_) => false,
        }
    }

    /// Takes until as many workers have ended.
    pub(crate) fn await_ends<R: Wait>(&mut self, rt: &R, count: usize)
        requires { 0 < (view self.old.done_pass).parts }
        ensures works { self.new.work_pass ≡ self.old.work_pass }
        ensures dones { IsLater self.old.done_pass self.new.done_pass }
        ensures took { self.new.took ≡ self.old.took }
    {
        let mut left = count;
        for _ in rt.forever() {
            if left == 0 {
                return;
            }
            if self.take_one(rt) {
                left -= 1;
            }
        }
        unreachable!()
    }

    // Receives one item, and keeps it. True at the end of a worker.
    fn take_one<R: Wait>(&mut self, rt: &R) -> bool
        requires { 0 < (view self.old.done_pass).parts }
        ensures works { self.new.work_pass ≡ self.old.work_pass }
        ensures dones { IsLater self.old.done_pass self.new.done_pass }
        ensures took { self.new.took ≡ self.old.took }
    {
        let item = receive(rt, &self.dones_out, &mut self.done_pass);
        keep_back(rt, item, &mut self.dones)
    }

    /// Takes in what a worker knows.
    pub(crate) fn absorb(&mut self, mine: WorkPass, theirs: DonePass)
        requires works { IsLike self.old.work_pass mine × (0 < (view self.old.work_pass).parts) }
        requires dones { IsLike self.old.done_pass theirs × (0 < (view self.old.done_pass).parts) }
        requires sent { HasSent (view mine) (view theirs) }
        ensures works { IsLike self.old.work_pass self.new.work_pass }
        ensures mine { (view self.new.work_pass).parts ≡ (view self.old.work_pass).parts + 1 }
        ensures dones { IsLike self.old.done_pass self.new.done_pass }
        ensures theirs { (view self.new.done_pass).parts ≡ (view self.old.done_pass).parts + 1 }
        ensures put { lents_of (view self.new.work_pass).put ≡ lents_of (view self.old.work_pass).put }
        ensures took { self.new.took ≡ self.old.took }
    {
        self.works_in.absorb::<Cut>(&mut self.work_pass, mine);
        self.dones_in.absorb::<Cut>(&mut self.done_pass, theirs);
    }

    /// Runs and takes all that is left, once every pass is back.
    pub(crate) fn finish<R: Wait>(&mut self, rt: &R)
        requires works { (view self.old.work_pass).parts ≡ 1024 }
        requires dones { (view self.old.done_pass).parts ≡ 1024 }
        ensures all { AreRunsOf (lents_of (view self.old.work_pass).put) (self.old.took.value.taken ++ self.new.dones.items) }
    {
        self.run_left(rt);
        self.take_left(rt);
    }

    /// Runs what no worker took.
    pub(crate) fn run_left<R: Wait>(&mut self, rt: &R)
        requires { 0 < (view self.old.work_pass).parts }
        ensures dones { self.new.done_pass ≡ self.old.done_pass }
        ensures parts { (view self.new.work_pass).parts ≡ (view self.old.work_pass).parts }
        ensures put { (view self.new.work_pass).put ≡ (view self.old.work_pass).put }
        ensures empty { Knows (view self.new.work_pass) [] }
        ensures took { self.new.took ≡ self.old.took }
    {
        for _ in rt.forever() {
            if self.run_if(rt) {
                return;
            }
        }
        unreachable!()
    }

    // Runs a work that no worker took, if one is there. True where the channel was empty at one moment.
    fn run_if<R: Wait>(&mut self, rt: &R) -> bool
        requires { 0 < (view self.old.work_pass).parts }
        ensures dones { self.new.done_pass ≡ self.old.done_pass }
        ensures parts { (view self.new.work_pass).parts ≡ (view self.old.work_pass).parts }
        ensures put { (view self.new.work_pass).put ≡ (view self.old.work_pass).put }
        ensures empty { IsTrue result → Knows (view self.new.work_pass) [] }
        ensures took { self.new.took ≡ self.old.took }
    {
        match self
            .works_out
            .try_recv_as::<Took, R>(rt, &mut self.work_pass)
        {
            Ok(item) => {
                keep_left(rt, item, &mut self.dones);
                false
            }
            Err(_) => true,
        }
    }

    /// Takes what is there.
    pub(crate) fn take_left<R: Wait>(&mut self, rt: &R)
        requires { 0 < (view self.old.done_pass).parts }
        ensures works { self.new.work_pass ≡ self.old.work_pass }
        ensures dones { IsLater self.old.done_pass self.new.done_pass }
        ensures empty { Knows (view self.new.done_pass) [] }
        ensures took { self.new.took ≡ self.old.took }
    {
        for _ in rt.forever() {
            if self.take_if(rt) {
                return;
            }
        }
        unreachable!()
    }

    // Takes what was done, if anything is there. True where the channel was empty at one moment.
    fn take_if<R: Wait>(&mut self, rt: &R) -> bool
        requires { 0 < (view self.old.done_pass).parts }
        ensures works { self.new.work_pass ≡ self.old.work_pass }
        ensures dones { IsLater self.old.done_pass self.new.done_pass }
        ensures empty { IsTrue result → Knows (view self.new.done_pass) [] }
        ensures took { self.new.took ≡ self.old.took }
    {
        match self
            .dones_out
            .try_recv_as::<Took, R>(rt, &mut self.done_pass)
        {
            Ok(item) => {
                let _ = keep_back(rt, item, &mut self.dones);
                false
            }
            Err(_) => true,
        }
    }

    /// What came out.
    pub(crate) fn into_stopped(self) -> Stopped
        ensures { result.dones.items ≡ self.dones.items }
    {
        let Rest {
            works_in: _,
            works_out: _,
            work_pass: _,
            dones_in: _,
            dones_out: _,
            done_pass: _,
            dones,
            took: _,
        } = self;
        Stopped { dones }
    }
}
