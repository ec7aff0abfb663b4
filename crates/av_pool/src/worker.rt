ghost use Rattle.std.specs.Prelude.{◌≡◌, ◌++◌, ◌∷◌, ◌<◌, []};
ghost use Rattle.crossbeam_channel.specs.Claims.{view, IsSeatAt};
ghost use Rattle.crossbeam_channel.specs.Ends.{sends_on, receives_on};
ghost use Rattle.av_pool.specs.Tally.{tally};
ghost use Rattle.av_pool.specs.Worker.{HasSent};

use crate::item::{DoneItem, DonePass, DoneSender, WorkItem, WorkPass, WorkReceiver};
use crate::pace::Pace;
use crate::ran::Ran;
use crate::tally::{EachAsOften, PassTally, Put, Took};
use crossbeam_channel::{Pass, RuledReceiver, RuledSender};
use std::sync::Wait;
use std::thread;

/// Sends, and waits for as long as it can't.
pub(crate) fn send<T: Drop, R: Wait>(
    rt: &R,
    sender: &RuledSender<T, PassTally<T>, EachAsOften>,
    pass: &mut Pass<T, PassTally<T>>,
    item: T,
)
    requires channel { IsSeatAt (sends_on sender.now) pass.old }
    requires part { 0 < (view pass.old).parts }
    ensures channel { IsSeatAt (sends_on sender.now) pass.new }
    ensures put { view pass.new ≡ tally (view pass.old).parts ((view pass.old).put ++ item ∷ []) (view pass.old).taken }
{
    let mut item = item;
    for _ in rt.forever() {
        match sender.send_as::<Put, R>(rt, pass, item) {
            Ok(()) => return,
            Err(back) => item = back.into_inner(),
        }
        thread::yield_now();
    }
    unreachable!()
}

/// Receives, and waits for as long as it can't.
pub(crate) fn receive<T: Drop, R: Wait>(
    rt: &R,
    receiver: &RuledReceiver<T, PassTally<T>, EachAsOften>,
    pass: &mut Pass<T, PassTally<T>>,
) -> T
    requires channel { IsSeatAt (receives_on receiver.now) pass.old }
    requires part { 0 < (view pass.old).parts }
    ensures channel { IsSeatAt (receives_on receiver.now) pass.new }
    ensures took { view pass.new ≡ tally (view pass.old).parts (view pass.old).put ((view pass.old).taken ++ result ∷ []) }
{
    for _ in rt.forever() {
        if let Ok(item) = receiver.recv_as::<Took, R>(rt, pass) {
            return item;
        }
        thread::yield_now();
    }
    unreachable!()
}

/// Runs what comes, and sends what that gives, until an end comes.
pub(crate) fn work<P: Pace, R: Wait>(
    rt: &R,
    pace: &P,
    works: &WorkReceiver,
    dones: &DoneSender,
    mine: &mut WorkPass,
    theirs: &mut DonePass,
)
    requires works { IsSeatAt (receives_on works.now) mine.old × (view mine.old ≡ tally 1 [] []) }
    requires dones { IsSeatAt (sends_on dones.now) theirs.old × (view theirs.old ≡ tally 1 [] []) }
    ensures works { IsSeatAt (receives_on works.now) mine.new }
    ensures dones { IsSeatAt (sends_on dones.now) theirs.new }
    ensures sent { HasSent (view mine.new) (view theirs.new) }
{
    for _ in rt.forever() {
        match receive(rt, works, mine) {
            WorkItem::Parcel(parcel) => {
                let lent = parcel.unpack();
                let lease = lent.work().lease();
                pace.before(lease);
                let ran = Ran::run(lent);
                pace.after(lease);
                send(rt, dones, theirs, DoneItem::Parcel(ran));
            }
            WorkItem::Mark => send(rt, dones, theirs, DoneItem::Mark),
            WorkItem::End => {
                send(rt, dones, theirs, DoneItem::End);
                return;
            }
        }
    }
    unreachable!()
}
