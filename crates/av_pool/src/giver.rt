ghost use Rattle.std.specs.Prelude.{◌≡◌, ◌+◌, ◌++◌, ◌∷◌, []};

use crate::item::{WorkItem, WorkPass, WorkSender};
use crate::worker::send;
use av_desk::Lent;
use std::marker::Model;
use std::sync::Wait;

/// The end of a pool into which works go. A thread may own it; it has to come back for `Pool::stop`.
#[derive(Drop)]
pub struct Giver {
    pub(crate) works: WorkSender,
    pub(crate) pass: WorkPass,
}

impl Model for Giver {
    ghost use Rattle.std.specs.List.{AllByRecursion};
    ghost use Rattle.std.specs.Prelude.{◌≡◌, []};
    ghost use Rattle.av_desk.specs.Lent.{FitsItsWork};
    ghost use Rattle.crossbeam_channel.specs.Claims.{IsSeatAt};
    ghost use Rattle.crossbeam_channel.specs.Ends.{sends_on};
    ghost use Rattle.av_pool.specs.Channel.{tally_of};
    ghost use Rattle.av_pool.specs.Pool.{GiverState, giver_state};

    ghost Value = { GiverState };

    ghost view = { λ g. giver_state g.pass };

    ghost invariant = { λ g. IsSeatAt (sends_on g.works) g.pass × ((tally_of g.pass).parts ≡ 1)
        × ((tally_of g.pass).taken ≡ [])
        × AllByRecursion FitsItsWork (giver_state g.pass).given };
}

impl Giver {
    /// Hands a work to the pool. Waits while 512 items wait for a worker. Takes no memory.
    pub fn give<R: Wait>(&mut self, rt: &R, lent: Lent)
        ensures { self.new ≡ record self.old { given = self.old.given ++ lent ∷ [] } }
    {
        send(
            rt,
            &self.works,
            &mut self.pass,
            WorkItem::Parcel(lent.pack()),
        );
    }

    /// Sends a mark, which a worker hands on: `Taker::take` answers None where it comes out. It may come out before works
    /// that were given earlier, while other workers run them.
    pub fn wake<R: Wait>(&mut self, rt: &R)
        ensures { self.new ≡ record self.old { marks = self.old.marks + 1 } }
    {
        send(rt, &self.works, &mut self.pass, WorkItem::Mark);
    }
}
