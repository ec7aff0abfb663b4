ghost use Rattle.std.specs.Prelude.{◌≡◌, ◌+◌, ◌++◌, ◌∷◌, [], IfSome, MatchOption};
ghost use Rattle.av_pool.specs.Run.{IsRun};

use crate::item::{DoneItem, DonePass, DoneReceiver};
use crate::worker::receive;
use av_service::Done;
use std::marker::Model;
use std::sync::Wait;

/// The end of a pool at which works come out that were run. A thread may own it; it has to come back for `Pool::stop`.
#[derive(Drop)]
pub struct Taker {
    pub(crate) dones: DoneReceiver,
    pub(crate) pass: DonePass,
}

impl Model for Taker {
    ghost use Rattle.std.specs.Prelude.{◌≡◌, []};
    ghost use Rattle.crossbeam_channel.specs.Claims.{IsSeatAt};
    ghost use Rattle.crossbeam_channel.specs.Ends.{receives_on};
    ghost use Rattle.av_pool.specs.Channel.{tally_of};
    ghost use Rattle.av_pool.specs.Pool.{TakerState, taker_state};

    ghost Value = { TakerState };

    ghost view = { λ t. taker_state t.pass };

    ghost invariant = { λ t. IsSeatAt (receives_on t.dones) t.pass × ((tally_of t.pass).parts ≡ 1)
        × ((tally_of t.pass).put ≡ []) };
}

impl Taker {
    /// Waits for a work that was run. None where a mark came. Takes no memory.
    pub fn take<R: Wait>(&mut self, rt: &R) -> Option<Done>
        ensures taken { MatchOption result (self.new ≡ record self.old { marks = self.old.marks + 1 })
            (λ d. self.new ≡ record self.old { taken = self.old.taken ++ d ∷ [] }) }
        ensures run { IfSome result IsRun }
    {
        match receive(rt, &self.dones, &mut self.pass) {
            DoneItem::Parcel(ran) => Some(ran.unpack()),
            DoneItem::Mark => None,
            DoneItem::End => None,
        }
    }
}
