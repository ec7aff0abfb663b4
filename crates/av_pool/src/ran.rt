ghost use Rattle.std.specs.Prelude.{◌≡◌};
ghost use Rattle.av_pool.specs.Run.{IsRun, done_of};

use av_desk::Lent;
use av_service::{Done, DoneParcel};
use std::marker::Model;

/// A work that was run, on its way back. Its type keeps that it is what the run of a lent work gives.
#[derive(Drop)]
pub struct Ran {
    done: DoneParcel,
}

impl Model for Ran {
    ghost use Rattle.av_pool.specs.Run.{IsRun};
    ghost use Rattle.av_service.specs.Work.{DoneState};

    ghost Value = { DoneState };

    ghost view = { λ r. r.done };

    ghost invariant = { λ r. IsRun r.done };
}

impl Ran {
    /// Runs a work.
    pub fn run(lent: Lent) -> Ran
        ensures { result ≡ done_of lent }
    {
        Ran {
            done: lent.run().pack(),
        }
    }

    /// The work as its run gave it.
    pub fn unpack(self) -> Done
        ensures same { result ≡ self }
        ensures run { IsRun result }
    {
        let Ran { done } = self;
        done.unpack()
    }
}
