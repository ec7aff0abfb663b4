ghost use Rattle.std.specs.Prelude.{◌≡◌, [], true, None, OnOk, OnErr, IfSome};
ghost use Rattle.av_turns.specs.Times.{Adds, Changes, Forgets, has, IsEmpty, IsNoneEarlier};

use std::alloc::{AllocError, Global};
use std::collections::BTreeSet;
use std::marker::Model;

/// Which number has which time, in the order of the times. A number has one time at most.
#[derive(Drop)]
pub struct Times {
    times: BTreeSet<(u64, u64)>,
}

impl Model for Times {
    ghost use Rattle.std.specs.Prelude.{ℕ, List};

    ghost Value = { List (ℕ × ℕ) };

    ghost view = { λ t. t.times.keys };
}

impl Times {
    /// None yet.
    pub fn new(alloc: Global) -> Times
        ensures { result ≡ [] }
    {
        Times {
            times: BTreeSet::new(alloc),
        }
    }

    /// The time of a number, which was this one, is that one now.
    pub fn change(
        &mut self,
        number: u64,
        old: Option<u64>,
        new: Option<u64>,
    ) -> Result<(), AllocError>
        ensures ok { OnOk result (Changes self.old self.new number old new) }
        ensures err { OnErr result (self.new ≡ self.old) }
    {
        self.add(number, new)?;
        if old != new {
            self.forget(number, old);
        }
        Ok(())
    }

    // A number has this time too.
    fn add(&mut self, number: u64, new: Option<u64>) -> Result<(), AllocError>
        ensures ok { OnOk result (Adds self.old self.new number new) }
        ensures err { OnErr result (self.new ≡ self.old) }
    {
        let Some(time) = new else {
            return Ok(());
        };
        match self.times.insert((time, number)) {
            Ok(_) => {}
            Err(_) => return Err(AllocError),
        }
        Ok(())
    }

    /// A number has its time no more.
    pub fn forget(&mut self, number: u64, old: Option<u64>)
        ensures { Forgets self.old self.new number old }
    {
        if let Some(time) = old {
            let _ = self.times.remove(&(time, number));
        }
    }

    /// The first time, and whose it is.
    pub fn first(&self) -> Option<(u64, u64)>
        ensures member { IfSome result (λ first. has first.0 first.1 self.now ≡ true) }
        ensures least { IfSome result (λ first. IsNoneEarlier self.now first.0) }
        ensures none { result ≡ None → IsEmpty self.now }
    {
        let Some(first) = self.times.first() else {
            return None;
        };
        Some(*first)
    }
}
