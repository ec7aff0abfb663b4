ghost use Rattle.std.specs.Prelude.{◌≡◌, [], None, Some, IfSome, OnErr, OnOk};
ghost use Rattle.av_turns.specs.Waits.{Ends, IsDue, IsWaitedFor, Lates, Sets, since_of};

use crate::times::Times;
use std::alloc::{AllocError, Global};
use std::collections::BTreeMap;
use std::marker::Model;

/// Which numbers are waited for, and since when, in milliseconds.
#[derive(Drop)]
pub struct Waits {
    since: BTreeMap<u64, u64>,
    times: Times,
}

impl Model for Waits {
    ghost use Rattle.std.specs.Prelude.{ℕ, List};
    ghost use Rattle.av_turns.specs.Waits.{AreTimed};

    ghost Value = { List (ℕ × ℕ) };

    ghost view = { λ w. w.since.entries };

    ghost invariant = { λ w. AreTimed w.since.entries w.times };
}

impl Waits {
    /// Nothing is waited for.
    pub fn new(alloc: Global) -> Waits
        ensures { result ≡ [] }
    {
        Waits {
            since: BTreeMap::new(alloc),
            times: Times::new(alloc),
        }
    }

    /// Since when a number is waited for.
    pub fn since(&self, number: u64) -> Option<u64>
        ensures { result ≡ since_of self.now number }
    {
        let since = self.since.get(&number)?;
        Some(*since)
    }

    /// A number is waited for since now, also where it was before.
    pub fn begin(&mut self, number: u64, now: u64) -> Result<(), AllocError>
        ensures ok { OnOk result (Sets self.old self.new number (Some now)) }
        ensures err { OnErr result (self.new ≡ self.old) }
    {
        match self.since.get(&number).copied() {
            Some(since) => self.begin_again(number, since, now),
            None => self.begin_first(number, now),
        }
    }

    // A number that is waited for already is waited for since now.
    fn begin_again(&mut self, number: u64, since: u64, now: u64) -> Result<(), AllocError>
        requires { since_of self.old number ≡ Some since }
        ensures ok { OnOk result (Sets self.old self.new number (Some now)) }
        ensures err { OnErr result (self.new ≡ self.old) }
    {
        self.times.change(number, Some(since), Some(now))?;
        set(&mut self.since, number, now);
        Ok(())
    }

    // A number that is not waited for is from now on.
    fn begin_first(&mut self, number: u64, now: u64) -> Result<(), AllocError>
        requires { since_of self.old number ≡ None }
        ensures ok { OnOk result (Sets self.old self.new number (Some now)) }
        ensures err { OnErr result (self.new ≡ self.old) }
    {
        self.times.change(number, None, Some(now))?;
        match self.since.insert(number, now) {
            Ok(_) => Ok(()),
            Err(_) => {
                self.times.forget(number, Some(now));
                Err(AllocError)
            }
        }
    }

    /// A number is waited for no more.
    pub fn end(&mut self, number: u64)
        ensures { Ends self.old self.new number }
    {
        let Some(since) = self.since.get(&number).copied() else {
            return;
        };
        let _ = self.since.remove(&number);
        self.times.forget(number, Some(since));
    }

    /// The number that is waited for longest, where that is for so long. It is waited for no more.
    pub fn late(&mut self, wait: u64, now: u64) -> Option<u64>
        ensures { Lates self.old self.new wait now result }
    {
        let Some((since, number)) = self.times.first() else {
            return None;
        };
        if now < since.saturating_add(wait) {
            return None;
        }
        self.end(number);
        Some(number)
    }

    /// When `late` gives a number, where nothing happens before.
    pub fn due(&self, wait: u64) -> Option<u64>
        ensures { IsDue self.now wait result }
    {
        match self.times.first() {
            Some((since, _)) => Some(since.saturating_add(wait)),
            None => None,
        }
    }
}

// The value at a key that is there.
fn set(since: &mut BTreeMap<u64, u64>, number: u64, now: u64)
    requires { IsWaitedFor since.old.entries number }
    ensures { Sets since.old.entries since.new.entries number (Some now) }
{
    if let Some(slot) = since.get_mut(&number) {
        *slot = now;
    }
}
