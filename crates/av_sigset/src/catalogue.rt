ghost use Rattle.std.specs.Prelude.{◌≡◌, ◌≤◌, ◌<◌, ◌+◌, [], length, OnOk, MatchOption, reverse, Ok, Err};
ghost use Rattle.std.specs.List.{AllByRecursion};
ghost use Rattle.std.specs.Option.{option_copied};
ghost use Rattle.av_base.specs.Answers.{Reads};
ghost use Rattle.av_sigset.specs.Catalogue.{Publishes, IsFalling, IsRising, IsPlaceOf, may_publish, newest, set_at};
ghost use Rattle.av_sigset.specs.Set.{IsSet};

use crate::fault::CatalogueFault;
use crate::set::SignatureSet;
use av_base::{Refusal, Refused, Version};
use std::alloc::Global;
use std::marker::Model;

/// The most sets of a catalogue.
pub const MAX_SETS: usize = 4_096;

/// The sets that were published, each under a version above those before it; 4,096 of them at most.
#[derive(Debug, Drop)]
pub struct Catalogue {
    // The oldest first.
    sets: Vec<SignatureSet>,
}

impl Model for Catalogue {
    ghost use Rattle.std.specs.Prelude.{◌-◌, reverse};
    ghost use Rattle.std.specs.Vec.{vec_capacity};
    ghost use Rattle.std.specs.Prelude.{vec_len};
    ghost use Rattle.av_sigset.specs.Catalogue.{Published, IsKept};

    ghost Value = { Published };

    ghost view = { λ c. record { sets = reverse c.sets.items; room = vec_capacity c.sets - vec_len c.sets } };

    ghost invariant = { λ c. IsKept c.sets.items };
}

impl Catalogue {
    /// A catalogue of no set. Takes no memory.
    pub fn new(alloc: Global) -> Catalogue
        ensures { result.sets ≡ [] }
    {
        Catalogue {
            sets: Vec::new(alloc),
        }
    }

    /// Whether a set of this version may be published; if so there is memory for it then, and `publish` succeeds.
    pub fn room(&mut self, version: Version) -> Result<(), Refusal<CatalogueFault>>
        ensures answer { Reads result (may_publish self.old.sets version) }
        ensures reserved { OnOk result (1 ≤ self.new.room) }
        ensures sets { self.new.sets ≡ self.old.sets }
        ensures room { self.old.room ≤ self.new.room }
    {
        if let Some(fault) = refusal_of(self.sets.as_slice(), version) {
            return Err(Refusal::Fault(fault));
        }
        self.sets.reserve(1)?;
        Ok(())
    }

    /// Why a set of this version can't be published, where it can't: OldVersion, CatalogueFull. It takes no memory.
    pub fn refusal(&self, version: Version) -> Option<CatalogueFault>
        ensures { MatchOption result (may_publish self.now.sets version ≡ Ok tt)
            (λ fault. may_publish self.now.sets version ≡ Err fault) }
    {
        refusal_of(self.sets.as_slice(), version)
    }

    /// Publishes a set. A refusal hands it back. Where `room` has answered Ok for its version it succeeds.
    pub fn publish(
        &mut self,
        set: SignatureSet,
    ) -> Result<(), Refused<SignatureSet, CatalogueFault>>
        ensures { Publishes self.old self.new set result }
    {
        if let Some(fault) = refusal_of(self.sets.as_slice(), set.version()) {
            return Err(Refused {
                value: set,
                why: Refusal::Fault(fault),
            });
        }
        if self.sets.reserve(1).is_err() {
            return Err(Refused {
                value: set,
                why: Refusal::NoMemory,
            });
        }
        self.sets.push(set).unwrap();
        Ok(())
    }

    /// The version of the set that was published last.
    pub fn latest(&self) -> Option<Version>
        ensures latest { result ≡ newest self.now.sets }
        ensures falling { IsFalling self.now.sets }
        ensures each { AllByRecursion IsSet self.now.sets }
    {
        self.sets.as_slice().last().map(|set| set.version())
    }

    /// The set of this version. Costs the logarithm of the count of sets.
    pub fn at(&self, version: Version) -> Option<&SignatureSet>
        ensures set { option_copied result ≡ set_at self.now.sets version }
        ensures falling { IsFalling self.now.sets }
    {
        match place_of(self.sets.as_slice(), version.get()) {
            Some(place) => Some(&self.sets[place]),
            None => None,
        }
    }

    /// How many sets were published.
    pub fn len(&self) -> usize
        ensures len { result ≡ length self.now.sets }
        ensures most { result ≤ MAX_SETS }
        ensures falling { IsFalling self.now.sets }
    {
        self.sets.len()
    }
}

// Why a set of this version can't stand behind these.
fn refusal_of(sets: &[SignatureSet], version: Version) -> Option<CatalogueFault>
    ensures { MatchOption result (may_publish (reverse sets.now) version ≡ Ok tt)
        (λ fault. may_publish (reverse sets.now) version ≡ Err fault) }
{
    let latest = match sets.last() {
        Some(set) => set.version().get(),
        None => 0,
    };
    if version.get() <= latest {
        return Some(CatalogueFault::OldVersion);
    }
    if sets.len() >= MAX_SETS {
        return Some(CatalogueFault::CatalogueFull);
    }
    None
}

// Where the set of this version stands among sets whose versions rise.
fn place_of(sets: &[SignatureSet], version: u64) -> Option<usize>
    requires { IsRising sets.now }
    ensures { IsPlaceOf sets.now version result }
{
    let mut low = 0usize;
    let mut high = sets.len();
    'halves: while low < high {
        let middle = low + (high - low) / 2;
        let found = sets[middle].version().get();
        if found == version {
            return Some(middle);
        }
        if found < version {
            low = middle + 1;
        } else {
            high = middle;
        }
    }
    None
}
