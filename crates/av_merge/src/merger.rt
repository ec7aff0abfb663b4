ghost use Rattle.std.specs.Prelude.{◌≡◌, ◌≤◌, max, slice_get, unwrap_or, OnOk};
ghost use Rattle.av_base.specs.Answers.{Steps};
ghost use Rattle.av_base.specs.Device.{Writes};
ghost use Rattle.av_sigset.specs.Set.{byte_count, patterns_of};
ghost use Rattle.av_sigset.specs.Spelling.{ReadsBack, spelling};
ghost use Rattle.av_merge.specs.Merge.{MergesOn, clash_from, fault_of, limit_of, merged_with, no_sets};

use crate::compare::{Amount, amount_added, clash_in, copies_added};
use crate::fault::MergeFault;
use av_base::{Refusal, Version, WriteFault};
use av_sigset::set::{MAX_BYTES, MAX_SIGNATURES};
use av_sigset::{Signature, SignatureSet, write_signatures};
use std::alloc::Global;
use std::io::Write;
use std::marker::Model;

/// Signature sets that are merged, one after the other: 1,024 signatures at most, with 16,384 bytes in all.
#[derive(Drop)]
pub struct Merger {
    signatures: Vec<Signature>,
    origins: Vec<usize>,
    bytes: usize,
    version: Version,
}

impl Model for Merger {
    ghost use Rattle.std.specs.Prelude.{◌≡◌};
    ghost use Rattle.av_sigset.specs.Set.{AreInRange, byte_count, patterns_of};
    ghost use Rattle.av_merge.specs.Merge.{Merged};

    ghost Value = { Merged };

    ghost view = { λ m. record { signatures = m.signatures.items; origins = m.origins.items; version = m.version } };

    ghost invariant = { λ m. AreInRange (patterns_of m.signatures.items) × (m.bytes ≡ byte_count (patterns_of m.signatures.items)) };
}

impl Merger {
    /// No sets yet.
    pub fn new(alloc: Global) -> Merger
        ensures { result ≡ no_sets }
    {
        Merger {
            signatures: Vec::new(alloc),
            origins: Vec::new(alloc),
            bytes: 0,
            version: Version::new(0),
        }
    }

    /// The greatest version of the sets, or 0 before the first.
    pub fn version(&self) -> Version
        ensures { result ≡ self.now.version }
    {
        self.version
    }

    /// Adds the signatures of a set, except those that are there already with name and pattern. Faults of later sets name this
    /// one by its number. Each signature of the set is compared with all before it, at most 1,024, a few times.
    pub fn add(
        &mut self,
        alloc: Global,
        number: usize,
        set: &SignatureSet,
    ) -> Result<(), Refusal<MergeFault>>
        ensures steps { Steps self.old self.new result (merged_with self.old number set.now) }
        ensures merges { OnOk result (MergesOn self.old self.new number set.now) }
    {
        let given = set.signatures();
        if let Some(fault) = self.fault(given) {
            return Err(Refusal::Fault(fault));
        }
        let amount = amount_added(self.signatures.as_slice(), given);
        let mut more = copies_added(alloc, self.signatures.as_slice(), given)?;
        let mut numbers = vec![in alloc; number; amount.count]?;
        self.signatures.reserve(amount.count)?;
        self.origins.reserve(amount.count)?;
        self.signatures.append(&mut more).unwrap();
        self.origins.append(&mut numbers).unwrap();
        self.bytes += amount.bytes;
        self.version = greater(self.version, set.version());
        Ok(())
    }

    /// Writes the signature file of the merge, under a version from 1 on. If a write fails, a front of the file was written.
    pub fn write<W: Write>(&self, version: Version, writer: &mut W) -> Result<(), WriteFault>
        ensures writes { Writes result (W.contents writer.old) (W.contents writer.new)
            (spelling (record { version = version; signatures = self.now.signatures })) }
        ensures reads_back { OnOk result (ReadsBack (record { version = version; signatures = self.now.signatures })) }
    {
        write_signatures(version, self.signatures.as_slice(), writer)
    }

    // Why these signatures of a set can't be added.
    fn fault(&self, given: &[Signature]) -> Option<MergeFault>
        requires { byte_count (patterns_of given.now) ≤ MAX_BYTES }
        ensures { result ≡ fault_of self.now given.now }
    {
        if let Some(fault) = self.clash(given) {
            return Some(fault);
        }
        self.limit(amount_added(self.signatures.as_slice(), given))
    }

    // The first of these signatures that clashes with one that came before.
    #[tactic(auto, unfolding(crate::specs::Merge::clash_from))]
    fn clash(&self, given: &[Signature]) -> Option<MergeFault>
        ensures { result ≡ clash_from self.now 0 given.now }
    {
        for index in 0..given.len() {
            if let Some(place) = clash_in(self.signatures.as_slice(), &given[index]) {
                let earlier = self.origin(place);
                return Some(MergeFault::Clash { index, earlier });
            }
        }
        None
    }

    // The number of the set that the signature at a place came with.
    fn origin(&self, place: usize) -> usize
        ensures { result ≡ unwrap_or (slice_get self.now.origins place) 0 }
    {
        match self.origins.as_slice().get(place) {
            Some(number) => *number,
            None => 0,
        }
    }

    // The limit that so many more signatures pass.
    fn limit(&self, amount: Amount) -> Option<MergeFault>
        ensures { result ≡ limit_of self.now.signatures amount.count amount.bytes }
    {
        if amount.count > MAX_SIGNATURES - self.signatures.len() {
            return Some(MergeFault::ManySignatures);
        }
        if amount.bytes > MAX_BYTES - self.bytes {
            return Some(MergeFault::ManyBytes);
        }
        None
    }
}

fn greater(version: Version, other: Version) -> Version
    ensures { result ≡ max version other }
{
    if version.get() < other.get() {
        other
    } else {
        version
    }
}
