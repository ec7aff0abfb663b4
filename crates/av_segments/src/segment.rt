//! A stretch of a content, with what was found in it.
ghost use Rattle.std.specs.Prelude.{◌≡◌, ◌↔◌, ◌+◌, ◌<◌, ◌^◌, ◌++◌, ℕ, List, [], IfOk, false, length, true};
ghost use Rattle.av_files.specs.Findings.{NamedSet, findings_of};
ghost use Rattle.av_segments.specs.Seams.{IsSeam};
ghost use Rattle.av_segments.specs.Segments.{may_be_cut, placed_from, segment_of, verdicts_of};

use crate::across::{Seam, fed, joined, seam_at};
use crate::edge::Edge;
use av_base::Verdict;
use av_files::{Finding, Scanners};
use std::alloc::{AllocError, Global};
use std::marker::Model;

/// A stretch of a content, with what was found in it under several sets: its length, its first and last 63 bytes, and its verdict
/// under each set. The stretch itself is not kept. Contracts see what is.
#[derive(Drop)]
pub struct Segment {
    bytes: u64,
    head: Edge,
    tail: Edge,
    verdicts: Vec<Verdict>,
}

impl Model for Segment {
    ghost use Rattle.av_segments.specs.Segments.{Stretch};

    ghost Value = { Stretch };

    ghost view = { λ s. record { length = s.bytes; head = s.head; tail = s.tail; verdicts = s.verdicts.items } };
}

impl Segment {
    /// The stretch of no bytes.
    pub fn empty(alloc: Global, scanners: &Scanners) -> Result<Segment, AllocError>
        ensures { IfOk result (λ s. s ≡ segment_of scanners.now []) }
    {
        Ok(Segment {
            bytes: 0,
            head: Edge::empty(),
            tail: Edge::empty(),
            verdicts: verdicts_of_nothing(alloc, scanners)?,
        })
    }

    /// Takes the bytes that follow. Each set scans them once, unless it has a match before them. They are not copied, and no memory is
    /// taken. False if there would be 2^64 bytes or more; nothing is changed then.
    pub fn feed(&mut self, scanners: &Scanners, piece: &[u8]) -> bool
        ensures segment { (c : List ℕ) → may_be_cut scanners.now ≡ true → self.old ≡ segment_of scanners.now c → result ≡ true
            → self.new ≡ segment_of scanners.now (c ++ piece.now) }
        ensures room { (result ≡ true) ↔ (self.old.length + length piece.now < 2 ^ 64) }
        ensures refused { result ≡ false → self.new ≡ self.old }
    {
        let Some(bytes) = self.bytes.checked_add(piece.len() as u64) else {
            return false;
        };
        let seam = seam_at(self.bytes, &self.tail, piece);
        feed_each(scanners, &mut self.verdicts, &seam, piece);
        self.bytes = bytes;
        self.head.keep_first(piece);
        self.tail.keep_last(piece);
        true
    }

    /// Takes the stretch that follows, which was fed under the same sets. False if there would be 2^64 bytes or more; nothing is changed
    /// then.
    pub fn join(&mut self, scanners: &Scanners, next: &Segment) -> bool
        ensures segment { (c d : List ℕ) → may_be_cut scanners.now ≡ true → self.old ≡ segment_of scanners.now c → next.now ≡ segment_of scanners.now d
            → result ≡ true → self.new ≡ segment_of scanners.now (c ++ d) }
        ensures room { (result ≡ true) ↔ (self.old.length + next.now.length < 2 ^ 64) }
        ensures refused { result ≡ false → self.new ≡ self.old }
    {
        let Some(bytes) = self.bytes.checked_add(next.bytes) else {
            return false;
        };
        let seam = seam_at(self.bytes, &self.tail, next.head.as_slice());
        join_each(
            scanners,
            &mut self.verdicts,
            &seam,
            next.verdicts.as_slice(),
        );
        self.bytes = bytes;
        self.head.keep_first(next.head.as_slice());
        self.tail.keep_last(next.tail.as_slice());
        true
    }

    /// How many bytes it has.
    pub fn len(&self) -> u64
        ensures { result ≡ self.now.length }
    {
        let Segment { bytes, .. } = self;
        *bytes
    }

    /// What is found in it: its verdict under each set, with the set's place.
    pub fn findings(&self, alloc: Global) -> Result<Vec<Finding>, AllocError>
        ensures { IfOk result (λ found. (sets : List NamedSet) (c : List ℕ) → self.now ≡ segment_of sets c → found.items ≡ findings_of sets c) }
    {
        placed(alloc, self.verdicts.as_slice())
    }
}

// The verdict of no bytes under each set.
fn verdicts_of_nothing(alloc: Global, scanners: &Scanners) -> Result<Vec<Verdict>, AllocError>
    ensures { IfOk result (λ verdicts. verdicts.items ≡ verdicts_of scanners.now []) }
{
    let mut verdicts = Vec::with_capacity(alloc, scanners.len())?;
    'sets: while let Some(named) = scanners.get(verdicts.len()) {
        verdicts.push(named.scanner().judge(b""))?;
    }
    Ok(verdicts)
}

// Takes a piece into the verdict under each set.
fn feed_each(scanners: &Scanners, verdicts: &mut [Verdict], seam: &Seam, piece: &[u8])
    ensures { (c : List ℕ) → may_be_cut scanners.now ≡ true → IsSeam c piece.now seam.now → verdicts.old ≡ verdicts_of scanners.now c
        → verdicts.new ≡ verdicts_of scanners.now (c ++ piece.now) }
{
    'sets: for place in 0..verdicts.len() {
        if let Some(named) = scanners.get(place) {
            let before = verdicts[place];
            verdicts[place] = fed(named.scanner(), before, seam, piece);
        }
    }
}

// Takes the verdicts of a stretch that follows into the verdict under each set.
fn join_each(scanners: &Scanners, verdicts: &mut [Verdict], seam: &Seam, next: &[Verdict])
    ensures { (c d : List ℕ) → may_be_cut scanners.now ≡ true → IsSeam c d seam.now → verdicts.old ≡ verdicts_of scanners.now c
        → next.now ≡ verdicts_of scanners.now d → verdicts.new ≡ verdicts_of scanners.now (c ++ d) }
{
    'sets: for place in 0..verdicts.len() {
        if let Some(named) = scanners.get(place) {
            if let Some(after) = next.get(place) {
                let before = verdicts[place];
                verdicts[place] = joined(named.scanner(), before, seam, *after);
            }
        }
    }
}

// Each verdict, with its place.
fn placed(alloc: Global, verdicts: &[Verdict]) -> Result<Vec<Finding>, AllocError>
    ensures { IfOk result (λ found. found.items ≡ placed_from 0 verdicts.now) }
{
    let mut found = Vec::with_capacity(alloc, verdicts.len())?;
    'verdicts: for place in 0..verdicts.len() {
        found.push(Finding {
            set: place,
            verdict: verdicts[place],
        })?;
    }
    Ok(found)
}
