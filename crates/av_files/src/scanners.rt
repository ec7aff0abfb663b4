//! Several signature sets, under which a file is scanned in one pass.

ghost use Rattle.std.specs.Prelude.{◌≡◌, ◌<◌, ◌≤◌, ◌+◌, ◌++◌, ◌∷◌, [], ℕ, List, length, slice_get, string_bytes, IfOk, IfSome, IsErrOf, MatchResult};
ghost use Rattle.std.specs.Option.{option_copied};
ghost use Rattle.av_match.specs.Scanning.{IsScan};
ghost use Rattle.av_files.specs.Findings.{AreFed, AreFoundIn, AreScans, compiled_of, findings_of};

use crate::finding::Finding;
use crate::scanner::Scanner;
use av_base::ReadFault;
use av_match::Scan;
use std::alloc::{AllocError, Global};
use std::io::Read;
use std::marker::Model;

/// A set with its scanner, and the name of its file. Contracts see the set and the name.
#[derive(Drop)]
pub struct NamedScanner {
    name: String,
    scanner: Scanner,
}

impl Model for NamedScanner {
    ghost use Rattle.std.specs.Prelude.{string_bytes};
    ghost use Rattle.av_files.specs.Findings.{NamedSet};

    ghost Value = { NamedSet };

    ghost view = { λ n. record { name = string_bytes n.name; set = n.scanner } };
}

impl NamedScanner {
    /// The scanner of the set in the file of this name.
    pub fn new(name: String, scanner: Scanner) -> NamedScanner
        ensures name { result.name ≡ string_bytes name }
        ensures set { result.set ≡ scanner }
    {
        NamedScanner { name, scanner }
    }

    /// The name of the set's file.
    pub fn name(&self) -> &str
        ensures { result.now ≡ self.now.name }
    {
        self.name.as_str()
    }

    /// The scanner of the set.
    pub fn scanner(&self) -> &Scanner
        ensures { result.now ≡ self.now.set }
    {
        &self.scanner
    }
}

/// The sets under which files are scanned, in their order: one at least. Contracts see the list.
#[derive(Drop)]
pub struct Scanners {
    list: Vec<NamedScanner>,
}

impl Model for Scanners {
    ghost use Rattle.std.specs.Prelude.{◌<◌, List, length};
    ghost use Rattle.av_files.specs.Findings.{NamedSet};

    ghost Value = { List NamedSet };

    ghost view = { λ s. s.list.items };

    ghost invariant = { λ s. 0 < length s.list.items };
}

impl Scanners {
    /// One set.
    pub fn of(alloc: Global, first: NamedScanner) -> Result<Scanners, AllocError>
        ensures { IfOk result (λ all. all ≡ first ∷ []) }
    {
        let mut list = Vec::new(alloc);
        list.push(first)?;
        Ok(Scanners { list })
    }

    /// One set more, behind the others.
    pub fn add(&mut self, next: NamedScanner) -> Result<(), AllocError>
        ensures { MatchResult result (λ _. self.new ≡ self.old ++ next ∷ []) (λ _. self.new ≡ self.old) }
    {
        self.list.push(next)?;
        Ok(())
    }

    /// The set at a place.
    pub fn get(&self, place: usize) -> Option<&NamedScanner>
        ensures { option_copied result ≡ slice_get self.now place }
    {
        set_at(self.list.as_slice(), place)
    }

    /// How many sets there are.
    pub fn len(&self) -> usize
        ensures { result ≡ length self.now }
    {
        self.list.len()
    }

    /// What is found under each set in the bytes that a reader gives until it is at its end, at most `most` of them. They go through
    /// the buffer a piece at a time, and each piece is read once.
    pub fn scan_pieces<R: Read>(
        &self,
        alloc: Global,
        reader: &mut R,
        buffer: &mut [u8],
        most: u64,
    ) -> Result<Vec<Finding>, ReadFault>
        requires { 0 < length buffer.old }
        ensures findings { IfOk result (λ found. AreFoundIn (R.remaining reader.old) self.now most found.items) }
        ensures long { IsErrOf result ReadFault.TooLong → IfSome (R.remaining reader.old) (λ content. most < length content) }
        ensures buffer { length buffer.new ≡ length buffer.old }
    {
        let mut scans = started(alloc, self.list.as_slice(), most)?;
        pieces_fed(self.list.as_slice(), &mut scans, reader, buffer, most)?;
        Ok(ended(alloc, self.list.as_slice(), scans.as_slice())?)
    }
}

// The set at a place.
fn set_at(scanners: &[NamedScanner], place: usize) -> Option<&NamedScanner>
    ensures { option_copied result ≡ slice_get scanners.now place }
{
    scanners.get(place)
}

// A scan under each set of a content of so many bytes, of which none has come.
fn started(alloc: Global, scanners: &[NamedScanner], most: u64) -> Result<Vec<Scan>, AllocError>
    ensures { IfOk result (λ scans. AreScans scanners.now most [] scans.items) }
{
    let mut scans = Vec::with_capacity(alloc, scanners.len())?;
    let mut rest = scanners;
    'scanners: while let Some((named, after)) = rest.split_first() {
        scans.push(named.scanner.start(most))?;
        rest = after;
    }
    Ok(scans)
}

// Feeds each scan with the bytes that a reader gives until it is at its end. No fault is NoMemory.
fn pieces_fed<R: Read>(
    scanners: &[NamedScanner],
    scans: &mut [Scan],
    reader: &mut R,
    buffer: &mut [u8],
    most: u64,
) -> Result<(), ReadFault>
    requires room { 0 < length buffer.old }
    requires begun { AreScans scanners.now most [] scans.old }
    ensures fed { IfOk result (λ _. AreFed (R.remaining reader.old) scanners.now most scans.new) }
    ensures long { IsErrOf result ReadFault.TooLong → IfSome (R.remaining reader.old) (λ content. most < length content) }
    ensures buffer { length buffer.new ≡ length buffer.old }
{
    let mut left = most;
    'pieces: for _ in 0..u64::MAX {
        let Ok(count) = reader.read(buffer) else {
            return Err(ReadFault::Device);
        };
        if count == 0 {
            return Ok(());
        }
        if count as u64 > left {
            return Err(ReadFault::TooLong);
        }
        left -= count as u64;
        feed_each(scanners, scans, &buffer[..count]);
    }
    Err(ReadFault::Device)
}

// Feeds each scan with a piece.
fn feed_each(scanners: &[NamedScanner], scans: &mut [Scan], piece: &[u8])
    ensures { (bytes : ℕ) (c : List ℕ) → AreScans scanners.now bytes c scans.old → length c + length piece.now ≤ bytes
        → AreScans scanners.now bytes (c ++ piece.now) scans.new }
{
    'scans: for i in 0..scans.len() {
        if let Some(named) = set_at(scanners, i) {
            scans[i] = named.scanner.fed(scans[i], piece);
        }
    }
}

// What each scan has found.
fn ended(
    alloc: Global,
    scanners: &[NamedScanner],
    scans: &[Scan],
) -> Result<Vec<Finding>, AllocError>
    ensures { IfOk result (λ found. (bytes : ℕ) (c : List ℕ) → AreScans scanners.now bytes c scans.now → found.items ≡ findings_of scanners.now c) }
{
    let mut found = Vec::with_capacity(alloc, scans.len())?;
    let mut rest = scanners;
    let mut left = scans;
    'scans: while let Some((scan, below)) = left.split_first() {
        let Some((named, after)) = rest.split_first() else {
            return Ok(found);
        };
        found.push(Finding {
            set: found.len(),
            verdict: named.scanner.end(*scan),
        })?;
        rest = after;
        left = below;
    }
    Ok(found)
}
