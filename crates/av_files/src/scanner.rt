ghost use Rattle.std.specs.Prelude.{◌≡◌, ◌≤◌, ◌+◌, ◌++◌, [], ℕ, List, length, IfErr, IfOk, OnOk, Some};
ghost use Rattle.std.specs.Option.{option_copied};
ghost use Rattle.av_match.specs.Match.{verdict};
ghost use Rattle.av_match.specs.Scanning.{IsScan};
ghost use Rattle.av_sigset.specs.Set.{patterns_of};
ghost use Rattle.av_files.specs.Findings.{compiled_of};
ghost use Rattle.av_files.specs.Scan.{HasVerdict, IsAdmitted, SpellsSet};
ghost use Rattle.av_status.specs.Status.{IsFault};
ghost use Rattle.av_status.specs.declared.status.Status.TheVariants.{Refused};

use av_base::{Refusal, Verdict};
use av_match::{Automaton, Scan};
use av_sigset::SignatureSet;
use av_status::faults::{EmptySets, bad_set, empty_set, out_of_memory, too_large, unreadable};
use av_status::status::Status;
use std::alloc::Global;
use std::io::Write;
use std::marker::Model;

/// The most bytes of a signature file, and of a file that is scanned where nothing else is asked for.
pub const MAX_FILE: usize = 1_048_576;

/// How long the buffer is that such a file is read into. One byte more shows that a file is too long; and since only a read behind
/// the last byte finds the end, there is room for one byte behind that.
pub const FILE_BUFFER: usize = MAX_FILE + 2;

/// A file: the name under which it was asked for, and its content, where it could be read.
#[derive(Clone, Copy)]
pub struct Input<'a> {
    pub name: &'a str,
    pub content: Option<&'a [u8]>,
}

impl<'a> Input<'a> {
    /// The content, where it was read. Where it was not, a line to `err` says so.
    pub fn readable<E: Write>(self, err: &mut E) -> Result<&'a [u8], Status>
        ensures content { IfOk result (λ content. option_copied self.entry.content ≡ Some content.now) }
        ensures status { IfErr result (λ status. IsFault status) }
    {
        match self.content {
            Some(content) => Ok(content),
            None => Err(unreadable(err, self.name)),
        }
    }
}

/// The set that a signature file spells. Where there is none, one line to `err` says why.
pub fn read_set<E: Write>(
    alloc: Global,
    file: Input<'_>,
    err: &mut E,
) -> Result<SignatureSet, Status>
    ensures set { IfOk result (SpellsSet (option_copied file.entry.content)) }
    ensures status { IfErr result (λ status. IsFault status) }
{
    let content = fitting(file, err)?;
    match SignatureSet::read(alloc, content) {
        Ok(set) => Ok(set),
        Err(Refusal::Fault(fault)) => Err(bad_set(err, fault)),
        Err(Refusal::NoMemory) => Err(out_of_memory(err)),
    }
}

/// Takes the set of a signature file, unless it has no signatures and such are refused. A line to `err` tells of an empty one in any
/// case.
pub fn admit_set<E: Write>(
    set: &SignatureSet,
    name: &str,
    empty_sets: EmptySets,
    err: &mut E,
) -> Result<(), Status>
    ensures admitted { OnOk result (IsAdmitted empty_sets set.now) }
    ensures status { IfErr result (λ status. status ≡ Refused) }
{
    if set.len() > 0 {
        return Ok(());
    }
    let refused = empty_set(err, name, set.version().get());
    match empty_sets {
        EmptySets::Refused => Err(refused),
        EmptySets::Allowed => Ok(()),
    }
}

/// A signature set with its automaton: what files are scanned by. Contracts see the set.
#[derive(Drop)]
pub struct Scanner {
    set: SignatureSet,
    automaton: Automaton,
}

impl Model for Scanner {
    ghost use Rattle.std.specs.Prelude.{◌≡◌};
    ghost use Rattle.av_sigset.specs.Set.{NumberedSet, patterns_of};

    ghost Value = { NumberedSet };

    ghost view = { λ s. s.set };

    ghost invariant = { λ s. s.automaton ≡ record { version = s.set.version; patterns = patterns_of s.set.signatures } };
}

impl Scanner {
    /// The scanner of a signature file's set. Where there is none, one line to `err` says why.
    pub fn read<E: Write>(alloc: Global, file: Input<'_>, err: &mut E) -> Result<Scanner, Status>
        ensures set { IfOk result (SpellsSet (option_copied file.entry.content)) }
        ensures status { IfErr result (λ status. IsFault status) }
    {
        let set = read_set(alloc, file, err)?;
        Scanner::of(alloc, set, err)
    }

    /// The scanner of a set. Where there is no memory for it, one line to `err` says so.
    pub fn of<E: Write>(alloc: Global, set: SignatureSet, err: &mut E) -> Result<Scanner, Status>
        ensures set { IfOk result (λ scanner. scanner ≡ set) }
        ensures status { IfErr result (λ status. IsFault status) }
    {
        match Automaton::build(alloc, &set) {
            Ok(automaton) => Ok(Scanner { set, automaton }),
            Err(_) => Err(out_of_memory(err)),
        }
    }

    /// The verdict of a file's content, in one pass. Where there is none, one line to `err` says why.
    pub fn scan<E: Write>(&self, file: Input<'_>, err: &mut E) -> Result<Verdict, Status>
        ensures verdict { IfOk result (HasVerdict self.now (option_copied file.entry.content)) }
        ensures status { IfErr result (λ status. IsFault status) }
    {
        let content = fitting(file, err)?;
        Ok(self.judge(content))
    }

    /// The verdict of a content that is in memory, of any length.
    pub fn judge(&self, content: &[u8]) -> Verdict
        ensures { result ≡ verdict (patterns_of self.now.signatures) content.now }
    {
        judge(&self.set, &self.automaton, content)
    }

    // A scan of a content of so many bytes, of which none has come.
    pub(crate) fn start(&self, most: u64) -> Scan
        ensures { IsScan (compiled_of self.now) most [] result }
    {
        Scan::start(self.set.version(), most)
    }

    // A scan of a content, with a piece more.
    pub(crate) fn fed(&self, scan: Scan, piece: &[u8]) -> Scan
        ensures { (bytes : ℕ) (c : List ℕ) → IsScan (compiled_of self.now) bytes c scan → length c + length piece.now ≤ bytes
            → IsScan (compiled_of self.now) bytes (c ++ piece.now) result }
    {
        let mut scan = scan;
        let _ = scan.feed(&self.automaton, piece);
        scan
    }

    // The verdict of a content that was scanned.
    pub(crate) fn end(&self, scan: Scan) -> Verdict
        ensures { (bytes : ℕ) (c : List ℕ) → IsScan (compiled_of self.now) bytes c scan → result ≡ verdict (patterns_of self.now.signatures) c }
    {
        // Read for the prover: the patterns of a set have their lengths.
        let _version = self.set.version();
        scan.end()
    }

    /// The set.
    pub fn set(&self) -> &SignatureSet
        ensures { result.now ≡ self.now }
    {
        &self.set
    }
}

// The content of a file, where it was read and is not too large.
fn fitting<'a, E: Write>(file: Input<'a>, err: &mut E) -> Result<&'a [u8], Status>
    ensures content { IfOk result (λ content. option_copied file.entry.content ≡ Some content.now) }
    ensures status { IfErr result (λ status. IsFault status) }
{
    let content = file.readable(err)?;
    if content.len() > MAX_FILE {
        return Err(too_large(err, file.name));
    }
    Ok(content)
}

// The verdict of a content, in one pass.
fn judge(set: &SignatureSet, automaton: &Automaton, content: &[u8]) -> Verdict
    requires { automaton.now ≡ record { version = set.now.version; patterns = patterns_of set.now.signatures } }
    ensures { result ≡ verdict (patterns_of set.now.signatures) content.now }
{
    let mut scan = Scan::start(set.version(), content.len() as u64);
    let _ = scan.feed(automaton, content);
    scan.end()
}
