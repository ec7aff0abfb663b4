ghost use Rattle.std.specs.Prelude.{◌≡◌, IfSome, None};
ghost use Rattle.std.specs.Option.{option_copied};
ghost use Rattle.av_sets.specs.Sets.{IsTrusted, SpellsBy};
ghost use Rattle.av_sockets.specs.Looks.{first};

use crate::duplex::Duplex;
use crate::looks::{Look, Looks, looked_at};
use av_base::device::read_into;
use av_base::{Part, Refusal, Version};
use av_engines::Fresh;
use av_files::{FILE_BUFFER, Input, MAX_FILE, TURNS, admit_set};
use av_sets::read_trusted;
use av_sigset::{CatalogueFault, SignatureSet};
use av_status::faults::{EmptySets, bad_frame, out_of_memory, say, say_of, text};
use av_trust::Trust;
use std::alloc::Global;
use std::fs;
use std::fs::Files;
use std::io::{Read, Write};
use std::time::{Clock, Duration};

/// A signature file that is looked at for newer sets.
#[derive(Clone, Copy)]
pub struct Watched<'a> {
    pub path: &'a str,
    /// The time between two looks.
    pub every: Duration,
    /// What a look saw where the set that is published first was read.
    pub seen: Option<Look>,
    /// Which files are taken.
    pub trust: Trust<'a>,
    /// What becomes of a set without a signature, by which nothing is found.
    pub empty: EmptySets,
}

/// Takes newer sets from a signature file while a service runs, and says on standard error what became of each.
#[derive(Drop)]
pub struct Watch<'a, 'b, R, E> {
    rt: &'a R,
    alloc: Global,
    duplex: &'b Duplex<'a, R>,
    err: &'b mut E,
    path: &'b str,
    every: Duration,
    due: Duration,
    looks: Looks,
    version: Version,
    trust: Trust<'b>,
    empty: EmptySets,
    // How many signatures the set has that was read last.
    count: usize,
}

impl<'a, 'b, R: Files + Clock, E: Write> Watch<'a, 'b, R, E> {
    /// Of a service under a set of this version, over this connection, whose reads end where a look is due.
    pub fn new(
        rt: &'a R,
        alloc: Global,
        duplex: &'b Duplex<'a, R>,
        watched: Watched<'b>,
        version: Version,
        err: &'b mut E,
    ) -> Watch<'a, 'b, R, E>
        ensures looks { result.looks ≡ first watched.entry.seen }
        ensures version { result.version ≡ version }
        ensures trust { result.trust ≡ watched.entry.trust }
    {
        let now = rt.monotonic().unwrap_or(Duration::ZERO);
        let due = now.saturating_add(watched.every);
        duplex.wake_at(due);
        Watch {
            rt,
            alloc,
            duplex,
            err,
            path: watched.path,
            every: watched.every,
            due,
            looks: Looks::new(watched.seen),
            version,
            trust: watched.trust,
            empty: watched.empty,
            count: 0,
        }
    }

    /// Says that bytes came over the second connection that are no frame.
    pub(crate) fn say_bad_frame(&mut self) {
        bad_frame(self.err);
    }

    // Whether a look is due. The next one is due so long from now.
    fn is_due(&mut self) -> bool
        ensures { self.new.trust ≡ self.old.trust }
    {
        let Ok(now) = self.rt.monotonic() else {
            return false;
        };
        if now < self.due {
            return false;
        }
        self.due = now.saturating_add(self.every);
        self.duplex.wake_at(self.due);
        true
    }

    // The set of the file as it is now, where it stays as it is meanwhile.
    fn read(&mut self) -> Option<SignatureSet>
        ensures set { IfSome result (IsTrusted self.old.trust) }
        ensures trust { self.new.trust ≡ self.old.trust }
    {
        let Ok(mut buffer) = vec![in self.alloc; 0u8; FILE_BUFFER] else {
            out_of_memory(self.err);
            return None;
        };
        let count = self.read_into(&mut buffer);
        if !self.looks.takes(looked_at(self.rt, self.path)) {
            return None;
        }
        let content = match count {
            Some(count) => buffer.get(..count),
            None => None,
        };
        let set = spelled(self.alloc, self.trust, self.path, content, self.err)?;
        self.count = set.len();
        match admit_set(&set, self.path, self.empty, self.err) {
            Ok(()) => Some(set),
            Err(_) => None,
        }
    }

    // The count of the bytes of the file, as far as one past the most.
    fn read_into(&self, buffer: &mut [u8]) -> Option<usize> {
        let file = fs::open(self.rt, self.path).ok()?;
        read_into(&mut file.take(MAX_FILE as u64 + 1), buffer, TURNS).ok()
    }
}

// The set that a file of this content spells. Where it spells none, is not trusted, or was not read, a line to `err` says why.
fn spelled<'a, E: Write>(
    alloc: Global,
    trust: Trust<'_>,
    name: &'a str,
    content: Option<&'a [u8]>,
    err: &mut E,
) -> Option<SignatureSet>
    ensures { IfSome result (SpellsBy trust.entry (option_copied content.entry)) }
{
    read_trusted(alloc, trust, Input { name, content }, err).ok()
}

impl<'a, 'b, R: Files + Clock, E: Write> Fresh for Watch<'a, 'b, R, E> {
    ghost coming = { λ _. None };

    fn next(&mut self) -> Option<SignatureSet>
        ensures set { IfSome result (IsTrusted self.old.trust) }
        ensures trust { self.new.trust ≡ self.old.trust }
    {
        if !self.is_due() || !self.looks.settles(looked_at(self.rt, self.path)) {
            return None;
        }
        self.read()
    }

    fn published(&mut self, version: Version)
        ensures trust { self.new.trust ≡ self.old.trust }
    {
        self.version = version;
        let number = Part::Number(version.get());
        let count = Part::Number(self.count as u64);
        say(
            self.err,
            &[
                text("version "),
                number,
                text(", "),
                count,
                text(" signatures"),
            ],
        );
    }

    fn refused(&mut self, version: Version, why: Refusal<CatalogueFault>)
        ensures trust { self.new.trust ≡ self.old.trust }
    {
        match why {
            Refusal::Fault(CatalogueFault::OldVersion) => say_of(
                self.err,
                self.path,
                &[
                    text(": version "),
                    Part::Number(version.get()),
                    text(" is not above "),
                    Part::Number(self.version.get()),
                ],
            ),
            Refusal::Fault(CatalogueFault::CatalogueFull) => {
                say_of(self.err, self.path, &[text(": CatalogueFull")]);
            }
            Refusal::NoMemory => {
                out_of_memory(self.err);
            }
        }
    }
}
