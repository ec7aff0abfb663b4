ghost use Rattle.std.specs.Prelude.{◌≡◌, ◌≤◌, ◌+◌, ◌++◌, ℕ, List, length};
ghost use Rattle.av_desk.specs.Lent.{FitsItsWork, IsMet, lent_with};
ghost use Rattle.av_match.specs.Match.{if_hit, verdict};
ghost use Rattle.av_match.specs.Scanning.{IsScan, fitting, if_found, run};

use crate::shared::SharedAutomaton;
use av_service::{Done, ServiceNote, Work, WorkParcel};
use std::marker::Model;

/// A work that was lent, with the automaton of its version. It must be spent, by `run`, `discard` or `pack`.
pub struct Lent {
    work: Work,
    automaton: SharedAutomaton,
}

impl Model for Lent {
    ghost use Rattle.av_desk.specs.Lent.{FitsItsWork, LentState};

    ghost Value = { LentState };

    ghost view = { λ l. record { work = l.work; automaton = l.automaton } };

    ghost invariant = { λ l. FitsItsWork (record { work = l.work; automaton = l.automaton }) };
}

/// A lent work that may be let go, as a channel asks of what it carries. `Lent::pack` makes it.
#[derive(Drop)]
pub struct LentParcel {
    work: WorkParcel,
    automaton: SharedAutomaton,
}

impl Model for LentParcel {
    ghost use Rattle.av_desk.specs.Lent.{FitsItsWork, LentState};

    ghost Value = { LentState };

    ghost view = { λ l. record { work = l.work; automaton = l.automaton } };

    ghost invariant = { λ l. FitsItsWork (record { work = l.work; automaton = l.automaton }) };
}

impl Lent {
    /// This work, with the automaton of its version.
    pub fn new(work: Work, automaton: SharedAutomaton) -> Lent
        requires { automaton.version ≡ work.version }
        ensures { result ≡ record { work = work; automaton = automaton } }
    {
        // Read for the prover: the patterns of an automaton have their lengths.
        let _version = automaton.get().version();
        Lent { work, automaton }
    }

    /// The work.
    pub fn work(&self) -> &Work
        ensures work { result.now ≡ self.now.work }
        ensures version { self.now.automaton.version ≡ self.now.work.version }
        ensures fits { FitsItsWork self.now }
    {
        &self.work
    }

    /// Goes on with the work's bytes. Takes no memory.
    pub fn run(self) -> Done
        ensures work { result.work ≡ self.work }
        ensures lease { result.lease ≡ self.work.lease }
        ensures scan { result.scan ≡ run self.automaton.patterns self.work.scan (fitting self.work.scan self.work.chunk) }
        ensures version { self.automaton.version ≡ self.work.version }
        ensures fits { FitsItsWork self }
        ensures judged { (bytes : ℕ) (c : List ℕ) → IsScan self.automaton bytes c self.work.scan
            → length c + length self.work.chunk ≤ bytes → IsScan self.automaton bytes (c ++ self.work.chunk) result.scan }
        ensures verdict { (bytes : ℕ) (c : List ℕ) → IsScan self.automaton bytes c self.work.scan
            → length c + length self.work.chunk ≤ bytes
            → if_found result.scan ≡ if_hit (verdict self.automaton.patterns (c ++ self.work.chunk)) }
    {
        let Lent { work, automaton } = self;
        work.run(automaton.get())
    }

    /// Lets it go, at the end of a program.
    pub fn discard(self) {
        let Lent { work, automaton: _ } = self;
        work.discard();
    }

    /// The same as a parcel. Takes no memory.
    pub fn pack(self) -> LentParcel
        ensures same { result ≡ self }
        ensures fits { FitsItsWork self }
    {
        let Lent { work, automaton } = self;
        LentParcel {
            work: work.pack(),
            automaton,
        }
    }
}

impl LentParcel {
    /// The lent work that was packed.
    pub fn unpack(self) -> Lent
        ensures { result ≡ self }
    {
        let LentParcel { work, automaton } = self;
        Lent {
            work: work.unpack(),
            automaton,
        }
    }
}

/// What a message came to: a work that the service gave out, or none, and its note.
pub struct Taken {
    pub lent: Option<Lent>,
    pub note: ServiceNote,
}

// A work that was given out, with the automaton of its version.
pub(crate) fn lent_of(work: Option<Work>, automaton: Option<SharedAutomaton>) -> Option<Lent>
    requires { IsMet work automaton }
    ensures { result ≡ lent_with work automaton }
{
    match work {
        None => None,
        Some(work) => match automaton {
            Some(automaton) => Some(Lent::new(work, automaton)),
            None => unreachable!(),
        },
    }
}
