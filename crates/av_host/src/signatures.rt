ghost use Rattle.std.specs.Prelude.{◌≡◌, IfOk};
ghost use Rattle.av_desk.specs.Book.{compiled};
ghost use Rattle.av_sigset.specs.Publication.{publication_of};

use av_base::{Limits, Port};
use av_desk::{Desk, SharedAutomaton};
use av_files::streams::VOLUME;
use av_match::Automaton;
use av_sigset::{Catalogue, SignatureSet};
use std::alloc::{AllocError, Global};
use std::marker::Model;
use std::sync::Wait;

/// A signature set with its automaton, which all desks of a host share. Contracts see the set.
#[derive(Drop)]
pub struct Signatures {
    set: SignatureSet,
    automaton: SharedAutomaton,
}

impl Model for Signatures {
    ghost use Rattle.std.specs.Prelude.{◌≡◌};
    ghost use Rattle.av_desk.specs.Book.{compiled};
    ghost use Rattle.av_sigset.specs.Publication.{publication_of};
    ghost use Rattle.av_sigset.specs.Set.{NumberedSet};

    ghost Value = { NumberedSet };

    ghost view = { λ s. s.set };

    ghost invariant = { λ s. s.automaton ≡ compiled (publication_of s.set) };
}

impl Signatures {
    /// Builds the automaton of a set.
    pub fn build(alloc: Global, set: SignatureSet) -> Result<Signatures, AllocError>
        ensures { IfOk result (λ s. s ≡ set) }
    {
        let automaton = SharedAutomaton::build(alloc, &set)?;
        Ok(Signatures { set, automaton })
    }

    /// The set.
    pub fn set(&self) -> &SignatureSet
        ensures { result.now ≡ self.now }
    {
        &self.set
    }

    /// Its automaton.
    pub fn automaton(&self) -> &Automaton
        ensures { result.now ≡ compiled (publication_of self.now) }
    {
        self.automaton.get()
    }

    /// A desk at a port with this set alone, which has greeted the filter.
    pub fn desk<R: Wait>(&self, rt: &R, alloc: Global, port: Port) -> Result<Desk, AllocError> {
        let mut catalogue = Catalogue::new(alloc);
        if catalogue.publish(self.set.copied(alloc)?).is_err() {
            return Err(AllocError);
        }
        let automaton = Some(self.automaton.share()?);
        let limits = Limits::greatest();
        let Ok(desk) = Desk::over(alloc, VOLUME, port, catalogue, automaton, limits) else {
            return Err(AllocError);
        };
        match desk.connect(rt, alloc) {
            Ok(_) => Ok(desk),
            Err(_) => Err(AllocError),
        }
    }
}
