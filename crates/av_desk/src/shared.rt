ghost use Rattle.std.specs.Prelude.{◌≡◌, IfOk};
ghost use Rattle.av_sigset.specs.Publication.{publication_of};
ghost use Rattle.av_desk.specs.Book.{compiled};

use av_match::Automaton;
use av_sigset::SignatureSet;
use std::alloc::{AllocError, Global};
use std::marker::Model;
use std::sync::Arc;

/// An automaton with any number of owners, in any threads.
#[derive(Drop)]
pub struct SharedAutomaton {
    automaton: Arc<Automaton, Global>,
}

impl Model for SharedAutomaton {
    ghost use Rattle.std.specs.Arc.{arc_value};
    ghost use Rattle.av_match.specs.Scanning.{Compiled};

    ghost Value = { Compiled };

    ghost view = { λ a. arc_value a.automaton };
}

impl SharedAutomaton {
    /// The automaton of a set.
    pub fn build(alloc: Global, set: &SignatureSet) -> Result<SharedAutomaton, AllocError>
        ensures { IfOk result (λ a. a ≡ compiled (publication_of set.now)) }
    {
        let automaton = Automaton::build(alloc, set)?;
        match Arc::new(alloc, automaton) {
            Ok(automaton) => Ok(SharedAutomaton { automaton }),
            Err(_) => Err(AllocError),
        }
    }

    /// One more owner of it. Refused only where it has 2^63 owners.
    pub fn share(&self) -> Result<SharedAutomaton, AllocError>
        ensures { IfOk result (λ a. a ≡ self.now) }
    {
        Ok(SharedAutomaton {
            automaton: Arc::try_clone(&self.automaton)?,
        })
    }

    /// The automaton.
    pub fn get(&self) -> &Automaton
        ensures { result.now ≡ self.now }
    {
        &*self.automaton
    }
}
