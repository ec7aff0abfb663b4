ghost use Rattle.std.specs.Prelude.{◌≡◌, ◌≤◌, ◌<◌, IfOk, IfSome, None};
ghost use Rattle.av_desk.specs.Book.{compiled, state_of};
ghost use Rattle.av_desk.specs.Call.{AddsOrReturns, fault_of, publish_fault};
ghost use Rattle.av_service.specs.Audit.{Publishes, respond};
ghost use Rattle.av_service.specs.Call.{Responds};
ghost use Rattle.av_service.specs.Conduct.{service_step};
ghost use Rattle.av_service.specs.Conduct as conduct;
ghost use Rattle.av_service.specs.Room.{publishing};
ghost use Rattle.av_sigset.specs.Publication.{publication_of};
ghost use Rattle.av_sigset.specs.Set.{patterns_of};

use super::Locked;
use crate::entry::keep_silent;
use crate::event::Event;
use crate::fault::{DeskFault, no_memory};
use crate::shared::SharedAutomaton;
use av_base::{Refusal, Refused, Version};
use av_service::{Service, ServiceNote, ServiceOut};
use av_sigset::{CatalogueFault, SignatureSet};
use std::alloc::Global;
use std::snapshot::Snapshot;

impl Locked {
    /// Publishes a set, to the catalogue and to the service: every scan begins anew under it. `built` is its automaton,
    /// or none where memory was refused to that. A refusal hands the set back.
    pub fn publish(
        &mut self,
        alloc: Global,
        set: SignatureSet,
        built: Option<SharedAutomaton>,
    ) -> Result<ServiceNote, Refused<SignatureSet, DeskFault>>
        requires { IfSome built (λ a. a ≡ compiled (publication_of set)) }
        ensures event { AddsOrReturns self.old self.new (Publishes set.version (patterns_of set.signatures))
            (fault_of self.old (publish_fault self.old.sets set.version)) set result }
        ensures note { IfOk result (λ n. n ≡ (respond (state_of self.old)
            (Publishes set.version (patterns_of set.signatures))).note) }
    {
        if let Some(fault) = self.publish_fault(set.version()) {
            let why = Refusal::Fault(fault);
            return Err(Refused { value: set, why });
        }
        let Some(automaton) = built else {
            return Err(no_memory(set));
        };
        let version = set.version();
        if self.events.reserve(1).is_err()
            || self.catalogue.room(version).is_err()
            || self.service.room(version).is_err()
        {
            return Err(no_memory(set));
        }
        let out = publish(&mut self.service, alloc, version);
        let event = Event::Publish {
            version,
            set: Snapshot::of(&set),
        };
        match self.catalogue.publish(set) {
            Ok(()) => {}
            Err(_) => unreachable!(),
        }
        self.automaton = Some(automaton);
        Ok(keep_silent(&mut self.events, event, out))
    }

    // Why a set of this version can't be published, where it can't.
    fn publish_fault(&self, version: Version) -> Option<DeskFault>
        ensures { result ≡ fault_of self.now (publish_fault self.now.sets version) }
    {
        if self.is_full() {
            return Some(DeskFault::AuditFull);
        }
        match self.catalogue.refusal(version) {
            None => None,
            Some(CatalogueFault::OldVersion) => Some(DeskFault::OldVersion),
            Some(CatalogueFault::CatalogueFull) => Some(DeskFault::CatalogueFull),
        }
    }
}

// Tells the service of a publication, for which it has room. It gives out no work.
fn publish(service: &mut Service, alloc: Global, version: Version) -> ServiceOut
    requires later { service.old.desk.version < version }
    requires room { publishing service.old.desk ≤ service.old.room }
    ensures event { Responds result service.new.desk (service_step service.old.desk (conduct.Publishes version)) }
    ensures silent { result.work ≡ None }
{
    match service.publish(alloc, version) {
        Ok(out) => out,
        Err(_) => unreachable!(),
    }
}
