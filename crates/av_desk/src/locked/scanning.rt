ghost use Rattle.std.specs.Prelude.{◌≡◌, IfOk, IfErr, None};
ghost use Rattle.av_desk.specs.Book.{state_of};
ghost use Rattle.av_desk.specs.Call.{AddsOrReturns, fault_of};
ghost use Rattle.av_desk.specs.Lent.{AreLent};
ghost use Rattle.av_match.specs.Scanning.{if_found};
ghost use Rattle.av_service.specs.Audit.{By, respond};
ghost use Rattle.av_service.specs.Call.{Responds};
ghost use Rattle.av_service.specs.Conduct.{Finishes, Receives, service_step};

use super::Locked;
use crate::entry::{keep, keep_silent};
use crate::event::Event;
use crate::fault::{DeskFault, full, no_memory};
use crate::lent::{Taken, lent_of};
use crate::shared::SharedAutomaton;
use av_base::Refused;
use av_frame::Message;
use av_service::{Done, Service, ServiceNote, ServiceOut};
use std::alloc::{AllocError, AllocFailed, Global};

impl Locked {
    /// Handles a message of the filter, which goes into the audit. A refusal hands it back. A work that the service gives
    /// out has the automaton of its version.
    pub fn message(
        &mut self,
        alloc: Global,
        message: Message,
    ) -> Result<Taken, Refused<Message, DeskFault>>
        ensures event { AddsOrReturns self.old self.new (By (Receives message)) (fault_of self.old None) message result }
        ensures lent { IfOk result (λ t. AreLent self.old.sets
            (respond (state_of self.old) (By (Receives message))).works t.lent) }
        ensures note { IfOk result (λ t. t.note ≡ (respond (state_of self.old) (By (Receives message))).note) }
    {
        if self.is_full() {
            return Err(full(message));
        }
        if self.events.reserve(1).is_err() {
            return Err(no_memory(message));
        }
        let Ok(automaton) = share(&self.automaton) else {
            return Err(no_memory(message));
        };
        let Ok(out) = self.service.message(alloc, &message) else {
            return Err(no_memory(message));
        };
        let (work, note) = keep(&mut self.events, Event::Receive { message }, out);
        let lent = lent_of(work, automaton);
        Ok(Taken { lent, note })
    }

    /// Takes back a work that was run. A refusal hands it back.
    pub fn finish(
        &mut self,
        alloc: Global,
        done: Done,
    ) -> Result<ServiceNote, Refused<Done, DeskFault>>
        ensures event { AddsOrReturns self.old self.new (By (Finishes done.lease done.scan (if_found done.scan)))
            (fault_of self.old None) done result }
        ensures note { IfOk result (λ n. n ≡ (respond (state_of self.old)
            (By (Finishes done.lease done.scan (if_found done.scan)))).note) }
    {
        if self.is_full() {
            return Err(full(done));
        }
        if self.events.reserve(1).is_err() {
            return Err(no_memory(done));
        }
        let event = Event::Finish {
            lease: done.lease(),
            scan: done.scan(),
        };
        match finish(&mut self.service, alloc, done) {
            Ok(out) => Ok(keep_silent(&mut self.events, event, out)),
            Err(failed) => {
                let AllocFailed { value } = failed;
                Err(no_memory(value))
            }
        }
    }
}

// Takes a work back, which gives out no other.
fn finish(service: &mut Service, alloc: Global, done: Done) -> Result<ServiceOut, AllocFailed<Done>>
    ensures ok { IfOk result (λ out. Responds out service.new.desk
        (service_step service.old.desk (Finishes done.lease done.scan (if_found done.scan)))) }
    ensures silent { IfOk result (λ out. out.work ≡ None) }
    ensures err { IfErr result (λ e. (e.value ≡ done) × (service.new.desk ≡ service.old.desk)) }
{
    service.finish(alloc, done)
}

// One more owner of the automaton, if there is one.
fn share(automaton: &Option<SharedAutomaton>) -> Result<Option<SharedAutomaton>, AllocError>
    ensures { IfOk result (λ a. a ≡ automaton.now) }
{
    match automaton {
        Some(automaton) => Ok(Some(automaton.share()?)),
        None => Ok(None),
    }
}
