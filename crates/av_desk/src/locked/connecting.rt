ghost use Rattle.std.specs.Prelude.{◌≡◌, IfOk, None};
ghost use Rattle.av_desk.specs.Book.{state_of};
ghost use Rattle.av_desk.specs.Call.{Adds, fault_of, of_connect};
ghost use Rattle.av_service.specs.Audit.{By, respond};
ghost use Rattle.av_service.specs.Call.{Meets, Responds};
ghost use Rattle.av_service.specs.Conduct.{Connects, Disconnects, Restarts, connect_refusal, service_step};
ghost use Rattle.av_sigset.specs.Catalogue.{latest};
ghost use Rattle.av_sigset.specs.Publication.{latest_as};

use super::Locked;
use crate::entry::keep_silent;
use crate::event::Event;
use crate::fault::DeskFault;
use av_base::{Refusal, Version};
use av_service::{ConnectFault, Service, ServiceNote, ServiceOut};
use av_sigset::Catalogue;
use std::alloc::Global;

impl Locked {
    /// Connects, and greets the filter.
    pub fn connect(&mut self, alloc: Global) -> Result<ServiceNote, Refusal<DeskFault>>
        ensures event { Adds self.old self.new (By Connects)
            (fault_of self.old (of_connect (connect_refusal (state_of self.old)))) result }
        ensures note { IfOk result (λ n. n ≡ (respond (state_of self.old) (By Connects)).note) }
    {
        if let Some(fault) = self.connect_fault() {
            return Err(Refusal::Fault(fault));
        }
        self.events.reserve(1)?;
        let Ok(out) = connect(&mut self.service, alloc) else {
            return Err(Refusal::NoMemory);
        };
        Ok(keep_silent(&mut self.events, Event::Connect, out))
    }

    /// Learns that the connection is gone: every job is dropped, and the cache is kept.
    pub fn disconnect(&mut self, alloc: Global) -> Result<ServiceNote, Refusal<DeskFault>>
        ensures event { Adds self.old self.new (By Disconnects) (fault_of self.old None) result }
        ensures note { IfOk result (λ n. n ≡ (respond (state_of self.old) (By Disconnects)).note) }
    {
        if self.is_full() {
            return Err(Refusal::Fault(DeskFault::AuditFull));
        }
        self.events.reserve(1)?;
        let out = disconnect(&mut self.service, alloc);
        Ok(keep_silent(&mut self.events, Event::Disconnect, out))
    }

    /// Starts the service anew, with an empty cache, under the set published last. Leases go on, so that work of before
    /// comes back as an orphan.
    pub fn restart(&mut self, alloc: Global) -> Result<ServiceNote, Refusal<DeskFault>>
        ensures event { Adds self.old self.new (By (Restarts (latest_as self.old.sets))) (fault_of self.old None) result }
        ensures note { IfOk result (λ n. n ≡ (respond (state_of self.old) (By (Restarts (latest_as self.old.sets)))).note) }
    {
        if self.is_full() {
            return Err(Refusal::Fault(DeskFault::AuditFull));
        }
        self.events.reserve(1)?;
        let latest = latest_of(&self.catalogue);
        let out = restart(&mut self.service, alloc, &self.catalogue);
        Ok(keep_silent(&mut self.events, Event::Restart { latest }, out))
    }

    // Why it does not connect, where it does not.
    fn connect_fault(&self) -> Option<DeskFault>
        ensures { result ≡ fault_of self.now (of_connect (connect_refusal (state_of self.now))) }
    {
        if self.is_full() {
            return Some(DeskFault::AuditFull);
        }
        if self.service.version().is_none() {
            return Some(DeskFault::NoSignatures);
        }
        if self.service.connected() {
            return Some(DeskFault::AlreadyConnected);
        }
        None
    }
}

// The version of the set published last, or 0.
fn latest_of(catalogue: &Catalogue) -> Version
    ensures { result ≡ latest catalogue.now.sets }
{
    match catalogue.latest() {
        Some(version) => version,
        None => Version::new(0),
    }
}

// These events of the service give out no work.

fn connect(service: &mut Service, alloc: Global) -> Result<ServiceOut, Refusal<ConnectFault>>
    ensures event { Meets service.old.desk service.new.desk result (connect_refusal service.old.desk) (service_step service.old.desk Connects) }
    ensures silent { IfOk result (λ out. out.work ≡ None) }
{
    service.connect(alloc)
}

fn disconnect(service: &mut Service, alloc: Global) -> ServiceOut
    ensures event { Responds result service.new.desk (service_step service.old.desk Disconnects) }
    ensures silent { result.work ≡ None }
{
    service.disconnect(alloc)
}

fn restart(service: &mut Service, alloc: Global, catalogue: &Catalogue) -> ServiceOut
    ensures event { Responds result service.new.desk (service_step service.old.desk (Restarts (latest catalogue.now.sets))) }
    ensures silent { result.work ≡ None }
{
    service.restart(alloc, catalogue)
}
