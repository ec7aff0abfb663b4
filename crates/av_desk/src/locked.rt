mod connecting;
mod outgoing;
mod publishing;
mod scanning;

ghost use Rattle.std.specs.Prelude.{◌≡◌, IfOk, IfErr, length, map, nat_le};
ghost use Rattle.av_desk.specs.Audit.{opened_by, started_by};
ghost use Rattle.av_desk.specs.Book.{IsBuilt, new_book, sets_end};
ghost use Rattle.av_service.specs.Audit.{IsCatalogue, IsServiceAudit};
ghost use Rattle.av_sigset.specs.Publication.{publication_of};

use crate::audit::Audit;
use crate::entry::DeskEntry;
use crate::shared::SharedAutomaton;
use av_base::{Limits, Port};
use av_service::Service;
use av_sigset::Catalogue;
use std::alloc::{AllocError, AllocFailed, Global};
use std::marker::Model;

/// What lies under a desk's lock: the catalogue and the service, with the audit of all that they were asked. Contracts see
/// the audit alone: the service is where it leads, and it is legal.
#[derive(Drop)]
pub struct Locked {
    volume_number: u64,
    port: Port,
    limits: Limits,
    catalogue: Catalogue,
    // How many sets the catalogue had at first.
    opening: usize,
    service: Service,
    // Of the set published last, under which alone works are lent.
    automaton: Option<SharedAutomaton>,
    events: Vec<DeskEntry>,
    // Of how many events the messages were taken out.
    sent: usize,
}

impl Model for Locked {
    ghost use Rattle.std.specs.Prelude.{map};
    ghost use Rattle.av_desk.specs.Book.{Book, IsBuilt, IsKept, book};
    ghost use Rattle.av_sigset.specs.Publication.{publication_of};

    ghost Value = { Book };

    ghost view = { λ s. book s.volume_number s.port s.limits s.catalogue.sets s.opening s.events.items s.sent };

    ghost invariant = { λ s.
        IsKept (book s.volume_number s.port s.limits s.catalogue.sets s.opening s.events.items s.sent) s.service.desk
        × IsBuilt (map publication_of s.catalogue.sets) s.automaton };
}

impl Locked {
    /// A service just started at this port over this catalogue, with no event. Builds the automaton of the set published last. Where
    /// memory is refused, the catalogue is handed back.
    pub fn new(
        alloc: Global,
        volume_number: u64,
        port: Port,
        catalogue: Catalogue,
        limits: Limits,
    ) -> Result<Locked, AllocFailed<Catalogue>>
        ensures ok { IfOk result (λ l. l ≡ new_book volume_number port limits (map publication_of catalogue.sets)) }
        ensures err { IfErr result (λ e. e.value ≡ catalogue) }
    {
        match newest_built(alloc, &catalogue) {
            Ok(built) => Locked::over(alloc, volume_number, port, catalogue, built, limits),
            Err(_) => Err(AllocFailed { value: catalogue }),
        }
    }

    /// The same over a catalogue whose newest automaton is built already.
    pub fn over(
        alloc: Global,
        volume_number: u64,
        port: Port,
        catalogue: Catalogue,
        automaton: Option<SharedAutomaton>,
        limits: Limits,
    ) -> Result<Locked, AllocFailed<Catalogue>>
        requires { IsBuilt (map publication_of catalogue.sets) automaton }
        ensures ok { IfOk result (λ l. l ≡ new_book volume_number port limits (map publication_of catalogue.sets)) }
        ensures err { IfErr result (λ e. e.value ≡ catalogue) }
    {
        // Read for the prover: the versions of a catalogue rise, and each of its sets is one.
        let _rises = catalogue.latest();
        let Ok(service) = Service::start(alloc, volume_number, port, &catalogue, limits) else {
            return Err(AllocFailed { value: catalogue });
        };
        let opening = catalogue.len();
        Ok(Locked {
            volume_number,
            port,
            limits,
            catalogue,
            opening,
            service,
            automaton,
            events: Vec::new(alloc),
            sent: 0,
        })
    }

    /// The events so far, the oldest first.
    pub fn events(&self) -> &[DeskEntry]
        ensures { result.now ≡ self.now.events }
    {
        self.events.as_slice()
    }

    /// The audit. Takes no memory.
    pub fn into_audit(self) -> Audit
        ensures audit { (result.volume_number ≡ self.volume_number) × (result.port ≡ self.port) × (result.limits ≡ self.limits)
            × (map publication_of result.catalogue.sets ≡ self.sets) × (result.opening ≡ self.opening)
            × (result.events.items ≡ self.events) }
        ensures legal { IsServiceAudit (opened_by result) (started_by result) result.events.items }
        ensures catalogue { IsCatalogue (opened_by result) }
        ensures sets { map publication_of result.catalogue.sets ≡ sets_end (opened_by result) result.events.items }
    {
        let Locked {
            volume_number,
            port,
            limits,
            catalogue,
            opening,
            service: _,
            automaton: _,
            events,
            sent: _,
        } = self;
        Audit {
            volume_number,
            port,
            limits,
            catalogue,
            opening,
            events,
        }
    }

    // Whether the audit is as long as it may be.
    fn is_full(&self) -> bool
        ensures { result ≡ nat_le self.now.limits.audit (length self.now.events) }
    {
        self.limits.values().audit <= self.events.len() as u64
    }
}

// The automaton of the set published last, if one was.
fn newest_built(alloc: Global, catalogue: &Catalogue) -> Result<Option<SharedAutomaton>, AllocError>
    ensures { IfOk result (λ a. IsBuilt (map publication_of catalogue.now.sets) a) }
{
    let Some(version) = catalogue.latest() else {
        return Ok(None);
    };
    let Some(set) = catalogue.at(version) else {
        unreachable!()
    };
    Ok(Some(SharedAutomaton::build(alloc, set)?))
}
