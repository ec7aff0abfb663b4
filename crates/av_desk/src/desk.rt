ghost use Rattle.std.specs.Prelude.{◌≡◌, ◌≢◌, [], IfErr, IfOk, IfSome, map};
ghost use Rattle.av_desk.specs.Audit.{opened_by, started_by};
ghost use Rattle.av_desk.specs.Book.{IsBuilt, sets_end};
ghost use Rattle.av_service.specs.Audit.{IsCatalogue, IsServiceAudit};
ghost use Rattle.av_sigset.specs.Publication.{publication_of};

use crate::audit::Audit;
use crate::fault::DeskFault;
use crate::lent::Taken;
use crate::locked::Locked;
use crate::setup::Setup;
use crate::shared::SharedAutomaton;
use av_base::{Limits, Port, Refusal, Refused};
use av_frame::Message;
use av_service::{Done, ServiceNote};
use av_sigset::{Catalogue, SignatureSet};
use std::alloc::{AllocError, AllocFailed, Global};
use std::sync::{Condvar, Mutex, MutexGuard, Wait};

// What lies under the lock.
#[derive(Drop)]
struct Inner {
    locked: Locked,
    is_stopped: bool,
}

/// The scanning service behind a lock, for any number of threads. Each call that makes an event holds the lock once.
#[derive(Drop)]
pub struct Desk {
    inner: Mutex<Inner>,
    came: Condvar,
    // Beside the lock, since no proof knows what a lock gives back.
    setup: Setup,
}

impl Desk {
    ghost use Rattle.av_desk.specs.Setup.{setup_of, recorded_by};

    /// A service just started at this port over this catalogue. Builds the automaton of the set published last. Where memory is
    /// refused, the catalogue is handed back.
    pub fn new(
        alloc: Global,
        volume_number: u64,
        port: Port,
        catalogue: Catalogue,
        limits: Limits,
    ) -> Result<Desk, AllocFailed<Catalogue>>
        ensures setup { IfOk result (λ d. setup_of d
            ≡ record { volume_number = volume_number; port = port; limits = limits }) }
        ensures back { IfErr result (λ e. e.value ≡ catalogue) }
    {
        let setup = Setup {
            volume_number,
            port,
            limits,
        };
        match Locked::new(alloc, volume_number, port, catalogue, limits) {
            Ok(locked) => Ok(Desk::of(locked, setup)),
            Err(failed) => Err(failed),
        }
    }

    /// The same over a catalogue whose newest automaton is built already, as for another desk of the same set.
    pub fn over(
        alloc: Global,
        volume_number: u64,
        port: Port,
        catalogue: Catalogue,
        automaton: Option<SharedAutomaton>,
        limits: Limits,
    ) -> Result<Desk, AllocFailed<Catalogue>>
        requires { IsBuilt (map publication_of catalogue.sets) automaton }
        ensures setup { IfOk result (λ d. setup_of d
            ≡ record { volume_number = volume_number; port = port; limits = limits }) }
        ensures back { IfErr result (λ e. e.value ≡ catalogue) }
    {
        let setup = Setup {
            volume_number,
            port,
            limits,
        };
        match Locked::over(alloc, volume_number, port, catalogue, automaton, limits) {
            Ok(locked) => Ok(Desk::of(locked, setup)),
            Err(refused) => Err(refused),
        }
    }

    fn of(locked: Locked, setup: Setup) -> Desk
        ensures { setup_of result ≡ setup }
    {
        Desk {
            inner: Mutex::new(Inner {
                locked,
                is_stopped: false,
            }),
            came: Condvar::new(),
            setup,
        }
    }

    /// Connects, and greets the filter: AuditFull, NoSignatures, AlreadyConnected.
    pub fn connect<R: Wait>(
        &self,
        rt: &R,
        alloc: Global,
    ) -> Result<ServiceNote, Refusal<DeskFault>> {
        let mut inner = self.inner.lock(rt);
        let note = inner.locked.connect(alloc)?;
        self.wake(&mut inner.locked);
        Ok(note)
    }

    /// Handles a message of the filter: AuditFull, the message handed back. A work that it gives out has the automaton of
    /// its version.
    pub fn message<R: Wait>(
        &self,
        rt: &R,
        alloc: Global,
        message: Message,
    ) -> Result<Taken, Refused<Message, DeskFault>>
        ensures { IfErr result (λ refused. refused.value ≡ message) }
    {
        let mut inner = self.inner.lock(rt);
        let taken = inner.locked.message(alloc, message);
        self.wake(&mut inner.locked);
        taken
    }

    /// The same, and wakes nobody who waits for messages: what it sent is for the caller to take out.
    pub fn message_quietly<R: Wait>(
        &self,
        rt: &R,
        alloc: Global,
        message: Message,
    ) -> Result<Taken, Refused<Message, DeskFault>>
        ensures { IfErr result (λ refused. refused.value ≡ message) }
    {
        self.inner.lock(rt).locked.message(alloc, message)
    }

    /// Takes back a work that was run: AuditFull, the work handed back.
    pub fn finish<R: Wait>(
        &self,
        rt: &R,
        alloc: Global,
        done: Done,
    ) -> Result<ServiceNote, Refused<Done, DeskFault>>
        ensures { IfErr result (λ refused. refused.value ≡ done) }
    {
        let mut inner = self.inner.lock(rt);
        let note = inner.locked.finish(alloc, done);
        self.wake(&mut inner.locked);
        note
    }

    /// The same, and wakes nobody who waits for messages: what it sent is for the caller to take out.
    pub fn finish_quietly<R: Wait>(
        &self,
        rt: &R,
        alloc: Global,
        done: Done,
    ) -> Result<ServiceNote, Refused<Done, DeskFault>>
        ensures { IfErr result (λ refused. refused.value ≡ done) }
    {
        self.inner.lock(rt).locked.finish(alloc, done)
    }

    /// Publishes a set: AuditFull, OldVersion, CatalogueFull, the set handed back. Every scan begins anew under it. Its
    /// automaton is built before the lock is taken.
    pub fn publish<R: Wait>(
        &self,
        rt: &R,
        alloc: Global,
        set: SignatureSet,
    ) -> Result<ServiceNote, Refused<SignatureSet, DeskFault>>
        ensures { IfErr result (λ refused. refused.value ≡ set) }
    {
        let built = SharedAutomaton::build(alloc, &set).ok();
        let mut inner = self.inner.lock(rt);
        let note = inner.locked.publish(alloc, set, built);
        self.wake(&mut inner.locked);
        note
    }

    /// Learns that the connection is gone: AuditFull. Every job is dropped, and the cache is kept.
    pub fn disconnect<R: Wait>(
        &self,
        rt: &R,
        alloc: Global,
    ) -> Result<ServiceNote, Refusal<DeskFault>> {
        self.inner.lock(rt).locked.disconnect(alloc)
    }

    /// Starts the service anew under the set published last, with an empty cache: AuditFull.
    pub fn restart<R: Wait>(
        &self,
        rt: &R,
        alloc: Global,
    ) -> Result<ServiceNote, Refusal<DeskFault>> {
        self.inner.lock(rt).locked.restart(alloc)
    }

    // Wakes who waits for messages where one is to be sent: a chunk that only gives out a work wakes nobody.
    fn wake(&self, locked: &mut Locked) {
        if locked.has_outgoing() {
            self.came.notify_all();
        }
    }

    /// Takes out the messages that wait, in the order in which they were sent. Where memory is refused, they stay.
    pub fn take_outgoing<R: Wait>(
        &self,
        rt: &R,
        alloc: Global,
    ) -> Result<Vec<Message>, AllocError> {
        self.inner.lock(rt).locked.take_outgoing(alloc)
    }

    /// Waits for messages and takes them out. None once the desk was stopped and none is left.
    pub fn wait_outgoing<R: Wait>(
        &self,
        rt: &R,
        alloc: Global,
    ) -> Result<Option<Vec<Message>>, AllocError>
        ensures some { IfOk result (λ waited. IfSome waited (λ messages. messages.items ≢ [])) }
    {
        let mut inner = self.await_messages(rt);
        let messages = inner.locked.take_outgoing(alloc)?;
        Ok(if messages.is_empty() {
            None
        } else {
            Some(messages)
        })
    }

    /// Waits for messages and leaves them: whether some wait. They don't once the desk was stopped and none is left. So a caller
    /// may take a lock of its own before it takes them out, and somebody else may have taken them by then.
    pub fn await_outgoing<R: Wait>(&self, rt: &R) -> bool {
        self.await_messages(rt).locked.has_outgoing()
    }

    // Waits for messages, or until the desk is stopped.
    fn await_messages<R: Wait>(&self, rt: &R) -> MutexGuard<'_, Inner> {
        self.came.wait_while(rt, self.inner.lock(rt), |inner| {
            !inner.is_stopped && !inner.locked.has_outgoing()
        })
    }

    /// Ends the waits for messages, once those that wait were taken out.
    pub fn stop<R: Wait>(&self, rt: &R) {
        self.inner.lock(rt).is_stopped = true;
        self.came.notify_all();
    }

    /// Ends the desk and gives its audit. Takes no memory, and waits for nobody.
    pub fn close(self) -> Audit
        ensures setup { recorded_by result ≡ setup_of self }
        ensures legal { IsServiceAudit (opened_by result) (started_by result) result.events.items }
        ensures catalogue { IsCatalogue (opened_by result) }
        ensures sets { map publication_of result.catalogue.sets ≡ sets_end (opened_by result) result.events.items }
    {
        let Desk {
            inner,
            came: _,
            setup,
        } = self;
        let Inner {
            locked,
            is_stopped: _,
        } = inner.into_inner();
        setup.checked(locked.into_audit())
    }
}
