ghost use Rattle.std.specs.Prelude.{◌≡◌, ◌≢◌, ◌≤◌, ◌<◌, ◌++◌, ◌∷◌, [], Ok, Err, Some, IfOk, IfErr, IfSome, IsSome, IsSomeAnd, vec_len, OnOk};
ghost use Rattle.std.specs.Vec.{vec_capacity};
ghost use Rattle.av_base.specs.Answers.{Reads};
ghost use Rattle.av_gate.specs.Versions.{version_shown};
ghost use Rattle.av_gate.specs.declared.call.Call.TheVariants as call;
ghost use Rattle.av_store.specs.Store.{mount_of};

use crate::call::{Call, NamedCall};
use crate::fault::GateFault;
use crate::locked::Locked;
use crate::patch::Patch;
use crate::port_waits::PortWaits;
use crate::seat::{Seat, SeatCall};
use crate::settled::Settled;
use av_base::{Limits, Mode, Port, Refusal, Refused, Version};
use av_ends::{Floor, Ticket, TicketNote};
use av_filter::Note;
use av_frame::Message;
use av_pend::Answer;
use av_store::{BootSpent, Volume};
use std::alloc::{AllocError, Global};
use std::sync::{Condvar, Mutex, MutexGuard, Wait};

// What lies under the lock.
pub(crate) struct Inner {
    pub(crate) locked: Locked,
    pub(crate) is_stopped: bool,
}

/// The filter of one volume, for callers in any number of threads. Each event is one hold of the lock; the floor and the
/// answers of opens are looked at beside it. A gate holds opens that are owed an answer, so it can't be let go: `close` or
/// `abandon` ends it.
pub struct Gate {
    pub(crate) inner: Mutex<Inner>,
    // An open that was held has its answer.
    pub(crate) answered: Condvar,
    // A message of a port waits, or the gate was stopped.
    pub(crate) sent: PortWaits,
    pub(crate) floor: Floor,
    pub(crate) limits: Limits,
    pub(crate) alloc: Global,
}

impl Gate {
    ghost use Rattle.av_ends.specs.Tickets.{IsNoteOf};
    ghost use Rattle.av_gate.specs.Seats.{Adds, AddsOpen, IsSeatOf, calls_of, floor_seen, seat_call};

    /// A gate over a filter that is mounted on this volume, and its first seat: BootSpent, NoMemory, the volume handed back.
    pub fn new(
        alloc: Global,
        volume: Volume,
        mode: Mode,
        limits: Limits,
    ) -> Result<(Gate, Seat), Refused<Volume, BootSpent>>
        ensures ok { IfOk result (λ r. IsSeatOf r.0 r.1 × (calls_of r.1 ≡ []) × (floor_seen r.1 ≡ 0)) }
        ensures back { IfErr result (λ e. e.value ≡ volume) }
        ensures why { IfErr result (λ e. Reads (Err e.why) (mount_of volume)) }
    {
        let (floor, seat) = match Floor::new(alloc) {
            Ok(made) => made,
            Err(_) => {
                let why = without_memory(&volume);
                return Err(Refused { value: volume, why });
            }
        };
        let locked = Locked::new(alloc, volume, mode, limits)?;
        let inner = Inner {
            locked,
            is_stopped: false,
        };
        let gate = Gate {
            inner: Mutex::new(inner),
            answered: Condvar::new(),
            sent: PortWaits::new(),
            floor,
            limits,
            alloc,
        };
        let seat = Seat {
            floor: seat,
            calls: Vec::new(alloc),
        };
        Ok((gate, seat))
    }

    /// A second seat, which has made no call and has seen as much of the floor. It takes no memory and no lock.
    pub fn seat(&self, seat: &mut Seat) -> Seat
        requires { IsSeatOf self.now seat.old }
        ensures old { IsSeatOf self.now seat.new × (calls_of seat.new ≡ calls_of seat.old)
            × (floor_seen seat.new ≡ floor_seen seat.old) }
        ensures new { IsSeatOf self.now result × (calls_of result ≡ []) × (floor_seen result ≡ floor_seen seat.old) }
    {
        Seat {
            floor: self.floor.split(&mut seat.floor),
            calls: Vec::new(self.alloc),
        }
    }

    /// The floor, which the seat has then seen: no version below it grants an open. It takes no lock.
    pub fn floor(&self, seat: &mut Seat) -> Version
        requires { IsSeatOf self.now seat.old }
        ensures same { IsSeatOf self.now seat.new × (calls_of seat.new ≡ calls_of seat.old) }
        ensures seen { result ≡ floor_seen seat.new }
        ensures later { floor_seen seat.old ≤ floor_seen seat.new }
    {
        self.floor.load(&mut seat.floor)
    }

    /// Opens a stream, with the floor that the seat has seen for its least: AuditFull, OpensSpent, NoMemory. The ticket shows
    /// the answer, at once or later. An open of an unknown name is denied through its ticket.
    pub fn open<R: Wait>(
        &self,
        rt: &R,
        alloc: Global,
        seat: &mut Seat,
        name: &[u8],
    ) -> Result<Ticket, Refusal<GateFault>>
        requires { IsSeatOf self.now seat.old }
        ensures same { IsSeatOf self.now seat.new }
        ensures later { floor_seen seat.old ≤ floor_seen seat.new }
        ensures call { AddsOpen seat.old seat.new name.now result }
        ensures least { IfOk result (λ t. floor_seen seat.old ≤ t.least) }
        ensures seen { IfOk result (λ t. t.least ≤ floor_seen seat.new) }
    {
        let least = self.floor.load(&mut seat.floor);
        let call = self.prepare(seat, Call::open(alloc, name, least))?;
        let (ticket, settled) = self
            .inner
            .lock(rt)
            .locked
            .open(alloc, call.is_some(), name, least)?;
        // An open answers none but itself, and nobody can wait for that yet.
        let quiet = Settled {
            answers: 0,
            ..settled
        };
        let _ = self.settle(seat, call, quiet);
        Ok(ticket)
    }

    /// Writes bytes over those of a stream from a place on: AuditFull, the volume's faults (an unknown name is NoStream),
    /// NoMemory.
    pub fn write<R: Wait>(
        &self,
        rt: &R,
        alloc: Global,
        seat: &mut Seat,
        name: &[u8],
        patch: Patch<'_>,
    ) -> Result<Note, Refusal<GateFault>>
        requires { IsSeatOf self.now seat.old }
        ensures same { IsSeatOf self.now seat.new }
        ensures later { floor_seen seat.old ≤ floor_seen seat.new }
        ensures call { Adds seat.old seat.new (call.Write name.now patch.entry.offset patch.entry.bytes.now) result }
    {
        let Patch { offset, bytes } = patch;
        let call = self.prepare(seat, Call::write(alloc, name, offset, bytes))?;
        let settled = self
            .inner
            .lock(rt)
            .locked
            .write(alloc, call.is_some(), name, offset, bytes)?;
        Ok(self.settle(seat, call, settled))
    }

    /// The last of those who wrote to a stream has closed it: AuditFull, NoMemory. An unknown name is noted as NoStream.
    pub fn cleanup<R: Wait>(
        &self,
        rt: &R,
        alloc: Global,
        seat: &mut Seat,
        name: &[u8],
    ) -> Result<Note, Refusal<GateFault>>
        requires { IsSeatOf self.now seat.old }
        ensures same { IsSeatOf self.now seat.new }
        ensures later { floor_seen seat.old ≤ floor_seen seat.new }
        ensures call { Adds seat.old seat.new (call.Cleanup name.now) result }
    {
        let call = self.prepare(seat, Call::cleanup(alloc, name))?;
        let settled = self
            .inner
            .lock(rt)
            .locked
            .cleanup(alloc, call.is_some(), name)?;
        Ok(self.settle(seat, call, settled))
    }

    /// A message of the scanning service: AuditFull, NoMemory. With a greeting that is welcome, or an update, the seat has
    /// seen a floor of that version.
    pub fn message<R: Wait>(
        &self,
        rt: &R,
        alloc: Global,
        seat: &mut Seat,
        message: &Message,
    ) -> Result<Note, Refusal<GateFault>>
        requires { IsSeatOf self.now seat.old }
        ensures same { IsSeatOf self.now seat.new }
        ensures later { floor_seen seat.old ≤ floor_seen seat.new }
        ensures call { Adds seat.old seat.new (call.Receive message.now) result }
        ensures floor { IfOk result (λ note. version_shown message.now note ≤ floor_seen seat.new) }
    {
        let (call, settled) = self.receive(rt, alloc, seat, message)?;
        Ok(self.settle(seat, call, settled))
    }

    /// The same, and wakes nobody who waits for messages of the port at which it came: what it gave out there is for the caller
    /// to take and to send.
    pub fn message_quietly<R: Wait>(
        &self,
        rt: &R,
        alloc: Global,
        seat: &mut Seat,
        message: &Message,
    ) -> Result<Note, Refusal<GateFault>>
        requires { IsSeatOf self.now seat.old }
        ensures same { IsSeatOf self.now seat.new }
        ensures later { floor_seen seat.old ≤ floor_seen seat.new }
        ensures call { Adds seat.old seat.new (call.Receive message.now) result }
        ensures floor { IfOk result (λ note. version_shown message.now note ≤ floor_seen seat.new) }
    {
        let (call, settled) = self.receive(rt, alloc, seat, message)?;
        let quiet = Settled {
            messages: settled.messages.with(message.port(), 0),
            ..settled
        };
        Ok(self.settle(seat, call, quiet))
    }

    // A message as an event, with the call that is to be kept in the seat.
    fn receive<R: Wait>(
        &self,
        rt: &R,
        alloc: Global,
        seat: &mut Seat,
        message: &Message,
    ) -> Result<(Option<NamedCall>, Settled), Refusal<GateFault>>
        requires { IsSeatOf self.now seat.old }
        ensures same { IsSeatOf self.now seat.new × (calls_of seat.new ≡ calls_of seat.old)
            × (floor_seen seat.new ≡ floor_seen seat.old) }
        ensures call { IfOk result (λ r. r.0 ≡ Some (call.Receive message.now)) }
        ensures room { OnOk result (vec_len seat.new.calls < vec_capacity seat.new.calls) }
        ensures floor { IfOk result (λ r. version_shown message.now r.1.note ≤ r.1.floor) }
    {
        let call = self.prepare(seat, Call::receive(message))?;
        let settled = self
            .inner
            .lock(rt)
            .locked
            .message(alloc, call.is_some(), message)?;
        Ok((call, settled))
    }

    /// The time of the question of this number is up: AuditFull, NoMemory.
    pub fn timeout<R: Wait>(
        &self,
        rt: &R,
        alloc: Global,
        seat: &mut Seat,
        seq: u64,
    ) -> Result<Note, Refusal<GateFault>>
        requires { IsSeatOf self.now seat.old }
        ensures same { IsSeatOf self.now seat.new }
        ensures later { floor_seen seat.old ≤ floor_seen seat.new }
        ensures call { Adds seat.old seat.new (call.Timeout seq) result }
    {
        let call = self.prepare(seat, Ok(Call::Timeout { seq }))?;
        let settled = self
            .inner
            .lock(rt)
            .locked
            .timeout(alloc, call.is_some(), seq)?;
        Ok(self.settle(seat, call, settled))
    }

    /// The service of a port is lost: AuditFull, NoMemory. Where the other port is connected, what was asked here is asked again
    /// there, for opens that have a rescan left; else every open that is held is answered by the mode.
    pub fn disconnect<R: Wait>(
        &self,
        rt: &R,
        alloc: Global,
        seat: &mut Seat,
        port: Port,
    ) -> Result<Note, Refusal<GateFault>>
        requires { IsSeatOf self.now seat.old }
        ensures same { IsSeatOf self.now seat.new }
        ensures later { floor_seen seat.old ≤ floor_seen seat.new }
        ensures call { Adds seat.old seat.new (call.Disconnect port) result }
    {
        let call = self.prepare(seat, Ok(Call::Disconnect { port }))?;
        let settled = self
            .inner
            .lock(rt)
            .locked
            .disconnect(alloc, call.is_some(), port)?;
        Ok(self.settle(seat, call, settled))
    }

    // Room in a seat for a call, and the call where there is the memory for both: AuditFull.
    fn prepare(
        &self,
        seat: &mut Seat,
        call: Result<NamedCall, AllocError>,
    ) -> Result<Option<NamedCall>, Refusal<GateFault>>
        requires { IsSeatOf self.now seat.old }
        ensures same { IsSeatOf self.now seat.new × (calls_of seat.new ≡ calls_of seat.old)
            × (floor_seen seat.new ≡ floor_seen seat.old) }
        ensures room { IfOk result (λ prepared. IfSome prepared
            (λ c. (vec_len seat.new.calls < vec_capacity seat.new.calls) × (call ≡ Ok c))) }
    {
        if seat.calls.len() as u64 >= self.limits.values().audit {
            return Err(Refusal::Fault(GateFault::AuditFull));
        }
        if seat.calls.reserve(1).is_err() {
            return Ok(None);
        }
        Ok(call.ok())
    }

    // Keeps an accepted call in its seat, shows the floor after it, and wakes who waits for what it gave out.
    fn settle(&self, seat: &mut Seat, prepared: Option<NamedCall>, settled: Settled) -> Note
        requires seat { IsSeatOf self.now seat.old }
        requires prepared { IsSome prepared }
        requires room { vec_len seat.old.calls < vec_capacity seat.old.calls }
        ensures same { IsSeatOf self.now seat.new }
        ensures later { floor_seen seat.old ≤ floor_seen seat.new }
        ensures floor { settled.floor ≤ floor_seen seat.new }
        ensures note { result ≡ settled.note }
        ensures call { IfSome prepared (λ c. calls_of seat.new
            ≡ calls_of seat.old ++ seat_call settled.place c settled.note ∷ []) }
    {
        let Some(call) = prepared else {
            unreachable!();
        };
        self.floor.raise(&mut seat.floor, settled.floor);
        if settled.answers > 0 {
            self.answered.notify_all();
        }
        self.sent.wake(settled.messages);
        seat.calls.push_reserved(SeatCall {
            place: settled.place,
            call,
            note: settled.note,
        });
        settled.note
    }

    /// Waits until a ticket of this gate shows its answer.
    pub fn wait<'t, R: Wait>(&self, rt: &R, ticket: &'t Ticket, note: &mut TicketNote) -> &'t Answer
        requires { IsNoteOf ticket.now note.old }
        ensures same { IsNoteOf ticket.entry.now note.new }
        ensures shown { note.new.note.known ≡ Some result.now }
        ensures known { (a : _) → note.old.note.known ≡ Some a → a ≡ result.now }
    {
        for _ in rt.forever() {
            let inner = self.inner.lock(rt);
            if let Some(answer) = ticket.poll(note) {
                return answer;
            }
            drop(self.answered.wait(rt, inner));
        }
        unreachable!()
    }

    /// Waits until a ticket of this gate shows its answer, or the gate is stopped: None where it is stopped and the ticket
    /// shows none.
    pub fn wait_or_stop<'t, R: Wait>(
        &self,
        rt: &R,
        ticket: &'t Ticket,
        note: &mut TicketNote,
    ) -> Option<&'t Answer>
        requires { IsNoteOf ticket.now note.old }
        ensures same { IsNoteOf ticket.entry.now note.new }
        ensures shown { IfSome result (λ answer. note.new.note.known ≡ Some answer.now) }
        ensures known { (a : _) → note.old.note.known ≡ Some a → IsSomeAnd result (λ answer. a ≡ answer.now) }
    {
        for _ in rt.forever() {
            let inner = self.inner.lock(rt);
            if let Some(shown) = ticket.poll(note) {
                return Some(shown);
            }
            if inner.is_stopped {
                return None;
            }
            drop(self.answered.wait(rt, inner));
        }
        unreachable!()
    }

    /// Whether a scanning service is connected at a port now.
    pub fn connected<R: Wait>(&self, rt: &R, port: Port) -> bool {
        self.inner.lock(rt).locked.connected(port)
    }

    /// The messages that wait to be sent to the service of a port, in their order. Where memory refuses, they stay.
    pub fn take_outgoing<R: Wait>(
        &self,
        rt: &R,
        alloc: Global,
        port: Port,
    ) -> Result<Vec<Message>, AllocError> {
        self.inner.lock(rt).locked.take_outgoing(alloc, port)
    }

    /// Waits for messages of a port and takes them out. None once the gate was stopped and none is left.
    pub fn wait_outgoing<R: Wait>(
        &self,
        rt: &R,
        alloc: Global,
        port: Port,
    ) -> Result<Option<Vec<Message>>, AllocError>
        ensures some { IfOk result (λ waited. IfSome waited (λ messages. messages.items ≢ [])) }
    {
        let mut inner = self.await_messages(rt, port);
        let messages = inner.locked.take_outgoing(alloc, port)?;
        Ok(if messages.is_empty() {
            None
        } else {
            Some(messages)
        })
    }

    /// Waits for messages of a port and leaves them: whether some wait. They don't once the gate was stopped and none is left. So
    /// a caller may take a lock of its own before it takes them out, and somebody else may have taken them by then.
    pub fn await_outgoing<R: Wait>(&self, rt: &R, port: Port) -> bool {
        self.await_messages(rt, port).locked.has_outgoing(port)
    }

    // Waits for messages of a port, or until the gate is stopped.
    fn await_messages<R: Wait>(&self, rt: &R, port: Port) -> MutexGuard<'_, Inner> {
        self.sent
            .at(port)
            .wait_while(rt, self.inner.lock(rt), |inner| {
                !inner.is_stopped && !inner.locked.has_outgoing(port)
            })
    }

    /// Ends the waits for messages of both ports, once those that wait were taken out, and the waits of `wait_or_stop`.
    pub fn stop<R: Wait>(&self, rt: &R) {
        self.inner.lock(rt).is_stopped = true;
        self.sent.wake_all();
        self.answered.notify_all();
    }

    /// Ends the gate at the end of a program: each open that is held is denied, and nobody hears of it.
    pub fn abandon(self) {
        let Gate {
            inner,
            answered: _,
            sent: _,
            floor: _,
            limits: _,
            alloc: _,
        } = self;
        let Inner {
            locked,
            is_stopped: _,
        } = inner.into_inner();
        locked.abandon();
    }
}

// Why a volume is not mounted where there is no memory.
fn without_memory(volume: &Volume) -> Refusal<BootSpent>
    ensures { Reads (Err result) (mount_of volume.now) }
{
    if volume.boot() == u64::MAX {
        Refusal::Fault(BootSpent)
    } else {
        Refusal::NoMemory
    }
}
