ghost use Rattle.std.specs.Prelude.{◌≡◌, ◌≤◌, ◌<◌, ◌↔◌, length, Ok, Err, IsOk, IfOk, IfErr, OnOk, OnErr, IsTrue, MatchBool, ◌≢◌, ◌-◌, []};
ghost use Rattle.av_base.specs.Answers.{Answers, Reads};
ghost use Rattle.av_base.specs.declared.refusal.Refusal.TheVariants.{Fault};
ghost use Rattle.av_filter.specs.Conduct.{Changes, CleansUp, Disconnects, Opens, Receives, TimesOut};
ghost use Rattle.av_filter.specs.declared.note.Note.TheVariants.{Submitted};
ghost use Rattle.av_filter_table.specs.Ports.{is_open};
ghost use Rattle.av_gate.specs.Book.{happens, opening, sent_at, settled_of, state_of, stream_of, taken_to, waiting_of};
ghost use Rattle.av_gate.specs.Claims.{IsLegal, Stands};
ghost use Rattle.av_gate.specs.Calls.{event_of};
ghost use Rattle.av_gate.specs.Versions.{version_shown};
ghost use Rattle.av_gate.specs.declared.fault.GateFault.TheVariants.{AuditFull};
ghost use Rattle.av_pend.specs.Pend.{open_of};
ghost use Rattle.av_store.specs.Files.{Write};
ghost use Rattle.av_store.specs.Store.{mount_of};

use crate::answer_place::AnswerPlace;
use crate::audit::Audit;
use crate::call::Event;
use crate::copying::{count_each, messages_of, quiet_ones};
use crate::entry::GateEntry;
use crate::fault::GateFault;
use crate::happening::happen;
use crate::naming::stream_of;
use crate::port_counts::PortCounts;
use crate::settled::Settled;
use av_base::{ByteList, Limits, Mode, OpenId, Port, Refusal, Refused, Version};
use av_ends::{Due, Receipt, Ticket};
use av_filter::laws::audits_answer_once;
use av_filter::{FilterFault, Mounted};
use av_frame::Message;
use av_pend::Answer;
use av_store::{BootSpent, Volume};
use std::alloc::{AllocError, Global};
use std::collections::BTreeMap;
use std::marker::Model;

/// The filter and its volume as they lie under a gate's lock, with the audit of all that happened to them. Contracts see the
/// audit alone: filter and volume are where it leads.
pub struct Locked {
    start: Volume,
    mode: Mode,
    limits: Limits,
    mounted: Mounted,
    events: Vec<GateEntry>,
    // Of how many events the messages of each port were taken out.
    sent: PortCounts,
    // The other ends of the tickets whose opens wait, by their opens' numbers.
    owed: BTreeMap<u64, Due>,
    // Where each open's answer stands, by the order of the opens. No contract sees it: what is found there is looked at.
    places: Vec<AnswerPlace>,
}

impl Model for Locked {
    ghost use Rattle.av_filter.specs.declared.note.Note.TheVariants.{Submitted};
    ghost use Rattle.av_gate.specs.Book.{Book, IsKept};

    ghost Value = { Book };

    ghost view = { λ s. record { start = s.start; mode = s.mode; limits = s.limits; events = s.events.items; sent = s.sent } };

    ghost invariant = { λ s.
        IsKept (record { start = s.start; mode = s.mode; limits = s.limits; events = s.events.items; sent = s.sent })
        s.mounted.table s.mounted.volume };
}

impl Locked {
    /// A filter mounted on this volume, and no event yet: BootSpent, NoMemory, the volume handed back. The volume is copied,
    /// since an audit begins with it.
    pub fn new(
        alloc: Global,
        volume: Volume,
        mode: Mode,
        limits: Limits,
    ) -> Result<Locked, Refused<Volume, BootSpent>>
        ensures ok { IfOk result (λ s. (s ≡ opening s.start mode limits) × (mount_of volume ≡ Ok (s.start.boot, s.start))) }
        ensures back { IfErr result (λ e. e.value ≡ volume) }
        ensures why { IfErr result (λ e. Reads (Err e.why) (mount_of volume)) }
    {
        let mut start = match copy_to_mount(&volume) {
            Ok(start) => start,
            Err(why) => return Err(Refused { value: volume, why }),
        };
        let mounted = match Mounted::mount(alloc, volume, mode, limits) {
            Ok(mounted) => mounted,
            Err(refused) => return Err(refused),
        };
        mount_again(&mut start);
        Ok(Locked {
            start,
            mode,
            limits,
            mounted,
            events: Vec::new(alloc),
            sent: PortCounts::none(),
            owed: BTreeMap::new(alloc),
            places: Vec::new(alloc),
        })
    }

    /// A stream is opened, and no version below `least` may grant it: AuditFull, OpensSpent, NoMemory.
    #[tactic(auto, unfolding(av_filter::specs::Conduct::filter_refusal))]
    pub fn open(
        &mut self,
        alloc: Global,
        has_room: bool,
        name: &[u8],
        least: Version,
    ) -> Result<(Ticket, Settled), Refusal<GateFault>>
        ensures event { Answers self.old self.new (settled_of result)
            (happens self.old (Opens (stream_of self.old.start name.now) least)) }
        ensures ticket { IfOk result (λ r. (r.1.note ≡ Submitted r.0.open_id) × (r.0.least ≡ least)) }
        ensures room { OnOk result (IsTrue has_room) }
    {
        self.has_place()?;
        if self.mounted.volume().opens_left() == 0 {
            return Err(Refusal::Fault(GateFault::Filter(FilterFault::OpensSpent)));
        }
        let stream = stream_of(&self.start, name);
        let open_id = OpenId::new(self.mounted.volume().opens() + 1);
        let ticket = self.owe(alloc, open_id, least)?;
        match self.add(alloc, has_room, Event::Open { stream, least }) {
            Ok(settled) => Ok((ticket, settled)),
            Err(why) => {
                let _ = self.owed.remove(&open_id.get());
                let _ = self.places.pop();
                Err(why)
            }
        }
    }

    /// Bytes are written over those of a stream from `offset` on: AuditFull, the volume's faults, NoMemory.
    #[tactic(auto, unfolding(av_filter::specs::Conduct::filter_refusal, av_store::specs::Seen::change_of))]
    pub fn write(
        &mut self,
        alloc: Global,
        has_room: bool,
        name: &[u8],
        offset: u64,
        bytes: &[u8],
    ) -> Result<Settled, Refusal<GateFault>>
        ensures event { Answers self.old self.new result
            (happens self.old (Changes (Write (stream_of self.old.start name.now) offset bytes.now))) }
        ensures room { OnOk result (IsTrue has_room) }
    {
        self.has_place()?;
        let stream = stream_of(&self.start, name);
        if let Some(fault) = self.mounted.volume().write_refusal(stream, offset, bytes) {
            return Err(Refusal::Fault(GateFault::Filter(FilterFault::Store(fault))));
        }
        let bytes = ByteList::copied(alloc, bytes)?;
        let event = Event::Write {
            stream,
            offset,
            bytes,
        };
        self.add(alloc, has_room, event)
    }

    /// The last of those who wrote to a stream has closed it: AuditFull, NoMemory.
    #[tactic(auto, unfolding(av_filter::specs::Conduct::filter_refusal))]
    pub fn cleanup(
        &mut self,
        alloc: Global,
        has_room: bool,
        name: &[u8],
    ) -> Result<Settled, Refusal<GateFault>>
        ensures event { Answers self.old self.new result (happens self.old (CleansUp (stream_of self.old.start name.now))) }
        ensures room { OnOk result (IsTrue has_room) }
    {
        self.has_place()?;
        let stream = stream_of(&self.start, name);
        self.add(alloc, has_room, Event::Cleanup { stream })
    }

    /// A message of the scanning service comes: AuditFull, NoMemory.
    #[tactic(auto, using(crate::proofs::VersionLemmas::shown_if), unfolding(av_filter::specs::Conduct::filter_refusal))]
    pub fn message(
        &mut self,
        alloc: Global,
        has_room: bool,
        message: &Message,
    ) -> Result<Settled, Refusal<GateFault>>
        ensures event { Answers self.old self.new result (happens self.old (Receives message.now)) }
        ensures floor { IfOk result (λ s. version_shown message.now s.note ≤ s.floor) }
        ensures room { OnOk result (IsTrue has_room) }
    {
        self.has_place()?;
        let message = message.clone()?;
        self.add(alloc, has_room, Event::Receive { message })
    }

    /// The time of the question of this number is up: AuditFull, NoMemory.
    #[tactic(auto, unfolding(av_filter::specs::Conduct::filter_refusal))]
    pub fn timeout(
        &mut self,
        alloc: Global,
        has_room: bool,
        seq: u64,
    ) -> Result<Settled, Refusal<GateFault>>
        ensures event { Answers self.old self.new result (happens self.old (TimesOut seq)) }
        ensures room { OnOk result (IsTrue has_room) }
    {
        self.has_place()?;
        self.add(alloc, has_room, Event::Timeout { seq })
    }

    /// The service of a port is lost: AuditFull, NoMemory.
    #[tactic(auto, unfolding(av_filter::specs::Conduct::filter_refusal))]
    pub fn disconnect(
        &mut self,
        alloc: Global,
        has_room: bool,
        port: Port,
    ) -> Result<Settled, Refusal<GateFault>>
        ensures event { Answers self.old self.new result (happens self.old (Disconnects port)) }
        ensures room { OnOk result (IsTrue has_room) }
    {
        self.has_place()?;
        self.add(alloc, has_room, Event::Disconnect { port })
    }

    // An event that nothing but memory refuses happens, and is kept.
    fn add(
        &mut self,
        alloc: Global,
        has_room: bool,
        event: Event,
    ) -> Result<Settled, Refusal<GateFault>>
        requires { IsOk (happens self.old (event_of event)) }
        ensures event { Answers self.old self.new result (happens self.old (event_of event)) }
        ensures room { OnOk result (IsTrue has_room) }
    {
        if !has_room || self.events.reserve(1).is_err() {
            return Err(Refusal::NoMemory);
        }
        let Some(out) = happen(&mut self.mounted, alloc, &event) else {
            return Err(Refusal::NoMemory);
        };
        let settled = Settled {
            place: self.events.len(),
            note: out.note,
            floor: self.mounted.filter().floor(),
            answers: out.answers.len(),
            messages: count_each(out.messages.as_slice()),
        };
        let before = self.start.opens();
        show(&mut self.owed, out.answers.as_slice());
        place(
            &mut self.places,
            before,
            settled.place,
            out.answers.as_slice(),
        );
        self.events.push_reserved(GateEntry::new(event, out));
        Ok(settled)
    }

    // A ticket for the open of this number, whose answer is owed from now on and has room for its place.
    fn owe(&mut self, alloc: Global, open_id: OpenId, least: Version) -> Result<Ticket, AllocError>
        ensures same { self.new ≡ self.old }
        ensures ticket { IfOk result (λ t. (t.open_id ≡ open_id) × (t.least ≡ least)) }
    {
        self.places.reserve(1)?;
        let (ticket, due) = Ticket::new(alloc, open_id, least)?;
        match self.owed.insert(open_id.get(), due) {
            Ok(_) => {
                self.places.push_reserved(AnswerPlace::NOWHERE);
                Ok(ticket)
            }
            Err(_) => Err(AllocError),
        }
    }

    // AuditFull, where the audit is as long as it may get.
    fn has_place(&self) -> Result<(), Refusal<GateFault>>
        ensures ok { OnOk result (length self.now.events < self.now.limits.audit) }
        ensures err { IfErr result (λ why. (why ≡ Fault AuditFull) × (self.now.limits.audit ≤ length self.now.events)) }
    {
        if self.events.len() as u64 >= self.limits.values().audit {
            return Err(Refusal::Fault(GateFault::AuditFull));
        }
        Ok(())
    }

    /// The messages of a port that wait, in their order; those of the other port stay. Where memory refuses, all do.
    pub fn take_outgoing(&mut self, alloc: Global, port: Port) -> Result<Vec<Message>, AllocError>
        ensures ok { IfOk result (λ ms. ms.items ≡ waiting_of port self.old) }
        ensures after { OnOk result (self.new ≡ taken_to port (length self.old.events) self.old) }
        ensures err { OnErr result (self.new ≡ self.old) }
    {
        let sent = self.sent.at(port);
        let messages = messages_of(alloc, &self.events[sent..], port)?;
        self.sent = self.sent.with(port, self.events.len());
        Ok(messages)
    }

    /// Whether a message of a port waits. Events that sent none there are passed over for good, so that none is looked at twice.
    pub fn has_outgoing(&mut self, port: Port) -> bool
        ensures told { MatchBool result (waiting_of port self.old ≢ []) (waiting_of port self.old ≡ []) }
        ensures sent { self.new ≡ taken_to port (sent_at port self.new) self.old }
        ensures waiting { waiting_of port self.new ≡ waiting_of port self.old }
    {
        let sent = self.sent.at(port);
        let next = sent + quiet_ones(&self.events[sent..], port);
        self.sent = self.sent.with(port, next);
        next < self.events.len()
    }

    /// The volume as the mount left it.
    pub fn start(&self) -> &Volume
        ensures { result.now ≡ self.now.start }
    {
        &self.start
    }

    /// The events so far, in their order.
    pub fn events(&self) -> &[GateEntry]
        ensures { result.now ≡ self.now.events }
    {
        self.events.as_slice()
    }

    /// Whether a scanning service is connected at a port.
    pub fn connected(&self, port: Port) -> bool
        ensures { result ≡ is_open port (state_of self.now).table.connected }
    {
        self.mounted.filter().connected(port)
    }

    /// Whether a question runs.
    pub fn is_asking(&self) -> bool
        ensures { MatchBool result ((state_of self.now).table.questions ≢ []) ((state_of self.now).table.questions ≡ []) }
    {
        self.mounted.filter().question_count() > 0
    }

    /// Whether a receipt's answer is its open's one answer in the audit. It looks at one place: no audit answers an open twice.
    pub fn stands(&self, receipt: &Receipt) -> bool
        ensures { IsTrue result → Stands self.now.events receipt.now }
    {
        audits_answer_once();
        let before = self.start.opens();
        let Some(place) = self.places.get(order_of(receipt.open_id, before)) else {
            return false;
        };
        let Some(entry) = self.events.get(place.event) else {
            return false;
        };
        let Some(answer) = entry.answers().get(place.answer) else {
            return false;
        };
        is_told(answer, receipt)
    }

    /// Ends it, and gives its audit. Opens that are held are denied, and nobody hears of it.
    pub fn into_audit(self) -> Audit
        ensures audit { (result.volume ≡ self.start) × (result.mode ≡ self.mode) × (result.limits ≡ self.limits)
            × (result.events.items ≡ self.events) }
        ensures legal { IsLegal result }
    {
        let Locked {
            start,
            mode,
            limits,
            mounted,
            events,
            sent: _,
            owed: _,
            places: _,
        } = self;
        let _volume = mounted.abandon();
        Audit {
            volume: start,
            mode,
            limits,
            events,
        }
    }

    /// Ends it at the end of a program: each open that is held is denied, and nobody hears of it.
    pub fn abandon(self) {
        let Locked {
            start: _,
            mode: _,
            limits: _,
            mounted,
            events: _,
            sent: _,
            owed: _,
            places: _,
        } = self;
        let _volume = mounted.abandon();
    }
}

// Shows each answer in the cell of its open. It takes no memory.
fn show(owed: &mut BTreeMap<u64, Due>, answers: &[Answer]) {
    for answer in answers {
        if let Some(due) = owed.remove(&answer.open_id().get()) {
            due.show(*answer);
        }
    }
}

// Keeps where the answers of an event stand. It takes no memory.
fn place(places: &mut Vec<AnswerPlace>, before: u64, event: usize, answers: &[Answer]) {
    for (i, answer) in answers.iter().enumerate() {
        if let Some(place) = places.get_mut(order_of(answer.open_id(), before)) {
            *place = AnswerPlace { event, answer: i };
        }
    }
}

// How many opens came before this one, where so many numbers were given before the first.
fn order_of(open_id: OpenId, before: u64) -> usize
    ensures { result ≡ open_id - before - 1 }
{
    open_id.get().saturating_sub(before).saturating_sub(1) as usize
}

// Whether an answer is the receipt's, and to its open.
fn is_told(answer: &Answer, receipt: &Receipt) -> bool
    ensures { IsTrue result ↔ (open_of answer.now ≡ receipt.now.open_id) × (answer.now ≡ receipt.now.answer) }
{
    answer.open_id() == receipt.open_id && *answer == receipt.answer
}

// A copy of a volume that can be mounted.
fn copy_to_mount(volume: &Volume) -> Result<Volume, Refusal<BootSpent>>
    ensures ok { IfOk result (λ v. v ≡ volume.now) }
    ensures can { OnOk result (IsOk (mount_of volume.now)) }
    ensures why { IfErr result (λ why. Reads (Err why) (mount_of volume.now)) }
{
    if volume.boot() == u64::MAX {
        return Err(Refusal::Fault(BootSpent));
    }
    Ok(volume.copy()?)
}

// The next boot of a volume that can be mounted.
fn mount_again(volume: &mut Volume)
    requires { IsOk (mount_of volume.old) }
    ensures { mount_of volume.old ≡ Ok (volume.new.boot, volume.new) }
{
    match volume.mount() {
        Ok(_) => {}
        Err(_) => unreachable!(),
    }
}
