ghost use Rattle.std.specs.Prelude.{◌≡◌, true, OnOk};
ghost use Rattle.av_daemon.specs.Hearing.{guest_number, number_at};
ghost use Rattle.av_daemon.specs.Telling.{is_of_service};
ghost use Rattle.av_peers.specs.Clients.{IsSilent};

mod accepting;
mod asking;
mod greeting;
mod reading;
mod recording;
mod relaying;
mod reporting;
mod sending;
mod telling;
mod watching;

use crate::door::Door;
use crate::guarding::{Begun, Sizes};
use crate::keeping::Keeping;
use crate::log::Log;
use crate::names::Names;
use crate::recorder::{MOST_WAITING, Recorder};
use av_base::{Mode, Port, Version};
use av_guard::Guard;
use av_health::Counts;
use av_large::Large;
use av_log::LogEntry;
use av_peers::adopted::Adopted;
use av_peers::belief::Belief;
use av_peers::client::Client;
use av_peers::parts::Parts;
use av_peers::service::ServicePeer;
use av_peers::watches::Watches;
use av_status::Prefixed;
use av_turns::{Nth, Turns, Waits};
use mio::event::Event;
use mio::{Events, Poll};
use std::alloc::{AllocError, AllocFailed, Global};
use std::collections::{BTreeMap, VecDeque};
use std::fs::Files;
use std::io::Write;
use std::mem;
use std::net::Net;
use std::time::{Clock, Duration};

// The numbers of the doors, of the connections of the services at both ports and of those who wait at their door, of a service's second one, and of standard
// error. A client's is that which the guard gives it, and so many more.
pub const OPENS: u64 = 0;

pub const SERVICE: u64 = 1;

pub const CLAMD: u64 = 2;

const SERVING: u64 = 3;

const SPARE: u64 = 4;

const LOG: u64 = 5;

pub const STATUS: u64 = 6;

pub const PARTS: u64 = 7;

const RELAYING: u64 = 8;

const GUEST: u64 = 9;

const OTHER_GUEST: u64 = 10;

const FIRST: u64 = 11;

const PORTS: [Port; 2] = [Port::One, Port::Two];

const GUESTS: [Nth; 2] = [Nth::First, Nth::Second];

// How many are let in at a door before what came is read. Each wants two turns, to be heard and to be seen leaving, and there are no
// fewer of those: else those who come and go would take all places.
const AT_ONCE: usize = 2;

// How many clients have a turn at most, and how many asks leave the line, before the others are looked at again. What the service
// replied waits for so many turns, not for one of each client.
const TURNS: u64 = 8;

const ASKS: usize = 16;

// The most bytes of lines that wait for standard error, where the log doesn't go there.
const MOST_LINES: usize = 65_536;

// How many changes the system tells at a time, and how many bytes are read at a time.
const CHANGES: usize = 256;

const PIECE: usize = 65_536;

// How many bytes of a part are read at a time, at most: a small ask of another client waits for no more.
const RELAYED: usize = 8_192;

/// Why the guard ends.
#[derive(Clone, Copy, Debug, PartialEq, Eq)]
pub enum Stop {
    /// Memory was refused where nothing can be let go for it.
    Memory,
    /// The system does not tell what can be done.
    Device,
}

impl From<AllocError> for Stop {
    fn from(_error: AllocError) -> Stop {
        Stop::Memory
    }
}

impl<T: Drop> From<AllocFailed<T>> for Stop {
    fn from(_error: AllocFailed<T>) -> Stop {
        Stop::Memory
    }
}

/// The doors at which a guard lets others in.
#[derive(Drop)]
pub struct Entrance {
    pub poll: Poll,
    pub opens: Door,
    pub service: Door,
    /// To which the service comes once more, for contents in parts.
    pub parts: Option<Door>,
    pub clamd: Option<Door>,
    /// To which those come who want to know what the guard does.
    pub status: Option<Door>,
}

/// Who came to the guard's sockets. It does what the turns say: who is read, whose time is up, who is let in.
#[derive(Drop)]
pub struct Daemon<'a, R: Files> {
    rt: &'a R,
    alloc: Global,
    wait: Duration,
    // How long a service may answer none of its questions, where the other can be asked.
    patience: Duration,
    mode: Mode,
    doors: Entrance,
    // The services of both ports, and who waits at their door, by the numbers of their connections.
    services: BTreeMap<u64, ServicePeer>,
    clients: BTreeMap<u64, Client>,
    turns: Turns,
    // The second connection of the service, and the contents that are relayed over it, of at most so many bytes by the socket at which
    // their client came.
    parts: Option<Parts>,
    large: Large,
    most: Sizes,
    // Who wants to be told of a newer version.
    watches: Watches,
    // Since when a content has waited for its next bytes, or for its verdict.
    contents: Waits,
    // Clients that are not read until the second connection takes more, in their order.
    parked: VecDeque<u64>,
    // Those to which something is to be sent.
    sending: VecDeque<u64>,
    // More can be done at once.
    goes_on: bool,
    belief: Belief,
    // The version that grants, and since when.
    adopted: Adopted,
    keeping: Keeping<'a>,
    names: Names<'a>,
    // Since when it runs, how often it answered, and since when a service that has greeted is there.
    begun: Duration,
    counts: Counts,
    greeted: Option<Duration>,
    log: Prefixed<Log>,
    // What writes the log of decisions, where there is one.
    recorder: Option<Recorder<'a, R::File>>,
    buffer: Vec<u8>,
}

impl<'a, R: Files + Net + Clock> Daemon<'a, R> {
    /// Nobody yet, at these doors, with the version that was kept.
    pub fn new(
        rt: &'a R,
        alloc: Global,
        begun: Begun<'a>,
        doors: Entrance,
        kept: Version,
        recorder: Option<Recorder<'a, R::File>>,
    ) -> Result<Daemon<'a, R>, Stop> {
        let buffer = vec![in alloc; 0u8; PIECE]?;
        let Ok(now) = rt.monotonic() else {
            return Err(Stop::Device);
        };
        let asked = begun.asked;
        let belief = asked.belief(kept);
        let most = match &recorder {
            Some(recorder) if recorder.is_on_error() => MOST_WAITING,
            _ => MOST_LINES,
        };
        let mut log = Log::new(alloc, most)?;
        log.register(doors.poll.registry(), LOG);
        Ok(Daemon {
            rt,
            alloc,
            wait: asked.wait,
            patience: Duration::from_millis(millis(asked.wait) / 2),
            mode: asked.mode,
            doors,
            services: BTreeMap::new(alloc),
            clients: BTreeMap::new(alloc),
            turns: Turns::new(alloc, begun.most_clients, millis(asked.wait)),
            parts: None,
            large: Large::new(alloc),
            most: asked.most,
            watches: Watches::new(alloc),
            contents: Waits::new(alloc),
            parked: VecDeque::new(alloc),
            sending: VecDeque::new(alloc),
            goes_on: false,
            belief,
            adopted: Adopted::new(),
            keeping: Keeping::new(asked.state, kept),
            names: Names::new(asked.doors.names, asked.trust),
            begun: now,
            counts: Counts::new(),
            greeted: None,
            log: Prefixed::new(begun.program, log),
            recorder,
            buffer,
        })
    }

    /// Serves until that is no longer possible.
    pub fn run<E: Write>(&mut self, guard: &mut Guard, err: &mut E) -> Stop {
        let Ok(mut events) = Events::with_capacity(self.alloc, CHANGES) else {
            return Stop::Memory;
        };
        'passes: for _ in 0..u64::MAX {
            if let Err(stop) = self.pass(guard, &mut events, err) {
                return stop;
            }
        }
        Stop::Device
    }

    // Waits for what can be done, and does it.
    fn pass<E: Write>(
        &mut self,
        guard: &mut Guard,
        events: &mut Events,
        err: &mut E,
    ) -> Result<(), Stop> {
        let timeout = self.timeout(guard, self.now()?);
        if self.doors.poll.poll(events, timeout).is_err() {
            return Err(Stop::Device);
        }
        self.goes_on = false;
        'events: for event in events.iter() {
            self.note(event)?;
        }
        let now = self.now()?;
        self.end_late(guard, now)?;
        self.accept(guard, now)?;
        self.read_services(guard, now)?;
        self.read_parts(guard, now)?;
        self.adopt(guard.floor());
        self.serve(guard, now)?;
        self.ask_line(guard, now)?;
        self.make_room(guard, now)?;
        self.send(guard, now)?;
        if let Some(version) = self
            .keeping
            .keep(self.rt, self.alloc, guard.floor(), &mut self.log)
        {
            self.record(&LogEntry::Unkept(version));
        }
        self.write_lines(now, err);
        Ok(())
    }

    fn now(&self) -> Result<Duration, Stop> {
        match self.rt.monotonic() {
            Ok(now) => Ok(now),
            Err(_) => Err(Stop::Device),
        }
    }

    // How long nothing may be done, unless the system tells of a change: not at all where more can be done.
    fn timeout(&self, guard: &Guard, now: Duration) -> Option<Duration> {
        if self.goes_on || self.turns.ready() > 0 {
            return Some(Duration::ZERO);
        }
        let dues = [
            self.turns_due(),
            self.services_due(guard),
            self.contents_due(),
            self.parts_due(),
            self.lines_due(),
            self.doors.opens.next_try(now),
            self.doors.service.next_try(now),
            next_try(&self.doors.parts, now),
            next_try(&self.doors.clamd, now),
            next_try(&self.doors.status, now),
        ];
        let mut timeout: Option<Duration> = None;
        for due in dues {
            if let Some(due) = due {
                let left = due.saturating_sub(now);
                timeout = Some(timeout.unwrap_or(left).min(left));
            }
        }
        timeout
    }

    // When the turns have something that is late. Their times have no fractions of a millisecond, so it is a millisecond later.
    fn turns_due(&self) -> Option<Duration> {
        let due = self.turns.timer()?;
        Some(Duration::from_millis(due.saturating_add(1)))
    }

    // When a service was waited for too long.
    fn services_due(&self, guard: &Guard) -> Option<Duration> {
        let first = self.service_due(guard, Port::One);
        match (first, self.service_due(guard, Port::Two)) {
            (Some(first), Some(second)) => Some(first.min(second)),
            (Some(first), None) => Some(first),
            (None, second) => second,
        }
    }

    // When the service of a port was: to take what it is sent or to end a frame, or to answer where the other can be asked.
    fn service_due(&self, guard: &Guard, port: Port) -> Option<Duration> {
        let service = self.services.get(&connection_of(port))?;
        let since = match service.since() {
            Some(since) => Some(since.saturating_add(self.wait)),
            None => None,
        };
        if !guard.connected(port.other()) {
            return since;
        }
        match (since, service.asked.since()) {
            (Some(since), Some(asked)) => Some(since.min(asked.saturating_add(self.patience))),
            (None, Some(asked)) => Some(asked.saturating_add(self.patience)),
            (since, None) => since,
        }
    }

    // A change was told of a door or a connection.
    fn note(&mut self, event: &Event) -> Result<(), Stop> {
        let number = event.token().0 as u64;
        match number {
            OPENS => self.doors.opens.told(),
            SERVICE => self.doors.service.told(),
            CLAMD => told(&mut self.doors.clamd),
            STATUS => told(&mut self.doors.status),
            PARTS => told(&mut self.doors.parts),
            RELAYING => return self.note_parts(event),
            SERVING | SPARE => return self.note_service(number, event),
            GUEST => self.note_guest(Nth::First, event),
            OTHER_GUEST => self.note_guest(Nth::Second, event),
            LOG => self.log.writer.told(),
            _ => return self.note_client(number, event),
        }
        Ok(())
    }

    fn note_service(&mut self, connection: u64, event: &Event) -> Result<(), Stop> {
        let waits = match self.services.get_mut(&connection) {
            Some(service) => service.line.note(event),
            None => return Ok(()),
        };
        if waits {
            self.wants_to_send(connection)
        } else {
            Ok(())
        }
    }

    // A guest that takes no more is gone: it is waited for no longer.
    fn note_guest(&mut self, guest: Nth, event: &Event) {
        let is_closed = match self.services.get_mut(&guest_connection(guest)) {
            Some(service) => {
                let _ = service.line.note(event);
                service.line.is_closed()
            }
            None => false,
        };
        if is_closed {
            self.lose_guest(guest);
        }
    }

    fn note_client(&mut self, number: u64, event: &Event) -> Result<(), Stop> {
        let waits = match self.clients.get_mut(&number) {
            Some(client) => client.line.note(event),
            None => return Ok(()),
        };
        self.turns.told_readable(number.saturating_sub(FIRST))?;
        if waits {
            self.wants_to_send(number)
        } else {
            Ok(())
        }
    }

    // A connection is among those to which something is sent next.
    fn wants_to_send(&mut self, number: u64) -> Result<(), Stop>
        ensures silent { OnOk result (IsSilent self.old.clients.entries self.new.clients.entries) }
        ensures same { is_of_service number ≡ true → self.new.clients ≡ self.old.clients }
    {
        let was_sending = match number {
            SERVING | SPARE => match self.services.get_mut(&number) {
                Some(service) => mem::replace(&mut service.is_sending, true),
                None => true,
            },
            RELAYING => match &mut self.parts {
                Some(parts) => mem::replace(&mut parts.is_sending, true),
                None => true,
            },
            _ => match self.clients.get_mut(&number) {
                Some(client) => mem::replace(&mut client.is_sending, true),
                None => true,
            },
        };
        if !was_sending {
            self.sending.push_back(number)?;
        }
        Ok(())
    }
}

// The number of the connection of the service at a port.
fn connection_of(port: Port) -> u64
    ensures number { result ≡ number_at port }
    ensures service { is_of_service result ≡ true }
{
    match port {
        Port::One => SERVING,
        Port::Two => SPARE,
    }
}

// The number of the connection of one who waits at the services' door.
fn guest_connection(guest: Nth) -> u64
    ensures { result ≡ guest_number guest }
{
    match guest {
        Nth::First => GUEST,
        Nth::Second => OTHER_GUEST,
    }
}

// The place of the service at a port.
fn place_of(port: Port) -> Nth {
    match port {
        Port::One => Nth::First,
        Port::Two => Nth::Second,
    }
}

// The port of a place.
fn port_of(place: Nth) -> Port {
    match place {
        Nth::First => Port::One,
        Nth::Second => Port::Two,
    }
}

// Somebody came to a door, where there is such a door.
fn told(door: &mut Option<Door>) {
    if let Some(door) = door {
        door.told();
    }
}

// When it is tried again to let in who may wait at a door, where there is such a door.
fn next_try(door: &Option<Door>, now: Duration) -> Option<Duration> {
    match door {
        Some(door) => door.next_try(now),
        None => None,
    }
}

// A time as the turns have it.
fn millis(time: Duration) -> u64 {
    u64::try_from(time.as_millis()).unwrap_or(u64::MAX)
}
