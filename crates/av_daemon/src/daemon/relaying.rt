//! Contents that come in parts: they are relayed to the service as they come, over its second connection, and nothing of them is kept.

ghost use Rattle.std.specs.Prelude.{◌≡◌, OnOk};
ghost use Rattle.av_daemon.specs.Relaying.{held, waits_behind};
ghost use Rattle.av_daemon.specs.Telling.{AreTidings, connection_for};
ghost use Rattle.av_peers.specs.Clients.{IsSilent, IsTold};
ghost use Rattle.av_peers.specs.Told.{large_told};
ghost use Rattle.av_daemon.specs.Passing.{KeepsFilter};

use super::asking::Broken;
use super::sending::is_late;
use super::telling::Reply;
use super::{Daemon, FIRST, RELAYED, RELAYING, Stop, millis};
use av_arrival::TurnedAway;
use av_base::{ByteList, Refusal, Version};
use av_guard::Guard;
use av_large::{Begun, Ending, LargeOut, ServicePresence, Told};
use av_log::LogEntry;
use av_parts::{Order, Said, Word, put_order};
use av_peers::client::{Open, Place};
use av_peers::line::Connection;
use av_peers::parts::{self, Parts, word_number};
use av_peers::service::Claim;
use av_peers::told::large_told;
use av_turns as turns;
use av_turns::{Left, Waits, Why};
use mio::event;
use mio::net::UnixStream;
use std::fs::Files;
use std::mem;
use std::net::Net;
use std::time::{Clock, Duration};

// How a content in parts begins.
#[derive(Drop)]
pub(super) struct Beginning {
    pub tag: u64,
    pub label: Option<ByteList>,
    // What came of it already.
    pub first: Option<Vec<u8>>,
}

// What an event of a content came to: an answer, or something was sent to the service.
#[derive(Clone, Copy)]
struct Event {
    client: u64,
    number: u64,
    told: Option<Told>,
    goes_on: bool,
}

fn event_of(client: u64, number: u64, given: &LargeOut<'_>) -> Event {
    Event {
        client,
        number,
        told: given.told,
        goes_on: given.order.is_some(),
    }
}

impl From<parts::Broken> for Broken {
    fn from(_broken: parts::Broken) -> Broken {
        Broken::Client
    }
}

impl<'a, R: Files + Net + Clock> Daemon<'a, R> {
    // ---- what clients send

    // A client begins a content, and its turn goes on unless the service takes no more.
    pub(super) fn begin_content(
        &mut self,
        guard: &mut Guard,
        client: u64,
        beginning: Beginning,
        now: Duration,
    ) -> Result<bool, Broken> {
        let Beginning { tag, label, first } = beginning;
        let goes_on = self.count(client, turns::Thing::Known, now)?;
        self.counts.asked();
        self.keep_note(client, tag, label, 0);
        self.waits(client);
        self.open_content(guard, client, tag, now)?;
        if let Some(some) = &first {
            self.bring(guard, client, some.as_slice(), now)?;
        }
        Ok(goes_on && !self.must_wait(client))
    }

    // The content has a number, or is answered at once.
    fn open_content(
        &mut self,
        guard: &mut Guard,
        client: u64,
        tag: u64,
        now: Duration,
    ) -> Result<(), Broken> {
        let service = if self.has_service(guard) {
            ServicePresence::Connected
        } else {
            ServicePresence::Away
        };
        let most = self.most_of(client);
        match self.large.begin(service, client, tag, most) {
            Ok(Begun::Sent { number }) => {
                self.put_open(client, tag, number);
                self.order(Some(Order::Begin { number }))?;
                self.contents.begin(number, millis(now))?;
                Ok(())
            }
            Ok(Begun::Answered(told)) => {
                self.put_open(client, tag, 0);
                self.tell_content(guard, told, now)?;
                Ok(())
            }
            Err(_) => Err(Broken::Client),
        }
    }

    // The most bytes of a content of this client.
    fn most_of(&self, client: u64) -> u64 {
        match self.clients.get(&client.saturating_add(FIRST)) {
            Some(who) if who.is_of_clamd() => self.most.streams,
            _ => self.most.contents,
        }
    }

    fn put_open(&mut self, client: u64, tag: u64, number: u64) {
        if let Some(who) = self.clients.get_mut(&client.saturating_add(FIRST)) {
            let count = 0;
            who.within = Some(Open { tag, number, count });
        }
    }

    // Some of the content came that a client is within.
    pub(super) fn bring(
        &mut self,
        guard: &mut Guard,
        client: u64,
        some: &[u8],
        now: Duration,
    ) -> Result<(), Stop> {
        let Some(who) = self.clients.get_mut(&client.saturating_add(FIRST)) else {
            return Ok(());
        };
        let Some(open) = &mut who.within else {
            return Ok(());
        };
        open.count = open.count.saturating_add(some.len() as u64);
        let number = open.number;
        let given = self.large.bring(client, some);
        let event = event_of(client, number, &given);
        self.order(given.order)?;
        self.settle_content(guard, event, now)
    }

    // The content ends that a client is within.
    pub(super) fn end_content(
        &mut self,
        guard: &mut Guard,
        client: u64,
        ending: Ending,
        now: Duration,
    ) -> Result<(), Stop> {
        let Some(who) = self.clients.get_mut(&client.saturating_add(FIRST)) else {
            return Ok(());
        };
        let Some(open) = who.within.take() else {
            return Ok(());
        };
        self.count_note(client, open);
        let given = self.large.end(client, ending);
        let event = event_of(client, open.number, &given);
        self.order(given.order)?;
        self.settle_content(guard, event, now)
    }

    // A client sends no more, and leaves a content without an end. It is told nothing of it.
    pub(super) fn break_off(&mut self, client: u64, now: Duration) -> Result<(), Stop> {
        let Some(who) = self.clients.get_mut(&client.saturating_add(FIRST)) else {
            return Ok(());
        };
        let Some(open) = who.within.take() else {
            return Ok(());
        };
        let given = self.large.end(client, Ending::GivenUp);
        if given.told.is_some() {
            who.forgive();
            let _ = who.notes.take(open.tag);
            self.contents.end(open.number);
            self.turns.answered(client, 0, millis(now))?;
        }
        self.order(given.order)
    }

    // The contents of a client that is gone are dropped.
    pub(super) fn drop_contents(&mut self, client: u64) -> Result<(), Stop>
        ensures { OnOk result (self.new.clients ≡ self.old.clients) }
    {
        let mut dropped = Vec::new(self.alloc);
        self.large.leave(client, &mut dropped)?;
        'contents: for number in dropped {
            self.contents.end(number);
            self.order(Some(Order::Drop { number }))?;
        }
        Ok(())
    }

    // ---- what comes of it

    // Hands on what an event of a content came to. One that is neither answered nor ended waits for its next bytes from now on, and one
    // that has ended for its verdict.
    fn settle_content(&mut self, guard: &mut Guard, event: Event, now: Duration) -> Result<(), Stop>
        ensures guard { OnOk result (KeepsFilter guard.old guard.new) }
        ensures told { OnOk result (AreTidings event.told self.old.mode self.old.clients.entries self.new.clients.entries) }
    {
        let client = event.client;
        let number = event.number;
        let goes_on = event.goes_on;
        if let Some(told) = event.told {
            self.is_answered(client, number);
            return self.tell_content(guard, told, now);
        }
        if goes_on {
            self.contents.begin(number, millis(now))?;
        }
        Ok(())
    }

    // An order for the service, if there is one, where its second connection is there.
    fn order(&mut self, order: Option<Order<'_>>) -> Result<(), Stop>
        ensures { OnOk result (self.new.clients ≡ self.old.clients) }
    {
        let Some(order) = order else {
            return Ok(());
        };
        let Some(parts) = &mut self.parts else {
            return Ok(());
        };
        match put_order(&mut parts.line.waiting, order) {
            Ok(()) => self.wants_to_send(RELAYING),
            Err(Refusal::Fault(_)) => Err(Stop::Device),
            Err(Refusal::NoMemory) => Err(Stop::Memory),
        }
    }

    fn tell_content(&mut self, guard: &mut Guard, told: Told, now: Duration) -> Result<(), Stop>
        ensures guard { OnOk result (KeepsFilter guard.old guard.new) }
        ensures told { OnOk result (IsTold (connection_for told.client) told.tag (large_told self.old.mode told.answer) self.old.clients.entries self.new.clients.entries) }
    {
        let reply = Reply {
            client: told.client,
            tag: told.tag,
            told: large_told(self.mode, told.answer),
        };
        self.tell(guard, reply, now)
    }

    // A content is waited for no more. What still comes of it is passed over.
    fn is_answered(&mut self, client: u64, number: u64)
        ensures silent { IsSilent self.old.clients.entries self.new.clients.entries }
        ensures mode { self.new.mode ≡ self.old.mode }
    {
        self.contents.end(number);
        let Some(who) = self.clients.get_mut(&client.saturating_add(FIRST)) else {
            return;
        };
        let Some(open) = who.within else {
            return;
        };
        if open.number == number {
            who.within = Some(Open { number: 0, ..open });
            self.count_note(client, open);
        }
    }

    // The line of the answer says how many bytes came, where there is a log.
    fn count_note(&mut self, client: u64, open: Open)
        ensures silent { IsSilent self.old.clients.entries self.new.clients.entries }
        ensures mode { self.new.mode ≡ self.old.mode }
    {
        let Some(who) = self.clients.get_mut(&client.saturating_add(FIRST)) else {
            return;
        };
        if let Some(mut note) = who.notes.take(open.tag) {
            note.bytes = open.count;
            let _ = who.notes.put(note);
        }
    }

    // ---- who is not read for now

    // Whether a client has to wait before more of its content is read: the service takes no more for now, or others wait already.
    pub(super) fn must_wait(&self, client: u64) -> bool {
        let Some(who) = self.clients.get(&client.saturating_add(FIRST)) else {
            return false;
        };
        let relays = match who.within {
            Some(open) => open.number > 0,
            None => false,
        };
        relays && (!self.has_room() || waits_behind(who.place, !self.parked.is_empty()))
    }

    // A client that was called has its turn.
    pub(super) fn is_served(&mut self, client: u64) {
        if let Some(who) = self.clients.get_mut(&client.saturating_add(FIRST)) {
            if who.place == Place::Called {
                who.place = Place::Free;
            }
        }
    }

    // What is left of what a client sent, once its turn is over. One that has to wait is read no further.
    pub(super) fn left_of(&mut self, client: u64) -> Result<Left, Broken> {
        let waits = self.must_wait(client);
        let Some(who) = self.clients.get_mut(&client.saturating_add(FIRST)) else {
            return Err(Broken::Client);
        };
        let left = who.left();
        if !waits {
            return Ok(left);
        }
        if who.place != Place::Parked {
            if self.parked.push_back(client).is_err() {
                return Err(Broken::Client);
            }
            who.place = Place::Parked;
            if let Some(open) = who.within {
                self.contents.end(open.number);
            }
        }
        Ok(held(left))
    }

    // Calls clients that wait, as many as the second connection has room for.
    pub(super) fn call_parked(&mut self, now: Duration) -> Result<(), Stop> {
        let mut room = match &self.parts {
            Some(parts) => parts.room(),
            None => usize::MAX,
        };
        'parked: for _ in 0..u64::MAX {
            if room == 0 {
                return Ok(());
            }
            let Some(client) = self.parked.pop_front() else {
                return Ok(());
            };
            room = room.saturating_sub(RELAYED);
            self.call(client, now)?;
        }
        Ok(())
    }

    // Whether the second connection takes more, or there is none to wait for.
    pub(super) fn has_room(&self) -> bool {
        match &self.parts {
            Some(parts) => !parts.is_full(),
            None => true,
        }
    }

    fn call(&mut self, client: u64, now: Duration) -> Result<(), Stop> {
        let Some(who) = self.clients.get_mut(&client.saturating_add(FIRST)) else {
            return Ok(());
        };
        who.place = Place::Called;
        if let Some(open) = who.within {
            if open.number > 0 {
                self.contents.begin(open.number, millis(now))?;
            }
        }
        self.turns.told_readable(client)?;
        Ok(())
    }

    // ---- the second connection

    // One that may be the service's second connection. It takes the place of one under a version that grants nothing here.
    pub(super) fn accept_parts(
        &mut self,
        guard: &mut Guard,
        stream: UnixStream,
        now: Duration,
    ) -> Result<(), Stop> {
        if let Some(parts) = &self.parts {
            if !parts.yields(guard.floor()) {
                return Ok(());
            }
            self.lose_parts(guard, now)?;
        }
        let mut line = Connection::new(self.alloc, stream, parts::LEAST);
        if line.register(self.doors.poll.registry(), RELAYING).is_ok() {
            self.parts = Some(Parts::new(line, now));
            self.goes_on = true;
        }
        Ok(())
    }

    // A change was told of it.
    pub(super) fn note_parts(&mut self, event: &event::Event) -> Result<(), Stop> {
        let waits = match &mut self.parts {
            Some(parts) => parts.line.note(event),
            None => return Ok(()),
        };
        if waits {
            self.wants_to_send(RELAYING)
        } else {
            Ok(())
        }
    }

    // Reads a piece of what the service says over it.
    pub(super) fn read_parts(&mut self, guard: &mut Guard, now: Duration) -> Result<(), Stop> {
        match &self.parts {
            Some(parts) if parts.line.may_read() => {}
            _ => return Ok(()),
        }
        let mut buffer = mem::replace(&mut self.buffer, Vec::new(self.alloc));
        let heard = self.hear_parts(guard, &mut buffer, now);
        self.buffer = buffer;
        match heard {
            Ok(()) => {}
            Err(Broken::Client) => return self.lose_parts(guard, now),
            Err(Broken::Guard(stop)) => return Err(stop),
        }
        if let Some(parts) = &self.parts {
            self.goes_on = self.goes_on || parts.line.may_read();
        }
        Ok(())
    }

    fn hear_parts(
        &mut self,
        guard: &mut Guard,
        buffer: &mut Vec<u8>,
        now: Duration,
    ) -> Result<(), Broken> {
        let Some(parts) = &mut self.parts else {
            return Ok(());
        };
        let count = parts.read(buffer)?;
        let piece = buffer.get(..count).unwrap_or(b"".as_slice());
        let mut taken = 0usize;
        'words: for _ in 0..u64::MAX {
            let rest = piece.get(taken..).unwrap_or(b"".as_slice());
            let Some(parts) = &mut self.parts else {
                break;
            };
            if rest.is_empty() {
                break;
            }
            let (count, said) = parts.hear(rest)?;
            taken = taken.saturating_add(count);
            if let Some(said) = &said {
                self.take_said(guard, said, now)?;
            }
        }
        Ok(())
    }

    fn take_said(&mut self, guard: &mut Guard, said: &Said, now: Duration) -> Result<(), Broken> {
        match said {
            Said::Hello { version } => self.greet_parts(guard, *version),
            Said::Of(word) => self.take_word(guard, word, now),
        }
    }

    // It greets, under a set of this version. One that is not believed is closed.
    fn greet_parts(&mut self, guard: &mut Guard, version: Version) -> Result<(), Broken> {
        let floor = guard.floor();
        let refused = self.belief.refusal(&Claim::Greeting(version), floor);
        let entry = match &refused {
            None => LogEntry::PartsConnected(version),
            Some(TurnedAway::Above(most)) => LogEntry::Above {
                version,
                most: *most,
            },
            Some(TurnedAway::Older(least)) => LogEntry::PartsOlder {
                version,
                least: *least,
            },
            Some(_) => return Err(Broken::Client),
        };
        self.happened(&entry);
        if refused.is_some() || self.large.greet(floor, version).is_err() {
            return Err(Broken::Client);
        }
        Ok(())
    }

    // A word of a content. What is said of none that was sent is no word: the connection is closed.
    fn take_word(&mut self, guard: &mut Guard, word: &Word, now: Duration) -> Result<(), Broken> {
        match self.large.hear(guard.floor(), *word) {
            Ok(Some(told)) => {
                self.is_answered(told.client, word_number(word));
                self.tell_content(guard, told, now)?;
                Ok(())
            }
            Ok(None) => Ok(()),
            Err(_) => Err(Broken::Client),
        }
    }

    // Sends what waits for it. One for which more waits than may is given up.
    pub(super) fn send_to_parts(&mut self, guard: &mut Guard, now: Duration) -> Result<(), Stop> {
        let Some(parts) = &mut self.parts else {
            return Ok(());
        };
        parts.is_sending = false;
        let stands = parts.line.send(now);
        if !stands || parts.is_spent() {
            return self.lose_parts(guard, now);
        }
        Ok(())
    }

    // It is gone: each content without an answer is told so, and who waited for it is read again.
    pub(super) fn lose_parts(&mut self, guard: &mut Guard, now: Duration) -> Result<(), Stop>
        ensures guard { OnOk result (KeepsFilter guard.old guard.new) }
    {
        if self.parts.is_none() {
            return Ok(());
        }
        self.parts = None;
        if self.large.takes_parts() {
            self.happened(&LogEntry::PartsLost);
        }
        let mut told = Vec::new(self.alloc);
        self.large.lose(&mut told)?;
        self.contents = Waits::new(self.alloc);
        'contents: for told in told {
            self.is_lost(told.client);
            self.tell_content(guard, told, now)?;
        }
        self.call_parked(now)
    }

    // The content that a client is within was answered, whatever its number.
    fn is_lost(&mut self, client: u64) {
        let open = match self.clients.get(&client.saturating_add(FIRST)) {
            Some(who) => who.within,
            None => None,
        };
        if let Some(open) = open {
            self.is_answered(client, open.number);
        }
    }

    // ---- what is waited for too long

    // Ends the contents that waited too long: for their next bytes, or for their verdicts. In the last case the connection is of no use,
    // nor is one that takes nothing or does not greet.
    pub(super) fn end_late_contents(
        &mut self,
        guard: &mut Guard,
        now: Duration,
    ) -> Result<(), Stop> {
        'late: for _ in 0..u64::MAX {
            let Some(number) = self.contents.late(millis(self.wait), millis(now)) else {
                break;
            };
            self.end_late_content(guard, number, now)?;
        }
        let since = match &self.parts {
            Some(parts) => parts.since(),
            None => None,
        };
        if is_late(since, now, self.wait) {
            self.lose_parts(guard, now)
        } else {
            Ok(())
        }
    }

    fn end_late_content(
        &mut self,
        guard: &mut Guard,
        number: u64,
        now: Duration,
    ) -> Result<(), Stop> {
        if self.large.owes(number) {
            return self.lose_parts(guard, now);
        }
        let Some(client) = self.large.client_of(number) else {
            return Ok(());
        };
        let is_of_clamd = match self.clients.get(&client.saturating_add(FIRST)) {
            Some(who) => who.is_of_clamd(),
            None => false,
        };
        if is_of_clamd {
            self.turns.closed(client);
            return self.close(guard, client, Why::SaidNothing, now);
        }
        let given = self.large.late(client);
        let event = event_of(client, number, &given);
        self.order(given.order)?;
        self.settle_content(guard, event, now)
    }

    // When a content has waited too long. The times have no fractions of a millisecond, so it is a millisecond later.
    pub(super) fn contents_due(&self) -> Option<Duration> {
        let due = self.contents.due(millis(self.wait))?;
        Some(Duration::from_millis(due.saturating_add(1)))
    }

    // When the second connection was waited for too long.
    pub(super) fn parts_due(&self) -> Option<Duration> {
        let since = self.parts.as_ref()?.since()?;
        Some(since.saturating_add(self.wait))
    }
}

// Whether a client waits behind others, where some wait.
fn waits_behind(place: Place, others_wait: bool) -> bool
    ensures { result ≡ waits_behind place others_wait }
{
    match place {
        Place::Free => others_wait,
        Place::Parked => true,
        Place::Called => false,
    }
}

// What is left of what a client sent that is read no further.
fn held(left: Left) -> Left
    ensures { result ≡ held left }
{
    match left {
        Left::Nothing => Left::Held { held: 0 },
        Left::Whole { held } | Left::Part { held, .. } | Left::Held { held } => Left::Held { held },
    }
}
