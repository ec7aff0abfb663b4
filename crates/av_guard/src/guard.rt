ghost use Rattle.std.specs.Prelude.{◌≡◌, ◌+◌, ◌^◌, length, None, Some, IfOk, IfErr, OnErr, OnOk, ◌<◌, IsErr, map};
ghost use Rattle.std.specs.BTreeMap.{is_at};
ghost use Rattle.std.specs.Set.{remove_key};
ghost use Rattle.std.specs.Ordering.{nat_cmp};
ghost use Rattle.av_filter.specs.Once.{times};
ghost use Rattle.av_filter.specs.Conduct.{Disconnects, Receives, TimesOut};
ghost use Rattle.av_guard.specs.Asking.{AskedNow, GivesNothing, HasQuestion, Refuses, Takes, bytes_kept, class_of, is_crowded, opens, place_of, refusal_of};
ghost use Rattle.av_guard.specs.Class.{IsTold, class_by, class_in, has_verdict, is_busy_with, may_ask};
ghost use Rattle.av_guard.specs.Room.{IsFree, LetsGo, RoomOf};
ghost use Rattle.av_guard.specs.declared.class.Class.TheVariants.{Asked, Known};
ghost use Rattle.av_guard.specs.Kept.{AsksNew, IsKeptBy};
ghost use Rattle.av_guard.specs.Beginning.{Joins, NotBegun, begun};
ghost use Rattle.av_guard.specs.Place.{IsPlace, Unused};
ghost use Rattle.av_filter_table.specs.Ports.{is_open};
ghost use Rattle.av_filter_table.specs.Table.{has_room};
ghost use Rattle.av_guard.specs.State.{LosesService, Turns, happens};
ghost use Rattle.av_guard.specs.Waiting.{ArePaired};
ghost use Rattle.av_guard.specs.Written.{AreWritten};
ghost use Rattle.av_store.specs.Store.{greatest};

use crate::beginning::{BOOTS, volume_before};
use crate::class::Class;
use crate::events::{disconnect, open, receive, remove, room_for_answers, time_out};
use crate::fault::{AskFault, SettingsFault};
use crate::given::GuardOut;
use crate::place::{Place, place_of as find_place};
use crate::settings::Settings;
use crate::settling::{enter, leave, settle};
use crate::shelf::{Oldest, Shelf};
use crate::waiter::Waiter;
use av_base::{LimitField, LimitValues, Limits, Port, Refusal, Refused, StreamId, Version};
use av_filter::Mounted;
use av_frame::Message;
use std::alloc::{AllocError, Global};
use std::collections::{BTreeMap, BTreeSet};
use std::hash::RandomState;
use std::marker::Model;

/// Filter and volume of a daemon, and who waits for which open. It holds opens that have no answer yet, so it can't be
/// dropped: `abandon` ends it.
pub struct Guard {
    mounted: Mounted,
    key: RandomState,
    keep: u64,
    clients: BTreeSet<u64>,
    last: u64,
    waiting: BTreeMap<u64, Waiter>,
    shelf: Shelf,
}

impl Model for Guard {
    ghost use Rattle.av_guard.specs.State.{State};
    ghost use Rattle.av_guard.specs.Sound.{IsSound};

    ghost Value = { State };

    ghost view = { λ g. record {
      table = g.mounted.table;
      volume = g.mounted.volume;
      key = g.key;
      keep = g.keep;
      clients = g.clients.keys;
      last = g.last;
      waiting = g.waiting.entries;
    } };

    ghost invariant = { λ g. IsSound g.key g.mounted.table g.mounted.volume g.waiting.entries g.shelf };
}

impl Guard {
    /// A guard of these settings: Questions, Boot, NoMemory. Nobody is there, and no service is connected. Most of its memory,
    /// that of the filter's cache, is taken here.
    pub fn new(alloc: Global, settings: Settings) -> Result<Guard, Refusal<SettingsFault>>
        ensures ok { IfOk result (λ g. g ≡ begun settings) }
        ensures boot { IfOk result (λ g. g.table.boot ≡ settings.boot) }
        ensures fault { IfErr result (λ e. NotBegun settings e) }
    {
        let values = LimitValues::greatest().with(LimitField::Questions, settings.questions);
        let limits = match Limits::check(values) {
            Ok(limits) => limits,
            Err(_) => return Err(Refusal::Fault(SettingsFault::Questions)),
        };
        if settings.boot < 1 || settings.boot > BOOTS {
            return Err(Refusal::Fault(SettingsFault::Boot));
        }
        let volume = volume_before(alloc, limits, settings.boot);
        let mounted = match Mounted::mount(alloc, volume, settings.mode, limits) {
            Ok(mounted) => mounted,
            Err(_) => return Err(Refusal::NoMemory),
        };
        Ok(Guard {
            mounted,
            key: settings.key,
            keep: settings.keep,
            clients: BTreeSet::new(alloc),
            last: 0,
            waiting: BTreeMap::new(alloc),
            shelf: Shelf::new(alloc),
        })
    }

    /// A client comes: its number, which no other had or will have; None where memory is refused, or 2^64 - 1 came. It costs
    /// the logarithm of their count.
    pub fn client(&mut self) -> Option<u64>
        ensures { Joins self.old self.new result }
    {
        let number = self.last.checked_add(1)?;
        match self.clients.insert(number) {
            Ok(_) => {
                self.last = number;
                Some(number)
            }
            Err(_) => None,
        }
    }

    /// A client leaves: it is told nothing more. Its questions go on, and their verdicts are kept. It takes no memory, and costs
    /// the logarithm of the count of clients.
    pub fn client_lost(&mut self, client: u64)
        ensures { self.new ≡ record self.old { clients = remove_key (is_at (nat_cmp client)) self.old.clients } }
    {
        let _ = self.clients.remove(&client);
    }

    /// What is known of a content. It takes no memory. It costs two looks at each byte of a content that is kept, one of a
    /// content that is not, and the logarithm of the count of contents.
    pub fn class(&self, content: &[u8]) -> Class
        ensures value { result ≡ class_of self.now content.now }
        ensures asked { result ≡ Asked → HasQuestion self.now content.now }
    {
        let _coherent = self.mounted.filter();
        self.class_at(&find_place(self.key, self.mounted.volume(), content))
    }

    /// An ask about a content: NoClient, TooLarge above 1,048,576 bytes, Busy, OpensSpent, Full, NoMemory, the content handed
    /// back. It is told in this call, or it waits for a verdict. A known content is always told. Busy is what a new content
    /// gets unless `may_ask`, and one that was asked about when no open more can be held. It costs what `class` does, and one
    /// copy of a content that is not kept yet.
    pub fn ask(
        &mut self,
        alloc: Global,
        client: u64,
        tag: u64,
        content: Vec<u8>,
    ) -> Result<GuardOut, Refused<Vec<u8>, AskFault>>
        ensures ok { IfOk result (λ given. (refusal_of self.old client content.items ≡ None)
            × Takes self.old self.new given client tag content.items) }
        ensures known { IfOk result
            (λ given. class_of self.old content.items ≡ Known → IsTold given client tag self.old.table.floor) }
        ensures asked { IfOk result (λ given. class_of self.old content.items ≡ Asked → GivesNothing given) }
        ensures err { IfErr result (λ e. Refuses self.old self.new client content.items e.why) }
        ensures back { IfErr result (λ e. e.value.items ≡ content.items) }
    {
        if !self.clients.contains(&client) {
            return refuse(content, Refusal::Fault(AskFault::NoClient));
        }
        if content.len() > 1_048_576 {
            return refuse(content, Refusal::Fault(AskFault::TooLarge));
        }
        let _coherent = self.mounted.filter();
        let place = find_place(self.key, self.mounted.volume(), content.as_slice());
        if self.is_busy(self.class_at(&place)) {
            return refuse(content, Refusal::Fault(AskFault::Busy));
        }
        match self.ask_at(alloc, client, tag, content.as_slice(), place) {
            Ok(given) => Ok(given),
            Err(why) => refuse(content, why),
        }
    }

    /// Whether a new content may be asked about: a question is free, an open more can be held, and the volume takes a stream
    /// more. It takes no memory.
    pub fn may_ask(&self) -> bool
        ensures { result ≡ may_ask self.now }
    {
        let limits = self.mounted.filter().limits().values();
        let asking = (self.mounted.filter().question_count() as u64) < limits.questions;
        let streams = self.mounted.volume().limits().values().streams;
        asking && self.has_room() && self.shelf.count() < streams
    }

    /// One step of making room: of more contents than are to be kept one is dropped that nobody waits for, the least lately
    /// asked for first. None when there is nothing to drop. Call it until then after each other event. It costs a
    /// logarithm of the count of contents.
    pub fn make_room(&mut self, alloc: Global) -> Result<Option<GuardOut>, AllocError>
        ensures { RoomOf self.old self.new result }
    {
        if !self.is_crowded() {
            return Ok(None);
        }
        match self.next_to_go() {
            Oldest::Idle(stream) => self.let_go(alloc, stream),
            Oldest::Later => Ok(Some(GuardOut::nothing(alloc))),
            Oldest::Nothing => Ok(None),
        }
    }

    /// Ends it: opens that wait are denied, and nobody hears of it.
    pub fn abandon(self) {
        let Guard {
            mounted,
            key: _,
            keep: _,
            clients: _,
            last: _,
            waiting: _,
            shelf: _,
        } = self;
        let _volume = mounted.abandon();
    }

    /// The floor: no version below it grants an ask.
    pub fn floor(&self) -> Version
        ensures { result ≡ self.now.table.floor }
    {
        self.mounted.filter().floor()
    }

    /// Whether a service is connected at this port. A question goes to the first port that has one.
    pub fn connected(&self, port: Port) -> bool
        ensures { result ≡ is_open port self.now.table.connected }
    {
        self.mounted.filter().connected(port)
    }

    /// How many questions run.
    pub fn question_count(&self) -> usize
        ensures { result ≡ length self.now.table.questions }
    {
        self.mounted.filter().question_count()
    }

    /// How many asks wait for a verdict, those of clients that have left among them: for each open that the filter holds one.
    pub fn waiting_count(&self) -> usize
        ensures count { result ≡ length self.now.waiting }
        ensures paired { ArePaired self.now.table.pended self.now.waiting }
    {
        self.waiting.len()
    }

    /// How many contents are kept, each in a stream that was written once.
    pub fn kept_count(&self) -> u64
        ensures count { result ≡ length self.now.volume.streams }
        ensures written { AreWritten self.now.key self.now.volume.streams }
    {
        self.shelf.count()
    }

    /// How many bytes these contents have.
    pub fn kept_bytes(&self) -> u64
        ensures { result ≡ bytes_kept self.now.volume }
    {
        self.shelf.bytes()
    }

    /// A message of the service of a port, which it may connect. It costs a logarithm for each answer, and the bytes of the content
    /// that it reads.
    pub fn message(&mut self, alloc: Global, message: &Message) -> Result<GuardOut, AllocError>
        ensures event { Turns self.old self.new result (happens self.old (Receives message.now)) }
    {
        let told = room_for_answers(alloc, self.mounted.filter())?;
        let out = receive(alloc, &mut self.mounted, message)?;
        let (clients, waiting) = (&self.clients, &mut self.waiting);
        Ok(settle(
            self.mounted.filter(),
            clients,
            waiting,
            &mut self.shelf,
            told,
            out,
        ))
    }

    /// The service of a port is lost. If the other port has one, the questions are asked again there, and an open that was asked
    /// again eight times is answered by the mode. Without another one every question ends, and every open is answered by the mode. It costs a
    /// logarithm for each.
    #[tactic(auto, using(crate::proofs::ServingLemmas::loses_service))]
    pub fn service_lost(&mut self, alloc: Global, port: Port) -> Result<GuardOut, AllocError>
        ensures event { Turns self.old self.new result (happens self.old (Disconnects port)) }
        ensures other { LosesService self.old.table self.old.volume port }
    {
        let told = room_for_answers(alloc, self.mounted.filter())?;
        let out = disconnect(alloc, &mut self.mounted, port)?;
        let (clients, waiting) = (&self.clients, &mut self.waiting);
        Ok(settle(
            self.mounted.filter(),
            clients,
            waiting,
            &mut self.shelf,
            told,
            out,
        ))
    }

    /// The time of the question of this number is up: its opens are answered by the mode, and the service is told to let it
    /// be. It costs a logarithm for each answer.
    pub fn time_up(&mut self, alloc: Global, seq: u64) -> Result<GuardOut, AllocError>
        ensures event { Turns self.old self.new result (happens self.old (TimesOut seq)) }
    {
        let told = room_for_answers(alloc, self.mounted.filter())?;
        let out = time_out(alloc, &mut self.mounted, seq)?;
        let (clients, waiting) = (&self.clients, &mut self.waiting);
        Ok(settle(
            self.mounted.filter(),
            clients,
            waiting,
            &mut self.shelf,
            told,
            out,
        ))
    }

    // A content comes to be kept under this name, which is free.
    fn keep_content(
        &mut self,
        alloc: Global,
        name: &[u8],
        content: &[u8],
    ) -> Result<StreamId, Refusal<AskFault>>
        requires small { length content.now < 2 ^ 63 }
        requires place { place_of self.old content.now ≡ Unused name.now }
        ensures kept { IsKeptBy self.old self.new name.now content.now result }
    {
        match self.mounted.volume().create_refusal(name) {
            Some(_) => return Err(Refusal::Fault(AskFault::Full)),
            None => {}
        }
        let bytes = content.len() as u64;
        let stream = StreamId::new(self.mounted.volume().last_created().get() + 1);
        match self.shelf.add(stream, bytes) {
            Ok(()) => {}
            Err(_) => return Err(Refusal::NoMemory),
        }
        match self.mounted.store(alloc, name, content) {
            Ok(stream) => Ok(stream),
            Err(_) => {
                self.shelf.remove(stream, bytes);
                Err(Refusal::NoMemory)
            }
        }
    }

    // A stream is opened for an ask.
    fn submit(
        &mut self,
        alloc: Global,
        stream: StreamId,
        client: u64,
        tag: u64,
    ) -> Result<GuardOut, AllocError>
        requires left { self.old.volume.opens < greatest }
        ensures { Turns self.old self.new result (opens self.old stream client tag) }
    {
        let told = match room_for_answers(alloc, self.mounted.filter()) {
            Ok(told) => told,
            Err(refused) => return Err(refused),
        };
        let number = self.mounted.volume().opens() + 1;
        let waiter = Waiter {
            client,
            tag,
            stream,
        };
        match enter(&mut self.waiting, &mut self.shelf, number, waiter) {
            Ok(()) => {}
            Err(refused) => return Err(refused),
        }
        match open(alloc, &mut self.mounted, stream) {
            Ok(out) => {
                self.shelf.touch(stream);
                let (clients, waiting) = (&self.clients, &mut self.waiting);
                Ok(settle(
                    self.mounted.filter(),
                    clients,
                    waiting,
                    &mut self.shelf,
                    told,
                    out,
                ))
            }
            Err(refused) => {
                let _ = leave(&mut self.waiting, &mut self.shelf, number);
                Err(refused)
            }
        }
    }

    // A content is asked about, for which a name is free.
    fn ask_new(
        &mut self,
        alloc: Global,
        client: u64,
        tag: u64,
        name: &[u8],
        content: &[u8],
    ) -> Result<GuardOut, Refusal<AskFault>>
        requires small { length content.now < 2 ^ 63 }
        requires left { self.old.volume.opens < greatest }
        requires place { place_of self.old content.now ≡ Unused name.now }
        ensures { AsksNew self.old self.new client tag name.now content.now result }
    {
        let stream = match self.keep_content(alloc, name, content) {
            Ok(stream) => stream,
            Err(why) => return Err(why),
        };
        match self.submit(alloc, stream, client, tag) {
            Ok(given) => Ok(given),
            Err(_) => Err(Refusal::NoMemory),
        }
    }

    // A content is asked about, which is in this place: OpensSpent, Full, NoMemory.
    fn ask_at(
        &mut self,
        alloc: Global,
        client: u64,
        tag: u64,
        content: &[u8],
        place: Place,
    ) -> Result<GuardOut, Refusal<AskFault>>
        requires small { length content.now < 2 ^ 63 }
        requires place { IsPlace place (place_of self.old content.now) }
        ensures { AskedNow self.old self.new client tag content.now result }
    {
        if self.mounted.volume().opens_left() == 0 {
            return Err(Refusal::Fault(AskFault::OpensSpent));
        }
        match place {
            Place::Nowhere => Err(Refusal::Fault(AskFault::Full)),
            Place::Kept { stream } => match self.submit(alloc, stream, client, tag) {
                Ok(given) => Ok(given),
                Err(_) => Err(Refusal::NoMemory),
            },
            Place::Free { name } => self.ask_new(alloc, client, tag, name.as_slice(), content),
        }
    }

    // The class of a content by its place.
    fn class_at(&self, place: &Place) -> Class
        ensures { result ≡ class_by self.now place.now }
    {
        match place {
            Place::Kept { stream } => self.class_in(*stream),
            Place::Free { .. } | Place::Nowhere => Class::New,
        }
    }

    // The class of a content that this stream has.
    fn class_in(&self, stream: StreamId) -> Class
        ensures { result ≡ class_in self.now stream }
    {
        if self.has_verdict(stream) {
            return Class::Known;
        }
        if self.shelf.waiting_for(stream) > 0 {
            return Class::Asked;
        }
        Class::New
    }

    // Whether the filter has a verdict of this stream under its floor.
    fn has_verdict(&self, stream: StreamId) -> bool
        ensures { result ≡ has_verdict self.now.table stream }
    {
        match self.mounted.filter().verdict_at(stream) {
            Some((version, _)) => version == self.mounted.filter().floor(),
            None => false,
        }
    }

    // Whether an ask of this class can't be taken now.
    fn is_busy(&self, class: Class) -> bool
        ensures { result ≡ is_busy_with self.now class }
    {
        match class {
            Class::Known => false,
            Class::Asked => !self.has_room(),
            Class::New => !self.may_ask(),
        }
    }

    // Whether an open more can be held.
    fn has_room(&self) -> bool
        ensures { result ≡ has_room self.now.table }
    {
        (self.mounted.filter().pended_count() as u64)
            < self.mounted.filter().limits().values().pended
    }

    // Whether more is kept than is to be, or the volume takes no stream more.
    fn is_crowded(&self) -> bool
        ensures { result ≡ is_crowded self.now }
    {
        self.keep < self.shelf.bytes()
            || self.mounted.volume().limits().values().streams <= self.shelf.count()
    }

    // A content is let go that nobody waits for.
    fn let_go(&mut self, alloc: Global, stream: StreamId) -> Result<Option<GuardOut>, AllocError>
        requires idle { times stream (map (λ e. e.1.stream) self.old.waiting) ≡ 0 }
        ensures { LetsGo self.old self.new stream result }
    {
        let told = match room_for_answers(alloc, self.mounted.filter()) {
            Ok(told) => told,
            Err(refused) => return Err(refused),
        };
        let Some(bytes) = self.mounted.volume().length(stream) else {
            return Ok(None);
        };
        match remove(alloc, &mut self.mounted, stream) {
            Ok(out) => {
                self.shelf.remove(stream, bytes);
                let (clients, waiting) = (&self.clients, &mut self.waiting);
                let shelf = &mut self.shelf;
                Ok(Some(settle(self.mounted.filter(), clients, waiting, shelf, told, out)))
            }
            Err(refused) => Err(refused),
        }
    }

    // The content to let go.
    fn next_to_go(&mut self) -> Oldest
        ensures same { self.new ≡ self.old }
        ensures idle { IsFree self.old.waiting result }
    {
        self.shelf.oldest()
    }
}

// A refused ask, with its content.
fn refuse(content: Vec<u8>, why: Refusal<AskFault>) -> Result<GuardOut, Refused<Vec<u8>, AskFault>>
    ensures back { IfErr result (λ e. (e.value.items ≡ content.items) × (e.why ≡ why)) }
    ensures refused { IsErr result }
{
    Err(Refused {
        value: content,
        why,
    })
}
