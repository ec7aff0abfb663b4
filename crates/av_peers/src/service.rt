ghost use Rattle.std.specs.Prelude.{ℕ, ◌≡◌, ◌≤◌, ◌∷◌, ◌++◌, [], false, length, take, is_some, None, IfOk, OnErr, OnOk};
ghost use Rattle.av_peers.specs.Service.{GivesMessage, HearsMore, IsGreetedAt, LeavesOff, SaysFirst, came, claimed, earlier, goes_on, is_outdated, named, unheard, waited_since};
ghost use Rattle.av_arrival.specs.Place.{passed_at};

use crate::asked::Asked;
use crate::line::{Came, Connection};
use av_arrival::Arriving;
use av_base::{Port, Version};
use av_frame::{Body, Feed, Message};
use std::alloc::Global;
use std::time::Duration;

// So many bytes may wait to go out before the next of its messages are read.
const MOST_WAITING: usize = 2_097_152;

/// A scanning service's connection.
#[derive(Drop)]
pub struct ServicePeer {
    pub line: Connection,
    feed: Feed,
    arriving: Arriving,
    /// The version of the set that it named last, 0 before.
    version: Version,
    /// What it was asked and has not answered.
    pub asked: Asked,
    // Its greeting, where that came and is still to be passed on.
    greeting: Option<Message>,
    /// It is among those to which something is sent next.
    pub is_sending: bool,
}

/// The connection is of no more use.
#[derive(Clone, Copy, Debug, PartialEq, Eq)]
pub struct Gone;

/// What a service said whole.
#[derive(Drop)]
pub struct Whole {
    /// The messages, in their order.
    pub messages: Vec<Message>,
    /// Behind them the connection is of no more use: a frame is none of a message, or memory was refused for one.
    pub is_gone: bool,
}

impl ServicePeer {
    /// One that came just now.
    pub fn new(alloc: Global, line: Connection, now: Duration) -> ServicePeer
        ensures { result ≡ came line now }
    {
        ServicePeer {
            line,
            feed: Feed::new(alloc),
            arriving: Arriving::since(now),
            version: Version::new(0),
            asked: Asked::new(alloc),
            greeting: None,
            is_sending: false,
        }
    }

    /// Whether it may be read on.
    pub fn goes_on(&self) -> bool
        ensures { result ≡ goes_on self.now }
    {
        self.line.may_read() && self.line.waiting() < MOST_WAITING
    }

    /// Since when it is waited for: to take what it is sent, to greet, or to send the rest of a frame.
    pub fn since(&self) -> Option<Duration>
        ensures { result ≡ waited_since self.now }
    {
        match (self.line.since(), self.arriving.begun()) {
            (Some(taking), Some(saying)) => Some(earlier(taking, saying)),
            (since, None) => since,
            (None, since) => since,
        }
    }

    /// It names the version of its set.
    pub fn claims(&mut self, claim: &Claim)
        ensures { self.new ≡ record self.old { version = named claim.now } }
    {
        self.version = match claim {
            Claim::Greeting(version) | Claim::Newer(version) => *version,
        };
    }

    /// Whether its verdicts grant nothing at this floor, since the other service has a newer set.
    pub fn is_outdated(&self, floor: Version) -> bool
        ensures { result ≡ is_outdated floor self.now }
    {
        self.version < floor
    }

    /// Reads a piece.
    pub fn hear(&mut self, buffer: &mut [u8], now: Duration) -> Result<(), Gone>
        ensures rest { (count : ℕ) × (count ≤ length buffer.new) × (self.new.feed.rest ≡ self.old.feed.rest ++ take count buffer.new) }
        ensures greeting { self.new.greeting ≡ self.old.greeting }
    {
        match self.line.read(buffer) {
            Came::Nothing => Ok(()),
            Came::End => Err(Gone),
            Came::Bytes(count) => self.take(buffer.get(..count).unwrap_or(b"".as_slice()), now),
        }
    }

    // Takes bytes that came.
    fn take(&mut self, piece: &[u8], now: Duration) -> Result<(), Gone>
        ensures rest { OnOk result (self.new.feed.rest ≡ self.old.feed.rest ++ piece.now) }
        ensures none { OnErr result (self.new.feed ≡ self.old.feed) }
        ensures greeting { self.new.greeting ≡ self.old.greeting }
        ensures arriving { self.new.arriving ≡ passed_at now piece.now self.old.arriving }
    {
        self.arriving.pass(piece, now);
        match self.feed.push(piece) {
            Ok(()) => Ok(()),
            Err(_) => Err(Gone),
        }
    }

    /// Whether its greeting came and is still to be passed on.
    pub fn keeps_greeting(&self) -> bool
        ensures { result ≡ is_some self.now.greeting }
    {
        self.greeting.is_some()
    }

    /// Reads a piece up to its greeting, where that has not come, and keeps it. The port of a greeting that came now.
    pub fn hear_greeting(&mut self, buffer: &mut [u8], now: Duration) -> Result<Option<Port>, Gone>
        ensures more { OnOk result (HearsMore self.old self.new) }
        ensures port { IfOk result (λ port. IsGreetedAt self.old self.new port) }
    {
        if self.greeting.is_some() || !self.line.may_read() {
            return Ok(None);
        }
        let heard = self.hear(buffer, now);
        match self.next()? {
            Some(greeting) => {
                let port = greeting.port();
                self.greeting = Some(greeting);
                Ok(Some(port))
            }
            None => match heard {
                Ok(()) => Ok(None),
                Err(gone) => Err(gone),
            },
        }
    }

    /// Its messages that are there whole, its greeting first. They are taken off.
    pub fn take_whole(&mut self, alloc: Global) -> Whole
        ensures messages { SaysFirst result.messages.items (unheard self.old) }
        ensures rest { result.is_gone ≡ false → LeavesOff self.old self.new result.messages.items }
        ensures same { self.new ≡ record self.old { feed = self.new.feed; greeting = None } }
    {
        let mut messages = Vec::new(alloc);
        let is_gone = self.put_whole(&mut messages).is_err();
        Whole { messages, is_gone }
    }

    // Puts its whole messages into an empty list, in their order.
    fn put_whole(&mut self, messages: &mut Vec<Message>) -> Result<(), Gone>
        ensures messages { messages.old.items ≡ [] → SaysFirst messages.new.items (unheard self.old) }
        ensures rest { OnOk result (messages.old.items ≡ [] → LeavesOff self.old self.new messages.new.items) }
        ensures same { self.new ≡ record self.old { feed = self.new.feed; greeting = None } }
    {
        if let Some(greeting) = self.greeting.take() {
            add(messages, greeting)?;
        }
        'messages: while let Some(message) = self.next()? {
            add(messages, message)?;
        }
        Ok(())
    }

    /// Its next message.
    pub fn next(&mut self) -> Result<Option<Message>, Gone>
        ensures message { GivesMessage self.old.feed self.new.feed result }
        ensures same { self.new ≡ record self.old { feed = self.new.feed } }
    {
        match self.feed.next() {
            Ok(message) => Ok(message),
            Err(_) => Err(Gone),
        }
    }
}

// Adds a message to others.
fn add(messages: &mut Vec<Message>, message: Message) -> Result<(), Gone>
    ensures ok { OnOk result (messages.new.items ≡ messages.old.items ++ message ∷ []) }
    ensures err { OnErr result (messages.new.items ≡ messages.old.items) }
{
    match messages.push(message) {
        Ok(()) => Ok(()),
        Err(_) => Err(Gone),
    }
}

fn earlier(a: Duration, b: Duration) -> Duration
    ensures { result ≡ earlier a b }
{
    if b.as_nanos() < a.as_nanos() { b } else { a }
}

/// What a message says of the version of the service's set: a greeting names it, and news of a newer set.
pub fn claim_of(message: &Message) -> Option<Claim>
    ensures { result ≡ claimed message.now.body }
{
    match message.body() {
        Body::Hello { version, .. } => Some(Claim::Greeting(*version)),
        Body::Updated { version } => Some(Claim::Newer(*version)),
        _ => None,
    }
}

/// What a service says of its set.
#[derive(Clone, Copy, Debug, PartialEq, Eq)]
pub enum Claim {
    /// It greets, under a set of this version.
    Greeting(Version),
    /// A set of this version took the place of the one before.
    Newer(Version),
}
