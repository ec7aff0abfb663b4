ghost use Rattle.std.specs.Prelude.{◌≡◌, ◌≤◌, ◌-◌, length, IfOk};
ghost use Rattle.av_peers.specs.Line.{unsent};
ghost use Rattle.av_peers.specs.Parts.{HearsWord, came, greeting_since, is_full, is_spent, named, waited_since, word_number, yields};
ghost use Rattle.av_peers.specs.Service.{earlier};

use crate::line::{Came, Connection};
use av_base::Version;
use av_parts::{Said, Word, WordReader};
use std::time::Duration;

// Once so many bytes wait to go out, no client within a content is read.
const FULL: usize = 262_144;

/// How many bytes the service is to take in the time for which it is waited, unless less waits for it.
pub const LEAST: usize = 65_536;

// Once so many wait, the connection is given up.
const MOST_WAITING: usize = 1_048_576;

/// The second connection of the scanning service: contents go there in parts, and verdicts come.
#[derive(Drop)]
pub struct Parts {
    pub line: Connection,
    reader: WordReader,
    // Since when it is waited for to greet.
    since: Option<Duration>,
    // The version of the set that it named last.
    version: Option<u64>,
    /// It is among those to which something is sent next.
    pub is_sending: bool,
}

/// The connection is of no more use.
#[derive(Clone, Copy, Debug, PartialEq, Eq)]
pub struct Broken;

impl Parts {
    /// One that came just now.
    pub fn new(line: Connection, now: Duration) -> Parts
        ensures { result ≡ came line now }
    {
        Parts {
            line,
            reader: WordReader::new(),
            since: Some(now),
            version: None,
            is_sending: false,
        }
    }

    /// Whether it takes no more of contents for now.
    pub fn is_full(&self) -> bool
        ensures { result ≡ is_full self.now }
    {
        self.line.waiting() >= FULL
    }

    /// For how many bytes there is room.
    pub fn room(&self) -> usize
        ensures { result ≡ 262_144 - length (unsent self.now.line) }
    {
        FULL.saturating_sub(self.line.waiting())
    }

    /// Whether more waits for it than may.
    pub fn is_spent(&self) -> bool
        ensures { result ≡ is_spent self.now }
    {
        self.line.waiting() > MOST_WAITING
    }

    /// Since when it is waited for: to take what it is sent, or to greet.
    pub fn since(&self) -> Option<Duration>
        ensures { result ≡ waited_since self.now }
    {
        match (self.line.since(), self.since) {
            (Some(taking), Some(greeting)) => Some(earlier(taking, greeting)),
            (since, None) => since,
            (None, since) => since,
        }
    }

    /// Whether another one may take its place: it has named a version that grants nothing at this floor.
    pub fn yields(&self, floor: Version) -> bool
        ensures { result ≡ yields self.now.version floor }
    {
        match self.version {
            Some(version) => version != floor.get(),
            None => false,
        }
    }

    /// Reads a piece, and says how many bytes came.
    pub fn read(&mut self, buffer: &mut [u8]) -> Result<usize, Broken>
        ensures within { IfOk result (λ count. count ≤ length buffer.new) }
        ensures same { self.new ≡ record self.old { line = self.new.line } }
    {
        match self.line.read(buffer) {
            Came::Nothing => Ok(0),
            Came::Bytes(count) => Ok(count),
            Came::End => Err(Broken),
        }
    }

    /// Hears the next thing in a piece, and says how many of its bytes were taken.
    pub fn hear(&mut self, piece: &[u8]) -> Result<(usize, Option<Said>), Broken>
        ensures heard { IfOk result (λ heard. HearsWord heard.1 heard.0 piece.now self.old.reader self.new.reader) }
        ensures named { IfOk result (λ heard. (self.new.version ≡ named self.old.version heard.1) × (self.new.since ≡ greeting_since self.old.since heard.1)) }
    {
        match self.reader.hear(piece) {
            Ok((taken, said)) => {
                self.since = greeting_since(self.since, &said);
                self.version = named(self.version, &said);
                Ok((taken, said))
            }
            Err(_) => Err(Broken),
        }
    }
}

// Since when a greeting is waited for, after this was said.
fn greeting_since(since: Option<Duration>, said: &Option<Said>) -> Option<Duration>
    ensures { result ≡ greeting_since since said.now }
{
    match said {
        Some(Said::Hello { .. }) => None,
        _ => since,
    }
}

// The version that was named last, after this was said.
fn named(version: Option<u64>, said: &Option<Said>) -> Option<u64>
    ensures { result ≡ named version said.now }
{
    match said {
        Some(Said::Hello { version: newer }) => Some(newer.get()),
        Some(Said::Of(Word::Clean { version: newer, .. })) => Some(newer.get()),
        Some(Said::Of(Word::Infected { version: newer, .. })) => Some(newer.get()),
        _ => version,
    }
}

// The earlier of two moments.
fn earlier(a: Duration, b: Duration) -> Duration
    ensures { result ≡ earlier a b }
{
    if b.as_nanos() < a.as_nanos() { b } else { a }
}

/// The number of the content that a word is of.
pub fn word_number(word: &Word) -> u64
    ensures { result ≡ word_number word.now }
{
    match word {
        Word::Clean { number, .. } | Word::Infected { number, .. } | Word::None { number, .. } => {
            *number
        }
    }
}
