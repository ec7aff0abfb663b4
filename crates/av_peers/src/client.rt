ghost use Rattle.std.specs.Prelude.{◌≡◌, ◌+◌, ◌-◌, ◌≤◌, ◌++◌, [], length, min, true, false, IfOk, OnOk, None};
ghost use Rattle.av_clamd.specs.Door.{fresh};
ghost use Rattle.av_peers.specs.Client.{Hears, IsWords, SaysNext, SaysOne, begun_left, came, ending_of, farewell, is_of_clamd, is_over, kind_of, late_text, learned, left_of, newer_text, of_tag, open_answer_of, open_text, part_left, silent, spoken_answer, spoken_cause, spoken_of, tag_of, thing_of, told_text};
ghost use Rattle.av_peers.specs.declared.client.Speech.TheVariants.{Opens, Clamd};

use crate::line::{Came, Connection};
use crate::told::{LargeTold, WRITTEN};
use av_arrival::{TurnedAway, put_refusal};
use av_asks::{
    Ask, ClientHeard, ClientReader, ClientSays, How, LargeAnswer, LargeCause, OpenAnswer,
    put_answer, put_large_answer, put_newer,
};
use av_base::{ByteList, Cause, Generation, Version};
use av_clamd::{About, Door, Heard, Sending, Spoken, put_reply, put_timed_out};
use av_guard::Answered;
use av_large::Ending;
use av_log::Notes;
use av_turns::{Kind, Left};
use std::alloc::{AllocError, Global};
use std::mem;

/// One client.
#[derive(Drop)]
pub struct Client {
    pub line: Connection,
    speech: Speech,
    // What came of a client of clamd and was not heard yet.
    kept: Vec<u8>,
    owed: usize,
    // It asked about a content.
    has_asked: bool,
    // No more is heard of it.
    is_done: bool,
    /// The content in parts that it is within.
    pub within: Option<Open>,
    /// The tag by which it wants to be told of a newer version.
    pub watch: Option<u64>,
    /// Whether it waits to be read until the service takes more of contents in parts.
    pub place: Place,
    /// What it asked about and was not answered yet, where there is a log.
    pub notes: Notes,
    /// It is among those to which something is sent next.
    pub is_sending: bool,
}

// What it speaks.
#[derive(Drop)]
enum Speech {
    Opens(ClientReader),
    Clamd(Door),
}

/// A content in parts that a client is within.
#[derive(Clone, Copy, Debug, PartialEq, Eq)]
pub struct Open {
    /// The client's tag of it.
    pub tag: u64,
    /// The guard's number of it, 0 once it is answered.
    pub number: u64,
    /// How many of its bytes came.
    pub count: u64,
}

/// Where a client is while the service takes no more of contents in parts.
#[derive(Clone, Copy, Debug, PartialEq, Eq)]
pub enum Place {
    /// Among the others.
    Free,
    /// It waits to be read.
    Parked,
    /// It waited, and there is room for what it sends next.
    Called,
}

/// One thing that a client said.
#[derive(Drop)]
pub enum Thing<'a> {
    /// It needs no verdict: so many bytes were put behind those that wait for the client.
    Said(usize),
    /// It asks about a content, with its name for it, where it says one. Its tag is handed back with the answer.
    Asked {
        tag: u64,
        label: Option<ByteList>,
        content: Vec<u8>,
    },
    /// It begins a content that comes in parts, with its name for it, where it says one, and what came of it already.
    Begun {
        tag: u64,
        label: Option<ByteList>,
        first: Option<Vec<u8>>,
    },
    /// Some of the content that it is within came, perhaps no byte.
    Part(&'a [u8]),
    /// The content that it is within ends.
    Ended(Ending),
    /// It wants to be told of a newer version than this one.
    Watches {
        tag: u64,
        version: u64,
    },
}

/// Why a client is let go.
#[derive(Clone, Copy, Debug, PartialEq, Eq)]
pub struct Lost;

impl From<AllocError> for Lost {
    fn from(_error: AllocError) -> Lost {
        Lost
    }
}

impl Client {
    /// One that came by the socket for opens.
    pub fn of_opens(alloc: Global, line: Connection) -> Client
        ensures came { result ≡ came line (Opens silent) result.kept }
        ensures kept { result.kept.items ≡ [] }
    {
        Client::new(alloc, line, Speech::Opens(ClientReader::new(alloc)))
    }

    /// One that came by the socket for clients of clamd.
    pub fn of_clamd(alloc: Global, line: Connection) -> Client
        ensures came { result ≡ came line (Clamd fresh) result.kept }
        ensures kept { result.kept.items ≡ [] }
    {
        Client::new(alloc, line, Speech::Clamd(Door::new(alloc)))
    }

    fn new(alloc: Global, line: Connection, speech: Speech) -> Client
        ensures came { result ≡ came line speech result.kept }
        ensures kept { result.kept.items ≡ [] }
    {
        Client {
            line,
            speech,
            kept: Vec::new(alloc),
            owed: 0,
            has_asked: false,
            is_done: false,
            within: None,
            watch: None,
            place: Place::Free,
            notes: Notes::new(alloc),
            is_sending: false,
        }
    }

    /// What it speaks.
    pub fn kind(&self) -> Kind
        ensures { result ≡ kind_of self.now.speech }
    {
        match &self.speech {
            Speech::Opens(_) => Kind::Opens,
            Speech::Clamd(_) => Kind::Clamd,
        }
    }

    /// Whether it speaks as clients of clamd do.
    pub fn is_of_clamd(&self) -> bool
        ensures { result ≡ is_of_clamd self.now.speech }
    {
        matches!(&self.speech, Speech::Clamd(..))
    }

    /// Whether no more is heard of it.
    pub fn is_done(&self) -> bool
        ensures { result ≡ self.now.is_done }
    {
        self.is_done
    }

    /// Whether all is done: it says no more, and was told all.
    pub fn is_over(&self) -> bool
        ensures { result ≡ is_over self.now }
    {
        self.is_done && self.owed == 0 && self.line.waiting() == 0
    }

    /// How many answers it waits for.
    pub fn owed(&self) -> usize
        ensures { result ≡ self.now.owed }
    {
        self.owed
    }

    /// Reads a piece, and says how many bytes came. One that sends no more is done; one that takes no more either is lost.
    pub fn read(&mut self, buffer: &mut [u8]) -> Result<usize, Lost>
        ensures within { IfOk result (λ count. count ≤ length buffer.new) }
        ensures same { (self.new.speech ≡ self.old.speech) × (self.new.kept ≡ self.old.kept) × (self.new.owed ≡ self.old.owed) }
    {
        match self.line.read(buffer) {
            Came::Bytes(count) => Ok(count),
            Came::Nothing => Ok(0),
            Came::End => {
                self.is_done = true;
                if self.line.is_closed() {
                    Err(Lost)
                } else {
                    Ok(0)
                }
            }
        }
    }

    /// What came before and was not heard yet.
    pub fn take_kept(&mut self, alloc: Global) -> Vec<u8>
        ensures taken { result ≡ self.old.kept }
        ensures none { self.new.kept.items ≡ [] }
        ensures same { self.new ≡ record self.old { kept = self.new.kept } }
    {
        mem::replace(&mut self.kept, Vec::new(alloc))
    }

    /// Keeps what came and was not heard yet.
    pub fn keep(&mut self, rest: &[u8]) -> Result<(), Lost>
        ensures kept { OnOk result (self.new.kept.items ≡ self.old.kept.items ++ rest.now) }
        ensures same { self.new ≡ record self.old { kept = self.new.kept } }
    {
        self.kept.extend_from_slice(rest)?;
        Ok(())
    }

    /// Learns how the guard is now, where it speaks as clients of clamd do.
    pub fn learn(&mut self, about: About)
        ensures { self.new ≡ record self.old { speech = learned self.old.speech about } }
    {
        if let Speech::Clamd(door) = &mut self.speech {
            door.learn(about);
        }
    }

    /// Hears the next thing in a piece that came, and says how many of its bytes were taken. `sending` is for a client of clamd: whether
    /// its long contents go in parts. A client that says what it can't say is
    /// lost, and so is one for which memory is refused.
    pub fn hear<'b>(
        &mut self,
        piece: &'b [u8],
        sending: Sending,
    ) -> Result<(usize, Option<Thing<'b>>), Lost>
        ensures hears { IfOk result (λ heard. Hears sending heard piece.now self.old.speech self.new.speech self.old.line.waiting.items self.new.line.waiting.items) }
        ensures same { (self.new.kept ≡ self.old.kept) × (self.new.owed ≡ self.old.owed) }
    {
        match &mut self.speech {
            Speech::Opens(reader) => next_said(reader, piece),
            Speech::Clamd(door) => {
                let heard = next_words(door, piece, sending, &mut self.line.waiting);
                self.is_done = self.is_done || door.is_done();
                heard
            }
        }
    }

    /// How many bytes are still to come of the part that has begun. They are handed on as they come.
    pub fn part_left(&self) -> usize
        ensures { result ≡ part_left self.now.speech }
    {
        match &self.speech {
            Speech::Opens(reader) => reader.left(),
            Speech::Clamd(door) => door.relay_left(),
        }
    }

    /// What is left of what came, once its turn is over.
    pub fn left(&self) -> Left
        ensures { result ≡ left_of self.now.speech (length self.now.kept.items) }
    {
        let kept = self.kept.len() as u64;
        if kept > 0 {
            return Left::Whole { held: kept };
        }
        match &self.speech {
            Speech::Opens(reader) => {
                let (came, total) = reader.begun();
                begun_left(came as u64, total as u64)
            }
            Speech::Clamd(door) => match door.begun() {
                None => Left::Nothing,
                Some(0) if door.is_relaying() => Left::Nothing,
                Some(held) => Left::Part {
                    held: held as u64,
                    total: 0,
                },
            },
        }
    }

    /// It waits for one answer more.
    pub fn asked(&mut self)
        ensures { self.new ≡ record self.old { owed = min (self.old.owed + 1) usize.MAX; has_asked = true } }
    {
        self.owed = self.owed.saturating_add(1);
        self.has_asked = true;
    }

    /// It is told an answer under a tag. The name is that of the signature that occurs, where it is known.
    pub fn tell(&mut self, tag: u64, told: LargeTold, name: Option<&[u8]>) -> Result<(), Lost>
        ensures told { OnOk result (self.new.line.waiting.items ≡ self.old.line.waiting.items ++ told_text self.old.speech tag told name.entry) }
        ensures owed { self.new.owed ≡ self.old.owed - 1 }
        ensures same { self.new ≡ record self.old { line = self.new.line; owed = self.new.owed } }
    {
        self.forgive();
        let out = &mut self.line.waiting;
        match &self.speech {
            Speech::Opens(_) => put_open(out, tag, told),
            Speech::Clamd(..) => {
                let (number, end) = of_tag(tag);
                put_reply(out, number, end, &spoken(told, name))?;
                Ok(())
            }
        }
    }

    /// It is told that this is the version now, if it wants to be told of a newer one: once.
    pub fn tell_newer(&mut self, version: Version) -> Result<(), Lost>
        ensures told { OnOk result (self.new.line.waiting.items ≡ self.old.line.waiting.items ++ newer_text self.old.watch version) }
        ensures once { self.new.watch ≡ None }
        ensures same { self.new ≡ record self.old { line = self.new.line; watch = self.new.watch } }
    {
        if let Some(tag) = self.watch.take() {
            put_newer(&mut self.line.waiting, tag, version)?;
        }
        Ok(())
    }

    /// It is not told the answer that it waited for last: it broke off.
    pub fn forgive(&mut self)
        ensures { self.new ≡ record self.old { owed = self.old.owed - 1 } }
    {
        self.owed = self.owed.saturating_sub(1);
    }

    /// It said nothing for too long: a client of clamd is told so, and no more is heard of it.
    pub fn time_out(&mut self) -> Result<(), Lost>
        ensures told { OnOk result (self.new.line.waiting.items ≡ self.old.line.waiting.items ++ late_text self.old.speech) }
        ensures done { self.new.is_done ≡ true }
        ensures same { self.new ≡ record self.old { is_done = self.new.is_done; line = self.new.line } }
    {
        self.is_done = true;
        if let Speech::Clamd(door) = &self.speech {
            put_timed_out(&mut self.line.waiting, door.end())?;
        }
        Ok(())
    }

    /// It said what it can't say: no more is heard of it, and what it is owed is told before it is closed. One that asked nothing so far at
    /// the socket for opens may be a scanning service, and is told that none is taken there.
    pub fn end(&mut self) -> Result<(), Lost>
        ensures told { OnOk result (self.new.line.waiting.items ≡ self.old.line.waiting.items ++ farewell self.old.speech self.old.has_asked) }
        ensures done { self.new.is_done ≡ true }
        ensures same { self.new ≡ record self.old { is_done = self.new.is_done; line = self.new.line } }
    {
        self.is_done = true;
        if self.has_asked {
            return Ok(());
        }
        if let Speech::Opens(_) = &self.speech {
            put_refusal(&mut self.line.waiting, TurnedAway::OtherSocket)?;
        }
        Ok(())
    }
}

// The next thing that a client says at the socket for opens.
fn next_said<'b>(
    reader: &mut ClientReader,
    piece: &'b [u8],
) -> Result<(usize, Option<Thing<'b>>), Lost>
    ensures { IfOk result (λ h. SaysNext h.1 h.0 piece.now reader.old reader.new) }
{
    match reader.hear(piece) {
        Ok(ClientHeard { taken, said }) => Ok((taken, thing_of(said))),
        Err(_) => Err(Lost),
    }
}

// What a client said, as the guard takes it.
fn thing_of<'b>(said: Option<ClientSays<'b>>) -> Option<Thing<'b>>
    ensures { result ≡ thing_of said.entry }
{
    match said? {
        ClientSays::Ask(ask) => {
            let Ask {
                tag,
                label,
                content,
            } = ask;
            let label = Some(label);
            Some(Thing::Asked {
                tag,
                label,
                content,
            })
        }
        ClientSays::Begin { tag, label } => {
            let (label, first) = (Some(label), None);
            Some(Thing::Begun { tag, label, first })
        }
        ClientSays::Part { some, .. } => Some(Thing::Part(some)),
        ClientSays::End { how, .. } => Some(Thing::Ended(ending_of(how))),
        ClientSays::Watch { tag, version } => Some(Thing::Watches { tag, version }),
    }
}

// How a content ends, for the guard.
fn ending_of(how: How) -> Ending
    ensures { result ≡ ending_of how }
{
    match how {
        How::Whole => Ending::Whole,
        How::GivenUp => Ending::GivenUp,
    }
}

// The next thing that a client of clamd says.
fn next_words<'b>(
    door: &mut Door,
    piece: &'b [u8],
    sending: Sending,
    out: &mut Vec<u8>,
) -> Result<(usize, Option<Thing<'b>>), Lost>
    ensures { IfOk result (λ h. SaysOne sending h.1 h.0 piece.now door.old door.new out.old.items out.new.items) }
{
    let (taken, heard) = door.hear(piece, sending)?;
    let thing = words_of(heard, out)?;
    Ok((taken, thing))
}

// What came of its words. What is said to it at once is put after what waits for it.
fn words_of<'b>(heard: Option<Heard<'b>>, out: &mut Vec<u8>) -> Result<Option<Thing<'b>>, Lost>
    ensures { IfOk result (λ given. IsWords given heard.entry out.old.items out.new.items) }
{
    let thing = match heard {
        None => return Ok(None),
        Some(Heard::Say(text)) => {
            out.extend_from_slice(text.as_slice())?;
            Thing::Said(text.len())
        }
        Some(
            Heard::Ask {
                number,
                end,
                content,
            },
        ) => Thing::Asked {
            tag: numbered(number, end),
            label: None,
            content,
        },
        Some(Heard::Begin { number, end, first }) => Thing::Begun {
            tag: numbered(number, end),
            label: None,
            first: Some(first),
        },
        Some(Heard::More(bytes)) => Thing::Part(bytes),
        Some(Heard::End) => Thing::Ended(Ending::Whole),
        // Its door takes no paths.
        Some(Heard::Path { .. }) => return Err(Lost),
    };
    Ok(Some(thing))
}

// What is left of a frame of which so many bytes came, and which has so many, where that is known.
fn begun_left(came: u64, total: u64) -> Left
    ensures { result ≡ begun_left came total }
{
    if came == 0 {
        return Left::Nothing;
    }
    if total > 0 && came >= total {
        return Left::Whole { held: came };
    }
    Left::Part { held: came, total }
}

// The tag of a stream that came as the command of this number, which ended so; and back.
fn numbered(number: u64, end: u8) -> u64
    ensures { result ≡ tag_of number end }
{
    (number % (1 << 56)) * 256 + u64::from(end)
}

fn of_tag(tag: u64) -> (u64, u8)
    ensures { result ≡ of_tag tag }
{
    (tag / 256, (tag % 256) as u8)
}

// Appends an answer as the open protocol has it.
fn put_open(out: &mut Vec<u8>, tag: u64, told: LargeTold) -> Result<(), Lost>
    ensures { OnOk result (out.new.items ≡ out.old.items ++ open_text tag told) }
{
    match told {
        LargeTold::Answered(answer) => put_answer(out, &open_answer(tag, answer))?,
        LargeTold::Denied { cause } => {
            put_large_answer(out, &LargeAnswer::Denied { tag, cause })?;
        }
        LargeTold::Unscanned { cause } => {
            let generation = Generation::new(WRITTEN);
            put_large_answer(
                out,
                &LargeAnswer::Unscanned {
                    tag,
                    generation,
                    cause,
                },
            )?;
        }
    }
    Ok(())
}

// An answer as the open protocol has it.
fn open_answer(tag: u64, answer: Answered) -> OpenAnswer
    ensures { result ≡ open_answer_of tag answer }
{
    match answer {
        Answered::Granted {
            generation,
            version,
        } => OpenAnswer::Granted {
            tag,
            generation,
            version,
        },
        Answered::Infected { .. } => OpenAnswer::Denied {
            tag,
            cause: Cause::Infected,
        },
        Answered::Denied { cause } => OpenAnswer::Denied { tag, cause },
        Answered::Unscanned { generation, cause } => OpenAnswer::Unscanned {
            tag,
            generation,
            cause,
        },
    }
}

// An answer as clients of clamd hear it.
fn spoken<'a>(told: LargeTold, name: Option<&'a [u8]>) -> Spoken<'a>
    ensures { result ≡ spoken_of told name.entry }
{
    match told {
        LargeTold::Answered(answer) => spoken_answer(answer, name),
        LargeTold::Denied { cause } | LargeTold::Unscanned { cause } => spoken_cause(cause),
    }
}

// The same of a content in parts that was not judged, for a cause of its own.
fn spoken_cause<'a>(cause: LargeCause) -> Spoken<'a>
    ensures { result ≡ spoken_cause cause }
{
    match cause {
        LargeCause::TooLarge => Spoken::TooLarge,
        LargeCause::AskAgain | LargeCause::GivenUp | LargeCause::NoParts => Spoken::NoVerdict {
            cause: cause.number(),
        },
    }
}

// The same of an answer that an ask can have too.
fn spoken_answer<'a>(answer: Answered, name: Option<&'a [u8]>) -> Spoken<'a>
    ensures { result ≡ spoken_answer answer name.entry }
{
    match answer {
        Answered::Granted { .. } => Spoken::Clean,
        Answered::Infected {
            version,
            signature,
            ..
        } => match name {
            Some(name) => Spoken::Found(name),
            None => Spoken::FoundAt {
                index: u64::from(signature),
                version: version.get(),
            },
        },
        Answered::Denied { cause } | Answered::Unscanned { cause, .. } => {
            Spoken::NoVerdict {
                cause: cause.number(),
            }
        }
    }
}
