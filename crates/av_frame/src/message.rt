ghost use Rattle.std.specs.Prelude.{◌≡◌, ◌≤◌, ◌↔◌, IsTrue};
ghost use Rattle.av_frame.specs.Message.{IsId, IsInRange, IsOutcome, IsPart, in_range, id_in_range, part_in_range, via};
ghost use Rattle.av_frame.specs.declared.message.Body.TheVariants.{Scan, Chunk, NoChunk, Abort, Hello, Read, Reply, Updated};

use crate::cause::NoChunkCause;
use crate::outcome::Outcome;
use av_base::limits::{MAX_CHUNK, MAX_GENERATION, MAX_LENGTH};
use av_base::{ByteList, Generation, MessageId, Port, StreamId, Version};
use std::alloc::AllocError;
use std::marker::Model;

/// The fields of a message. The filter sends Scan, Chunk, NoChunk and Abort, the scanning service the others.
#[derive(Clone, Debug, PartialEq, Eq, Drop)]
pub enum Body {
    /// Judge this content, which has `length` bytes.
    Scan {
        id: MessageId,
        stream: StreamId,
        generation: Generation,
        length: u64,
    },
    /// Content of that question, from `offset` on.
    Chunk {
        id: MessageId,
        offset: u64,
        bytes: ByteList,
    },
    /// No content comes for a Read.
    NoChunk {
        id: MessageId,
        offset: u64,
        cause: NoChunkCause,
    },
    /// The question has ended.
    Abort {
        id: MessageId,
    },
    /// The service connects, to judge under this version.
    Hello {
        volume: u64,
        version: Version,
    },
    /// Send up to `count` bytes of the content, from `offset` on.
    Read {
        id: MessageId,
        offset: u64,
        count: u32,
    },
    /// The answer to a question.
    Reply {
        id: MessageId,
        outcome: Outcome,
    },
    /// The service judges under this version from now on.
    Updated {
        version: Version,
    },
}

/// A message, with the port at which it goes or comes. Its fields are in their ranges, so whoever holds one need not test
/// them again.
#[derive(Debug, Drop)]
pub struct Message {
    port: Port,
    body: Body,
}

impl Model for Message {
    ghost use Rattle.av_frame.specs.Message.{IsInRange, Letter};

    ghost Value = { Letter };

    ghost view = { λ m. record { port = m.port; body = m.body } };

    ghost invariant = { λ m. IsInRange m.body };
}

impl Message {
    /// The message of these fields at this port. `Body::is_in_range` tests them.
    pub fn new(port: Port, body: Body) -> Message
        requires { IsInRange body }
        ensures { result ≡ via port body }
    {
        Message { port, body }
    }

    /// The question of this id: judge that content.
    pub fn scan(
        port: Port,
        id: MessageId,
        stream: StreamId,
        generation: Generation,
        length: u64,
    ) -> Message
        requires id { IsId id }
        requires stream { 1 ≤ stream }
        requires generation { (1 ≤ generation) × (generation ≤ MAX_GENERATION) }
        requires length { length ≤ MAX_LENGTH }
        ensures { result ≡ via port (Scan id stream generation length) }
    {
        let stream = StreamId::new(stream.get());
        Message::new(
            port,
            Body::Scan {
                id,
                stream,
                generation,
                length,
            },
        )
    }

    /// Content of that question.
    pub fn chunk(port: Port, id: MessageId, offset: u64, bytes: ByteList) -> Message
        requires id { IsId id }
        requires part { IsPart offset bytes }
        ensures { result ≡ via port (Chunk id offset bytes) }
    {
        Message::new(port, Body::Chunk { id, offset, bytes })
    }

    /// No content comes from that offset.
    pub fn no_chunk(port: Port, id: MessageId, offset: u64, cause: NoChunkCause) -> Message
        requires id { IsId id }
        requires offset { offset ≤ MAX_LENGTH }
        ensures { result ≡ via port (NoChunk id offset cause) }
    {
        Message::new(port, Body::NoChunk { id, offset, cause })
    }

    /// That question has ended.
    pub fn abort(port: Port, id: MessageId) -> Message
        requires { IsId id }
        ensures { result ≡ via port (Abort id) }
    {
        Message::new(port, Body::Abort { id })
    }

    /// The service of this volume's filter connects.
    pub fn hello(port: Port, volume: u64, version: Version) -> Message
        requires { 1 ≤ version }
        ensures { result ≡ via port (Hello volume version) }
    {
        let version = Version::new(version.get());
        Message::new(port, Body::Hello { volume, version })
    }

    /// Send that content.
    pub fn read(port: Port, id: MessageId, offset: u64, count: u32) -> Message
        requires id { IsId id }
        requires offset { offset ≤ MAX_LENGTH }
        requires count { (1 ≤ count) × (count ≤ MAX_CHUNK) }
        ensures { result ≡ via port (Read id offset count) }
    {
        Message::new(port, Body::Read { id, offset, count })
    }

    /// The answer to that question.
    pub fn reply(port: Port, id: MessageId, outcome: Outcome) -> Message
        requires id { IsId id }
        requires outcome { IsOutcome outcome }
        ensures { result ≡ via port (Reply id outcome) }
    {
        Message::new(port, Body::Reply { id, outcome })
    }

    /// The service judges under this version from now on.
    pub fn updated(port: Port, version: Version) -> Message
        requires { 1 ≤ version }
        ensures { result ≡ via port (Updated version) }
    {
        let version = Version::new(version.get());
        Message::new(port, Body::Updated { version })
    }

    /// The port at which it goes or comes.
    pub fn port(&self) -> Port
        ensures { result ≡ self.now.port }
    {
        self.port
    }

    /// The fields, to be matched by name.
    pub fn body(&self) -> &Body
        ensures same { result.now ≡ self.now.body }
        ensures in_range { IsInRange self.now.body }
    {
        &self.body
    }
}

impl Clone for Message {
    ghost use Rattle.std.specs.Prelude.{◌≡◌};

    ghost is_clone = { λ v w. w ≡ v };

    fn clone(&self) -> Result<Message, AllocError> {
        Ok(Message {
            port: self.port,
            body: self.body.clone()?,
        })
    }
}

impl Body {
    /// Whether each field is in its range.
    pub fn is_in_range(&self) -> bool
        ensures test { result ≡ in_range self.now }
        ensures meaning { IsTrue result ↔ IsInRange self.now }
    {
        match self {
            Body::Scan {
                id,
                stream,
                generation,
                length,
            } => {
                is_id(*id)
                    && stream.get() >= 1
                    && generation.get() >= 1
                    && generation.get() <= MAX_GENERATION
                    && *length <= MAX_LENGTH
            }
            Body::Chunk { id, offset, bytes } => is_chunk(*id, *offset, bytes.as_slice()),
            Body::NoChunk { id, offset, .. } => is_id(*id) && *offset <= MAX_LENGTH,
            Body::Abort { id } => is_id(*id),
            Body::Hello { volume, version } => {
                let _any_number = *volume;
                version.get() >= 1
            }
            Body::Read { id, offset, count } => {
                is_id(*id) && *offset <= MAX_LENGTH && *count >= 1 && *count <= MAX_CHUNK as u32
            }
            Body::Reply { id, outcome } => is_id(*id) && outcome.is_in_range(),
            Body::Updated { version } => version.get() >= 1,
        }
    }
}

/// Whether an id can name a question: both its numbers count from 1.
pub fn is_id(id: MessageId) -> bool
    ensures test { result ≡ id_in_range id }
    ensures meaning { IsTrue result ↔ IsId id }
{
    id.boot >= 1 && id.seq >= 1
}

/// Whether these bytes can go to a question in one chunk, from `offset` on.
pub fn is_chunk(id: MessageId, offset: u64, bytes: &[u8]) -> bool
    ensures test { result ≡ in_range (Chunk id offset bytes.now) }
    ensures meaning { IsTrue result ↔ IsInRange (Chunk id offset bytes.now) }
{
    is_id(id) && is_part(offset, bytes)
}

fn is_part(offset: u64, bytes: &[u8]) -> bool
    ensures test { result ≡ part_in_range offset bytes.now }
    ensures meaning { IsTrue result ↔ IsPart offset bytes.now }
{
    let count = bytes.len() as u64;
    count >= 1 && count <= MAX_CHUNK && offset <= MAX_LENGTH - count
}
