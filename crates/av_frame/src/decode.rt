ghost use Rattle.std.specs.Prelude.{◌≡◌, ◌≤◌, length, IfOk, Ok, slice_index};
ghost use Rattle.av_base.specs.Answers.{Reads};
ghost use Rattle.av_frame.specs.declared.message.Body.{Body};
ghost use Rattle.av_frame.specs.Message.{Letter};
ghost use Rattle.av_frame.specs.declared.fault.FrameFault.{FrameFault};
ghost use Rattle.av_frame.specs.Reading.{abort_of, checked, chunk_of, clean_of, decoded, failed_of, fault_of, hello_of, id_at, infected_of, no_chunk_of, plain_of, port_at, read_of, reply_of, scan_of, updated_of};
ghost use Rattle.av_frame.specs.Spelling.{Spells};

use crate::cause::{FailCause, NoChunkCause};
use crate::fault::FrameFault;
use crate::fields::{u32_at, u64_at};
use crate::message::{Body, Message, is_chunk};
use crate::outcome::Outcome;
use crate::sizes::{
    CHUNK_HEADER, CLEAN_SIZE, FAILED_SIZE, HEAD_SIZE, HELLO_SIZE, INFECTED_SIZE, MAX_BODY,
    NO_CHUNK_SIZE, READ_SIZE, SCAN_SIZE, UPDATED_SIZE,
};
use av_base::{ByteList, Generation, MessageId, Port, Refusal, StreamId, Verdict, Version};
use std::alloc::Global;

/// The message that a body spells, all of its bytes, or the first fault. A chunk's bytes are copied once; no other
/// message takes memory.
pub fn decode(alloc: Global, body: &[u8]) -> Result<Message, Refusal<FrameFault>>
    // What is read is spelled so.
    ensures found { IfOk result (λ m. Spells body.now m) }
    // What is spelled so is read, unless memory is refused.
    ensures only { (m : Letter) → Spells body.now m → Reads result (Ok m) }
    // Which fault it is.
    ensures fault { (f : FrameFault) → result ≡ Err (Refusal.Fault f) → f ≡ fault_of body.now }
    // Memory is refused to chunks alone.
    ensures memory { result ≡ Err Refusal.NoMemory → slice_index body.now 0 ≡ 2 }
    // All of this computed, field by field.
    ensures exact { Reads result (decoded body.now) }
{
    parts(alloc, body)
}

#[tactic(auto, unfolding(crate::specs::Reading::decoded))]
fn parts(alloc: Global, body: &[u8]) -> Result<Message, Refusal<FrameFault>>
    ensures exact { Reads result (decoded body.now) }
    ensures memory { result ≡ Err Refusal.NoMemory → slice_index body.now 0 ≡ 2 }
{
    if body.is_empty() || body.len() > MAX_BODY {
        return Err(Refusal::Fault(FrameFault::Length));
    }
    if body[0] == 2 {
        return chunk(alloc, body);
    }
    match plain(body) {
        Ok(message) => Ok(message),
        Err(fault) => Err(Refusal::Fault(fault)),
    }
}

#[tactic(auto, unfolding(crate::specs::Reading::chunk_of))]
fn chunk(alloc: Global, body: &[u8]) -> Result<Message, Refusal<FrameFault>>
    ensures { Reads result (chunk_of body.now) }
{
    if body.len() <= CHUNK_HEADER {
        return Err(Refusal::Fault(FrameFault::Shape));
    }
    let (_, bytes) = body.split_at(CHUNK_HEADER);
    content(alloc, port_of(body), id_of(body), u64_at(body, 18), bytes)
}

// The chunk of these fields at this port, where the port and each field are in their ranges. They are tested before the
// bytes are copied.
#[tactic(auto, unfolding(crate::specs::Reading::checked))]
fn content(
    alloc: Global,
    port: Option<Port>,
    id: MessageId,
    offset: u64,
    bytes: &[u8],
) -> Result<Message, Refusal<FrameFault>>
    ensures { Reads result (checked port (Body.Chunk id offset bytes.now)) }
{
    let Some(port) = port else {
        return Err(Refusal::Fault(FrameFault::Range));
    };
    if !is_chunk(id, offset, bytes) {
        return Err(Refusal::Fault(FrameFault::Range));
    }
    let bytes = ByteList::copied(alloc, bytes)?;
    Ok(Message::chunk(port, id, offset, bytes))
}

// The message of a body of any other kind.
#[tactic(auto, unfolding(crate::specs::Reading::plain_of))]
fn plain(body: &[u8]) -> Result<Message, FrameFault>
    requires { 1 ≤ length body.now }
    ensures { result ≡ plain_of body.now }
{
    match body[0] {
        1 => scan(body),
        3 => no_chunk(body),
        4 => abort(body),
        5 => hello(body),
        6 => read(body),
        7 => reply(body),
        8 => updated(body),
        _ => Err(FrameFault::Kind),
    }
}

#[tactic(auto, unfolding(crate::specs::Reading::scan_of))]
fn scan(body: &[u8]) -> Result<Message, FrameFault>
    ensures { result ≡ scan_of body.now }
{
    if body.len() != SCAN_SIZE {
        return Err(FrameFault::Shape);
    }
    in_range(
        body,
        Body::Scan {
            id: id_of(body),
            stream: StreamId::new(u64_at(body, 18)),
            generation: Generation::new(u64_at(body, 26)),
            length: u64_at(body, 34),
        },
    )
}

#[tactic(auto, unfolding(crate::specs::Reading::no_chunk_of))]
fn no_chunk(body: &[u8]) -> Result<Message, FrameFault>
    ensures { result ≡ no_chunk_of body.now }
{
    if body.len() != NO_CHUNK_SIZE {
        return Err(FrameFault::Shape);
    }
    let Some(cause) = NoChunkCause::from_number(body[26]) else {
        return Err(FrameFault::Range);
    };
    in_range(
        body,
        Body::NoChunk {
            id: id_of(body),
            offset: u64_at(body, 18),
            cause,
        },
    )
}

#[tactic(auto, unfolding(crate::specs::Reading::abort_of))]
fn abort(body: &[u8]) -> Result<Message, FrameFault>
    ensures { result ≡ abort_of body.now }
{
    if body.len() != HEAD_SIZE {
        return Err(FrameFault::Shape);
    }
    in_range(body, Body::Abort { id: id_of(body) })
}

#[tactic(auto, unfolding(crate::specs::Reading::hello_of))]
fn hello(body: &[u8]) -> Result<Message, FrameFault>
    ensures { result ≡ hello_of body.now }
{
    if body.len() != HELLO_SIZE {
        return Err(FrameFault::Shape);
    }
    in_range(
        body,
        Body::Hello {
            volume: u64_at(body, 2),
            version: Version::new(u64_at(body, 10)),
        },
    )
}

#[tactic(auto, unfolding(crate::specs::Reading::read_of))]
fn read(body: &[u8]) -> Result<Message, FrameFault>
    ensures { result ≡ read_of body.now }
{
    if body.len() != READ_SIZE {
        return Err(FrameFault::Shape);
    }
    in_range(
        body,
        Body::Read {
            id: id_of(body),
            offset: u64_at(body, 18),
            count: u32_at(body, 26),
        },
    )
}

// A reply's status is judged before the length that the status wants.
#[tactic(auto, unfolding(crate::specs::Reading::reply_of))]
fn reply(body: &[u8]) -> Result<Message, FrameFault>
    ensures { result ≡ reply_of body.now }
{
    if body.len() <= HEAD_SIZE {
        return Err(FrameFault::Shape);
    }
    match body[18] {
        0 => clean(body),
        1 => infected(body),
        2 => failed(body),
        _ => Err(FrameFault::Range),
    }
}

#[tactic(auto, unfolding(crate::specs::Reading::clean_of))]
fn clean(body: &[u8]) -> Result<Message, FrameFault>
    ensures { result ≡ clean_of body.now }
{
    if body.len() != HEAD_SIZE + CLEAN_SIZE {
        return Err(FrameFault::Shape);
    }
    let version = Version::new(u64_at(body, 19));
    let verdict = Verdict::Clean;
    in_range(
        body,
        Body::Reply {
            id: id_of(body),
            outcome: Outcome::Judged { version, verdict },
        },
    )
}

#[tactic(auto, unfolding(crate::specs::Reading::infected_of))]
fn infected(body: &[u8]) -> Result<Message, FrameFault>
    ensures { result ≡ infected_of body.now }
{
    if body.len() != HEAD_SIZE + INFECTED_SIZE {
        return Err(FrameFault::Shape);
    }
    let version = Version::new(u64_at(body, 19));
    let verdict = Verdict::Infected {
        index: u32_at(body, 27),
        end_at: u64_at(body, 31),
    };
    in_range(
        body,
        Body::Reply {
            id: id_of(body),
            outcome: Outcome::Judged { version, verdict },
        },
    )
}

#[tactic(auto, unfolding(crate::specs::Reading::failed_of))]
fn failed(body: &[u8]) -> Result<Message, FrameFault>
    ensures { result ≡ failed_of body.now }
{
    if body.len() != HEAD_SIZE + FAILED_SIZE {
        return Err(FrameFault::Shape);
    }
    let Some(cause) = FailCause::from_number(body[19]) else {
        return Err(FrameFault::Range);
    };
    in_range(
        body,
        Body::Reply {
            id: id_of(body),
            outcome: Outcome::Failed { cause },
        },
    )
}

#[tactic(auto, unfolding(crate::specs::Reading::updated_of))]
fn updated(body: &[u8]) -> Result<Message, FrameFault>
    ensures { result ≡ updated_of body.now }
{
    if body.len() != UPDATED_SIZE {
        return Err(FrameFault::Shape);
    }
    in_range(
        body,
        Body::Updated {
            version: Version::new(u64_at(body, 2)),
        },
    )
}

fn id_of(body: &[u8]) -> MessageId
    requires { HEAD_SIZE ≤ length body.now }
    ensures { result ≡ id_at body.now }
{
    MessageId {
        boot: u64_at(body, 2),
        seq: u64_at(body, 10),
    }
}

// The port that stands behind the kind.
fn port_of(body: &[u8]) -> Option<Port>
    requires { 2 ≤ length body.now }
    ensures { result ≡ port_at body.now }
{
    Port::from_number(body[1])
}

// The message of these fields at the port of this body, where the port and each field are in their ranges.
#[tactic(auto, unfolding(crate::specs::Reading::checked))]
fn in_range(body: &[u8], fields: Body) -> Result<Message, FrameFault>
    requires { 2 ≤ length body.now }
    ensures { result ≡ checked (port_at body.now) fields }
{
    let Some(port) = port_of(body) else {
        return Err(FrameFault::Range);
    };
    if !fields.is_in_range() {
        return Err(FrameFault::Range);
    }
    Ok(Message::new(port, fields))
}
