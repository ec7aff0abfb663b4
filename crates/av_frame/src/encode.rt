ghost use Rattle.std.specs.Prelude.{◌≡◌, ◌+◌, ◌≤◌, ◌++◌, ◌∷◌, [], OnOk, OnErr, vec_len, vec_capacity};
ghost use Rattle.av_frame.specs.Message.{IsInRange};
ghost use Rattle.av_frame.specs.declared.message.Body.TheVariants.{Scan};
ghost use Rattle.av_base.specs.Port.{port_number};
ghost use Rattle.av_frame.specs.Spelling.{field8, frame, id_fields, outcome_fields, outcome_size, size_of, spelled_at};

use crate::fields::{put1, put4, put8};
use crate::message::{Body, Message};
use crate::outcome::Outcome;
use crate::sizes::{
    CHUNK_HEADER, CLEAN_SIZE, FAILED_SIZE, HEAD_SIZE, HELLO_SIZE, INFECTED_SIZE, MAX_BODY,
    NO_CHUNK_SIZE, READ_SIZE, SCAN_SIZE, UPDATED_SIZE,
};
use av_base::{Generation, MessageId, Port, StreamId, Verdict};
use std::alloc::AllocError;

/// Appends a message's frame: the body's length in four bytes, then its kind, its port and its fields. Its bytes are
/// copied once. Where memory is refused nothing is appended.
pub fn encode_into(message: &Message, out: &mut Vec<u8>) -> Result<(), AllocError>
    ensures ok { OnOk result (out.new.items ≡ out.old.items ++ frame message.now) }
    ensures err { OnErr result (out.new.items ≡ out.old.items) }
{
    let body = message.body();
    let size = size(body);
    out.reserve(4 + size)?;
    put4(out, size as u32);
    put_body(out, message.port(), body);
    Ok(())
}

// How many bytes spell these fields.
fn size(body: &Body) -> usize
    requires { IsInRange body.now }
    ensures size { result ≡ size_of body.now }
    ensures small { result ≤ MAX_BODY }
{
    match body {
        Body::Scan { .. } => SCAN_SIZE,
        Body::Chunk { bytes, .. } => CHUNK_HEADER + bytes.len(),
        Body::NoChunk { .. } => NO_CHUNK_SIZE,
        Body::Abort { .. } => HEAD_SIZE,
        Body::Hello { .. } => HELLO_SIZE,
        Body::Read { .. } => READ_SIZE,
        Body::Reply { outcome, .. } => HEAD_SIZE + outcome_bytes(*outcome),
        Body::Updated { .. } => UPDATED_SIZE,
    }
}

fn outcome_bytes(outcome: Outcome) -> usize
    ensures { result ≡ outcome_size outcome }
{
    match outcome {
        Outcome::Judged { verdict, .. } => match verdict {
            Verdict::Clean => CLEAN_SIZE,
            Verdict::Infected { .. } => INFECTED_SIZE,
        },
        Outcome::Failed { .. } => FAILED_SIZE,
    }
}

// Appends the kind, the port and the fields, for which there is room.
fn put_body(out: &mut Vec<u8>, port: Port, body: &Body)
    requires { vec_len out.old + size_of body.now ≤ vec_capacity out.old }
    ensures { out.new.items ≡ out.old.items ++ spelled_at port body.now }
{
    match body {
        Body::Scan {
            id,
            stream,
            generation,
            length,
        } => put_scan(out, port, *id, *stream, *generation, *length),
        Body::Chunk { id, offset, bytes } => {
            put_place(out, 2, port, *id, *offset);
            out.extend_from_slice(bytes.as_slice()).unwrap();
        }
        Body::NoChunk { id, offset, cause } => {
            put_place(out, 3, port, *id, *offset);
            put1(out, cause.number());
        }
        Body::Abort { id } => put_head(out, 4, port, *id),
        Body::Hello { volume, version } => {
            put_front(out, 5, port);
            put8(out, *volume);
            put8(out, version.get());
        }
        Body::Read { id, offset, count } => {
            put_place(out, 6, port, *id, *offset);
            put4(out, *count);
        }
        Body::Reply { id, outcome } => {
            put_head(out, 7, port, *id);
            put_outcome(out, *outcome);
        }
        Body::Updated { version } => {
            put_front(out, 8, port);
            put8(out, version.get());
        }
    }
}

fn put_scan(
    out: &mut Vec<u8>,
    port: Port,
    id: MessageId,
    stream: StreamId,
    generation: Generation,
    length: u64,
)
    requires { vec_len out.old + SCAN_SIZE ≤ vec_capacity out.old }
    ensures { out.new.items ≡ out.old.items ++ spelled_at port (Scan id stream generation length) }
{
    put_head(out, 1, port, id);
    put8(out, stream.get());
    put8(out, generation.get());
    put8(out, length);
}

// A kind, a port, a question's id, and a place in its content.
fn put_place(out: &mut Vec<u8>, kind: u8, port: Port, id: MessageId, offset: u64)
    requires { vec_len out.old + CHUNK_HEADER ≤ vec_capacity out.old }
    ensures bytes { out.new.items ≡ out.old.items ++ kind ∷ port_number port ∷ (id_fields id ++ field8 offset) }
    ensures len { vec_len out.new ≡ vec_len out.old + CHUNK_HEADER }
    ensures capacity { vec_capacity out.old ≤ vec_capacity out.new }
{
    put_head(out, kind, port, id);
    put8(out, offset);
}

// A kind, a port and a question's id.
fn put_head(out: &mut Vec<u8>, kind: u8, port: Port, id: MessageId)
    requires { vec_len out.old + HEAD_SIZE ≤ vec_capacity out.old }
    ensures bytes { out.new.items ≡ out.old.items ++ kind ∷ port_number port ∷ id_fields id }
    ensures len { vec_len out.new ≡ vec_len out.old + HEAD_SIZE }
    ensures capacity { vec_capacity out.old ≤ vec_capacity out.new }
{
    put_front(out, kind, port);
    put8(out, id.boot);
    put8(out, id.seq);
}

// A kind and a port.
fn put_front(out: &mut Vec<u8>, kind: u8, port: Port)
    requires { vec_len out.old + 2 ≤ vec_capacity out.old }
    ensures bytes { out.new.items ≡ out.old.items ++ kind ∷ port_number port ∷ [] }
    ensures len { vec_len out.new ≡ vec_len out.old + 2 }
    ensures capacity { vec_capacity out.old ≤ vec_capacity out.new }
{
    put1(out, kind);
    put1(out, port.number());
}

fn put_outcome(out: &mut Vec<u8>, outcome: Outcome)
    requires { vec_len out.old + outcome_size outcome ≤ vec_capacity out.old }
    ensures { out.new.items ≡ out.old.items ++ outcome_fields outcome }
{
    match outcome {
        Outcome::Judged { version, verdict } => match verdict {
            Verdict::Clean => {
                put1(out, 0);
                put8(out, version.get());
            }
            Verdict::Infected { index, end_at } => {
                put1(out, 1);
                put8(out, version.get());
                put4(out, index);
                put8(out, end_at);
            }
        },
        Outcome::Failed { cause } => {
            put1(out, 2);
            put1(out, cause.number());
        }
    }
}
