// Scans that are more than a service keeps, and a chunk that is too long.
use crate::tests::frames::DOWN;
use crate::tests::sides::{limits_with, served, served_within};
use av_base::{ByteList, Generation, LimitField, MessageId, Port, StreamId};
use av_fakes::{FakeReader, FakeWriter};
use av_frame::encode::encode_into;
use av_frame::{End, FailCause, Message, Outcome};
use std::alloc::Global;
use std::test::Fail;

// Scan 1.n of stream n, of one byte; Read of it.
fn put_scan(bytes: &mut Vec<u8>, seq: u64) -> Result<(), Fail> {
    let number = seq.max(1);
    let id = MessageId {
        boot: 1,
        seq: number,
    };
    let message = Message::scan(Port::One, id, StreamId::new(number), Generation::new(2), 1);
    Ok(encode_into(&message, bytes)?)
}

fn put_read(bytes: &mut Vec<u8>, seq: u64) -> Result<(), Fail> {
    let id = MessageId {
        boot: 1,
        seq: seq.max(1),
    };
    Ok(encode_into(&Message::read(Port::One, id, 0, 1), bytes)?)
}

fn put_failed(bytes: &mut Vec<u8>, seq: u64, cause: FailCause) -> Result<(), Fail> {
    let id = MessageId {
        boot: 1,
        seq: seq.max(1),
    };
    Ok(encode_into(
        &Message::reply(Port::One, id, Outcome::Failed { cause }),
        bytes,
    )?)
}

fn put_abort(bytes: &mut Vec<u8>, seq: u64) -> Result<(), Fail> {
    let id = MessageId {
        boot: 1,
        seq: seq.max(1),
    };
    Ok(encode_into(&Message::abort(Port::One, id), bytes)?)
}

fn flood(alloc: Global) -> Result<Vec<u8>, Fail> {
    let mut bytes = Vec::new(alloc);
    for seq in 1..258u64 {
        put_scan(&mut bytes, seq)?;
    }
    put_abort(&mut bytes, 1)?;
    put_scan(&mut bytes, 258)?;
    Ok(bytes)
}

fn answers_to_flood(alloc: Global) -> Result<Vec<u8>, Fail> {
    let mut bytes = Vec::new(alloc);
    for seq in 1..257u64 {
        put_read(&mut bytes, seq)?;
    }
    put_failed(&mut bytes, 257, FailCause::JobsFull)?;
    put_read(&mut bytes, 258)?;
    Ok(bytes)
}

// Whether this text is all that was written from a place on.
fn is_from(out: &[u8], place: usize, text: &[u8]) -> bool {
    match out.get(place..) {
        Some(rest) => rest == text,
        None => false,
    }
}

#[test]
fn a_flood_of_scans_is_answered_one_by_one(rt: HostRuntime) -> Result<(), Fail> {
    let alloc = rt.alloc();
    let input = flood(alloc)?;
    let mut writer = FakeWriter::new(alloc);
    let end = served_within(
        alloc,
        limits_with((LimitField::Jobs, 256))?,
        &mut FakeReader::new(&input),
        &mut writer,
        1_000,
    )?;
    assert!(rt; end == End::Closed);
    let answers = answers_to_flood(alloc)?;
    assert!(rt; is_from(writer.taken(), 22, &answers));
    Ok(())
}

#[test]
fn a_chunk_past_the_length_ends_its_job_and_the_next_one_is_ignored(
    rt: HostRuntime,
) -> Result<(), Fail> {
    let alloc = rt.alloc();
    let mut input = Vec::new(alloc);
    input.extend_from_slice(&DOWN[..46])?;
    for _ in 0..2u8 {
        let bytes = ByteList::from_vec(Vec::from_slice(alloc, b"ABCD")?);
        put_chunk(&mut input, bytes)?;
    }
    let mut failed = Vec::new(alloc);
    put_failed(&mut failed, 1, FailCause::PastLength)?;
    let mut writer = FakeWriter::new(alloc);
    let end = served(alloc, &mut FakeReader::new(&input), &mut writer, 1_000)?;
    assert!(rt; end == End::Closed);
    assert!(rt; is_from(writer.taken(), 56, &failed));
    Ok(())
}

fn put_chunk(bytes: &mut Vec<u8>, chunk: ByteList) -> Result<(), Fail> {
    let id = MessageId { boot: 1, seq: 1 };
    if !av_frame::message::is_chunk(id, 0, chunk.as_slice()) {
        return Err("no chunk".into());
    }
    Ok(encode_into(&Message::chunk(Port::One, id, 0, chunk), bytes)?)
}
