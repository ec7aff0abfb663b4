// The loops round a desk and a pool, over streams in memory.
ghost use Rattle.std.specs.Prelude.{◌≡◌};

use crate::tests::meeting::{Begun, Meeting};
use crate::{DeskSide, Sender, desk_done, desk_in, desk_in_running_works, desk_out};
use av_base::recorded::Recorded;
use av_base::{Limits, Port, Version};
use av_desk::{Audit, Desk, Event, Taken};
use av_engines::{End, Incoming};
use av_fakes::{FakeReader, FakeWriter, Fault, may_refuse, refuse_no_more};
use av_pool::{Giver, Pool, Taker};
use av_sigset::{Catalogue, SignatureSet};
use std::alloc::Global;
use std::process::Abort;
use std::sync::atomic::Ordering::SeqCst;
use std::sync::{Arc, Wait};
use std::test::Fail;
use std::thread::Threads;

// The frame of Hello of volume 1 and version 1.
const HELLO: &[u8] = b"\0\0\0\x12\x05\x01\0\0\0\0\0\0\0\x01\0\0\0\0\0\0\0\x01";

// The frames of Scan of 1.1 and 1.2, of the streams 1 and 2, each of length 2, and then of the Chunk of each: AB and XX.
const TWO_CONTENTS: &[u8] =
    b"\0\0\0\x2a\x01\x01\0\0\0\0\0\0\0\x01\0\0\0\0\0\0\0\x01\0\0\0\0\0\0\0\x01\0\0\0\0\0\0\0\x02\0\0\0\0\0\0\0\x02\
\0\0\0\x2a\x01\x01\0\0\0\0\0\0\0\x01\0\0\0\0\0\0\0\x02\0\0\0\0\0\0\0\x02\0\0\0\0\0\0\0\x02\0\0\0\0\0\0\0\x02\
\0\0\0\x1c\x02\x01\0\0\0\0\0\0\0\x01\0\0\0\0\0\0\0\x01\0\0\0\0\0\0\0\0AB\
\0\0\0\x1c\x02\x01\0\0\0\0\0\0\0\x01\0\0\0\0\0\0\0\x02\0\0\0\0\0\0\0\0XX";

// What is sent where the two contents are judged one after the other: Hello, Read of the 2 bytes of each, clean and infected.
const TALK: &[u8] = b"\0\0\0\x12\x05\x01\0\0\0\0\0\0\0\x01\0\0\0\0\0\0\0\x01\
\0\0\0\x1e\x06\x01\0\0\0\0\0\0\0\x01\0\0\0\0\0\0\0\x01\0\0\0\0\0\0\0\0\0\0\0\x02\
\0\0\0\x1e\x06\x01\0\0\0\0\0\0\0\x01\0\0\0\0\0\0\0\x02\0\0\0\0\0\0\0\0\0\0\0\x02\
\0\0\0\x1b\x07\x01\0\0\0\0\0\0\0\x01\0\0\0\0\0\0\0\x01\0\0\0\0\0\0\0\0\x01\
\0\0\0\x27\x07\x01\0\0\0\0\0\0\0\x01\0\0\0\0\0\0\0\x02\x01\0\0\0\0\0\0\0\x01\0\0\0\0\0\0\0\0\0\0\0\x02";

// How many bytes of it come before the replies, and where the second begins.
const ASKED: usize = 90;

const SECOND_REPLY: usize = 121;

// A desk that has greeted its filter.
fn connected<R: Wait>(rt: &R, alloc: Global) -> Result<Desk, Fail> {
    let mut catalogue = Catalogue::new(alloc);
    let set = SignatureSet::from_patterns(alloc, Version::new(1), &[b"XX".as_slice()])?;
    if catalogue.publish(set).is_err() {
        return Err(Fail::new("a first set was refused"));
    }
    let desk = Desk::new(alloc, 1, Port::One, catalogue, Limits::greatest())?;
    desk.connect(rt, alloc)?;
    Ok(desk)
}

fn side_of<'a, R, W>(
    rt: &'a R,
    alloc: Global,
    desk: &'a Desk,
    sender: &'a Sender<W>,
) -> DeskSide<'a, R, W> {
    DeskSide {
        rt,
        alloc,
        desk,
        sender,
    }
}

// The kinds of an audit's events, a letter each.
fn kinds(alloc: Global, audit: &Audit) -> Result<Vec<u8>, Fail> {
    let mut kinds = Vec::new(alloc);
    for entry in &audit.events {
        kinds.push(match entry.event() {
            Event::Connect => b'c',
            Event::Receive { .. } => b'm',
            Event::Finish { .. } => b'f',
            Event::Disconnect => b'd',
            _ => b'?',
        })?;
    }
    Ok(kinds)
}

// The first loop over a stream, and then the second over what the pool gives.
fn in_and_done<R: Wait>(
    side: &DeskSide<'_, R, FakeWriter>,
    giver: &mut Giver,
    taker: &mut Taker,
    reader: &mut FakeReader<'_>,
) -> (End, End)
    ensures giver { giver.new.channel ≡ giver.old.channel }
    ensures taker { taker.new.channel ≡ taker.old.channel }
{
    let into = desk_in(side, giver, &mut Recorded::new(reader), 1_000);
    (into, desk_done(side, taker))
}

#[test]
fn two_workers_scan_what_a_stream_brings_at_once(rt: HostRuntime) -> Result<(), Fail> {
    let alloc = rt.alloc();
    let begun = Arc::new(alloc, Begun::none())?;
    let pace = Meeting {
        begun: Arc::try_clone(&begun)?,
    };
    let desk = connected(&rt, alloc)?;
    let Ok((pool, mut giver, mut taker)) = Pool::start(rt, alloc, 2, pace) else {
        return Err(Fail::new("not started"));
    };
    let mut reader = FakeReader::new(TWO_CONTENTS);
    let sender = Sender::new(alloc, FakeWriter::new(alloc));
    let side = side_of(&rt, alloc, &desk, &sender);
    let ends = in_and_done(&side, &mut giver, &mut taker, &mut reader);
    let left = pool.stop(&rt, giver, taker);
    let count = left.dones.len();
    left.discard();
    assert!(&rt; ends == (End::Closed, End::Done));
    assert!(&rt; begun.first.load(SeqCst) == 1 && begun.second.load(SeqCst) == 1);
    assert!(&rt; begun.met.load(SeqCst) == 2);
    // A mark may come out before a work that another worker still runs.
    let kinds = kinds(alloc, &desk.close())?;
    assert!(&rt; kinds.starts_with(b"cmmmmd") && count <= 2 && kinds.len() == 8 - count);
    Ok(())
}

// What is sent where two contents come in pieces of this size, and the kinds of the events.
fn talk_in<R: Wait>(
    rt: &R,
    alloc: Global,
    giver: &mut Giver,
    piece: usize,
) -> Result<(FakeWriter, Vec<u8>), Fail>
    ensures { giver.new.channel ≡ giver.old.channel }
{
    let desk = connected(rt, alloc)?;
    let sender = Sender::new(alloc, FakeWriter::new(alloc));
    let mut reader = FakeReader::new(TWO_CONTENTS).in_pieces_of(piece);
    let side = side_of(rt, alloc, &desk, &sender);
    desk_in_running_works(&side, giver, &mut Recorded::new(&mut reader), 1_000);
    Ok((sender.into_writer(), kinds(alloc, &desk.close())?))
}

fn works_run_inline<R: Wait + Abort>(rt: &R, alloc: Global, giver: &mut Giver) -> Result<(), Fail>
    ensures { giver.new.channel ≡ giver.old.channel }
{
    let (one_by_one, kinds) = talk_in(rt, alloc, giver, 7)?;
    assert!(rt; kinds.as_slice() == b"cmmmfmfd".as_slice());
    assert!(rt; one_by_one.taken() == TALK && one_by_one.writes() == 5);
    let (at_once, kinds) = talk_in(rt, alloc, giver, 1_000)?;
    assert!(rt; kinds.as_slice() == b"cmmmmfd".as_slice());
    assert!(rt;
        &at_once.taken()[..ASKED] == &TALK[..ASKED]
            && &at_once.taken()[ASKED..] == &TALK[SECOND_REPLY..]
    );
    assert!(rt; at_once.writes() == 2);
    Ok(())
}

#[test]
fn a_work_behind_which_nothing_has_come_is_run_by_who_read_it(rt: HostRuntime) -> Result<(), Fail> {
    let alloc = rt.alloc();
    let Ok((pool, mut giver, taker)) = Pool::start(rt, alloc, 1, ()) else {
        return Err(Fail::new("not started"));
    };
    let passed = works_run_inline(&rt, alloc, &mut giver);
    pool.stop(&rt, giver, taker).discard();
    passed
}

// Gives the works of both contents to the pool.
fn give_both<R: Wait>(rt: &R, alloc: Global, desk: &Desk, giver: &mut Giver) -> Result<(), Fail>
    ensures { giver.new.channel ≡ giver.old.channel }
{
    let mut reader = Recorded::new(FakeReader::new(TWO_CONTENTS));
    let mut incoming = Incoming::new(alloc, 10)?;
    for _ in 0..4u32 {
        let Ok(message) = incoming.next(&mut reader) else {
            return Err(Fail::new("no message"));
        };
        let Ok(Taken { lent, note: _ }) = desk.message(rt, alloc, message) else {
            return Err(Fail::new("refused"));
        };
        if let Some(lent) = lent {
            giver.give(rt, lent);
        }
    }
    giver.wake(rt);
    Ok(())
}

fn give_and_take<R: Wait>(
    rt: &R,
    alloc: Global,
    desk: &Desk,
    giver: &mut Giver,
    taker: &mut Taker,
    sender: &Sender<FakeWriter>,
) -> Result<End, Fail>
    ensures giver { giver.new.channel ≡ giver.old.channel }
    ensures taker { taker.new.channel ≡ taker.old.channel }
{
    give_both(rt, alloc, desk, giver)?;
    Ok(desk_done(&side_of(rt, alloc, desk, sender), taker))
}

// How the loop behind a pool ends over this writer, what went out, and the kinds of the events.
fn talk_done<R: Threads + Wait + Copy + Send + 'static>(
    rt: R,
    alloc: Global,
    writer: FakeWriter,
) -> Result<(End, FakeWriter, Vec<u8>), Fail> {
    let desk = connected(&rt, alloc)?;
    let sender = Sender::new(alloc, writer);
    let Ok((pool, mut giver, mut taker)) = Pool::start(rt, alloc, 1, ()) else {
        return Err(Fail::new("not started"));
    };
    let ended = give_and_take(&rt, alloc, &desk, &mut giver, &mut taker, &sender);
    pool.stop(&rt, giver, taker).discard();
    let end = ended?;
    Ok((end, sender.into_writer(), kinds(alloc, &desk.close())?))
}

#[test]
fn what_comes_out_of_a_pool_is_sent_by_who_takes_it(rt: HostRuntime) -> Result<(), Fail> {
    let alloc = rt.alloc();
    let (end, writer, kinds) = talk_done(rt, alloc, FakeWriter::new(alloc))?;
    assert!(&rt; end == End::Done && kinds.as_slice() == b"cmmmmff".as_slice());
    assert!(&rt; writer.taken() == TALK && writer.writes() == 2);
    let places: [u64; 4] = [1, 23, 91, 122];
    for write in places {
        let failing = FakeWriter::new(alloc)
            .in_pieces_of(1)
            .with(Fault::Fails { write });
        let (end, writer, kinds) = talk_done(rt, alloc, failing)?;
        assert!(&rt; end == End::WriteFault && writer.taken() == &TALK[..write as usize - 1]);
        assert!(&rt; kinds.last() == Some(&b'd'));
    }
    Ok(())
}

// How the loop into a desk ends, and the kinds of its events.
fn ends_in<R: Wait>(
    rt: &R,
    alloc: Global,
    giver: &mut Giver,
    reader: &mut FakeReader<'_>,
) -> Result<(End, Vec<u8>), Fail>
    ensures { giver.new.channel ≡ giver.old.channel }
{
    let desk = connected(rt, alloc)?;
    let sender = Sender::new(alloc, FakeWriter::new(alloc));
    let end = desk_in(
        &side_of(rt, alloc, &desk, &sender),
        giver,
        &mut Recorded::new(reader),
        10,
    );
    Ok((end, kinds(alloc, &desk.close())?))
}

fn faults_in<R: Wait + Abort>(rt: &R, alloc: Global, giver: &mut Giver) -> Result<(), Fail>
    ensures { giver.new.channel ≡ giver.old.channel }
{
    let (end, kinds) = ends_in(rt, alloc, giver, &mut FakeReader::new(b""))?;
    assert!(rt; end == End::Closed && kinds.as_slice() == b"cd".as_slice());
    let (end, kinds) = ends_in(rt, alloc, giver, &mut FakeReader::new(b"\0\0\0\0"))?;
    assert!(rt; end == End::Frame && kinds.as_slice() == b"cd".as_slice());
    let (end, kinds) = ends_in(rt, alloc, giver, &mut FakeReader::new(HELLO).failing_at(2))?;
    assert!(rt; end == End::ReadFault && kinds.as_slice() == b"cmd".as_slice());
    let mut slow = FakeReader::new(HELLO).in_pieces_of(1);
    let (end, kinds) = ends_in(rt, alloc, giver, &mut slow)?;
    assert!(rt; end == End::ReadFault && kinds.as_slice() == b"cd".as_slice());
    Ok(())
}

#[test]
fn the_end_of_a_stream_into_a_desk_is_told_and_is_a_disconnection(
    rt: HostRuntime,
) -> Result<(), Fail> {
    let alloc = rt.alloc();
    let Ok((pool, mut giver, taker)) = Pool::start(rt, alloc, 1, ()) else {
        return Err(Fail::new("not started"));
    };
    let passed = faults_in(&rt, alloc, &mut giver);
    pool.stop(&rt, giver, taker).discard();
    passed
}

#[test]
fn what_a_desk_sends_goes_out_as_frames(rt: HostRuntime) -> Result<(), Fail> {
    let alloc = rt.alloc();
    let desk = connected(&rt, alloc)?;
    desk.stop(&rt);
    let sender = Sender::new(alloc, FakeWriter::new(alloc).in_pieces_of(1));
    let end = desk_out(&side_of(&rt, alloc, &desk, &sender));
    assert!(&rt; end == End::Done && sender.into_writer().taken() == HELLO);
    let kinds = kinds(alloc, &desk.close())?;
    assert!(&rt; kinds.as_slice() == b"c".as_slice());
    Ok(())
}

// Greets, and lets a loop send that to a writer that fails at this write: the loop into a desk, or the one out of it. Then greets
// again, and lets the other send. What was written, how both ended, and the kinds of the events.
fn greets_in_vain<R: Wait>(
    rt: &R,
    alloc: Global,
    giver: &mut Giver,
    write: u64,
    is_into: bool,
) -> Result<(FakeWriter, End, End, Vec<u8>), Fail>
    ensures { giver.new.channel ≡ giver.old.channel }
{
    let desk = connected(rt, alloc)?;
    let writer = FakeWriter::new(alloc)
        .in_pieces_of(1)
        .with(Fault::Fails { write });
    let sender = Sender::new(alloc, writer);
    let mut reader = FakeReader::new(TWO_CONTENTS);
    let first = if is_into {
        desk_in(
            &side_of(rt, alloc, &desk, &sender),
            giver,
            &mut Recorded::new(&mut reader),
            10,
        )
    } else {
        desk_out(&side_of(rt, alloc, &desk, &sender))
    };
    desk.connect(rt, alloc)?;
    let second = desk_out(&side_of(rt, alloc, &desk, &sender));
    let kinds = kinds(alloc, &desk.close())?;
    Ok((sender.into_writer(), first, second, kinds))
}

fn greets_fail<R: Wait + Abort>(rt: &R, alloc: Global, giver: &mut Giver) -> Result<(), Fail>
    ensures { giver.new.channel ≡ giver.old.channel }
{
    for write in 1..22u64 {
        for is_into in [false, true] {
            let (writer, first, second, kinds) = greets_in_vain(rt, alloc, giver, write, is_into)?;
            assert!(rt; (first, second) == (End::WriteFault, End::WriteFault));
            assert!(rt; writer.taken() == &HELLO[..write as usize - 1]);
            assert!(rt; kinds.as_slice() == b"cdc".as_slice());
        }
    }
    Ok(())
}

#[test]
fn a_write_of_a_desk_that_fails_is_told_once_as_a_disconnection(
    rt: HostRuntime,
) -> Result<(), Fail> {
    let alloc = rt.alloc();
    let Ok((pool, mut giver, taker)) = Pool::start(rt, alloc, 1, ()) else {
        return Err(Fail::new("not started"));
    };
    let passed = greets_fail(&rt, alloc, &mut giver);
    pool.stop(&rt, giver, taker).discard();
    passed
}

#[test]
fn refused_or_not_a_loop_out_of_a_desk_comes_to_an_end(rt: HostRuntime) -> Result<(), Fail> {
    let alloc = rt.alloc();
    let desk = connected(&rt, alloc)?;
    desk.stop(&rt);
    let sender = Sender::new(alloc, FakeWriter::new(alloc));
    may_refuse(alloc);
    let end = desk_out(&side_of(&rt, alloc, &desk, &sender));
    refuse_no_more(alloc);
    assert!(&rt; end == End::Done || end == End::Memory || end == End::WriteFault);
    Ok(())
}
