// The loops round a gate, over streams in memory.
ghost use Rattle.std.specs.Prelude.{IfOk};
ghost use Rattle.av_gate.specs.Seats.{IsSeatOf};

use crate::{GateSide, Sender, gate_in, gate_out};
use av_base::recorded::Recorded;
use av_base::{Cause, LimitValues, Limits, Mode, OpenId, Port};
use av_engines::End;
use av_fakes::{FakeReader, FakeWriter, Fault, may_refuse, refuse_no_more};
use av_filter::Note;
use av_gate::{Event, Gate, Seat, Unclosed};
use av_pend::Answer;
use av_store::Volume;
use std::alloc::Global;
use std::process::Abort;
use std::sync::Wait;
use std::test::Fail;

// The frame of Hello of volume 1 and version 1, and the same with a body of an unknown kind behind it.
const HELLO: &[u8] = b"\0\0\0\x12\x05\x01\0\0\0\0\0\0\0\x01\0\0\0\0\0\0\0\x01";

const HELLO_AND_NO_MESSAGE: &[u8] =
    b"\0\0\0\x12\x05\x01\0\0\0\0\0\0\0\x01\0\0\0\0\0\0\0\x01\0\0\0\x01\x09";

// The frame of Scan of question 1.1, stream 1, generation 2, length 3.
const SCAN: &[u8] =
    b"\0\0\0\x2a\x01\x01\0\0\0\0\0\0\0\x01\0\0\0\0\0\0\0\x01\0\0\0\0\0\0\0\x01\0\0\0\0\0\0\0\x02\0\0\0\0\0\0\0\x03";

// The frame of Read of question 1.1, of 3 bytes from the first on, twice; and that of the Chunk that answers it, which holds ABC.
const TWO_READS: &[u8] =
    b"\0\0\0\x1e\x06\x01\0\0\0\0\0\0\0\x01\0\0\0\0\0\0\0\x01\0\0\0\0\0\0\0\0\0\0\0\x03\
\0\0\0\x1e\x06\x01\0\0\0\0\0\0\0\x01\0\0\0\0\0\0\0\x01\0\0\0\0\0\0\0\0\0\0\0\x03";

const CHUNK: &[u8] = b"\0\0\0\x1d\x02\x01\0\0\0\0\0\0\0\x01\0\0\0\0\0\0\0\x01\0\0\0\0\0\0\0\0ABC";

// A volume with the stream a, which holds ABC.
fn volume_of_one(alloc: Global, limits: Limits) -> Result<Volume, Fail> {
    let mut volume = Volume::new(alloc, 1, limits);
    let stream = volume.create(alloc, b"a")?;
    volume.write(stream, 0, b"ABC")?;
    Ok(volume)
}

fn gate_of_one(alloc: Global, limits: Limits) -> Result<(Gate, Seat), Fail>
    ensures { IfOk result (λ r. IsSeatOf r.0 r.1) }
{
    match Gate::new(
        alloc,
        volume_of_one(alloc, limits)?,
        Mode::FailClosed,
        limits,
    ) {
        Ok(made) => Ok(made),
        Err(_) => Err(Fail::new("no gate")),
    }
}

// How a loop into a new gate ends, how many events there were, and whether the last was a disconnection.
fn ends_in<R: Wait>(
    rt: &R,
    alloc: Global,
    limits: Limits,
    reader: &mut FakeReader<'_>,
    turns: u64,
) -> Result<(End, usize, bool), Fail> {
    let (gate, mut seat) = gate_of_one(alloc, limits)?;
    let sender = Sender::new(alloc, FakeWriter::new(alloc));
    let side = GateSide {
        rt,
        alloc,
        gate: &gate,
        port: Port::One,
        sender: &sender,
    };
    let end = gate_in(&side, &mut seat, &mut Recorded::new(reader), turns);
    let (events, disconnects) = ended(alloc, gate, seat)?;
    Ok((end, events, disconnects))
}

// Closes a gate: how many events there were, and whether the last was a disconnection.
fn ended(alloc: Global, gate: Gate, seat: Seat) -> Result<(usize, bool), Fail> {
    let mut seats = Vec::new(alloc);
    if seats.push(seat).is_err() {
        gate.abandon();
        return Err(Fail::new("no memory"));
    }
    match gate.close(seats, Vec::new(alloc)) {
        Ok(audit) => {
            let disconnects = match audit.events.last() {
                Some(entry) => matches!(entry.event(), Event::Disconnect { port: Port::One }),
                None => false,
            };
            Ok((audit.events.len(), disconnects))
        }
        Err(unclosed) => {
            let Unclosed {
                why: _,
                gate,
                seats: _,
                receipts: _,
            } = unclosed;
            gate.abandon();
            Err(Fail::new("not closed"))
        }
    }
}

// The same as HELLO at the second port.
const HELLO_AT_2: &[u8] = b"\0\0\0\x12\x05\x02\0\0\0\0\0\0\0\x01\0\0\0\0\0\0\0\x01";

#[test]
fn what_comes_at_another_port_is_passed_over(rt: HostRuntime) -> Result<(), Fail> {
    let all = Limits::greatest();
    let mut reader = FakeReader::new(HELLO_AT_2);
    let got = ends_in(&rt, rt.alloc(), all, &mut reader, 10)?;
    assert!(&rt; got == (End::Closed, 1, true));
    Ok(())
}

#[test]
fn the_end_of_a_stream_is_told_and_is_a_disconnection(rt: HostRuntime) -> Result<(), Fail> {
    let alloc = rt.alloc();
    let all = Limits::greatest();
    let rows: [(FakeReader<'_>, u64, End, usize); 6] = [
        (FakeReader::new(HELLO), 10, End::Closed, 2),
        (FakeReader::new(b""), 10, End::Closed, 1),
        (
            FakeReader::new(&HELLO[..20]).in_pieces_of(1),
            100,
            End::Closed,
            1,
        ),
        (FakeReader::new(HELLO_AND_NO_MESSAGE), 10, End::Frame, 2),
        (FakeReader::new(HELLO).failing_at(2), 10, End::ReadFault, 2),
        (FakeReader::new(HELLO), 1, End::ReadFault, 2),
    ];
    for (mut reader, turns, end, events) in rows {
        let got = ends_in(&rt, alloc, all, &mut reader, turns)?;
        assert!(&rt; got == (end, events, true));
    }
    Ok(())
}

#[test]
fn a_full_audit_ends_a_loop_without_an_event(rt: HostRuntime) -> Result<(), Fail> {
    let values = LimitValues {
        audit: 1,
        ..Limits::greatest().values()
    };
    let Ok(limits) = Limits::check(values) else {
        return Err(Fail::new("limits"));
    };
    let mut reader = FakeReader::new(HELLO);
    let got = ends_in(&rt, rt.alloc(), limits, &mut reader, 10)?;
    assert!(&rt; got == (End::AuditFull, 1, false));
    Ok(())
}

// Opens a behind a welcome, and lets the messages out to a writer, by the loop into the gate over this reader, or by the loop out
// of it: how the loop ended, how many events there were, what the open was told, and what was written.
fn ends_out<R: Wait>(
    rt: &R,
    alloc: Global,
    reader: Option<FakeReader<'_>>,
    writer: FakeWriter,
) -> Result<(End, usize, Option<Answer>, FakeWriter), Fail> {
    let (gate, mut seat) = gate_of_one(alloc, Limits::greatest())?;
    let sender = Sender::new(alloc, writer);
    match out_of(rt, alloc, &gate, &mut seat, reader, &sender) {
        Ok((end, answer)) => {
            let (events, _) = ended(alloc, gate, seat)?;
            Ok((end, events, answer, sender.into_writer()))
        }
        Err(why) => {
            gate.abandon();
            Err(why)
        }
    }
}

fn out_of<R: Wait>(
    rt: &R,
    alloc: Global,
    gate: &Gate,
    seat: &mut Seat,
    reader: Option<FakeReader<'_>>,
    sender: &Sender<FakeWriter>,
) -> Result<(End, Option<Answer>), Fail>
    requires { IsSeatOf gate.now seat.old }
    ensures { IsSeatOf gate.now seat.new }
{
    let mut hello = FakeReader::new(HELLO_AND_NO_MESSAGE);
    let _ = welcome(rt, alloc, gate, seat, &mut hello)?;
    let ticket = gate.open(rt, alloc, seat, b"a")?;
    gate.stop(rt);
    let side = GateSide {
        rt,
        alloc,
        gate,
        port: Port::One,
        sender,
    };
    let end = match reader {
        Some(mut reader) => gate_in(&side, seat, &mut Recorded::new(&mut reader), 10),
        None => gate_out(&side, seat),
    };
    let answer = ticket.poll(&mut ticket.note()).copied();
    gate.disconnect(rt, alloc, seat, Port::One)?;
    Ok((end, answer))
}

// Hands the first message of a stream on.
fn welcome<R: Wait>(
    rt: &R,
    alloc: Global,
    gate: &Gate,
    seat: &mut Seat,
    reader: &mut FakeReader<'_>,
) -> Result<Note, Fail>
    requires { IsSeatOf gate.now seat.old }
    ensures { IsSeatOf gate.now seat.new }
{
    let mut incoming = av_engines::Incoming::new(alloc, 10)?;
    match incoming.next(&mut Recorded::new(reader)) {
        Ok(message) => Ok(gate.message(rt, alloc, seat, &message)?),
        Err(_) => Err(Fail::new("no message")),
    }
}

#[test]
fn what_a_gate_sends_goes_out_as_frames(rt: HostRuntime) -> Result<(), Fail> {
    let writer = FakeWriter::new(rt.alloc()).in_pieces_of(1);
    let (end, events, answer, writer) = ends_out(&rt, rt.alloc(), None, writer)?;
    assert!(&rt; end == End::Done && events == 3 && answer == None);
    assert!(&rt; writer.taken() == SCAN);
    Ok(())
}

#[test]
fn what_one_read_brings_is_answered_in_one_write(rt: HostRuntime) -> Result<(), Fail> {
    let alloc = rt.alloc();
    for (piece, writes) in [(34, 3u64), (1_000, 2u64)] {
        let reader = FakeReader::new(TWO_READS).in_pieces_of(piece);
        let (end, events, _, writer) = ends_out(&rt, alloc, Some(reader), FakeWriter::new(alloc))?;
        assert!(&rt; end == End::Closed && events == 6);
        let taken = writer.taken();
        assert!(&rt; taken.len() == 112 && &taken[..46] == SCAN);
        assert!(&rt; &taken[46..79] == CHUNK && &taken[79..] == CHUNK && writer.writes() == writes);
    }
    Ok(())
}

#[test]
fn a_write_that_fails_is_a_disconnection(rt: HostRuntime) -> Result<(), Fail> {
    let alloc = rt.alloc();
    let lost = Answer::Denied {
        open_id: OpenId::new(1),
        cause: Cause::PortDisconnected,
    };
    for write in 1..46 {
        for is_into in [false, true] {
            let writer = FakeWriter::new(alloc)
                .in_pieces_of(1)
                .with(Fault::Fails { write });
            let reader = if is_into {
                Some(FakeReader::new(TWO_READS))
            } else {
                None
            };
            let (end, events, answer, writer) = ends_out(&rt, alloc, reader, writer)?;
            assert!(&rt; end == End::WriteFault && events == 4 && answer == Some(lost));
            assert!(&rt; writer.taken() == &SCAN[..write as usize - 1]);
        }
    }
    Ok(())
}

#[test]
fn refused_or_not_a_loop_into_a_gate_comes_to_an_end(rt: HostRuntime) -> Result<(), Fail> {
    let alloc = rt.alloc();
    let (gate, mut seat) = gate_of_one(alloc, Limits::greatest())?;
    let mut reader = FakeReader::new(HELLO);
    let sender = Sender::new(alloc, FakeWriter::new(alloc));
    may_refuse(alloc);
    let side = GateSide {
        rt: &rt,
        alloc,
        gate: &gate,
        port: Port::One,
        sender: &sender,
    };
    let end = gate_in(&side, &mut seat, &mut Recorded::new(&mut reader), 10);
    refuse_no_more(alloc);
    let (events, disconnects) = ended(alloc, gate, seat)?;
    assert!(&rt;
        end == if disconnects {
            End::Closed
        } else {
            End::Memory
        }
    );
    assert!(&rt; events == 2 || end == End::Memory);
    Ok(())
}
