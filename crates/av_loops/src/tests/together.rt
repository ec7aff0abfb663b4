// Loops and openers that send over one stream at once.
ghost use Rattle.std.specs.Prelude.{IfOk};
ghost use Rattle.av_gate.specs.Seats.{IsSeatOf};

use crate::{GateSide, Sender, gate_in, gate_out};
use av_base::recorded::Recorded;
use av_base::{Limits, Mode, Port};
use av_engines::{End, Incoming, Outgoing};
use av_fakes::{FakeReader, FakeWriter};
use av_gate::{Gate, Seat, Unclosed};
use av_store::Volume;
use std::alloc::Global;
use std::sync::Wait;
use std::test::Fail;
use std::thread;
use std::thread::Threads;

const HELLO: &[u8] = b"\0\0\0\x12\x05\x01\0\0\0\0\0\0\0\x01\0\0\0\0\0\0\0\x01";

// The frame of Read of question 1.1, of 3 bytes from the first on.
const READ: &[u8] =
    b"\0\0\0\x1e\x06\x01\0\0\0\0\0\0\0\x01\0\0\0\0\0\0\0\x01\0\0\0\0\0\0\0\0\0\0\0\x03";

// The names of the streams.
const NAMES: [&[u8]; 6] = [b"a", b"b", b"c", b"d", b"e", b"f"];

fn gate_of_six(alloc: Global) -> Result<(Gate, Seat), Fail>
    ensures { IfOk result (λ r. IsSeatOf r.0 r.1) }
{
    let mut volume = Volume::new(alloc, 1, Limits::greatest());
    for name in NAMES {
        let stream = volume.create(alloc, name)?;
        volume.write(stream, 0, b"ABC")?;
    }
    match Gate::new(alloc, volume, Mode::FailClosed, Limits::greatest()) {
        Ok(made) => Ok(made),
        Err(_) => Err(Fail::new("no gate")),
    }
}

// The loop into a gate over frames in pieces, for a thread of its own.
fn reads<R: Wait>(
    rt: &R,
    alloc: Global,
    gate: &Gate,
    mut seat: Seat,
    text: &[u8],
    sender: &Sender<FakeWriter>,
) -> (Seat, End)
    requires { IsSeatOf gate.now seat }
{
    let mut reader = FakeReader::new(text).in_pieces_of(READ.len());
    let side = GateSide {
        rt,
        alloc,
        gate,
        port: Port::One,
        sender,
    };
    let end = gate_in(&side, &mut seat, &mut Recorded::new(&mut reader), 10_000);
    (seat, end)
}

// The loop out of a gate, for another.
fn writes<R: Wait>(
    rt: &R,
    alloc: Global,
    gate: &Gate,
    mut seat: Seat,
    sender: &Sender<FakeWriter>,
) -> (Seat, End)
    requires { IsSeatOf gate.now seat }
{
    let side = GateSide {
        rt,
        alloc,
        gate,
        port: Port::One,
        sender,
    };
    let end = gate_out(&side, &mut seat);
    (seat, end)
}

// Opens all streams but the first, and stops the gate.
fn opens<R: Wait>(rt: &R, alloc: Global, gate: &Gate, mut seat: Seat) -> Seat
    requires { IsSeatOf gate.now seat }
{
    'names: for name in &NAMES[1..] {
        let _ = gate.open(rt, alloc, &mut seat, name);
        thread::yield_now();
    }
    gate.stop(rt);
    seat
}

// The seats of both loops and of an opener, and how the loops ended, once all three are done.
fn at_once<R: Threads + Wait + Sync>(
    rt: &R,
    alloc: Global,
    gate: &Gate,
    mut seat: Seat,
    text: &[u8],
    sender: &Sender<FakeWriter>,
) -> Result<(Vec<Seat>, End, End), Fail>
    requires { IsSeatOf gate.now seat }
{
    let reader = gate.seat(&mut seat);
    let writer = gate.seat(&mut seat);
    let (into, (out, opener)) = thread::join(
        rt,
        move ||
            requires { IsSeatOf gate.now reader }
        { reads(rt, alloc, gate, reader, text, sender) },
        move ||
            requires writer { IsSeatOf gate.now writer }
            requires seat { IsSeatOf gate.now seat }
        {
            thread::join(
                rt,
                move ||
                    requires { IsSeatOf gate.now writer }
                { writes(rt, alloc, gate, writer, sender) },
                move ||
                    requires { IsSeatOf gate.now seat }
                { opens(rt, alloc, gate, seat) },
            )
        },
    );
    let mut seats = Vec::new(alloc);
    seats.push(into.0)?;
    seats.push(out.0)?;
    seats.push(opener)?;
    Ok((seats, into.1, out.1))
}

// Welcomes the service and opens the first stream.
fn begun<R: Wait>(rt: &R, alloc: Global, gate: &Gate, seat: &mut Seat) -> Result<(), Fail>
    requires { IsSeatOf gate.now seat.old }
    ensures { IsSeatOf gate.now seat.new }
{
    let mut hello = Recorded::new(FakeReader::new(HELLO));
    let mut incoming = Incoming::new(alloc, 10)?;
    let Ok(message) = incoming.next(&mut hello) else {
        return Err(Fail::new("no message"));
    };
    gate.message(rt, alloc, seat, &message)?;
    gate.open(rt, alloc, seat, NAMES[0])?;
    Ok(())
}

fn run<R: Threads + Wait + Sync>(
    rt: &R,
    alloc: Global,
    gate: &Gate,
    mut seat: Seat,
    text: &[u8],
    sender: &Sender<FakeWriter>,
) -> Result<(Vec<Seat>, End, End), Fail>
    requires { IsSeatOf gate.now seat }
{
    begun(rt, alloc, gate, &mut seat)?;
    at_once(rt, alloc, gate, seat, text, sender)
}

// The frames of an audit's messages, in its order.
fn frames_of(alloc: Global, gate: Gate, seats: Vec<Seat>) -> Result<FakeWriter, Fail> {
    let audit = match gate.close(seats, Vec::new(alloc)) {
        Ok(audit) => audit,
        Err(unclosed) => {
            let Unclosed {
                why: _,
                gate,
                seats: _,
                receipts: _,
            } = unclosed;
            gate.abandon();
            return Err(Fail::new("not closed"));
        }
    };
    let mut writer = Recorded::new(FakeWriter::new(alloc));
    let mut outgoing = Outgoing::new(alloc);
    for entry in &audit.events {
        if outgoing.send(&mut writer, entry.messages()).is_err() {
            return Err(Fail::new("not written"));
        }
    }
    Ok(writer.device)
}

// What went out, what the audit says of it, and how the loops ended.
fn sent_and_said<R: Threads + Wait + Sync>(
    rt: &R,
    alloc: Global,
    text: &[u8],
) -> Result<(FakeWriter, FakeWriter, End, End), Fail> {
    let (gate, seat) = gate_of_six(alloc)?;
    let sender = Sender::new(alloc, FakeWriter::new(alloc).in_pieces_of(5));
    match run(rt, alloc, &gate, seat, text, &sender) {
        Ok((seats, into, out)) => {
            let said = frames_of(alloc, gate, seats)?;
            Ok((sender.into_writer(), said, into, out))
        }
        Err(why) => {
            gate.abandon();
            Err(why)
        }
    }
}

#[test]
fn frames_that_loops_and_openers_send_at_once_stand_in_the_order_of_the_events(
    rt: HostRuntime,
) -> Result<(), Fail> {
    let alloc = rt.alloc();
    let mut text = Vec::new(alloc);
    for _ in 0..50u32 {
        text.extend_from_slice(READ)?;
    }
    for _ in 0..5u32 {
        let (sent, said, into, out) = sent_and_said(&rt, alloc, text.as_slice())?;
        assert!(&rt; (into, out) == (End::Closed, End::Done));
        assert!(&rt; sent.taken().len() > 50 * 33 && sent.taken() == said.taken());
    }
    Ok(())
}
