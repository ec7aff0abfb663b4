// Threads over one gate and one desk: openers, a writer, a carrier each way, and a keeper who loses the connection and starts
// the desk anew.
ghost use Rattle.av_gate.specs.Seats.{IsSeatOf};

use crate::tests::frames::over_a_frame;
use crate::tests::joined::{joined, present_grants};
use crate::tests::{closed, desk_of, gate_of_two, receipts_of};
use av_base::{Port, StreamId};
use av_desk::{Desk, Taken};
use av_ends::{Receipt, Ticket};
use av_frame::{Feed, Message};
use av_gate::{Audit as GateAudit, Gate, Patch, Seat};
use std::alloc::Global;
use std::process::Abort;
use std::sync::Wait;
use std::test::Fail;
use std::thread;
use std::thread::Threads;

// The opens of each opener, and the writes of the writer.
const TURNS: u64 = 20;

fn name_of(turn: u64) -> &'static [u8] {
    if turn % 2 == 0 { b"a" } else { b"b" }
}

// Opens a and b in turn, and waits for no answer.
fn opens<R: Wait>(rt: &R, alloc: Global, gate: &Gate, mut seat: Seat) -> Option<(Seat, Vec<Ticket>)>
    requires { IsSeatOf gate.now seat }
{
    let mut tickets = Vec::new(alloc);
    for turn in 0..TURNS {
        let ticket = gate.open(rt, alloc, &mut seat, name_of(turn)).ok()?;
        tickets.push(ticket).ok()?;
        thread::yield_now();
    }
    Some((seat, tickets))
}

// Writes one byte to a and b in turn.
fn writes<R: Wait>(rt: &R, alloc: Global, gate: &Gate, mut seat: Seat) -> Option<Seat>
    requires { IsSeatOf gate.now seat }
{
    for turn in 0..TURNS {
        let patch = Patch {
            offset: 0,
            bytes: b"D",
        };
        gate.write(rt, alloc, &mut seat, name_of(turn), patch).ok()?;
        thread::yield_now();
    }
    Some(seat)
}

// Loses the connection, starts the desk anew, and connects it again, three times.
fn keeps<R: Wait>(rt: &R, alloc: Global, gate: &Gate, desk: &Desk, mut seat: Seat) -> Option<Seat>
    requires { IsSeatOf gate.now seat }
{
    for _ in 0..3u64 {
        gate.disconnect(rt, alloc, &mut seat, Port::One).ok()?;
        desk.restart(rt, alloc).ok()?;
        thread::yield_now();
        desk.connect(rt, alloc).ok()?;
        thread::yield_now();
    }
    Some(seat)
}

// Carries the gate's messages to the desk until the gate is stopped. Each work is run and brought back.
fn carries_down<R: Wait>(rt: &R, alloc: Global, gate: &Gate, desk: &Desk) -> Option<()> {
    let mut feed = Feed::new(alloc);
    for _ in rt.forever() {
        let Some(messages) = gate.wait_outgoing(rt, alloc, Port::One).ok()? else {
            return Some(());
        };
        for message in &messages {
            to_desk(rt, alloc, desk, &mut feed, message)?;
        }
    }
    Some(())
}

fn to_desk<R: Wait>(
    rt: &R,
    alloc: Global,
    desk: &Desk,
    feed: &mut Feed,
    message: &Message,
) -> Option<()> {
    let message = over_a_frame(alloc, feed, message)?;
    let Taken { lent, note: _ } = desk.message(rt, alloc, message).ok()?;
    let Some(lent) = lent else {
        return Some(());
    };
    match desk.finish(rt, alloc, lent.run()) {
        Ok(_) => Some(()),
        Err(refused) => {
            refused.value.discard();
            None
        }
    }
}

// Carries the desk's messages to the gate until the desk is stopped.
fn carries_up<R: Wait>(
    rt: &R,
    alloc: Global,
    gate: &Gate,
    desk: &Desk,
    mut seat: Seat,
) -> Option<Seat>
    requires { IsSeatOf gate.now seat }
{
    let mut feed = Feed::new(alloc);
    for _ in rt.forever() {
        let Some(messages) = desk.wait_outgoing(rt, alloc).ok()? else {
            return Some(seat);
        };
        to_gate(rt, alloc, gate, &mut seat, &mut feed, messages.as_slice())?;
    }
    Some(seat)
}

fn to_gate<R: Wait>(
    rt: &R,
    alloc: Global,
    gate: &Gate,
    seat: &mut Seat,
    feed: &mut Feed,
    messages: &[Message],
) -> Option<()>
    requires { IsSeatOf gate.now seat.old }
    ensures { IsSeatOf gate.now seat.new }
{
    for message in messages {
        let message = over_a_frame(alloc, feed, message)?;
        gate.message(rt, alloc, seat, &message).ok()?;
    }
    Some(())
}

// Two openers: their seats, and the tickets of both.
fn opened<R: Threads + Wait + Sync>(
    rt: &R,
    alloc: Global,
    gate: &Gate,
    one: Seat,
    other: Seat,
) -> Option<(Vec<Seat>, Vec<Ticket>)>
    requires one { IsSeatOf gate.now one }
    requires other { IsSeatOf gate.now other }
{
    let (first, second) = thread::join(
        rt,
        move ||
            requires { IsSeatOf gate.now one }
        { opens(rt, alloc, gate, one) },
        move ||
            requires { IsSeatOf gate.now other }
        { opens(rt, alloc, gate, other) },
    );
    let (one, mut tickets) = first?;
    let (other, more) = second?;
    for ticket in more {
        tickets.push(ticket).ok()?;
    }
    let mut seats = Vec::new(alloc);
    seats.push(one).ok()?;
    seats.push(other).ok()?;
    Some((seats, tickets))
}

// The writer and the keeper: their seats.
fn written_and_kept<R: Threads + Wait + Sync>(
    rt: &R,
    alloc: Global,
    gate: &Gate,
    desk: &Desk,
    writer: Seat,
    keeper: Seat,
) -> Option<Vec<Seat>>
    requires writer { IsSeatOf gate.now writer }
    requires keeper { IsSeatOf gate.now keeper }
{
    let (written, kept) = thread::join(
        rt,
        move ||
            requires { IsSeatOf gate.now writer }
        { writes(rt, alloc, gate, writer) },
        move ||
            requires { IsSeatOf gate.now keeper }
        { keeps(rt, alloc, gate, desk, keeper) },
    );
    let mut seats = Vec::new(alloc);
    seats.push(written?).ok()?;
    seats.push(kept?).ok()?;
    Some(seats)
}

// All that call of themselves; then the waits for messages end.
fn called<R: Threads + Wait + Sync>(
    rt: &R,
    alloc: Global,
    gate: &Gate,
    desk: &Desk,
    mut seat: Seat,
) -> Option<(Vec<Seat>, Vec<Ticket>)>
    requires { IsSeatOf gate.now seat }
{
    let one = gate.seat(&mut seat);
    let other = gate.seat(&mut seat);
    let keeper = gate.seat(&mut seat);
    let (both, rest) = thread::join(
        rt,
        move ||
            requires one { IsSeatOf gate.now one }
            requires other { IsSeatOf gate.now other }
        { opened(rt, alloc, gate, one, other) },
        move ||
            requires seat { IsSeatOf gate.now seat }
            requires keeper { IsSeatOf gate.now keeper }
        { written_and_kept(rt, alloc, gate, desk, seat, keeper) },
    );
    gate.stop(rt);
    desk.stop(rt);
    let (mut seats, tickets) = both?;
    for seat in rest? {
        seats.push(seat).ok()?;
    }
    Some((seats, tickets))
}

// The carriers of both ways: the seat of the one who carries up.
fn carried<R: Threads + Wait + Sync>(
    rt: &R,
    alloc: Global,
    gate: &Gate,
    desk: &Desk,
    seat: Seat,
) -> Option<Seat>
    requires { IsSeatOf gate.now seat }
{
    let (down, up) = thread::join(
        rt,
        move || carries_down(rt, alloc, gate, desk),
        move ||
            requires { IsSeatOf gate.now seat }
        { carries_up(rt, alloc, gate, desk, seat) },
    );
    down?;
    up
}

// Both streams are written and the desk is welcome, before any thread begins.
fn begun<R: Wait>(
    rt: &R,
    alloc: Global,
    gate: &Gate,
    desk: &Desk,
    seat: &mut Seat,
) -> Result<(), Fail>
    requires { IsSeatOf gate.now seat.old }
    ensures { IsSeatOf gate.now seat.new }
{
    let patch = Patch {
        offset: 0,
        bytes: b"ABC",
    };
    gate.write(rt, alloc, seat, b"a", patch)?;
    gate.write(rt, alloc, seat, b"b", patch)?;
    desk.connect(rt, alloc)?;
    let mut feed = Feed::new(alloc);
    let hello = desk.take_outgoing(rt, alloc)?;
    match to_gate(rt, alloc, gate, seat, &mut feed, hello.as_slice()) {
        Some(()) => Ok(()),
        None => Err(Fail::new("no greeting")),
    }
}

// Lets all threads run, and loses the connection at last, so that every open is answered.
fn run<R: Threads + Wait + Sync>(
    rt: &R,
    alloc: Global,
    gate: &Gate,
    desk: &Desk,
    mut seat: Seat,
) -> Result<(Vec<Seat>, Vec<Receipt>), Fail>
    requires { IsSeatOf gate.now seat }
{
    begun(rt, alloc, gate, desk, &mut seat)?;
    let caller = gate.seat(&mut seat);
    let carrier = gate.seat(&mut seat);
    let (calls, carries) = thread::join(
        rt,
        move ||
            requires { IsSeatOf gate.now caller }
        { called(rt, alloc, gate, desk, caller) },
        move ||
            requires { IsSeatOf gate.now carrier }
        { carried(rt, alloc, gate, desk, carrier) },
    );
    gate.disconnect(rt, alloc, &mut seat, Port::One)?;
    let (Some((mut seats, tickets)), Some(carrier)) = (calls, carries) else {
        return Err(Fail::new("a call was refused"));
    };
    seats.push(carrier)?;
    seats.push(seat)?;
    Ok((seats, receipts_of(alloc, tickets)?))
}

// No grant of either stream is of a generation that was past.
fn grants_are_present(audit: &GateAudit) -> bool {
    present_grants(audit, StreamId::new(1)).is_some()
        && present_grants(audit, StreamId::new(2)).is_some()
}

// How many calls the seats made together.
fn calls_made(seats: &[Seat]) -> usize {
    let mut made = 0usize;
    for seat in seats {
        made = made.saturating_add(seat.calls().len());
    }
    made
}

fn run_closed<R: Threads + Wait + Abort + Sync>(rt: &R, alloc: Global) -> Result<(), Fail> {
    let desk = desk_of(alloc, Port::One, b"XX")?;
    let (gate, seat) = gate_of_two(alloc)?;
    let (seats, receipts) = match run(rt, alloc, &gate, &desk, seat) {
        Ok(left) => left,
        Err(why) => {
            gate.abandon();
            return Err(why);
        }
    };
    let receipt_count = receipts.len();
    let call_count = calls_made(seats.as_slice());
    let (gate, desk) = closed(gate, desk, seats, receipts)?;
    assert_eq!(rt; receipt_count, 40);
    assert_eq!(rt; gate.events.len(), call_count);
    let used_up = joined(alloc, &gate, &desk, None)?;
    assert_eq!(rt; used_up, (gate.events.len(), desk.events.len(), 0));
    assert!(rt; grants_are_present(&gate));
    Ok(())
}

#[test]
fn the_audits_of_threads_are_one_history(rt: HostRuntime) -> Result<(), Fail> {
    run_closed(&rt, rt.alloc())
}
