// Gates that threads share.
ghost use Rattle.std.specs.Prelude.{IfOk};
ghost use Rattle.av_gate.specs.Seats.{IsSeatOf};

use super::said::{Step, Told, message_of, what_is_told};
use super::{closed, gate_of_two, take};
use crate::{Audit, CloseFault, Gate, GateFault, Seat};
use av_base::Port::{One, Two};
use av_base::{Limits, Mode, Port, Refusal};
use av_ends::{Receipt, Ticket};
use av_filter::Note;
use std::alloc::Global;
use std::process::Abort;
use std::sync::Wait;
use std::test::Fail;
use std::thread;
use std::thread::Threads;

// A step that gives no ticket.
fn happens<R: Wait>(
    rt: &R,
    alloc: Global,
    gate: &Gate,
    seat: &mut Seat,
    step: Step<'_>,
) -> Result<(), Refusal<GateFault>>
    requires { IsSeatOf gate.now seat.old }
    ensures { IsSeatOf gate.now seat.new }
{
    let mut none = Vec::new(alloc);
    let _ = take(rt, alloc, gate, seat, &mut none, step)?;
    Ok(())
}

// What a ticket shows now.
fn shown(ticket: &Ticket) -> Told {
    let mut note = ticket.note();
    what_is_told(ticket.poll(&mut note))
}

// Opens b, for a thread of its own.
fn open_b<R: Wait>(
    rt: &R,
    alloc: Global,
    gate: &Gate,
    mut seat: Seat,
) -> Result<(Seat, Ticket), Refusal<GateFault>>
    requires { IsSeatOf gate.now seat }
    ensures { IfOk result (λ r. IsSeatOf gate.now r.0) }
{
    let ticket = gate.open(rt, alloc, &mut seat, b"b")?;
    Ok((seat, ticket))
}

// Two seats: an open of a waits while b is answered to the other seat, in a thread of its own.
fn two_seats<R: Threads + Wait + Abort + Sync>(
    rt: &R,
    alloc: Global,
    gate: &Gate,
    mut seat: Seat,
) -> Result<(Vec<Seat>, Vec<Receipt>), Fail>
    requires { IsSeatOf gate.now seat }
{
    happens(rt, alloc, gate, &mut seat, Step::Hello(One, 1))?;
    assert_eq!(rt; gate.floor(&mut seat).get(), 1);
    let first_b = gate.open(rt, alloc, &mut seat, b"b")?;
    happens(rt, alloc, gate, &mut seat, Step::Clean(One, 1, 1))?;
    assert_eq!(rt; shown(&first_b), Told::Granted(2, 1));
    let held = gate.open(rt, alloc, &mut seat, b"a")?;
    assert_eq!(rt; shown(&held), Told::Waits);
    let other = gate.seat(&mut seat);
    let (theirs, ()) = thread::join(
        rt,
        move ||
            requires { IsSeatOf gate.now other }
            ensures { IfOk result (λ r. IsSeatOf gate.entry.now r.0) }
        { open_b(rt, alloc, gate, other) },
        || (),
    );
    let (mut other, second_b) = theirs?;
    assert_eq!(rt; shown(&second_b), Told::Granted(2, 1));
    assert_eq!(rt; shown(&held), Told::Waits);
    happens(rt, alloc, gate, &mut seat, Step::Clean(One, 2, 1))?;
    let mut note = held.note();
    assert_eq!(rt; what_is_told(held.poll(&mut note)), Told::Granted(2, 1));
    assert_eq!(rt; what_is_told(held.poll(&mut note)), Told::Granted(2, 1));
    happens(rt, alloc, gate, &mut other, Step::Write(b"b", 0, b"D"))?;
    let third_b = gate.open(rt, alloc, &mut other, b"b")?;
    happens(rt, alloc, gate, &mut seat, Step::Clean(One, 3, 1))?;
    assert_eq!(rt; shown(&third_b), Told::Granted(3, 1));
    assert_eq!(rt; gate.take_outgoing(rt, alloc, One)?.len(), 3);
    let mut seats = Vec::new(alloc);
    seats.push(seat)?;
    seats.push(other)?;
    let mut receipts = Vec::new(alloc);
    for ticket in [first_b, held, second_b, third_b] {
        let note = ticket.note();
        match ticket.receipt(note) {
            Ok(receipt) => receipts.push(receipt)?,
            Err(_) => return Err(Fail::new("no answer")),
        }
    }
    Ok((seats, receipts))
}

// The audit of a gate over which these were left, or why it is not closed.
fn end(
    gate: Gate,
    left: Result<(Vec<Seat>, Vec<Receipt>), Fail>,
) -> Result<Result<Audit, CloseFault>, Fail> {
    match left {
        Ok((seats, receipts)) => Ok(closed(gate, seats, receipts)),
        Err(why) => {
            gate.abandon();
            Err(why)
        }
    }
}

// How many events an audit has.
fn count(ended: Result<Audit, CloseFault>) -> Result<usize, CloseFault> {
    match ended {
        Ok(audit) => Ok(audit.events.len()),
        Err(why) => Err(why),
    }
}

#[test]
fn an_open_is_held_while_another_is_answered(rt: HostRuntime) -> Result<(), Fail> {
    let alloc = rt.alloc();
    let (gate, seat) = gate_of_two(alloc, Mode::FailClosed, Limits::greatest())?;
    let left = two_seats(&rt, alloc, &gate, seat);
    assert_eq!(rt; count(end(gate, left)?), Ok(9));
    Ok(())
}

// An open of a that quiet messages answer.
fn answered_quietly<R: Wait + Abort>(
    rt: &R,
    alloc: Global,
    gate: &Gate,
    mut seat: Seat,
) -> Result<(Vec<Seat>, Vec<Receipt>), Fail>
    requires { IsSeatOf gate.now seat }
{
    let (Some(hello), Some(clean)) = (
        message_of(Step::Hello(One, 1)),
        message_of(Step::Clean(One, 1, 1)),
    ) else {
        return Err(Fail::new("no message"));
    };
    let note = gate.message_quietly(rt, alloc, &mut seat, &hello)?;
    assert_eq!(rt; (note, gate.floor(&mut seat).get()), (Note::Welcome, 1));
    let ticket = gate.open(rt, alloc, &mut seat, b"a")?;
    assert!(rt; gate.await_outgoing(rt, One) && gate.await_outgoing(rt, One));
    assert_eq!(rt; gate.take_outgoing(rt, alloc, One)?.len(), 1);
    gate.stop(rt);
    assert!(rt; !gate.await_outgoing(rt, One));
    gate.message_quietly(rt, alloc, &mut seat, &clean)?;
    assert_eq!(rt; shown(&ticket), Told::Granted(2, 1));
    let mut seats = Vec::new(alloc);
    seats.push(seat)?;
    Ok((seats, Vec::new(alloc)))
}

#[test]
fn quiet_messages_are_events_like_others_and_what_they_give_out_waits(
    rt: HostRuntime,
) -> Result<(), Fail> {
    let alloc = rt.alloc();
    let (gate, seat) = gate_of_two(alloc, Mode::FailClosed, Limits::greatest())?;
    let left = answered_quietly(&rt, alloc, &gate, seat);
    assert_eq!(rt; count(end(gate, left)?), Ok(3));
    Ok(())
}

// An open of a that is denied at once, and its receipt; of the seats that made the calls, `kept` are handed on.
fn denied_once<R: Wait>(
    rt: &R,
    alloc: Global,
    gate: &Gate,
    mut seat: Seat,
    kept: usize,
) -> Result<(Vec<Seat>, Vec<Receipt>), Fail>
    requires { IsSeatOf gate.now seat }
{
    let mut other = gate.seat(&mut seat);
    let ticket = gate.open(rt, alloc, &mut seat, b"a")?;
    happens(rt, alloc, gate, &mut other, Step::Disconnect(One))?;
    let mut seats = Vec::new(alloc);
    seats.push(seat)?;
    seats.push(other)?;
    seats.truncate(kept);
    let mut receipts = Vec::new(alloc);
    let note = ticket.note();
    if let Ok(receipt) = ticket.receipt(note) {
        receipts.push(receipt)?;
    }
    Ok((seats, receipts))
}

#[test]
fn a_seat_left_out_is_a_mismatch(rt: HostRuntime) -> Result<(), Fail> {
    let alloc = rt.alloc();
    for (kept, want) in [
        (2, Ok(2)),
        (1, Err(CloseFault::Mismatch)),
        (0, Err(CloseFault::Mismatch)),
    ] {
        let (gate, seat) = gate_of_two(alloc, Mode::FailClosed, Limits::greatest())?;
        let left = denied_once(&rt, alloc, &gate, seat, kept);
        assert_eq!(rt; count(end(gate, left)?), want);
    }
    Ok(())
}

// What one gate left, but with the receipts of another, which let the open through.
fn with_receipts_of_another<R: Wait>(
    rt: &R,
    alloc: Global,
    gate: &Gate,
    seat: Seat,
) -> Result<(Vec<Seat>, Vec<Receipt>), Fail>
    requires { IsSeatOf gate.now seat }
{
    let (seats, _) = denied_once(rt, alloc, gate, seat, 2)?;
    let (another, seat) = gate_of_two(alloc, Mode::FailOpen, Limits::greatest())?;
    let left = denied_once(rt, alloc, &another, seat, 2);
    another.abandon();
    let (_, receipts) = left?;
    Ok((seats, receipts))
}

#[test]
fn another_gates_receipt_is_a_mismatch(rt: HostRuntime) -> Result<(), Fail> {
    let alloc = rt.alloc();
    let (gate, seat) = gate_of_two(alloc, Mode::FailClosed, Limits::greatest())?;
    let left = with_receipts_of_another(&rt, alloc, &gate, seat);
    assert_eq!(rt; count(end(gate, left)?), Err(CloseFault::Mismatch));
    Ok(())
}

// A gate that was held is handed back whole: once its question has ended it closes.
#[test]
fn a_gate_is_held_while_a_question_runs(rt: HostRuntime) -> Result<(), Fail> {
    let alloc = rt.alloc();
    let (gate, seat) = gate_of_two(alloc, Mode::FailClosed, Limits::greatest())?;
    let left = asked_only(&rt, alloc, &gate, seat);
    assert_eq!(rt; count(end(gate, left)?), Err(CloseFault::Held));
    Ok(())
}

fn asked_only<R: Wait>(
    rt: &R,
    alloc: Global,
    gate: &Gate,
    mut seat: Seat,
) -> Result<(Vec<Seat>, Vec<Receipt>), Fail>
    requires { IsSeatOf gate.now seat }
{
    happens(rt, alloc, gate, &mut seat, Step::Hello(One, 1))?;
    let _ticket = gate.open(rt, alloc, &mut seat, b"a")?;
    let mut seats = Vec::new(alloc);
    seats.push(seat)?;
    Ok((seats, Vec::new(alloc)))
}

// Raises the floor to a hundred versions, one after the other.
fn raises<R: Wait>(
    rt: &R,
    alloc: Global,
    gate: &Gate,
    mut seat: Seat,
) -> Result<Seat, Refusal<GateFault>>
    requires { IsSeatOf gate.now seat }
{
    for version in 1..101u64 {
        happens(rt, alloc, gate, &mut seat, Step::Updated(One, version))?;
        thread::yield_now();
    }
    Ok(seat)
}

// Looks at the floor again and again: whether it never went back.
fn reads(gate: &Gate, mut seat: Seat) -> (Seat, bool)
    requires { IsSeatOf gate.now seat }
{
    let mut last = 0;
    let mut rises = true;
    for _ in 0..1000u32 {
        let now = gate.floor(&mut seat).get();
        rises = rises && last <= now;
        last = now;
        thread::yield_now();
    }
    (seat, rises)
}

fn read_while_it_rises<R: Threads + Wait + Abort + Sync>(
    rt: &R,
    alloc: Global,
    gate: &Gate,
    mut seat: Seat,
) -> Result<(Vec<Seat>, Vec<Receipt>), Fail>
    requires { IsSeatOf gate.now seat }
{
    let other = gate.seat(&mut seat);
    let (raised, (other, rises)) = thread::join(
        rt,
        move ||
            requires { IsSeatOf gate.now seat }
        { raises(rt, alloc, gate, seat) },
        move ||
            requires { IsSeatOf gate.now other }
        { reads(gate, other) },
    );
    let seat = raised?;
    assert!(rt; rises);
    let mut seats = Vec::new(alloc);
    seats.push(seat)?;
    seats.push(other)?;
    Ok((seats, Vec::new(alloc)))
}

#[test]
fn a_floor_that_is_read_while_it_rises_never_goes_back(rt: HostRuntime) -> Result<(), Fail> {
    let alloc = rt.alloc();
    let (gate, seat) = gate_of_two(alloc, Mode::FailClosed, Limits::greatest())?;
    let left = read_while_it_rises(&rt, alloc, &gate, seat);
    assert_eq!(rt; count(end(gate, left)?), Ok(100));
    Ok(())
}

// The service of a port, and the number of the question that it answers next.
#[derive(Clone, Copy)]
struct PortService {
    port: Port,
    next: u64,
}

// Replies to the questions of a service from its next up to this number, under version 1.
fn replies<R: Wait>(
    rt: &R,
    alloc: Global,
    gate: &Gate,
    seat: &mut Seat,
    service: PortService,
    end: u64,
) -> Result<(), Refusal<GateFault>>
    requires { IsSeatOf gate.now seat.old }
    ensures { IsSeatOf gate.now seat.new }
{
    for seq in service.next..end {
        happens(rt, alloc, gate, seat, Step::Clean(service.port, seq, 1))?;
    }
    Ok(())
}

// Replies to each question of a port as its message comes, until the gate is stopped.
fn serves<R: Wait>(
    rt: &R,
    alloc: Global,
    gate: &Gate,
    mut seat: Seat,
    mut service: PortService,
) -> Result<Seat, Refusal<GateFault>>
    requires { IsSeatOf gate.now seat }
{
    for _ in rt.forever() {
        let Some(messages) = gate.wait_outgoing(rt, alloc, service.port)? else {
            return Ok(seat);
        };
        let end = service.next.saturating_add(messages.len() as u64);
        replies(rt, alloc, gate, &mut seat, service, end)?;
        service.next = end;
    }
    Ok(seat)
}

// Opens both streams, loses a port where it is said to, waits for the answers, and stops the gate.
fn opens_both<R: Wait>(
    rt: &R,
    alloc: Global,
    gate: &Gate,
    mut seat: Seat,
    lost: Option<Port>,
) -> Result<(Seat, Told, Told), Refusal<GateFault>>
    requires { IsSeatOf gate.now seat }
{
    let first = gate.open(rt, alloc, &mut seat, b"a")?;
    let second = gate.open(rt, alloc, &mut seat, b"b")?;
    if let Some(port) = lost {
        gate.disconnect(rt, alloc, &mut seat, port)?;
    }
    let mut note = first.note();
    let one = what_is_told(Some(gate.wait(rt, &first, &mut note)));
    let mut note = second.note();
    let other = what_is_told(Some(gate.wait(rt, &second, &mut note)));
    gate.stop(rt);
    Ok((seat, one, other))
}

// Two opens that wait for the service of a port, which replies in a thread of its own.
fn served<R: Threads + Wait + Abort + Sync>(
    rt: &R,
    alloc: Global,
    gate: &Gate,
    mut seat: Seat,
    service: PortService,
    lost: Option<Port>,
) -> Result<(Vec<Seat>, Vec<Receipt>), Fail>
    requires { IsSeatOf gate.now seat }
{
    let other = gate.seat(&mut seat);
    let (opened, replied) = thread::join(
        rt,
        move ||
            requires { IsSeatOf gate.now seat }
        { opens_both(rt, alloc, gate, seat, lost) },
        move ||
            requires { IsSeatOf gate.now other }
        { serves(rt, alloc, gate, other, service) },
    );
    let other = replied?;
    let (seat, one, two) = opened?;
    assert_eq!(rt; (one, two), (Told::Granted(2, 1), Told::Granted(2, 1)));
    let mut seats = Vec::new(alloc);
    seats.push(seat)?;
    seats.push(other)?;
    Ok((seats, Vec::new(alloc)))
}

// The service of the first port greets.
fn served_alone<R: Threads + Wait + Abort + Sync>(
    rt: &R,
    alloc: Global,
    gate: &Gate,
    mut seat: Seat,
) -> Result<(Vec<Seat>, Vec<Receipt>), Fail>
    requires { IsSeatOf gate.now seat }
{
    happens(rt, alloc, gate, &mut seat, Step::Hello(One, 1))?;
    let first = PortService { port: One, next: 1 };
    served(rt, alloc, gate, seat, first, None)
}

// Both greet, and the first port is lost behind the opens.
fn served_by_the_spare<R: Threads + Wait + Abort + Sync>(
    rt: &R,
    alloc: Global,
    gate: &Gate,
    mut seat: Seat,
) -> Result<(Vec<Seat>, Vec<Receipt>), Fail>
    requires { IsSeatOf gate.now seat }
{
    happens(rt, alloc, gate, &mut seat, Step::Hello(One, 1))?;
    assert!(rt; gate.connected(rt, One) && !gate.connected(rt, Two));
    happens(rt, alloc, gate, &mut seat, Step::Hello(Two, 1))?;
    assert!(rt; gate.connected(rt, One) && gate.connected(rt, Two));
    let spare = PortService { port: Two, next: 3 };
    served(rt, alloc, gate, seat, spare, Some(One))
}

#[test]
fn openers_and_the_service_wait_for_each_other(rt: HostRuntime) -> Result<(), Fail> {
    let alloc = rt.alloc();
    let (gate, seat) = gate_of_two(alloc, Mode::FailClosed, Limits::greatest())?;
    let left = served_alone(&rt, alloc, &gate, seat);
    assert_eq!(rt; count(end(gate, left)?), Ok(5));
    Ok(())
}

#[test]
fn a_spare_is_woken_for_what_is_asked_again_there(rt: HostRuntime) -> Result<(), Fail> {
    let alloc = rt.alloc();
    let (gate, seat) = gate_of_two(alloc, Mode::FailClosed, Limits::greatest())?;
    let left = served_by_the_spare(&rt, alloc, &gate, seat);
    assert_eq!(rt; count(end(gate, left)?), Ok(7));
    Ok(())
}
