mod rows;
mod said;
mod shared;

ghost use Rattle.std.specs.Prelude.{IfOk};
ghost use Rattle.av_gate.specs.Seats.{IsSeatOf};

use self::rows::{ROWS, Row};
use self::said::{Said, Step, Told, message_of, what_is_said, what_is_told};
use crate::{Audit, CloseFault, Event, Gate, GateFault, Patch, Seat, Unclosed};
use av_base::Port::{One, Two};
use av_base::{LimitField, LimitValues, Limits, Mode, Port, Refusal, Refused, StreamId};
use av_ends::{Receipt, Ticket};
use av_fakes::{may_refuse, refuse_no_more};
use av_filter::Note;
use av_store::Volume;
use std::alloc::Global;
use std::process::Abort;
use std::sync::Wait;
use std::test::Fail;

// A volume with the streams a and b, each of them written once.
fn volume_of_two(alloc: Global) -> Result<Volume, Fail> {
    let mut volume = Volume::new(alloc, 1, Limits::greatest());
    let first = volume.create(alloc, b"a")?;
    let second = volume.create(alloc, b"b")?;
    volume.write(first, 0, b"ABC")?;
    volume.write(second, 0, b"ABC")?;
    Ok(volume)
}

fn gate_of_two(alloc: Global, mode: Mode, limits: Limits) -> Result<(Gate, Seat), Fail>
    ensures { IfOk result (λ r. IsSeatOf r.0 r.1) }
{
    let volume = volume_of_two(alloc)?;
    may_refuse(alloc);
    let first = Gate::new(alloc, volume, mode, limits);
    refuse_no_more(alloc);
    let last = match first {
        Ok(made) => Ok(made),
        Err(refused) => {
            let Refused { value, why: _ } = refused;
            Gate::new(alloc, value, mode, limits)
        }
    };
    match last {
        Ok(made) => Ok(made),
        Err(_) => Err(Fail::new("no gate")),
    }
}

// The audit of a gate that is closed; else the gate is abandoned.
fn closed(gate: Gate, seats: Vec<Seat>, receipts: Vec<Receipt>) -> Result<Audit, CloseFault> {
    match gate.close(seats, receipts) {
        Ok(audit) => Ok(audit),
        Err(unclosed) => {
            let Unclosed {
                why,
                gate,
                seats: _,
                receipts: _,
            } = unclosed;
            gate.abandon();
            Err(why)
        }
    }
}

// The receipts of those tickets that are answered.
fn receipts_of(alloc: Global, tickets: Vec<Ticket>) -> Result<Vec<Receipt>, Fail> {
    let mut receipts = Vec::new(alloc);
    for ticket in tickets {
        let note = ticket.note();
        if let Ok(receipt) = ticket.receipt(note) {
            receipts.push(receipt)?;
        }
    }
    Ok(receipts)
}

fn seats_of(alloc: Global, seat: Seat) -> Result<Vec<Seat>, Fail> {
    let mut seats = Vec::new(alloc);
    seats.push(seat)?;
    Ok(seats)
}

// Takes a step; a ticket of it has room.
fn take<R: Wait>(
    rt: &R,
    alloc: Global,
    gate: &Gate,
    seat: &mut Seat,
    tickets: &mut Vec<Ticket>,
    step: Step<'_>,
) -> Result<Note, Refusal<GateFault>>
    requires { IsSeatOf gate.now seat.old }
    ensures { IsSeatOf gate.now seat.new }
{
    match step {
        Step::Open(name) => {
            let ticket = gate.open(rt, alloc, seat, name)?;
            let open_id = ticket.open_id();
            let _ = tickets.push(ticket);
            Ok(Note::Submitted { open_id })
        }
        Step::Write(name, offset, bytes) => {
            gate.write(rt, alloc, seat, name, Patch { offset, bytes })
        },
        Step::Cleanup(name) => gate.cleanup(rt, alloc, seat, name),
        Step::Timeout(seq) => gate.timeout(rt, alloc, seat, seq),
        Step::Disconnect(port) => gate.disconnect(rt, alloc, seat, port),
        _ => match message_of(step) {
            Some(message) => gate.message(rt, alloc, seat, &message),
            None => Ok(Note::Ignored),
        },
    }
}

// What each step of a row says, from the first that says otherwise on. A step that memory refuses is taken again.
fn first_otherwise<R: Wait>(
    rt: &R,
    alloc: Global,
    gate: &Gate,
    seat: &mut Seat,
    tickets: &mut Vec<Ticket>,
    steps: &[(Step<'_>, Said)],
) -> Option<(usize, Said)>
    requires { IsSeatOf gate.now seat.old }
    ensures { IsSeatOf gate.now seat.new }
{
    for (i, (step, want)) in steps.iter().enumerate() {
        may_refuse(alloc);
        let mut outcome = take(rt, alloc, gate, seat, tickets, *step);
        refuse_no_more(alloc);
        if let Err(Refusal::NoMemory) = outcome {
            outcome = take(rt, alloc, gate, seat, tickets, *step);
        }
        let said = what_is_said(&outcome);
        if said != *want {
            return Some((i, said));
        }
    }
    None
}

fn answers_told(alloc: Global, tickets: &[Ticket]) -> Result<Vec<Told>, Fail> {
    let mut all = Vec::new(alloc);
    for ticket in tickets {
        let mut note = ticket.note();
        all.push(what_is_told(ticket.poll(&mut note)))?;
    }
    Ok(all)
}

// How many messages of a port are taken out. What memory refuses is taken again.
fn taken_at<R: Wait>(rt: &R, alloc: Global, gate: &Gate, port: Port) -> Result<usize, Fail> {
    may_refuse(alloc);
    let first = gate.take_outgoing(rt, alloc, port);
    refuse_no_more(alloc);
    let messages = match first {
        Ok(messages) => messages,
        Err(_) => gate.take_outgoing(rt, alloc, port)?,
    };
    Ok(
        messages
            .iter()
            .filter(|message| message.port() == port)
            .count(),
    )
}

// Runs a row: whether each step said what it is to, what the tickets tell, and how many messages there were of each port. What
// is left is for the gate's end.
fn run<R: Wait + Abort>(
    rt: &R,
    alloc: Global,
    gate: &Gate,
    mut seat: Seat,
    row: &Row<'_>,
) -> Result<(Vec<Seat>, Vec<Receipt>), Fail>
    requires { IsSeatOf gate.now seat }
{
    let mut tickets = Vec::with_capacity(alloc, 16)?;
    let apart = first_otherwise(rt, alloc, gate, &mut seat, &mut tickets, row.steps);
    assert_eq!(rt; apart, None, "{}", row.name);
    let told = answers_told(alloc, tickets.as_slice())?;
    assert_eq!(rt; told.as_slice(), row.told, "{}", row.name);
    for left in [row.messages, [0, 0]] {
        let messages = [
            taken_at(rt, alloc, gate, One)?,
            taken_at(rt, alloc, gate, Two)?,
        ];
        assert_eq!(rt; messages, left, "{}", row.name);
    }
    Ok((seats_of(alloc, seat)?, receipts_of(alloc, tickets)?))
}

// Runs a row on a gate of its own and closes it.
fn run_closed<R: Wait + Abort>(
    rt: &R,
    alloc: Global,
    row: &Row<'_>,
) -> Result<Result<Audit, CloseFault>, Fail> {
    let (field, value) = row.limit;
    let values = LimitValues::greatest()
        .with(LimitField::Cache, 1)
        .with(field, value);
    let limits = Limits::check(values)?;
    let (gate, seat) = gate_of_two(alloc, row.mode, limits)?;
    match run(rt, alloc, &gate, seat, row) {
        Ok((seats, receipts)) => Ok(closed(gate, seats, receipts)),
        Err(why) => {
            gate.abandon();
            Err(why)
        }
    }
}

#[test]
fn refused_or_not_every_row_is_answered_as_written(rt: HostRuntime) -> Result<(), Fail> {
    for row in &ROWS {
        let accepted = row.steps.iter().filter(|step| step.1.is_accepted()).count();
        let events = match run_closed(&rt, rt.alloc(), row)? {
            Ok(audit) => Ok(audit.events.len()),
            Err(why) => Err(why),
        };
        let want = match row.closing {
            None => Ok(accepted),
            Some(why) => Err(why),
        };
        assert_eq!(rt; events, want, "{}", row.name);
    }
    Ok(())
}

const FULL: [(Step<'static>, Said); 5] = [
    (Step::Hello(One, 1), Said::Welcome),
    (Step::Open(b"a"), Said::Submitted(1)),
    (Step::Clean(One, 1, 1), Said::Quiet),
    (Step::Open(b"a"), Said::AuditFull),
    (Step::Write(b"a", 9, b"A"), Said::AuditFull),
];

// An open is answered and the audit is full: the ticket still polls, twice, and the floor is still read.
fn looked_at_beside_a_full_audit<R: Wait + Abort>(
    rt: &R,
    alloc: Global,
    gate: &Gate,
    mut seat: Seat,
) -> Result<(Vec<Seat>, Vec<Receipt>), Fail>
    requires { IsSeatOf gate.now seat }
{
    let mut tickets = Vec::with_capacity(alloc, 4)?;
    let apart = first_otherwise(rt, alloc, gate, &mut seat, &mut tickets, FULL.as_slice());
    assert_eq!(rt; apart, None);
    let first = answers_told(alloc, tickets.as_slice())?;
    let again = answers_told(alloc, tickets.as_slice())?;
    assert_eq!(rt; first.as_slice(), [Told::Granted(2, 1)].as_slice());
    assert_eq!(rt; again.as_slice(), [Told::Granted(2, 1)].as_slice());
    assert_eq!(rt; gate.floor(&mut seat).get(), 1);
    assert_eq!(rt; seat.calls().len(), 3);
    Ok((seats_of(alloc, seat)?, receipts_of(alloc, tickets)?))
}

#[test]
fn a_ticket_polls_beside_a_full_audit_and_its_receipt_closes_the_gate(
    rt: HostRuntime,
) -> Result<(), Fail> {
    let alloc = rt.alloc();
    let limits = Limits::check(LimitValues::greatest().with(LimitField::Audit, 3))?;
    let (gate, seat) = gate_of_two(alloc, Mode::FailClosed, limits)?;
    let (seats, receipts) = match looked_at_beside_a_full_audit(&rt, alloc, &gate, seat) {
        Ok(left) => left,
        Err(why) => {
            gate.abandon();
            return Err(why);
        }
    };
    assert_eq!(rt; receipts.len(), 1);
    let Ok(audit) = closed(gate, seats, receipts) else {
        return Err(Fail::new("not closed"));
    };
    assert_eq!(rt; audit.events.len(), 3);
    Ok(())
}

#[test]
fn an_audit_holds_a_write_with_its_bytes(rt: HostRuntime) -> Result<(), Fail> {
    let row = Row {
        name: "a write",
        mode: Mode::FailClosed,
        limit: (LimitField::Audit, 2),
        steps: &[(Step::Write(b"b", 1, b"XY"), Said::Quiet)],
        told: &[],
        messages: [0, 0],
        closing: None,
    };
    let Ok(audit) = run_closed(&rt, rt.alloc(), &row)? else {
        return Err(Fail::new("not closed"));
    };
    let Some(entry) = audit.events.get(0) else {
        return Err(Fail::new("no event"));
    };
    let Event::Write {
        stream,
        offset,
        bytes,
    } = entry.event()
    else {
        return Err(Fail::new("no write"));
    };
    assert_eq!(rt; (*stream, *offset), (StreamId::new(2), 1));
    assert_eq!(rt; bytes.as_slice(), b"XY".as_slice());
    assert_eq!(rt; audit.volume.boot(), 1);
    assert_eq!(rt; audit.mode, Mode::FailClosed);
    assert_eq!(rt;
        audit.volume.content(StreamId::new(2)),
        Some(b"ABC".as_slice())
    );
    Ok(())
}
