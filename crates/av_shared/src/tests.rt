mod between;
mod forged;
mod frames;
mod joined;
mod rows;
mod shown;
mod threads;

ghost use Rattle.std.specs.Prelude.{IfOk, IfSome, None};
ghost use Rattle.av_gate.specs.Claims.{IsLegal};
ghost use Rattle.av_gate.specs.Seats.{IsSeatOf};
ghost use Rattle.av_shared.specs.Certified.{IsCertified};
ghost use Rattle.av_shared.specs.History.{AreOwnWorks, IsDeskAudit};

use self::between::{Between, Desks};
use self::joined::joined;
use self::rows::{APART, BESIDE, NONE_LEFT, ROWS, Row, STRAYS};
use crate::apart::are_apart;
use crate::certify::{have_history, is_certified};
use crate::closing::{Closed, NotClosed, close_all};
use crate::merge::{Sides, are_merged};
use av_base::{Limits, Mode, Port, StreamId, Version};
use av_desk::{Audit as DeskAudit, Desk, DeskEntry, Event as DeskEvent};
use av_ends::{Receipt, Ticket};
use av_frame::Message;
use av_gate::{Audit as GateAudit, Event as GateEvent, Gate, GateEntry, Seat, Unclosed};
use av_sigset::{Catalogue, SignatureSet};
use av_store::Volume;
use std::alloc::Global;
use std::process::Abort;
use std::sync::Wait;
use std::test::Fail;

// A volume with the streams a and b, in which nothing is written.
fn volume_of_two(alloc: Global) -> Result<Volume, Fail> {
    let mut volume = Volume::new(alloc, 1, Limits::greatest());
    let _first = volume.create(alloc, b"a")?;
    let _second = volume.create(alloc, b"b")?;
    Ok(volume)
}

fn gate_of_two(alloc: Global) -> Result<(Gate, Seat), Fail>
    ensures { IfOk result (λ r. IsSeatOf r.0 r.1) }
{
    let volume = volume_of_two(alloc)?;
    match Gate::new(alloc, volume, Mode::FailClosed, Limits::greatest()) {
        Ok(made) => Ok(made),
        Err(_) => Err(Fail::new("no gate")),
    }
}

// A desk of the same volume at a port, where a set of this pattern is published as version 1.
fn desk_of(alloc: Global, port: Port, pattern: &[u8]) -> Result<Desk, Fail> {
    let mut catalogue = Catalogue::new(alloc);
    let set = SignatureSet::from_patterns(alloc, Version::new(1), &[pattern])?;
    if catalogue.publish(set).is_err() {
        return Err(Fail::new("a first set was refused"));
    }
    Ok(Desk::new(alloc, 1, port, catalogue, Limits::greatest())?)
}

// Closes both, or abandons the gate. They are one history.
fn closed(
    gate: Gate,
    desk: Desk,
    seats: Vec<Seat>,
    receipts: Vec<Receipt>,
) -> Result<(GateAudit, DeskAudit), Fail>
    ensures { IfOk result (λ r. AreOwnWorks r.1 None → IsCertified r.0 r.1 None) }
{
    match close_all(gate, seats, receipts, desk, None) {
        Ok(
            Closed {
                gate,
                desk,
                spare: _,
            },
        ) => {
            if !is_certified(&gate, &desk, None) {
                return Err(Fail::new("not one history"));
            }
            Ok((gate, desk))
        }
        Err(kept) => Err(abandoned(kept)),
    }
}

// Lets a gate go that could not be closed.
fn abandoned(kept: NotClosed) -> Fail {
    let NotClosed {
        unclosed,
        desk: _,
        spare: _,
    } = kept;
    let Unclosed {
        why: _,
        gate,
        seats: _,
        receipts: _,
    } = unclosed;
    gate.abandon();
    Fail::new("not closed")
}

// The receipts of tickets that are all answered.
fn receipts_of(alloc: Global, tickets: Vec<Ticket>) -> Result<Vec<Receipt>, Fail> {
    let mut receipts = Vec::new(alloc);
    for ticket in tickets {
        let note = ticket.note();
        match ticket.receipt(note) {
            Ok(receipt) => receipts.push(receipt)?,
            Err(_) => return Err(Fail::new("an open has no answer")),
        }
    }
    Ok(receipts)
}

// Takes the steps of a row, each with its lines.
fn take_steps<R: Wait + Abort>(
    rt: &R,
    gate: &Gate,
    seat: &mut Seat,
    between: &mut Between<'_>,
    row: &Row<'_>,
) -> Result<(), Fail>
    requires { IsSeatOf gate.now seat.old }
    ensures { IsSeatOf gate.now seat.new }
{
    for (i, (step, lines)) in row.steps.iter().enumerate() {
        let told = between.step(rt, gate, seat, *step)?;
        assert_eq!(rt; told.as_slice(), lines.as_bytes(), "{}, step {i}", row.name);
    }
    Ok(())
}

// Runs a row: what the gate's end wants.
fn run<R: Wait + Abort>(
    rt: &R,
    alloc: Global,
    gate: &Gate,
    desks: Desks<'_>,
    mut seat: Seat,
    row: &Row<'_>,
) -> Result<(Vec<Seat>, Vec<Receipt>), Fail>
    requires { IsSeatOf gate.now seat }
{
    let mut between = Between::new(alloc, desks);
    let taken = take_steps(rt, gate, &mut seat, &mut between, row);
    let tickets = between.end();
    taken?;
    let mut seats = Vec::new(alloc);
    seats.push(seat)?;
    Ok((seats, receipts_of(alloc, tickets)?))
}

// Runs a row on a gate and a desk of its own, and closes both.
fn run_closed<R: Wait + Abort>(
    rt: &R,
    alloc: Global,
    row: &Row<'_>,
) -> Result<(GateAudit, DeskAudit), Fail> {
    let desk = desk_of(alloc, Port::One, b"XX")?;
    let (gate, seat) = gate_of_two(alloc)?;
    let desks = Desks {
        one: &desk,
        two: None,
    };
    match run(rt, alloc, &gate, desks, seat, row) {
        Ok((seats, receipts)) => closed(gate, desk, seats, receipts),
        Err(why) => {
            gate.abandon();
            Err(why)
        }
    }
}

// Whether the first event is the write of ABC over the beginning of stream 1.
fn begins_with_the_write(audit: &GateAudit) -> bool {
    let Some(entry) = audit.events.get(0) else {
        return false;
    };
    match entry.event() {
        GateEvent::Write {
            stream,
            offset,
            bytes,
        } => *stream == StreamId::new(1) && *offset == 0 && bytes.as_slice() == b"ABC".as_slice(),
        _ => false,
    }
}

// The leases of the works that came back, in their order.
fn finished(alloc: Global, audit: &DeskAudit) -> Result<Vec<u64>, Fail> {
    let mut leases = Vec::new(alloc);
    for entry in &audit.events {
        if let DeskEvent::Finish { lease, .. } = entry.event() {
            leases.push(lease.get())?;
        }
    }
    Ok(leases)
}

#[test]
fn audits_between_which_nothing_came_over_are_apart(rt: HostRuntime) -> Result<(), Fail> {
    let (gate, desk) = run_closed(&rt, rt.alloc(), &APART)?;
    assert!(rt; are_apart(&gate, &desk, None));
    assert_eq!(rt; (gate.events.len(), desk.events.len()), (2, 1));
    assert!(rt; begins_with_the_write(&gate));
    Ok(())
}

#[test]
fn audits_of_a_message_that_came_are_not_apart(rt: HostRuntime) -> Result<(), Fail> {
    for row in &ROWS {
        let (gate, desk) = run_closed(&rt, rt.alloc(), row)?;
        assert!(rt; !are_apart(&gate, &desk, None), "{}", row.name);
    }
    Ok(())
}

#[test]
fn opens_are_answered_over_frames_and_both_audits_have_all(rt: HostRuntime) -> Result<(), Fail> {
    let alloc = rt.alloc();
    for row in &ROWS {
        let (gate, desk) = run_closed(&rt, alloc, row)?;
        let counts = (gate.events.len(), desk.events.len());
        let others = row.steps.len().saturating_sub(row.filter_steps);
        assert_eq!(rt; counts, (row.filter_steps, others), "{}", row.name);
        assert!(rt; begins_with_the_write(&gate), "{}", row.name);
        assert_eq!(rt;
            finished(alloc, &desk)?.as_slice(),
            row.finished,
            "{}",
            row.name
        );
    }
    Ok(())
}

// Runs a row on a gate, a desk and a spare of its own, and closes all.
fn run_beside<R: Wait + Abort>(rt: &R, alloc: Global, row: &Row<'_>) -> Result<Closed, Fail>
    ensures { IfOk result (λ c. IsLegal c.gate × IsDeskAudit c.desk × IfSome c.spare (λ a. IsDeskAudit a)) }
{
    let desk = desk_of(alloc, Port::One, b"XX")?;
    let spare = desk_of(alloc, Port::Two, b"XX")?;
    let (gate, seat) = gate_of_two(alloc)?;
    let desks = Desks {
        one: &desk,
        two: Some(&spare),
    };
    match run(rt, alloc, &gate, desks, seat, row) {
        Ok((seats, receipts)) => match close_all(gate, seats, receipts, desk, Some(spare)) {
            Ok(closed) => Ok(closed),
            Err(kept) => Err(abandoned(kept)),
        },
        Err(why) => {
            gate.abandon();
            Err(why)
        }
    }
}

// The events of a gate and of the desks at its ports.
fn sides<'a>(gate: &'a GateAudit, one: &'a DeskAudit, two: &'a DeskAudit) -> Sides<'a> {
    Sides {
        gate: gate.events.as_slice(),
        one: one.events.as_slice(),
        two: two.events.as_slice(),
    }
}

#[test]
fn opens_of_a_lost_port_are_answered_over_the_other(rt: HostRuntime) -> Result<(), Fail> {
    let alloc = rt.alloc();
    for row in &[BESIDE, NONE_LEFT] {
        let Closed { gate, desk, spare } = run_beside(&rt, alloc, row)?;
        let Some(spare) = spare else {
            return Err(Fail::new("no spare"));
        };
        assert_eq!(rt; gate.events.len(), row.filter_steps, "{}", row.name);
        assert!(rt; !are_apart(&gate, &desk, Some(&spare)), "{}", row.name);
        assert!(rt; are_merged(sides(&gate, &desk, &spare)), "{}", row.name);
        let used_up = joined(alloc, &gate, &desk, Some(&spare))?;
        let all = (gate.events.len(), desk.events.len(), spare.events.len());
        assert_eq!(rt; used_up, all, "{}", row.name);
        assert!(rt;
            desk.port == Port::One && spare.port == Port::Two,
            "{}",
            row.name
        );
    }
    Ok(())
}

#[test]
fn messages_that_come_again_late_in_another_order_or_never_are_one_history(
    rt: HostRuntime,
) -> Result<(), Fail> {
    let alloc = rt.alloc();
    for row in &STRAYS {
        let (gate, desk) = run_closed(&rt, alloc, row)?;
        let used_up = joined(alloc, &gate, &desk, None)?;
        let all = (gate.events.len(), desk.events.len(), 0usize);
        assert_eq!(rt; used_up, all, "{}", row.name);
        assert_eq!(rt; gate.events.len(), row.filter_steps, "{}", row.name);
        assert_eq!(rt;
            finished(alloc, &desk)?.as_slice(),
            row.finished,
            "{}",
            row.name
        );
    }
    Ok(())
}

// The message that an event of the gate brings.
fn heard(entry: &GateEntry) -> Option<&Message> {
    match entry.event() {
        GateEvent::Receive { message } => Some(message),
        _ => None,
    }
}

fn sends(entry: &DeskEntry, message: &Message) -> bool {
    entry.messages().iter().any(|sent| sent.port() == message.port()
        && sent.body() == message.body())
}

// Whether these events of a desk sent each message that the gate heard.
fn sent_all(gate: &[GateEntry], desk: &[DeskEntry]) -> bool {
    for entry in gate {
        if let Some(message) = heard(entry) {
            if !desk.iter().any(|sender| sends(sender, message)) {
                return false;
            }
        }
    }
    true
}

fn takes_a_message(entry: &DeskEntry) -> bool {
    match entry.event() {
        DeskEvent::Receive { .. } => true,
        _ => false,
    }
}

// A run that is cut short on one side is a history just where each message that came had been sent.
#[test]
fn a_front_of_a_side_is_joined_where_it_sent_all_that_came(rt: HostRuntime) -> Result<(), Fail> {
    let alloc = rt.alloc();
    for row in ROWS.iter().chain(&STRAYS) {
        let (gate, desk) = run_closed(&rt, alloc, row)?;
        let (events, all) = (gate.events.as_slice(), desk.events.as_slice());
        for kept in 0..=all.len() {
            let front = Sides {
                gate: events,
                one: &all[..kept],
                two: &[],
            };
            let rest = Sides {
                gate: &[],
                one: &all[kept..],
                two: &[],
            };
            let sent = sent_all(events, &all[..kept]);
            assert!(rt; are_merged(front) == sent, "{}, {kept}", row.name);
            let alone = !all[kept..].iter().any(takes_a_message);
            assert!(rt; are_merged(rest) == alone, "{}, {kept}", row.name);
        }
    }
    Ok(())
}

#[test]
fn the_events_of_two_runs_are_no_history(rt: HostRuntime) -> Result<(), Fail> {
    let alloc = rt.alloc();
    let (gate, desk) = run_closed(&rt, alloc, &ROWS[0])?;
    let (other_gate, other_desk) = run_closed(&rt, alloc, &ROWS[1])?;
    for (gate, desk) in [(&gate, &other_desk), (&other_gate, &desk)] {
        assert!(rt; !have_history(gate, desk, None));
    }
    assert!(rt; have_history(&gate, &desk, None) && have_history(&other_gate, &other_desk, None));
    Ok(())
}
