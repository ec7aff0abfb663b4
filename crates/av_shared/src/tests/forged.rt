// A run in which one work is not the desk's own: it is found in whichever share of the events it lies, and by however many threads.
ghost use Rattle.std.specs.Prelude.{IfOk};
ghost use Rattle.av_gate.specs.Seats.{IsSeatOf};

use crate::closing::close_all;
use crate::looking::Looking;
use crate::telling::shows_true;
use crate::tests::{abandoned, desk_of, receipts_of};
use av_base::{Limits, Mode, Port, Version};
use av_desk::{Audit as DeskAudit, Desk, Event as DeskEvent, Lent, Taken};
use av_ends::{Receipt, Ticket};
use av_frame::Message;
use av_gate::{Gate, Seat};
use av_match::Automaton;
use av_sigset::SignatureSet;
use av_store::Volume;
use std::alloc::Global;
use std::process::Abort;
use std::sync::Wait;
use std::test::Fail;
use std::thread::Threads;

// Each letter is a file.
const NAMES: &[u8] = b"abcdefghijklmnopqrstuvwxyz0123456789";

// Where there is a file for each name, in which a signature occurs.
fn gate_of_many(alloc: Global) -> Result<(Gate, Seat), Fail>
    ensures { IfOk result (λ r. IsSeatOf r.0 r.1) }
{
    let mut volume = Volume::new(alloc, 1, Limits::greatest());
    for name in NAMES.chunks(1) {
        let stream = volume.create(alloc, name)?;
        volume.write(stream, 0, b"AXXA")?;
    }
    match Gate::new(alloc, volume, Mode::FailClosed, Limits::greatest()) {
        Ok(made) => Ok(made),
        Err(_) => Err(Fail::new("no gate")),
    }
}

// A desk with the set that is asked for, and one with another set of its version, to which all messages go too.
#[derive(Drop)]
struct Twins {
    desk: Desk,
    other: Desk,
}

impl Twins {
    // Passes a message to both, and brings back the work that it leads to: to be forged, each gets that of the other one.
    fn take<R: Wait>(
        &self,
        rt: &R,
        alloc: Global,
        message: &Message,
        is_forged: bool,
    ) -> Option<()> {
        let own = lent_for(rt, alloc, &self.desk, message);
        let theirs = lent_for(rt, alloc, &self.other, message);
        let (here, there) = if is_forged {
            (theirs, own)
        } else {
            (own, theirs)
        };
        let is_here = bring(rt, alloc, &self.desk, here);
        let is_there = bring(rt, alloc, &self.other, there);
        if is_here && is_there { Some(()) } else { None }
    }
}

// The work that a message leads to, if it does.
fn lent_for<R: Wait>(rt: &R, alloc: Global, desk: &Desk, message: &Message) -> Option<Lent> {
    let Taken { lent, note: _ } = desk.message(rt, alloc, message.clone().ok()?).ok()?;
    lent
}

// Runs a work, if there is one, and brings it to a desk.
fn bring<R: Wait>(rt: &R, alloc: Global, desk: &Desk, lent: Option<Lent>) -> bool {
    let Some(lent) = lent else {
        return true;
    };
    match desk.finish(rt, alloc, lent.run()) {
        Ok(_) => true,
        Err(refused) => {
            refused.value.discard();
            false
        }
    }
}

// Carries what the desk sends to the gate.
fn carry_up<R: Wait>(rt: &R, alloc: Global, gate: &Gate, seat: &mut Seat, desk: &Desk) -> Option<()>
    requires { IsSeatOf gate.now seat.old }
    ensures { IsSeatOf gate.now seat.new }
{
    let messages = desk.take_outgoing(rt, alloc).ok()?;
    'messages: for message in &messages {
        gate.message(rt, alloc, seat, message).ok()?;
    }
    Some(())
}

// Carries what the gate sends to both desks.
fn carry_down<R: Wait>(
    rt: &R,
    alloc: Global,
    gate: &Gate,
    twins: &Twins,
    is_forged: bool,
) -> Option<()> {
    for message in &gate.take_outgoing(rt, alloc, Port::One).ok()? {
        twins.take(rt, alloc, message, is_forged)?;
    }
    twins.other.take_outgoing(rt, alloc).ok()?;
    Some(())
}

// Opens a file, and carries what it leads to: a Scan, a Read, a Chunk and a Reply.
fn open<R: Wait>(
    rt: &R,
    alloc: Global,
    gate: &Gate,
    seat: &mut Seat,
    twins: &Twins,
    opened: (&[u8], bool),
) -> Option<Ticket>
    requires { IsSeatOf gate.now seat.old }
    ensures { IsSeatOf gate.now seat.new }
{
    let (name, is_forged) = opened;
    let ticket = gate.open(rt, alloc, seat, name).ok()?;
    carry_down(rt, alloc, gate, twins, is_forged)?;
    carry_up(rt, alloc, gate, seat, &twins.desk)?;
    carry_down(rt, alloc, gate, twins, is_forged)?;
    carry_up(rt, alloc, gate, seat, &twins.desk)?;
    Some(ticket)
}

// Opens all files, of which the work of this one is forged.
fn open_all<R: Wait>(
    rt: &R,
    alloc: Global,
    gate: &Gate,
    mut seat: Seat,
    twins: &Twins,
    forged: Option<usize>,
) -> Option<(Vec<Seat>, Vec<Ticket>)>
    requires { IsSeatOf gate.now seat }
{
    twins.desk.connect(rt, alloc).ok()?;
    twins.other.connect(rt, alloc).ok()?;
    carry_up(rt, alloc, gate, &mut seat, &twins.desk)?;
    let mut tickets = Vec::new(alloc);
    'names: for (at, name) in NAMES.chunks(1).enumerate() {
        let opened = (name, forged == Some(at));
        tickets
            .push(open(rt, alloc, gate, &mut seat, twins, opened)?)
            .ok()?;
    }
    let mut seats = Vec::new(alloc);
    seats.push(seat).ok()?;
    Some((seats, tickets))
}

fn all_opened<R: Wait>(
    rt: &R,
    alloc: Global,
    gate: &Gate,
    seat: Seat,
    twins: &Twins,
    forged: Option<usize>,
) -> Result<(Vec<Seat>, Vec<Receipt>), Fail>
    requires { IsSeatOf gate.now seat }
{
    match open_all(rt, alloc, gate, seat, twins, forged) {
        Some((seats, tickets)) => Ok((seats, receipts_of(alloc, tickets)?)),
        None => Err(Fail::new("a call was refused")),
    }
}

// How many works came back.
fn finished(audit: &DeskAudit) -> usize {
    let mut count = 0usize;
    for entry in &audit.events {
        if let DeskEvent::Finish { .. } = entry.event() {
            count = count.saturating_add(1);
        }
    }
    count
}

// Whether a run with that work forged shows its grants true, by so many threads: each count has the same answer.
fn shown<R: Wait + Abort + Threads + Sync>(
    rt: &R,
    alloc: Global,
    forged: Option<usize>,
) -> Result<bool, Fail> {
    let patterns: [&[u8]; 1] = [b"XX"];
    let set = SignatureSet::from_patterns(alloc, Version::new(1), &patterns)?;
    let automaton = Automaton::build(alloc, &set)?;
    let twins = Twins {
        desk: desk_of(alloc, Port::One, b"XX")?,
        other: desk_of(alloc, Port::One, b"XY")?,
    };
    let (gate, seat) = gate_of_many(alloc)?;
    let (seats, receipts) = match all_opened(rt, alloc, &gate, seat, &twins, forged) {
        Ok(all) => all,
        Err(why) => {
            gate.abandon();
            return Err(why);
        }
    };
    let Twins { desk, other: _ } = twins;
    let closed = match close_all(gate, seats, receipts, desk, None) {
        Ok(closed) => closed,
        Err(kept) => return Err(abandoned(kept)),
    };
    assert_eq!(rt; finished(&closed.desk), NAMES.len());
    let looking = |threads: usize| -> Looking<'_, R> { Looking { rt, alloc, threads } };
    let alone = shows_true(
        &looking(1),
        &closed.gate,
        &closed.desk,
        None,
        &set,
        &automaton,
    )?;
    for threads in [0usize, 2, 3, 4, 16] {
        let shows = shows_true(
            &looking(threads),
            &closed.gate,
            &closed.desk,
            None,
            &set,
            &automaton,
        )?;
        assert!(rt; shows == alone, "forged {forged:?}, {threads} threads");
    }
    Ok(alone)
}

#[test]
fn a_forged_work_is_found_wherever_it_lies_by_any_number_of_threads(
    rt: HostRuntime,
) -> Result<(), Fail> {
    let alloc = rt.alloc();
    assert!(&rt; shown(&rt, alloc, None)?, "nothing is forged");
    for at in 0..NAMES.len() {
        assert!(&rt;
            !shown(&rt, alloc, Some(at))?,
            "the work of file {at} is forged"
        );
    }
    Ok(())
}
