ghost use Rattle.std.specs.Prelude.{◌≡◌, ◌≤◌};
ghost use Rattle.av_ends.specs.Tickets.{IsNoteOf};
ghost use Rattle.av_gate.specs.Seats.{IsSeatOf};

use crate::signal::LOOKS;
use crate::wire::GateWires;
use av_base::Refusal;
use av_ends::{Receipt, Ticket, TicketNote};
use av_engines::End;
use av_gate::{Gate, Seat};
use std::alloc::Global;
use std::sync::Wait;
use std::sync::atomic::AtomicU64;
use std::sync::atomic::Ordering::SeqCst;
use std::thread;

/// Files that are opened together, each once, in the order given, and where they stand among all that are to be opened.
#[derive(Clone, Copy)]
pub struct Group<'a> {
    pub names: &'a [&'a str],
    /// How many files come before these, and how many there are in all.
    pub before: usize,
    pub all: usize,
}

/// What openers share.
#[derive(Drop)]
pub struct Openings<'a> {
    pub group: Group<'a>,
    /// How many openers there are.
    pub openers: usize,
    pub wires: &'a GateWires,
    // How many files have their answer, and how many openers are done.
    answered: AtomicU64,
    at_rest: AtomicU64,
}

impl<'a> Openings<'a> {
    /// Openings of these files, of which none has begun.
    pub fn new(group: Group<'a>, openers: usize, wires: &'a GateWires) -> Openings<'a>
        ensures group { result.group ≡ group.entry }
        ensures openers { result.openers ≡ openers }
    {
        Openings {
            group,
            openers,
            wires,
            answered: AtomicU64::new(0),
            at_rest: AtomicU64::new(0),
        }
    }

    /// How many of all files have their answer.
    pub fn answered(&self) -> usize
        ensures { self.now.group.before ≤ result }
    {
        self.group
            .before
            .saturating_add(self.answered.load(SeqCst) as usize)
    }

    /// Whether all openers are done.
    pub fn are_over(&self) -> bool {
        self.at_rest.load(SeqCst) >= self.openers as u64
    }
}

/// What one opener has to do: every `openers`-th file from the one of number `first` on, once each service was welcome or is lost.
#[derive(Clone, Copy, Drop)]
pub struct Part<'a> {
    pub openings: &'a Openings<'a>,
    pub first: usize,
}

/// What an opener brings back.
#[derive(Drop)]
pub struct Brought {
    /// What its files were told, in their order.
    pub receipts: Vec<Receipt>,
    /// Done, or why it opened no further file.
    pub end: End,
    /// Where its calls are kept.
    pub seat: Seat,
}

/// Opens the files of a part, each once the one before has its answer.
pub fn open_files<R: Wait>(
    rt: &R,
    alloc: Global,
    gate: &Gate,
    mut seat: Seat,
    part: Part<'_>,
) -> Brought
    requires { IsSeatOf gate.now seat }
{
    await_services(rt, gate, &mut seat, part.openings.wires);
    let mut receipts = Vec::new(alloc);
    let end = open_each(rt, alloc, gate, &mut seat, part, &mut receipts);
    part.openings.at_rest.fetch_add(1, SeqCst);
    Brought {
        receipts,
        end,
        seat,
    }
}

fn await_services<R: Wait>(rt: &R, gate: &Gate, seat: &mut Seat, wires: &GateWires)
    requires { IsSeatOf gate.now seat.old }
    ensures { IsSeatOf gate.now seat.new }
{
    'looks: for _ in rt.forever() {
        if wires.have_come(rt, gate, seat) {
            return;
        }
        thread::yield_now();
    }
}

fn open_each<R: Wait>(
    rt: &R,
    alloc: Global,
    gate: &Gate,
    seat: &mut Seat,
    part: Part<'_>,
    receipts: &mut Vec<Receipt>,
) -> End
    requires { IsSeatOf gate.now seat.old }
    ensures { IsSeatOf gate.now seat.new }
{
    let openings = part.openings;
    let step = openings.openers.max(1);
    'files: for name in openings.group.names.iter().skip(part.first).step_by(step) {
        if receipts.reserve(1).is_err() {
            return End::Memory;
        }
        match open(rt, alloc, gate, seat, name.as_bytes()) {
            Ok(receipt) => receipts.push_reserved(receipt),
            Err(end) => return end,
        }
        openings.answered.fetch_add(1, SeqCst);
    }
    End::Done
}

// Opens a file and waits for its answer. Closed where the gate was stopped before it came.
fn open<R: Wait>(
    rt: &R,
    alloc: Global,
    gate: &Gate,
    seat: &mut Seat,
    name: &[u8],
) -> Result<Receipt, End>
    requires { IsSeatOf gate.now seat.old }
    ensures { IsSeatOf gate.now seat.new }
{
    match gate.open(rt, alloc, seat, name) {
        Ok(ticket) => answered(rt, gate, ticket),
        Err(Refusal::Fault(_)) => Err(End::AuditFull),
        Err(Refusal::NoMemory) => Err(End::Memory),
    }
}

// The answer of an open, once it is there.
fn answered<R: Wait>(rt: &R, gate: &Gate, ticket: Ticket) -> Result<Receipt, End> {
    let mut note = ticket.note();
    await_answer(rt, gate, &ticket, &mut note);
    let Ok(receipt) = ticket.receipt(note) else {
        return Err(End::Closed);
    };
    Ok(receipt)
}

// Waits until a ticket shows its answer, or the gate is stopped: first without sleeping, for as long as a small file takes.
fn await_answer<R: Wait>(rt: &R, gate: &Gate, ticket: &Ticket, note: &mut TicketNote)
    requires { IsNoteOf ticket.now note.old }
    ensures { IsNoteOf ticket.now note.new }
{
    'looks: for _ in 0..LOOKS {
        if ticket.poll(note).is_some() {
            return;
        }
        thread::yield_now();
    }
    let _ = gate.wait_or_stop(rt, ticket, note);
}
