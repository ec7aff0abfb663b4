//! What the threads of a host do beside its openers: the four loops that carry messages between the gate and a desk.

ghost use Rattle.std.specs.Prelude.{◌≡◌, ◌≢◌};
ghost use Rattle.av_frame.specs.declared.end.End.TheVariants.{Done};
ghost use Rattle.av_gate.specs.Seats.{IsSeatOf};
ghost use Rattle.av_host.specs.Losses.{IsLossTold};
ghost use Rattle.av_host.specs.declared.carrying.LoopDirection.TheVariants.{Into};

use crate::wire::{PortWire, Wire};
use av_base::Refusal;
use av_base::recorded::Recorded;
use av_desk::Desk;
use av_engines::End;
use av_files::streams::TURNS;
use av_gate::{Gate, Seat};
use av_loops::{DeskSide, GateSide, desk_done, desk_in_running_works, gate_in, gate_out};
use av_pool::{Giver, Taker};
use std::alloc::{AllocError, Global};
use std::io::Write;
use std::sync::Wait;
use std::sync::atomic::Ordering::SeqCst;

// How many bytes the messages of a group take.
const ROOM: usize = 10 * 1_048_576;

/// Which way a loop carries messages: into the gate, or out of it.
#[derive(Clone, Copy)]
pub enum LoopDirection {
    Into,
    Out,
}

/// What one of the two loops round a port does, with its seat. Only the one out of the gate can be done.
pub fn carry<R: Wait>(
    rt: &R,
    alloc: Global,
    way: LoopDirection,
    line: PortWire<'_>,
    gate: &Gate,
    seat: Seat,
) -> (Seat, End)
    requires { IsSeatOf gate.now seat }
    ensures { way ≡ Into → result.1 ≢ Done }
{
    match way {
        LoopDirection::Into => into_gate(rt, alloc, line, gate, seat),
        LoopDirection::Out => out_of_gate(rt, alloc, line, gate, seat),
    }
}

// Asks for as much room as the messages of a group take, and gives it back: the first time the system's allocator learns to keep so
// much, and the second time it takes it for this thread, whose heap would else grow by a page with each chunk that an audit keeps.
fn make_room(alloc: Global) {
    for _ in 0..2 {
        let _room: Result<Vec<u8>, AllocError> = Vec::with_capacity(alloc, ROOM);
    }
}

// From a connection into the gate, and what that gives out at its port into the connection. At its end the port's service is lost;
// once all are, opens need not wait any more. Where opens may have been left without an answer, the other connection ends too.
fn into_gate<R: Wait>(
    rt: &R,
    alloc: Global,
    line: PortWire<'_>,
    gate: &Gate,
    mut seat: Seat,
) -> (Seat, End)
    requires { IsSeatOf gate.now seat }
    ensures { result.1 ≢ Done }
{
    make_room(alloc);
    let wire = line.wire;
    let mut reader = Recorded::new(wire.reader());
    let side = GateSide {
        rt,
        alloc,
        gate,
        port: line.port,
        sender: &wire.sender,
    };
    let end = gate_in(&side, &mut seat, &mut reader, TURNS);
    let end = with_loss(&side, &mut seat, end);
    wire.is_over.store(true, SeqCst);
    wire.cut();
    if matches!(end, End::Memory | End::AuditFull) {
        line.wires.cut();
    }
    if line.wires.are_over() {
        gate.stop(rt);
    }
    (seat, end)
}

// How the loop into the gate ends. A failed write may be the other loop's, which perhaps has yet to tell the gate that the service is
// lost: so this one tells it too, before the gate can be stopped. A loss that is told twice changes nothing more.
pub(crate) fn with_loss<R: Wait, W: Write>(
    side: &GateSide<'_, R, W>,
    seat: &mut Seat,
    end: End,
) -> End
    requires { IsSeatOf side.now.gate.now seat.old }
    ensures same { IsSeatOf side.now.gate.now seat.new }
    ensures told { IsLossTold seat.old seat.new side.now.port end result }
    ensures end { end ≢ Done → result ≢ Done }
{
    match end {
        End::WriteFault => match side.gate.disconnect(side.rt, side.alloc, seat, side.port) {
            Ok(_) => End::WriteFault,
            Err(Refusal::Fault(_)) => End::AuditFull,
            Err(Refusal::NoMemory) => End::Memory,
        },
        _ => end,
    }
}

// From the gate's port into its connection, of what the openers' calls and the other connection give out. At its end the other
// side's input ends.
fn out_of_gate<R: Wait>(
    rt: &R,
    alloc: Global,
    line: PortWire<'_>,
    gate: &Gate,
    mut seat: Seat,
) -> (Seat, End)
    requires { IsSeatOf gate.now seat }
{
    let wire = line.wire;
    let side = GateSide {
        rt,
        alloc,
        gate,
        port: line.port,
        sender: &wire.sender,
    };
    let end = gate_out(&side, &mut seat);
    if end == End::Done {
        wire.hang_up();
    } else {
        wire.cut();
    }
    (seat, end)
}

/// From the connection into the desk, and what that sends into the connection.
pub fn into_desk<R: Wait>(
    rt: &R,
    alloc: Global,
    wire: &Wire,
    desk: &Desk,
    mut giver: Giver,
) -> (Giver, End)
    ensures same { result.0.channel ≡ giver.channel }
    ensures end { result.1 ≢ Done }
{
    make_room(alloc);
    let mut reader = Recorded::new(wire.reader());
    let side = DeskSide {
        rt,
        alloc,
        desk,
        sender: &wire.sender,
    };
    let end = desk_in_running_works(&side, &mut giver, &mut reader, TURNS);
    if end != End::Closed {
        wire.cut();
    }
    (giver, end)
}

/// From the pool back to the desk, and what that sends into the connection.
pub fn back_to_desk<R: Wait>(
    rt: &R,
    alloc: Global,
    wire: &Wire,
    desk: &Desk,
    mut taker: Taker,
) -> (Taker, End)
    ensures { result.0.channel ≡ taker.channel }
{
    let side = DeskSide {
        rt,
        alloc,
        desk,
        sender: &wire.sender,
    };
    let end = desk_done(&side, &mut taker);
    if end != End::Done {
        wire.cut();
    }
    (taker, end)
}
