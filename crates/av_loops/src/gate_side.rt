ghost use Rattle.std.specs.Prelude.{◌≢◌, ◌≤◌, IfErr};
ghost use Rattle.av_base.specs.Recorded.{AreLeft};
ghost use Rattle.av_engines.specs.Cause.{IsOfReader, IsOfReads};
ghost use Rattle.av_frame.specs.declared.end.End.TheVariants.{Done};
ghost use Rattle.av_gate.specs.Seats.{IsSeatOf, floor_seen};
ghost use Rattle.av_loops.specs.Ends.{EndsSo, IsUnread};

use crate::ending::end_of;
use crate::sender::{PortOutbox, Sender, Unsent};
use av_base::Port;
use av_base::recorded::RecordedRead;
use av_engines::{End, Incoming};
use av_frame::Message;
use av_gate::{Gate, Seat};
use std::alloc::Global;
use std::io::Write;
use std::sync::Wait;

/// A port of a gate with the writing end of its stream, as the loops round it share them.
#[derive(Drop)]
pub struct GateSide<'a, R, W> {
    pub rt: &'a R,
    pub alloc: Global,
    pub gate: &'a Gate,
    pub port: Port,
    pub sender: &'a Sender<W>,
}

/// Hands each message of a port that a stream of frames spells to the gate, and passes over those of the other, until the stream
/// ends, fails, or was read `turns` times: Closed, ReadFault, Frame, each of which is a disconnection of the port, and so is
/// WriteFault; Memory and AuditFull, which are none, so that opens may stay without an answer. What the gate gives out at the port
/// meanwhile is sent before the stream is read again: a message that has come whole is handled first.
pub fn gate_in<R: Wait, S: RecordedRead, W: Write>(
    side: &GateSide<'_, R, W>,
    seat: &mut Seat,
    reader: &mut S,
    turns: u64,
) -> End
    requires { IsSeatOf side.now.gate.now seat.old }
    ensures same { IsSeatOf side.now.gate.now seat.new }
    ensures later { floor_seen seat.old ≤ floor_seen seat.new }
    ensures end { result ≢ Done }
    ensures read { IsOfReads result (S.has_failed reader.new) turns (S.reads reader.old) (S.reads reader.new) }
{
    let Ok(mut incoming) = Incoming::new(side.alloc, turns) else {
        return End::Memory;
    };
    take_messages(side, seat, reader, &mut incoming)
}

// Each message of the port as an event.
fn take_messages<R: Wait, S: RecordedRead, W: Write>(
    side: &GateSide<'_, R, W>,
    seat: &mut Seat,
    reader: &mut S,
    incoming: &mut Incoming,
) -> End
    requires { IsSeatOf side.now.gate.now seat.old }
    ensures same { IsSeatOf side.now.gate.now seat.new }
    ensures later { floor_seen seat.old ≤ floor_seen seat.new }
    ensures end { result ≢ Done }
    ensures read { IsOfReads result (S.has_failed reader.new) incoming.old.turns (S.reads reader.old) (S.reads reader.new) }
{
    'messages: for _ in side.rt.forever() {
        let message = match next_message(side, seat, reader, incoming) {
            Ok(message) => message,
            Err(end) => return end,
        };
        if message.port() != side.port {
            continue;
        }
        if let Err(refusal) = side
            .gate
            .message_quietly(side.rt, side.alloc, seat, &message)
        {
            return after_sending(side, seat, end_of(refusal));
        }
    }
    unreachable!()
}

// The end at a refusal. What the gate gave out before still goes out.
fn after_sending<R: Wait, W: Write>(side: &GateSide<'_, R, W>, seat: &mut Seat, end: End) -> End
    requires { IsSeatOf side.now.gate.now seat.old }
    ensures same { IsSeatOf side.now.gate.now seat.new }
    ensures later { floor_seen seat.old ≤ floor_seen seat.new }
    ensures end { EndsSo end result }
{
    match send(side, seat) {
        Ok(()) => end,
        Err(end) => end,
    }
}

// The next message. What waits is sent before it is waited for.
fn next_message<R: Wait, S: RecordedRead, W: Write>(
    side: &GateSide<'_, R, W>,
    seat: &mut Seat,
    reader: &mut S,
    incoming: &mut Incoming,
) -> Result<Message, End>
    requires { IsSeatOf side.now.gate.now seat.old }
    ensures same { IsSeatOf side.now.gate.now seat.new }
    ensures later { floor_seen seat.old ≤ floor_seen seat.new }
    ensures end { IfErr result (λ end. end ≢ Done) }
    ensures read { IfErr result (λ end. IsOfReader end (S.has_failed reader.new) incoming.new.turns) }
    ensures counted { AreLeft incoming.old.turns (S.reads reader.old) (S.reads reader.new) incoming.new.turns }
{
    if let Ok(Some(message)) = incoming.arrived() {
        return Ok(message);
    }
    send(side, seat)?;
    match incoming.next(reader) {
        Ok(message) => Ok(message),
        Err(end) => Err(with_disconnection(side, seat, end)),
    }
}

/// Writes each message of a port of the gate to a stream as a frame, until the gate is stopped and none is left: Done. Else
/// WriteFault, which is a disconnection of the port; Memory and AuditFull, which are none. It is woken for what calls of others
/// give out, and sends what another loop of the sender has not sent.
pub fn gate_out<R: Wait, W: Write>(side: &GateSide<'_, R, W>, seat: &mut Seat) -> End
    requires { IsSeatOf side.now.gate.now seat.old }
    ensures same { IsSeatOf side.now.gate.now seat.new }
    ensures later { floor_seen seat.old ≤ floor_seen seat.new }
{
    'batches: for _ in side.rt.forever() {
        if !side.gate.await_outgoing(side.rt, side.port) {
            return End::Done;
        }
        if let Err(end) = send(side, seat) {
            return end;
        }
    }
    unreachable!()
}

// Sends what waits. A write that fails is told to the gate by who meets it.
fn send<R: Wait, W: Write>(side: &GateSide<'_, R, W>, seat: &mut Seat) -> Result<(), End>
    requires { IsSeatOf side.now.gate.now seat.old }
    ensures same { IsSeatOf side.now.gate.now seat.new }
    ensures later { floor_seen seat.old ≤ floor_seen seat.new }
    ensures end { IfErr result IsUnread }
{
    let (gate, port) = (side.gate, side.port);
    match side
        .sender
        .send(side.rt, side.alloc, &PortOutbox { gate, port })
    {
        Ok(()) => Ok(()),
        Err(Unsent::WriteFault) => Err(with_disconnection(side, seat, End::WriteFault)),
        Err(Unsent::Lost) => Err(End::WriteFault),
        Err(Unsent::Memory) => Err(End::Memory),
    }
}

// Tells the gate that the port's service is lost, where this end says so.
fn with_disconnection<R: Wait, W: Write>(
    side: &GateSide<'_, R, W>,
    seat: &mut Seat,
    end: End,
) -> End
    requires { IsSeatOf side.now.gate.now seat.old }
    ensures same { IsSeatOf side.now.gate.now seat.new }
    ensures later { floor_seen seat.old ≤ floor_seen seat.new }
    ensures end { EndsSo end result }
{
    match end {
        End::Done | End::Memory | End::AuditFull => end,
        End::ReadFault | End::WriteFault | End::Frame | End::Closed => {
            match side.gate.disconnect(side.rt, side.alloc, seat, side.port) {
                Ok(_) => end,
                Err(refusal) => end_of(refusal),
            }
        }
    }
}
