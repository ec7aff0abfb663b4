// What the loop into the gate tells the gate at its end.
ghost use Rattle.std.specs.Prelude.{IfOk};
ghost use Rattle.av_gate.specs.Seats.{IsSeatOf};

use super::volume_of;
use crate::carrying::with_loss;
use av_base::{Limits, Mode, Port};
use av_engines::End;
use av_gate::{Event, Gate, Seat, Unclosed};
use av_loops::{GateSide, Sender};
use std::alloc::Global;
use std::sync::Wait;
use std::test::Fail;

fn gate_of_two(alloc: Global) -> Result<(Gate, Seat), Fail>
    ensures { IfOk result (λ r. IsSeatOf r.0 r.1) }
{
    let volume = volume_of(alloc, b"ABC", 1)?;
    match Gate::new(alloc, volume, Mode::FailClosed, Limits::greatest()) {
        Ok(made) => Ok(made),
        Err(_) => Err(Fail::new("no gate")),
    }
}

// How often the gate was told that the service of the second port is lost, as a loop ends at that port; and how the loop ends.
fn told_at<R: Wait>(rt: &R, alloc: Global, end: End) -> Result<(usize, End), Fail> {
    let (gate, mut seat) = gate_of_two(alloc)?;
    let sender = Sender::new(alloc, Vec::<u8>::new(alloc));
    let side = GateSide {
        rt,
        alloc,
        gate: &gate,
        port: Port::Two,
        sender: &sender,
    };
    let ended = with_loss(&side, &mut seat, end);
    let mut seats = Vec::new(alloc);
    if seats.push(seat).is_err() {
        gate.abandon();
        return Err(Fail::new("no memory"));
    }
    match gate.close(seats, Vec::new(alloc)) {
        Ok(audit) => {
            let told = audit
                .events
                .iter()
                .filter(|entry| matches!(entry.event(), Event::Disconnect { port: Port::Two }))
                .count();
            Ok((told, ended))
        }
        Err(unclosed) => {
            let Unclosed {
                why: _,
                gate,
                seats: _,
                receipts: _,
            } = unclosed;
            gate.abandon();
            Err(Fail::new("not closed"))
        }
    }
}

#[test]
fn a_failed_write_alone_is_told_to_the_gate(rt: HostRuntime) -> Result<(), Fail> {
    let rows = [
        (End::WriteFault, 1),
        (End::ReadFault, 0),
        (End::Frame, 0),
        (End::Closed, 0),
        (End::Memory, 0),
        (End::AuditFull, 0),
    ];
    for (end, times) in rows {
        assert!(&rt; told_at(&rt, rt.alloc(), end)? == (times, end));
    }
    Ok(())
}
