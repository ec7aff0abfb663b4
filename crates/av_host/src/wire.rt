ghost use Rattle.std.specs.Prelude.{◌≡◌, ◌↔◌, IfErr, IfSome, IsSome};
ghost use Rattle.av_base.specs.declared.port.Port.TheVariants.{One, Two};
ghost use Rattle.av_gate.specs.Seats.{IsSeatOf};
ghost use Rattle.av_status.specs.Status.{IsFault, status_of_end};

use crate::signal::{Signal, SignallingWriter, WatchingReader};
use av_base::Port;
use av_engines::End;
use av_gate::{Gate, Seat};
use av_loops::Sender;
use std::alloc::Global;
use std::net::{Net, Shutdown};
use std::os::unix::net::UnixStream;
use std::sync::Wait;
use std::sync::atomic::AtomicBool;
use std::sync::atomic::Ordering::SeqCst;

/// Connections that are cut where a thread can't be started.
pub trait BreakOff {
    /// Cuts them: the loops of both sides come to their ends.
    fn break_off(&self);
}

/// One end of the connection between the gate and a service.
#[derive(Drop)]
pub struct Wire {
    stream: UnixStream,
    // What the other side has written.
    signal: Signal,
    /// Its writing end, for all loops of this side.
    pub sender: Sender<SignallingWriter>,
    /// Nothing comes from the other side any more.
    pub is_over: AtomicBool,
    /// A thread of this side couldn't be started.
    pub lacks_thread: AtomicBool,
}

impl Wire {
    // An end that this signal tells of what comes. Its loops write through a descriptor of their own, which may be refused, and give the
    // other end its signal.
    fn new(alloc: Global, stream: UnixStream, signal: Signal, other: Signal) -> Result<Wire, End>
        ensures { IfErr result (λ end. IsFault (status_of_end end)) }
    {
        let Ok(own) = stream.try_clone() else {
            return Err(End::ReadFault);
        };
        let writer = SignallingWriter {
            stream: own,
            signal: other,
        };
        Ok(Wire {
            stream,
            signal,
            sender: Sender::new(alloc, writer),
            is_over: AtomicBool::new(false),
            lacks_thread: AtomicBool::new(false),
        })
    }

    /// Both ends of a new connection, the gate's first: Memory, or ReadFault where the system refuses one.
    pub fn pair<R: Net>(rt: &R, alloc: Global) -> Result<(Wire, Wire), End>
        ensures { IfErr result (λ end. IsFault (status_of_end end)) }
    {
        let Ok((gate_stream, desk_stream)) = UnixStream::pair(rt) else {
            return Err(End::ReadFault);
        };
        let Ok((to_gate, given_by_desk)) = Signal::pair(alloc) else {
            return Err(End::Memory);
        };
        let Ok((to_desk, given_by_gate)) = Signal::pair(alloc) else {
            return Err(End::Memory);
        };
        let gate_wire = Wire::new(alloc, gate_stream, to_gate, given_by_gate)?;
        let desk_wire = Wire::new(alloc, desk_stream, to_desk, given_by_desk)?;
        Ok((gate_wire, desk_wire))
    }

    /// Its reading end, for the one loop that reads.
    pub fn reader(&self) -> WatchingReader<'_> {
        WatchingReader::new(&self.stream, &self.signal)
    }

    /// Ends the other side's input.
    pub fn hang_up(&self) {
        let _ = self.stream.shutdown(Shutdown::Write);
    }

    /// Ends the input of both sides.
    pub fn cut(&self) {
        let _ = self.stream.shutdown(Shutdown::Both);
    }

    /// Whether nothing comes from the other side any more.
    pub fn is_over(&self) -> bool {
        self.is_over.load(SeqCst)
    }

    /// Whether a thread of this side couldn't be started.
    pub fn lacks_thread(&self) -> bool {
        self.lacks_thread.load(SeqCst)
    }
}

impl BreakOff for Wire {
    fn break_off(&self) {
        self.lacks_thread.store(true, SeqCst);
        self.cut();
    }
}

/// The gate's ends of its connections: one at its first port, and one at the second where there is a spare.
#[derive(Drop)]
pub struct GateWires {
    pub first: Wire,
    pub spare: Option<Wire>,
}

impl GateWires {
    /// The connection at the first port.
    pub fn first(&self) -> PortWire<'_>
        ensures { result.port ≡ One }
    {
        PortWire {
            wires: self,
            wire: &self.first,
            port: Port::One,
        }
    }

    /// The spare's connection, where there is one.
    pub fn spare(&self) -> Option<PortWire<'_>>
        ensures port { IfSome result (λ line. line.port ≡ Two) }
        ensures spare { IsSome result ↔ IsSome self.now.spare }
    {
        match &self.spare {
            None => None,
            Some(wire) => Some(PortWire {
                wires: self,
                wire,
                port: Port::Two,
            }),
        }
    }

    /// Whether nothing comes from any service any more.
    pub fn are_over(&self) -> bool {
        self.first().wire.is_over() && self.spare().is_none_or(|line| line.wire.is_over())
    }

    /// Whether each service was welcome or is lost. The floor is raised by a greeting that is welcome.
    pub fn have_come<R: Wait>(&self, rt: &R, gate: &Gate, seat: &mut Seat) -> bool
        requires { IsSeatOf gate.now seat.old }
        ensures { IsSeatOf gate.now seat.new }
    {
        match self.spare() {
            None => gate.floor(seat).get() != 0 || self.are_over(),
            Some(spare) => self.first().has_come(rt, gate) && spare.has_come(rt, gate),
        }
    }

    /// Whether a thread of the gate's side couldn't be started.
    pub fn lack_thread(&self) -> bool {
        self.first.lacks_thread() || self.spare().is_some_and(|line| line.wire.lacks_thread())
    }

    /// Ends the input of all sides.
    pub fn cut(&self) {
        self.first.cut();
        if let Some(spare) = &self.spare {
            spare.cut();
        }
    }
}

impl BreakOff for GateWires {
    fn break_off(&self) {
        self.first.break_off();
        if let Some(spare) = &self.spare {
            spare.break_off();
        }
    }
}

/// One of the gate's connections, among all.
#[derive(Clone, Copy)]
pub struct PortWire<'a> {
    pub wires: &'a GateWires,
    pub wire: &'a Wire,
    pub port: Port,
}

impl PortWire<'_> {
    // Whether the service was welcome or is lost.
    fn has_come<R: Wait>(&self, rt: &R, gate: &Gate) -> bool {
        self.wire.is_over() || gate.connected(rt, self.port)
    }
}
