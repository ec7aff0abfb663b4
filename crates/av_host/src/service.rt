ghost use Rattle.std.specs.Prelude.{◌↔◌, IfErr, IfOk, IsSome};
ghost use Rattle.av_status.specs.Status.{IsFault, status_of_end};

use crate::desks::Desks;
use crate::wire::{GateWires, Wire};
use av_desk::Desk;
use av_engines::End;
use std::alloc::Global;
use std::net::Net;

/// What belongs to one scanning service: its desk, and its end of its connection to the gate.
#[derive(Drop)]
pub struct HostedService {
    pub desk: Desk,
    pub wire: Wire,
}

impl HostedService {
    // A service over a new connection, and the gate's end of that.
    fn connect<R: Net>(rt: &R, alloc: Global, desk: Desk) -> Result<(Wire, HostedService), End>
        ensures { IfErr result (λ end. IsFault (status_of_end end)) }
    {
        let (gate_wire, wire) = Wire::pair(rt, alloc)?;
        Ok((gate_wire, HostedService { desk, wire }))
    }
}

/// The services of a gate: one at its first port, and one at the second where there is a spare; and the gate's ends of their
/// connections.
#[derive(Drop)]
pub struct Services {
    pub first: HostedService,
    pub spare: Option<HostedService>,
    pub wires: GateWires,
}

impl Services {
    /// Services at these desks, each over a new connection: Memory, or ReadFault where the system refuses one.
    pub fn connect<R: Net>(rt: &R, alloc: Global, desks: Desks) -> Result<Services, End>
        ensures spare { IfOk result (λ services. IsSome services.spare ↔ IsSome desks.spare) }
        ensures wire { IfOk result (λ services. IsSome services.wires.spare ↔ IsSome desks.spare) }
        ensures failed { IfErr result (λ end. IsFault (status_of_end end)) }
    {
        let Desks { first, spare } = desks;
        let (first_wire, first) = HostedService::connect(rt, alloc, first)?;
        let (spare_wire, spare) = match spare {
            None => (None, None),
            Some(desk) => {
                let (wire, service) = HostedService::connect(rt, alloc, desk)?;
                (Some(wire), Some(service))
            }
        };
        let wires = GateWires {
            first: first_wire,
            spare: spare_wire,
        };
        Ok(Services {
            first,
            spare,
            wires,
        })
    }

    /// Whether a thread of any side couldn't be started.
    pub fn lack_thread(&self) -> bool {
        let spare = self.spare.as_ref();
        self.wires.lack_thread()
            || self.first.wire.lacks_thread()
            || spare.is_some_and(|spare| spare.wire.lacks_thread())
    }
}
