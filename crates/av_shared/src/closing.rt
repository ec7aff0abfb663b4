ghost use Rattle.std.specs.Prelude.{◌≡◌, is_some, IfErr, IfOk, IfSome};
ghost use Rattle.std.specs.List.{All};
ghost use Rattle.av_gate.specs.Claims.{AreCallsOf, IsLegal, Stands};
ghost use Rattle.av_shared.specs.History.{IsDeskAudit};

use av_desk::{Audit as DeskAudit, Desk};
use av_ends::Receipt;
use av_gate::{Audit as GateAudit, Gate, Seat, Unclosed};

/// The audits of a gate and of its desks that were closed together.
#[derive(Drop)]
pub struct Closed {
    pub gate: GateAudit,
    pub desk: DeskAudit,
    pub spare: Option<DeskAudit>,
}

/// A gate that could not be closed, and its desks, which were not.
pub struct NotClosed {
    pub unclosed: Unclosed,
    pub desk: Desk,
    pub spare: Option<Desk>,
}

/// Ends a gate and its desks, and gives their audits: why not is told by the gate, and all is handed back. It takes no memory and no lock.
pub fn close_all(
    gate: Gate,
    seats: Vec<Seat>,
    receipts: Vec<Receipt>,
    desk: Desk,
    spare: Option<Desk>,
) -> Result<Closed, NotClosed>
    ensures gate { IfOk result (λ c. IsLegal c.gate) }
    ensures calls { IfOk result (λ c. AreCallsOf seats.items c.gate.volume c.gate.events.items) }
    ensures receipts { IfOk result (λ c. All (Stands c.gate.events.items) receipts.items) }
    ensures desk { IfOk result (λ c. IsDeskAudit c.desk) }
    ensures spare { IfOk result (λ c. IfSome c.spare (λ a. IsDeskAudit a)) }
    ensures both { IfOk result (λ c. is_some c.spare ≡ is_some spare) }
    ensures back { IfErr result (λ e. (e.unclosed.seats ≡ seats) × (e.unclosed.receipts ≡ receipts)) }
{
    match gate.close(seats, receipts) {
        Ok(gate) => Ok(Closed {
            gate,
            desk: desk.close(),
            spare: close_spare(spare),
        }),
        Err(unclosed) => Err(NotClosed {
            unclosed,
            desk,
            spare,
        }),
    }
}

fn close_spare(spare: Option<Desk>) -> Option<DeskAudit>
    ensures audit { IfSome result (λ a. IsDeskAudit a) }
    ensures both { is_some result ≡ is_some spare }
{
    match spare {
        None => None,
        Some(desk) => Some(desk.close()),
    }
}
