ghost use Rattle.std.specs.Prelude.{◌≡◌, ◌≢◌, ◌↔◌, [], IfOk, IfErr, IfNone, Some};
ghost use Rattle.std.specs.List.{All};
ghost use Rattle.av_gate.specs.Book.{state_of};
ghost use Rattle.av_gate.specs.Claims.{AreCallsOf, Stands};
ghost use Rattle.av_gate.specs.declared.closing.CloseFault.TheVariants.{Held};

use crate::audit::Audit;
use crate::checks::{all_stand, are_calls_of};
use crate::gate::{Gate, Inner};
use crate::locked::Locked;
use crate::seat::Seat;
use av_ends::Receipt;
use std::sync::Mutex;

/// Why a gate is not closed, in the order of the tests.
#[derive(Clone, Copy, Debug, PartialEq, Eq)]
pub enum CloseFault {
    /// A question runs, so an open may wait for its answer.
    Held,
    /// The calls of the seats are not the events of the audit, each once and in each seat's order, or a receipt's answer is not
    /// its open's one answer there.
    Mismatch,
}

/// A gate that was not closed, with all that was handed in.
pub struct Unclosed {
    pub why: CloseFault,
    pub gate: Gate,
    pub seats: Vec<Seat>,
    pub receipts: Vec<Receipt>,
}

impl Gate {
    ghost use Rattle.av_gate.specs.Claims.{IsLegal, end_of};
    ghost use Rattle.av_gate.specs.Seats.{IsSeatOf};

    /// Ends the gate and gives its audit: Held, Mismatch, all handed back. All seats of the gate have to be there that made a
    /// call; nothing is asked of them. It takes no memory and no lock. The seats cost the logarithm of their calls for each
    /// event, a receipt a look at one place.
    pub fn close(self, seats: Vec<Seat>, receipts: Vec<Receipt>) -> Result<Audit, Unclosed>
        ensures legal { IfOk result (λ a. IsLegal a) }
        ensures calls { IfOk result (λ a. AreCallsOf seats.items a.volume a.events.items) }
        ensures receipts { IfOk result (λ a. All (Stands a.events.items) receipts.items) }
        ensures idle { IfOk result (λ a. (end_of a).table.questions ≡ []) }
        ensures back { IfErr result (λ e. (e.seats ≡ seats) × (e.receipts ≡ receipts)) }
        ensures gate { IfErr result (λ e. (seat : Seat) → IsSeatOf self seat → IsSeatOf e.gate seat) }
    {
        let Gate {
            inner,
            answered,
            sent,
            floor,
            limits,
            alloc,
        } = self;
        let Inner { locked, is_stopped } = inner.into_inner();
        let why = refusal(&locked, seats.as_slice(), receipts.as_slice());
        let Some(why) = why else {
            return Ok(locked.into_audit());
        };
        let inner = Inner { locked, is_stopped };
        let gate = Gate {
            inner: Mutex::new(inner),
            answered,
            sent,
            floor,
            limits,
            alloc,
        };
        Err(Unclosed {
            why,
            gate,
            seats,
            receipts,
        })
    }
}

// Why a gate over this state is not closed.
fn refusal(locked: &Locked, seats: &[Seat], receipts: &[Receipt]) -> Option<CloseFault>
    ensures idle { IfNone result ((state_of locked.now).table.questions ≡ []) }
    ensures calls { IfNone result (AreCallsOf seats.now locked.now.start locked.now.events) }
    ensures receipts { IfNone result (All (Stands locked.now.events) receipts.now) }
    ensures held { result ≡ Some Held ↔ ((state_of locked.now).table.questions ≢ []) }
{
    if locked.is_asking() {
        return Some(CloseFault::Held);
    }
    if !are_calls_of(seats, locked.start(), locked.events()) || !all_stand(locked, receipts) {
        return Some(CloseFault::Mismatch);
    }
    None
}
