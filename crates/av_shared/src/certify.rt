ghost use Rattle.std.specs.Prelude.{◌≡◌, IfSome, IsTrue, List};
ghost use Rattle.std.specs.Option.{option_copied};
ghost use Rattle.av_gate.specs.Claims.{IsLegal};
ghost use Rattle.av_shared.specs.Certified.{IsCertified};
ghost use Rattle.av_shared.specs.History.{AreOwnWorks, HaveHistory, HaveOneSets, IsDeskAudit, IsSpare, IsMerge, entries_at};
ghost use Rattle.av_history.specs.Audits.{SideEntry};

use crate::laws::headline_of_audits;
use crate::merge::{Sides, are_merged};
use av_base::Port;
use av_desk::{Audit as DeskAudit, DeskEntry};
use av_gate::Audit as GateAudit;

/// Whether the events of all are one history. Then the headline holds of this very run. If it is false, there is no such history.
pub fn is_certified(gate: &GateAudit, desk: &DeskAudit, spare: Option<&DeskAudit>) -> bool
    requires gate { IsLegal gate.now }
    requires desk { IsDeskAudit desk.now }
    requires spare { IfSome (option_copied spare) (λ a. IsDeskAudit a) }
    requires one_sets { HaveOneSets desk.now (option_copied spare) }
    ensures sound { IsTrue result → AreOwnWorks desk.now (option_copied spare.entry)
        → IsCertified gate.now desk.now (option_copied spare.entry) }
    ensures complete { HaveHistory gate.now desk.now (option_copied spare.entry) → IsTrue result }
{
    if !have_history(gate, desk, spare) {
        return false;
    }
    headline_of_audits(gate, desk, spare);
    true
}

/// Whether there is one history of the events of all: the desks are at two ports, and each message that came had been sent by the other
/// side before. It takes no memory. Each message that was sent is looked at once, and where one comes late or again, all that were sent.
pub fn have_history(gate: &GateAudit, desk: &DeskAudit, spare: Option<&DeskAudit>) -> bool
    requires { IfSome (option_copied spare) (λ a. IsDeskAudit a) }
    ensures sound { IsTrue result → HaveHistory gate.now desk.now (option_copied spare.entry) }
    ensures complete { HaveHistory gate.now desk.now (option_copied spare.entry) → IsTrue result }
{
    are_beside(desk, spare) && are_one(gate, desk, spare)
}

// Whether a spare, if there is one, is at the other port.
fn are_beside(desk: &DeskAudit, spare: Option<&DeskAudit>) -> bool
    requires { IfSome (option_copied spare) (λ a. IsDeskAudit a) }
    ensures sound { IsTrue result → IsSpare desk.now (option_copied spare.entry) }
    ensures complete { IsSpare desk.now (option_copied spare.entry) → IsTrue result }
{
    match spare {
        None => true,
        Some(audit) => audit.port == desk.port.other(),
    }
}

fn are_one(gate: &GateAudit, desk: &DeskAudit, spare: Option<&DeskAudit>) -> bool
    ensures sound { IsTrue result → (history : List SideEntry) × IsMerge gate.now desk.now (option_copied spare.entry) history }
    ensures complete { (history : List SideEntry) → IsMerge gate.now desk.now (option_copied spare.entry) history → IsTrue result }
{
    are_merged(Sides {
        gate: gate.events.as_slice(),
        one: entries_at(desk, spare, Port::One),
        two: entries_at(desk, spare, Port::Two),
    })
}

// What happened at a port.
fn entries_at<'a>(desk: &'a DeskAudit, spare: Option<&'a DeskAudit>, port: Port) -> &'a [DeskEntry]
    ensures { result.now ≡ entries_at desk.now (option_copied spare.entry) port }
{
    if desk.port == port {
        desk.events.as_slice()
    } else {
        match spare {
            None => &[],
            Some(audit) => audit.events.as_slice(),
        }
    }
}
