ghost use Rattle.std.specs.Prelude.{◌≡◌, IfOk, IfSome, IsTrue, None};
ghost use Rattle.std.specs.Option.{option_copied};
ghost use Rattle.std.specs.Thread.{IsSync};
ghost use Rattle.av_desk.specs.Book.{compiled};
ghost use Rattle.av_gate.specs.Claims.{IsLegal};
ghost use Rattle.av_shared.specs.Certified.{IsCertified};
ghost use Rattle.av_shared.specs.History.{AreOwnWorks, HaveHistory, HaveOneSets, IsDeskAudit};
ghost use Rattle.av_shared.specs.Works.{IsOpenedWith, SpareIsOpenedWith};
ghost use Rattle.av_shared.specs.Still.{AreStill, HaveOnly, SpareHasOnly, TellsTrue};
ghost use Rattle.av_sigset.specs.Publication.{publication_of};

use crate::certify::is_certified;
use crate::looking::Looking;
use crate::still::{are_still, has_only};
use crate::works::are_own_works;
use av_base::Mode;
use av_desk::Audit as DeskAudit;
use av_gate::Audit as GateAudit;
use av_match::Automaton;
use av_sigset::SignatureSet;
use std::alloc::AllocError;
use std::thread::Threads;

/// Whether this run shows by itself that each of its grants is true: the gate was fail-closed, no stream changed, each desk had this set
/// and no other, and the events of all are one history. Then each answer that grants an open names the generation of its stream in the
/// audit's volume, and no pattern of the set occurs in that content; nothing else lets an open through. If it is false, one of these
/// four is not so.
pub fn tells_true(
    gate: &GateAudit,
    desk: &DeskAudit,
    spare: Option<&DeskAudit>,
    set: &SignatureSet,
) -> bool
    requires gate { IsLegal gate.now }
    requires desk { IsDeskAudit desk.now }
    requires spare { IfSome (option_copied spare) (λ a. IsDeskAudit a) }
    ensures certified { IsTrue result → AreOwnWorks desk.now (option_copied spare.entry)
        → IsCertified gate.now desk.now (option_copied spare.entry) }
    ensures tells { IsTrue result → AreOwnWorks desk.now (option_copied spare.entry) → TellsTrue gate.now set.now }
    ensures opened { IsTrue result → IsOpenedWith desk.now (publication_of set.now) }
    ensures beside { IsTrue result → SpareIsOpenedWith (option_copied spare.entry) (publication_of set.now) }
    ensures complete { gate.now.mode ≡ Mode.FailClosed → AreStill gate.now desk.now (option_copied spare.entry)
        → HaveOnly desk.now (option_copied spare.entry) (publication_of set.now)
        → HaveHistory gate.now desk.now (option_copied spare.entry) → IsTrue result }
{
    if !is_still_under(gate, desk, spare, set) {
        return false;
    }
    is_certified(gate, desk, spare)
}

// Whether the gate was fail-closed, no stream changed, and each desk had this set and no other.
fn is_still_under(
    gate: &GateAudit,
    desk: &DeskAudit,
    spare: Option<&DeskAudit>,
    set: &SignatureSet,
) -> bool
    ensures closed { IsTrue result → gate.now.mode ≡ Mode.FailClosed }
    ensures still { IsTrue result → AreStill gate.now desk.now (option_copied spare.entry) }
    ensures only { IsTrue result → HaveOnly desk.now (option_copied spare.entry) (publication_of set.now) }
    ensures complete { gate.now.mode ≡ Mode.FailClosed → AreStill gate.now desk.now (option_copied spare.entry)
        → HaveOnly desk.now (option_copied spare.entry) (publication_of set.now) → IsTrue result }
{
    gate.mode == Mode::FailClosed && are_still(gate, desk, spare) && have_only(desk, spare, set)
}

// Whether each desk had this set and no other.
fn have_only(desk: &DeskAudit, spare: Option<&DeskAudit>, set: &SignatureSet) -> bool
    ensures sound { IsTrue result → HaveOnly desk.now (option_copied spare.entry) (publication_of set.now) }
    ensures complete { HaveOnly desk.now (option_copied spare.entry) (publication_of set.now) → IsTrue result }
{
    has_only(&desk.catalogue, set) && spare_has_only(spare, set)
}

fn spare_has_only(spare: Option<&DeskAudit>, set: &SignatureSet) -> bool
    ensures sound { IsTrue result → SpareHasOnly (option_copied spare.entry) (publication_of set.now) }
    ensures complete { SpareHasOnly (option_copied spare.entry) (publication_of set.now) → IsTrue result }
{
    match spare {
        None => true,
        Some(audit) => has_only(&audit.catalogue, set),
    }
}

/// The same with nothing asked: each work that came back is run again, with the automaton of the set, in as many threads as may look at
/// once. It takes memory for the place of each work.
pub fn shows_true<R: Threads + Sync>(
    looking: &Looking<'_, R>,
    gate: &GateAudit,
    desk: &DeskAudit,
    spare: Option<&DeskAudit>,
    set: &SignatureSet,
    automaton: &Automaton,
) -> Result<bool, AllocError>
    requires gate { IsLegal gate.now }
    requires desk { IsDeskAudit desk.now }
    requires spare { IfSome (option_copied spare) (λ a. IsDeskAudit a) }
    requires built { automaton.now ≡ compiled (publication_of set.now) }
    ensures certified { IfOk result (λ yes. IsTrue yes → IsCertified gate.now desk.now (option_copied spare.entry)) }
    ensures tells { IfOk result (λ yes. IsTrue yes → TellsTrue gate.now set.now) }
{
    if !is_still_under(gate, desk, spare, set) {
        return Ok(false);
    }
    has_certified_works(looking, gate, desk, spare, set, automaton)
}

// Whether the events of all are one history and each work that came back is the desk's own.
fn has_certified_works<R: Threads + Sync>(
    looking: &Looking<'_, R>,
    gate: &GateAudit,
    desk: &DeskAudit,
    spare: Option<&DeskAudit>,
    set: &SignatureSet,
    automaton: &Automaton,
) -> Result<bool, AllocError>
    requires gate { IsLegal gate.now }
    requires desk { IsDeskAudit desk.now }
    requires spare { IfSome (option_copied spare) (λ a. IsDeskAudit a) }
    requires built { automaton.now ≡ compiled (publication_of set.now) }
    requires one_sets { HaveOneSets desk.now (option_copied spare) }
    requires opened { IsOpenedWith desk.now (publication_of set.now) }
    requires beside { SpareIsOpenedWith (option_copied spare) (publication_of set.now) }
    ensures { IfOk result (λ yes. IsTrue yes → IsCertified gate.now desk.now (option_copied spare.entry)) }
{
    if spare.is_none() {
        return has_certified_works_alone(looking, gate, desk, set, automaton);
    }
    if !is_certified(gate, desk, spare) {
        return Ok(false);
    }
    are_own_works(looking, desk, spare, set, automaton)
}

// The same of a gate with one desk. The two looks don't wait for one another.
fn has_certified_works_alone<R: Threads + Sync>(
    looking: &Looking<'_, R>,
    gate: &GateAudit,
    desk: &DeskAudit,
    set: &SignatureSet,
    automaton: &Automaton,
) -> Result<bool, AllocError>
    requires gate { IsLegal gate.now }
    requires desk { IsDeskAudit desk.now }
    requires built { automaton.now ≡ compiled (publication_of set.now) }
    requires opened { IsOpenedWith desk.now (publication_of set.now) }
    ensures { IfOk result (λ yes. IsTrue yes → IsCertified gate.now desk.now None) }
{
    let (rt, alloc, threads) = (looking.rt, looking.alloc, looking.threads);
    let (is_one, are_own) = looking.both(
        || -> bool
            requires { IsLegal gate.now × IsDeskAudit desk.now }
            ensures { IsTrue result → AreOwnWorks desk.entry.now None → IsCertified gate.entry.now desk.entry.now None }
        { is_certified(gate, desk, None) },
        || -> Result<bool, AllocError>
            requires { IsSync R.row × IsDeskAudit desk.now × (automaton.now ≡ compiled (publication_of set.now)) × IsOpenedWith desk.now (publication_of set.now) }
            ensures { IfOk result (λ yes. IsTrue yes → AreOwnWorks desk.entry.now None) }
        {
            let looking = Looking { rt, alloc, threads };
            are_own_works(&looking, desk, None, set, automaton)
        },
    );
    if !is_one {
        return Ok(false);
    }
    are_own
}
