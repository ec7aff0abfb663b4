ghost use Rattle.std.specs.Prelude.{List};
ghost use Rattle.std.specs.Option.{option_copied};
ghost use Rattle.av_filter.specs.Once.{AuditAnswersOnce};
ghost use Rattle.av_gate.specs.Claims.{IsLegal, table_of};
ghost use Rattle.av_shared.specs.History.{AreOneHistory, HaveOneSets, IsDeskAudit, IsSpare, sets_at, told_at};
ghost use Rattle.av_shared.specs.Runs.{AreOneRunHistory, RunWorksHaveVerdicts};
ghost use Rattle.av_store.specs.Files.{File};
ghost use Rattle.av_store.specs.Seen.{Keeps};
ghost use Rattle.av_store.specs.Sound.{IsOfFiles};
ghost use Rattle.av_history.specs.Audits.{AuditsGrantOnlyClean, AuditsHoldOneVerdict, SideEntry};

use av_history::laws::audits;

/// The headline of running threads. A gate, the desk of one of its ports and the desk of the other, if there is one, were closed, and
/// gave these audits. Put together in any order in which each message that came had been sent by the other side before, and
/// where each work that came back to a desk is one that it lent: no two verdicts stand for one stream, generation and version;
/// each grant of a fail-closed gate names the present generation of a content that holds no signature of its version; and each
/// open is pended or answered, once. What is asked of each audit is what `close` says of it; a version names one set, whichever
/// desk it was published to; and the gate's volume, as every volume, keeps what some files say. A work that came back is one
/// that the desk lent where it is what `Lent::run` or a pool gave of it: so says `of_runs`.
pub fn headline_of_audits(
    gate: &av_gate::Audit,
    desk: &av_desk::Audit,
    spare: Option<&av_desk::Audit>,
)
    requires gate { IsLegal gate.now }
    requires desk { IsDeskAudit desk.now }
    requires spare { IsSpare desk.now (option_copied spare) }
    requires one_sets { HaveOneSets desk.now (option_copied spare) }
    ensures files { IsOfFiles gate.now.volume }
    ensures of_runs { (history : List SideEntry) → AreOneRunHistory gate.now desk.now (option_copied spare.entry) history
        → AreOneHistory gate.now desk.now (option_copied spare.entry) history }
    ensures one_verdict { (files : List File) (history : List SideEntry) → Keeps gate.now.volume files
        → AreOneHistory gate.now desk.now (option_copied spare.entry) history
        → AuditsHoldOneVerdict files (table_of gate.now) gate.now.volume (told_at desk.now (option_copied spare.entry))
        (sets_at desk.now (option_copied spare.entry)) history }
    ensures only_clean { (files : List File) (history : List SideEntry) → Keeps gate.now.volume files
        → AreOneHistory gate.now desk.now (option_copied spare.entry) history
        → AuditsGrantOnlyClean gate.now.mode files (sets_at desk.now (option_copied spare.entry)) history }
    ensures answers_once { AuditAnswersOnce (table_of gate.now) gate.now.volume gate.now.events.items }
{
    let _of_files = gate.volume.last_created();
    audits();
}

/// A work that a desk lent and that `Lent::run`, or any worker of a pool, ran has the verdict of the bytes so far and its own, under
/// the patterns that were published as its version.
pub fn run_works_have_verdicts()
    ensures { RunWorksHaveVerdicts }
{}
