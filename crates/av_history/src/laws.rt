//! What holds of every two audits.
ghost use Rattle.std.specs.Prelude.{List};
ghost use Rattle.av_base.specs.declared.limits.LimitValues.{LimitValues};
ghost use Rattle.av_base.specs.declared.mode.Mode.{Mode};
ghost use Rattle.av_base.specs.declared.port.Port.{Port};
ghost use Rattle.av_filter.specs.Audit.{FilterEntry, IsFilterAudit};
ghost use Rattle.av_filter.specs.Once.{AuditAnswersOnce};
ghost use Rattle.av_filter_table.specs.Table.{mounted};
ghost use Rattle.av_sigset.specs.Publication.{Publication};
ghost use Rattle.av_store.specs.Files.{File};
ghost use Rattle.av_store.specs.Store.{Store};
ghost use Rattle.av_history.specs.Audits.{AreLegal, AuditsGrantOnlyClean, AuditsHoldOneVerdict, AuditsJudgeRightly, SideEntry};
ghost use Rattle.av_history.specs.Scene.{Started};

/// The headline of the audits of a filter and of the service of each port, each legal by itself, put together in any order in
/// which each message that came had been sent by the other side before: from whatever volume and catalogues in which a version
/// names one set, each part of the headline holds, and each job keeps the scan of what it has judged of the content that it was
/// asked about. The third part is the filter's alone; open numbers are counted from the opening volume's last.
pub fn audits()
    ensures one_verdict { (mode : Mode) (limits : LimitValues) (told : Port → Started) (files : List File) (v : Store)
        (sets : Port → List Publication) (es : List SideEntry) → AreLegal mode limits told files v sets es
        → AuditsHoldOneVerdict files (mounted mode limits v.boot) v told sets es }
    ensures judged_bytes { (mode : Mode) (limits : LimitValues) (told : Port → Started) (files : List File) (v : Store)
        (sets : Port → List Publication) (es : List SideEntry) → AreLegal mode limits told files v sets es
        → AuditsJudgeRightly files told sets es }
    ensures only_clean { (mode : Mode) (limits : LimitValues) (told : Port → Started) (files : List File) (v : Store)
        (sets : Port → List Publication) (es : List SideEntry) → AreLegal mode limits told files v sets es
        → AuditsGrantOnlyClean mode files sets es }
    ensures answers_once { (v : Store) (mode : Mode) (limits : LimitValues) (xs : List FilterEntry)
        → IsFilterAudit (mounted mode limits v.boot) v xs → AuditAnswersOnce (mounted mode limits v.boot) v xs }
{}
