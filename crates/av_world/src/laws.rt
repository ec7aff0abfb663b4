//! What holds of every world, wherever its history leads.
ghost use Rattle.std.specs.Prelude.{◌≡◌, ◌<◌, ◌≤◌, ◌^◌, ◌++◌, ℕ, List, length, reverse};
ghost use Rattle.std.specs.List.{AllByRecursion};
ghost use Rattle.av_base.specs.Limits.{AreInRange};
ghost use Rattle.av_base.specs.declared.limits.LimitValues.{LimitValues};
ghost use Rattle.av_base.specs.declared.mode.Mode.{Mode};
ghost use Rattle.av_filter_table.specs.declared.question.Question.{Question};
ghost use Rattle.av_sigset.specs.Catalogue.{latest};
ghost use Rattle.av_world.specs.Examples.{ComeTrue};
ghost use Rattle.av_history.specs.Headline.{AnswersOnce, GrantsOnlyClean, HoldsOneVerdict, NeverDiffers};
ghost use Rattle.av_world.specs.Path.{EndsWithVerdict, IsReady};
ghost use Rattle.av_world.specs.Progress.{CanFinish, Finishes, GaveNoVerdict, IsCarrying, IsWaiting, onward};
ghost use Rattle.av_world.specs.ProgressExamples.{AreWorked};
ghost use Rattle.av_history.specs.Safety.{AnswersExplained, JobsJudgeRightly};
ghost use Rattle.av_history.specs.Whole.{IsAskedThere, ScanOnce, StaysWhole};
ghost use Rattle.av_history.specs.World.{WorldState, after, start, world_of};
ghost use Rattle.av_history.specs.declared.event.Event.{Event};

/// Over every list of opens, writes, deliveries, losses, repeats, delays, timeouts, publications, disconnections and
/// restarts: no two verdicts stand for one stream, generation and version; an open is granted only where the stream's
/// whole present content is clean under the version that the grant names; and each open is pended or answered, once.
pub fn headline()
    ensures one_verdict { (number : ℕ) (mode : Mode) (limits : LimitValues) (history : List Event)
        → HoldsOneVerdict (world_of (start number mode limits) history) }
    ensures never_differs { (number : ℕ) (mode : Mode) (limits : LimitValues) (history : List Event)
        → NeverDiffers (world_of (start number mode limits) history) }
    ensures only_clean { (number : ℕ) (mode : Mode) (limits : LimitValues) (history : List Event)
        → GrantsOnlyClean mode (world_of (start number mode limits) history) }
    ensures answers_once { (number : ℕ) (mode : Mode) (limits : LimitValues) (history : List Event)
        → AnswersOnce (world_of (start number mode limits) history) }
{}

/// Over every list of events: no id is asked twice, and where a verdict comes up at a port its scan was asked there.
pub fn asked_at_one_port()
    ensures once { (number : ℕ) (mode : Mode) (limits : LimitValues) (history : List Event)
        → ScanOnce (world_of (start number mode limits) history).down }
    ensures there { (number : ℕ) (mode : Mode) (limits : LimitValues) (history : List Event)
        → AllByRecursion (IsAskedThere (world_of (start number mode limits) history).down)
        (world_of (start number mode limits) history).up }
{}

/// Over every list of events: a running job has judged the beginning of the content that it was asked about on its own port, and
/// keeps the scan of that under the present version, from which its work goes on; each grant is at the floor, of the stream that
/// its open asked for and not below the least version that it asked for; and every other answer is explained by the event that
/// gives it, of the open that it submits or of one that waits.
pub fn protocol_safety()
    ensures judged_bytes { (number : ℕ) (mode : Mode) (limits : LimitValues) (history : List Event)
        → JobsJudgeRightly (world_of (start number mode limits) history) }
    ensures explained { (number : ℕ) (mode : Mode) (limits : LimitValues) (history : List Event) (event : Event)
        → AnswersExplained (world_of (start number mode limits) history) event
        (after (world_of (start number mode limits) history) event) }
{}

/// Where a question runs, the service of its port is connected and has room, its scan and then each read, chunk and work
/// in turn end, after at most as many rounds as the content has chunks, with the reply of its verdict.
pub fn whole_path()
    ensures { (number : ℕ) (mode : Mode) (limits : LimitValues) (history : List Event) (q : Question) (n : ℕ)
        → IsReady (world_of (start number mode limits) history) q n
        → EndsWithVerdict (world_of (start number mode limits) history) q n }
{}

/// What worked scripts say, command by command; and that the premises of `whole_path` and `audits` can be met.
pub fn worked_scripts()
    ensures { ComeTrue }
{}

/// At the start and after each step a world's volume and sets are those that its history tells, its filter fits the volume, its
/// questions run on connected ports, each service is on its own port, and the volume's streams are in their ranges.
pub fn worlds_stay_whole()
    ensures { StaysWhole }
{}

/// The protocol can always finish. Nobody promises that messages come; but from every world in which a version is published that
/// the filter may grant under, and each service has a lease left for each chunk of its questions, a stated list of events leads to
/// a world in which no open waits and each that waited was answered by the verdict of its stream's content. All of them happen:
/// messages that were sent come, works that were lent are run, and both services connect anew; no timeout, no disconnection of the
/// filter, no restart and no change of a file. Leases are left where the history isn't too long; and without such a version
/// no such event brings a verdict. The worked examples say what stands in the way without each premise.
pub fn progress()
    ensures finishes { (number : ℕ) (mode : Mode) (limits : LimitValues) (history : List Event)
        → 1 ≤ limits.chunk → 1 ≤ limits.jobs
        → (IsWaiting (world_of (start number mode limits) history) → CanFinish (world_of (start number mode limits) history))
        → Finishes (world_of (start number mode limits) history) }
    ensures soon { (number : ℕ) (mode : Mode) (limits : LimitValues) (history : List Event)
        → AreInRange limits → length history ≤ 2 ^ 43
        → (IsWaiting (world_of (start number mode limits) history)
        → (world_of (start number mode limits) history).table.floor ≤ latest (world_of (start number mode limits) history).sets)
        → Finishes (world_of (start number mode limits) history) }
    ensures needs { (number : ℕ) (mode : Mode) (limits : LimitValues) (history events : List Event)
        → latest (world_of (start number mode limits) history).sets < (world_of (start number mode limits) history).table.floor
        → AllByRecursion IsCarrying events
        → GaveNoVerdict (world_of (start number mode limits) history)
        (onward events (world_of (start number mode limits) history)) }
    ensures leads { (w : WorldState) (events history : List Event)
        → onward events (world_of w history) ≡ world_of w (reverse events ++ history) }
    ensures worked { AreWorked }
{}
