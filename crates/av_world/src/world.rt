ghost use Rattle.std.specs.Prelude.{◌≡◌, ◌∷◌, length, reverse, IfOk, OnOk};
ghost use Rattle.std.specs.Option.{option_copied};
ghost use Rattle.av_base.specs.Device.{Writes};
ghost use Rattle.av_json.specs.Member.{Puts};
ghost use Rattle.av_sigset.specs.Catalogue.{newest};
ghost use Rattle.av_store.specs.Rows.{number_named};
ghost use Rattle.av_history.specs.Headline.{AnswersOnce, GrantsOnlyClean, HoldsOneVerdict, NeverDiffers};
ghost use Rattle.av_world.specs.Judge.{judged_of, latest_set};
ghost use Rattle.av_output.specs.Objects.{report_tokens};
ghost use Rattle.av_history.specs.Past.{IsRight, IsTold, past};
ghost use Rattle.av_world.specs.Reached.{KeepsPromise};
ghost use Rattle.av_output.specs.Text.{report_text};
ghost use Rattle.av_history.specs.World.{Gives, Passes, Steps, desk_of, start, world_of};

mod delivery;
mod filtering;
mod happening;
mod holding;
mod publishing;
mod refusing;
mod request;
mod serving;
mod stage;
mod working;

use av_base::{Limits, Mode, Port, Refused, StreamId, Version, WriteFault};
use av_frame::Message;
use av_history::event::Event;
use av_history::fault::{JudgeFault, StepFault};
use av_history::given::Given;
use av_history::report::{Judged, Report};
use av_match::plain::plain_verdict;
use av_output::Lists;
use av_output::objects::put_report;
use av_output::report::print_report;
use av_sigset::{Catalogue, SignatureSet};
use json::Writer;
use stage::Stage;
use std::alloc::{AllocError, Global};
use std::io::Write;
use std::marker::Model;

/// One volume, the signature sets that were published, a filter, and a scanning service on each of its ports, with the history of
/// all that happened to them, each message that they ever sent, each piece of work, and each answer. A world holds opens that are
/// owed an answer, so it can't be let go: `close` ends it.
pub struct World {
    history: Vec<Event>,
    stage: Stage,
}

impl Model for World {
    ghost use Rattle.std.specs.Prelude.{reverse};
    ghost use Rattle.av_world.specs.Stage.{at_history};
    ghost use Rattle.av_world.specs.Reached.{IsKept};
    ghost use Rattle.av_history.specs.World.{WorldState};

    ghost Value = { WorldState };

    ghost view = { λ w. at_history (reverse w.history.items) w.stage };

    ghost invariant = { λ w. IsKept (at_history (reverse w.history.items) w.stage) };
}

impl World {
    /// A world with an empty volume of this number, a filter mounted on it once, and two services that are not connected.
    pub fn new(alloc: Global, number: u64, mode: Mode, limits: Limits) -> Result<World, AllocError>
        ensures { IfOk result (λ w. w ≡ start number mode limits) }
    {
        let _ = limits.values();
        let stage = Stage::new(alloc, number, mode, limits)?;
        Ok(World {
            history: Vec::new(alloc),
            stage,
        })
    }

    /// Lets an event happen, and tells what it did. An event that is refused by its fault, or for memory where it has no
    /// fault, changes nothing and is handed back. After it, as before, the promise holds: what `run` says of the world that it
    /// gives.
    pub fn step(&mut self, alloc: Global, event: Event) -> Result<Report, Refused<Event, StepFault>>
        ensures steps { Steps self.old self.new event result }
        ensures joins { OnOk result (self.new.history ≡ event ∷ self.old.history) }
        ensures promise { KeepsPromise self.new }
    {
        if self.history.reserve(1).is_err() {
            let why = self.stage.why(&event);
            return Err(Refused { value: event, why });
        }
        let happened = self.stage.happen(alloc, self.history.as_slice(), &event);
        let Some(report) = happened else {
            let why = self.stage.why(&event);
            return Err(Refused { value: event, why });
        };
        self.history.push_reserved(event);
        Ok(report)
    }

    /// The verdict of a stream's present content under the latest set: NoSuchName, NoSignatures. It takes no memory and
    /// copies nothing; it costs the content times the set.
    pub fn judge(&self, name: &[u8]) -> Result<Judged, JudgeFault>
        ensures exact { result ≡ judged_of self.now name.now }
        ensures right { IfOk result (IsRight (past self.now.history)) }
    {
        let volume = self.stage.volume();
        let Some(stream) = volume.find(name) else {
            return Err(JudgeFault::NoSuchName);
        };
        let Some(generation) = volume.generation(stream) else {
            return Err(JudgeFault::NoSuchName);
        };
        let Some(content) = volume.content(stream) else {
            return Err(JudgeFault::NoSuchName);
        };
        let Some(set) = latest_set(&self.stage.catalogue) else {
            return Err(JudgeFault::NoSignatures);
        };
        Ok(Judged {
            stream,
            generation,
            version: set.version(),
            verdict: plain_verdict(set, content),
        })
    }

    /// Writes what a report of this world tells, as its lines in a script's output. Where that fails a front of the lines was
    /// written. It takes no memory.
    pub fn print<W: Write>(&self, report: &Report, writer: &mut W) -> Result<(), WriteFault>
        ensures { Writes result (W.contents writer.old) (W.contents writer.new) (report_text self.now report.now) }
    {
        print_report(report, self.lists(), writer)
    }

    /// Puts an object for each line of a step, by the report that it gave.
    pub fn put(&self, alloc: Global, report: &Report, line: &mut Writer) -> Result<(), AllocError>
        ensures { Puts result line.old line.new (report_tokens self.now report.now) }
    {
        put_report(alloc, report, self.lists(), line)
    }

    fn lists(&self) -> Lists<'_>
        ensures answers { result.answers.now ≡ self.now.answers }
        ensures down { result.down.now ≡ self.now.down }
        ensures up { result.up.now ≡ self.now.up }
        ensures works { result.works.now ≡ self.now.works }
    {
        Lists {
            answers: self.answers(),
            down: self.down(),
            up: self.up(),
            works: self.stage.works.as_slice(),
        }
    }

    /// Lets events happen in turn to a new world and passes over those that are refused, also those that memory refuses.
    /// Wherever they lead, no two verdicts stand for one stream, generation and version; an open is granted only where the
    /// stream's whole present content is clean under the version that the grant names; and each open that was submitted
    /// waits or was answered, once.
    pub fn run(
        alloc: Global,
        number: u64,
        mode: Mode,
        limits: Limits,
        events: &[Event],
    ) -> Result<World, AllocError>
        ensures history { IfOk result (λ w. Gives (start number mode limits) (reverse events.now) w.history) }
        ensures world { IfOk result (λ w. w ≡ world_of (start number mode limits) w.history) }
        ensures one_verdict { IfOk result HoldsOneVerdict }
        ensures never_differs { IfOk result NeverDiffers }
        ensures only_clean { IfOk result (GrantsOnlyClean mode) }
        ensures answers_once { IfOk result AnswersOnce }
    {
        let mut world = World::new(alloc, number, mode, limits)?;
        for event in events {
            world.pass(alloc, event);
        }
        Ok(world)
    }

    // Lets an event happen, where it is not refused.
    fn pass(&mut self, alloc: Global, event: &Event)
        ensures { Passes self.old self.new event.now }
    {
        if let Ok(event) = event.clone() {
            let _ = self.step(alloc, event);
        }
    }

    /// The accepted events, the oldest first.
    pub fn history(&self) -> &[Event]
        ensures history { reverse result.now ≡ self.now.history }
        ensures told { IsTold self.now }
    {
        self.history.as_slice()
    }

    /// Each answer to an open, the oldest first.
    pub fn answers(&self) -> &[Given]
        ensures { result.now ≡ self.now.answers }
    {
        self.stage.answers.as_slice()
    }

    /// Each message that was ever sent to a service, the oldest first.
    pub fn down(&self) -> &[Message]
        ensures { result.now ≡ self.now.down }
    {
        self.stage.down.as_slice()
    }

    /// Each message that was ever sent to the filter, the oldest first.
    pub fn up(&self) -> &[Message]
        ensures { result.now ≡ self.now.up }
    {
        self.stage.up.as_slice()
    }

    /// How many pieces of work were ever lent, those that came back among them. At once.
    pub fn work_count(&self) -> usize
        ensures { result ≡ length self.now.works }
    {
        self.stage.works.len()
    }

    /// How many questions of the filter are open. At once.
    pub fn question_count(&self) -> usize
        ensures { result ≡ length self.now.table.questions }
    {
        self.stage.filter().question_count()
    }

    /// Whether the service of a port is connected.
    pub fn connected(&self, port: Port) -> bool
        ensures { result ≡ (desk_of self.now port).connected }
    {
        self.stage.service(port).connected()
    }

    /// The version of the set that was published last, if one was.
    pub fn latest(&self) -> Option<Version>
        ensures { result ≡ newest self.now.sets }
    {
        self.stage.catalogue.latest()
    }

    /// The stream that has a name, if one is there.
    pub fn find(&self, name: &[u8]) -> Option<StreamId>
        ensures { result ≡ number_named name.now self.now.volume.streams }
    {
        self.stage.volume().find(name)
    }

    /// Whether what can't be judged is denied or let through.
    pub fn mode(&self) -> Mode
        ensures { result ≡ self.now.table.mode }
    {
        self.stage.filter().mode()
    }

    /// The limits that the filter keeps to.
    pub fn limits(&self) -> Limits
        ensures { result ≡ self.now.table.limits }
    {
        self.stage.filter().limits()
    }

    /// Ends the world. Opens that wait are let go, and nobody hears of it.
    pub fn close(self) {
        let World { history: _, stage } = self;
        stage.close();
    }
}

// The set of the newest version.
fn latest_set(catalogue: &Catalogue) -> Option<&SignatureSet>
    ensures { option_copied result ≡ latest_set catalogue.now.sets }
{
    let version = catalogue.latest()?;
    catalogue.at(version)
}
