ghost use Rattle.std.specs.Prelude.{◌≡◌, List, Some, None, IfErr, IfOk, IfSome, MatchOption, length, slice_get, slice_set, vec_len};
ghost use Rattle.std.specs.Vec.{vec_capacity};
ghost use Rattle.av_match.specs.Scanning.{if_found};
ghost use Rattle.av_service.specs.Call.{Responds};
ghost use Rattle.av_service.specs.Conduct.{Finishes, service_step};
ghost use Rattle.av_world.specs.Serving.{IsSmallResponse};
ghost use Rattle.av_world.specs.Prepared.{IsPrepared, IsPreparedFor};
ghost use Rattle.av_sigset.specs.Catalogue.{set_at};
ghost use Rattle.av_world.specs.Stage.{Takes, at_history};
ghost use Rattle.av_world.specs.Working.{IsOf, Lends};
ghost use Rattle.av_history.specs.World.{at_port, work_at, work_event};
ghost use Rattle.av_history.specs.declared.event.Event.{Event};

use super::serving::record;
use super::stage::Stage;
use av_base::{Port, Version};
use av_history::report::{Line, Report};
use av_match::Automaton;
use av_service::{Done, Service, ServiceOut, Work};
use av_sigset::Catalogue;
use std::alloc::{AllocFailed, Global};
use std::mem;

impl Stage {
    /// Runs the work at a place, counted from 1, and takes it back to the service that lent it, as the event behind any history.
    /// None where that is refused: nothing has changed, and the work is there to be run.
    pub fn run_work(&mut self, alloc: Global, place: u64) -> Option<Report>
        ensures { (h : List Event) (e : Event)
            → Takes self.old self.new h e (work_event (at_history h self.old) e place (work_at self.old.works place)) result }
    {
        let before = self.places();
        let index = place.checked_sub(1)? as usize;
        let (port, version) = about(&self.works, index)?;
        let most = self.service(port).job_count().checked_add(1)?;
        self.up.reserve(most).ok()?;
        self.works.reserve(1).ok()?;
        prepare(alloc, &mut self.automaton, &self.catalogue, version)?;
        let automaton = self.automaton.as_ref()?;
        let (port, work) = take(&mut self.works, index)?;
        match finish(
            &mut self.one,
            &mut self.two,
            alloc,
            port,
            work.run(automaton),
        ) {
            Ok(out) => {
                let note = record(&mut self.up, &mut self.works, port, out);
                Some(Report {
                    line: Line::Silent,
                    before,
                    after: self.places(),
                    note,
                })
            }
            Err(failed) => {
                put_back(&mut self.works, index, port, failed.value.undo());
                None
            }
        }
    }
}

// Takes a work back to the service of a port.
#[tactic(auto, using(crate::proofs::ServingLemmas::small_finish))]
fn finish(
    one: &mut Service,
    two: &mut Service,
    alloc: Global,
    port: Port,
    done: Done,
) -> Result<ServiceOut, AllocFailed<Done>>
    ensures ok { IfOk result (λ out. Responds out (at_port port one.new.desk two.new.desk)
        (service_step (at_port port one.old.desk two.old.desk) (Finishes done.lease done.scan (if_found done.scan)))) }
    ensures few { IfOk result (IsSmallResponse (length (at_port port one.old.desk two.old.desk).jobs)) }
    ensures one { one.new.desk ≡ at_port port one.new.desk one.old.desk }
    ensures two { two.new.desk ≡ at_port port two.old.desk two.new.desk }
    ensures err { IfErr result (λ e. (e.value ≡ done) × (one.new.desk ≡ one.old.desk) × (two.new.desk ≡ two.old.desk)) }
{
    match port {
        Port::One => one.finish(alloc, done),
        Port::Two => two.finish(alloc, done),
    }
}

// Sees that the automaton of the set of a version is kept: it is built where another is, or none.
fn prepare(
    alloc: Global,
    kept: &mut Option<Automaton>,
    catalogue: &Catalogue,
    version: Version,
) -> Option<()>
    requires { IsPrepared catalogue.now.sets kept.old }
    ensures kept { IsPrepared catalogue.now.sets kept.new }
    ensures compiled { IfSome result (λ done. IsPreparedFor (set_at catalogue.now.sets version) kept.new) }
{
    let fits = match kept {
        Some(automaton) => automaton.version() == version,
        None => false,
    };
    if !fits {
        let set = catalogue.at(version)?;
        *kept = Some(Automaton::build(alloc, set).ok()?);
    }
    Some(())
}

// The port that lent the work at a place, and the version under which it was lent.
fn about(works: &Vec<Option<(Port, Work)>>, index: usize) -> Option<(Port, Version)>
    ensures { IfSome result (IsOf (slice_get works.now.items index)) }
{
    let (port, work) = works.get(index)?.as_ref()?;
    Some((*port, work.version()))
}

// Takes the work at a place.
fn take(works: &mut Vec<Option<(Port, Work)>>, index: usize) -> Option<(Port, Work)>
    ensures work { Lends (slice_get works.old.items index) result }
    ensures left { MatchOption result (works.new.items ≡ works.old.items)
        (λ work. works.new.items ≡ slice_set works.old.items index None) }
    ensures len { vec_len works.new ≡ vec_len works.old }
    ensures capacity { vec_capacity works.new ≡ vec_capacity works.old }
{
    let place = works.get_mut(index)?;
    mem::replace(place, None)
}

// Puts a work back where none is.
fn put_back(works: &mut Vec<Option<(Port, Work)>>, index: usize, port: Port, work: Work)
    requires { slice_get works.old.items index ≡ Some None }
    ensures { works.new.items ≡ slice_set works.old.items index (Some (port, work)) }
{
    let Some(place) = works.get_mut(index) else {
        unreachable!()
    };
    match mem::replace(place, Some((port, work))) {
        None => {}
        Some(_) => unreachable!(),
    }
}
