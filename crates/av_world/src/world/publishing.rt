ghost use Rattle.std.specs.Prelude.{◌≡◌, ◌≤◌, ◌<◌, ◌+◌, ◌++◌, List, length, vec_len};
ghost use Rattle.std.specs.Vec.{vec_capacity};
ghost use Rattle.av_base.specs.declared.port.Port.{Port};
ghost use Rattle.av_service.specs.Conduct.{Publishes, service_step};
ghost use Rattle.av_service.specs.Room.{publishing};
ghost use Rattle.av_sigset.specs.Catalogue.{latest};
ghost use Rattle.av_sigset.specs.Made.{set_made};
ghost use Rattle.av_world.specs.Stage.{Takes, at_history};
ghost use Rattle.av_history.specs.World.{desk_of, published};
ghost use Rattle.av_history.specs.declared.event.Event.{Event};

use super::stage::Stage;
use av_base::Version;
use av_frame::Message;
use av_history::pattern::Patterns;
use av_history::report::{EventNote, Line, Report};
use av_service::note::ServiceNote;
use av_service::{Service, ServiceOut};
use av_sigset::SignatureSet;
use std::alloc::Global;

// Tells a service of a version, for which it has made room, and puts what it sends behind what was sent before.
#[tactic(auto, using(crate::proofs::ServingLemmas::few_told, crate::proofs::ServingLemmas::none_lent))]
fn tell(service: &mut Service, up: &mut Vec<Message>, alloc: Global, version: Version)
    requires newer { service.old.desk.version < version }
    requires room { publishing service.old.desk ≤ service.old.room }
    requires up { vec_len up.old + length service.old.desk.jobs + 1 ≤ vec_capacity up.old }
    ensures desk { service.new.desk ≡ (service_step service.old.desk (Publishes version)).desk }
    ensures up { up.new.items ≡ up.old.items ++ (service_step service.old.desk (Publishes version)).messages }
    ensures capacity { vec_capacity up.old ≤ vec_capacity up.new }
    ensures few { vec_len up.new ≤ vec_len up.old + length service.old.desk.jobs + 1 }
{
    let Ok(out) = service.publish(alloc, version) else {
        unreachable!()
    };
    let ServiceOut {
        mut messages,
        work,
        note: _,
    } = out;
    up.append(&mut messages).unwrap();
    match work {
        None => {}
        Some(_) => unreachable!(),
    }
}

impl Stage {
    /// Publishes a set, to both services and then to the catalogue, as the event behind any history. All have made room before
    /// any learns of it. None where that is refused: nothing has changed.
    pub fn publish(
        &mut self,
        alloc: Global,
        version: Version,
        patterns: &Patterns,
    ) -> Option<Report>
        requires { (port : Port) → (desk_of self.old port).version ≤ latest self.old.sets }
        ensures { (h : List Event) (e : Event)
            → Takes self.old self.new h e
            (published (at_history h self.old) e (set_made version patterns.now)) result }
    {
        let before = self.places();
        let set = SignatureSet::from_patterns(alloc, version, patterns.as_slice()).ok()?;
        self.catalogue.room(version).ok()?;
        self.one.room(version).ok()?;
        self.two.room(version).ok()?;
        let told = self.one.job_count().checked_add(1)?;
        let told_too = self.two.job_count().checked_add(1)?;
        self.up.reserve(told.checked_add(told_too)?).ok()?;
        let line = Line::Published {
            version: set.version(),
            signatures: set.len() as u64,
        };
        tell(&mut self.one, &mut self.up, alloc, version);
        tell(&mut self.two, &mut self.up, alloc, version);
        match self.catalogue.publish(set) {
            Ok(()) => {}
            Err(_) => unreachable!(),
        }
        self.automaton = None;
        Some(Report {
            line,
            before,
            after: self.places(),
            note: EventNote::Service(ServiceNote::Quiet),
        })
    }
}
