ghost use Rattle.std.specs.Prelude.{◌≡◌, ◌≤◌, ◌+◌, ◌++◌, List, length, map, IfSome, vec_len};
ghost use Rattle.std.specs.Option.{option_to_list};
ghost use Rattle.std.specs.Vec.{vec_capacity};
ghost use Rattle.av_world.specs.Serving.{IsSmallResponse, Served, Serves, TakesServed, event_called};
ghost use Rattle.av_history.specs.World.{lent_at};
ghost use Rattle.av_history.specs.declared.event.Event.{Event};
ghost use Rattle.av_history.specs.declared.report.EventNote.TheVariants as note;

use super::stage::Stage;
use av_base::Port;
use av_frame::Message;
use av_history::report::{EventNote, Line, Report};
use av_service::{Service, ServiceOut, Work};
use av_sigset::Catalogue;
use std::alloc::Global;

/// What is asked of a service.
#[derive(Clone, Copy)]
pub enum ServiceCall<'a> {
    Connect,
    Receive { message: &'a Message },
    Disconnect,
    Restart,
}

// What is asked of the service of a port.
#[derive(Clone, Copy)]
struct PortCall<'a> {
    port: Port,
    call: &'a ServiceCall<'a>,
}

// Asks it; none where it is refused.
#[tactic(auto, using(crate::proofs::ServingLemmas::small_if))]
fn ask(
    service: &mut Service,
    catalogue: &Catalogue,
    alloc: Global,
    call: &ServiceCall<'_>,
) -> Option<ServiceOut>
    ensures responds { Serves service.old.desk service.new.desk (event_called catalogue.now.sets call.now) result }
    ensures few { IfSome result (IsSmallResponse (length service.old.desk.jobs)) }
{
    answer(service, catalogue, alloc, call)
}

// What it answers.
#[tactic(auto, using(crate::proofs::ServingLemmas::connected, crate::proofs::ServingLemmas::meets))]
fn answer(
    service: &mut Service,
    catalogue: &Catalogue,
    alloc: Global,
    call: &ServiceCall<'_>,
) -> Option<ServiceOut>
    ensures { Serves service.old.desk service.new.desk (event_called catalogue.now.sets call.now) result }
{
    match *call {
        ServiceCall::Connect => service.connect(alloc).ok(),
        ServiceCall::Receive { message } => service.message(alloc, message).ok(),
        ServiceCall::Disconnect => Some(service.disconnect(alloc)),
        ServiceCall::Restart => Some(service.restart(alloc, catalogue)),
    }
}

/// Puts what the service of a port gave out behind what was given before.
pub(super) fn record(
    up: &mut Vec<Message>,
    works: &mut Vec<Option<(Port, Work)>>,
    port: Port,
    out: ServiceOut,
) -> EventNote
    requires up { vec_len up.old + length out.messages.items ≤ vec_capacity up.old }
    requires works { vec_len works.old + 1 ≤ vec_capacity works.old }
    ensures up { up.new.items ≡ up.old.items ++ out.messages.items }
    ensures works { works.new.items ≡ works.old.items ++ map (lent_at port) (option_to_list out.work) }
    ensures note { result ≡ note.Service out.note }
{
    let ServiceOut {
        mut messages,
        work,
        note,
    } = out;
    up.append(&mut messages).unwrap();
    match work {
        Some(work) => works.push_reserved(Some((port, work))),
        None => {}
    }
    EventNote::Service(note)
}

// Lets the service of a port do what it is asked, and puts what it gives out behind what was given before. None where that
// is refused: nothing has changed.
fn serve(
    service: &mut Service,
    catalogue: &Catalogue,
    up: &mut Vec<Message>,
    works: &mut Vec<Option<(Port, Work)>>,
    alloc: Global,
    asked: PortCall<'_>,
) -> Option<EventNote>
    ensures { Served asked.entry.port service.old.desk up.old.items works.old.items service.new.desk up.new.items works.new.items
        (event_called catalogue.now.sets asked.entry.call.now) result }
{
    let PortCall { port, call } = asked;
    let most = service.job_count().checked_add(1)?;
    up.reserve(most).ok()?;
    works.reserve(1).ok()?;
    let out = ask(service, catalogue, alloc, call)?;
    Some(record(up, works, port, out))
}

impl Stage {
    /// Lets the service of a port do what it is asked, as the event behind any history. None where that is refused: nothing
    /// has changed.
    pub fn service_event(
        &mut self,
        alloc: Global,
        port: Port,
        call: &ServiceCall<'_>,
    ) -> Option<Report>
        ensures { (h : List Event) (e : Event) → TakesServed self.old self.new h e port (event_called self.old.sets call.now) result }
    {
        let before = self.places();
        let asked = PortCall { port, call };
        let Stage {
            one,
            two,
            catalogue,
            up,
            works,
            ..
        } = self;
        let note = match port {
            Port::One => serve(one, catalogue, up, works, alloc, asked),
            Port::Two => serve(two, catalogue, up, works, alloc, asked),
        }?;
        Some(Report {
            line: Line::Silent,
            before,
            after: self.places(),
            note,
        })
    }
}
