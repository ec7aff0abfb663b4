ghost use Rattle.std.specs.Prelude.{◌≤◌, List, reverse};
ghost use Rattle.av_base.specs.declared.port.Port.{Port};
ghost use Rattle.av_sigset.specs.Catalogue.{latest};
ghost use Rattle.av_world.specs.Request.{outcome_of, served};
ghost use Rattle.av_world.specs.Serving.{event_called};
ghost use Rattle.av_world.specs.Stage.{Happens, Takes, at_history};
ghost use Rattle.av_history.specs.Whole.{IsWhole};
ghost use Rattle.av_history.specs.World.{desk_of, down_frame, member, up_frame};
ghost use Rattle.av_history.specs.declared.event.Event.{Event};

use super::delivery::delivered;
use super::request::Request;
use super::serving::ServiceCall;
use super::stage::Stage;
use av_base::Port;
use av_filter::FilterCall;
use av_history::event::Event;
use av_history::report::Report;
use std::alloc::Global;

impl Stage {
    /// Lets an event happen behind a history. None where it is refused, by its fault or for want of memory: nothing has
    /// changed.
    pub fn happen(&mut self, alloc: Global, history: &[Event], event: &Event) -> Option<Report>
        requires { IsWhole (at_history (reverse history.now) self.old) }
        ensures { Happens self.old self.new (reverse history.now) event.now result }
    {
        let request = match self.request(event) {
            Ok(request) => request,
            Err(_) => return None,
        };
        let _ = self.catalogue.latest();
        self.answer(alloc, history, &request)
    }

    // Does what an event asks for.
    fn answer(&mut self, alloc: Global, history: &[Event], request: &Request<'_>) -> Option<Report>
        requires { (port : Port) → (desk_of self.old port).version ≤ latest self.old.sets }
        ensures { (e : Event)
            → Takes self.old self.new (reverse history.now) e
            (outcome_of (at_history (reverse history.now) self.old) e request.now) result }
    {
        match *request {
            Request::Publish { version, patterns } => self.publish(alloc, version, patterns),
            Request::Filter { ref call } => self.filter_event(alloc, history, call),
            Request::Service { port, ref call } => self.serve_event(alloc, port, call),
            Request::Down { place } => self.deliver_down(alloc, place),
            Request::Up { place } => self.deliver_up(alloc, history, place),
            Request::Run { place } => self.run_work(alloc, place),
        }
    }

    // Lets the service of a port do what it is asked.
    fn serve_event(&mut self, alloc: Global, port: Port, call: &ServiceCall<'_>) -> Option<Report>
        ensures { (h : List Event) (e : Event)
            → Takes self.old self.new h e (served (at_history h self.old) e port (event_called self.old.sets call.now)) result }
    {
        self.service_event(alloc, port, call)
    }

    // Delivers a message to the service of its port.
    fn deliver_down(&mut self, alloc: Global, place: u64) -> Option<Report>
        ensures { (h : List Event) (e : Event)
            → Takes self.old self.new h e (down_frame (at_history h self.old) e (member self.old.down place)) result }
    {
        let message = delivered(alloc, &self.down, place)?;
        let port = message.port();
        self.service_event(alloc, port, &ServiceCall::Receive { message: &message })
    }

    // Delivers a message to the filter.
    fn deliver_up(&mut self, alloc: Global, history: &[Event], place: u64) -> Option<Report>
        ensures { (e : Event)
            → Takes self.old self.new (reverse history.now) e
            (up_frame (at_history (reverse history.now) self.old) e (member self.old.up place)) result }
    {
        let message = delivered(alloc, &self.up, place)?;
        self.filter_event(alloc, history, &FilterCall::Receive { message: &message })
    }
}
