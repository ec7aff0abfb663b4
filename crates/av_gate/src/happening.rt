ghost use Rattle.std.specs.Prelude.{◌≡◌};
ghost use Rattle.av_filter.specs.Asking.{Calls, event_called};
ghost use Rattle.av_gate.specs.Calls.{event_of};

use crate::call::Event;
use av_filter::{FilterCall, Mounted, Out};
use std::alloc::Global;

/// Lets an event happen to a mounted filter. None where that is refused: nothing has changed.
pub(crate) fn happen(mounted: &mut Mounted, alloc: Global, event: &Event) -> Option<Out>
    ensures { Calls mounted.old.table mounted.old.volume mounted.new.table mounted.new.volume (event_of event.now) result }
{
    mounted.ask(alloc, &call_of(event))
}

// What the filter is asked by an event.
fn call_of(event: &Event) -> FilterCall<'_>
    ensures { event_called result ≡ event_of event.now }
{
    match event {
        Event::Open { stream, least } => FilterCall::Open {
            stream: *stream,
            least: *least,
        },
        Event::Write {
            stream,
            offset,
            bytes,
        } => FilterCall::Write {
            stream: *stream,
            offset: *offset,
            bytes: bytes.as_slice(),
        },
        Event::Cleanup { stream } => FilterCall::Cleanup { stream: *stream },
        Event::Receive { message } => FilterCall::Receive { message },
        Event::Timeout { seq } => FilterCall::Timeout { seq: *seq },
        Event::Disconnect { port } => FilterCall::Disconnect { port: *port },
    }
}
