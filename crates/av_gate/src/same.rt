ghost use Rattle.std.specs.Prelude.{◌≡◌, IsTrue};
ghost use Rattle.av_gate.specs.Calls.{event_called, event_of};

use crate::call::{Call, Event, NamedCall};
use crate::naming::stream_of;
use av_frame::Message;
use av_store::Volume;

/// Whether an event is what was called, its name read in this volume.
pub(crate) fn is_called(event: &Event, call: &NamedCall, volume: &Volume) -> bool
    ensures { IsTrue result → event_of event.now ≡ event_called volume.now call.now }
{
    match (call, event) {
        (
            Call::Open {
                stream: name,
                least: called,
            },
            Call::Open { stream, least },
        ) => *stream == stream_of(volume, name.as_slice()) && least == called,
        (
            Call::Write {
                stream: name,
                offset: at,
                bytes: called,
            },
            Call::Write {
                stream,
                offset,
                bytes,
            },
        ) => *stream == stream_of(volume, name.as_slice()) && offset == at && bytes == called,
        (Call::Cleanup { stream: name }, Call::Cleanup { stream }) => {
            *stream == stream_of(volume, name.as_slice())
        }
        (Call::Receive { message: called }, Call::Receive { message }) => same_message(
            message, called,
        ),
        (Call::Timeout { seq: called }, Call::Timeout { seq }) => seq == called,
        (Call::Disconnect { port: called }, Call::Disconnect { port }) => port == called,
        _ => false,
    }
}

fn same_message(one: &Message, other: &Message) -> bool
    ensures { IsTrue result → one.now ≡ other.now }
{
    one.port() == other.port() && one.body() == other.body()
}
