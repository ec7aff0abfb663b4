ghost use Rattle.std.specs.Prelude.{◌≡◌, List, IsNone, IsSome, IsTrue, take};
ghost use Rattle.std.specs.List.{flat_map};
ghost use Rattle.av_base.specs.Among.{Among};
ghost use Rattle.av_frame.specs.Message.{Letter};

use av_desk::DeskEntry;
use av_frame::Message;
use av_gate::GateEntry;

/// An event that sends messages.
pub(crate) trait Sends {
    // Its messages. Code over any `Sends` learns this from `sent` alone.
    ghost messages: { Self → List Letter };

    /// Its messages, in their order.
    fn sent(&self) -> &[Message]
        ensures { result.now ≡ messages self.now };
}

impl Sends for GateEntry {
    ghost messages = { λ x. x.messages };

    fn sent(&self) -> &[Message] {
        self.messages()
    }
}

impl Sends for DeskEntry {
    ghost messages = { λ x. x.messages };

    fn sent(&self) -> &[Message] {
        self.messages()
    }
}

/// A message among those that a side sent: the number of its event, and its own within that.
#[derive(Clone, Copy)]
pub(crate) struct Place {
    pub entry: usize,
    pub message: usize,
}

/// Before the first message.
pub(crate) const START: Place = Place {
    entry: 0,
    message: 0,
};

/// Where a message is looked for: after the last one that came there, or anywhere, in case it comes late or again.
#[derive(Clone, Copy, PartialEq, Eq)]
pub(crate) enum Look {
    Ahead,
    Anywhere,
}

/// Whether one of the first `count` events sent this message. A look ahead begins at `place`, and moves it past what was looked at.
pub(crate) fn was_sent<E: Sends>(
    events: &[E],
    count: usize,
    place: &mut Place,
    look: Look,
    message: &Message,
) -> bool
    ensures sound { IsTrue result → Among message.now (flat_map E.messages (take count events.now)) }
    ensures complete { look ≡ Look.Anywhere → Among message.now (flat_map E.messages (take count events.now))
        → IsTrue result }
{
    match look {
        Look::Anywhere => find(events, count, START, message).is_some(),
        Look::Ahead => match find(events, count, *place, message) {
            Some(next) => {
                *place = next;
                true
            }
            None => {
                *place = Place {
                    entry: count,
                    message: 0,
                };
                false
            }
        },
    }
}

// The place after this message, if it is found from a place on.
fn find<E: Sends>(events: &[E], count: usize, from: Place, message: &Message) -> Option<Place>
    ensures found { IsSome result → Among message.now (flat_map E.messages (take count events.now)) }
    ensures nowhere { from ≡ START → IsNone result
        → ¬ Among message.now (flat_map E.messages (take count events.now)) }
{
    'events: for at in from.entry..count {
        let Some(entry) = events.get(at) else {
            return None;
        };
        if let Some(next) = found(entry.sent(), first(from, at), message) {
            return Some(Place {
                entry: at,
                message: next,
            });
        }
    }
    None
}

// The first message of an event to look at.
fn first(from: Place, at: usize) -> usize
    ensures { from ≡ START → result ≡ 0 }
{
    if at == from.entry { from.message } else { 0 }
}

// The same among the messages of one event.
fn found(messages: &[Message], from: usize, message: &Message) -> Option<usize>
    ensures found { IsSome result → Among message.now messages.now }
    ensures nowhere { from ≡ 0 → IsNone result → ¬ Among message.now messages.now }
{
    'messages: for at in from..messages.len() {
        if same_message(&messages[at], message) {
            return Some(at + 1);
        }
    }
    None
}

fn same_message(one: &Message, other: &Message) -> bool
    ensures sound { IsTrue result → one.now ≡ other.now }
    ensures complete { one.now ≡ other.now → IsTrue result }
{
    one.port() == other.port() && one.body() == other.body()
}
