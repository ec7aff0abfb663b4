ghost use Rattle.std.specs.Prelude.{◌≡◌, ◌↔◌, ◌<◌, IsFalse, IsTrue, drop, length};
ghost use Rattle.av_desk.specs.Entry.{call_of};
ghost use Rattle.av_gate.specs.Calls.{event_of};
ghost use Rattle.av_shared.specs.Merged.{AreAllTaken, AreMerged, AreStuck, AreTaken, Brings, FilterGoesOn, ServiceGoesOn, Takes, WasSentAt, WasSentDown, WasSentUp, events_left};

use crate::sent::{Look, Place, START, was_sent};
use av_base::Port;
use av_desk::{DeskEntry, Event as DeskEvent};
use av_frame::Message;
use av_gate::{Event as GateEvent, GateEntry};

/// The events of a gate, and of the desk at each of its ports.
#[derive(Clone, Copy)]
pub struct Sides<'a> {
    pub gate: &'a [GateEntry],
    pub one: &'a [DeskEntry],
    pub two: &'a [DeskEntry],
}

/// Of how many events of each side it is known how they are put together.
#[derive(Clone, Copy)]
pub struct Taken {
    pub gate: usize,
    pub one: usize,
    pub two: usize,
}

// Where to look next for what comes up from each desk, and for what comes down to it: what was sent before came already, or was
// lost.
#[derive(Clone, Copy)]
struct Places {
    up_one: Place,
    up_two: Place,
    down_one: Place,
    down_two: Place,
}

/// Whether there is one history of all these events, in which each message that came had been sent by the other side before.
///
/// It takes the next event of any side that can come, until none is left. Nothing is lost by taking one early: if there is a history, the
/// first of its events that is not taken yet can come.
pub fn are_merged(sides: Sides<'_>) -> bool
    ensures sound { let s = sides.entry in IsTrue result → AreMerged s.gate.now s.one.now s.two.now }
    ensures complete { let s = sides.entry in AreMerged s.gate.now s.one.now s.two.now → IsTrue result }
{
    let mut taken = Taken {
        gate: 0,
        one: 0,
        two: 0,
    };
    let mut places = Places {
        up_one: START,
        up_two: START,
        down_one: START,
        down_two: START,
    };
    'events: while !are_all_taken(sides, taken) {
        if !take_any(sides, &mut taken, &mut places) {
            return false;
        }
    }
    true
}

// Whether no event is left.
fn are_all_taken(sides: Sides<'_>, taken: Taken) -> bool
    ensures { let s = sides.entry in IsTrue result ↔ AreAllTaken s.gate.now s.one.now s.two.now taken }
{
    sides.gate.len() <= taken.gate && sides.one.len() <= taken.one && sides.two.len() <= taken.two
}

// Takes the next event of any side, where one can come now.
fn take_any(sides: Sides<'_>, taken: &mut Taken, places: &mut Places) -> bool
    requires { AreTaken sides.gate.now sides.one.now sides.two.now taken.old }
    ensures taken { let s = sides.entry in AreTaken s.gate.now s.one.now s.two.now taken.new }
    ensures fewer { let s = sides.entry in IsTrue result
        → events_left s.gate.now s.one.now s.two.now taken.new < events_left s.gate.now s.one.now s.two.now taken.old }
    ensures stuck { let s = sides.entry in IsFalse result → AreStuck s.gate.now s.one.now s.two.now taken.old }
{
    take_next(sides, taken, places, Look::Ahead) || take_next(sides, taken, places, Look::Anywhere)
}

// The same, with messages looked for ahead alone, or anywhere.
fn take_next(sides: Sides<'_>, taken: &mut Taken, places: &mut Places, look: Look) -> bool
    requires { AreTaken sides.gate.now sides.one.now sides.two.now taken.old }
    ensures taken { let s = sides.entry in AreTaken s.gate.now s.one.now s.two.now taken.new }
    ensures fewer { let s = sides.entry in IsTrue result
        → events_left s.gate.now s.one.now s.two.now taken.new < events_left s.gate.now s.one.now s.two.now taken.old }
    ensures same { IsFalse result → taken.new ≡ taken.old }
    ensures stuck { let s = sides.entry in look ≡ Look.Anywhere → IsFalse result
        → AreStuck s.gate.now s.one.now s.two.now taken.old }
{
    if gate_goes_on(sides, *taken, places, look) {
        taken.gate += 1;
        return true;
    }
    if desk_goes_on(
        sides.one,
        taken.one,
        sides.gate,
        taken.gate,
        &mut places.down_one,
        look,
    ) {
        taken.one += 1;
        return true;
    }
    if desk_goes_on(
        sides.two,
        taken.two,
        sides.gate,
        taken.gate,
        &mut places.down_two,
        look,
    ) {
        taken.two += 1;
        return true;
    }
    false
}

// Whether the next event of the gate can come: it brings no message, or one that is found among those that the desks sent.
fn gate_goes_on(sides: Sides<'_>, taken: Taken, places: &mut Places, look: Look) -> bool
    ensures left { IsTrue result → taken.gate < length sides.entry.gate.now }
    ensures sound { let s = sides.entry in IsTrue result
        → FilterGoesOn (WasSentUp s.one.now s.two.now taken) (drop taken.gate s.gate.now) }
    ensures complete { let s = sides.entry in look ≡ Look.Anywhere
        → FilterGoesOn (WasSentUp s.one.now s.two.now taken) (drop taken.gate s.gate.now) → IsTrue result }
{
    match sides.gate.get(taken.gate) {
        None => false,
        Some(entry) => can_come(sides, taken, places, look, entry.event()),
    }
}

fn can_come(
    sides: Sides<'_>,
    taken: Taken,
    places: &mut Places,
    look: Look,
    event: &GateEvent,
) -> bool
    ensures sound { let s = sides.entry in IsTrue result → Brings (WasSentUp s.one.now s.two.now taken) (event_of event.now) }
    ensures complete { let s = sides.entry in look ≡ Look.Anywhere
        → Brings (WasSentUp s.one.now s.two.now taken) (event_of event.now) → IsTrue result }
{
    match event {
        GateEvent::Receive { message } => came_up(sides, taken, places, look, message),
        _ => true,
    }
}

// Whether a desk sent this message. A desk sends at its own port, so the other one is asked last.
fn came_up(
    sides: Sides<'_>,
    taken: Taken,
    places: &mut Places,
    look: Look,
    message: &Message,
) -> bool
    ensures sound { let s = sides.entry in IsTrue result → WasSentUp s.one.now s.two.now taken message.now }
    ensures complete { let s = sides.entry in look ≡ Look.Anywhere
        → WasSentUp s.one.now s.two.now taken message.now → IsTrue result }
{
    let port = message.port();
    if came_from(sides, taken, places, look, port, message) {
        return true;
    }
    look == Look::Anywhere && came_from(sides, taken, places, look, port.other(), message)
}

fn came_from(
    sides: Sides<'_>,
    taken: Taken,
    places: &mut Places,
    look: Look,
    port: Port,
    message: &Message,
) -> bool
    ensures sound { let s = sides.entry in IsTrue result → WasSentAt s.one.now s.two.now taken port message.now }
    ensures complete { let s = sides.entry in look ≡ Look.Anywhere
        → WasSentAt s.one.now s.two.now taken port message.now → IsTrue result }
{
    match port {
        Port::One => was_sent(sides.one, taken.one, &mut places.up_one, look, message),
        Port::Two => was_sent(sides.two, taken.two, &mut places.up_two, look, message),
    }
}

// Whether the next event of a desk can come: it brings no message, or one that is found among those that the gate sent.
fn desk_goes_on(
    desk: &[DeskEntry],
    at: usize,
    gate: &[GateEntry],
    count: usize,
    place: &mut Place,
    look: Look,
) -> bool
    ensures left { IsTrue result → at < length desk.now }
    ensures sound { IsTrue result → ServiceGoesOn (WasSentDown gate.now count) (drop at desk.now) }
    ensures complete { look ≡ Look.Anywhere → ServiceGoesOn (WasSentDown gate.now count) (drop at desk.now) → IsTrue result }
{
    match desk.get(at) {
        None => false,
        Some(entry) => can_be_taken(gate, count, place, look, entry.event()),
    }
}

fn can_be_taken(
    gate: &[GateEntry],
    count: usize,
    place: &mut Place,
    look: Look,
    event: &DeskEvent,
) -> bool
    ensures sound { IsTrue result → Takes (WasSentDown gate.now count) (call_of event.now) }
    ensures complete { look ≡ Look.Anywhere → Takes (WasSentDown gate.now count) (call_of event.now) → IsTrue result }
{
    match event {
        DeskEvent::Receive { message } => was_sent(gate, count, place, look, message),
        _ => true,
    }
}
