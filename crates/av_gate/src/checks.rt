// The tests of a gate's end. They take no memory.
ghost use Rattle.std.specs.Prelude.{◌≡◌, ◌<◌, ◌+◌, ◌==◌, ℕ, IsTrue};
ghost use Rattle.std.specs.List.{All, count_by};
ghost use Rattle.av_gate.specs.Claims.{AreCallsOf, InOrder, Matches, PlacesRise, Rises, Stands, digit, times};

use crate::entry::GateEntry;
use crate::locked::Locked;
use crate::same::is_called;
use crate::seat::{Seat, SeatCall};
use av_ends::Receipt;
use av_store::Volume;

/// Whether the seats' calls are the events, each once and in each seat's order, their names read in the opening volume.
pub(crate) fn are_calls_of(seats: &[Seat], start: &Volume, events: &[GateEntry]) -> bool
    ensures { IsTrue result → AreCallsOf seats.now start.now events.now }
{
    all_rise(seats, start, events) && each_once(seats, events.len())
}

fn all_rise(seats: &[Seat], start: &Volume, events: &[GateEntry]) -> bool
    ensures { IsTrue result → All (Rises start.now events.now) seats.now }
{
    for seat in seats {
        if !rises(seat, start, events) {
            return false;
        }
    }
    true
}

fn rises(seat: &Seat, start: &Volume, events: &[GateEntry]) -> bool
    ensures { IsTrue result → Rises start.now events.now seat.now }
{
    let calls = seat.calls.as_slice();
    let mut low = 0;
    for call in calls {
        if call.place < low || !matches(start, events, call) {
            return false;
        }
        let Some(next) = call.place.checked_add(1) else {
            return false;
        };
        low = next;
    }
    true
}

fn matches(start: &Volume, events: &[GateEntry], call: &SeatCall) -> bool
    ensures { IsTrue result → Matches start.now events.now call.now }
{
    match events.get(call.place) {
        Some(entry) => is_called(entry.event(), &call.call, start) && entry.note() == call.note,
        None => false,
    }
}

fn each_once(seats: &[Seat], count: usize) -> bool
    requires { All InOrder seats.now }
    ensures { IsTrue result → (place : ℕ) → place < count → times place seats.now ≡ 1 }
{
    for place in 0..count {
        if !is_once(seats, place) {
            return false;
        }
    }
    true
}

fn is_once(seats: &[Seat], place: usize) -> bool
    requires { All InOrder seats.now }
    ensures { IsTrue result → times place seats.now ≡ 1 }
{
    let mut seen = false;
    for seat in seats {
        if has_place(seat.calls.as_slice(), place) {
            if seen {
                return false;
            }
            seen = true;
        }
    }
    seen
}

// Whether one of these calls has this place, by halving.
fn has_place(calls: &[SeatCall], place: usize) -> bool
    requires { PlacesRise 0 calls.now }
    ensures { count_by (λ c. c.place == place) calls.now ≡ digit result }
{
    let mut low = 0;
    let mut high = calls.len();
    'halves: while low < high {
        let middle = low + (high - low) / 2;
        let found = calls[middle].place;
        if found == place {
            return true;
        }
        if found < place {
            low = middle + 1;
        } else {
            high = middle;
        }
    }
    false
}

/// Whether each receipt's answer is its open's one answer.
pub(crate) fn all_stand(locked: &Locked, receipts: &[Receipt]) -> bool
    ensures { IsTrue result → All (Stands locked.now.events) receipts.now }
{
    for receipt in receipts {
        if !locked.stands(receipt) {
            return false;
        }
    }
    true
}
