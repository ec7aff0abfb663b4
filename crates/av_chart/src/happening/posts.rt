//! Messages: when each was sent, and where it arrived.

ghost use Rattle.std.specs.Prelude.{◌≡◌, ◌+◌, ◌-◌, ◌++◌, ◌∷◌, [], None, OnOk};
ghost use Rattle.std.specs.Option.{option_copied};
ghost use Rattle.av_history.specs.World.{member};
ghost use Rattle.av_chart.specs.Row.{count};
ghost use Rattle.av_chart.specs.Story.{arrival_in, arrival_of, arrived, delivered_down, delivered_up, is_again, moment, posted, posts_of, story_of};

use crate::happened::{Arrival, Happened, REACH, Said, Sent};
use crate::happening::marks::{Deed, is_spent};
use crate::life::Moment;
use av_output::Direction;
use std::alloc::{AllocError, Global};

/// A line of a step's row, counted from 0.
pub fn moment(step: u64, first: usize, behind: usize) -> Moment
    ensures { result ≡ moment step (first + behind) }
{
    let line = match u32::try_from(first.saturating_add(behind)) {
        Ok(line) => line,
        Err(_) => u32::MAX,
    };
    Moment { step, line }
}

/// The member of a list at a place, counted from 1.
pub fn member_of<T>(items: &[T], place: u64) -> Option<&T>
    ensures { option_copied result ≡ member items.now place }
{
    items.get(place.checked_sub(1)? as usize)
}

/// How the message that a step delivers arrives.
pub fn arrival_in(happened: &Happened<'_>, deed: Deed, note: Said) -> Option<Arrival>
    ensures { result ≡ arrival_in (story_of happened.now) deed note }
{
    let Deed::Deliver { way, place } = deed else {
        return None;
    };
    let at = happened.steps.len() as u64;
    match way {
        Direction::Down => arrival_of(&happened.down, at, way, place, note),
        Direction::Up => arrival_of(&happened.up, at, way, place, note),
    }
}

// How the message at a place arrives in a step.
fn arrival_of(sent: &[Sent], at: u64, way: Direction, place: u64, note: Said) -> Option<Arrival>
    ensures { result ≡ arrival_of at way place note (member (posts_of sent.now) place) }
{
    let sent = member_of(sent, place)?;
    let is_again = !sent.arrivals.is_empty();
    Some(Arrival {
        way,
        index: (place - 1) as usize,
        is_again,
        is_far: is_again || at.saturating_sub(sent.at.step) > REACH,
        is_spent: is_spent(note),
    })
}

/// The message to the service that a step delivers arrives, and so many are sent.
pub fn take_down(
    alloc: Global,
    sent: &mut Vec<Sent>,
    deed: Deed,
    at: u64,
    count: usize,
) -> Result<(), AllocError>
    ensures { OnOk result (posts_of sent.new.items ≡ delivered_down at deed (posts_of sent.old.items) ++ posted at 0 count) }
{
    deliver_down(sent, deed, at)?;
    post(alloc, sent, at, 0, count)
}

/// The message to the filter that a step delivers arrives, and so many are sent, from a line of its row on.
pub fn take_up(
    alloc: Global,
    sent: &mut Vec<Sent>,
    deed: Deed,
    at: u64,
    first: usize,
    count: usize,
) -> Result<(), AllocError>
    ensures { OnOk result (posts_of sent.new.items ≡ delivered_up at deed (posts_of sent.old.items) ++ posted at first count) }
{
    deliver_up(sent, deed, at)?;
    post(alloc, sent, at, first, count)
}

// The message to the service that a step delivers arrives.
fn deliver_down(sent: &mut Vec<Sent>, deed: Deed, at: u64) -> Result<(), AllocError>
    ensures { OnOk result (posts_of sent.new.items ≡ delivered_down at deed (posts_of sent.old.items)) }
{
    match deed {
        Deed::Deliver {
            way: Direction::Down,
            place,
        } => arrive_at(sent, place, at),
        _ => Ok(()),
    }
}

// The message to the filter that a step delivers arrives.
fn deliver_up(sent: &mut Vec<Sent>, deed: Deed, at: u64) -> Result<(), AllocError>
    ensures { OnOk result (posts_of sent.new.items ≡ delivered_up at deed (posts_of sent.old.items)) }
{
    match deed {
        Deed::Deliver {
            way: Direction::Up,
            place,
        } => arrive_at(sent, place, at),
        _ => Ok(()),
    }
}

// The message at a place arrives in a step.
fn arrive_at(sent: &mut Vec<Sent>, place: u64, at: u64) -> Result<(), AllocError>
    ensures { OnOk result (posts_of sent.new.items ≡ arrived at place (posts_of sent.old.items)) }
{
    if place == 0 || place > sent.len() as u64 {
        return Ok(());
    }
    arrive(&mut sent[(place - 1) as usize], at)
}

// A message arrives in a step.
fn arrive(sent: &mut Sent, at: u64) -> Result<(), AllocError>
    ensures arrived { OnOk result (sent.new.arrivals.items ≡ sent.old.arrivals.items ++ at ∷ []) }
    ensures sent { sent.new.at ≡ sent.old.at }
{
    sent.arrivals.push(at)?;
    Ok(())
}

// So many messages are sent in a step, from a line of its row on.
fn post(
    alloc: Global,
    sent: &mut Vec<Sent>,
    at: u64,
    first: usize,
    count: usize,
) -> Result<(), AllocError>
    ensures { OnOk result (posts_of sent.new.items ≡ posts_of sent.old.items ++ posted at first count) }
{
    for index in 0..count {
        sent.push(Sent {
            at: moment(at, first, index),
            arrivals: Vec::new(alloc),
        })?;
    }
    Ok(())
}
