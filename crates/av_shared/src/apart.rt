ghost use Rattle.std.specs.Prelude.{◌≡◌, ◌&&◌, IsTrue};
ghost use Rattle.std.specs.List.{list_all};
ghost use Rattle.std.specs.Option.{option_copied};
ghost use Rattle.av_desk.specs.Entry.{call_of};
ghost use Rattle.av_gate.specs.Calls.{event_of};
ghost use Rattle.av_shared.specs.Apart.{are_apart, hears_nothing, one_by_one, takes_nothing};
ghost use Rattle.av_shared.specs.History.{AreOneHistory, events_of};

use av_desk::{DeskEntry, Event as DeskEvent};
use av_gate::{Event as GateEvent, GateEntry};

/// Whether nothing came over between them: no message to any, and no work back to a desk. Then the gate's events, behind them
/// the desk's, and behind them the spare's, are one history of all. It takes no memory, and a look at each event.
pub fn are_apart(
    gate: &av_gate::Audit,
    desk: &av_desk::Audit,
    spare: Option<&av_desk::Audit>,
) -> bool
    ensures exact { result ≡ are_apart gate.now desk.now (option_copied spare.entry) }
    ensures history { IsTrue result → AreOneHistory gate.now desk.now (option_copied spare.entry)
        (one_by_one gate.now desk.now (option_copied spare.entry)) }
{
    heard_nothing(gate.events.as_slice()) && both_took_nothing(desk, spare)
}

fn both_took_nothing(desk: &av_desk::Audit, spare: Option<&av_desk::Audit>) -> bool
    ensures { result
        ≡ (list_all (λ x. takes_nothing x.call) desk.now.events.items
        && list_all (λ x. takes_nothing x.call) (events_of (option_copied spare.entry))) }
{
    took_nothing(desk.events.as_slice()) && took_nothing(events_of(spare))
}

// What happened to a spare: nothing, where there is none.
fn events_of(spare: Option<&av_desk::Audit>) -> &[DeskEntry]
    ensures { result.now ≡ events_of (option_copied spare.entry) }
{
    match spare {
        None => &[],
        Some(audit) => audit.events.as_slice(),
    }
}

fn heard_nothing(events: &[GateEntry]) -> bool
    ensures { result ≡ list_all (λ x. hears_nothing x.event) events.now }
{
    events.iter().all(|entry| hears_nothing(entry.event()))
}

fn hears_nothing(event: &GateEvent) -> bool
    ensures { result ≡ hears_nothing (event_of event.now) }
{
    match event {
        GateEvent::Receive { .. } => false,
        _ => true,
    }
}

fn took_nothing(events: &[DeskEntry]) -> bool
    ensures { result ≡ list_all (λ x. takes_nothing x.call) events.now }
{
    events.iter().all(|entry| takes_nothing(entry.event()))
}

fn takes_nothing(event: &DeskEvent) -> bool
    ensures { result ≡ takes_nothing (call_of event.now) }
{
    match event {
        DeskEvent::Receive { .. } | DeskEvent::Finish { .. } => false,
        _ => true,
    }
}
