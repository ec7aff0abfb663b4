ghost use Rattle.std.specs.Prelude.{◌≡◌, ◌∷◌, [], IsTrue, map, slice_get};
ghost use Rattle.std.specs.List.{list_all};
ghost use Rattle.std.specs.Option.{option_copied};
ghost use Rattle.av_desk.specs.Entry.{call_of};
ghost use Rattle.av_gate.specs.Calls.{event_of};
ghost use Rattle.av_shared.specs.History.{events_of};
ghost use Rattle.av_shared.specs.Still.{AreStill, changes_nothing, publishes_nothing};
ghost use Rattle.av_sigset.specs.Publication.{publication_of};
ghost use Rattle.av_sigset.specs.Set.{patterns_of};

use av_desk::{Audit as DeskAudit, DeskEntry, Event as DeskEvent};
use av_gate::{Audit as GateAudit, Event as GateEvent, GateEntry};
use av_sigset::{Catalogue, Pattern, SignatureSet};

/// Whether no stream changed and nothing was published. It takes no memory, and a look at each event.
pub fn are_still(gate: &GateAudit, desk: &DeskAudit, spare: Option<&DeskAudit>) -> bool
    ensures sound { IsTrue result → AreStill gate.now desk.now (option_copied spare.entry) }
    ensures complete { AreStill gate.now desk.now (option_copied spare.entry) → IsTrue result }
{
    changes_nothing(gate.events.as_slice())
        && publishes_nothing(desk.events.as_slice())
        && spare_publishes_nothing(spare)
}

fn spare_publishes_nothing(spare: Option<&DeskAudit>) -> bool
    ensures { result ≡ list_all (λ x. publishes_nothing x.call) (events_of (option_copied spare.entry)) }
{
    match spare {
        None => true,
        Some(audit) => publishes_nothing(audit.events.as_slice()),
    }
}

fn changes_nothing(events: &[GateEntry]) -> bool
    ensures { result ≡ list_all (λ x. changes_nothing x.event) events.now }
{
    events.iter().all(|entry| changes_no_stream(entry.event()))
}

fn changes_no_stream(event: &GateEvent) -> bool
    ensures { result ≡ changes_nothing (event_of event.now) }
{
    match event {
        GateEvent::Write { .. } => false,
        _ => true,
    }
}

fn publishes_nothing(events: &[DeskEntry]) -> bool
    ensures { result ≡ list_all (λ x. publishes_nothing x.call) events.now }
{
    events.iter().all(|entry| publishes_no_set(entry.event()))
}

fn publishes_no_set(event: &DeskEvent) -> bool
    ensures { result ≡ publishes_nothing (call_of event.now) }
{
    match event {
        DeskEvent::Publish { .. } => false,
        _ => true,
    }
}

/// Whether a catalogue has the version and the patterns of this set, and no other set.
pub fn has_only(catalogue: &Catalogue, set: &SignatureSet) -> bool
    ensures sound { IsTrue result → map publication_of catalogue.now.sets ≡ publication_of set.now ∷ [] }
    ensures complete { map publication_of catalogue.now.sets ≡ publication_of set.now ∷ [] → IsTrue result }
{
    if catalogue.len() != 1 {
        return false;
    }
    match catalogue.at(set.version()) {
        None => false,
        Some(other) => same_publication(other, set),
    }
}

// Whether two sets have one version and the same patterns, under whatever names.
fn same_publication(one: &SignatureSet, other: &SignatureSet) -> bool
    ensures sound { IsTrue result → publication_of one.now ≡ publication_of other.now }
    ensures complete { publication_of one.now ≡ publication_of other.now → IsTrue result }
{
    one.version() == other.version() && same_patterns(one, other)
}

fn same_patterns(one: &SignatureSet, other: &SignatureSet) -> bool
    ensures sound { IsTrue result → patterns_of one.now.signatures ≡ patterns_of other.now.signatures }
    ensures complete { patterns_of one.now.signatures ≡ patterns_of other.now.signatures → IsTrue result }
{
    if one.len() != other.len() {
        return false;
    }
    'patterns: for place in 0..one.len() {
        if !same_pattern_at(one, other, place) {
            return false;
        }
    }
    true
}

// Whether both have the same pattern at a place, or none.
fn same_pattern_at(one: &SignatureSet, other: &SignatureSet, place: usize) -> bool
    ensures sound { IsTrue result
        → slice_get (patterns_of one.now.signatures) place ≡ slice_get (patterns_of other.now.signatures) place }
    ensures complete { slice_get (patterns_of one.now.signatures) place ≡ slice_get (patterns_of other.now.signatures) place
        → IsTrue result }
{
    match (one.pattern(place), other.pattern(place)) {
        (None, None) => true,
        (Some(a), Some(b)) => same_pattern(a, b),
        _ => false,
    }
}

fn same_pattern(one: &Pattern, other: &Pattern) -> bool
    ensures sound { IsTrue result → one.now ≡ other.now }
    ensures complete { one.now ≡ other.now → IsTrue result }
{
    one.bytes == other.bytes && one.span == other.span
}
