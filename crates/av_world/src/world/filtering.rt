ghost use Rattle.std.specs.Prelude.{◌≡◌, ◌≤◌, ◌+◌, ◌++◌, map, length, reverse, vec_len, IfSome};
ghost use Rattle.std.specs.Vec.{vec_capacity};
ghost use Rattle.av_filter.specs.Asking.{Calls, event_called};
ghost use Rattle.av_filter.specs.Room.{most_messages};
ghost use Rattle.av_store.specs.Rows.{stream_at};
ghost use Rattle.av_world.specs.Stage.{IsSmallOut, Takes, at_history, line_after};
ghost use Rattle.av_history.specs.World.{change_line, filter_event, given_at};
ghost use Rattle.av_history.specs.declared.event.Event.{Event};

use super::stage::Stage;
use av_base::{Generation, StreamId};
use av_filter::{Filter, FilterCall, Mounted, Out};
use av_history::event::Event;
use av_history::given::Given;
use av_history::report::{EventNote, Line, Report};
use av_pend::Answer;
use av_store::Volume;
use std::alloc::Global;

// Asks it; none where it is refused.
#[tactic(auto, using(crate::proofs::RoomLemmas::small_if))]
fn ask(mounted: &mut Mounted, alloc: Global, call: &FilterCall<'_>) -> Option<Out>
    ensures reacts { Calls mounted.old.table mounted.old.volume mounted.new.table mounted.new.volume (event_called call.now) result }
    ensures few { IfSome result
        (IsSmallOut (most_messages mounted.old.table (event_called call.now)) (length mounted.old.table.pended)) }
{
    mounted.ask(alloc, call)
}

// How many messages it gives out at most.
fn most_messages(filter: &Filter, call: &FilterCall<'_>) -> usize
    ensures { result ≡ most_messages filter.now (event_called call.now) }
{
    match *call {
        FilterCall::Disconnect { .. } => filter.question_count(),
        _ => 2,
    }
}

// Answers behind those that were given, each with the number of its event.
fn give(answers: &mut Vec<Given>, event: u64, more: &[Answer])
    requires { vec_len answers.old + length more.now ≤ vec_capacity answers.old }
    ensures { answers.new.items ≡ answers.old.items ++ map (given_at event) more.now }
{
    for answer in more {
        answers.push_reserved(Given {
            event,
            answer: *answer,
        });
    }
}

impl Stage {
    /// Lets the filter do what it is asked, as the event behind a history. None where that is refused: nothing has changed.
    pub fn filter_event(
        &mut self,
        alloc: Global,
        history: &[Event],
        call: &FilterCall<'_>,
    ) -> Option<Report>
        ensures { (e : Event)
            → Takes self.old self.new (reverse history.now) e
            (filter_event (at_history (reverse history.now) self.old) e (line_after call.now) (event_called call.now)) result }
    {
        let before = self.places();
        let event = (history.len() as u64).checked_add(1)?;
        let most = self.mounted.filter().pended_count().checked_add(1)?;
        self.answers.reserve(most).ok()?;
        self.down
            .reserve(most_messages(self.mounted.filter(), call))
            .ok()?;
        let mut out = ask(&mut self.mounted, alloc, call)?;
        give(&mut self.answers, event, out.answers.as_slice());
        self.down.append(&mut out.messages).unwrap();
        Some(Report {
            line: line(self.mounted.volume(), call),
            before,
            after: self.places(),
            note: EventNote::Filter(out.note),
        })
    }
}

// What is told of the volume after a call.
fn line(volume: &Volume, call: &FilterCall<'_>) -> Line
    ensures { result ≡ line_after call.now volume.now }
{
    match *call {
        FilterCall::Create { .. } => Line::Created {
            stream: volume.last_created(),
        },
        FilterCall::Write { stream, .. } | FilterCall::Cut { stream, .. } => {
            change_line(volume, stream)
        }
        FilterCall::Remove { stream } => Line::Removed { stream },
        FilterCall::Restart => Line::Booted {
            boot: volume.boot(),
        },
        _ => Line::Silent,
    }
}

// A stream's new generation and length.
fn change_line(volume: &Volume, stream: StreamId) -> Line
    ensures { result ≡ change_line stream (stream_at stream volume.now.streams) }
{
    let generation = volume.generation(stream).unwrap_or(Generation::new(0));
    let length = volume.length(stream).unwrap_or(0);
    Line::Changed {
        stream,
        generation,
        length,
    }
}
