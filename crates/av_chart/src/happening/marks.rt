//! What a step is marked with on each lane, by its event and its report alone.

ghost use Rattle.std.specs.Prelude.{◌≡◌};
ghost use Rattle.av_pend.specs.Pend.{open_of};
ghost use Rattle.av_chart.specs.Marks.{asked_id, asks_of, deed_of, filter_deed, filter_id, filter_mark, is_spent, judged_mark, lent_of, ran_of, said_by_filter, said_by_service, said_of, service_deed, service_mark, submitted_id, volume_mark};

use crate::happened::{Asks, FilterMark, Said, ServiceMark, VolumeMark};
use av_base::Port;
use av_filter::Note as FilterNote;
use av_history::{Event, EventNote, Given, Judged, Line, Report};
use av_output::Direction;
use av_pend::Answer;
use av_service::ServiceNote;

/// What a picture has to know of an event besides what its report tells.
#[derive(Clone, Copy)]
pub enum Deed {
    Other,
    Open,
    Cleanup,
    Timeout,
    Deliver { way: Direction, place: u64 },
    Run { place: u64 },
    DisconnectFilter { port: Port },
    DisconnectService { port: Port },
    RestartFilter,
    RestartService { port: Port },
}

/// What an event is to a picture.
pub fn deed_of(event: &Event) -> Deed
    ensures { result ≡ deed_of event.now }
{
    match event {
        Event::Open { .. } => Deed::Open,
        Event::Cleanup { .. } => Deed::Cleanup,
        Event::Timeout { .. } => Deed::Timeout,
        Event::Down { place } => Deed::Deliver {
            way: Direction::Down,
            place: *place,
        },
        Event::Up { place } => Deed::Deliver {
            way: Direction::Up,
            place: *place,
        },
        Event::Run { place } => Deed::Run { place: *place },
        Event::DisconnectFilter { port } => Deed::DisconnectFilter { port: *port },
        Event::DisconnectService { port } => Deed::DisconnectService { port: *port },
        Event::RestartFilter => Deed::RestartFilter,
        Event::RestartService { port } => Deed::RestartService { port: *port },
        _ => Deed::Other,
    }
}

/// The word of a note.
pub fn said_of(note: EventNote) -> Said
    ensures { result ≡ said_of note }
{
    match note {
        EventNote::Filter(filter) => said_by_filter(filter),
        EventNote::Service(service) => said_by_service(service),
    }
}

fn said_by_filter(note: FilterNote) -> Said
    ensures { result ≡ said_by_filter note }
{
    match note {
        FilterNote::Quiet | FilterNote::Submitted { .. } => Said::Quiet,
        FilterNote::Welcome => Said::Welcome,
        FilterNote::NoWaiter => Said::NoWaiter,
        FilterNote::Ignored => Said::Ignored,
        FilterNote::NoStream => Said::NoStream,
        FilterNote::WrongVolume => Said::WrongVolume,
        FilterNote::Connected => Said::Connected,
        FilterNote::OldVersion => Said::OldVersion,
    }
}

fn said_by_service(note: ServiceNote) -> Said
    ensures { result ≡ said_by_service note }
{
    match note {
        ServiceNote::Quiet => Said::Quiet,
        ServiceNote::Repeat => Said::Repeat,
        ServiceNote::Ignored => Said::IgnoredByService,
        ServiceNote::Orphan => Said::Orphan,
    }
}

/// Whether what arrived brings nothing any more.
pub fn is_spent(note: Said) -> bool
    ensures { result ≡ is_spent note }
{
    matches!(
        note,
        Said::NoWaiter
            | Said::Ignored
            | Said::WrongVolume
            | Said::Connected
            | Said::OldVersion
            | Said::Repeat
            | Said::IgnoredByService
    )
}

/// What the opener asks.
pub fn asks_of(deed: Deed, given: &[Given], note: EventNote) -> Option<Asks>
    ensures { result ≡ asks_of deed given.now note }
{
    match deed {
        Deed::Open => Some(Asks::Open {
            open_id: asked_id(given, note),
        }),
        Deed::Cleanup => Some(Asks::Cleanup),
        _ => None,
    }
}

// The number that an open was given.
fn asked_id(given: &[Given], note: EventNote) -> u64
    ensures { result ≡ asked_id given.now note }
{
    match given {
        [first, ..] => id_of(&first.answer),
        [] => submitted_id(note),
    }
}

/// The number under which an open was taken, or 0.
pub fn submitted_id(note: EventNote) -> u64
    ensures { result ≡ submitted_id note }
{
    match note {
        EventNote::Filter(note) => filter_id(note),
        EventNote::Service(_) => 0,
    }
}

fn filter_id(note: FilterNote) -> u64
    ensures { result ≡ filter_id note }
{
    let FilterNote::Submitted { open_id } = note else {
        return 0;
    };
    open_id.get()
}

/// The number of the open that an answer is for.
pub fn id_of(answer: &Answer) -> u64
    ensures { result ≡ open_of answer.now }
{
    answer.open_id().get()
}

/// What befalls the filter.
pub fn filter_mark(deed: Deed, line: Line) -> Option<FilterMark>
    ensures { result ≡ filter_mark deed line }
{
    match line {
        Line::Booted { boot } => Some(FilterMark::Boot { boot }),
        _ => filter_deed(deed),
    }
}

fn filter_deed(deed: Deed) -> Option<FilterMark>
    ensures { result ≡ filter_deed deed }
{
    match deed {
        Deed::Timeout => Some(FilterMark::Timeout),
        Deed::DisconnectFilter { port } => Some(FilterMark::ServiceLost { port }),
        _ => None,
    }
}

/// What befalls the service.
pub fn service_mark(deed: Deed, line: Line) -> Option<ServiceMark>
    ensures { result ≡ service_mark deed line }
{
    match line {
        Line::Published {
            version,
            signatures,
        } => Some(ServiceMark::Set {
            version: version.get(),
            signatures,
        }),
        _ => service_deed(deed),
    }
}

fn service_deed(deed: Deed) -> Option<ServiceMark>
    ensures { result ≡ service_deed deed }
{
    match deed {
        Deed::DisconnectService { port } => Some(ServiceMark::FilterLost { port }),
        Deed::RestartService { port } => Some(ServiceMark::Restart { port }),
        _ => None,
    }
}

/// What befalls the stream that a command names.
pub fn volume_mark(line: Line) -> Option<VolumeMark>
    ensures { result ≡ volume_mark line }
{
    match line {
        Line::Created { .. } => Some(VolumeMark::Created),
        Line::Changed {
            generation,
            length,
            ..
        } => Some(VolumeMark::Changed {
            generation: generation.get(),
            length,
        }),
        Line::Removed { .. } => Some(VolumeMark::Removed),
        _ => None,
    }
}

/// The verdict that was asked for.
pub fn judged_mark(judged: Judged) -> VolumeMark
    ensures { result ≡ judged_mark judged }
{
    VolumeMark::Judged {
        generation: judged.generation.get(),
        version: judged.version.get(),
        verdict: judged.verdict,
    }
}

/// The place of the work that was run, from 0.
pub fn ran_of(deed: Deed) -> Option<usize>
    ensures { result ≡ ran_of deed }
{
    match deed {
        Deed::Run { place } => Some(place.saturating_sub(1) as usize),
        _ => None,
    }
}

/// The place of the newest work that was lent, from 0.
pub fn lent_of(report: &Report) -> Option<usize>
    ensures { result ≡ lent_of report.now }
{
    let (before, after) = (report.before.works, report.after.works);
    if before < after {
        Some((after - 1) as usize)
    } else {
        None
    }
}
