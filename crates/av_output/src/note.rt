ghost use Rattle.std.specs.Prelude.{◌≡◌, None, Some};
ghost use Rattle.std.specs.Option.{option_copied};
ghost use Rattle.av_base.specs.Device.{Writes};
ghost use Rattle.av_output.specs.Text.Notes.{filter_word, note_text, note_word, service_word};

use av_base::parts::write_parts;
use av_base::{Part, WriteFault};
use av_filter::note::Note as FilterNote;
use av_history::report::EventNote;
use av_service::note::ServiceNote;
use std::io::Write;

/// Writes the line of a note, if it has one.
pub fn print_note<W: Write>(note: EventNote, writer: &mut W) -> Result<(), WriteFault>
    ensures { Writes result (W.contents writer.old) (W.contents writer.new) (note_text note) }
{
    let Some(word) = note_word(note) else {
        return Ok(());
    };
    write_parts(
        writer,
        &[
            Part::Text(b"note "),
            Part::Text(word.as_bytes()),
            Part::Text(b"\n"),
        ],
    )
}

/// The word of a note that is told.
pub fn note_word(note: EventNote) -> Option<&'static str>
    ensures { option_copied result ≡ note_word note }
{
    match note {
        EventNote::Filter(note) => filter_word(note),
        EventNote::Service(note) => service_word(note),
    }
}

fn filter_word(note: FilterNote) -> Option<&'static str>
    ensures { option_copied result ≡ filter_word note }
{
    match note {
        FilterNote::Quiet | FilterNote::Submitted { .. } => None,
        FilterNote::Welcome => Some("Welcome"),
        FilterNote::NoWaiter => Some("NoWaiter"),
        FilterNote::Ignored => Some("Ignored"),
        FilterNote::NoStream => Some("NoStream"),
        FilterNote::WrongVolume => Some("WrongVolume"),
        FilterNote::Connected => Some("Connected"),
        FilterNote::OldVersion => Some("OldVersion"),
    }
}

fn service_word(note: ServiceNote) -> Option<&'static str>
    ensures { option_copied result ≡ service_word note }
{
    match note {
        ServiceNote::Quiet => None,
        ServiceNote::Repeat => Some("Repeat"),
        ServiceNote::Ignored => Some("Ignored"),
        ServiceNote::Orphan => Some("Orphan"),
    }
}
