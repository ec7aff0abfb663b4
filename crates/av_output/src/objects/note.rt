ghost use Rattle.av_json.specs.Member.{Puts};
ghost use Rattle.av_output.specs.Objects.Lines.{note_tokens};

use crate::note::note_word;
use av_history::report::EventNote;
use av_json::{Member, put_object};
use json::Writer;
use std::alloc::AllocError;

/// Puts the object of a note, if it has one.
pub fn put_note(note: EventNote, line: &mut Writer) -> Result<(), AllocError>
    ensures { Puts result line.old line.new (note_tokens note) }
{
    let Some(word) = note_word(note) else {
        return Ok(());
    };
    put_object(
        line,
        &[Member::Text("is", "note"), Member::Text("note", word)],
    )
}
