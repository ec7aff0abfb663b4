ghost use Rattle.std.specs.Prelude.{◌≡◌, ◌++◌, [], IfOk};
ghost use Rattle.json.specs.Lex.{tokens};
ghost use Rattle.json.specs.Print.{print};
ghost use Rattle.av_base.specs.Device.{Writes};
ghost use Rattle.av_json.specs.Line.{object_line};
ghost use Rattle.av_json.specs.Shown.{HasNothingHidden, shown, shown_before};

use crate::shown::write_shown;
use json::Writer;
use std::io::Write;
use thiserror::Error;

/// Why a line was not written whole.
#[derive(Clone, Copy, Debug, PartialEq, Eq, Error)]
pub enum LineFault {
    /// Memory was refused. Nothing was written.
    #[error("no memory")]
    NoMemory,
    /// A write failed, or took no byte. A front of the line was written.
    #[error("device")]
    Write,
}

/// Writes what was put, and ends the line; gives back its memory, emptied. What was written reads back as the tokens that were
/// put.
pub fn write_line<W: Write>(line: Writer, writer: &mut W) -> Result<Vec<u8>, LineFault>
    ensures writes { Writes result (W.contents writer.old) (W.contents writer.new) (shown_before line.before ++ object_line line.tokens) }
    ensures nothing_hidden { HasNothingHidden (shown_before line.before ++ object_line line.tokens) }
    ensures reads_back { tokens (shown (print line.tokens)) ≡ line.tokens }
    ensures emptied { IfOk result (λ room. room.items ≡ []) }
{
    let mut text = line.into_inner();
    if text.push(b'\n').is_err() {
        return Err(LineFault::NoMemory);
    }
    if write_shown(writer, &text).is_err() {
        return Err(LineFault::Write);
    }
    text.clear();
    Ok(text)
}
