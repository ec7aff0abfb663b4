ghost use Rattle.std.specs.Prelude.{◌≡◌, None, Some};
ghost use Rattle.std.specs.Option.{option_copied};
ghost use Rattle.av_base.specs.Line.{rest_of};
ghost use Rattle.av_script.specs.Script.Grammar.{field_named, limit_line, mode_named, setting_line, volume_line};
ghost use Rattle.av_script.specs.Script.Statement.{Reads};
ghost use Rattle.av_script.specs.Script.Words.{two_words};

use crate::statement::Statement;
use crate::words::two_words;
use av_base::decimal::decimal;
use av_base::{LimitField, Mode};

/// What a verb of the head says with the words behind it, where it is one.
pub fn read_setting<'a>(verb: &[u8], words: Option<&'a [u8]>) -> Option<Statement<'a>>
    ensures { Reads result (setting_line verb.now (rest_of 32 (option_copied words.entry))) }
{
    if verb == b"limit".as_slice() {
        limit(words)
    } else if verb == b"volume".as_slice() {
        volume(words)
    } else {
        None
    }
}

// A field of the limits and a number.
fn limit(words: Option<&[u8]>) -> Option<Statement<'_>>
    ensures { Reads result (limit_line (two_words (rest_of 32 (option_copied words.entry)))) }
{
    let (field, value) = two_words(words)?;
    let which = field_named(field)?;
    let value = decimal(value)?;
    Some(Statement::Limit { which, value })
}

// The field of the limits that a word names.
fn field_named(word: &[u8]) -> Option<LimitField>
    ensures { result ≡ field_named word.now }
{
    if word == b"streams".as_slice() {
        Some(LimitField::Streams)
    } else if word == b"length".as_slice() {
        Some(LimitField::Length)
    } else if word == b"generation".as_slice() {
        Some(LimitField::Generation)
    } else if word == b"questions".as_slice() {
        Some(LimitField::Questions)
    } else if word == b"pended".as_slice() {
        Some(LimitField::Pended)
    } else if word == b"jobs".as_slice() {
        Some(LimitField::Jobs)
    } else if word == b"cache".as_slice() {
        Some(LimitField::Cache)
    } else if word == b"chunk".as_slice() {
        Some(LimitField::Chunk)
    } else if word == b"audit".as_slice() {
        Some(LimitField::Audit)
    } else {
        None
    }
}

// The number of a volume and a mode.
fn volume(words: Option<&[u8]>) -> Option<Statement<'_>>
    ensures { Reads result (volume_line (two_words (rest_of 32 (option_copied words.entry)))) }
{
    let (number, mode) = two_words(words)?;
    let mode = mode_named(mode)?;
    let number = decimal(number)?;
    Some(Statement::Volume { number, mode })
}

// The mode that a word names.
fn mode_named(word: &[u8]) -> Option<Mode>
    ensures { result ≡ mode_named word.now }
{
    if word == b"closed".as_slice() {
        Some(Mode::FailClosed)
    } else if word == b"open".as_slice() {
        Some(Mode::FailOpen)
    } else {
        None
    }
}
