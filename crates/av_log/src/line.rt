//! The line of an entry, in words or as JSON.

ghost use Rattle.std.specs.Prelude.{◌≡◌, ◌++◌, ◌∷◌, [], map, OnOk};
ghost use Rattle.av_json.specs.Member.{Puts, number_tokens, object_tokens, text_tokens};
ghost use Rattle.av_log.specs.Line.{item_tokens, items_tokens, line_of, line_tokens, object_of};
ghost use Rattle.av_log.specs.Words.{item_of};

use crate::field::{Field, put_words};
use av_json::{put_named, write_line};
use json::Writer;
use std::alloc::{AllocError, Global};

/// How a line is written.
#[derive(Clone, Copy, Debug, PartialEq, Eq)]
pub enum Form {
    /// Words with an equals sign: `time=.. event=answer answer=denied ..`.
    Words,
    /// An object of JSON.
    Json,
}

/// Puts the line of some fields after what is there.
pub fn put_line(
    alloc: Global,
    out: &mut Vec<u8>,
    form: Form,
    stamp: &[u8],
    fields: &[Field<'_>],
) -> Result<(), AllocError>
    ensures { OnOk result (out.new.items ≡ out.old.items ++ line_of form stamp.now (map item_of fields.now)) }
{
    match form {
        Form::Words => put_words(out, stamp, fields),
        Form::Json => put_object(alloc, out, stamp, fields),
    }
}

fn put_object(
    alloc: Global,
    out: &mut Vec<u8>,
    stamp: &[u8],
    fields: &[Field<'_>],
) -> Result<(), AllocError>
    ensures { OnOk result (out.new.items ≡ out.old.items ++ object_of stamp.now (map item_of fields.now)) }
{
    let mut line = Writer::new(Vec::new(alloc));
    put_tokens(alloc, &mut line, stamp, fields)?;
    match write_line(line, out) {
        Ok(_) => Ok(()),
        Err(_) => Err(AllocError),
    }
}

#[tactic(auto, unfolding(av_json::specs::Member::object_tokens))]
fn put_tokens(
    alloc: Global,
    line: &mut Writer,
    stamp: &[u8],
    fields: &[Field<'_>],
) -> Result<(), AllocError>
    ensures { Puts result line.old line.new (object_tokens (line_tokens stamp.now (map item_of fields.now) ∷ [])) }
{
    line.begin_object()?;
    put_named(alloc, line, "time", "time_hex", stamp)?;
    put_items(alloc, line, fields)?;
    line.end_object()
}

fn put_items(alloc: Global, line: &mut Writer, fields: &[Field<'_>]) -> Result<(), AllocError>
    ensures { Puts result line.old line.new (items_tokens (map item_of fields.now)) }
{
    for field in fields {
        put_item(alloc, line, *field)?;
    }
    Ok(())
}

fn put_item(alloc: Global, line: &mut Writer, field: Field<'_>) -> Result<(), AllocError>
    ensures { Puts result line.old line.new (item_tokens (item_of field.entry)) }
{
    match field {
        Field::Word(name, text) => put_word(line, name, text),
        Field::Number(name, number) => put_number(line, name, number),
        Field::Bytes(name, digits, text) => put_named(alloc, line, name, digits, text),
    }
}

#[tactic(auto, unfolding(av_json::specs::Member::text_tokens))]
fn put_word(line: &mut Writer, name: &str, text: &str) -> Result<(), AllocError>
    ensures { Puts result line.old line.new (text_tokens name.now text.now) }
{
    line.key(name)?;
    line.string(text)
}

#[tactic(auto, unfolding(av_json::specs::Member::number_tokens))]
fn put_number(line: &mut Writer, name: &str, number: u64) -> Result<(), AllocError>
    ensures { Puts result line.old line.new (number_tokens name.now number) }
{
    line.key(name)?;
    line.u64(number)
}
