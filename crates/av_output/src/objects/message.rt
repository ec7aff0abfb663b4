ghost use Rattle.std.specs.Prelude.{◌≡◌, ◌+◌, map};
ghost use Rattle.std.specs.List.{between};
ghost use Rattle.av_json.specs.Member.{Puts, joined};
ghost use Rattle.av_output.specs.Objects.Messages.{field_tokens, message_tokens, port_members, told_tokens, way_name};
ghost use Rattle.av_output.specs.Text.Messages.{placed};
ghost use Rattle.av_output.specs.Told.{held};

use crate::message::Direction;
use crate::part::part;
use crate::told::{Field, Told, told_of};
use av_base::Port;
use av_frame::Message;
use av_json::{Member, put_members};
use json::Writer;
use std::alloc::{AllocError, Global};

impl Direction {
    // The member that says it.
    fn name(self) -> &'static str
        ensures { result.now ≡ way_name self }
    {
        match self {
            Direction::Down => "down",
            Direction::Up => "up",
        }
    }
}

/// Puts the objects of messages from one place of their list up to another, both counted from 0. The digits of a chunk's bytes
/// take memory besides the line's.
pub fn put_messages(
    alloc: Global,
    way: Direction,
    messages: &[Message],
    from: u64,
    to: u64,
    line: &mut Writer,
) -> Result<(), AllocError>
    ensures { Puts result line.old line.new (placed (message_tokens way) (from + 1) (between from to messages.now)) }
{
    for (index, message) in part(messages, from, to).iter().enumerate() {
        let number = from + index as u64 + 1;
        put_message(alloc, way, number, message, line)?;
    }
    Ok(())
}

fn put_message(
    alloc: Global,
    way: Direction,
    number: u64,
    message: &Message,
    line: &mut Writer,
) -> Result<(), AllocError>
    ensures { Puts result line.old line.new (message_tokens way number message.now) }
{
    let told = told_of(message.body());
    put_told(alloc, way.name(), number, &told, message.port(), line)
}

/// Puts an object: its kind, the name of a list and a place in it, and its fields; of port Two it names the port, behind them.
/// The digits of bytes take memory besides the line's.
pub fn put_told<'a>(
    alloc: Global,
    list: &'a str,
    number: u64,
    told: &Told<'a>,
    port: Port,
    line: &mut Writer,
) -> Result<(), AllocError>
    ensures { Puts result line.old line.new (told_tokens list.now number (held told.now) port) }
{
    line.begin_object()?;
    put_members(
        line,
        &[Member::Text("is", told.kind), Member::Number(list, number)],
    )?;
    put_fields(alloc, &told.fields, line)?;
    put_port(line, port)?;
    line.end_object()
}

fn put_fields(alloc: Global, fields: &[Field<'_>], line: &mut Writer) -> Result<(), AllocError>
    ensures { Puts result line.old line.new (joined (map field_tokens fields.now)) }
{
    for field in fields {
        put_field(alloc, *field, line)?;
    }
    Ok(())
}

fn put_field(alloc: Global, field: Field<'_>, line: &mut Writer) -> Result<(), AllocError>
    ensures { Puts result line.old line.new (field_tokens field.entry) }
{
    match field {
        Field::Id(id) => put_members(
            line,
            &[
                Member::Number("boot", id.boot),
                Member::Number("seq", id.seq),
            ],
        ),
        Field::Number(name, number) | Field::Plain(name, number) => {
            put_members(line, &[Member::Number(name, number)])
        }
        Field::Bytes(name, bytes) => {
            let digits = hex::encode(alloc, bytes)?;
            put_members(line, &[Member::Text(name, &digits)])
        }
        Field::Word(name, word) => put_members(line, &[Member::Text(name, word)]),
        Field::Nothing => Ok(()),
    }
}

// Puts the member that names a port, of port Two.
fn put_port(line: &mut Writer, port: Port) -> Result<(), AllocError>
    ensures { Puts result line.old line.new (joined (port_members port)) }
{
    match port {
        Port::One => put_members(line, &[]),
        Port::Two => put_members(line, &[Member::Number("port", 2)]),
    }
}
