ghost use Rattle.std.specs.Prelude.{◌≡◌, ◌+◌, ◌<◌, length, map, codes, [], ◌∷◌};
ghost use Rattle.std.specs.List.{between};
ghost use Rattle.av_base.specs.Device.{Writes};
ghost use Rattle.av_base.specs.Part.{part_text, spelt};
ghost use Rattle.av_output.specs.Text.Messages.{field_text, line_end, message_text, placed, told_text, way_word};
ghost use Rattle.av_output.specs.Told.{held};

use crate::part::part;
use crate::told::{Field, Told, told_of};
use av_base::device::write_text;
use av_base::parts::write_parts;
use av_base::{Part, Port, WriteFault};
use av_frame::Message;
use std::io::Write;

/// The list in which a message stands: those to the service, or those to the filter.
#[derive(Clone, Copy)]
pub enum Direction {
    /// From the filter to the service.
    Down,
    /// From the service to the filter.
    Up,
}

impl Direction {
    fn word(self) -> &'static [u8]
        ensures { result.now ≡ way_word self }
    {
        match self {
            Direction::Down => b"down ".as_slice(),
            Direction::Up => b"up ".as_slice(),
        }
    }
}

/// The end of a line: of port Two it names the port.
pub fn line_end(port: Port) -> &'static [u8]
    ensures { result.now ≡ line_end port }
{
    match port {
        Port::One => b"\n".as_slice(),
        Port::Two => b" port 2\n".as_slice(),
    }
}

/// Writes the lines of messages from one place of their list up to another, both counted from 0.
pub fn print_messages<W: Write>(
    way: Direction,
    messages: &[Message],
    from: u64,
    to: u64,
    writer: &mut W,
) -> Result<(), WriteFault>
    ensures { Writes result (W.contents writer.old) (W.contents writer.new)
        (placed (message_text way) (from + 1) (between from to messages.now)) }
{
    for (index, message) in part(messages, from, to).iter().enumerate() {
        let number = from + index as u64 + 1;
        print_message(way, number, message, writer)?;
    }
    Ok(())
}

fn print_message<W: Write>(
    way: Direction,
    number: u64,
    message: &Message,
    writer: &mut W,
) -> Result<(), WriteFault>
    ensures { Writes result (W.contents writer.old) (W.contents writer.new) (message_text way number message.now) }
{
    let told = told_of(message.body());
    print_told(way.word(), number, &told, line_end(message.port()), writer)
}

/// Writes a line: the word of a list and a place in it, the word of a kind and its fields, and the line's end.
pub fn print_told<'a, W: Write>(
    list: &'a [u8],
    number: u64,
    told: &Told<'a>,
    end: &[u8],
    writer: &mut W,
) -> Result<(), WriteFault>
    ensures { Writes result (W.contents writer.old) (W.contents writer.new) (told_text list.now number (held told.now) end.now) }
{
    write_parts(
        writer,
        &[
            Part::Text(list),
            Part::Number(number),
            Part::Text(b" "),
            Part::Text(told.kind.as_bytes()),
        ],
    )?;
    print_fields(&told.fields, writer)?;
    write_text(writer, end)
}

fn print_fields<W: Write>(fields: &[Field<'_>], writer: &mut W) -> Result<(), WriteFault>
    ensures { Writes result (W.contents writer.old) (W.contents writer.new) (spelt (map field_text fields.now)) }
{
    for field in fields {
        print_field(*field, writer)?;
    }
    Ok(())
}

fn print_field<W: Write>(field: Field<'_>, writer: &mut W) -> Result<(), WriteFault>
    ensures { Writes result (W.contents writer.old) (W.contents writer.new) (field_text field.entry) }
{
    let space = Part::Text(b" ");
    match field {
        Field::Id(id) => write_parts(
            writer,
            &[
                space,
                Part::Number(id.boot),
                Part::Text(b"."),
                Part::Number(id.seq),
            ],
        ),
        Field::Number(name, number) => print_named(name, Part::Number(number), writer),
        Field::Bytes(name, bytes) => print_named(name, Part::Hexadecimal(bytes), writer),
        Field::Plain(_, number) => write_parts(writer, &[space, Part::Number(number)]),
        Field::Word(_, word) => write_parts(writer, &[space, Part::Text(word.as_bytes())]),
        Field::Nothing => Ok(()),
    }
}

fn print_named<'a, W: Write>(
    name: &'a str,
    value: Part<'a>,
    writer: &mut W,
) -> Result<(), WriteFault>
    ensures { Writes result (W.contents writer.old) (W.contents writer.new)
        (spelt (codes " " ∷ name.now ∷ codes " " ∷ part_text value.entry ∷ [])) }
{
    let space = Part::Text(b" ");
    write_parts(writer, &[space, Part::Text(name.as_bytes()), space, value])
}
