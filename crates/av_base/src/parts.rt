//! Lines made of parts: text, numbers and bytes.

ghost use Rattle.std.specs.Prelude.{map};
ghost use Rattle.av_base.specs.Device.{Writes};
ghost use Rattle.hex.specs.Hex.{encode_lower};
ghost use Rattle.av_base.specs.Part.{digits_of, part_text, spelt};

use crate::device::{WriteFault, write_text};
use itoa::Buffer;
use std::io::Write;

/// A part of a line: text, a number in decimal digits, or bytes as pairs of hexadecimal digits of lower case.
#[derive(Clone, Copy)]
pub enum Part<'a> {
    Text(&'a [u8]),
    Number(u64),
    Hexadecimal(&'a [u8]),
}

/// Writes parts one behind the other. It takes no memory. Where that fails, a front of their text was written.
pub fn write_parts<W: Write>(writer: &mut W, parts: &[Part<'_>]) -> Result<(), WriteFault>
    ensures { Writes result (W.contents writer.old) (W.contents writer.new) (spelt (map part_text parts.now)) }
{
    for part in parts {
        if write_part(writer, *part).is_err() {
            return Err(WriteFault);
        }
    }
    Ok(())
}

fn write_part<W: Write>(writer: &mut W, part: Part<'_>) -> Result<(), WriteFault>
    ensures { Writes result (W.contents writer.old) (W.contents writer.new) (part_text part.entry) }
{
    match part {
        Part::Text(text) => write_text(writer, text),
        Part::Number(number) => {
            let mut buffer = Buffer::new();
            write_text(writer, buffer.format(number).as_bytes())
        }
        Part::Hexadecimal(bytes) => write_hexadecimal(writer, bytes),
    }
}

fn write_hexadecimal<W: Write>(writer: &mut W, bytes: &[u8]) -> Result<(), WriteFault>
    ensures { Writes result (W.contents writer.old) (W.contents writer.new) (encode_lower bytes.now) }
{
    for byte in bytes {
        if write_byte(writer, *byte).is_err() {
            return Err(WriteFault);
        }
    }
    Ok(())
}

fn write_byte<W: Write>(writer: &mut W, byte: u8) -> Result<(), WriteFault>
    ensures { Writes result (W.contents writer.old) (W.contents writer.new) (digits_of byte) }
{
    let mut digits = [0; 2];
    let Ok(()) = hex::encode_to_slice([byte].as_slice(), &mut digits) else {
        unreachable!();
    };
    write_text(writer, digits.as_slice())
}
