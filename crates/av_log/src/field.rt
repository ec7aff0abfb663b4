//! What a line says, one item after the other, and how it is said in words.

ghost use Rattle.std.specs.Prelude.{◌≡◌, ◌<◌, ◌++◌, ◌∷◌, [], map, OnOk};
ghost use Rattle.std.specs.Char.{digit_char};
ghost use Rattle.av_log.specs.Words.{escaped, escaped_byte, is_plain, item_of, item_text, items_text, words_line};

use itoa::Buffer;
use std::alloc::AllocError;

/// An item of a line.
#[derive(Clone, Copy)]
pub enum Field<'a> {
    /// A word that no other program chose.
    Word(&'a str, &'a str),
    Number(&'a str, u64),
    /// Bytes that others chose. Where they are no UTF-8, an object has their hexadecimal digits under the second name.
    Bytes(&'a str, &'a str, &'a [u8]),
}

/// Puts the line of some fields in words.
pub fn put_words(out: &mut Vec<u8>, stamp: &[u8], fields: &[Field<'_>]) -> Result<(), AllocError>
    ensures { OnOk result (out.new.items ≡ out.old.items ++ words_line stamp.now (map item_of fields.now)) }
{
    out.extend_from_slice(b"time=")?;
    out.extend_from_slice(stamp)?;
    put_items(out, fields)?;
    out.push(b'\n')?;
    Ok(())
}

fn put_items(out: &mut Vec<u8>, fields: &[Field<'_>]) -> Result<(), AllocError>
    ensures { OnOk result (out.new.items ≡ out.old.items ++ items_text (map item_of fields.now)) }
{
    for field in fields {
        put_spaced(out, *field)?;
    }
    Ok(())
}

fn put_spaced(out: &mut Vec<u8>, field: Field<'_>) -> Result<(), AllocError>
    ensures { OnOk result (out.new.items ≡ out.old.items ++ (32 ∷ item_text (item_of field.entry))) }
{
    out.push(b' ')?;
    put_item(out, field)
}

fn put_item(out: &mut Vec<u8>, field: Field<'_>) -> Result<(), AllocError>
    ensures { OnOk result (out.new.items ≡ out.old.items ++ item_text (item_of field.entry)) }
{
    match field {
        Field::Word(name, text) => {
            put_name(out, name)?;
            out.extend_from_slice(text.as_bytes())
        }
        Field::Number(name, number) => {
            put_name(out, name)?;
            let mut buffer = Buffer::new();
            out.extend_from_slice(buffer.format(number).as_bytes())
        }
        Field::Bytes(name, _, text) => {
            put_name(out, name)?;
            put_quoted(out, text)
        }
    }
}

fn put_name(out: &mut Vec<u8>, name: &str) -> Result<(), AllocError>
    ensures { OnOk result (out.new.items ≡ out.old.items ++ (name.now ++ 61 ∷ [])) }
{
    out.extend_from_slice(name.as_bytes())?;
    out.push(b'=')?;
    Ok(())
}

// Puts bytes in quotes.
fn put_quoted(out: &mut Vec<u8>, text: &[u8]) -> Result<(), AllocError>
    ensures { OnOk result (out.new.items ≡ out.old.items ++ (34 ∷ (escaped text.now ++ 34 ∷ []))) }
{
    out.push(b'"')?;
    put_escaped(out, text)?;
    out.push(b'"')?;
    Ok(())
}

fn put_escaped(out: &mut Vec<u8>, text: &[u8]) -> Result<(), AllocError>
    ensures { OnOk result (out.new.items ≡ out.old.items ++ escaped text.now) }
{
    let mut rest = text;
    'bytes: while let Some((byte, below)) = rest.split_first() {
        put_byte(out, *byte)?;
        rest = below;
    }
    Ok(())
}

fn put_byte(out: &mut Vec<u8>, byte: u8) -> Result<(), AllocError>
    ensures { OnOk result (out.new.items ≡ out.old.items ++ escaped_byte byte) }
{
    if is_plain(byte) {
        return out.extend_from_slice(&[byte]);
    }
    out.extend_from_slice(&[b'\\', b'x', digit(byte / 16 % 16), digit(byte % 16)])
}

// Whether a byte is shown as it is.
fn is_plain(byte: u8) -> bool
    ensures { result ≡ is_plain byte }
{
    32 <= byte && byte <= 126 && !(byte == b'"' || byte == b'\\')
}

// A hexadecimal digit.
fn digit(value: u8) -> u8
    requires { value < 16 }
    ensures { result ≡ digit_char value }
{
    if value < 10 {
        b'0' + value
    } else {
        b'a' + (value - 10)
    }
}
