ghost use Rattle.std.specs.Prelude.{◌≡◌, ◌++◌, ◌∷◌, [], IfOk, OnOk};
ghost use Rattle.av_files.specs.Quoted.{IsOneLine, escape, escaped, escaped_byte, first_of, has_control, is_control, is_late, is_quoted, octal, quoted};

use std::alloc::AllocError;

/// A file's name as a line of words has it. One with a control character, or with a double quote in front, stands in double quotes
/// with escapes as in C, so that no name makes a line of its own or commands a terminal. Any other is as it is. `room` holds a name in
/// quotes.
pub fn quoted_name<'a>(name: &'a [u8], room: &'a mut Vec<u8>) -> Result<&'a [u8], AllocError>
    ensures name { IfOk result (λ shown. shown.now ≡ quoted name.now) }
    ensures line { IfOk result (λ shown. IsOneLine shown.now) }
{
    if !is_quoted(name) {
        return Ok(name);
    }
    put_quoted(name, room)?;
    Ok(room.as_slice())
}

// Puts a name in quotes into the room.
fn put_quoted(name: &[u8], room: &mut Vec<u8>) -> Result<(), AllocError>
    ensures { OnOk result (room.new.items ≡ 34 ∷ (escaped 0 name.now ++ 34 ∷ [])) }
{
    room.clear();
    room.push(b'"')?;
    put_escaped(name, room)?;
    room.push(b'"')?;
    Ok(())
}

// Puts the bytes of a name between quotes.
fn put_escaped(name: &[u8], room: &mut Vec<u8>) -> Result<(), AllocError>
    ensures { OnOk result (room.new.items ≡ room.old.items ++ escaped 0 name.now) }
{
    let mut before = 0u8;
    let mut rest = name;
    'bytes: while let Some((byte, below)) = rest.split_first() {
        put_byte(before, *byte, first_of(below), room)?;
        before = *byte;
        rest = below;
    }
    Ok(())
}

// Puts a byte between quotes, by the bytes on its two sides.
fn put_byte(before: u8, byte: u8, next: u8, room: &mut Vec<u8>) -> Result<(), AllocError>
    ensures { OnOk result (room.new.items ≡ room.old.items ++ escaped_byte before byte next) }
{
    if is_control(before, byte, next) {
        return put_escape(byte, room);
    }
    if byte == b'"' || byte == b'\\' {
        return room.extend_from_slice(&[b'\\', byte]);
    }
    room.extend_from_slice(&[byte])
}

// Puts a byte of a control character.
fn put_escape(byte: u8, room: &mut Vec<u8>) -> Result<(), AllocError>
    ensures { OnOk result (room.new.items ≡ room.old.items ++ escape byte) }
{
    match byte {
        7 => room.extend_from_slice(b"\\a"),
        8 => room.extend_from_slice(b"\\b"),
        9 => room.extend_from_slice(b"\\t"),
        10 => room.extend_from_slice(b"\\n"),
        11 => room.extend_from_slice(b"\\v"),
        12 => room.extend_from_slice(b"\\f"),
        13 => room.extend_from_slice(b"\\r"),
        _ => room.extend_from_slice(&octal(byte)),
    }
}

// A byte in octal.
fn octal(byte: u8) -> [u8; 4]
    ensures { result ≡ octal byte }
{
    [
        b'\\',
        b'0' + byte / 64,
        b'0' + byte / 8 % 8,
        b'0' + byte % 8,
    ]
}

fn is_quoted(name: &[u8]) -> bool
    ensures { result ≡ is_quoted name.now }
{
    has_control(name) || first_of(name) == b'"'
}

fn has_control(name: &[u8]) -> bool
    ensures { result ≡ has_control 0 name.now }
{
    let mut before = 0u8;
    let mut rest = name;
    'bytes: while let Some((byte, below)) = rest.split_first() {
        if is_control(before, *byte, first_of(below)) {
            return true;
        }
        before = *byte;
        rest = below;
    }
    false
}

// Whether a byte is of a control character, by the bytes on its two sides.
fn is_control(before: u8, byte: u8, next: u8) -> bool
    ensures { result ≡ is_control before byte next }
{
    byte < 32 || byte == 127 || (byte == 0xc2 && is_late(next)) || (before == 0xc2 && is_late(byte))
}

fn is_late(byte: u8) -> bool
    ensures { result ≡ is_late byte }
{
    byte > 127 && byte < 160
}

fn first_of(bytes: &[u8]) -> u8
    ensures { result ≡ first_of bytes.now }
{
    match bytes.first() {
        Some(byte) => *byte,
        None => 0,
    }
}
