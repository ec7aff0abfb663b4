//! The bytes of a script and of a title as XML has them, and as a reader sees them.

ghost use Rattle.std.specs.Prelude.{◌≡◌, ◌++◌, map, IfOk, OnOk};
ghost use Rattle.av_base.specs.Part.{part_text, spelt};
ghost use Rattle.av_chart.specs.Escape.{escaped, escaped_byte, printed, printed_byte, short};

use av_base::Part;
use av_base::parts::write_parts;
use std::alloc::{AllocError, Global};

/// Puts bytes as the text of an element: printable ASCII as it is, but for the four signs of XML, which are entities, and any
/// other byte as `\x` and its two digits.
pub fn put_escaped(page: &mut Vec<u8>, bytes: &[u8]) -> Result<(), AllocError>
    ensures { OnOk result (page.new.items ≡ page.old.items ++ escaped bytes.now) }
{
    for byte in bytes {
        put_escaped_byte(page, *byte)?;
    }
    Ok(())
}

fn put_escaped_byte(page: &mut Vec<u8>, byte: u8) -> Result<(), AllocError>
    ensures { OnOk result (page.new.items ≡ page.old.items ++ escaped_byte byte) }
{
    match byte {
        b'&' => page.extend_from_slice(b"&amp;"),
        b'<' => page.extend_from_slice(b"&lt;"),
        b'>' => page.extend_from_slice(b"&gt;"),
        b'"' => page.extend_from_slice(b"&quot;"),
        _ => put_printed_byte(page, byte),
    }
}

// Puts a byte as a reader sees it.
fn put_printed_byte(page: &mut Vec<u8>, byte: u8) -> Result<(), AllocError>
    ensures { OnOk result (page.new.items ≡ page.old.items ++ printed_byte byte) }
{
    if byte >= 32 && byte <= 126 {
        page.push(byte)?;
        return Ok(());
    }
    put_parts(page, &[Part::Text(b"\\x"), Part::Hexadecimal(&[byte])])
}

/// Puts parts one behind the other.
pub fn put_parts(page: &mut Vec<u8>, parts: &[Part<'_>]) -> Result<(), AllocError>
    ensures { OnOk result (page.new.items ≡ page.old.items ++ spelt (map part_text parts.now)) }
{
    match write_parts(page, parts) {
        Ok(()) => Ok(()),
        Err(_) => Err(AllocError),
    }
}

/// Bytes as a reader sees them: those that are no printable ASCII as `\x` and two digits.
pub fn printed(alloc: Global, bytes: &[u8]) -> Result<Vec<u8>, AllocError>
    ensures { IfOk result (λ text. text.items ≡ printed bytes.now) }
{
    let mut text = Vec::new(alloc);
    for byte in bytes {
        put_printed_byte(&mut text, *byte)?;
    }
    Ok(text)
}

/// The same, of at most so many characters: the last two of a longer text are dots.
pub fn short(alloc: Global, bytes: &[u8], most: usize) -> Result<Vec<u8>, AllocError>
    ensures { IfOk result (λ text. text.items ≡ short most (printed bytes.now)) }
{
    let mut text = printed(alloc, bytes)?;
    shorten(&mut text, most)?;
    Ok(text)
}

/// Cuts a text of more than so many characters: its last two are dots then.
pub fn shorten(text: &mut Vec<u8>, most: usize) -> Result<(), AllocError>
    ensures { OnOk result (text.new.items ≡ short most text.old.items) }
{
    if text.len() > most {
        text.truncate(most.saturating_sub(2));
        text.extend_from_slice(b"..")?;
    }
    Ok(())
}
