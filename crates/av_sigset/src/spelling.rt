//! Sets written as signature files.
ghost use Rattle.std.specs.Prelude.{◌≡◌, map, OnOk};
ghost use Rattle.hex.specs.Hex.{IsBytes};
ghost use Rattle.av_base.specs.Device.{Writes};
ghost use Rattle.av_base.specs.Part.{spelt};
ghost use Rattle.av_sigset.specs.Spelling.{AreBytes, ReadsBack, format_for, head_text, is_widest, line_text, spelling};

use crate::format::{Format, header_of};
use crate::signature::{MAX_PLACE, Signature, Span};
use av_base::parts::write_parts;
use av_base::{Part, Version, WriteFault};
use std::io::Write;

/// Writes the signature file of these signatures under a version: of format 1 where each may begin anywhere, and else of format 2.
/// Such a file is read back as the same set, where the signatures may stand in a file and the version isn't 0. It takes no memory.
/// Where a write fails, a front of the file was written.
pub fn write_signatures<W: Write>(
    version: Version,
    signatures: &[Signature],
    writer: &mut W,
) -> Result<(), WriteFault>
    ensures writes { Writes result (W.contents writer.old) (W.contents writer.new)
        (spelling (record { version = version; signatures = signatures.now })) }
    ensures reads_back { OnOk result (ReadsBack (record { version = version; signatures = signatures.now })) }
{
    write_head(format_for(signatures), version.get(), writer)?;
    write_lines(signatures, writer)
}

// Writes the first two lines.
fn write_head<W: Write>(format: Format, version: u64, writer: &mut W) -> Result<(), WriteFault>
    ensures { Writes result (W.contents writer.old) (W.contents writer.new) (head_text format version) }
{
    let header = Part::Text(header_of(format));
    let word = Part::Text(b"\nversion ".as_slice());
    let end = Part::Text(b"\n".as_slice());
    write_parts(writer, &[header, word, Part::Number(version), end])
}

// Writes a line for each signature.
fn write_lines<W: Write>(signatures: &[Signature], writer: &mut W) -> Result<(), WriteFault>
    ensures writes { Writes result (W.contents writer.old) (W.contents writer.new) (spelt (map line_text signatures.now)) }
    ensures bytes { OnOk result (AreBytes signatures.now) }
{
    for signature in signatures {
        if write_line(signature, writer).is_err() {
            return Err(WriteFault);
        }
    }
    Ok(())
}

fn write_line<W: Write>(signature: &Signature, writer: &mut W) -> Result<(), WriteFault>
    ensures writes { Writes result (W.contents writer.old) (W.contents writer.new) (line_text signature.now) }
    ensures bytes { let s = signature.now in IsBytes s.pattern.bytes }
{
    let bytes = signature.pattern.bytes.as_slice();
    tell_bytes(bytes);
    let name = Part::Text(signature.name.as_slice());
    let digits = Part::Hexadecimal(bytes);
    let space = Part::Text(b" ".as_slice());
    let end = Part::Text(b"\n".as_slice());
    let span = signature.pattern.span;
    if is_widest(span) {
        write_parts(writer, &[name, space, digits, end])
    } else {
        let low = Part::Number(span.low);
        let high = Part::Number(span.high);
        write_parts(writer, &[name, space, digits, space, low, space, high, end])
    }
}

// What a slice of bytes holds is below 256.
fn tell_bytes(bytes: &[u8])
    ensures { IsBytes bytes.now }
{}

// Format 1 where each may begin anywhere.
fn format_for(signatures: &[Signature]) -> Format
    ensures { result ≡ format_for signatures.now }
{
    for signature in signatures {
        if !is_widest(signature.pattern.span) {
            return Format::Two;
        }
    }
    Format::One
}

fn is_widest(span: Span) -> bool
    ensures { result ≡ is_widest span }
{
    span.low == 0 && span.high == MAX_PLACE
}
