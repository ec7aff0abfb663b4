ghost use Rattle.av_base.specs.Device.{Writes};
ghost use Rattle.av_output.specs.Text.Lines.{line_text};
ghost use Rattle.av_history.specs.declared.report.Line.TheVariants.{Booted, Changed, Created, Published, Removed};

use av_base::parts::write_parts;
use av_base::{Generation, Part, StreamId, Version, WriteFault};
use av_history::report::Line;
use std::io::Write;

/// Writes a step's own line, if it has one.
pub fn print_line<W: Write>(line: &Line, writer: &mut W) -> Result<(), WriteFault>
    ensures { Writes result (W.contents writer.old) (W.contents writer.new) (line_text line.now) }
{
    match *line {
        Line::Silent => Ok(()),
        Line::Published {
            version,
            signatures,
        } => print_published(version, signatures, writer),
        Line::Created { stream } => print_created(stream, writer),
        Line::Changed {
            stream,
            generation,
            length,
        } => print_changed(stream, generation, length, writer),
        Line::Removed { stream } => print_removed(stream, writer),
        Line::Booted { boot } => print_booted(boot, writer),
    }
}

fn print_published<W: Write>(
    version: Version,
    signatures: u64,
    writer: &mut W,
) -> Result<(), WriteFault>
    ensures { Writes result (W.contents writer.old) (W.contents writer.new) (line_text (Published version signatures)) }
{
    write_parts(
        writer,
        &[
            Part::Text(b"version "),
            Part::Number(version.get()),
            Part::Text(b" signatures "),
            Part::Number(signatures),
            Part::Text(b"\n"),
        ],
    )
}

fn print_created<W: Write>(stream: StreamId, writer: &mut W) -> Result<(), WriteFault>
    ensures { Writes result (W.contents writer.old) (W.contents writer.new) (line_text (Created stream)) }
{
    write_parts(
        writer,
        &[
            Part::Text(b"stream "),
            Part::Number(stream.get()),
            Part::Text(b" generation 1\n"),
        ],
    )
}

fn print_changed<W: Write>(
    stream: StreamId,
    generation: Generation,
    length: u64,
    writer: &mut W,
) -> Result<(), WriteFault>
    ensures { Writes result (W.contents writer.old) (W.contents writer.new) (line_text (Changed stream generation length)) }
{
    write_parts(
        writer,
        &[
            Part::Text(b"stream "),
            Part::Number(stream.get()),
            Part::Text(b" generation "),
            Part::Number(generation.get()),
            Part::Text(b" length "),
            Part::Number(length),
            Part::Text(b"\n"),
        ],
    )
}

fn print_removed<W: Write>(stream: StreamId, writer: &mut W) -> Result<(), WriteFault>
    ensures { Writes result (W.contents writer.old) (W.contents writer.new) (line_text (Removed stream)) }
{
    write_parts(
        writer,
        &[
            Part::Text(b"removed "),
            Part::Number(stream.get()),
            Part::Text(b"\n"),
        ],
    )
}

fn print_booted<W: Write>(boot: u64, writer: &mut W) -> Result<(), WriteFault>
    ensures { Writes result (W.contents writer.old) (W.contents writer.new) (line_text (Booted boot)) }
{
    write_parts(
        writer,
        &[Part::Text(b"boot "), Part::Number(boot), Part::Text(b"\n")],
    )
}
