ghost use Rattle.av_base.specs.Device.{Writes};
ghost use Rattle.av_output.specs.Text.Lines.{judged_text};

use av_base::parts::write_parts;
use av_base::{Part, Verdict, WriteFault};
use av_history::report::Judged;
use std::io::Write;

/// Writes the line of a judgement.
pub fn print_judged<W: Write>(judged: &Judged, writer: &mut W) -> Result<(), WriteFault>
    ensures { Writes result (W.contents writer.old) (W.contents writer.new) (judged_text judged.now) }
{
    let stream = judged.stream.get();
    let generation = judged.generation.get();
    let version = judged.version.get();
    match judged.verdict {
        Verdict::Clean => write_parts(
            writer,
            &[
                Part::Text(b"judge "),
                Part::Number(stream),
                Part::Text(b" generation "),
                Part::Number(generation),
                Part::Text(b" version "),
                Part::Number(version),
                Part::Text(b" clean\n"),
            ],
        ),
        Verdict::Infected { index, end_at } => write_parts(
            writer,
            &[
                Part::Text(b"judge "),
                Part::Number(stream),
                Part::Text(b" generation "),
                Part::Number(generation),
                Part::Text(b" version "),
                Part::Number(version),
                Part::Text(b" infected "),
                Part::Number(u64::from(index)),
                Part::Text(b" end "),
                Part::Number(end_at),
                Part::Text(b"\n"),
            ],
        ),
    }
}
