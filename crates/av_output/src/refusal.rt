ghost use Rattle.av_base.specs.Device.{Writes};
ghost use Rattle.av_history.specs.Refusals.{refused_text};

use av_base::parts::write_parts;
use av_base::{Part, WriteFault};
use std::io::Write;

/// Writes the line of a refusal.
pub fn print_refused<W: Write>(word: &str, writer: &mut W) -> Result<(), WriteFault>
    ensures { Writes result (W.contents writer.old) (W.contents writer.new) (refused_text word.now) }
{
    write_parts(
        writer,
        &[
            Part::Text(b"refused "),
            Part::Text(word.as_bytes()),
            Part::Text(b"\n"),
        ],
    )
}
