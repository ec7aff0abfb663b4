ghost use Rattle.std.specs.Prelude.{◌+◌};
ghost use Rattle.std.specs.List.{between};
ghost use Rattle.av_base.specs.Device.{Writes};
ghost use Rattle.av_output.specs.Text.Messages.{placed, work_text};

use crate::message::{line_end, print_told};
use crate::part::part;
use crate::told::{of_kind, work_fields};
use av_base::{Port, WriteFault};
use av_service::Work;
use std::io::Write;

/// Writes the lines of lent work from one place of its list up to another, both counted from 0. Work that came back has
/// no line.
pub fn print_works<W: Write>(
    works: &[Option<(Port, Work)>],
    from: u64,
    to: u64,
    writer: &mut W,
) -> Result<(), WriteFault>
    ensures { Writes result (W.contents writer.old) (W.contents writer.new)
        (placed work_text (from + 1) (between from to works.now)) }
{
    for (index, work) in part(works, from, to).iter().enumerate() {
        let number = from + index as u64 + 1;
        print_work(number, work, writer)?;
    }
    Ok(())
}

fn print_work<W: Write>(
    number: u64,
    work: &Option<(Port, Work)>,
    writer: &mut W,
) -> Result<(), WriteFault>
    ensures { Writes result (W.contents writer.old) (W.contents writer.new) (work_text number work.now) }
{
    let Some((port, work)) = work else {
        return Ok(());
    };
    let told = of_kind("lent", work_fields(work));
    print_told(b"work ", number, &told, line_end(*port), writer)
}
