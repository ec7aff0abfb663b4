ghost use Rattle.std.specs.Prelude.{◌+◌};
ghost use Rattle.std.specs.List.{between};
ghost use Rattle.av_json.specs.Member.{Puts};
ghost use Rattle.av_output.specs.Objects.Messages.{work_tokens};
ghost use Rattle.av_output.specs.Text.Messages.{placed};

use crate::objects::message::put_told;
use crate::part::part;
use crate::told::{of_kind, work_fields};
use av_base::Port;
use av_service::Work;
use json::Writer;
use std::alloc::{AllocError, Global};

/// Puts the objects of lent work from one place of its list up to another, both counted from 0. Work that came back has
/// none.
pub fn put_works(
    alloc: Global,
    works: &[Option<(Port, Work)>],
    from: u64,
    to: u64,
    line: &mut Writer,
) -> Result<(), AllocError>
    ensures { Puts result line.old line.new (placed work_tokens (from + 1) (between from to works.now)) }
{
    for (index, work) in part(works, from, to).iter().enumerate() {
        let number = from + index as u64 + 1;
        put_work(alloc, number, work, line)?;
    }
    Ok(())
}

fn put_work(
    alloc: Global,
    number: u64,
    work: &Option<(Port, Work)>,
    line: &mut Writer,
) -> Result<(), AllocError>
    ensures { Puts result line.old line.new (work_tokens number work.now) }
{
    let Some((port, work)) = work else {
        return Ok(());
    };
    let told = of_kind("work", work_fields(work));
    put_told(alloc, "work", number, &told, *port, line)
}
