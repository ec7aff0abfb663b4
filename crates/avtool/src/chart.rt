ghost use Rattle.std.specs.Prelude.{◌≡◌, ◌≢◌, None};
ghost use Rattle.av_chart.specs.Chart.{Draws};
ghost use Rattle.av_script.specs.Output.{IsOfRead};
ghost use Rattle.av_status.specs.declared.status.Status.TheVariants.{Done, Refused, Usage};
ghost use Rattle.avtool.specs.Chart.{IsFaultOf, lines_for, status_of, title_of};

use av_base::Part;
use av_base::recorded::{Recorded, RecordedRead};
use av_chart::{ChartFault, Lines, write_chart};
use av_files::TURNS;
use av_program::{Source, say_why};
use av_status::faults::{
    bad_script, device_failed, out_of_memory, say, script_too_long, text, unreadable,
};
use av_status::status::Status;
use avtool_words::Chart;
use std::alloc::Global;
use std::fs;
use std::io::Write;
use std::path::Path;

/// Draws the run of the script in this file, or on standard input for `-`: of these lines.
pub fn chart_named<W: Write, E: Write>(
    rt: &HostRuntime,
    alloc: Global,
    asked: Chart<'_>,
    out: &mut W,
    err: &mut E,
) -> Status
    ensures done { result ≡ Done → IsOfRead None (Draws (lines_for asked.entry) (title_of asked.entry.script.now) (W.contents out.old) (W.contents out.new)) }
    ensures failed { result ≢ Done → IsFaultOf (lines_for asked.entry) (title_of asked.entry.script.now) None (W.contents out.old) (W.contents out.new) result }
    ensures words { result ≢ Usage }
{
    let script = asked.script;
    let title = title_of(script);
    let lines = Lines {
        from: asked.from,
        to: asked.to,
    };
    if script == "-" {
        return chart(
            alloc,
            title,
            lines,
            &mut Recorded::new(rt.stdin()),
            out,
            err,
        );
    }
    match fs::open(rt, script) {
        Ok(file) => chart(alloc, title, lines, &mut Recorded::new(file), out, err),
        Err(_) => {
            let status = unreadable(err, script);
            say_why(rt, alloc, script, Source::Other, err);
            status
        }
    }
}

// Draws the run of the script that a reader gives, under this title.
fn chart<R: RecordedRead, W: Write, E: Write>(
    alloc: Global,
    title: &str,
    lines: Lines,
    reader: &mut R,
    out: &mut W,
    err: &mut E,
) -> Status
    ensures done { result ≡ Done → IsOfRead (R.remaining reader.old) (Draws lines title.now (W.contents out.old) (W.contents out.new)) }
    ensures failed { result ≢ Done → IsFaultOf lines title.now (R.remaining reader.old) (W.contents out.old) (W.contents out.new) result }
    ensures words { result ≢ Usage }
{
    match write_chart(alloc, title.as_bytes(), lines, reader, out, TURNS) {
        Ok(()) => Status::Done,
        Err(fault) => failed(err, lines, fault),
    }
}

// Says why no picture was drawn.
fn failed<E: Write>(err: &mut E, lines: Lines, fault: ChartFault) -> Status
    ensures { result ≡ status_of fault }
{
    match fault {
        ChartFault::Read | ChartFault::Write => device_failed(err),
        ChartFault::TooLong => script_too_long(err),
        ChartFault::BadScript { line } => bad_script(err, line),
        ChartFault::NoLines => no_command(err, lines),
        ChartFault::NoMemory => out_of_memory(err),
    }
}

// The title of the picture of a script in a file.
fn title_of(path: &str) -> &str
    ensures { result.now ≡ title_of path.now }
{
    Path::new(path).file_name().unwrap_or(path)
}

fn no_command<E: Write>(err: &mut E, lines: Lines) -> Status
    ensures { result ≡ Refused }
{
    say(
        err,
        &[
            text("no command from line "),
            Part::Number(lines.from),
            text(" to line "),
            Part::Number(lines.to),
        ],
    );
    Status::Refused
}
