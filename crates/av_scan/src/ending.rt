// How a run ends behind the lines of its files.

ghost use Rattle.std.specs.Prelude.{◌≡◌};
ghost use Rattle.av_base.specs.Device.{Writes};
ghost use Rattle.av_json.specs.Line.{object_line};
ghost use Rattle.av_json.specs.Member.{Puts};
ghost use Rattle.av_scan.specs.Outcome.{IsEndOf, counts_text, counts_tokens, ended_status};

use av_base::Part;
use av_files::line_failed;
use av_json::{LineFault, Member, Writer, put_object, write_line};
use av_status::faults::{device_failed, say, text};
use av_status::{Form, Progress, Status, Tally, Wishes, conclude};
use std::alloc::{AllocError, Global};
use std::io::Write;
use std::time::Clock;

/// Writes the counts, where they are wanted, leaves no line in a buffer, and ends the run. `left_out` says how many entries were left
/// out, where that was asked for.
#[tactic(auto, using(crate::proofs::EndLemmas::ended_well))]
pub(crate) fn end_well<C: Clock, W: Write, E: Write>(
    alloc: Global,
    tally: Tally,
    wishes: Wishes,
    left_out: Option<u64>,
    out: &mut W,
    err: &mut Progress<'_, C, E>,
) -> Status
    ensures { IsEndOf wishes tally left_out (W.contents out.old) (W.contents out.new) result }
{
    err.wipe();
    if let Err(fault) = print_counts(alloc, tally, wishes, left_out, out) {
        return tally.worst.or_graver(line_failed(err, fault));
    }
    if out.flush().is_err() {
        return tally.worst.or_graver(device_failed(err));
    }
    say_counts(tally, wishes, left_out, err);
    status_of(tally, wishes)
}

// The status of a run in which nothing failed behind its files. One that has scanned nothing is no good end.
fn status_of(tally: Tally, wishes: Wishes) -> Status
    ensures { result ≡ ended_status wishes tally }
{
    if tally.scanned == 0 {
        tally.worst.or_graver(Status::Refused)
    } else {
        tally.status(wishes)
    }
}

// Says the counts, where they are wanted, and that nothing was scanned, where no line has said why.
fn say_counts<E: Write>(tally: Tally, wishes: Wishes, left_out: Option<u64>, err: &mut E) {
    match left_out {
        None => {
            let _ = conclude(err, tally, wishes);
        }
        Some(left_out) if wishes.has_summary => say(
            err,
            &[
                Part::Number(tally.scanned),
                text(" files scanned, "),
                Part::Number(tally.infected),
                text(" infected, "),
                Part::Number(tally.missed),
                text(" not scanned, "),
                Part::Number(left_out),
                text(" left out"),
            ],
        ),
        Some(_) => {}
    }
    if tally.scanned == 0 && tally.missed == 0 {
        say(err, &[text("no file was scanned")]);
    }
}

// Writes the object of the counts, where it is wanted.
fn print_counts<W: Write>(
    alloc: Global,
    tally: Tally,
    wishes: Wishes,
    left_out: Option<u64>,
    out: &mut W,
) -> Result<(), LineFault>
    ensures { Writes result (W.contents out.old) (W.contents out.new) (counts_text wishes tally left_out) }
{
    if !wishes.has_summary {
        return Ok(());
    }
    match wishes.form {
        Form::Json => print_object(alloc, tally, left_out, out),
        Form::Lines | Form::ZeroEnded => Ok(()),
    }
}

fn print_object<W: Write>(
    alloc: Global,
    tally: Tally,
    left_out: Option<u64>,
    out: &mut W,
) -> Result<(), LineFault>
    ensures { Writes result (W.contents out.old) (W.contents out.new) (object_line (counts_tokens tally left_out)) }
{
    let mut line = Writer::new(Vec::new(alloc));
    if put_counts(&mut line, tally, left_out).is_err() {
        return Err(LineFault::NoMemory);
    }
    write_line(line, out)?;
    Ok(())
}

fn put_counts(line: &mut Writer, tally: Tally, left_out: Option<u64>) -> Result<(), AllocError>
    ensures { Puts result line.old line.new (counts_tokens tally left_out) }
{
    let scanned = Member::Number("scanned", tally.scanned);
    let infected = Member::Number("infected", tally.infected);
    let missed = Member::Number("not_scanned", tally.missed);
    match left_out {
        None => put_object(line, &[scanned, infected, missed]),
        Some(left_out) => put_object(
            line,
            &[
                scanned,
                infected,
                missed,
                Member::Number("left_out", left_out),
            ],
        ),
    }
}
