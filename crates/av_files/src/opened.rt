ghost use Rattle.std.specs.Prelude.{◌≡◌};
ghost use Rattle.std.specs.Io.KnownBytes.{Appends};
ghost use Rattle.av_base.specs.Device.{AppendsPrefix, Writes};
ghost use Rattle.av_files.specs.Opened.{answer_text, denied_text, ended_tally, is_granted, line_of, object_of, opened_line, opened_lines, tally_from, unscanned_text, worst_of};
ghost use Rattle.av_status.specs.Status.{IsDoneOrFault};
ghost use Rattle.av_status.specs.Tally.{concluded};
ghost use Rattle.av_status.specs.declared.status.Status.TheVariants.{Done};
ghost use Rattle.av_status.specs.declared.tally.Form.TheVariants.{Lines, ZeroEnded};

use crate::object::{line_failed, new_line};
use crate::quoted::quoted_name;
use av_base::parts::write_parts;
use av_base::{Cause, Generation, Part, WriteFault};
use av_json::{LineFault, put_opened, write_line};
use av_pend::Answer;
use av_status::faults::device_failed;
use av_status::status::Status;
use av_status::tally::{Form, Tally, Wishes, conclude};
use std::alloc::Global;
use std::io::Write;

/// A file that was opened: its name and what its open was told.
#[derive(Clone, Copy)]
pub struct Opened<'a> {
    pub name: &'a str,
    pub answer: Answer,
}

/// Writes a line for each file that was opened, as far as it is to be shown, and leaves none in a buffer. Where that fails a front of
/// these lines was written.
#[tactic(auto, using(av_base::proofs::DeviceLemmas::prefix_whole))]
pub fn print_opened<W: Write, E: Write>(
    alloc: Global,
    opened: &[Opened<'_>],
    wishes: Wishes,
    out: &mut W,
    err: &mut E,
) -> Status
    ensures lines { result ≡ Done → Appends (W.contents out.old) (W.contents out.new) (opened_lines wishes opened.now) }
    ensures front { AppendsPrefix (W.contents out.old) (W.contents out.new) (opened_lines wishes opened.now) }
    ensures ended { IsDoneOrFault result }
{
    if let Err(fault) = print_lines(alloc, opened, wishes, out) {
        return line_failed(err, fault);
    }
    if out.flush().is_err() {
        return device_failed(err);
    }
    Status::Done
}

/// Counts files that were opened: one counts as scanned where it was granted, or denied since a signature occurs in it. Any other was
/// judged by nobody, and counts as missed for a device fault.
pub fn count_opened(tally: &mut Tally, opened: &[Opened<'_>])
    ensures { tally.new ≡ tally_from tally.old opened.now }
{
    for file in opened {
        match file.answer {
            Answer::Granted { .. } => tally.add_scanned(false),
            Answer::Denied {
                cause: Cause::Infected,
                ..
            } => tally.add_scanned(true),
            _ => tally.add_missed(Status::Device),
        }
    }
}

/// Ends a run in which so many files were to be opened: those that were are counted, and that ended with this status. Where it ended
/// well, what nobody has judged is still a fault.
pub fn conclude_opened<E: Write>(
    tally: Tally,
    files: usize,
    ended: Status,
    wishes: Wishes,
    err: &mut E,
) -> Status
    ensures { result ≡ concluded wishes (ended_tally tally files ended) }
{
    let tally = Tally {
        missed: (files as u64).saturating_sub(tally.scanned),
        worst: worst_of(ended, tally.worst),
        ..tally
    };
    conclude(err, tally, wishes)
}

// How the opens ended: with this status, or with that of what was not judged.
fn worst_of(ended: Status, counted: Status) -> Status
    ensures { result ≡ worst_of ended counted }
{
    match ended {
        Status::Done => counted,
        failed => failed,
    }
}

fn print_lines<W: Write>(
    alloc: Global,
    opened: &[Opened<'_>],
    wishes: Wishes,
    out: &mut W,
) -> Result<(), LineFault>
    ensures { Writes result (W.contents out.old) (W.contents out.new) (opened_lines wishes opened.now) }
{
    let mut room = Vec::new(alloc);
    for file in opened {
        match print_shown(alloc, file, wishes, &mut room, out) {
            Ok(()) => {}
            Err(fault) => return Err(fault),
        }
    }
    Ok(())
}

// Writes the line of a file, where it is to be shown.
fn print_shown<W: Write>(
    alloc: Global,
    file: &Opened<'_>,
    wishes: Wishes,
    room: &mut Vec<u8>,
    out: &mut W,
) -> Result<(), LineFault>
    ensures { Writes result (W.contents out.old) (W.contents out.new) (opened_line wishes file.now) }
{
    if wishes.shown.has_line(!is_granted(file.answer)) {
        print_in(alloc, wishes.form, file, room, out)
    } else {
        Ok(())
    }
}

// Writes the line of a file in this form.
fn print_in<W: Write>(
    alloc: Global,
    form: Form,
    file: &Opened<'_>,
    room: &mut Vec<u8>,
    out: &mut W,
) -> Result<(), LineFault>
    ensures { Writes result (W.contents out.old) (W.contents out.new) (line_of form file.now) }
{
    match form {
        Form::Lines => print_line(file, room, out),
        Form::Json => print_object(alloc, file, room, out),
        Form::ZeroEnded => print_ended(file, out),
    }
}

// Writes the line of a file in words, and its name in quotes where it needs them.
fn print_line<W: Write>(file: &Opened<'_>, room: &mut Vec<u8>, out: &mut W) -> Result<(), LineFault>
    ensures { Writes result (W.contents out.old) (W.contents out.new) (line_of Lines file.now) }
{
    let Ok(name) = quoted_name(file.name.as_bytes(), room) else {
        return Err(LineFault::NoMemory);
    };
    match print_answer(name, file.answer, b"\n", out) {
        Ok(()) => Ok(()),
        Err(_) => Err(LineFault::Write),
    }
}

// Writes the line of a file in words under its name as it is, ended by a zero byte.
fn print_ended<W: Write>(file: &Opened<'_>, out: &mut W) -> Result<(), LineFault>
    ensures { Writes result (W.contents out.old) (W.contents out.new) (line_of ZeroEnded file.now) }
{
    match print_answer(file.name.as_bytes(), file.answer, b"\0", out) {
        Ok(()) => Ok(()),
        Err(_) => Err(LineFault::Write),
    }
}

// Writes the object of a file.
fn print_object<W: Write>(
    alloc: Global,
    file: &Opened<'_>,
    room: &mut Vec<u8>,
    out: &mut W,
) -> Result<(), LineFault>
    ensures { Writes result (W.contents out.old) (W.contents out.new) (object_of file.now) }
{
    let mut line = new_line(alloc, room);
    if put_opened(alloc, &mut line, file.name.as_bytes(), file.answer).is_err() {
        return Err(LineFault::NoMemory);
    }
    *room = write_line(line, out)?;
    Ok(())
}

fn is_granted(answer: Answer) -> bool
    ensures { result ≡ is_granted answer }
{
    match answer {
        Answer::Granted { .. } => true,
        _ => false,
    }
}

// Writes the line of what an open was told.
fn print_answer<'a, W: Write>(
    name: &'a [u8],
    answer: Answer,
    end: &'a [u8],
    out: &mut W,
) -> Result<(), WriteFault>
    ensures { Writes result (W.contents out.old) (W.contents out.new) (answer_text name.now answer end.now) }
{
    match answer {
        Answer::Granted {
            generation,
            version,
            ..
        } => write_parts(
            out,
            &[
                Part::Text(name),
                Part::Text(b" granted generation ".as_slice()),
                Part::Number(generation.get()),
                Part::Text(b" version ".as_slice()),
                Part::Number(version.get()),
                Part::Text(end),
            ],
        ),
        Answer::Unscanned {
            generation,
            cause,
            ..
        } => print_unscanned(name, generation, cause, end, out),
        Answer::Denied { cause, .. } => print_denied(name, cause, end, out),
    }
}

fn print_unscanned<'a, W: Write>(
    name: &'a [u8],
    generation: Generation,
    cause: Cause,
    end: &'a [u8],
    out: &mut W,
) -> Result<(), WriteFault>
    ensures { Writes result (W.contents out.old) (W.contents out.new) (unscanned_text name.now generation cause end.now) }
{
    write_parts(
        out,
        &[
            Part::Text(name),
            Part::Text(b" unscanned generation "),
            Part::Number(generation.get()),
            Part::Text(b" cause "),
            Part::Number(u64::from(cause.number())),
            Part::Text(end),
        ],
    )
}

fn print_denied<'a, W: Write>(
    name: &'a [u8],
    cause: Cause,
    end: &'a [u8],
    out: &mut W,
) -> Result<(), WriteFault>
    ensures { Writes result (W.contents out.old) (W.contents out.new) (denied_text name.now cause end.now) }
{
    write_parts(
        out,
        &[
            Part::Text(name),
            Part::Text(b" denied cause "),
            Part::Number(u64::from(cause.number())),
            Part::Text(end),
        ],
    )
}
