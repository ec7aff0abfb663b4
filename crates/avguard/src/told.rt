//! What a guard replied about files, as it is printed and counted.

ghost use Rattle.std.specs.Prelude.{◌≡◌, map, IfErr};
ghost use Rattle.std.specs.Io.KnownBytes.{Appends};
ghost use Rattle.av_base.specs.Device.{AppendsPrefix, Writes};
ghost use Rattle.av_json.specs.File.{named_object};
ghost use Rattle.av_json.specs.Member.{Puts, member_tokens};
ghost use Rattle.av_status.specs.Status.{IsDoneOrFault, IsFault};
ghost use Rattle.av_status.specs.declared.status.Status.TheVariants.{Done};
ghost use Rattle.av_status.specs.declared.tally.Form.TheVariants.{Lines};
ghost use Rattle.avguard.specs.Told.{denied_text, large_line, large_object, large_text, large_tokens, shown_large, tally_told, told_line, told_lines, unscanned_text};

use av_asks::{LargeAnswer, LargeCause};
use av_base::parts::write_parts;
use av_base::{Generation, Part, WriteFault};
use av_client::Reply;
use av_files::{Opened, count_opened, line_failed, print_opened, quoted_name};
use av_json::{LineFault, Member, Writer, put_members, put_named, write_line};
use av_status::faults::device_failed;
use av_status::{Form, Status, Tally, Wishes};
use std::alloc::{AllocError, Global};
use std::io::Write;

/// A file about which a guard replied: its name and the reply.
#[derive(Clone, Copy)]
pub struct Told<'a> {
    pub name: &'a str,
    pub reply: Reply,
}

/// Writes a line for each file, as far as it is to be shown, and leaves none in a buffer. Where that fails a front of these lines was
/// written.
pub fn print_told<W: Write, E: Write>(
    alloc: Global,
    told: &[Told<'_>],
    wishes: Wishes,
    out: &mut W,
    err: &mut E,
) -> Status
    ensures lines { result ≡ Done → Appends (W.contents out.old) (W.contents out.new) (told_lines wishes told.now) }
    ensures front { AppendsPrefix (W.contents out.old) (W.contents out.new) (told_lines wishes told.now) }
    ensures ended { IsDoneOrFault result }
{
    if let Err(status) = print_each(alloc, told, wishes, out, err) {
        return status;
    }
    if out.flush().is_err() {
        return device_failed(err);
    }
    Status::Done
}

/// Counts files about which a guard replied. One counts as scanned where it was judged. Any other counts as missed for a device fault.
pub fn count_told(tally: &mut Tally, told: &[Told<'_>])
    ensures { tally.new ≡ tally_told tally.old told.now }
{
    for file in told {
        match file.reply {
            Reply::Open(answer) => {
                let name = file.name;
                let opened = [Opened { name, answer }];
                count_opened(tally, opened.as_slice());
            }
            Reply::Large(_) => tally.add_missed(Status::Device),
        }
    }
}

fn print_each<W: Write, E: Write>(
    alloc: Global,
    told: &[Told<'_>],
    wishes: Wishes,
    out: &mut W,
    err: &mut E,
) -> Result<(), Status>
    ensures lines { Writes result (W.contents out.old) (W.contents out.new) (told_lines wishes told.now) }
    ensures failed { IfErr result (λ status. IsFault status) }
{
    for file in told {
        match print_one(alloc, file, wishes, out, err) {
            Ok(()) => {}
            Err(status) => return Err(status),
        }
    }
    Ok(())
}

// Writes the line of a file, where it is to be shown.
fn print_one<W: Write, E: Write>(
    alloc: Global,
    file: &Told<'_>,
    wishes: Wishes,
    out: &mut W,
    err: &mut E,
) -> Result<(), Status>
    ensures line { Writes result (W.contents out.old) (W.contents out.new) (told_line wishes file.now) }
    ensures failed { IfErr result (λ status. IsFault status) }
{
    let name = file.name;
    match file.reply {
        Reply::Open(answer) => {
            let opened = [Opened { name, answer }];
            match print_opened(alloc, opened.as_slice(), wishes, out, err) {
                Status::Done => Ok(()),
                failed => Err(failed),
            }
        }
        Reply::Large(answer) => match print_large(alloc, name, answer, wishes, out) {
            Ok(()) => Ok(()),
            Err(fault) => Err(line_failed(err, fault)),
        },
    }
}

// The same of a content in parts that nobody judged.
fn print_large<W: Write>(
    alloc: Global,
    name: &str,
    answer: LargeAnswer,
    wishes: Wishes,
    out: &mut W,
) -> Result<(), LineFault>
    ensures { Writes result (W.contents out.old) (W.contents out.new) (shown_large wishes name.now answer) }
{
    if wishes.shown.has_line(true) {
        print_in(alloc, wishes.form, name, answer, out)
    } else {
        Ok(())
    }
}

fn print_in<W: Write>(
    alloc: Global,
    form: Form,
    name: &str,
    answer: LargeAnswer,
    out: &mut W,
) -> Result<(), LineFault>
    ensures { Writes result (W.contents out.old) (W.contents out.new) (large_line form name.now answer) }
{
    match form {
        Form::Lines => print_quoted(alloc, name, answer, out),
        Form::Json => print_object(alloc, name, answer, out),
        Form::ZeroEnded => match print_text(name.as_bytes(), answer, b"\0", out) {
            Ok(()) => Ok(()),
            Err(_) => Err(LineFault::Write),
        },
    }
}

// Writes the line in words, and the name in quotes where it needs them.
fn print_quoted<W: Write>(
    alloc: Global,
    name: &str,
    answer: LargeAnswer,
    out: &mut W,
) -> Result<(), LineFault>
    ensures { Writes result (W.contents out.old) (W.contents out.new) (large_line Lines name.now answer) }
{
    let mut room = Vec::new(alloc);
    let Ok(name) = quoted_name(name.as_bytes(), &mut room) else {
        return Err(LineFault::NoMemory);
    };
    match print_text(name, answer, b"\n", out) {
        Ok(()) => Ok(()),
        Err(_) => Err(LineFault::Write),
    }
}

fn print_text<'a, W: Write>(
    name: &'a [u8],
    answer: LargeAnswer,
    end: &'a [u8],
    out: &mut W,
) -> Result<(), WriteFault>
    ensures { Writes result (W.contents out.old) (W.contents out.new) (large_text name.now answer end.now) }
{
    match answer {
        LargeAnswer::Denied { cause, .. } => print_denied(name, cause, end, out),
        LargeAnswer::Unscanned {
            generation,
            cause,
            ..
        } => print_unscanned(name, generation, cause, end, out),
    }
}

fn print_denied<'a, W: Write>(
    name: &'a [u8],
    cause: LargeCause,
    end: &'a [u8],
    out: &mut W,
) -> Result<(), WriteFault>
    ensures { Writes result (W.contents out.old) (W.contents out.new) (denied_text name.now cause end.now) }
{
    write_parts(
        out,
        &[
            Part::Text(name),
            Part::Text(b" denied cause "),
            Part::Number(u64::from(cause.number())),
            Part::Text(end),
        ],
    )
}

fn print_unscanned<'a, W: Write>(
    name: &'a [u8],
    generation: Generation,
    cause: LargeCause,
    end: &'a [u8],
    out: &mut W,
) -> Result<(), WriteFault>
    ensures { Writes result (W.contents out.old) (W.contents out.new) (unscanned_text name.now generation cause end.now) }
{
    write_parts(
        out,
        &[
            Part::Text(name),
            Part::Text(b" unscanned generation "),
            Part::Number(generation.get()),
            Part::Text(b" cause "),
            Part::Number(u64::from(cause.number())),
            Part::Text(end),
        ],
    )
}

// Writes the object.
fn print_object<W: Write>(
    alloc: Global,
    name: &str,
    answer: LargeAnswer,
    out: &mut W,
) -> Result<(), LineFault>
    ensures { Writes result (W.contents out.old) (W.contents out.new) (large_object name.now answer) }
{
    let mut line = Writer::new(Vec::new(alloc));
    if put_large(alloc, &mut line, name.as_bytes(), answer).is_err() {
        return Err(LineFault::NoMemory);
    }
    match write_line(line, out) {
        Ok(_) => Ok(()),
        Err(fault) => Err(fault),
    }
}

fn put_large(
    alloc: Global,
    line: &mut Writer,
    name: &[u8],
    answer: LargeAnswer,
) -> Result<(), AllocError>
    ensures { Puts result line.old line.new (large_tokens name.now answer) }
{
    match answer {
        LargeAnswer::Denied { cause, .. } => put_file(
            alloc,
            line,
            name,
            &[
                Member::Text("answer", "denied"),
                Member::Number("cause", u64::from(cause.number())),
                Member::Text("why", cause.text()),
            ],
        ),
        LargeAnswer::Unscanned {
            generation,
            cause,
            ..
        } => put_file(
            alloc,
            line,
            name,
            &[
                Member::Text("answer", "unscanned"),
                Member::Number("generation", generation.get()),
                Member::Number("cause", u64::from(cause.number())),
                Member::Text("why", cause.text()),
            ],
        ),
    }
}

// Puts an object of a file's name and these members.
#[tactic(auto, unfolding(av_json::specs::Member::object_tokens))]
fn put_file(
    alloc: Global,
    line: &mut Writer,
    name: &[u8],
    members: &[Member<'_>],
) -> Result<(), AllocError>
    ensures { Puts result line.old line.new (named_object name.now (map member_tokens members.now)) }
{
    line.begin_object()?;
    put_named(alloc, line, "file", "file_hex", name)?;
    put_members(line, members)?;
    line.end_object()
}
