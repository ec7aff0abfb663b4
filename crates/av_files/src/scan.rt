ghost use Rattle.std.specs.Prelude.{◌≡◌, map, Some, true, IfErr, IfOk};
ghost use Rattle.std.specs.List.{list_any};
ghost use Rattle.std.specs.Option.{option_copied};
ghost use Rattle.std.specs.Io.KnownBytes.{Appends};
ghost use Rattle.av_base.specs.Device.{Writes};
ghost use Rattle.av_files.specs.Scan.{Scans, is_infected, line_of, name_found, object_of, scanned_of, shown_line, shown_lines, tally_of, verdict_text};
ghost use Rattle.av_status.specs.Status.{EndsWell, IsFault};
ghost use Rattle.av_status.specs.declared.status.Status.TheVariants.{Found};
ghost use Rattle.av_files.specs.Quoted.{quoted};

use crate::object::{line_failed, new_line};
use crate::quoted::quoted_name;
use crate::scanner::{Input, Scanner};
use av_base::parts::write_parts;
use av_base::{Part, Verdict, WriteFault};
use av_json::{LineFault, put_scanned, write_line};
use av_sigset::SignatureSet;
use av_status::faults::{device_failed, out_of_memory};
use av_status::status::Status;
use av_status::tally::{Form, Tally, Wishes, conclude};
use std::alloc::Global;
use std::io::Write;

/// A file that was scanned: its name and the verdict of its content.
#[derive(Clone, Copy)]
pub struct Scanned<'a> {
    pub name: &'a str,
    pub verdict: Verdict,
}

/// Scans files under the set of a signature file and writes a line for each that is to be shown, in the order given. The set and
/// then each file is judged before a line is written; the first fault ends it, with one line to `err`. Each file is scanned in
/// one pass.
pub fn scan_files<W: Write, E: Write>(
    alloc: Global,
    set: Input<'_>,
    files: &[Input<'_>],
    wishes: Wishes,
    out: &mut W,
    err: &mut E,
) -> Status
    ensures { EndsWell result
        → Scans wishes (option_copied set.entry.content) files.now (W.contents out.old) (W.contents out.new) }
{
    let scanner = match Scanner::read(alloc, set, err) {
        Ok(scanner) => scanner,
        Err(status) => return status,
    };
    match verdicts_of(alloc, &scanner, files, err) {
        Ok(scanned) => print_scanned(alloc, &scanner, scanned.as_slice(), wishes, out, err),
        Err(status) => status,
    }
}

// The files with their verdicts, in the order given.
fn verdicts_of<'a, E: Write>(
    alloc: Global,
    scanner: &Scanner,
    files: &[Input<'a>],
    err: &mut E,
) -> Result<Vec<Scanned<'a>>, Status>
    ensures scanned { IfOk result (λ scanned. map (λ s. Some s) scanned.items ≡ map (scanned_of scanner.now) files.now) }
    ensures status { IfErr result (λ status. IsFault status) }
{
    let Ok(mut scanned) = Vec::with_capacity(alloc, files.len()) else {
        return Err(out_of_memory(err));
    };
    for file in files {
        let verdict = scanner.scan(*file, err)?;
        let one = Scanned {
            name: file.name,
            verdict,
        };
        if scanned.push(one).is_err() {
            return Err(out_of_memory(err));
        }
    }
    Ok(scanned)
}

/// Writes the lines of files that were scanned, as far as they are to be shown, and leaves none in a buffer. Then it ends the run.
pub fn print_scanned<W: Write, E: Write>(
    alloc: Global,
    scanner: &Scanner,
    scanned: &[Scanned<'_>],
    wishes: Wishes,
    out: &mut W,
    err: &mut E,
) -> Status
    ensures lines { EndsWell result
        → Appends (W.contents out.old) (W.contents out.new) (shown_lines wishes scanner.now scanned.now) }
    ensures found { result ≡ Found → list_any (λ s. is_infected s.verdict) scanned.now ≡ true }
{
    if let Err(fault) = print_lines(alloc, scanner.set(), scanned, wishes, out) {
        return line_failed(err, fault);
    }
    if out.flush().is_err() {
        return device_failed(err);
    }
    conclude(err, tally_of(scanned), wishes)
}

// The files in numbers.
fn tally_of(scanned: &[Scanned<'_>]) -> Tally
    ensures { result ≡ tally_of scanned.now }
{
    let mut tally = Tally::new();
    for file in scanned {
        tally.add_scanned(is_infected(file.verdict));
    }
    tally
}

/// Whether a signature was found.
pub fn is_infected(verdict: Verdict) -> bool
    ensures { result ≡ is_infected verdict }
{
    match verdict {
        Verdict::Clean => false,
        Verdict::Infected { .. } => true,
    }
}

fn print_lines<W: Write>(
    alloc: Global,
    set: &SignatureSet,
    scanned: &[Scanned<'_>],
    wishes: Wishes,
    out: &mut W,
) -> Result<(), LineFault>
    ensures { Writes result (W.contents out.old) (W.contents out.new) (shown_lines wishes set.now scanned.now) }
{
    let mut room = Vec::new(alloc);
    for file in scanned {
        match print_shown(alloc, set, *file, wishes, &mut room, out) {
            Ok(()) => {}
            Err(fault) => return Err(fault),
        }
    }
    Ok(())
}

// Writes the line of a file, where it is to be shown.
fn print_shown<W: Write>(
    alloc: Global,
    set: &SignatureSet,
    file: Scanned<'_>,
    wishes: Wishes,
    room: &mut Vec<u8>,
    out: &mut W,
) -> Result<(), LineFault>
    ensures { Writes result (W.contents out.old) (W.contents out.new) (shown_line wishes set.now file.entry) }
{
    if wishes.shown.has_line(is_infected(file.verdict)) {
        print_in(alloc, wishes.form, set, file, room, out)
    } else {
        Ok(())
    }
}

// Writes the line of a file in this form.
pub(crate) fn print_in<W: Write>(
    alloc: Global,
    form: Form,
    set: &SignatureSet,
    file: Scanned<'_>,
    room: &mut Vec<u8>,
    out: &mut W,
) -> Result<(), LineFault>
    ensures { Writes result (W.contents out.old) (W.contents out.new) (line_of form set.now file.entry) }
{
    match form {
        Form::Lines => print_line(set, file, b"\n", room, out),
        Form::Json => print_object(alloc, set, file, room, out),
        Form::ZeroEnded => print_ended(set, file, b"\0", out),
    }
}

// Writes the line of a file in words with what ends it, and its name in quotes where it needs them.
pub(crate) fn print_line<W: Write>(
    set: &SignatureSet,
    file: Scanned<'_>,
    end: &[u8],
    room: &mut Vec<u8>,
    out: &mut W,
) -> Result<(), LineFault>
    ensures { Writes result (W.contents out.old) (W.contents out.new) (verdict_text set.now (quoted file.entry.name.now) file.entry.verdict end.now) }
{
    let Ok(name) = quoted_name(file.name.as_bytes(), room) else {
        return Err(LineFault::NoMemory);
    };
    match print_verdict(set, name, file.verdict, end, out) {
        Ok(()) => Ok(()),
        Err(_) => Err(LineFault::Write),
    }
}

// Writes the line of a file in words with what ends it, under its name as it is.
pub(crate) fn print_ended<W: Write>(
    set: &SignatureSet,
    file: Scanned<'_>,
    end: &[u8],
    out: &mut W,
) -> Result<(), LineFault>
    ensures { Writes result (W.contents out.old) (W.contents out.new) (verdict_text set.now file.entry.name.now file.entry.verdict end.now) }
{
    match print_verdict(set, file.name.as_bytes(), file.verdict, end, out) {
        Ok(()) => Ok(()),
        Err(_) => Err(LineFault::Write),
    }
}

// Writes the object of a file.
fn print_object<W: Write>(
    alloc: Global,
    set: &SignatureSet,
    file: Scanned<'_>,
    room: &mut Vec<u8>,
    out: &mut W,
) -> Result<(), LineFault>
    ensures { Writes result (W.contents out.old) (W.contents out.new) (object_of set.now file.entry) }
{
    let mut line = new_line(alloc, room);
    let name = name_found(set, file.verdict);
    let put = put_scanned(
        alloc,
        &mut line,
        file.name.as_bytes(),
        set.version(),
        file.verdict,
        name,
    );
    if put.is_err() {
        return Err(LineFault::NoMemory);
    }
    *room = write_line(line, out)?;
    Ok(())
}

// The name of the signature that was found.
pub(crate) fn name_found(set: &SignatureSet, verdict: Verdict) -> &[u8]
    ensures { result.now ≡ name_found set.now verdict }
{
    match verdict {
        Verdict::Clean => b"".as_slice(),
        Verdict::Infected { index, .. } => set.name(index as usize).unwrap_or(b"".as_slice()),
    }
}

// Writes the line of a verdict.
fn print_verdict<'a, W: Write>(
    set: &'a SignatureSet,
    name: &'a [u8],
    verdict: Verdict,
    end: &'a [u8],
    out: &mut W,
) -> Result<(), WriteFault>
    ensures { Writes result (W.contents out.old) (W.contents out.new) (verdict_text set.now name.now verdict end.now) }
{
    match verdict {
        Verdict::Clean => write_parts(
            out,
            &[
                Part::Text(name),
                Part::Text(b" clean".as_slice()),
                Part::Text(end),
            ],
        ),
        Verdict::Infected { index, end_at } => write_parts(
            out,
            &[
                Part::Text(name),
                Part::Text(b" infected ".as_slice()),
                Part::Number(u64::from(index)),
                Part::Text(b" ".as_slice()),
                Part::Text(set.name(index as usize).unwrap_or(b"".as_slice())),
                Part::Text(b" end ".as_slice()),
                Part::Number(end_at),
                Part::Text(end),
            ],
        ),
    }
}
