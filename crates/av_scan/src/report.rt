// What is written of a file that was scanned, or was not.

ghost use Rattle.std.specs.Prelude.{◌≡◌, IfErr, Ok};
ghost use Rattle.std.specs.Option.{option_copied};
ghost use Rattle.std.specs.Io.KnownBytes.{Keeps};
ghost use Rattle.av_base.specs.Device.{Writes};
ghost use Rattle.av_json.specs.Line.{object_line};
ghost use Rattle.av_json.specs.Member.{Puts};
ghost use Rattle.av_scan.specs.Outcome.{are_names, counted, file_text, finding_text, findings_text, name_text, shown_text, told_name, unscanned_text, unscanned_tokens};
ghost use Rattle.av_scan.specs.Told.{judged_of, name_of, status_of};
ghost use Rattle.av_status.specs.Status.{IsFault};

use crate::opening::{Opening, Origin};
use crate::told::{ScanEntry, Told, Unscanned, path_of, unscanned_of};
use av_base::Part;
use av_base::parts::write_parts;
use av_files::{
    Finding, Met, NamedScanner, Scanned, Scanners, Under, is_found, line_failed, print_one,
};
use av_json::{LineFault, Member, Writer, put_members, put_named, write_line};
use av_status::faults::{bad_entry, device_failed, say_of, text, too_large, unreadable};
use av_status::{Form, Shown, Status, Tally, Wishes};
use std::alloc::{AllocError, Global};
use std::io::Write;

/// By what files are reported: where they come from, the sets, what is written of them, and whether someone looks at the lines as they
/// come.
#[derive(Clone, Copy)]
pub(crate) struct Reporting<'a, O> {
    pub(crate) alloc: Global,
    pub(crate) files: &'a O,
    pub(crate) scanners: &'a Scanners,
    pub(crate) wishes: Wishes,
    pub(crate) is_live: bool,
}

/// Counts a file and writes its lines, or says why it has none. A line of JSON is built in `room`.
pub(crate) fn report<F, O: Opening<F>, W: Write, E: Write>(
    by: Reporting<'_, O>,
    told: &Told,
    tally: &mut Tally,
    room: &mut Vec<u8>,
    out: &mut W,
    err: &mut E,
) -> Result<(), Status>
    ensures line { Writes result (W.contents out.old) (W.contents out.new) (shown_text by.entry.wishes by.entry.scanners.now (name_of told.now) (judged_of told.now)) }
    ensures counted { tally.new ≡ counted tally.old (judged_of told.now) }
    ensures fault { IfErr result (λ status. IsFault status) }
{
    match told {
        Told::Scanned { name, findings, .. } => {
            let file = Found {
                name: name.as_str(),
                findings: findings.as_slice(),
            };
            print(by, file, tally, room, out, err)
        }
        Told::Missed { entry, status } => {
            let unscanned = unscanned_of(&entry.met, *status);
            say_unscanned::<F, O, E>(by.files, entry, unscanned, err);
            tally.add_missed(unscanned.status());
            print_unscanned(by, path_of(&entry.met), unscanned, out, err)
        }
    }
}

// A file that was scanned: its name, and what is found in it under each set.
#[derive(Clone, Copy)]
struct Found<'a> {
    name: &'a str,
    findings: &'a [Finding],
}

// Counts a file that was scanned, and writes its lines.
#[tactic(auto, using(crate::proofs::LineLemmas::kept_whole))]
fn print<O: Copy, W: Write, E: Write>(
    by: Reporting<'_, O>,
    file: Found<'_>,
    tally: &mut Tally,
    room: &mut Vec<u8>,
    out: &mut W,
    err: &mut E,
) -> Result<(), Status>
    ensures line { Writes result (W.contents out.old) (W.contents out.new) (file_text by.entry.wishes by.entry.scanners.now file.entry.name.now file.entry.findings.now) }
    ensures counted { tally.new ≡ counted tally.old (Ok file.entry.findings.now) }
    ensures fault { IfErr result (λ status. IsFault status) }
{
    let has_found = is_found(file.findings);
    tally.add_scanned(has_found);
    if let Err(fault) = print_file(by, file, room, out) {
        return Err(line_failed(err, fault));
    }
    flushed(by.is_live || has_found, out, err)
}

// Leaves no line in a buffer, where one is urgent.
fn flushed<W: Write, E: Write>(is_urgent: bool, out: &mut W, err: &mut E) -> Result<(), Status>
    ensures kept { Keeps (W.contents out.old) (W.contents out.new) }
    ensures fault { IfErr result (λ status. IsFault status) }
{
    if is_urgent && out.flush().is_err() {
        return Err(device_failed(err));
    }
    Ok(())
}

// Writes what the user wants of a file that was scanned.
fn print_file<O: Copy, W: Write>(
    by: Reporting<'_, O>,
    file: Found<'_>,
    room: &mut Vec<u8>,
    out: &mut W,
) -> Result<(), LineFault>
    ensures { Writes result (W.contents out.old) (W.contents out.new) (file_text by.entry.wishes by.entry.scanners.now file.entry.name.now file.entry.findings.now) }
{
    if are_names(by.wishes.shown, by.wishes.form) {
        print_name(file, out)
    } else {
        print_findings(by, file, room, out)
    }
}

// Writes the lines of a file, one for each finding that is to be shown.
fn print_findings<O: Copy, W: Write>(
    by: Reporting<'_, O>,
    file: Found<'_>,
    room: &mut Vec<u8>,
    out: &mut W,
) -> Result<(), LineFault>
    ensures { Writes result (W.contents out.old) (W.contents out.new) (findings_text by.entry.wishes by.entry.scanners.now file.entry.name.now file.entry.findings.now) }
{
    let mut rest = file.findings;
    'findings: while let Some((finding, after)) = rest.split_first() {
        match print_finding(by, file.name, *finding, room, out) {
            Ok(()) => {}
            Err(fault) => return Err(fault),
        }
        rest = after;
    }
    Ok(())
}

// Writes the line of a finding, where it is to be shown. A finding under no set is a fault.
#[tactic(auto, using(crate::proofs::LineLemmas::finding_written))]
fn print_finding<O, W: Write>(
    by: Reporting<'_, O>,
    name: &str,
    finding: Finding,
    room: &mut Vec<u8>,
    out: &mut W,
) -> Result<(), LineFault>
    ensures { Writes result (W.contents out.old) (W.contents out.new) (finding_text by.entry.wishes by.entry.scanners.now name.now finding) }
{
    let Some(named) = by.scanners.get(finding.set) else {
        return Err(LineFault::Write);
    };
    let under = Under {
        scanner: named.scanner(),
        name: told_name(by.scanners, named),
    };
    let file = Scanned {
        name,
        verdict: finding.verdict,
    };
    print_one(by.alloc, under, file, by.wishes, room, out)
}

// The name of a set, where lines have it.
fn told_name<'a>(scanners: &Scanners, named: &'a NamedScanner) -> Option<&'a str>
    ensures { option_copied result ≡ told_name scanners.now named.now }
{
    if scanners.len() > 1 {
        Some(named.name())
    } else {
        None
    }
}

// Whether the names of infected files are written alone.
fn are_names(shown: Shown, form: Form) -> bool
    ensures { result ≡ are_names shown form }
{
    match (shown, form) {
        (Shown::Infected, Form::ZeroEnded) => true,
        _ => false,
    }
}

// Writes the name of a file, where something is found in it, and a zero byte.
fn print_name<W: Write>(file: Found<'_>, out: &mut W) -> Result<(), LineFault>
    ensures { Writes result (W.contents out.old) (W.contents out.new) (name_text file.entry.name.now file.entry.findings.now) }
{
    if !is_found(file.findings) {
        return Ok(());
    }
    match write_parts(
        out,
        &[
            Part::Text(file.name.as_bytes()),
            Part::Text(b"\0".as_slice()),
        ],
    ) {
        Ok(()) => Ok(()),
        Err(_) => Err(LineFault::Write),
    }
}

// Writes the object of a file that was not scanned, where objects are written.
#[tactic(auto, using(crate::proofs::LineLemmas::kept_whole))]
fn print_unscanned<O, W: Write, E: Write>(
    by: Reporting<'_, O>,
    name: &[u8],
    unscanned: Unscanned,
    out: &mut W,
    err: &mut E,
) -> Result<(), Status>
    ensures line { Writes result (W.contents out.old) (W.contents out.new) (unscanned_text by.entry.wishes.form name.now unscanned) }
    ensures fault { IfErr result (λ status. IsFault status) }
{
    match by.wishes.form {
        Form::Json => {
            if let Err(fault) = print_object(by.alloc, name, unscanned, out) {
                return Err(line_failed(err, fault));
            }
            flushed(by.is_live, out, err)
        }
        Form::Lines | Form::ZeroEnded => Ok(()),
    }
}

fn print_object<W: Write>(
    alloc: Global,
    name: &[u8],
    unscanned: Unscanned,
    out: &mut W,
) -> Result<(), LineFault>
    ensures { Writes result (W.contents out.old) (W.contents out.new) (object_line (unscanned_tokens name.now unscanned)) }
{
    let mut line = Writer::new(Vec::new(alloc));
    if put_unscanned(alloc, &mut line, name, unscanned).is_err() {
        return Err(LineFault::NoMemory);
    }
    write_line(line, out)?;
    Ok(())
}

#[tactic(auto, unfolding(av_json::specs::Member::object_tokens))]
fn put_unscanned(
    alloc: Global,
    line: &mut Writer,
    name: &[u8],
    unscanned: Unscanned,
) -> Result<(), AllocError>
    ensures { Puts result line.old line.new (unscanned_tokens name.now unscanned) }
{
    line.begin_object()?;
    put_named(alloc, line, "file", "file_hex", name)?;
    put_members(line, &[Member::Text("fault", unscanned.words())])?;
    line.end_object()
}

/// Says why a file or an entry was not scanned, and gives the status of what was said. A name of a list that is no text was said when the
/// list was read.
#[tactic(auto, using(crate::proofs::LineLemmas::is_fault))]
pub(crate) fn say_unscanned<F, O: Opening<F>, E: Write>(
    files: &O,
    entry: &ScanEntry,
    unscanned: Unscanned,
    err: &mut E,
) -> Status
    ensures status { result ≡ status_of unscanned }
    ensures fault { IsFault result }
{
    match (&entry.met, unscanned) {
        (Met::File(name), Unscanned::TooLarge) => {
            let _ = too_large(err, name.as_str());
        }
        (Met::File(name), Unscanned::NoMemory) => {
            say_of(err, name.as_str(), &[text(": no memory")]);
        }
        (Met::File(name) | Met::Unreadable(name), _) => {
            let _ = unreadable(err, name.as_str());
            files.explain(name.as_str(), entry.origin, err);
        }
        (Met::NotText(path), _) => {
            if entry.origin == Origin::Met {
                let _ = bad_entry(err, path.as_slice());
            }
        }
    }
    unscanned.status()
}
