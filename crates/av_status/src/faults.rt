//! How a program says that something failed: one line to standard error, as far as that can be written, and a status. The line
//! carries no program's name: [`Prefixed`](crate::Prefixed) puts it in front.

ghost use Rattle.std.specs.Prelude.{◌≡◌};
ghost use Rattle.av_status.specs.declared.status.Status.TheVariants.{Device, Memory, Refused, Usage};

use crate::status::Status;
use av_base::Part;
use av_base::parts::write_parts;
use av_sigset::{SetFault, SetFaultKind};
use std::io::Write;

/// A file can't be opened, or a read of it failed.
pub fn unreadable<E: Write>(err: &mut E, file: &str) -> Status
    ensures { result ≡ Device }
{
    say_of(err, file, &[text(": cannot read")]);
    Status::Device
}

/// A file is longer than it may be.
pub fn too_large<E: Write>(err: &mut E, file: &str) -> Status
    ensures { result ≡ Refused }
{
    say_of(err, file, &[text(": TooLarge")]);
    Status::Refused
}

/// A file can't be a stream of the volume, for the fault of this word.
pub fn file_refused<E: Write>(err: &mut E, file: &str, word: &str) -> Status
    ensures { result ≡ Refused }
{
    let why = Part::Text(word.as_bytes());
    say_of(err, file, &[text(": "), why]);
    Status::Refused
}

/// A signature file is bad.
pub fn bad_set<E: Write>(err: &mut E, fault: SetFault) -> Status
    ensures { result ≡ Refused }
{
    let kind = Part::Number(u64::from(fault.kind.number()));
    say(
        err,
        &[
            text("set line "),
            Part::Number(fault.line),
            text(": kind "),
            kind,
        ],
    );
    Status::Refused
}

/// A signature file is bad, told with the place and in words.
pub fn bad_set_line<E: Write>(err: &mut E, file: &str, fault: SetFault) -> Status
    ensures { result ≡ Refused }
{
    say_set_line(err, file, fault);
    Status::Refused
}

/// What becomes of a signature set without signatures.
#[derive(Clone, Copy, Debug, PartialEq, Eq)]
pub enum EmptySets {
    /// It is a fault.
    Refused,
    /// It is told and taken.
    Allowed,
}

/// A signature set has no signatures, so that every content is clean under it.
pub fn empty_set<E: Write>(err: &mut E, set: &str, version: u64) -> Status
    ensures { result ≡ Refused }
{
    say_of(
        err,
        set,
        &[
            text(": version "),
            Part::Number(version),
            text(" has no signatures"),
        ],
    );
    Status::Refused
}

/// A script is bad from this line on.
pub fn bad_script<E: Write>(err: &mut E, line: u64) -> Status
    ensures { result ≡ Refused }
{
    say(
        err,
        &[text("line "), Part::Number(line), text(": bad script")],
    );
    Status::Refused
}

/// A script is longer than it may be.
pub fn script_too_long<E: Write>(err: &mut E) -> Status
    ensures { result ≡ Refused }
{
    say(err, &[text("script too long")]);
    Status::Refused
}

/// A word of the command line, counted from 1, can't be taken as text.
pub fn bad_word<E: Write>(err: &mut E, number: u64) -> Status
    ensures { result ≡ Usage }
{
    say(
        err,
        &[text("word "), Part::Number(number), text(" is not UTF-8")],
    );
    Status::Usage
}

/// A path is too short or too long for a socket.
pub fn bad_socket<E: Write>(err: &mut E, socket: &str) -> Status
    ensures { result ≡ Usage }
{
    let why = text(": the path of a socket has 1 to 107 bytes");
    say_of(err, socket, &[why]);
    Status::Usage
}

/// Two sockets of one program have one path.
pub fn same_socket<E: Write>(err: &mut E, socket: &str) -> Status
    ensures { result ≡ Usage }
{
    say_of(err, socket, &[text(": two sockets have one path")]);
    Status::Usage
}

/// A name of a list, counted from 1, can't be taken as text.
pub fn bad_name<E: Write>(err: &mut E, list: &str, number: u64) -> Status
    ensures { result ≡ Refused }
{
    say_of(
        err,
        list,
        &[text(": name "), Part::Number(number), text(" is not UTF-8")],
    );
    Status::Refused
}

/// An entry of a folder can't be looked at, since its name is no text. Of its path each byte that is no ASCII is written as `\x` and
/// two digits.
pub fn bad_entry<E: Write>(err: &mut E, path: &[u8]) -> Status
    ensures { result ≡ Refused }
{
    say_name(err, path, Plain::Ascii);
    let _ = write_parts(err, &[text(": the name is not UTF-8\n")]);
    Status::Refused
}

/// The other side sent bytes that are no frame.
pub fn bad_frame<E: Write>(err: &mut E) -> Status
    ensures { result ≡ Refused }
{
    say(err, &[text("frame")]);
    Status::Refused
}

/// More events came than an audit keeps.
pub fn audit_full<E: Write>(err: &mut E) -> Status
    ensures { result ≡ Refused }
{
    say(err, &[text("audit full")]);
    Status::Refused
}

/// Memory was refused.
pub fn out_of_memory<E: Write>(err: &mut E) -> Status
    ensures { result ≡ Memory }
{
    say(err, &[text("no memory")]);
    Status::Memory
}

/// A file or a stream failed.
pub fn device_failed<E: Write>(err: &mut E) -> Status
    ensures { result ≡ Device }
{
    say(err, &[text("device")]);
    Status::Device
}

/// The audits of a run don't show that what it told of its files is true.
pub fn not_certified<E: Write>(err: &mut E) -> Status
    ensures { result ≡ Device }
{
    say(err, &[text("run not certified")]);
    Status::Device
}

/// Whether a second line gives the reason of a fault. The first line is fixed, and programs read it.
#[derive(Clone, Copy, Debug, PartialEq, Eq)]
pub enum Reasons {
    /// A person reads standard error, on a terminal.
    Given,
    /// Faults have one line.
    Omitted,
}

/// The reason of the fault that the line before told, where reasons are given: what happened, and to which object.
pub fn say_reason<E: Write>(err: &mut E, reasons: Reasons, object: &str, reason: &str) {
    if reasons == Reasons::Given {
        say_of(err, object, &[text(": "), Part::Text(reason.as_bytes())]);
    }
}

/// The reason why a signature file was refused, where reasons are given: the place and what is wrong there.
pub fn say_set_reason<E: Write>(err: &mut E, reasons: Reasons, set: &str, fault: SetFault) {
    if reasons == Reasons::Given {
        say_set_line(err, set, fault);
    }
}

fn say_set_line<E: Write>(err: &mut E, set: &str, fault: SetFault) {
    let line = Part::Number(fault.line);
    say_of(
        err,
        set,
        &[text(":"), line, text(": "), text(words_of(fault.kind))],
    );
}

/// What is wrong with a line of a signature file, in words.
pub fn words_of(kind: SetFaultKind) -> &'static str {
    match kind {
        SetFaultKind::Header => "not `avsig 1` or `avsig 2`",
        SetFaultKind::Version => "not `version` and a number from 1 to 2^64 - 1",
        SetFaultKind::Name =>
            "not a name of 1 to 32 letters, digits, `.`, `_` and `-`, and a space",
        SetFaultKind::Hex => "not pairs of hexadecimal digits",
        SetFaultKind::Length => "not 1 to 64 bytes",
        SetFaultKind::Duplicate => "a name that an earlier line has",
        SetFaultKind::TooMany => "more than 1,024 signatures, or than 16,384 bytes in all",
        SetFaultKind::Unended => "the file ends before the end of this line",
        SetFaultKind::Range =>
            "not two numbers, the second at least the first and at most 1,048,575",
    }
}

/// A part of a line that is always the same.
pub fn text(text: &'static str) -> Part<'static> {
    Part::Text(text.as_bytes())
}

/// Writes a line. Where that fails there is nobody left to tell.
pub fn say<E: Write>(err: &mut E, parts: &[Part<'_>]) {
    say_of(err, "", parts);
}

/// The same with a name in front, in which each byte of a control character is written as `\x` and two digits: what a file is
/// called is not to command a terminal.
pub fn say_of<E: Write>(err: &mut E, name: &str, parts: &[Part<'_>]) {
    say_name(err, name.as_bytes(), Plain::Text);
    let _ = write_parts(err, parts);
    let _ = write_parts(err, &[text("\n")]);
}

// What is written as it stands: text, or ASCII alone. Control characters never are.
#[derive(Clone, Copy)]
enum Plain {
    Text,
    Ascii,
}

fn say_name<E: Write>(err: &mut E, name: &[u8], plain: Plain) {
    let mut begun = 0;
    for place in 0..name.len() {
        let escaped = match plain {
            Plain::Text => control_at(name, place),
            Plain::Ascii => no_ascii_at(name, place),
        };
        let Some(byte) = escaped else {
            continue;
        };
        let before = name.get(begun..place).unwrap_or(b"".as_slice());
        let digits = [digit(byte >> 4), digit(byte & 15)];
        let _ = write_parts(err, &[Part::Text(before), text("\\x"), Part::Text(&digits)]);
        begun = place + 1;
    }
    let rest = name.get(begun..).unwrap_or(b"".as_slice());
    let _ = write_parts(err, &[Part::Text(rest)]);
}

// The byte at a place, where it is of a control character: below 32, 127, or one of the two that spell 128 to 159 in UTF-8.
fn control_at(name: &[u8], place: usize) -> Option<u8> {
    let byte = *name.get(place)?;
    let is_late = |byte: Option<&u8>| matches!(byte, Some(128..=159));
    let is_control = match byte {
        0..=31 | 127 => true,
        0xc2 => is_late(name.get(place.saturating_add(1))),
        128..=159 => name.get(place.wrapping_sub(1)) == Some(&0xc2),
        _ => false,
    };
    if is_control { Some(byte) } else { None }
}

// The byte at a place, where it is a control character or no ASCII.
fn no_ascii_at(name: &[u8], place: usize) -> Option<u8> {
    let byte = *name.get(place)?;
    if matches!(byte, 32..=126) {
        None
    } else {
        Some(byte)
    }
}

// The hexadecimal digit of a number below 16.
fn digit(number: u8) -> u8 {
    let digits = b"0123456789abcdef".as_slice();
    *digits.get(usize::from(number)).unwrap_or(&b'0')
}
