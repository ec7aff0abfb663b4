ghost use Rattle.std.specs.Prelude.{◌≡◌};

use av_base::device::read_into;
use av_files::{Input, MAX_FILE, TURNS};
use av_status::faults::{Reasons, say_reason};
use std::alloc::Global;
use std::fs;
use std::fs::{File, Files, OpenFile};
use std::io::{Error, IsTerminal, Read, Write};
use std::os::unix::fs::MetadataExt;

/// A file with its content as far as one byte past the limit, where it can be read.
pub fn read_file<'a>(rt: &HostRuntime, name: &'a str, buffer: &'a mut [u8]) -> Input<'a>
    ensures { result.name ≡ name.entry }
{
    read_open(name, open_file(rt, name), buffer)
}

/// The same of a file that a walk met.
pub fn read_met<'a>(rt: &HostRuntime, path: &'a str, buffer: &'a mut [u8]) -> Input<'a>
    ensures { result.name ≡ path.entry }
{
    read_open(path, open_met(rt, path), buffer)
}

fn read_open<'a>(name: &'a str, file: Option<File>, buffer: &'a mut [u8]) -> Input<'a>
    ensures { result.name ≡ name.entry }
{
    let unread = Input {
        name,
        content: None,
    };
    let Some(file) = file else {
        return unread;
    };
    match read_into(&mut file.take(MAX_FILE as u64 + 1), buffer, TURNS) {
        Ok(count) => Input {
            name,
            content: Some(&buffer[..count]),
        },
        Err(_) => unread,
    }
}

/// A file that was named, open, where it may be waited for.
pub fn open_file(rt: &HostRuntime, name: &str) -> Option<File> {
    if may_end(rt, name) {
        fs::open(rt, name).ok()
    } else {
        None
    }
}

/// A regular file that a walk met, open. The path is looked at once more, without following a link, and what was opened has to be that
/// very file. So no link is followed, and nothing but a regular file is read. A FIFO that takes the place of the file between this
/// look and the opening is waited for.
pub fn open_met<R: Files>(rt: &R, path: &str) -> Option<R::File> {
    let met = fs::symlink_metadata(rt, path).ok()?;
    if !met.is_file() {
        return None;
    }
    let file = fs::open(rt, path).ok()?;
    let opened = file.metadata().ok()?;
    if opened.is_file() && opened.dev() == met.dev() && opened.ino() == met.ino() {
        Some(file)
    } else {
        None
    }
}

/// How many bytes a file has, where it can be opened and may be waited for. Of one that was handed open nobody may know.
pub fn size_of(rt: &HostRuntime, name: &str) -> Option<u64> {
    match open_file(rt, name)?.metadata() {
        Ok(metadata) => Some(metadata.len()),
        Err(_) => None,
    }
}

// Whether a file is regular, or one that the program was handed open. Any other is not waited for: a FIFO or a terminal may
// never end.
fn may_end(rt: &HostRuntime, name: &str) -> bool {
    if name == "/dev/stdin" || name.starts_with("/dev/fd/") {
        return true;
    }
    match fs::metadata(rt, name) {
        Ok(metadata) => metadata.is_file(),
        Err(_) => false,
    }
}

/// Whether a name is that of a folder, or of a link to one.
pub fn is_folder(rt: &HostRuntime, name: &str) -> bool {
    match fs::metadata(rt, name) {
        Ok(metadata) => metadata.is_dir(),
        Err(_) => false,
    }
}

/// Whether the reasons of faults are given: where a person reads standard error.
pub fn reasons(rt: &HostRuntime) -> Reasons {
    if rt.stderr().is_terminal() {
        Reasons::Given
    } else {
        Reasons::Omitted
    }
}

/// How a file that can't be read came to be read.
#[derive(Clone, Copy, Debug, PartialEq, Eq)]
pub enum Source {
    /// The user named it, to a command that scans folders where it is told to.
    Named,
    /// A walk met it.
    Met,
    /// Any other: a script, a set, a list, a file that is opened.
    Other,
}

/// Gives the reason why a file could not be read, where reasons are given: it is looked at once more.
pub fn say_why<E: Write>(rt: &HostRuntime, alloc: Global, name: &str, source: Source, err: &mut E) {
    if reasons(rt) == Reasons::Given {
        say_given(alloc, name, why_unread(rt, name, source), err);
    }
}

/// Gives this reason, where it is known.
pub fn say_given<E: Write>(alloc: Global, name: &str, why: Why, err: &mut E) {
    match why {
        Why::Failed(error) => say_error(alloc, Reasons::Given, name, error, err),
        Why::Is(reason) => say_reason(err, Reasons::Given, name, reason),
        Why::Unknown => {}
    }
}

/// Gives the system's own words for what failed, where reasons are given.
pub fn say_error<E: Write>(
    alloc: Global,
    reasons: Reasons,
    object: &str,
    error: Error,
    err: &mut E,
) {
    if let Ok(words) = format!(in alloc; "{error}") {
        say_reason(err, reasons, object, words.as_str());
    }
}

/// Why a file can't be read.
#[derive(Clone, Copy)]
pub enum Why {
    /// The system says so.
    Failed(Error),
    /// It is none that could be.
    Is(&'static str),
    /// It can be read by now.
    Unknown,
}

/// Why a file could not be read, by another look at it.
pub fn why_unread(rt: &HostRuntime, name: &str, source: Source) -> Why {
    let looked = match source {
        Source::Met => fs::symlink_metadata(rt, name),
        Source::Named | Source::Other => fs::metadata(rt, name),
    };
    let metadata = match looked {
        Ok(metadata) => metadata,
        Err(error) => return Why::Failed(error),
    };
    if metadata.is_dir() {
        return why_no_folder(rt, name, source);
    }
    if !metadata.is_file() {
        return Why::Is("is no regular file");
    }
    match fs::open(rt, name) {
        Ok(file) => why_no_content(file),
        Err(error) => Why::Failed(error),
    }
}

fn why_no_folder(rt: &HostRuntime, name: &str, source: Source) -> Why {
    match source {
        Source::Named => Why::Is("is a folder (-r scans it)"),
        Source::Other => Why::Is("is a folder"),
        Source::Met => match rt.open_dir(name) {
            Ok(_) => Why::Unknown,
            Err(error) => Why::Failed(error),
        },
    }
}

fn why_no_content(mut file: File) -> Why {
    let mut piece = [0u8; 1];
    match file.read(&mut piece) {
        Ok(_) => Why::Unknown,
        Err(error) => Why::Failed(error),
    }
}
