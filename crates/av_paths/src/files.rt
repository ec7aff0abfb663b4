//! What is said of a path: of a file, or of the files of a folder.

ghost use Rattle.std.specs.Prelude.{◌≡◌, ◌&&◌, IfOk, OnOk};
ghost use Rattle.std.specs.Io.KnownBytes.{Appends};
ghost use Rattle.av_paths.specs.Course.{is_clean};
ghost use Rattle.av_paths.specs.Told.{IsFileTold, IsFolderTold, IsRefused, IsTold, end_line, line_of, reply_to};
ghost use Rattle.av_paths.specs.Verdict.{spoken_of};

use crate::below::is_below;
use crate::course::Course;
use crate::judging::ask_file;
use crate::line::Lost;
use crate::opening::{Opens, Place};
use crate::verdict::spoken_of;
use av_base::device::write_text;
use av_clamd::{Failing, Spoken, put_path_reply};
use av_client::{Asker, AskingFault, Reply};
use av_files::{FILE_BUFFER, Met, Walk, quoted_name};
use std::alloc::{AllocError, Global};
use std::fs;
use std::io::Write;
use std::path::Path;

/// A command about a path: its number and end, the path, and whether a folder's files are asked about past the first infected one.
#[derive(Clone, Copy)]
pub(crate) struct Named<'a> {
    pub number: u64,
    pub end: u8,
    pub is_many: bool,
    pub path: &'a [u8],
}

/// Says what becomes of a path.
pub(crate) fn answer_path<R: Opens, W: Write>(
    place: &Place<'_, R>,
    out: &mut W,
    named: Named<'_>,
) -> Result<(), Lost>
    ensures { OnOk result (IsTold named.entry.number named.entry.end named.entry.path.now (W.contents out.old) (W.contents out.new)) }
{
    let alloc = place.alloc;
    let Ok(path) = str::from_utf8(named.path) else {
        return refuse(alloc, out, named, Failing::Unreadable);
    };
    if !is_below(path, place.asked.below) {
        return refuse(alloc, out, named, Failing::NotBelow);
    }
    // Without slashes and `.` at its end, by which a link would be followed.
    let plain = Path::new(path).components().as_path().as_str();
    match kind_of(place, plain) {
        Kind::File => answer_file(place, out, named, plain),
        Kind::Folder => answer_folder(place, out, named, plain),
        Kind::Other => refuse(alloc, out, named, Failing::Unreadable),
    }
}

// What a path is the path of.
#[derive(Clone, Copy)]
enum Kind {
    File,
    Folder,
    // Nothing, a link, what is below a link, or neither a regular file nor a folder.
    Other,
}

fn kind_of<R: Opens>(place: &Place<'_, R>, plain: &str) -> Kind {
    match fs::symlink_metadata(place.system, plain) {
        Ok(_) if !is_straight(place, plain) => Kind::Other,
        Ok(metadata) if metadata.is_file() => Kind::File,
        Ok(metadata) if metadata.is_dir() => Kind::Folder,
        _ => Kind::Other,
    }
}

// Whether no folder on the way from the folder that it is below to a path is a link.
fn is_straight<R: Opens>(place: &Place<'_, R>, plain: &str) -> bool {
    let mut way = Path::new(plain).parent();
    'folders: for _ in 0..plain.len() {
        let Some(folder) = way else {
            return true;
        };
        if !is_below(folder.as_str(), place.asked.below) || is_one(folder, place.asked.below) {
            return true;
        }
        match fs::symlink_metadata(place.system, folder.as_str()) {
            Ok(metadata) if metadata.is_dir() => {}
            _ => return false,
        }
        way = folder.parent();
    }
    false
}

// Whether a path is that of one of these folders.
fn is_one(path: Path<'_>, folders: &[&str]) -> bool {
    folders.iter().any(|folder| Path::new(folder) == path)
}

fn answer_file<R: Opens, W: Write>(
    place: &Place<'_, R>,
    out: &mut W,
    named: Named<'_>,
    plain: &str,
) -> Result<(), Lost>
    ensures { OnOk result (IsFileTold named.entry.number named.entry.end named.entry.path.now (W.contents out.old) (W.contents out.new)) }
{
    let asked = ask_alone(place, plain);
    tell_file(place.alloc, out, named, asked)
}

// Asks about a file over a connection of its own.
fn ask_alone<R: Opens>(place: &Place<'_, R>, plain: &str) -> Result<Reply, AskingFault> {
    let Ok(mut buffer) = vec![in place.alloc; 0u8; FILE_BUFFER] else {
        return Err(AskingFault::Memory);
    };
    match Asker::connect(place.system, place.alloc, place.meeting()) {
        Ok(mut asker) => ask_file(place, &mut asker, plain, &mut buffer),
        Err(_) => Err(AskingFault::Lost),
    }
}

fn answer_folder<R: Opens, W: Write>(
    place: &Place<'_, R>,
    out: &mut W,
    named: Named<'_>,
    plain: &str,
) -> Result<(), Lost>
    ensures { OnOk result (IsTold named.entry.number named.entry.end named.entry.path.now (W.contents out.old) (W.contents out.new)) }
{
    let Ok(mut asker) = Asker::connect(place.system, place.alloc, place.meeting()) else {
        return refuse(place.alloc, out, named, Failing::NoAnswer);
    };
    let mut walk = Walk::new(place.system, place.alloc, plain)?;
    let mut buffer = vec![in place.alloc; 0u8; FILE_BUFFER]?;
    tell_folder(place, out, named, &mut asker, &mut walk, &mut buffer)
}

// Asks about what a walk meets, and tells it.
fn tell_folder<R: Opens, W: Write>(
    place: &Place<'_, R>,
    out: &mut W,
    named: Named<'_>,
    asker: &mut Asker<'_, R>,
    walk: &mut Walk<'_, R>,
    buffer: &mut [u8],
) -> Result<(), Lost>
    ensures { OnOk result (IsFolderTold named.entry.number named.entry.end named.entry.path.now (W.contents out.old) (W.contents out.new)) }
{
    let mut course = Course::new(named.is_many);
    'entries: for _ in 0..u64::MAX {
        let met = if course.is_over { None } else { walk.next()? };
        let Some(met) = met else {
            return tell_end(place.alloc, out, named, course);
        };
        let asked = ask_met(place, asker, &met, buffer);
        tell(place.alloc, out, named, path_of(&met), asked, &mut course)?;
    }
    Err(Lost::Gone)
}

// What comes of asking about what a walk met.
fn ask_met<R: Opens>(
    place: &Place<'_, R>,
    asker: &mut Asker<'_, R>,
    met: &Met,
    buffer: &mut [u8],
) -> Result<Reply, AskingFault> {
    match met {
        Met::File(name) => ask_file(place, asker, name.as_str(), buffer),
        Met::Unreadable(_) | Met::NotText(_) => Err(AskingFault::Unread),
    }
}

fn path_of(met: &Met) -> &[u8] {
    match met {
        Met::File(path) | Met::Unreadable(path) => path.as_bytes(),
        Met::NotText(path) => path.as_slice(),
    }
}

// Tells what came of asking about a file that was named.
fn tell_file<W: Write>(
    alloc: Global,
    out: &mut W,
    named: Named<'_>,
    asked: Result<Reply, AskingFault>,
) -> Result<(), Lost>
    ensures { OnOk result (Appends (W.contents out.old) (W.contents out.new) (reply_to named.entry.number named.entry.end named.entry.path.now (spoken_of asked))) }
{
    say(alloc, out, named, named.path, &spoken_of(asked))
}

// Tells what came of asking about a file of a folder, where it was not granted.
fn tell<W: Write>(
    alloc: Global,
    out: &mut W,
    named: Named<'_>,
    path: &[u8],
    asked: Result<Reply, AskingFault>,
    course: &mut Course,
) -> Result<(), Lost>
    ensures line { OnOk result (Appends (W.contents out.old) (W.contents out.new) (line_of named.entry.number named.entry.end path.now asked)) }
    ensures clean { course.new.is_clean ≡ (course.old.is_clean && is_clean (spoken_of asked)) }
{
    let spoken = spoken_of(asked);
    if course.pass(&spoken) {
        return say(alloc, out, named, path, &spoken);
    }
    Ok(())
}

// Says that a folder is clean, where it is.
fn tell_end<W: Write>(
    alloc: Global,
    out: &mut W,
    named: Named<'_>,
    course: Course,
) -> Result<(), Lost>
    ensures { OnOk result (Appends (W.contents out.old) (W.contents out.new) (end_line named.entry.number named.entry.end named.entry.path.now course.is_clean)) }
{
    if course.is_clean {
        return say(alloc, out, named, named.path, &Spoken::Clean);
    }
    Ok(())
}

// Says why nobody was asked about a path.
fn refuse<W: Write>(
    alloc: Global,
    out: &mut W,
    named: Named<'_>,
    failing: Failing,
) -> Result<(), Lost>
    ensures { OnOk result (IsRefused named.entry.number named.entry.end named.entry.path.now (W.contents out.old) (W.contents out.new)) }
{
    say(alloc, out, named, named.path, &Spoken::Failed(failing))
}

// Says a verdict of a path.
fn say<W: Write>(
    alloc: Global,
    out: &mut W,
    named: Named<'_>,
    path: &[u8],
    spoken: &Spoken<'_>,
) -> Result<(), Lost>
    ensures { OnOk result (Appends (W.contents out.old) (W.contents out.new) (reply_to named.entry.number named.entry.end path.now spoken.now)) }
{
    let text = reply_text(alloc, named, path, spoken)?;
    match write_text(out, &text) {
        Ok(()) => Ok(()),
        Err(_) => Err(Lost::Gone),
    }
}

// The reply to a command about a path, in quotes where it could make a line of its own.
fn reply_text(
    alloc: Global,
    named: Named<'_>,
    path: &[u8],
    spoken: &Spoken<'_>,
) -> Result<Vec<u8>, AllocError>
    ensures { IfOk result (λ text. text.items ≡ reply_to named.entry.number named.entry.end path.now spoken.now) }
{
    let mut room = Vec::new(alloc);
    let shown = quoted_name(path, &mut room)?;
    let mut text = Vec::new(alloc);
    put_path_reply(&mut text, named.number, named.end, shown, spoken)?;
    Ok(text)
}
