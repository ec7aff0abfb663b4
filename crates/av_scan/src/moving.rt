// Infected files, moved out of the way where that is asked for.

ghost use Rattle.std.specs.Prelude.{◌≡◌, is_some, IfSome};
ghost use Rattle.av_status.specs.Status.{IsDoneOrFault};
ghost use Rattle.av_scan.specs.Moving.{IsCountedOn, IsEndOfMove, IsMoveOf, is_moved};
ghost use Rattle.av_scan.specs.Told.{judged_of};

use crate::scanning::Scanning;
use crate::told::Told;
use av_base::Part;
use av_files::{is_found, quoted_name};
use av_quarantine::{Judged, Seen, move_into};
use av_status::faults::{say_of, text};
use av_status::{Status, Tally};
use std::alloc::Global;
use std::fs::Files;
use std::io::Write;

/// A file to move: the name by which it was opened, which file that was, as far as it is known, and the folder that it is moved into.
#[derive(Clone, Copy)]
pub(crate) struct Moving<'a> {
    pub(crate) name: &'a str,
    pub(crate) seen: Option<Seen>,
    pub(crate) folder: &'a str,
}

/// Moves a file in which something was found, where such files are moved, and counts the fault for which it stays.
pub(crate) fn put_away<R: Files, O, E: Write>(
    scanning: &Scanning<'_, R, O>,
    told: &Told,
    tally: &mut Tally,
    err: &mut E,
)
    ensures { IsCountedOn (is_moved (is_some scanning.now.folder) (judged_of told.now)) tally.old tally.new }
{
    tally.worst = tally.worst.or_graver(end_of_move(scanning, told, err));
}

// How the move of a file ended, where it is moved.
fn end_of_move<R: Files, O, E: Write>(
    scanning: &Scanning<'_, R, O>,
    told: &Told,
    err: &mut E,
) -> Status
    ensures { IsEndOfMove (is_moved (is_some scanning.now.folder) (judged_of told.now)) result }
{
    match moving_of(scanning.folder, told) {
        Some(moving) => moved(&scanning.rt, scanning.alloc, moving, err),
        None => Status::Done,
    }
}

// What has to be moved, of what became of a file: nothing but a file in which something was found.
fn moving_of<'a>(folder: Option<&'a str>, told: &'a Told) -> Option<Moving<'a>>
    ensures found { is_some result ≡ is_moved (is_some folder.entry) (judged_of told.now) }
    ensures own { IfSome result (IsMoveOf folder.entry told.now) }
{
    let folder = folder?;
    match told {
        Told::Scanned {
            name,
            findings,
            seen,
        } if is_found(findings.as_slice()) => Some(Moving {
            name: name.as_str(),
            seen: *seen,
            folder,
        }),
        _ => None,
    }
}

// Moves a file, and says where it is now: Done, or the status of the fault for which it stays.
fn moved<R: Files, E: Write>(rt: &R, alloc: Global, moving: Moving<'_>, err: &mut E) -> Status
    ensures { IsDoneOrFault result }
{
    let Moving { name, seen, folder } = moving;
    let Some(seen) = seen else {
        say_of(
            err,
            name,
            &[text(": cannot move: it is not known which file was scanned")],
        );
        return Status::Device;
    };
    match move_into(rt, alloc, Judged { path: name, seen }, folder, err) {
        Ok(new) => {
            say_moved(alloc, name, new.as_str(), err);
            Status::Done
        }
        Err(status) => status,
    }
}

fn say_moved<E: Write>(alloc: Global, name: &str, new: &str, err: &mut E) {
    let mut room = Vec::new(alloc);
    match quoted_name(new.as_bytes(), &mut room) {
        Ok(new) => say_of(err, name, &[text(": moved to "), Part::Text(new)]),
        Err(_) => say_of(err, name, &[text(": moved")]),
    }
}
