//! A file that was judged, moved into a folder on its file system.
ghost use Rattle.std.specs.Prelude.{◌≡◌, ◌≢◌, ◌↔◌, IfErr, IfOk, string_bytes};
ghost use Rattle.av_quarantine.specs.Naming.{IsLinked, IsMovedTo, IsTried};
ghost use Rattle.av_quarantine.specs.declared.steps.Outcome.TheVariants.{Done, Elsewhere, Taken};
ghost use Rattle.av_status.specs.Status.{IsFault};
ghost use Rattle.av_status.specs.declared.status.Status.TheVariants.{Device};

use crate::carrying::{Disk, carried_out};
use crate::looks::{Node, Seen, folder_at, found_at, parent_of, why_not};
use crate::naming::place;
use crate::steps::{MoveFault, Outcome, Step};
use av_base::Part;
use av_status::faults::{out_of_memory, say_of, text};
use av_status::status::Status;
use std::alloc::Global;
use std::fs::{Files, OpenFile};
use std::io::{Error, ErrorKind, Write};
use std::os::unix::fs::MetadataExt;
use std::path::Path;
use std::{fs, io};

/// A file that was judged: the path by which it was opened, and what it was then.
#[derive(Clone, Copy)]
pub struct Judged<'a> {
    pub path: &'a str,
    pub seen: Seen,
}

/// Moves a file into a folder, under the last part of its path, with `.1` to `.999` behind it if that is taken: the new path. If it
/// can't be moved it stays where it is, and one line to `err` says why. The folder must be on its file system. A link is not moved,
/// nor what it leads to.
pub fn move_into<R: Files, E: Write>(
    rt: &R,
    alloc: Global,
    file: Judged<'_>,
    folder: &str,
    err: &mut E,
) -> Result<String, Status>
    ensures moved { IfOk result (λ new. IsMovedTo folder.now file.entry.path.now (string_bytes new)) }
    ensures failed { IfErr result (λ status. IsFault status) }
{
    let Some(name) = Path::new(file.path).file_name() else {
        return Err(not_moved(alloc, file.path, MoveFault::NotRegular, None, err));
    };
    let own = folder_at(rt, parent_of(file.path));
    let other = folder_at(rt, folder);
    if let Some(fault) = why_not(file.seen, own, other, found_at(rt, file.path)) {
        return Err(not_moved(alloc, file.path, fault, None, err));
    }
    // no new file gets its number while it is open
    let Some(_held) = held(rt, file) else {
        return Err(not_moved(alloc, file.path, MoveFault::Another, None, err));
    };
    let mut names = Names {
        rt,
        alloc,
        file,
        folder,
        name,
        step: Step::Link { number: 0 },
        new_path: String::new(alloc),
        error: None,
        is_short: false,
    };
    match carried_out(&mut names) {
        Ok(_) => Ok(names.new_path),
        Err(_) if names.is_short => Err(out_of_memory(err)),
        Err(fault) => Err(not_moved(alloc, file.path, fault, names.error, err)),
    }
}

// The file that was judged, open, where its path leads to it.
fn held<R: Files>(rt: &R, file: Judged<'_>) -> Option<R::File> {
    let held = fs::open(rt, file.path).ok()?;
    let metadata = held.metadata().ok()?;
    if Seen::of(&metadata) == file.seen {
        Some(held)
    } else {
        None
    }
}

// The two names of a file: the one that it was judged by, and the one in the folder that was tried last.
#[derive(Drop)]
struct Names<'a, R> {
    rt: &'a R,
    alloc: Global,
    file: Judged<'a>,
    folder: &'a str,
    name: &'a str,
    step: Step,
    new_path: String,
    // Why the last step failed, where the system said so.
    error: Option<Error>,
    // Memory for a name was refused.
    is_short: bool,
}

impl<'a, R: Files> Disk for Names<'a, R> {
    ghost use Rattle.std.specs.Prelude.{string_bytes};
    ghost use Rattle.av_quarantine.specs.Naming.{IsNamedAt};

    ghost step_of = { λ names. names.step };

    ghost place = { λ names. (names.folder.now, names.name.now) };

    ghost is_well = { λ names. IsNamedAt names.folder.now names.name.now names.step (string_bytes names.new_path) };

    fn step(&self) -> Step {
        self.step
    }

    fn act(&mut self) -> Outcome {
        let outcome = self.tried(self.step);
        self.step = self.step.after(outcome);
        outcome
    }
}

impl<'a, R: Files> Names<'a, R> {
    // What comes of a step on the disk.
    fn tried(&mut self, step: Step) -> Outcome
        ensures step { self.new.step ≡ self.old.step }
        ensures into { (self.new.folder ≡ self.old.folder) × (self.new.name ≡ self.old.name) }
        ensures path { IsTried self.old.folder.now self.old.name.now step result (string_bytes self.old.new_path) (string_bytes self.new.new_path) }
    {
        match step {
            Step::Link { number } => self.link(number),
            Step::Compare { .. } => self.compare(),
            Step::Remove { .. } => self.remove(),
            Step::Undo { .. } => self.undo(),
            Step::Moved { .. } | Step::Stopped { .. } => Outcome::Done,
        }
    }

    // Gives the file a name in the folder. The system refuses a name that is there, in the same call.
    fn link(&mut self, number: u16) -> Outcome
        ensures step { self.new.step ≡ self.old.step }
        ensures into { (self.new.folder ≡ self.old.folder) × (self.new.name ≡ self.old.name) }
        ensures path { IsLinked self.old.folder.now self.old.name.now number result (string_bytes self.new.new_path) }
    {
        let Ok(new) = place(self.alloc, self.folder, self.name, number) else {
            self.is_short = true;
            return Outcome::Failed;
        };
        self.new_path = new.into_string();
        match fs::hard_link(self.rt, self.file.path, self.new_path.as_str()) {
            Ok(()) => Outcome::Done,
            Err(error) => {
                self.error = Some(error);
                link_outcome(error.kind())
            }
        }
    }

    // Whether the file under the new name is the one that was judged.
    fn compare(&mut self) -> Outcome
        ensures step { self.new.step ≡ self.old.step }
        ensures into { (self.new.folder ≡ self.old.folder) × (self.new.name ≡ self.old.name) }
        ensures path { self.new.new_path ≡ self.old.new_path }
    {
        self.error = None;
        match found_at(self.rt, self.new_path.as_str()) {
            Some(found) if found.seen.node == self.file.seen.node => Outcome::Done,
            _ => Outcome::Failed,
        }
    }

    // Removes the old name. Where it is gone, or another file's by now, there is nothing to remove.
    fn remove(&mut self) -> Outcome
        ensures step { self.new.step ≡ self.old.step }
        ensures into { (self.new.folder ≡ self.old.folder) × (self.new.name ≡ self.old.name) }
        ensures path { self.new.new_path ≡ self.old.new_path }
    {
        let removed = match fs::symlink_metadata(self.rt, self.file.path) {
            Ok(metadata) if Node::of(&metadata) == self.file.seen.node => fs::remove_file(
                self.rt,
                self.file.path,
            ),
            Ok(_) => Ok(()),
            Err(error) => Err(error),
        };
        self.outcome_of(removed)
    }

    // Removes the new name, unless it is the only one that its file has.
    fn undo(&mut self) -> Outcome
        ensures step { self.new.step ≡ self.old.step }
        ensures into { (self.new.folder ≡ self.old.folder) × (self.new.name ≡ self.old.name) }
        ensures path { self.new.new_path ≡ self.old.new_path }
    {
        match fs::symlink_metadata(self.rt, self.new_path.as_str()) {
            Ok(metadata) if metadata.nlink() > 1 => {
                match fs::remove_file(self.rt, self.new_path.as_str()) {
                    Ok(()) => Outcome::Done,
                    Err(_) => Outcome::Failed,
                }
            }
            _ => Outcome::Failed,
        }
    }

    // A name that is gone needs no removing.
    fn outcome_of(&mut self, removed: io::Result<()>) -> Outcome
        ensures step { self.new.step ≡ self.old.step }
        ensures into { (self.new.folder ≡ self.old.folder) × (self.new.name ≡ self.old.name) }
        ensures path { self.new.new_path ≡ self.old.new_path }
    {
        match removed {
            Ok(()) => Outcome::Done,
            Err(error) if error.kind() == ErrorKind::NotFound => Outcome::Done,
            Err(error) => {
                self.error = Some(error);
                Outcome::Failed
            }
        }
    }
}

// What came of a new name that the system refused.
fn link_outcome(kind: ErrorKind) -> Outcome
    ensures taken { (result ≡ Taken) ↔ (kind ≡ ErrorKind.AlreadyExists) }
    ensures elsewhere { (result ≡ Elsewhere) ↔ (kind ≡ ErrorKind.CrossesDevices) }
    ensures done { result ≢ Done }
{
    match kind {
        ErrorKind::AlreadyExists => Outcome::Taken,
        ErrorKind::CrossesDevices => Outcome::Elsewhere,
        _ => Outcome::Failed,
    }
}

// Says why a file stays, with the system's own words where it refused a name.
fn not_moved<E: Write>(
    alloc: Global,
    path: &str,
    fault: MoveFault,
    error: Option<Error>,
    err: &mut E,
) -> Status
    ensures { result ≡ Device }
{
    let words = match (fault, error) {
        (MoveFault::Unlinked | MoveFault::Kept, Some(error)) => format!(in alloc;
            "{fault}: {error}"
        ),
        _ => format!(in alloc; "{fault}"),
    };
    match words {
        Ok(words) => say_of(
            err,
            path,
            &[text(": cannot move: "), Part::Text(words.as_bytes())],
        ),
        Err(_) => say_of(err, path, &[text(": cannot move")]),
    }
    Status::Device
}
