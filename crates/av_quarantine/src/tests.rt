use crate::carrying::{Disk, carried_out};
use crate::looks::{Node, Seen};
use crate::moving::{Judged, move_into};
use crate::steps::{LAST, MoveFault, Outcome, Step};
use av_fakes::{FakeWriter, may_refuse, refuse_no_more};
use av_status::Status;
use std::alloc::{Allocator, Global};
use std::fs::{Files, Metadata, OpenOptions};
use std::io::{Error, ErrorKind};
use std::os::unix::fs::symlink;
use std::test::Fail;
use std::{fs, io};

// Outcomes that come one after the other, and the steps that were taken.
#[derive(Drop)]
struct Scripted {
    next: Step,
    outcomes: Vec<Outcome>,
    steps: Vec<Step>,
}

impl Disk for Scripted {
    ghost use Rattle.std.specs.Prelude.{⊤, []};

    ghost step_of = { λ s. s.next };

    ghost place = { λ s. ([], []) };

    ghost is_well = { λ s. ⊤ };

    fn step(&self) -> Step {
        self.next
    }

    fn act(&mut self) -> Outcome {
        let _ = self.steps.push(self.next);
        let outcome = self.outcomes.pop().unwrap_or(Outcome::Failed);
        self.next = self.next.after(outcome);
        outcome
    }
}

// The last step that is taken, and the end, where these outcomes come behind so many names that are taken.
fn carried_by(
    alloc: Global,
    taken: usize,
    outcomes: &[Outcome],
) -> Result<(usize, Option<Step>, Result<u16, MoveFault>), Fail> {
    let mut script = Scripted {
        next: Step::Link { number: 0 },
        outcomes: Vec::new(alloc),
        steps: Vec::new(alloc),
    };
    for outcome in outcomes {
        script.outcomes.insert(0, *outcome)?;
    }
    for _ in 0..taken {
        script.outcomes.push(Outcome::Taken)?;
    }
    let end = carried_out(&mut script);
    let steps = script.steps.as_slice();
    Ok((steps.len(), steps.last().copied(), end))
}

#[test]
fn each_outcome_has_its_next_step(rt: HostRuntime) -> Result<(), Fail> {
    let alloc = rt.alloc();
    let done = Outcome::Done;
    let failed = Outcome::Failed;
    let rows: [(usize, &[Outcome], usize, Step, Result<u16, MoveFault>); 12] = [
        (0, &[done, done, done], 3, Step::Remove { number: 0 }, Ok(0)),
        (
            7,
            &[done, done, done],
            10,
            Step::Remove { number: 7 },
            Ok(7),
        ),
        (
            999,
            &[done, done, done],
            1002,
            Step::Remove { number: 999 },
            Ok(999),
        ),
        (
            1000,
            &[],
            1000,
            Step::Link { number: LAST },
            Err(MoveFault::Full),
        ),
        (
            0,
            &[Outcome::Elsewhere],
            1,
            Step::Link { number: 0 },
            Err(MoveFault::Elsewhere),
        ),
        (
            2,
            &[failed],
            3,
            Step::Link { number: 2 },
            Err(MoveFault::Unlinked),
        ),
        (
            1,
            &[done, failed, done],
            4,
            undo(1, MoveFault::Another),
            Err(MoveFault::Another),
        ),
        (
            0,
            &[done, Outcome::Taken, done],
            3,
            undo(0, MoveFault::Another),
            Err(MoveFault::Another),
        ),
        (
            1,
            &[done, failed, failed],
            4,
            undo(1, MoveFault::Another),
            Err(MoveFault::Left { number: 1 }),
        ),
        (
            0,
            &[done, done, failed, done],
            4,
            undo(0, MoveFault::Kept),
            Err(MoveFault::Kept),
        ),
        (
            3,
            &[done, done, failed, failed],
            7,
            undo(3, MoveFault::Kept),
            Err(MoveFault::Left { number: 3 }),
        ),
        (
            0,
            &[done, done, Outcome::Elsewhere, done],
            4,
            undo(0, MoveFault::Kept),
            Err(MoveFault::Kept),
        ),
    ];
    for (taken, outcomes, count, last, end) in rows {
        let got = carried_by(alloc, taken, outcomes)?;
        assert!(&rt; got == (count, Some(last), end), "{taken} {count}");
    }
    Ok(())
}

fn undo(number: u16, fault: MoveFault) -> Step {
    Step::Undo { number, fault }
}

// What happens to a file from outside, while it is moved.
#[derive(Clone, Copy, PartialEq, Eq)]
enum Event {
    Nothing,
    // Another file takes its place before it has a new name, or after that.
    ReplacedBefore,
    ReplacedAfter,
    // It is removed after it has a new name.
    RemovedAfter,
    // Its old name can't be removed, or no name can.
    NotRemoved,
    NoneRemoved,
}

// The files of the system, where an event befalls the one at a path.
#[derive(Drop)]
struct Eventful<'a> {
    rt: &'a HostRuntime,
    event: Event,
    path: &'a str,
    other: &'a str,
}

impl<'a> Eventful<'a> {
    fn replace(&self) -> io::Result<()> {
        fs::rename(self.rt, self.other, self.path)
    }
}

impl<'a> Files for Eventful<'a> {
    type File = <HostRuntime as Files>::File;

    type Dir = <HostRuntime as Files>::Dir;

    fn open_file(&self, how: &OpenOptions, path: &str) -> io::Result<Self::File> {
        self.rt.open_file(how, path)
    }

    fn open_dir(&self, path: &str) -> io::Result<Self::Dir> {
        self.rt.open_dir(path)
    }

    fn metadata(&self, path: &str) -> io::Result<Metadata> {
        fs::metadata(self.rt, path)
    }

    fn symlink_metadata(&self, path: &str) -> io::Result<Metadata> {
        fs::symlink_metadata(self.rt, path)
    }

    fn copy(&self, from: &str, to: &str) -> io::Result<u64> {
        fs::copy(self.rt, from, to)
    }

    fn rename(&self, from: &str, to: &str) -> io::Result<()> {
        fs::rename(self.rt, from, to)
    }

    fn remove_file(&self, path: &str) -> io::Result<()> {
        let is_refused = match self.event {
            Event::NotRemoved => path == self.path,
            Event::NoneRemoved => true,
            _ => false,
        };
        if is_refused {
            return Err(Error::from(ErrorKind::PermissionDenied));
        }
        fs::remove_file(self.rt, path)
    }

    fn create_dir(&self, path: &str) -> io::Result<()> {
        fs::create_dir(self.rt, path)
    }

    fn remove_dir(&self, path: &str) -> io::Result<()> {
        fs::remove_dir(self.rt, path)
    }

    fn remove_dir_all<B: Allocator>(&self, alloc: B, path: &str) -> io::Result<()> {
        self.rt.remove_dir_all(alloc, path)
    }

    fn hard_link(&self, original: &str, link: &str) -> io::Result<()> {
        if self.event == Event::ReplacedBefore {
            self.replace()?;
        }
        fs::hard_link(self.rt, original, link)?;
        match self.event {
            Event::ReplacedAfter => self.replace(),
            Event::RemovedAfter => fs::remove_file(self.rt, original),
            _ => Ok(()),
        }
    }
}

// A folder of its own for a test, below the one for what is built where the tests run.
fn folder_for(rt: &HostRuntime, alloc: Global, name: &str) -> Result<String, Fail> {
    let _ = fs::create_dir(rt, "out");
    let path = format!(in alloc; "out/av_quarantine.{name}")?;
    let _ = fs::remove_dir_all(rt, path.as_str());
    fs::create_dir(rt, path.as_str())?;
    Ok(path)
}

fn put(rt: &HostRuntime, path: &str, content: &[u8]) -> Result<(), Fail> {
    fs::write(rt, path, content)?;
    Ok(())
}

// The content of a file, or nothing where none is.
fn content_at(rt: &HostRuntime, path: &str) -> Option<Vec<u8>> {
    fs::read(rt, path).ok()
}

fn has(rt: &HostRuntime, path: &str, content: &[u8]) -> bool {
    match content_at(rt, path) {
        Some(found) => found.as_slice() == content,
        None => false,
    }
}

fn seen_at(rt: &HostRuntime, path: &str) -> Result<Seen, Fail> {
    Ok(Seen::of(&fs::symlink_metadata(rt, path)?))
}

#[test]
fn a_file_gets_the_first_name_that_is_free(rt: HostRuntime) -> Result<(), Fail> {
    let alloc = rt.alloc();
    let top = folder_for(&rt, alloc, "free")?;
    let folder = format!(in alloc; "{top}/away")?;
    fs::create_dir(&rt, folder.as_str())?;
    let path = format!(in alloc; "{top}/a.bin")?;
    for (number, end) in ["", ".1", ".2"].iter().enumerate() {
        let content = [b'0' + number as u8];
        put(&rt, path.as_str(), &content)?;
        let seen = seen_at(&rt, path.as_str())?;
        let file = Judged {
            path: path.as_str(),
            seen,
        };
        let mut err = FakeWriter::new(alloc);
        let wanted = format!(in alloc; "{folder}/a.bin{end}")?;
        let slashed = format!(in alloc; "{folder}/")?;
        let given = if number == 1 {
            slashed.as_str()
        } else {
            folder.as_str()
        };
        match move_into(&rt, alloc, file, given, &mut err) {
            Ok(new) => assert!(&rt; new.as_str() == wanted.as_str()),
            Err(_) => assert!(&rt; false),
        }
        assert!(&rt; err.taken().is_empty());
        assert!(&rt; content_at(&rt, path.as_str()).is_none());
        assert!(&rt; has(&rt, wanted.as_str(), &content));
        assert!(&rt; seen_at(&rt, wanted.as_str())? == seen);
    }
    fs::remove_dir_all(&rt, top.as_str())?;
    Ok(())
}

#[test]
fn what_happens_meanwhile_loses_no_file(rt: HostRuntime) -> Result<(), Fail> {
    let alloc = rt.alloc();
    let top = folder_for(&rt, alloc, "meanwhile")?;
    let folder = format!(in alloc; "{top}/away")?;
    let path = format!(in alloc; "{top}/a")?;
    let other = format!(in alloc; "{top}/other")?;
    let new = format!(in alloc; "{folder}/a")?;
    // The event, the line, and what is then under the old name and the new one.
    let rows: [(Event, &[u8], &[u8], &[u8]); 6] = [
        (Event::Nothing, b"", b"", b"judged"),
        (
            Event::ReplacedBefore,
            b": cannot move: it is not the file that was scanned\n",
            b"other",
            b"",
        ),
        (Event::ReplacedAfter, b"", b"other", b"judged"),
        (Event::RemovedAfter, b"", b"", b"judged"),
        (
            Event::NotRemoved,
            b": cannot move: its old name can't be removed: permission denied\n",
            b"judged",
            b"",
        ),
        (
            Event::NoneRemoved,
            b": cannot move: a file is left under the new name\n",
            b"judged",
            b"judged",
        ),
    ];
    for (event, line, old_content, new_content) in rows {
        let _ = fs::remove_dir_all(&rt, folder.as_str());
        fs::create_dir(&rt, folder.as_str())?;
        put(&rt, path.as_str(), b"judged")?;
        put(&rt, other.as_str(), b"other")?;
        let files = Eventful {
            rt: &rt,
            event,
            path: path.as_str(),
            other: other.as_str(),
        };
        let file = Judged {
            path: path.as_str(),
            seen: seen_at(&rt, path.as_str())?,
        };
        let mut err = FakeWriter::new(alloc);
        let moved = move_into(&files, alloc, file, folder.as_str(), &mut err);
        match moved {
            Ok(place) => assert!(&rt; line.is_empty() && place.as_str() == new.as_str()),
            Err(status) => assert!(&rt; !line.is_empty() && status == Status::Device),
        }
        let said = err.taken();
        assert!(&rt;
            said.ends_with(line) && (line.is_empty() || said.len() == path.len() + line.len())
        );
        assert!(&rt; is_there(&rt, path.as_str(), old_content));
        assert!(&rt; is_there(&rt, new.as_str(), new_content));
        let _ = fs::remove_file(&rt, path.as_str());
    }
    fs::remove_dir_all(&rt, top.as_str())?;
    Ok(())
}

// Whether a file has this content, or isn't there where that is empty.
fn is_there(rt: &HostRuntime, path: &str, content: &[u8]) -> bool {
    if content.is_empty() {
        content_at(rt, path).is_none()
    } else {
        has(rt, path, content)
    }
}

// The line of a file that is not moved, behind its path; nothing where it was moved.
fn line_of(
    rt: &HostRuntime,
    alloc: Global,
    path: &str,
    seen: Seen,
    folder: &str,
) -> Result<Vec<u8>, Fail> {
    let mut err = FakeWriter::new(alloc);
    let moved = move_into(rt, alloc, Judged { path, seen }, folder, &mut err);
    let is_device = match moved {
        Err(status) => status == Status::Device,
        Ok(_) => false,
    };
    if !is_device || !err.taken().starts_with(path.as_bytes()) {
        return Ok(Vec::new(alloc));
    }
    let line = err.taken().get(path.len()..).unwrap_or(b"".as_slice());
    Ok(Vec::from_slice(alloc, line)?)
}

#[test]
fn what_is_not_the_judged_file_stays(rt: HostRuntime) -> Result<(), Fail> {
    let alloc = rt.alloc();
    let top = folder_for(&rt, alloc, "stays")?;
    let folder = format!(in alloc; "{top}/away")?;
    fs::create_dir(&rt, folder.as_str())?;
    let path = format!(in alloc; "{top}/a")?;
    let link = format!(in alloc; "{top}/link")?;
    let missing = format!(in alloc; "{top}/missing")?;
    put(&rt, path.as_str(), b"judged")?;
    symlink(&rt, path.as_str(), link.as_str())?;
    let seen = seen_at(&rt, path.as_str())?;
    let Node { device, number } = seen.node;
    let other = Seen {
        node: Node {
            device,
            number: number ^ 1,
        },
        ..seen
    };
    let away = Seen {
        node: Node {
            device: device ^ 1,
            number,
        },
        ..seen
    };
    let longer = Seen {
        length: seen.length + 1,
        ..seen
    };
    let later = Seen {
        written: seen.written ^ 1,
        ..seen
    };
    let is_another = b": cannot move: it is not the file that was scanned\n".as_slice();
    let is_not_regular = b": cannot move: it is not a regular file\n".as_slice();
    let is_inside = b": cannot move: it is in that folder\n".as_slice();
    let has_no_name =
        b": cannot move: it can't get a name in the folder: No such file or directory (os error 2)\n".as_slice();
    for (name, seen, into, wanted) in [
        (path.as_str(), other, folder.as_str(), is_another),
        (path.as_str(), away, folder.as_str(), is_another),
        (path.as_str(), longer, folder.as_str(), is_another),
        (path.as_str(), later, folder.as_str(), is_another),
        (missing.as_str(), seen, folder.as_str(), is_another),
        (link.as_str(), seen, folder.as_str(), is_not_regular),
        (folder.as_str(), seen, top.as_str(), is_not_regular),
        ("/", seen, folder.as_str(), is_not_regular),
        ("/dev/null", seen, folder.as_str(), is_not_regular),
        (path.as_str(), seen, top.as_str(), is_inside),
        (path.as_str(), seen, missing.as_str(), has_no_name),
    ] {
        let line = line_of(&rt, alloc, name, seen, into)?;
        assert!(&rt; line.as_slice() == wanted, "{name}");
        assert!(&rt; has(&rt, path.as_str(), b"judged"));
    }
    fs::remove_dir_all(&rt, top.as_str())?;
    Ok(())
}

#[test]
fn a_folder_on_another_file_system_takes_no_file(rt: HostRuntime) -> Result<(), Fail> {
    let alloc = rt.alloc();
    let top = folder_for(&rt, alloc, "elsewhere")?;
    let path = format!(in alloc; "{top}/a")?;
    put(&rt, path.as_str(), b"judged")?;
    let seen = seen_at(&rt, path.as_str())?;
    if let Ok(shared) = fs::metadata(&rt, "/dev/shm") {
        if Node::of(&shared).device != seen.node.device {
            let line = line_of(&rt, alloc, path.as_str(), seen, "/dev/shm")?;
            assert!(&rt;
                line.as_slice()
                    == b": cannot move: the folder is on another file system\n".as_slice()
            );
        }
    }
    assert!(&rt; has(&rt, path.as_str(), b"judged"));
    fs::remove_dir_all(&rt, top.as_str())?;
    Ok(())
}

#[test]
fn a_thousand_files_of_a_name_are_the_most(rt: HostRuntime) -> Result<(), Fail> {
    let alloc = rt.alloc();
    let top = folder_for(&rt, alloc, "full")?;
    let folder = format!(in alloc; "{top}/away")?;
    fs::create_dir(&rt, folder.as_str())?;
    let path = format!(in alloc; "{top}/a")?;
    put(&rt, path.as_str(), b"judged")?;
    for number in 1..=998 {
        let taken = format!(in alloc; "{folder}/a.{number}")?;
        put(&rt, taken.as_str(), b"")?;
    }
    let first = format!(in alloc; "{folder}/a")?;
    put(&rt, first.as_str(), b"")?;
    let seen = seen_at(&rt, path.as_str())?;
    let mut err = FakeWriter::new(alloc);
    let file = Judged {
        path: path.as_str(),
        seen,
    };
    let last = format!(in alloc; "{folder}/a.999")?;
    match move_into(&rt, alloc, file, folder.as_str(), &mut err) {
        Ok(new) => assert!(&rt; new.as_str() == last.as_str()),
        Err(_) => assert!(&rt; false),
    }
    put(&rt, path.as_str(), b"judged")?;
    let seen = seen_at(&rt, path.as_str())?;
    let line = line_of(&rt, alloc, path.as_str(), seen, folder.as_str())?;
    assert!(&rt;
        line.as_slice() == b": cannot move: the folder has 1,000 files of that name\n".as_slice()
    );
    assert!(&rt; has(&rt, path.as_str(), b"judged"));
    fs::remove_dir_all(&rt, top.as_str())?;
    Ok(())
}

#[test]
fn refused_or_not_a_file_is_moved_or_stays(rt: HostRuntime) -> Result<(), Fail> {
    let alloc = rt.alloc();
    let top = folder_for(&rt, alloc, "memory")?;
    let folder = format!(in alloc; "{top}/away")?;
    fs::create_dir(&rt, folder.as_str())?;
    let path = format!(in alloc; "{top}/a")?;
    let new = format!(in alloc; "{folder}/a.1")?;
    let taken = format!(in alloc; "{folder}/a")?;
    put(&rt, taken.as_str(), b"")?;
    put(&rt, path.as_str(), b"judged")?;
    let seen = seen_at(&rt, path.as_str())?;
    let file = Judged {
        path: path.as_str(),
        seen,
    };
    let mut err = FakeWriter::new(alloc);
    may_refuse(alloc);
    let moved = move_into(&rt, alloc, file, folder.as_str(), &mut err);
    refuse_no_more(alloc);
    // Where memory was refused the files stay as they are: the run that goes on with memory has them too.
    match moved {
        Ok(place) => {
            assert!(&rt; place.as_str() == new.as_str());
            assert!(&rt; is_there(&rt, path.as_str(), b"") && has(&rt, new.as_str(), b"judged"));
            fs::remove_dir_all(&rt, top.as_str())?;
        }
        Err(status) => {
            assert!(&rt; status == Status::Memory);
            assert!(&rt; has(&rt, path.as_str(), b"judged") && is_there(&rt, new.as_str(), b""));
        }
    }
    Ok(())
}
