//! The log of decisions: its lines wait, and go to a file, or to standard error.

ghost use Rattle.std.specs.Prelude.{◌≡◌};
ghost use Rattle.av_daemon.specs.Recorder.{judged_answer, judged_of};

use av_guard::Answered;
use av_log::{Form, Judged, LogEntry, Queue, fields_of, is_due, put_line, stamp_of};
use av_peers::told::LargeTold;
use std::alloc::{AllocError, Global};
use std::fs;
use std::fs::{Files, OpenFile, OpenOptions};
use std::io::{ErrorKind, Write};
use std::os::unix::fs::{MetadataExt, OpenOptionsExt};

/// How decisions are logged.
#[derive(Clone, Copy, Debug)]
pub struct Logging<'a> {
    /// The file that lines are put at the end of; without one they go to standard error.
    pub file: Option<&'a str>,
    /// A grant has a line too.
    pub has_grants: bool,
    pub form: Form,
}

/// The most bytes of lines that wait.
pub const MOST_WAITING: usize = 1_048_576;

// How many bytes are written at a time.
const PIECE: usize = 65_536;

/// What writes the log.
#[derive(Drop)]
pub struct Recorder<'a, F> {
    alloc: Global,
    pub logging: Logging<'a>,
    // The line that is being made.
    line: Vec<u8>,
    queue: Queue,
    file: Option<Opened<F>>,
    // When the place of the file was looked at last, in milliseconds.
    looked: Option<u64>,
    // The last write failed, or the file can't be opened.
    is_failing: bool,
}

/// An open file, and which one it is.
#[derive(Drop)]
pub struct Opened<F> {
    file: F,
    device: u64,
    number: u64,
}

/// The file of a log can't be opened, or is no regular file.
#[derive(Clone, Copy, Debug, PartialEq, Eq)]
pub struct BadLog;

/// The file at this path, which is made where there is none, with the owner's rights alone. It is opened for reading too, so that the
/// opening of a FIFO waits for nobody; what is no regular file is not taken.
pub fn open_log<R: Files>(rt: &R, path: &str) -> Result<Opened<R::File>, BadLog> {
    if let Ok(data) = fs::metadata(rt, path) {
        if !data.is_file() {
            return Err(BadLog);
        }
    }
    let mut how = OpenOptions::new();
    let _ = how.read(true).append(true).create(true).mode(0o600);
    let Ok(file) = how.open(rt, path) else {
        return Err(BadLog);
    };
    match file.metadata() {
        Ok(data) if data.is_file() => Ok(Opened {
            file,
            device: data.dev(),
            number: data.ino(),
        }),
        _ => Err(BadLog),
    }
}

impl<'a, F: Write + Drop> Recorder<'a, F> {
    /// To this file, or to standard error.
    pub fn new(
        alloc: Global,
        logging: Logging<'a>,
        file: Option<Opened<F>>,
    ) -> Result<Recorder<'a, F>, AllocError> {
        let most = if file.is_some() { MOST_WAITING } else { 0 };
        Ok(Recorder {
            alloc,
            logging,
            line: Vec::new(alloc),
            queue: Queue::new(alloc, most)?,
            file,
            looked: None,
            is_failing: false,
        })
    }

    /// Whether the lines go to standard error.
    pub fn is_on_error(&self) -> bool {
        self.logging.file.is_none()
    }

    /// Puts the line of an entry at this time to the lines that wait, here or for standard error.
    pub fn record(&mut self, entry: &LogEntry<'_>, millis: u64, error: &mut Queue) {
        let is_made = self.make(entry, millis).is_ok();
        if self.logging.file.is_none() {
            put_made(error, self.line.as_slice(), is_made);
        } else {
            put_made(&mut self.queue, self.line.as_slice(), is_made);
        }
    }

    fn make(&mut self, entry: &LogEntry<'_>, millis: u64) -> Result<(), AllocError> {
        self.line.clear();
        let fields = fields_of(self.alloc, entry)?;
        let stamp = stamp_of(millis);
        put_line(
            self.alloc,
            &mut self.line,
            self.logging.form,
            stamp.as_slice(),
            fields.as_slice(),
        )
    }

    /// When something that waits is to be written: at once, or once a failed file is tried again. In milliseconds.
    pub fn due(&self) -> Option<u64> {
        if self.queue.is_empty() && self.queue.dropped() == 0 {
            return None;
        }
        match self.looked {
            Some(looked) if self.is_failing => Some(looked.saturating_add(1_000)),
            _ => Some(0),
        }
    }

    /// Writes a piece of what waits. Where the file is gone from its place another is made there. Once nothing waits it gives how many
    /// lines were dropped.
    pub fn send<R: Files<File = F>>(&mut self, rt: &R, now: u64) -> u64 {
        let Some(path) = self.logging.file else {
            return 0;
        };
        if self.queue.is_empty() && self.queue.dropped() == 0 {
            return 0;
        }
        let is_looked_at = is_due(self.looked, now);
        if self.is_failing && !is_looked_at {
            return 0;
        }
        if is_looked_at {
            self.looked = Some(now);
            self.look(rt, path);
        }
        self.write()
    }

    // Opens the file that is at the path, where it isn't the one that is open.
    fn look<R: Files<File = F>>(&mut self, rt: &R, path: &str) {
        if self.is_there(rt, path) {
            return;
        }
        self.queue.drop_begun();
        self.file = match open_log(rt, path) {
            Ok(file) => Some(file),
            Err(BadLog) => None,
        };
    }

    fn is_there<R: Files<File = F>>(&self, rt: &R, path: &str) -> bool {
        match (&self.file, fs::metadata(rt, path)) {
            (Some(open), Ok(data)) => data.dev() == open.device && data.ino() == open.number,
            _ => false,
        }
    }

    fn write(&mut self) -> u64 {
        let Some(open) = &mut self.file else {
            self.is_failing = true;
            return 0;
        };
        if self.queue.is_empty() {
            return self.queue.take_dropped();
        }
        match open.file.write(self.queue.piece(PIECE)) {
            Ok(taken) => {
                self.queue.gone(taken);
                self.is_failing = taken == 0;
            }
            Err(error) => self.is_failing = error.kind() != ErrorKind::Interrupted,
        }
        if self.is_failing {
            0
        } else {
            self.queue.take_dropped()
        }
    }
}

// Puts a line to those that wait. One that could not be made is dropped.
fn put_made(queue: &mut Queue, line: &[u8], is_made: bool) {
    if is_made {
        queue.put(line);
    } else {
        queue.drop_one();
    }
}

/// An answer as the log has it.
pub fn judged_of(told: LargeTold) -> Judged
    ensures { result ≡ judged_of told }
{
    match told {
        LargeTold::Answered(answer) => judged_answer(answer),
        LargeTold::Denied { cause } => Judged::LargeDenied { cause },
        LargeTold::Unscanned { cause } => Judged::LargeUnscanned { cause },
    }
}

// The same of an answer that an ask can have too.
fn judged_answer(answer: Answered) -> Judged
    ensures { result ≡ judged_answer answer }
{
    match answer {
        Answered::Granted { version, .. } => Judged::Granted { version },
        Answered::Infected {
            version,
            signature,
            end,
        } => Judged::Infected {
            version,
            signature,
            end,
        },
        Answered::Denied { cause } => Judged::Denied { cause },
        Answered::Unscanned { cause, .. } => Judged::Unscanned { cause },
    }
}
