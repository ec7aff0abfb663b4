use crate::prefixed::Prefixed;
use av_base::Part;
use av_base::parts::write_parts;
use std::io;
use std::io::Write;
use std::time::{Clock, Duration};

// Milliseconds for which a run is silent, and for which a line of progress stands at least; and between two looks at a run.
const PAUSE: u64 = 300;

const LOOK: u64 = 5;

/// Standard error of a program that may run long. On a terminal it shows how far the run got, on one line that is written
/// over and over and is wiped out before anything else is written. A short run shows nothing.
#[derive(Drop)]
pub struct Progress<'a, C, E> {
    clock: &'a C,
    err: Prefixed<E>,
    is_wanted: bool,
    since: Option<Duration>,
    is_shown: bool,
}

impl<'a, C: Clock, E: Write> Progress<'a, C, E> {
    /// Writes to `err`, and shows progress there where `is_wanted`.
    pub fn new(clock: &'a C, err: Prefixed<E>, is_wanted: bool) -> Progress<'a, C, E> {
        Progress {
            clock,
            err,
            is_wanted,
            since: None,
            is_shown: false,
        }
    }

    /// Whether progress is to be shown.
    pub fn is_wanted(&self) -> bool {
        self.is_wanted
    }

    /// Waits a little, before it is looked again how far the run got.
    pub fn pause(&self) {
        self.clock.sleep(Duration::from_millis(LOOK));
    }

    /// Of so many files this many are done.
    pub fn step(&mut self, verb: &'static str, done: usize, all: usize) {
        if !self.is_wanted || !self.is_time() {
            return;
        }
        let _ = write_parts(
            &mut self.err.writer,
            &[
                Part::Text(b"\r".as_slice()),
                Part::Text(verb.as_bytes()),
                Part::Text(b" ".as_slice()),
                Part::Number(done as u64),
                Part::Text(b" of ".as_slice()),
                Part::Number(all as u64),
                Part::Text(b" files\x1b[K".as_slice()),
            ],
        );
        let _ = self.err.flush();
        self.is_shown = true;
    }

    /// So many files are done, of nobody knows how many.
    pub fn step_on(&mut self, verb: &'static str, done: u64) {
        if !self.is_wanted || !self.is_time() {
            return;
        }
        let _ = write_parts(
            &mut self.err.writer,
            &[
                Part::Text(b"\r".as_slice()),
                Part::Text(verb.as_bytes()),
                Part::Text(b" ".as_slice()),
                Part::Number(done),
                Part::Text(b" files\x1b[K".as_slice()),
            ],
        );
        let _ = self.err.flush();
        self.is_shown = true;
    }

    /// Wipes out the line of progress, where one is shown.
    pub fn wipe(&mut self) {
        if self.is_shown {
            let _ = write_parts(&mut self.err.writer, &[Part::Text(b"\r\x1b[K".as_slice())]);
            self.is_shown = false;
        }
    }

    // Whether the pause since the line before, or since the start, is over.
    fn is_time(&mut self) -> bool {
        let Ok(now) = self.clock.monotonic() else {
            return false;
        };
        let Some(since) = self.since else {
            self.since = Some(now);
            return false;
        };
        if now.saturating_sub(since) < Duration::from_millis(PAUSE) {
            return false;
        }
        self.since = Some(now);
        true
    }
}

impl<'a, C: Clock, E: Write> Write for Progress<'a, C, E> {
    fn write(&mut self, buf: &[u8]) -> io::Result<usize> {
        self.wipe();
        self.err.write(buf)
    }

    fn flush(&mut self) -> io::Result<()> {
        self.err.flush()
    }
}
