//! What is said on standard error, and in the log of decisions.

ghost use Rattle.std.specs.Prelude.{◌≡◌};

use super::telling::Reply;
use super::{Daemon, LOG, millis};
use crate::log::send_lines;
use crate::names::Names;
use crate::recorder::judged_of;
use av_base::{Part, Port, Version};
use av_log::{AskNote, AskSocket, Asked, LogEntry, Told, is_logged};
use av_peers::told::LargeTold;
use av_status::faults::{say, text};
use std::alloc::Global;
use std::fs::Files;
use std::io::Write;
use std::net::Net;
use std::time::{Clock, Duration};

// So many commands of a client of clamd end in each way; a tag has both.
const ENDS: u64 = 256;

impl<'a, R: Files + Net + Clock> Daemon<'a, R> {
    // Something happened: standard error says so, unless it is the log, and the log does.
    pub(super) fn happened(&mut self, entry: &LogEntry<'_>) {
        let is_on_error = match &self.recorder {
            Some(recorder) => recorder.is_on_error(),
            None => false,
        };
        if !is_on_error {
            say_entry(&mut self.log, entry);
        }
        self.record(entry);
    }

    // The log has a line of an entry, where there is a log.
    pub(super) fn record(&mut self, entry: &LogEntry<'_>) {
        let time = match self.rt.since_1970() {
            Ok(time) => millis(time),
            Err(_) => 0,
        };
        if let Some(recorder) = &mut self.recorder {
            recorder.record(entry, time, &mut self.log.writer.queue);
        }
    }

    // The log has a line of an answer, where there is a log and it has lines of such answers.
    pub(super) fn record_told(&mut self, reply: Reply, way: AskSocket, note: Option<AskNote>)
        ensures { self.new.clients ≡ self.old.clients }
    {
        let judged = judged_of(reply.told);
        let is_logged = match &self.recorder {
            Some(recorder) => is_logged(recorder.logging.has_grants, judged),
            None => false,
        };
        if !is_logged {
            return;
        }
        let time = match self.rt.since_1970() {
            Ok(time) => millis(time),
            Err(_) => 0,
        };
        look(&mut self.names, self.rt, self.alloc, reply.told);
        let entry = LogEntry::Told(Told {
            judged,
            name: name_in(&self.names, reply.told),
            way,
            client: reply.client,
            tag: match way {
                AskSocket::Opens => reply.tag,
                AskSocket::Clamd => reply.tag / ENDS,
            },
            asked: match &note {
                Some(note) => Some(Asked {
                    bytes: note.bytes,
                    label: match &note.label {
                        Some(label) => Some(label.as_slice()),
                        None => None,
                    },
                }),
                None => None,
            },
        });
        if let Some(recorder) = &mut self.recorder {
            recorder.record(&entry, time, &mut self.log.writer.queue);
        }
    }

    // Writes what waits of both, as far as that is taken without a wait, and tells how many lines were dropped.
    pub(super) fn write_lines<E: Write>(&mut self, now: Duration, err: &mut E) {
        let registry = self.doors.poll.registry();
        let dropped = send_lines(&mut self.log, registry, LOG, err);
        if dropped > 0 {
            self.counts.dropped(dropped);
            self.tell_dropped(dropped);
        }
        let lost = match &mut self.recorder {
            Some(recorder) => recorder.send(self.rt, millis(now)),
            None => 0,
        };
        if lost > 0 {
            self.counts.dropped(lost);
            self.record(&LogEntry::Dropped(lost));
        }
        self.goes_on = self.goes_on || self.log.writer.may_send();
    }

    // Lines for standard error were dropped.
    fn tell_dropped(&mut self, dropped: u64) {
        match &self.recorder {
            Some(recorder) if recorder.is_on_error() => self.record(&LogEntry::Dropped(dropped)),
            _ => {
                let _ = write!(self.log, "{dropped} lines were dropped\n");
            }
        }
    }

    // When a line that waits is written.
    pub(super) fn lines_due(&self) -> Option<Duration> {
        let due = self.recorder.as_ref()?.due()?;
        Some(Duration::from_millis(due))
    }
}

// Reads the names of signatures again, where an answer names one of a set that isn't there.
pub(super) fn look<R: Files>(names: &mut Names<'_>, rt: &R, alloc: Global, told: LargeTold) {
    if let LargeTold::Answered(answer) = told {
        names.look(rt, alloc, answer);
    }
}

// The name of the signature that an answer names, where it is known.
pub(super) fn name_in<'n>(names: &'n Names<'_>, told: LargeTold) -> Option<&'n [u8]> {
    match told {
        LargeTold::Answered(answer) => names.name_in(answer),
        _ => None,
    }
}

// Says in words what happened. An answer and a newer set are for the log alone.
fn say_entry<E: Write>(err: &mut E, entry: &LogEntry<'_>) {
    match entry {
        LogEntry::Told(_) | LogEntry::Newer { .. } | LogEntry::Unkept(_) | LogEntry::Dropped(_) =>
            {}
        LogEntry::Connected { port, version } => say_connected(err, *port, *version),
        LogEntry::Lost(port) => say(err, &[text(name_of(*port)), text(" lost")]),
        LogEntry::Older { version, least } => {
            say_refused(err, *version, " is older than ", *least);
        }
        LogEntry::Above { version, most } => say_refused(err, *version, " is above ", *most),
        LogEntry::Silent => say(err, &[text("the service did not greet")]),
        LogEntry::Stuck(port) => {
            let why = text(" answered none of 8 questions in a row");
            say(err, &[text("the "), text(name_of(*port)), why]);
        }
        LogEntry::Quiet(port) => {
            let why = text(" answered no question for half of --wait");
            say(err, &[text("the "), text(name_of(*port)), why]);
        }
        LogEntry::PartsConnected(_) => say(err, &[text("parts connected")]),
        LogEntry::PartsLost => say(err, &[text("parts lost")]),
        LogEntry::PartsOlder { version, least } => say_parts_older(err, *version, *least),
        LogEntry::Crowded => say(
            err,
            &[text("the longest idle client was closed: all places are taken")],
        ),
    }
}

// What the service of a port is called.
fn name_of(port: Port) -> &'static str {
    match port {
        Port::One => "service",
        Port::Two => "spare",
    }
}

// Says that a service of this version is there.
fn say_connected<E: Write>(err: &mut E, port: Port, version: Version) {
    let number = Part::Number(version.get());
    say(
        err,
        &[
            text(name_of(port)),
            text(" of version "),
            number,
            text(" connected"),
        ],
    );
    if version.get() == u64::MAX {
        say(
            err,
            &[text("no newer set than that can follow: see --most-version")],
        );
    }
}

// Says why a service was turned away.
fn say_refused<E: Write>(err: &mut E, version: Version, why: &str, bound: Version) {
    say(
        err,
        &[
            text("service of version "),
            Part::Number(version.get()),
            Part::Text(why.as_bytes()),
            Part::Number(bound.get()),
        ],
    );
}

// Says that a second connection was turned away.
fn say_parts_older<E: Write>(err: &mut E, version: Version, least: Version) {
    let (number, bound) = (Part::Number(version.get()), Part::Number(least.get()));
    say(
        err,
        &[
            text("parts of version "),
            number,
            text(" are older than "),
            bound,
        ],
    );
}
