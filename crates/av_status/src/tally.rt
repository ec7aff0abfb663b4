//! What came of files, in numbers: the summary, and the status for what was found.

ghost use Rattle.std.specs.Prelude.{◌≡◌, ◌<◌};
ghost use Rattle.av_status.specs.Tally.{concluded, has_line, no_files, with_missed, with_scanned};
ghost use Rattle.av_status.specs.declared.status.Status.TheVariants.{Found};

use crate::faults::{say, text};
use crate::status::Status;
use av_base::Part;
use std::io::Write;

/// Which files have a line.
#[derive(Clone, Copy, Debug, PartialEq, Eq)]
pub enum Shown {
    /// Each.
    All,
    /// Of files that are scanned the infected ones, of files that are opened those that were not granted.
    Infected,
}

impl Shown {
    /// Whether a file has a line, where there is something to tell of it or not.
    pub fn has_line(self, is_told: bool) -> bool
        ensures { result ≡ has_line self is_told }
    {
        match self {
            Shown::All => true,
            Shown::Infected => is_told,
        }
    }
}

/// How a command writes what it did.
#[derive(Clone, Copy, Debug, PartialEq, Eq)]
pub enum Form {
    /// In lines of words.
    Lines,
    /// In lines of JSON, an object each.
    Json,
    /// In words, each file ended by a zero byte in place of the line's end, under its name as it is.
    ZeroEnded,
}

/// What the user wants to be told of files.
#[derive(Clone, Copy, Debug, PartialEq, Eq)]
pub struct Wishes {
    pub shown: Shown,
    pub form: Form,
    /// Statuses of their own where something is infected.
    pub has_found_status: bool,
    /// A line at the end that says how many files were scanned.
    pub has_summary: bool,
}

/// How many files were scanned, how many of those are infected, how many others could not be scanned, and the greatest status
/// of a fault, Done where there was none.
#[derive(Clone, Copy, Debug, PartialEq, Eq)]
pub struct Tally {
    pub scanned: u64,
    pub infected: u64,
    pub missed: u64,
    pub worst: Status,
}

impl Tally {
    /// The tally of no file.
    pub fn new() -> Tally
        ensures { result ≡ no_files }
    {
        Tally {
            scanned: 0,
            infected: 0,
            missed: 0,
            worst: Status::Done,
        }
    }

    /// Counts a file that was scanned.
    pub fn add_scanned(&mut self, is_infected: bool)
        ensures { self.new ≡ with_scanned self.old is_infected }
    {
        self.scanned = self.scanned.saturating_add(1);
        if is_infected {
            self.infected = self.infected.saturating_add(1);
        }
    }

    /// Counts a file that could not be scanned, for a fault of this status.
    pub fn add_missed(&mut self, status: Status)
        ensures { self.new ≡ with_missed self.old status }
    {
        self.missed = self.missed.saturating_add(1);
        self.worst = self.worst.or_graver(status);
    }

    /// How a run with these files ends.
    pub fn status(&self, wishes: Wishes) -> Status
        ensures { result ≡ concluded wishes self.now }
    {
        let has_found = wishes.has_found_status && self.infected > 0;
        match self.worst {
            Status::Done if has_found => Status::Found,
            Status::Done => Status::Done,
            _ if has_found => Status::FoundInPart,
            failed => failed,
        }
    }
}

/// Ends a run: the summary to `err`, where it is wanted, and the status.
pub fn conclude<E: Write>(err: &mut E, tally: Tally, wishes: Wishes) -> Status
    ensures { result ≡ concluded wishes tally }
{
    if wishes.has_summary {
        say(
            err,
            &[
                Part::Number(tally.scanned),
                text(" files scanned, "),
                Part::Number(tally.infected),
                text(" infected, "),
                Part::Number(tally.missed),
                text(" not scanned"),
            ],
        );
    }
    tally.status(wishes)
}
