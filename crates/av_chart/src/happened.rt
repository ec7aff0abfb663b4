//! What happened in a script's run: who sent what, where it arrived, how long each open, question, job and work lived, and what
//! each step told.

ghost use Rattle.std.specs.Prelude.{◌≡◌, OnOk};
ghost use Rattle.av_chart.specs.Row.{asked_lines, count, is_noted, late_of, note_of, sent_by, silent};
ghost use Rattle.av_chart.specs.Story.{nothing, story_of, with_step};

use crate::life::{Lives, Moment};
use av_base::{Port, Verdict};
use av_filter::Note as FilterNote;
use av_history::{EventNote, JudgeFault, StepFault};
use av_output::Direction;
use av_service::ServiceNote;
use std::alloc::{AllocError, Global};

/// How many steps an arrow spans at most; a farther one is drawn in two parts.
pub const REACH: u64 = 8;

/// A run of places of one of the world's lists, from 0: `from` and those up to `to`.
#[derive(Clone, Copy)]
pub struct Span {
    pub from: u64,
    pub to: u64,
}

impl Span {
    /// Of no places.
    pub fn empty() -> Span
        ensures from { result.from ≡ 0 }
        ensures to { result.to ≡ 0 }
    {
        Span { from: 0, to: 0 }
    }

    /// How many places.
    pub fn count(self) -> u64
        ensures { result ≡ count self }
    {
        self.to.saturating_sub(self.from)
    }
}

/// What befell the stream that a command names, on the volume's lane.
#[derive(Clone, Copy)]
pub enum VolumeMark {
    Created,
    Changed {
        generation: u64,
        length: u64,
    },
    Removed,
    Judged {
        generation: u64,
        version: u64,
        verdict: Verdict,
    },
}

/// What the opener asks the filter about the stream that a command names.
#[derive(Clone, Copy)]
pub enum Asks {
    Open { open_id: u64 },
    Cleanup,
}

/// What befalls the filter: the question of a timeout is the one that the command names.
#[derive(Clone, Copy)]
pub enum FilterMark {
    Boot { boot: u64 },
    Timeout,
    ServiceLost { port: Port },
}

/// What befalls the service of a port, or both.
#[derive(Clone, Copy)]
pub enum ServiceMark {
    FilterLost { port: Port },
    Restart { port: Port },
    Set { version: u64, signatures: u64 },
}

/// The note of a step, where it has a word.
#[derive(Clone, Copy)]
pub enum Said {
    Quiet,
    Welcome,
    NoWaiter,
    Ignored,
    NoStream,
    WrongVolume,
    Connected,
    OldVersion,
    Repeat,
    IgnoredByService,
    Orphan,
}

impl Said {
    /// The note that has this word.
    pub fn note(self) -> EventNote
        ensures { result ≡ note_of self }
    {
        match self {
            Said::Quiet => EventNote::Filter(FilterNote::Quiet),
            Said::Welcome => EventNote::Filter(FilterNote::Welcome),
            Said::NoWaiter => EventNote::Filter(FilterNote::NoWaiter),
            Said::Ignored => EventNote::Filter(FilterNote::Ignored),
            Said::NoStream => EventNote::Filter(FilterNote::NoStream),
            Said::WrongVolume => EventNote::Filter(FilterNote::WrongVolume),
            Said::Connected => EventNote::Filter(FilterNote::Connected),
            Said::OldVersion => EventNote::Filter(FilterNote::OldVersion),
            Said::Repeat => EventNote::Service(ServiceNote::Repeat),
            Said::IgnoredByService => EventNote::Service(ServiceNote::Ignored),
            Said::Orphan => EventNote::Service(ServiceNote::Orphan),
        }
    }
}

/// Why a command is refused.
#[derive(Clone, Copy)]
pub enum Refused {
    Step(StepFault),
    Judge(JudgeFault),
}

/// The arrival of a message in a step: its place in its list, from 0, and whether it had arrived before.
#[derive(Clone, Copy)]
pub struct Arrival {
    pub way: Direction,
    pub index: usize,
    pub is_again: bool,
    /// More steps than one arrow spans lie behind it, or it arrived before.
    pub is_far: bool,
    /// It brings nothing any more.
    pub is_spent: bool,
}

/// One command, and what it did.
#[derive(Clone, Copy)]
pub struct Step {
    /// The number of its line, from 1, and the places of its text in the script.
    pub line: u64,
    pub command: Span,
    pub refused: Option<Refused>,
    pub volume: Option<VolumeMark>,
    pub asks: Option<Asks>,
    pub filter: Option<FilterMark>,
    pub service: Option<ServiceMark>,
    pub note: Said,
    pub answers: Span,
    pub down: Span,
    pub up: Span,
    pub arrival: Option<Arrival>,
    /// The newest piece of work that it lent, and the one that it ran, by their places, from 0.
    pub lent: Option<usize>,
    pub ran: Option<usize>,
}

impl Step {
    /// A command that has done nothing yet.
    pub fn new(line: u64, command: Span) -> Step
        ensures { result ≡ silent line command }
    {
        Step {
            line,
            command,
            refused: None,
            volume: None,
            asks: None,
            filter: None,
            service: None,
            note: Said::Quiet,
            answers: Span::empty(),
            down: Span::empty(),
            up: Span::empty(),
            arrival: None,
            lent: None,
            ran: None,
        }
    }

    /// Whether its note has a word.
    pub fn is_noted(&self) -> bool
        ensures { result ≡ is_noted self.now.note }
    {
        !matches!(self.note, Said::Quiet)
    }

    /// On how many lines it has stood between opener and filter before its answers.
    pub fn asked_lines(&self) -> u64
        ensures { result ≡ asked_lines self.now }
    {
        if self.asks.is_some() || self.filter.is_some() {
            1
        } else {
            0
        }
    }

    /// How many messages it sent.
    pub fn sent(&self) -> u64
        ensures { result ≡ sent_by self.now }
    {
        self.down.count().saturating_add(self.up.count())
    }

    /// How much lower what is sent stands than what arrives, so that its words are clear of the arriving line.
    pub fn late(&self) -> u32
        ensures { result ≡ late_of self.now }
    {
        match self.arrival {
            Some(arrival) if self.sent() > 0 => { if arrival.is_far { 17 } else { 11 } }
            _ => 0,
        }
    }
}

/// A message: when it was sent, and the steps in which it arrived.
#[derive(Drop)]
pub struct Sent {
    pub at: Moment,
    pub arrivals: Vec<u64>,
}

/// How many opens were told what.
#[derive(Clone, Copy)]
pub struct Counts {
    pub granted: u64,
    pub unscanned: u64,
    pub denied: u64,
}

/// All that happened.
#[derive(Drop)]
pub struct Happened<'a> {
    pub steps: Vec<Step>,
    pub down: Vec<Sent>,
    pub up: Vec<Sent>,
    pub opens: Lives<'a>,
    pub questions: Lives<'a>,
    pub jobs: Lives<'a>,
    pub works: Lives<'a>,
    /// The line that told each piece of work.
    pub works_told: Vec<Vec<u8>>,
    /// The name of each stream that was ever created.
    pub names: Vec<&'a [u8]>,
    pub counts: Counts,
}

impl<'a> Happened<'a> {
    /// Nothing yet.
    pub fn new(alloc: Global) -> Happened<'a>
        ensures { story_of result ≡ nothing }
    {
        Happened {
            steps: Vec::new(alloc),
            down: Vec::new(alloc),
            up: Vec::new(alloc),
            opens: Lives::new(alloc),
            questions: Lives::new(alloc),
            jobs: Lives::new(alloc),
            works: Lives::new(alloc),
            works_told: Vec::new(alloc),
            names: Vec::new(alloc),
            counts: Counts {
                granted: 0,
                unscanned: 0,
                denied: 0,
            },
        }
    }

    /// Takes a step.
    pub fn add(&mut self, step: Step) -> Result<(), AllocError>
        ensures { OnOk result (story_of self.new ≡ with_step (story_of self.old) step) }
    {
        self.steps.reserve(1)?;
        self.steps.push_reserved(step);
        Ok(())
    }
}
