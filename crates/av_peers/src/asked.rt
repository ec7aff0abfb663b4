ghost use Rattle.std.specs.Prelude.{◌≡◌, [], None, Some, is_some, OnErr, OnOk};
ghost use Rattle.av_peers.specs.Asked.{asked_of, over_of, question_at, replied_of, IsNext};

use std::alloc::{AllocError, Global};
use std::collections::BTreeMap;
use std::marker::Model;
use std::time::Duration;

/// The questions that a service was asked and has not answered, and since when it has answered none of them.
#[derive(Drop)]
pub struct Asked {
    running: BTreeMap<u64, Question>,
    since: Option<Duration>,
}

/// A question that a service was asked.
#[derive(Clone, Copy, Debug, PartialEq, Eq)]
pub struct Question {
    /// The number of the stream that has the content.
    pub stream: u64,
    /// When the first byte of the ask came, in milliseconds.
    pub first: u64,
}

impl Model for Asked {
    ghost use Rattle.av_peers.specs.Asked.{Owed};

    ghost Value = { Owed };

    ghost view = { λ a. record { running = a.running.entries; since = a.since } };
}

impl Asked {
    /// None.
    pub fn new(alloc: Global) -> Asked
        ensures { result ≡ record { running = []; since = None } }
    {
        Asked {
            running: BTreeMap::new(alloc),
            since: None,
        }
    }

    /// It was asked one more.
    pub fn asked(&mut self, seq: u64, question: Question, now: Duration) -> Result<(), AllocError>
        ensures ok { OnOk result (self.new ≡ asked_of seq question now self.old) }
        ensures err { OnErr result (self.new ≡ self.old) }
    {
        match self.running.insert(seq, question) {
            Ok(_) => {}
            Err(_) => return Err(AllocError),
        }
        if self.since.is_none() {
            self.since = Some(now);
        }
        Ok(())
    }

    /// Whether it was asked this one, and has not answered it.
    pub fn has(&self, seq: u64) -> bool
        ensures { result ≡ is_some (question_at seq self.now) }
    {
        self.running.get(&seq).is_some()
    }

    /// It answered one.
    pub fn replied(&mut self, seq: u64, now: Duration) -> Option<Question>
        ensures question { result ≡ question_at seq self.old }
        ensures state { self.new ≡ replied_of seq now self.old }
    {
        let question = self.running.get(&seq).copied();
        if question.is_some() {
            let _ = self.running.remove(&seq);
            self.since = if self.running.len() == 0 {
                None
            } else {
                Some(now)
            };
        }
        question
    }

    /// One is not to be answered any more.
    pub fn over(&mut self, seq: u64)
        ensures { self.new ≡ over_of seq self.old }
    {
        let _ = self.running.remove(&seq);
        if self.running.len() == 0 {
            self.since = None;
        }
    }

    /// Since when it has answered none, where it was asked one.
    pub fn since(&self) -> Option<Duration>
        ensures { result ≡ self.now.since }
    {
        self.since
    }

    /// Takes the first one out.
    pub fn next(&mut self) -> Option<(u64, Question)>
        ensures { IsNext self.old self.new result }
    {
        if self.running.len() == 0 {
            return None;
        }
        self.running.pop_first()
    }
}
