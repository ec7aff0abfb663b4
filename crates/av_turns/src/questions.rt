ghost use Rattle.std.specs.Prelude.{◌≡◌, [], None, true, is_some, IfSome, IfNone, OnOk, OnErr};
ghost use Rattle.std.specs.Bool.{OnTrue, OnFalse};
ghost use Rattle.av_turns.specs.Questions.{Asks, Ends, is_asked, IsNoneAsked, IsNoneAskedBefore, question_at};
ghost use Rattle.av_turns.specs.Windows.{has_room};

use crate::times::Times;
use crate::windows::Windows;
use std::alloc::{AllocError, Global};
use std::collections::BTreeMap;
use std::marker::Model;

/// The questions that run, and when the time of each is up.
#[derive(Drop)]
pub struct Questions {
    running: BTreeMap<u64, Question>,
    due: Times,
    windows: Windows,
}

/// A question that runs.
#[derive(Clone, Copy, Debug, PartialEq, Eq)]
pub struct Question {
    /// When its time is up.
    pub due: u64,
    /// How long its content is.
    pub bytes: u64,
}

impl Model for Questions {
    ghost use Rattle.av_turns.specs.Questions.{IsTimed, Running};

    ghost Value = { Running };

    ghost view = { λ q. record { running = q.running.entries; windows = q.windows } };

    ghost invariant = { λ q. IsTimed q.running.entries q.due };
}

impl Questions {
    /// None runs.
    pub fn new(alloc: Global) -> Questions
        ensures { result ≡ record { running = []; windows = record { small = 0; large = 0 } } }
    {
        Questions {
            running: BTreeMap::new(alloc),
            due: Times::new(alloc),
            windows: Windows { small: 0, large: 0 },
        }
    }

    /// Whether a question of so many bytes may be asked.
    pub fn has_room(&self, bytes: u64) -> bool
        ensures { result ≡ has_room bytes self.now.windows }
    {
        self.windows.has_room(bytes)
    }

    /// A question is asked. One that runs already goes on as it was.
    pub fn asked(&mut self, seq: u64, due: u64, bytes: u64) -> Result<(), AllocError>
        ensures ok { OnOk result (question_at self.old.running seq ≡ None → Asks self.old self.new seq due bytes) }
        ensures again { is_some (question_at self.old.running seq) ≡ true → self.new ≡ self.old }
        ensures err { OnErr result (self.new ≡ self.old) }
    {
        if self.running.contains_key(&seq) {
            return Ok(());
        }
        self.due.change(seq, None, Some(due))?;
        match self.running.insert(seq, Question { due, bytes }) {
            Ok(_) => {}
            Err(_) => {
                self.due.forget(seq, Some(due));
                return Err(AllocError);
            }
        }
        self.windows = self.windows.with(bytes);
        Ok(())
    }

    /// A question runs no more.
    pub fn over(&mut self, seq: u64)
        ensures some { Ends self.old self.new seq }
        ensures none { IfNone (question_at self.old.running seq) (self.new ≡ self.old) }
    {
        let Some(question) = self.running.get(&seq).copied() else {
            return;
        };
        let _ = self.running.remove(&seq);
        self.due.forget(seq, Some(question.due));
        self.windows = self.windows.without(question.bytes);
    }

    /// Whose time is up next, and when.
    pub fn first_due(&self) -> Option<(u64, u64)>
        ensures some { IfSome result (λ first. IsNoneAskedBefore self.now first.0) }
        ensures none { result ≡ None → IsNoneAsked self.now }
        ensures whose { IfSome result (λ first. is_asked (question_at self.now.running first.1) first.0 ≡ true) }
    {
        let _windows = self.windows;
        self.due.first()
    }
}
