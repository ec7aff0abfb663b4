ghost use Rattle.std.specs.Prelude.{◌≡◌, ◌+◌, ◌≤◌, ◌++◌, [], false, length, OnOk, vec_len};
ghost use Rattle.std.specs.Vec.{vec_capacity};
ghost use Rattle.av_engines.specs.Watching.{later};

use av_filter::Mounted;
use av_pend::Answer;
use std::alloc::{AllocError, Global};

/// The answers that a filter gave so far, and how many of them are to opens behind a number; whether those opens may be submitted
/// before a message comes, and whether they were. It keeps the allocator of the engine.
#[derive(Drop)]
pub struct AnswerTally {
    pub alloc: Global,
    pub answers: Vec<Answer>,
    pub first: u64,
    pub answered: usize,
    pub at_once: bool,
    pub submitted: bool,
    ghost counted: { answered ≡ later first answers.items },
}

impl AnswerTally {
    /// No answer. It takes no memory.
    pub fn new(alloc: Global, first: u64, at_once: bool) -> AnswerTally
        ensures answers { result.answers.items ≡ [] }
        ensures first { result.first ≡ first }
        ensures at_once { result.at_once ≡ at_once }
        ensures submitted { result.submitted ≡ false }
    {
        AnswerTally {
            alloc,
            answers: Vec::new(alloc),
            first,
            answered: 0,
            at_once,
            submitted: false,
        }
    }

    /// Makes room for the answers of one event of a filter.
    pub fn make_room(&mut self, mounted: &Mounted) -> Result<(), AllocError>
        ensures room { OnOk result (vec_len self.new.answers + length mounted.now.table.pended + 1 ≤ vec_capacity self.new.answers) }
        ensures answers { self.new.answers.items ≡ self.old.answers.items }
        ensures rest { (self.new.first ≡ self.old.first) × (self.new.submitted ≡ self.old.submitted) }
    {
        match mounted.filter().pended_count().checked_add(1) {
            Some(most) => self.answers.reserve(most),
            None => Err(AllocError),
        }
    }

    /// Adds the answers of an event, for which there is room.
    pub fn add(&mut self, answers: Vec<Answer>)
        requires { vec_len self.old.answers + vec_len answers ≤ vec_capacity self.old.answers }
        ensures answers { self.new.answers.items ≡ self.old.answers.items ++ answers.items }
        ensures rest { (self.new.first ≡ self.old.first) × (self.new.submitted ≡ self.old.submitted) }
    {
        let mut answers = answers;
        self.answered += count_later(self.first, answers.as_slice());
        self.answers.append(&mut answers).unwrap();
    }
}

// How many of these answers are to opens behind this number.
fn count_later(first: u64, answers: &[Answer]) -> usize
    ensures { result ≡ later first answers.now }
{
    let mut count = 0;
    'answers: for answer in answers {
        if first < answer.open_id().get() {
            count += 1;
        }
    }
    count
}
