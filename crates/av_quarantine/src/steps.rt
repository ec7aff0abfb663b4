//! What a move of a file does next, after each outcome.
ghost use Rattle.std.specs.Prelude.{◌≡◌};
ghost use Rattle.av_quarantine.specs.Steps.{next};
ghost use Rattle.av_quarantine.specs.declared.steps.Step.TheVariants.{Link, Stopped};

use thiserror::Error;

/// The last number that a name in the folder gets: `NAME.999`.
pub const LAST: u16 = 999;

/// Why a file is not moved.
#[derive(Clone, Copy, Debug, PartialEq, Eq, Error)]
pub enum MoveFault {
    /// A link, a folder, a FIFO or a device, or nothing is there.
    #[error("it is not a regular file")]
    NotRegular,
    /// Another file has taken its name since it was judged.
    #[error("it is not the file that was scanned")]
    Another,
    /// The folder is the one that it is in.
    #[error("it is in that folder")]
    Inside,
    /// The folder is on another file system.
    #[error("the folder is on another file system")]
    Elsewhere,
    /// Its name and all numbers behind it are taken.
    #[error("the folder has 1,000 files of that name")]
    Full,
    /// It can't get a name in the folder.
    #[error("it can't get a name in the folder")]
    Unlinked,
    /// Its old name can't be removed.
    #[error("its old name can't be removed")]
    Kept,
    /// The new name can't be removed again.
    #[error("a file is left under the new name")]
    Left { number: u16 },
}

/// A step of a move. A new name is numbered from 0 on, for `NAME`, `NAME.1` and so on.
#[derive(Clone, Copy, Debug, PartialEq, Eq)]
pub enum Step {
    /// Gives the file a new name too.
    Link { number: u16 },
    /// Compares the file under the new name with the one that was judged.
    Compare { number: u16 },
    /// Removes the old name.
    Remove { number: u16 },
    /// Removes the new name again.
    Undo { number: u16, fault: MoveFault },
    /// The file has its new name alone.
    Moved { number: u16 },
    /// The file stays under its old name.
    Stopped { fault: MoveFault },
}

/// What came of a step.
#[derive(Clone, Copy, Debug, PartialEq, Eq)]
pub enum Outcome {
    /// It is done. Of a comparison: it is the same file.
    Done,
    /// The new name is taken.
    Taken,
    /// The new name would be on another file system.
    Elsewhere,
    /// It failed. Of a comparison: it is another file, or can't be looked at.
    Failed,
}

impl Step {
    /// The step after this one.
    pub fn after(self, outcome: Outcome) -> Step
        ensures { result ≡ next self outcome }
    {
        match self {
            Step::Link { number } => after_link(number, outcome),
            Step::Compare { number } if outcome == Outcome::Done => Step::Remove { number },
            Step::Compare { number } => Step::Undo {
                number,
                fault: MoveFault::Another,
            },
            Step::Remove { number } if outcome == Outcome::Done => Step::Moved { number },
            Step::Remove { number } => Step::Undo {
                number,
                fault: MoveFault::Kept,
            },
            Step::Undo { fault, .. } if outcome == Outcome::Done => Step::Stopped { fault },
            Step::Undo { number, .. } => Step::Stopped {
                fault: MoveFault::Left { number },
            },
            ended => ended,
        }
    }
}

// The step after a new name of this number.
fn after_link(number: u16, outcome: Outcome) -> Step
    ensures { result ≡ next (Link number) outcome }
{
    match outcome {
        Outcome::Done => Step::Compare { number },
        Outcome::Taken if number < LAST => Step::Link { number: number + 1 },
        Outcome::Taken => stopped(MoveFault::Full),
        Outcome::Elsewhere => stopped(MoveFault::Elsewhere),
        Outcome::Failed => stopped(MoveFault::Unlinked),
    }
}

fn stopped(fault: MoveFault) -> Step
    ensures { result ≡ Stopped fault }
{
    Step::Stopped { fault }
}
