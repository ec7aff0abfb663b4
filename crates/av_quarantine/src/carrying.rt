//! The steps of a move, carried out one after the other.
ghost use Rattle.std.specs.Prelude.{◌≡◌, List};
ghost use Rattle.av_quarantine.specs.Steps.{ended, next, run_from};
ghost use Rattle.av_quarantine.specs.declared.steps.Outcome.{Outcome};
ghost use Rattle.av_quarantine.specs.declared.steps.Step.{Step};

use crate::steps::{MoveFault, Outcome, Step};

/// What takes the steps of a move: a disk, or a test in its place.
pub trait Disk {
    ghost use Rattle.std.specs.Prelude.{List, ℕ};

    // The step that comes next.
    ghost step_of: { Self → Step };
    // The folder that the file is moved into, and its name there.
    ghost place: { Self → List ℕ × List ℕ };
    // What holds after each step if it held before it.
    ghost is_well: { Self → Type 0 };

    /// The step that comes next.
    fn step(&self) -> Step
        ensures { let step = step_of self.now in result ≡ step };

    /// Takes that step.
    fn act(&mut self) -> Outcome
        ensures step { let old = step_of self.old in let new = step_of self.new in new ≡ next old result }
        ensures place { let old = place self.old in let new = place self.new in new ≡ old }
        ensures well { let old = is_well self.old in let new = is_well self.new in old → new };
}

/// Takes the steps of a move to its end: the number of the new name, or why the file stays.
pub fn carried_out<D: Disk>(disk: &mut D) -> Result<u16, MoveFault>
    ensures well { D.is_well disk.old → D.is_well disk.new }
    ensures place { D.place disk.new ≡ D.place disk.old }
    ensures ends { D.step_of disk.new ≡ ended result }
    ensures runs { (outcomes : List Outcome) × (run_from (D.step_of disk.old) outcomes ≡ D.step_of disk.new) }
{
    'steps: loop {
        match disk.step() {
            Step::Moved { number } => return Ok(number),
            Step::Stopped { fault } => return Err(fault),
            _ => {
                let _ = disk.act();
            }
        }
    }
}
