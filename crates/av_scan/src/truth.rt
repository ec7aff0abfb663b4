// What is known of the findings in a file, wherever they were found. It crosses the channels with them.

ghost use Rattle.std.specs.Prelude.{◌≡◌, ℕ, List};
ghost use Rattle.std.specs.Result.{ForOk};
ghost use Rattle.av_files.specs.declared.finding.Finding.{Finding};
ghost use Rattle.av_scan.specs.Told.{judged_of, name_of};

use crate::told::Told;
use std::marker::{Brand, PhantomData};

/// What is true of the findings in a file of a name.
pub trait Truth {
    ghost use Rattle.std.specs.Prelude.{ℕ, List};
    ghost use Rattle.av_files.specs.declared.finding.Finding.{Finding};

    ghost is_true: { List ℕ → List Finding → Type 0 };
}

impl Truth for Brand {
    ghost use Rattle.av_scan.specs.Told.{Anything};

    ghost is_true = { Anything };
}

/// What became of a file. The findings in it are true.
#[derive(Drop)]
pub struct Judged<T: Truth> {
    pub told: Told,
    of: PhantomData<T>,
    ghost holds: { ForOk (judged_of told) (λ fs. ∥ T.is_true (name_of told) fs ∥₁) },
}

impl<T: Truth> Judged<T> {
    pub fn new(told: Told) -> Judged<T>
        requires { ForOk (judged_of told) (λ fs. ∥ T.is_true (name_of told) fs ∥₁) }
        ensures { result.told ≡ told }
    {
        Judged {
            told,
            of: PhantomData,
        }
    }
}
