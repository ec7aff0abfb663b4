ghost use Rattle.std.specs.Prelude.{◌≡◌, ◌↔◌, IsTrue};
ghost use Rattle.av_frame.specs.Message.{IsOutcome, IsVerdict, outcome_in_range, verdict_in_range};

use crate::cause::FailCause;
use av_base::limits::MAX_LENGTH;
use av_base::{Verdict, Version};

/// The greatest index of a signature.
pub const MAX_INDEX: u32 = 1_023;

/// How a question ends on the service's side.
#[derive(Clone, Copy, Debug, PartialEq, Eq)]
pub enum Outcome {
    /// The content was judged under the signature set of this version.
    Judged { version: Version, verdict: Verdict },
    /// It was not judged.
    Failed { cause: FailCause },
}

impl Outcome {
    /// Whether each field is in its range: a version from 1, an index up to 1,023, an end from 1 to 1,048,576.
    pub fn is_in_range(self) -> bool
        ensures test { result ≡ outcome_in_range self }
        ensures meaning { IsTrue result ↔ IsOutcome self }
    {
        match self {
            Outcome::Judged { version, verdict } => version.get() >= 1 && is_verdict(verdict),
            Outcome::Failed { .. } => true,
        }
    }
}

fn is_verdict(verdict: Verdict) -> bool
    ensures test { result ≡ verdict_in_range verdict }
    ensures meaning { IsTrue result ↔ IsVerdict verdict }
{
    match verdict {
        Verdict::Clean => true,
        Verdict::Infected { index, end_at } => {
            index <= MAX_INDEX && end_at >= 1 && end_at <= MAX_LENGTH
        }
    }
}
