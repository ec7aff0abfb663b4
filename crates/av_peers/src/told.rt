ghost use Rattle.std.specs.Prelude.{◌≡◌};
ghost use Rattle.av_peers.specs.Told.{lacking, large_told, unjudged};

use av_asks::LargeCause;
use av_base::{Cause, Generation, Mode};
use av_guard::Answered;
use av_large::Answer;

/// The generation of each content of a guard: it was created, and written once.
pub const WRITTEN: u64 = 2;

/// What a client is told of a content, which may have come in parts.
#[derive(Clone, Copy, Debug, PartialEq, Eq)]
pub enum LargeTold {
    /// What an ask can be told too.
    Answered(Answered),
    /// It was not judged, for a cause that only contents in parts have, and is kept out.
    Denied { cause: LargeCause },
    /// It was not judged, for a cause that only contents in parts have, and is let through.
    Unscanned { cause: LargeCause },
}

/// What an ask is told that could not be judged: nothing grants it, and with the mode that lets through what can't be judged it is let
/// through.
pub fn unjudged(mode: Mode, cause: Cause) -> Answered
    ensures { result ≡ unjudged mode cause }
{
    match mode {
        Mode::FailClosed => Answered::Denied { cause },
        Mode::FailOpen => Answered::Unscanned {
            generation: Generation::new(WRITTEN),
            cause,
        },
    }
}

/// What is told of a content in parts. It is granted only where it was judged clean. Where it can be judged if it is asked about again,
/// or the client gave it up, no mode lets it through.
pub fn large_told(mode: Mode, answer: Answer) -> LargeTold
    ensures { result ≡ large_told mode answer }
{
    match answer {
        Answer::Granted { version } => LargeTold::Answered(Answered::Granted {
            generation: Generation::new(WRITTEN),
            version,
        }),
        Answer::Infected {
            version,
            index,
            end_at,
        } => LargeTold::Answered(Answered::Infected {
            version,
            signature: index,
            end: end_at,
        }),
        Answer::Unjudged { cause } => LargeTold::Answered(unjudged(mode, cause)),
        Answer::Lacks { cause } => lacking(mode, cause),
    }
}

// What is told of a content in parts that was not judged, for a cause of its own.
fn lacking(mode: Mode, cause: LargeCause) -> LargeTold
    ensures { result ≡ lacking mode cause }
{
    match (mode, cause) {
        (Mode::FailOpen, LargeCause::TooLarge | LargeCause::NoParts) => {
            LargeTold::Unscanned { cause }
        }
        _ => LargeTold::Denied { cause },
    }
}
