//! What a client is told by what a guard replied.

ghost use Rattle.std.specs.Prelude.{◌≡◌};
ghost use Rattle.av_client.specs.Again.{cause_of};
ghost use Rattle.av_paths.specs.Told.{IsFolderCleanByGrant};
ghost use Rattle.av_paths.specs.Verdict.{IsCleanByGrant, IsStreamCleanByGrant, failing_of, spoken_denied, spoken_large, spoken_of, spoken_of_stream, spoken_open};

use av_asks::{LargeAnswer, LargeCause};
use av_base::Cause;
use av_clamd::{Failing, Spoken};
use av_client::{AskingFault, Reply};
use av_pend::Answer;

/// What a client is told of a file about which a guard replied so, or about which nothing came of asking.
pub fn spoken_of(asked: Result<Reply, AskingFault>) -> Spoken<'static>
    ensures { result ≡ spoken_of asked }
{
    match asked {
        Ok(Reply::Open(answer)) => spoken_open(answer),
        Ok(Reply::Large(answer)) => Spoken::NoVerdict {
            cause: cause_of(answer).number(),
        },
        Err(fault) => Spoken::Failed(failing_of(fault)),
    }
}

/// The same of a content that the client sent.
pub fn spoken_of_stream(asked: Result<Reply, AskingFault>) -> Spoken<'static>
    ensures { result ≡ spoken_of_stream asked }
{
    match asked {
        Ok(Reply::Open(answer)) => spoken_open(answer),
        Ok(Reply::Large(answer)) => spoken_large(cause_of(answer)),
        Err(fault) => Spoken::Failed(failing_of(fault)),
    }
}

/// A file or a content is said to be clean only if a guard granted it, and a folder only if a guard granted each file.
pub fn clean_is_granted()
    ensures path { IsCleanByGrant }
    ensures stream { IsStreamCleanByGrant }
    ensures folder { IsFolderCleanByGrant }
{}

fn spoken_open(answer: Answer) -> Spoken<'static>
    ensures { result ≡ spoken_open answer }
{
    match answer {
        Answer::Granted { .. } => Spoken::Clean,
        Answer::Denied { cause, .. } => spoken_denied(cause),
        Answer::Unscanned { cause, .. } => Spoken::NoVerdict {
            cause: cause.number(),
        },
    }
}

// What is said of a file that was kept out for a cause.
fn spoken_denied(cause: Cause) -> Spoken<'static>
    ensures { result ≡ spoken_denied cause }
{
    match cause {
        Cause::Infected => Spoken::Infected,
        cause => Spoken::NoVerdict {
            cause: cause.number(),
        },
    }
}

// What is said of a content in parts that was not judged.
fn spoken_large(cause: LargeCause) -> Spoken<'static>
    ensures { result ≡ spoken_large cause }
{
    match cause {
        LargeCause::TooLarge => Spoken::TooLarge,
        LargeCause::AskAgain | LargeCause::GivenUp | LargeCause::NoParts => Spoken::NoVerdict {
            cause: cause.number(),
        },
    }
}

// Why a content in parts was not judged.
fn cause_of(answer: LargeAnswer) -> LargeCause
    ensures { result ≡ cause_of answer }
{
    match answer {
        LargeAnswer::Denied { cause, .. } => cause,
        LargeAnswer::Unscanned { cause, .. } => cause,
    }
}

fn failing_of(fault: AskingFault) -> Failing
    ensures { result ≡ failing_of fault }
{
    match fault {
        AskingFault::TooLarge | AskingFault::Unread => Failing::Unreadable,
        AskingFault::Memory => Failing::NoMemory,
        AskingFault::Lost => Failing::NoAnswer,
    }
}
