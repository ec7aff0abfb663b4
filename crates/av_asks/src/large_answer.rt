ghost use Rattle.std.specs.Prelude.{◌≡◌, ◌+◌, ◌≤◌, ◌++◌, OnOk, OnErr, vec_len, vec_capacity};
ghost use Rattle.av_asks.specs.LargeAnswers.{cause_number, cause_of, cause_text, large_body, large_frame, large_size};

use crate::fields::{put1, put4, put8};
use crate::sizes::{DENIED_SIZE, UNSCANNED_SIZE};
use av_base::Generation;
use std::alloc::AllocError;

/// Why a content in parts was not granted, beside the causes that an ask has too.
#[derive(Clone, Copy, Debug, PartialEq, Eq)]
pub enum LargeCause {
    /// It is to be asked about again: a newer signature set came, or the verdict is of another version than the guard's.
    AskAgain,
    /// It has more bytes than the guard takes.
    TooLarge,
    /// The client gave it up.
    GivenUp,
    /// The service takes no contents in parts.
    NoParts,
}

impl LargeCause {
    /// The number that stands for the cause, from 11 to 14.
    pub fn number(self) -> u8
        ensures { result ≡ cause_number self }
    {
        match self {
            LargeCause::AskAgain => 11,
            LargeCause::TooLarge => 12,
            LargeCause::GivenUp => 13,
            LargeCause::NoParts => 14,
        }
    }

    /// The cause of this number, where there is one.
    pub fn from_number(number: u8) -> Option<LargeCause>
        ensures { result ≡ cause_of number }
    {
        match number {
            11 => Some(LargeCause::AskAgain),
            12 => Some(LargeCause::TooLarge),
            13 => Some(LargeCause::GivenUp),
            14 => Some(LargeCause::NoParts),
            _ => None,
        }
    }

    /// What the cause means, in words.
    pub fn text(self) -> &'static str
        ensures { result.now ≡ cause_text self }
    {
        match self {
            LargeCause::AskAgain => "ask again",
            LargeCause::TooLarge => "too large",
            LargeCause::GivenUp => "given up",
            LargeCause::NoParts => "takes no parts",
        }
    }
}

/// What a content in parts is told for a cause of its own, under its tag.
#[derive(Clone, Copy, Debug, PartialEq, Eq)]
pub enum LargeAnswer {
    /// The open is to fail.
    Denied {
        tag: u64,
        cause: LargeCause,
    },
    /// The open is let through, though the content could not be judged.
    Unscanned {
        tag: u64,
        generation: Generation,
        cause: LargeCause,
    },
}

/// Appends the frame of such an answer, at most 22 bytes. Where memory is refused nothing is appended.
pub fn put_large_answer(out: &mut Vec<u8>, answer: &LargeAnswer) -> Result<(), AllocError>
    ensures ok { OnOk result (out.new.items ≡ out.old.items ++ large_frame answer.now) }
    ensures err { OnErr result (out.new.items ≡ out.old.items) }
{
    let size = size(*answer);
    out.reserve(4 + size)?;
    put4(out, size as u32);
    put_body(out, *answer);
    Ok(())
}

// How many bytes the body of an answer has.
fn size(answer: LargeAnswer) -> usize
    ensures size { result ≡ large_size answer }
    ensures small { result ≤ UNSCANNED_SIZE }
{
    match answer {
        LargeAnswer::Denied { .. } => DENIED_SIZE,
        LargeAnswer::Unscanned { .. } => UNSCANNED_SIZE,
    }
}

// Appends the body of an answer, for which there is room.
fn put_body(out: &mut Vec<u8>, answer: LargeAnswer)
    requires { vec_len out.old + large_size answer ≤ vec_capacity out.old }
    ensures { out.new.items ≡ out.old.items ++ large_body answer }
{
    match answer {
        LargeAnswer::Denied { tag, cause } => {
            put1(out, 3);
            put8(out, tag);
            put1(out, cause.number());
        }
        LargeAnswer::Unscanned {
            tag,
            generation,
            cause,
        } => {
            put1(out, 4);
            put8(out, tag);
            put8(out, generation.get());
            put1(out, cause.number());
        }
    }
}
