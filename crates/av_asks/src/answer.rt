ghost use Rattle.std.specs.Prelude.{◌≡◌, ◌+◌, ◌≤◌, ◌++◌, OnOk, OnErr, vec_len, vec_capacity};
ghost use Rattle.av_asks.specs.Spelling.{answer_body, answer_frame, size_of};

use crate::fields::{put1, put4, put8};
use crate::sizes::{DENIED_SIZE, GRANTED_SIZE, UNSCANNED_SIZE};
use av_base::{Cause, Generation, Version};
use std::alloc::AllocError;

/// What an ask is told, under its tag.
#[derive(Clone, Copy, Debug, PartialEq, Eq)]
pub enum OpenAnswer {
    /// The content is clean under the signature set of this version.
    Granted {
        tag: u64,
        generation: Generation,
        version: Version,
    },
    /// The open is to fail, for this cause.
    Denied {
        tag: u64,
        cause: Cause,
    },
    /// The open is let through, though the content could not be judged, for this cause.
    Unscanned {
        tag: u64,
        generation: Generation,
        cause: Cause,
    },
}

/// Appends the frame of an answer, at most 29 bytes. Where memory is refused nothing is appended.
pub fn put_answer(out: &mut Vec<u8>, answer: &OpenAnswer) -> Result<(), AllocError>
    ensures ok { OnOk result (out.new.items ≡ out.old.items ++ answer_frame answer.now) }
    ensures err { OnErr result (out.new.items ≡ out.old.items) }
{
    let size = size(*answer);
    out.reserve(4 + size)?;
    put4(out, size as u32);
    put_body(out, *answer);
    Ok(())
}

// How many bytes the body of an answer has.
fn size(answer: OpenAnswer) -> usize
    ensures size { result ≡ size_of answer }
    ensures small { result ≤ GRANTED_SIZE }
{
    match answer {
        OpenAnswer::Granted { .. } => GRANTED_SIZE,
        OpenAnswer::Denied { .. } => DENIED_SIZE,
        OpenAnswer::Unscanned { .. } => UNSCANNED_SIZE,
    }
}

// Appends the body of an answer, for which there is room.
fn put_body(out: &mut Vec<u8>, answer: OpenAnswer)
    requires { vec_len out.old + size_of answer ≤ vec_capacity out.old }
    ensures { out.new.items ≡ out.old.items ++ answer_body answer }
{
    match answer {
        OpenAnswer::Granted {
            tag,
            generation,
            version,
        } => {
            put1(out, 2);
            put8(out, tag);
            put8(out, generation.get());
            put8(out, version.get());
        }
        OpenAnswer::Denied { tag, cause } => {
            put1(out, 3);
            put8(out, tag);
            put1(out, cause.number());
        }
        OpenAnswer::Unscanned {
            tag,
            generation,
            cause,
        } => {
            put1(out, 4);
            put8(out, tag);
            put8(out, generation.get());
            put1(out, cause.number());
        }
    }
}
