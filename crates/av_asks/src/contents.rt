ghost use Rattle.std.specs.Prelude.{◌≡◌, ◌+◌, ◌≤◌, ◌++◌, ◌∷◌, length, OnOk, OnErr, vec_len, vec_capacity};
ghost use Rattle.av_base.specs.Answers.{Steps};
ghost use Rattle.av_asks.specs.Contents.{begin_written, end_frame, how_number, part_written};
ghost use Rattle.av_asks.specs.Spelling.{field4, field8};

use crate::fault::UnfitPart;
use crate::fields::{put1, put4, put8};
use crate::sizes::{BEGIN_HEAD, END_SIZE, MAX_LABEL, MAX_PART, PART_HEAD};
use av_base::Refusal;
use std::alloc::AllocError;

/// How a content ends that came in parts.
#[derive(Clone, Copy, Debug, PartialEq, Eq)]
pub enum How {
    /// It is whole, and asked about.
    Whole,
    /// It is given up.
    GivenUp,
}

impl How {
    // The number that stands in a frame.
    fn number(self) -> u8
        ensures { result ≡ how_number self }
    {
        match self {
            How::Whole => 0,
            How::GivenUp => 1,
        }
    }
}

/// Appends the frame that begins a content. Where the label is too long nothing is appended.
pub fn put_begin(out: &mut Vec<u8>, tag: u64, label: &[u8]) -> Result<(), Refusal<UnfitPart>>
    ensures { Steps out.old.items out.new.items result (begin_written out.old.items tag label.now) }
{
    if label.len() > MAX_LABEL {
        return Err(Refusal::Fault(UnfitPart::Label));
    }
    let size = BEGIN_HEAD + label.len();
    out.reserve(4 + size)?;
    put_head(out, size as u32, 5, tag);
    put1(out, label.len() as u8);
    out.extend_from_slice(label).unwrap();
    Ok(())
}

/// Appends the frame of some of a content. Its bytes are copied once. Where they are none or too many nothing is appended.
pub fn put_part(out: &mut Vec<u8>, tag: u64, some: &[u8]) -> Result<(), Refusal<UnfitPart>>
    ensures { Steps out.old.items out.new.items result (part_written out.old.items tag some.now) }
{
    if some.is_empty() {
        return Err(Refusal::Fault(UnfitPart::Empty));
    }
    if some.len() > MAX_PART {
        return Err(Refusal::Fault(UnfitPart::TooLong));
    }
    let size = PART_HEAD + some.len();
    out.reserve(4 + size)?;
    put_head(out, size as u32, 6, tag);
    out.extend_from_slice(some).unwrap();
    Ok(())
}

/// Appends the frame that ends a content, with the count of the bytes of its parts, 22 bytes.
pub fn put_end(out: &mut Vec<u8>, tag: u64, how: How, count: u64) -> Result<(), AllocError>
    ensures ok { OnOk result (out.new.items ≡ out.old.items ++ end_frame tag how count) }
    ensures err { OnErr result (out.new.items ≡ out.old.items) }
{
    out.reserve(4 + END_SIZE)?;
    put_head(out, END_SIZE as u32, 7, tag);
    put1(out, how.number());
    put8(out, count);
    Ok(())
}

// Appends the length of a body, its kind and a tag, for which there is room.
fn put_head(out: &mut Vec<u8>, size: u32, kind: u8, tag: u64)
    requires { vec_len out.old + 13 ≤ vec_capacity out.old }
    ensures bytes { out.new.items ≡ out.old.items ++ (field4 size ++ kind ∷ field8 tag) }
    ensures len { vec_len out.new ≡ vec_len out.old + 13 }
    ensures capacity { vec_capacity out.old ≤ vec_capacity out.new }
{
    put4(out, size);
    put1(out, kind);
    put8(out, tag);
}
