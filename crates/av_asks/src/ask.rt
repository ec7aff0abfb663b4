ghost use Rattle.std.specs.Prelude.{◌≡◌, ◌+◌, ◌≤◌, ◌++◌, length, vec_len, vec_capacity};
ghost use Rattle.av_base.specs.Answers.{Steps};
ghost use Rattle.av_asks.specs.Spelling.{ask_body, written};

use crate::fault::TooLong;
use crate::fields::{put1, put4, put8};
use crate::sizes::{ASK_HEAD, MAX_CONTENT, MAX_LABEL};
use av_base::{ByteList, Refusal};

/// A client wants to know whether it may open a file of this content.
#[derive(Debug, Drop)]
pub struct Ask {
    /// The client's own number. The answer has it again.
    pub tag: u64,
    /// The client's name for the content, of at most 255 bytes. It is for logs alone.
    pub label: ByteList,
    /// All of the content, at most 1,048,576 bytes.
    pub content: Vec<u8>,
}

/// Appends the frame of an ask. The content is copied once. Where the ask is refused nothing is appended.
pub fn put_ask(
    out: &mut Vec<u8>,
    tag: u64,
    label: &[u8],
    content: &[u8],
) -> Result<(), Refusal<TooLong>>
    ensures { Steps out.old.items out.new.items result
        (written out.old.items (record { tag = tag; label = label.now; content = content.now })) }
{
    if label.len() > MAX_LABEL {
        return Err(Refusal::Fault(TooLong::Label));
    }
    if content.len() > MAX_CONTENT {
        return Err(Refusal::Fault(TooLong::Content));
    }
    let size = ASK_HEAD + label.len() + content.len();
    out.reserve(4 + size)?;
    put4(out, size as u32);
    put_body(out, tag, label, content);
    Ok(())
}

// Appends the body of an ask, for which there is room.
fn put_body(out: &mut Vec<u8>, tag: u64, label: &[u8], content: &[u8])
    requires room { vec_len out.old + (ASK_HEAD + length label.now + length content.now) ≤ vec_capacity out.old }
    requires label { length label.now ≤ MAX_LABEL }
    ensures { out.new.items
        ≡ out.old.items ++ ask_body (record { tag = tag; label = label.now; content = content.now }) }
{
    put1(out, 1);
    put8(out, tag);
    put1(out, label.len() as u8);
    out.extend_from_slice(label).unwrap();
    out.extend_from_slice(content).unwrap();
}
