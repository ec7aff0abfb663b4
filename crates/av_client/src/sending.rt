ghost use Rattle.std.specs.Prelude.{◌≡◌, ◌≤◌, ◌<◌, [], length, take, IfOk, OnOk};
ghost use Rattle.std.specs.Io.KnownBytes.{Appends};
ghost use Rattle.av_asks.specs.Contents.{end_frame};
ghost use Rattle.av_asks.specs.declared.contents.How.TheVariants.{GivenUp};
ghost use Rattle.av_client.specs.Sending.{IsSent, SendsParts, begin_frame, content_frames, part_frame};

use av_asks::{How, put_begin, put_end, put_part};
use av_base::Refusal;
use av_base::device::write_text;
use std::alloc::{AllocError, Global};
use std::io::{Read, Write};

/// The most bytes of a content that are read, and sent as one part.
pub const PART: usize = 131_072;

const MOST_LABEL: usize = 255;

/// Why a content was not sent to its end.
#[derive(Clone, Copy, Debug, PartialEq, Eq)]
pub enum SendingFault {
    /// Memory was refused.
    Memory,
    /// A write failed, or took no byte.
    Write,
}

/// Who sees whether a content is to be sent to its end.
pub trait Early {
    /// Whether an answer to the content has come, so that the rest of it need not be sent.
    fn has_answer(&self) -> bool;
}

impl From<AllocError> for SendingFault {
    ghost use Rattle.std.specs.Prelude.{◌≡◌};
    ghost use Rattle.av_client.specs.declared.sending.SendingFault.TheVariants.{Memory};

    ghost from_gives = { λ _ e. e ≡ Memory };

    fn from(_e: AllocError) -> SendingFault {
        SendingFault::Memory
    }
}

/// Writes a content under a tag as a guard takes one of any size: its beginning with as much of the name as a label has room for, in
/// parts all that a reader gives, and its end. Where the reader fails, or an answer has come, the content is given up behind the parts
/// before. Each read gives one part of at most 131,072 bytes.
#[tactic(auto, using(crate::proofs::SendLemmas::all_sent))]
pub fn send_content<C: Read, W: Write, L: Early>(
    alloc: Global,
    tag: u64,
    name: &str,
    content: &mut C,
    out: &mut W,
    early: &L,
) -> Result<How, SendingFault>
    ensures { IfOk result (λ how. IsSent tag (take 255 name.now) how (C.remaining content.old) (C.remaining content.new) (W.contents out.old) (W.contents out.new)) }
{
    let mut room = Vec::new(alloc);
    let mut piece = vec![in alloc; 0u8; PART]?;
    send_begin(&mut room, tag, name, out)?;
    let sent = send_parts(&mut room, &mut piece, tag, content, out, early)?;
    send_end(&mut room, tag, sent, out)?;
    Ok(sent.how)
}

/// Writes the beginning of a content and at once that it is given up.
pub fn send_given_up<W: Write>(
    alloc: Global,
    tag: u64,
    name: &str,
    out: &mut W,
) -> Result<(), SendingFault>
    ensures { OnOk result (Appends (W.contents out.old) (W.contents out.new) (content_frames tag (take 255 name.now) [] GivenUp)) }
{
    let mut room = Vec::new(alloc);
    send_begin(&mut room, tag, name, out)?;
    let none = Sent {
        how: How::GivenUp,
        count: 0,
    };
    send_end(&mut room, tag, none, out)
}

// How a content ends, and the count of its bytes.
#[derive(Clone, Copy)]
struct Sent {
    how: How,
    count: u64,
}

// Writes the beginning of a content.
fn send_begin<W: Write>(
    room: &mut Vec<u8>,
    tag: u64,
    name: &str,
    out: &mut W,
) -> Result<(), SendingFault>
    ensures { OnOk result (Appends (W.contents out.old) (W.contents out.new) (begin_frame tag (take 255 name.now))) }
{
    room.clear();
    if put_begin(room, tag, label_of(name)).is_err() {
        return Err(SendingFault::Memory);
    }
    write_frame(room, out)
}

// Writes a part for each read, until there is nothing more, a read fails, or an answer has come. No content has as many bytes as can't be counted.
#[tactic(auto, using(crate::proofs::SendLemmas::none_brought, crate::proofs::SendLemmas::more_brought, crate::proofs::SendLemmas::kept_brought, crate::proofs::SendLemmas::end_brought))]
fn send_parts<C: Read, W: Write, L: Early>(
    room: &mut Vec<u8>,
    piece: &mut [u8],
    tag: u64,
    content: &mut C,
    out: &mut W,
    early: &L,
) -> Result<Sent, SendingFault>
    requires { length piece.old ≡ PART }
    ensures { IfOk result (λ sent. SendsParts tag sent (C.remaining content.old) (C.remaining content.new) (W.contents out.old) (W.contents out.new)) }
{
    let mut count = 0u64;
    'parts: for _ in 0..u64::MAX {
        if count > u64::MAX - PART as u64 || early.has_answer() {
            break;
        }
        let Ok(read) = content.read(piece) else {
            break;
        };
        if read == 0 {
            let how = How::Whole;
            return Ok(Sent { how, count });
        }
        send_part(room, tag, &piece[..read], out)?;
        count += read as u64;
    }
    let how = How::GivenUp;
    Ok(Sent { how, count })
}

// Writes a part.
fn send_part<W: Write>(
    room: &mut Vec<u8>,
    tag: u64,
    some: &[u8],
    out: &mut W,
) -> Result<(), SendingFault>
    requires fits { (1 ≤ length some.now) × (length some.now ≤ PART) }
    ensures { OnOk result (Appends (W.contents out.old) (W.contents out.new) (part_frame tag some.now)) }
{
    room.clear();
    if put_part(room, tag, some).is_err() {
        return Err(SendingFault::Memory);
    }
    write_frame(room, out)
}

// Writes the end of a content.
fn send_end<W: Write>(
    room: &mut Vec<u8>,
    tag: u64,
    sent: Sent,
    out: &mut W,
) -> Result<(), SendingFault>
    ensures { OnOk result (Appends (W.contents out.old) (W.contents out.new) (end_frame tag sent.how sent.count)) }
{
    room.clear();
    put_end(room, tag, sent.how, sent.count)?;
    write_frame(room, out)
}

fn write_frame<W: Write>(frame: &[u8], out: &mut W) -> Result<(), SendingFault>
    ensures { OnOk result (Appends (W.contents out.old) (W.contents out.new) frame.now) }
{
    match write_text(out, frame) {
        Ok(()) => Ok(()),
        Err(_) => Err(SendingFault::Write),
    }
}

// As much of a name as goes along with a content.
pub(crate) fn label_of(name: &str) -> &[u8]
    ensures label { result.now ≡ take 255 name.now }
    ensures short { length result.now ≤ 255 }
{
    let label = name.as_bytes();
    if label.len() > MOST_LABEL {
        &label[..MOST_LABEL]
    } else {
        label
    }
}
