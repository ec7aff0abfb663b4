ghost use Rattle.std.specs.Prelude.{◌≡◌, ◌++◌, OnErr, OnOk};
ghost use Rattle.av_clamd.specs.Text.{cause_text, failing_text, path_reply_of, place_text, reply_of, timed_out, verdict_text, why_text};

use crate::text::{numbered, put_number};
use std::alloc::AllocError;

/// What is said of a content that was asked about.
#[derive(Clone, Copy)]
pub enum Spoken<'a> {
    /// It was granted. No other answer is spelled `OK`.
    Clean,
    /// A signature of this name occurs in it.
    Found(&'a [u8]),
    /// A signature occurs in it whose name isn't known: where it stands in the set of which version.
    FoundAt { index: u64, version: u64 },
    /// A signature occurs in it, and no more is known.
    Infected,
    /// It came in parts and had more bytes than are judged.
    TooLarge,
    /// It could not be judged, for the cause of this number, whether it is let through or not.
    NoVerdict { cause: u8 },
    /// Nobody was asked about it, or gave an answer.
    Failed(Failing),
}

/// Why nobody was asked about a content, or gave an answer.
#[derive(Clone, Copy, Debug, PartialEq, Eq)]
pub enum Failing {
    /// Its path is not below a folder whose files may be asked about.
    NotBelow,
    /// It could not be read.
    Unreadable,
    /// The guard was not there, or gave no answer.
    NoAnswer,
    /// Memory was refused.
    NoMemory,
}

/// Appends the reply to a content, under the number and the end of its command. Where memory is refused nothing is appended.
pub fn put_reply(
    out: &mut Vec<u8>,
    number: u64,
    end: u8,
    verdict: &Spoken<'_>,
) -> Result<(), AllocError>
    ensures ok { OnOk result (out.new.items ≡ out.old.items ++ reply_of number end verdict.now) }
    ensures err { OnErr result (out.new.items ≡ out.old.items) }
{
    let alloc = *out.allocator();
    let mut line = numbered(alloc, number)?;
    line.extend_from_slice(b"stream: ")?;
    put_verdict(&mut line, *verdict)?;
    line.push(end)?;
    out.extend_from_slice(&line)
}

/// Appends the reply to a path, under the number and the end of its command. Where memory is refused nothing is appended. The path is
/// one that makes no line of its own: it has no control character.
pub fn put_path_reply(
    out: &mut Vec<u8>,
    number: u64,
    end: u8,
    path: &[u8],
    verdict: &Spoken<'_>,
) -> Result<(), AllocError>
    ensures ok { OnOk result (out.new.items ≡ out.old.items ++ path_reply_of number end path.now verdict.now) }
    ensures err { OnErr result (out.new.items ≡ out.old.items) }
{
    let alloc = *out.allocator();
    let mut reply = numbered(alloc, number)?;
    reply.extend_from_slice(path)?;
    reply.extend_from_slice(b": ")?;
    put_verdict(&mut reply, *verdict)?;
    reply.push(end)?;
    out.extend_from_slice(&reply)
}

// Appends what is said of a verdict.
fn put_verdict(line: &mut Vec<u8>, verdict: Spoken<'_>) -> Result<(), AllocError>
    ensures { OnOk result (line.new.items ≡ line.old.items ++ verdict_text verdict.entry) }
{
    match verdict {
        Spoken::Clean => line.extend_from_slice(b"OK"),
        Spoken::Found(name) => {
            line.extend_from_slice(name)?;
            line.extend_from_slice(b" FOUND")
        }
        Spoken::FoundAt { index, version } => put_place(line, index, version),
        Spoken::Infected => line.extend_from_slice(b"infected FOUND"),
        Spoken::TooLarge => line.extend_from_slice(b"INSTREAM size limit exceeded. ERROR"),
        Spoken::NoVerdict { cause } => put_cause(line, u64::from(cause)),
        Spoken::Failed(failing) => line.extend_from_slice(failing_text(failing)),
    }
}

// Why nobody was asked, or gave an answer.
fn failing_text(failing: Failing) -> &'static [u8]
    ensures { result.now ≡ failing_text failing }
{
    match failing {
        Failing::NotBelow => b"File path check failure: not below a folder of --below. ERROR",
        Failing::Unreadable => b"cannot read. ERROR",
        Failing::NoAnswer => b"no answer of the guard. ERROR",
        Failing::NoMemory => b"no memory. ERROR",
    }
}

// Appends where a signature stands whose name isn't known.
fn put_place(line: &mut Vec<u8>, index: u64, version: u64) -> Result<(), AllocError>
    ensures { OnOk result (line.new.items ≡ line.old.items ++ place_text index version) }
{
    line.extend_from_slice(b"signature-")?;
    put_number(line, index)?;
    line.extend_from_slice(b"-of-version-")?;
    put_number(line, version)?;
    line.extend_from_slice(b" FOUND")
}

// Appends that there is no verdict, and why.
fn put_cause(line: &mut Vec<u8>, cause: u64) -> Result<(), AllocError>
    ensures { OnOk result (line.new.items ≡ line.old.items ++ cause_text cause) }
{
    line.extend_from_slice(b"no verdict, ")?;
    put_why(line, cause)
}

#[tactic(auto, unfolding(crate::specs::Text::why_text))]
fn put_why(line: &mut Vec<u8>, cause: u64) -> Result<(), AllocError>
    ensures { OnOk result (line.new.items ≡ line.old.items ++ why_text cause) }
{
    line.extend_from_slice(b"cause ")?;
    put_number(line, cause)?;
    line.extend_from_slice(b". ERROR")
}

/// Appends what a client is told that said nothing for too long, with its last command's end (`Door::end`). Where memory is
/// refused nothing is appended.
pub fn put_timed_out(out: &mut Vec<u8>, end: u8) -> Result<(), AllocError>
    ensures ok { OnOk result (out.new.items ≡ out.old.items ++ timed_out end) }
    ensures err { OnErr result (out.new.items ≡ out.old.items) }
{
    let mut line = *b"COMMAND READ TIMED OUT ";
    line[22] = end;
    out.extend_from_slice(&line)
}
