ghost use Rattle.std.specs.Prelude.{◌≡◌, ◌≤◌, ◌<◌, ◌+◌, [], drop, is_some, length, slice_index, true, IfOk, Err, None, Some};
ghost use Rattle.av_base.specs.declared.refusal.Refusal.TheVariants.{Fault, NoMemory};
ghost use Rattle.av_asks.specs.Spelling.{number8};
ghost use Rattle.av_asks.specs.Speaking.{IsCounted, IsTurn, after, begins, begun_of, bytewise_of, ends, fits_kind, fresh, gone_on, heard_of, is_within, left_of, length_of, of_ask, parts, said_by, told_list};

use crate::ask::Ask;
use crate::ask_feed::body as ask_of;
use crate::contents::How;
use crate::fault::{AskFault, ClientFault};
use crate::fields::u64_at;
use crate::large_head::{LargeKind, read_front, wanted};
use crate::sizes::{BEGIN_HEAD, MAX_ASK, MAX_COUNT, PART_HEAD};
use av_base::{ByteList, Refusal};
use std::alloc::Global;
use std::marker::Model;
use std::mem;

// The most bytes of a frame whose room is used again.
const LARGE: usize = 8_192;

/// What a client says that may send contents in parts.
#[derive(Debug, Drop)]
pub enum ClientSays<'a> {
    /// It asks about a content that came whole.
    Ask(Ask),
    /// A content begins that comes in parts. The label is for logs alone.
    Begin { tag: u64, label: ByteList },
    /// Some of the content that is open. None of its bytes are given where a part begins, and then those that came of it.
    Part { tag: u64, some: &'a [u8] },
    /// The content ends.
    End { tag: u64, how: How },
    /// It wants to be told of a newer version than this one.
    Watch { tag: u64, version: u64 },
}

/// What came of the first bytes of a piece.
#[derive(Debug, Drop)]
pub struct ClientHeard<'a> {
    /// How many bytes these are. The next call takes the rest.
    pub taken: usize,
    /// What they say, if anything.
    pub said: Option<ClientSays<'a>>,
}

// What a front says.
#[derive(Debug, Drop)]
pub enum Told {
    Ask(Ask),
    Begin { tag: u64, label: ByteList },
    Part { tag: u64 },
    End { tag: u64, how: How },
    Watch { tag: u64, version: u64 },
}

/// A content that is open: how many bytes came in its parts, and how many are to come of the present one.
#[derive(Clone, Copy, Debug, PartialEq, Eq)]
pub struct Content {
    pub tag: u64,
    pub count: u64,
    pub left: u32,
}

/// The stream of a client that may send contents in parts, which comes in pieces cut anywhere. Asks may stand between the parts
/// of a content; one content is open at a time. A reader keeps what is not whole of a frame, but of a part no more than its
/// first 13 bytes: a part's bytes are given as they lie in the piece. It asks for no memory ahead of what came.
#[derive(Drop)]
pub struct ClientReader {
    alloc: Global,
    front: Vec<u8>,
    content: Option<Content>,
    fault: Option<ClientFault>,
}

impl Model for ClientReader {
    ghost use Rattle.std.specs.Prelude.{◌≡◌, ◌+◌, ◌<◌, length, None, Ok};
    ghost use Rattle.av_asks.specs.declared.sizes.TheConstants.{MAX_ASK};
    ghost use Rattle.av_asks.specs.Speaking.{IsCounted, Speaking, front_of};

    ghost Value = { Speaking };

    ghost view = { λ r. record { front = r.front.items; content = r.content; fault = r.fault } };

    ghost invariant = { λ r. (front_of r.front.items ≡ Ok None) × (length r.front.items < 4 + MAX_ASK) × IsCounted r.content };
}

impl ClientReader {
    /// A reader that nothing came to. It takes no memory.
    pub fn new(alloc: Global) -> ClientReader
        ensures { result ≡ fresh }
    {
        ClientReader {
            alloc,
            front: Vec::new(alloc),
            content: None,
            fault: None,
        }
    }

    /// How many bytes are kept of a frame that is not whole.
    pub fn kept(&self) -> usize
        ensures kept { result ≡ length self.now.front }
        ensures few { result < 4 + MAX_ASK }
    {
        self.front.len()
    }

    /// How many bytes have come of the frame that has begun, and how many of it are kept before it says something: 0 as long as its
    /// kind has not come. Of a part these are the 13 bytes before its content.
    pub fn begun(&self) -> (usize, usize)
        ensures { result ≡ begun_of self.now }
    {
        let came = self.front.len();
        if came < 5 {
            return (came, 0);
        }
        (came, wanted(&self.front))
    }

    /// How many bytes are still to come of the part that is open, 0 between parts. They are given as they come.
    pub fn left(&self) -> usize
        ensures { result ≡ left_of self.now.content }
    {
        match self.content {
            Some(content) => content.left as usize,
            None => 0,
        }
    }

    /// Whether a content is open: it began, and has not ended.
    pub fn is_open(&self) -> bool
        ensures { result ≡ is_some self.now.content }
    {
        self.content.is_some()
    }

    /// Whether a content is open, or a frame has begun that is not whole.
    pub fn is_within(&self) -> bool
        ensures { result ≡ is_within self.now }
    {
        self.is_open() || !self.front.is_empty()
    }

    /// Takes the first bytes of a piece, at least one where there is one: those that say something, or those behind which more has
    /// to come. Bytes are heard in their order, however they are cut. A fault is told again by each later call, and nothing more is
    /// heard. Where memory is refused nothing was taken.
    pub fn hear<'a>(&mut self, piece: &'a [u8]) -> Result<ClientHeard<'a>, Refusal<ClientFault>>
        ensures within { IfOk result (λ r. r.taken ≤ length piece.now) }
        ensures some { IfOk result (λ r. 1 ≤ length piece.now → 1 ≤ r.taken) }
        ensures heard { IfOk result (λ r. after (bytewise_of r.said) (heard_of (drop r.taken piece.now) self.new) ≡ heard_of piece.now self.old) }
        ensures fault { (f : ClientFault) → result ≡ Err (Fault f) → (heard_of piece.now self.old ≡ (self.new, [])) × (self.new.fault ≡ Some f) }
        ensures memory { result ≡ Err NoMemory → self.new ≡ self.old }
    {
        if let Some(fault) = self.fault {
            return Err(Refusal::Fault(fault));
        }
        if piece.is_empty() {
            return Ok(ClientHeard {
                taken: 0,
                said: None,
            });
        }
        match self.content {
            Some(content) if content.left > 0 => {
                let taken = piece.len().min(content.left as usize);
                self.content = Some(gone_on(content, taken as u32));
                Ok(ClientHeard {
                    taken,
                    said: Some(ClientSays::Part {
                        tag: content.tag,
                        some: &piece[..taken],
                    }),
                })
            }
            _ => match self.hear_front(piece) {
                Ok((taken, told)) => Ok(ClientHeard {
                    taken,
                    said: said_of(told, piece),
                }),
                Err(refusal) => Err(refusal),
            },
        }
    }

    // Takes bytes of a front, as many as are wanted before it tells something more.
    fn hear_front(&mut self, piece: &[u8]) -> Result<(usize, Option<Told>), Refusal<ClientFault>>
        requires some { 1 ≤ length piece.now }
        requires well { self.old.fault ≡ None }
        requires front { left_of self.old.content ≡ 0 }
        ensures within { IfOk result (λ r. (1 ≤ r.0) × (r.0 ≤ length piece.now)) }
        ensures heard { IfOk result (λ r. after (told_list r.1) (heard_of (drop r.0 piece.now) self.new) ≡ heard_of piece.now self.old) }
        ensures fault { (f : ClientFault) → result ≡ Err (Fault f) → (heard_of piece.now self.old ≡ (self.new, [])) × (self.new.fault ≡ Some f) }
        ensures memory { result ≡ Err NoMemory → self.new ≡ self.old }
    {
        let before = self.front.len();
        let taken = wanted(&self.front)
            .saturating_sub(before)
            .max(1)
            .min(piece.len());
        self.front.extend_from_slice(&piece[..taken])?;
        match read_front(&self.front) {
            Ok(None) => Ok((taken, None)),
            Ok(Some((kind, size))) => {
                match read_body(self.alloc, kind, size, &self.front[4..], self.content) {
                    Ok((told, content)) => {
                        self.front = emptied(self.alloc, &mut self.front);
                        self.content = content;
                        Ok((taken, Some(told)))
                    }
                    Err(Refusal::Fault(fault)) => {
                        self.front.clear();
                        self.fault = Some(fault);
                        Err(Refusal::Fault(fault))
                    }
                    Err(Refusal::NoMemory) => {
                        self.front.truncate(before);
                        Err(Refusal::NoMemory)
                    }
                }
            }
            Err(fault) => {
                self.front.clear();
                self.fault = Some(fault);
                Err(Refusal::Fault(fault))
            }
        }
    }

    #[cfg(test)]
    pub fn room(&self) -> usize {
        self.front.capacity()
    }
}

// So many bytes of a part came.
fn gone_on(content: Content, count: u32) -> Content
    requires few { count ≤ content.left }
    requires counted { content.count + content.left ≤ MAX_COUNT }
    ensures { result ≡ gone_on count content }
{
    Content {
        count: content.count + u64::from(count),
        left: content.left - count,
        ..content
    }
}

// What a front says that is enough, and the content that is open then.
fn read_body(
    alloc: Global,
    kind: LargeKind,
    size: usize,
    body: &[u8],
    content: Option<Content>,
) -> Result<(Told, Option<Content>), Refusal<ClientFault>>
    requires fits { fits_kind kind size ≡ true }
    requires enough { length_of kind size ≤ 4 + length body.now }
    requires counted { IsCounted content }
    ensures exact { IsTurn result (said_by kind size body.now content) }
    ensures counted { IfOk result (λ r. IsCounted r.1) }
{
    match kind {
        LargeKind::Ask => match ask_of(alloc, body) {
            Ok(ask) => Ok((Told::Ask(ask), content)),
            Err(Refusal::Fault(fault)) => Err(Refusal::Fault(of_ask(fault))),
            Err(Refusal::NoMemory) => Err(Refusal::NoMemory),
        },
        LargeKind::Begin => begin(alloc, body, content),
        LargeKind::Part => part(u64_at(body, 1), (size - PART_HEAD) as u32, content),
        LargeKind::End => end(body, content),
        LargeKind::Watch => {
            let (tag, version) = (u64_at(body, 1), u64_at(body, 9));
            Ok((Told::Watch { tag, version }, content))
        }
    }
}

// Why an ask is none.
fn of_ask(fault: AskFault) -> ClientFault
    ensures { result ≡ of_ask fault }
{
    match fault {
        AskFault::Broken | AskFault::Length => ClientFault::Length,
        AskFault::Kind => ClientFault::Kind,
        AskFault::Label => ClientFault::Label,
        AskFault::Content => ClientFault::Content,
    }
}

// A content begins.
fn begin(
    alloc: Global,
    body: &[u8],
    content: Option<Content>,
) -> Result<(Told, Option<Content>), Refusal<ClientFault>>
    requires { BEGIN_HEAD ≤ length body.now }
    ensures exact { IsTurn result (begins body.now content) }
    ensures counted { IfOk result (λ r. IsCounted r.1) }
{
    if content.is_some() {
        return Err(Refusal::Fault(ClientFault::Within));
    }
    if body.len() != BEGIN_HEAD + usize::from(body[9]) {
        return Err(Refusal::Fault(ClientFault::Label));
    }
    let label = ByteList::copied(alloc, &body[BEGIN_HEAD..])?;
    let tag = u64_at(body, 1);
    let content = Content {
        tag,
        count: 0,
        left: 0,
    };
    Ok((Told::Begin { tag, label }, Some(content)))
}

// A part of so many bytes begins.
fn part(
    tag: u64,
    left: u32,
    content: Option<Content>,
) -> Result<(Told, Option<Content>), Refusal<ClientFault>>
    ensures exact { IsTurn result (parts tag left content) }
    ensures counted { IfOk result (λ r. IsCounted r.1) }
{
    let Some(content) = content else {
        return Err(Refusal::Fault(ClientFault::Tag));
    };
    if content.tag != tag {
        return Err(Refusal::Fault(ClientFault::Tag));
    }
    if content.count.checked_add(u64::from(left)).is_none() {
        return Err(Refusal::Fault(ClientFault::Count));
    }
    Ok((Told::Part { tag }, Some(Content { left, ..content })))
}

// The open content ends.
fn end(
    body: &[u8],
    content: Option<Content>,
) -> Result<(Told, Option<Content>), Refusal<ClientFault>>
    requires { 18 ≤ length body.now }
    ensures exact { IsTurn result (ends (number8 body.now 1) (slice_index body.now 9) (number8 body.now 10) content) }
    ensures counted { IfOk result (λ r. IsCounted r.1) }
{
    let Some(content) = content else {
        return Err(Refusal::Fault(ClientFault::Tag));
    };
    let tag = u64_at(body, 1);
    if tag != content.tag {
        return Err(Refusal::Fault(ClientFault::Tag));
    }
    let how = match body[9] {
        0 => How::Whole,
        1 => How::GivenUp,
        _ => return Err(Refusal::Fault(ClientFault::How)),
    };
    if u64_at(body, 10) != content.count {
        return Err(Refusal::Fault(ClientFault::Count));
    }
    Ok((Told::End { tag, how }, None))
}

// The bytes without any, in room that is used again unless it is large.
fn emptied(alloc: Global, front: &mut Vec<u8>) -> Vec<u8>
    ensures { result.items ≡ [] }
{
    let mut used = mem::replace(front, Vec::new(alloc));
    if used.capacity() > LARGE {
        return Vec::new(alloc);
    }
    used.clear();
    used
}

// What a client says, of a part that begins without bytes of the piece.
fn said_of<'a>(told: Option<Told>, piece: &'a [u8]) -> Option<ClientSays<'a>>
    ensures { bytewise_of result ≡ told_list told }
{
    match told? {
        Told::Ask(ask) => Some(ClientSays::Ask(ask)),
        Told::Begin { tag, label } => Some(ClientSays::Begin { tag, label }),
        Told::Part { tag } => Some(ClientSays::Part {
            tag,
            some: &piece[..0],
        }),
        Told::End { tag, how } => Some(ClientSays::End { tag, how }),
        Told::Watch { tag, version } => Some(ClientSays::Watch { tag, version }),
    }
}
