ghost use Rattle.std.specs.Prelude.{◌≡◌, ◌<◌, ◌≤◌, ◌+◌, length, None, Ok, IfOk, IfSome, true};
ghost use Rattle.av_asks.specs.Speaking.{fits_kind, front_of, kind_of, length_of, wanted_of};

use crate::fault::ClientFault;
use crate::fields::u32_first;
use crate::sizes::{
    ASK_HEAD, BEGIN_HEAD, END_SIZE, MAX_ASK, MAX_BEGIN, MAX_PART_BODY, PART_HEAD, WATCH_SIZE,
};

/// What a frame of a client has that may send contents in parts.
#[derive(Clone, Copy)]
pub enum LargeKind {
    Ask,
    Begin,
    Part,
    End,
    Watch,
}

impl LargeKind {
    // Whether a body of this kind can have as many bytes.
    fn fits(self, size: usize) -> bool
        ensures { result ≡ fits_kind self size }
    {
        match self {
            LargeKind::Ask => size >= ASK_HEAD && size <= MAX_ASK,
            LargeKind::Begin => size >= BEGIN_HEAD && size <= MAX_BEGIN,
            LargeKind::Part => size > PART_HEAD && size <= MAX_PART_BODY,
            LargeKind::End => size == END_SIZE,
            LargeKind::Watch => size == WATCH_SIZE,
        }
    }

    // How many bytes of a frame of this kind are enough, where its body has so many.
    fn length(self, size: usize) -> usize
        requires { size < 4294967296 }
        ensures { result ≡ length_of self size }
    {
        match self {
            LargeKind::Ask | LargeKind::Begin | LargeKind::End | LargeKind::Watch => 4 + size,
            LargeKind::Part => 4 + PART_HEAD,
        }
    }
}

// The kind of a body that begins with this byte.
fn kind_of(byte: u8) -> Option<LargeKind>
    ensures { result ≡ kind_of byte }
{
    match byte {
        1 => Some(LargeKind::Ask),
        5 => Some(LargeKind::Begin),
        6 => Some(LargeKind::Part),
        7 => Some(LargeKind::End),
        8 => Some(LargeKind::Watch),
        _ => None,
    }
}

// The kind of the frame that begins with these bytes, and how many its body has, once enough are there. A length is judged once
// its four bytes are, and a kind and its length with the byte behind them.
#[tactic(auto, unfolding(crate::specs::Speaking::front_of))]
pub fn read_front(front: &[u8]) -> Result<Option<(LargeKind, usize)>, ClientFault>
    ensures exact { result ≡ front_of front.now }
    ensures fits { IfOk result (λ o. IfSome o (λ p. fits_kind p.0 p.1 ≡ true)) }
    ensures short { result ≡ Ok None → length front.now < 4 + MAX_ASK }
    ensures enough { IfOk result (λ o. IfSome o (λ p. length_of p.0 p.1 ≤ length front.now)) }
{
    if front.len() < 4 {
        return Ok(None);
    }
    let size = u32_first(front) as usize;
    if size < ASK_HEAD || size > MAX_ASK {
        return Err(ClientFault::Length);
    }
    if front.len() == 4 {
        return Ok(None);
    }
    let Some(kind) = kind_of(front[4]) else {
        return Err(ClientFault::Kind);
    };
    if !kind.fits(size) {
        return Err(ClientFault::Shape);
    }
    if front.len() < kind.length(size) {
        return Ok(None);
    }
    Ok(Some((kind, size)))
}

// Up to which length of a front nothing new is told.
#[tactic(auto, unfolding(crate::specs::Speaking::wanted_of))]
pub fn wanted(front: &[u8]) -> usize
    requires { length front.now < 4294967296 }
    ensures { result ≡ wanted_of front.now }
{
    if front.len() < 4 {
        return 4;
    }
    if front.len() == 4 {
        return 5;
    }
    match kind_of(front[4]) {
        Some(kind) => kind.length(u32_first(front) as usize),
        None => front.len() + 1,
    }
}
