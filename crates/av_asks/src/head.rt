ghost use Rattle.std.specs.Prelude.{◌≡◌, ◌+◌, length};
ghost use Rattle.av_asks.specs.Head.{WholeAtMost, fits_kind, fits_size, head_of};

use crate::fields::u32_first;
use crate::sizes::{ASK_HEAD, DENIED_SIZE, GRANTED_SIZE, MAX_ASK};

/// What a stream of frames carries.
#[derive(Clone, Copy)]
pub enum Side {
    Asks,
    Answers,
}

impl Side {
    // Whether a body of this side can have as many bytes.
    fn fits_size(self, size: usize) -> bool
        ensures { result ≡ fits_size self size }
    {
        match self {
            Side::Asks => size >= ASK_HEAD && size <= MAX_ASK,
            Side::Answers => size >= DENIED_SIZE && size <= GRANTED_SIZE,
        }
    }

    // Whether a body of this side can begin with this byte.
    fn fits_kind(self, kind: u8) -> bool
        ensures { result ≡ fits_kind self kind }
    {
        match self {
            Side::Asks => kind == 1,
            Side::Answers => kind >= 2 && kind <= 4,
        }
    }
}

/// What the front of a stream tells of the frame that begins there.
#[derive(Clone, Copy)]
pub enum Head {
    /// The frame isn't whole yet, and nothing is wrong with it so far.
    Waits,
    /// No body has that length.
    Length,
    /// No body has that first byte.
    Kind,
    /// The frame is whole, and its body has so many bytes.
    Whole(usize),
}

// What the first bytes tell. A length is judged once its four bytes are there, and a kind once it is.
#[tactic(auto, unfolding(crate::specs::Head::head_of))]
pub fn read_head(side: Side, rest: &[u8]) -> Head
    ensures exact { result ≡ head_of side rest.now }
    ensures whole { WholeAtMost (length rest.now) result }
{
    if rest.len() < 4 {
        return Head::Waits;
    }
    let size = u32_first(rest) as usize;
    if !side.fits_size(size) {
        return Head::Length;
    }
    if rest.len() == 4 {
        return Head::Waits;
    }
    if !side.fits_kind(rest[4]) {
        return Head::Kind;
    }
    if rest.len() < 4 + size {
        return Head::Waits;
    }
    Head::Whole(size)
}
