ghost use Rattle.std.specs.Prelude.{◌≡◌, ◌<◌, ◌≤◌, length, None, Ok, true};
ghost use Rattle.av_parts.specs.Heard.{fits_kind, front_as, front_of, kind_of, length_of};

use crate::fault::OrderFault;
use crate::fields::{u32_at, u64_at};
use crate::sizes::{END_SIZE, MAX_ORDER, NUMBER_SIZE, ORDER_FRONT, PART_HEAD};

/// What kind of order a frame has.
#[derive(Clone, Copy)]
pub enum Kind {
    Begin,
    Part,
    End,
    Drop,
}

impl Kind {
    // Whether the body of an order of this kind can have as many bytes.
    fn fits(self, size: usize) -> bool
        ensures { result ≡ fits_kind self size }
    {
        match self {
            Kind::Begin | Kind::Drop => size == NUMBER_SIZE,
            Kind::Part => size > PART_HEAD && size <= MAX_ORDER,
            Kind::End => size == END_SIZE,
        }
    }

    // How many bytes of a frame tell an order of this kind.
    fn length(self) -> usize
        ensures length { result ≡ length_of self }
        ensures some { 13 ≤ result }
        ensures few { result ≤ ORDER_FRONT }
    {
        match self {
            Kind::Begin | Kind::Part | Kind::Drop => 4 + NUMBER_SIZE,
            Kind::End => 4 + END_SIZE,
        }
    }
}

// The kind of a body that begins with this byte.
fn kind_of(byte: u8) -> Option<Kind>
    ensures { result ≡ kind_of byte }
{
    match byte {
        16 => Some(Kind::Begin),
        17 => Some(Kind::Part),
        18 => Some(Kind::End),
        19 => Some(Kind::Drop),
        _ => None,
    }
}

/// What the front of a frame tells: an order, or that a part of so many bytes begins.
#[derive(Clone, Copy)]
pub enum Front {
    Begin { number: u64 },
    Part { number: u64, left: u32 },
    End { number: u64, count: u64 },
    Drop { number: u64 },
}

// What the bytes of a frame that came tell, once they are enough. A length is judged once its four bytes are there, and a kind
// and its length with the byte behind them.
#[tactic(auto, unfolding(crate::specs::Heard::front_of))]
pub fn read_front(front: &[u8]) -> Result<Option<Front>, OrderFault>
    ensures exact { result ≡ front_of front.now }
    ensures short { result ≡ Ok None → length front.now < ORDER_FRONT }
{
    if front.len() < 4 {
        return Ok(None);
    }
    let size = u32_at(front, 0) as usize;
    if size < NUMBER_SIZE || size > MAX_ORDER {
        return Err(OrderFault::Length);
    }
    if front.len() == 4 {
        return Ok(None);
    }
    let Some(kind) = kind_of(front[4]) else {
        return Err(OrderFault::Kind);
    };
    if !kind.fits(size) {
        return Err(OrderFault::Shape);
    }
    if front.len() < kind.length() {
        return Ok(None);
    }
    Ok(Some(read_as(kind, size, front)))
}

// The front of this kind that so many bytes tell.
fn read_as(kind: Kind, size: usize, front: &[u8]) -> Front
    requires fits { fits_kind kind size ≡ true }
    requires whole { length_of kind ≤ length front.now }
    ensures { result ≡ front_as kind size front.now }
{
    let number = u64_at(front, 5);
    match kind {
        Kind::Begin => Front::Begin { number },
        Kind::Part => Front::Part {
            number,
            left: (size - PART_HEAD) as u32,
        },
        Kind::End => Front::End {
            number,
            count: u64_at(front, 13),
        },
        Kind::Drop => Front::Drop { number },
    }
}
