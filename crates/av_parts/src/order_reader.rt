ghost use Rattle.std.specs.Prelude.{◌≡◌, ◌≤◌, ◌↔◌, [], drop, length, IfErr, IfOk, IsTrue, None, Some};
ghost use Rattle.av_parts.specs.declared.order_reader.Place.TheVariants as place;
ghost use Rattle.av_parts.specs.Listening.{after};
ghost use Rattle.av_parts.specs.Heard.{HasLeft, bytewise_of, fresh, front_orders, heard_of, place_after, step, within};

use crate::fault::OrderFault;
use crate::front::{Front, read_front};
use crate::order::Order;
use crate::sizes::ORDER_FRONT;
use arrayvec::ArrayVec;
use std::marker::Model;

/// Where a reader is in the stream.
#[derive(Clone, Copy)]
pub enum Place {
    /// At the front of a frame.
    Front,
    /// Within a part of this content with so many bytes to come.
    Within { number: u64, left: u32 },
}

/// What came of the first bytes of a piece.
#[derive(Clone, Copy, Debug, PartialEq, Eq)]
pub struct Heard<'a> {
    /// How many bytes these are. The next call takes the rest.
    pub taken: usize,
    /// What they told. Where nothing, all bytes of the piece were taken.
    pub order: Option<Order<'a>>,
}

/// The stream of orders that a service reads, which comes in pieces cut anywhere. A reader keeps at most 20 bytes, the front of
/// a frame, and takes no memory: the bytes of a part are given as they lie in the piece.
#[derive(Drop)]
pub struct OrderReader {
    front: ArrayVec<u8, ORDER_FRONT>,
    place: Place,
    fault: Option<OrderFault>,
}

impl Model for OrderReader {
    ghost use Rattle.std.specs.Prelude.{◌<◌, length};
    ghost use Rattle.av_parts.specs.declared.sizes.TheConstants.{ORDER_FRONT};
    ghost use Rattle.av_parts.specs.Heard.{HasLeft, Hearing};

    ghost Value = { Hearing };

    ghost view = { λ r. record { front = r.front.items; place = r.place; fault = r.fault } };

    ghost invariant = { λ r. (length r.front.items < ORDER_FRONT) × HasLeft r.place };
}

impl OrderReader {
    /// A reader that nothing came to.
    pub fn new() -> OrderReader
        ensures { result ≡ fresh }
    {
        OrderReader {
            front: ArrayVec::new(),
            place: Place::Front,
            fault: None,
        }
    }

    /// Takes bytes of a piece up to the first that tells something: an order, that a part begins, or all bytes of a part that
    /// are there. Bytes are heard in their order, however they are cut. A fault is told again by each later call, and nothing
    /// more is heard.
    pub fn hear<'a>(&mut self, piece: &'a [u8]) -> Result<Heard<'a>, OrderFault>
        ensures within { IfOk result (λ r. r.taken ≤ length piece.now) }
        ensures some { IfOk result (λ r. 1 ≤ length piece.now → 1 ≤ r.taken) }
        ensures whole { IfOk result (λ r. r.order ≡ None → r.taken ≡ length piece.now) }
        ensures heard { IfOk result (λ r. after (bytewise_of r.order) (heard_of (drop r.taken piece.now) self.new) ≡ heard_of piece.now self.old) }
        ensures fault { IfErr result (λ f. (heard_of piece.now self.old ≡ (self.new, [])) × (self.new.fault ≡ Some f)) }
    {
        if let Some(fault) = self.fault {
            return Err(fault);
        }
        if piece.is_empty() {
            return Ok(Heard {
                taken: 0,
                order: None,
            });
        }
        match self.place {
            Place::Front => match hear_front(self, piece) {
                Ok((taken, front)) => Ok(Heard {
                    taken,
                    order: order_of(front, piece),
                }),
                Err(fault) => Err(fault),
            },
            Place::Within { number, left } => {
                let taken = piece.len().min(left as usize);
                self.place = within(number, left - taken as u32);
                Ok(Heard {
                    taken,
                    order: Some(Order::Part {
                        number,
                        some: &piece[..taken],
                    }),
                })
            }
        }
    }

    /// Whether all frames that began are whole, and no fault was met.
    pub fn is_between(&self) -> bool
        ensures { IsTrue result ↔ (self.now ≡ fresh) }
    {
        self.front.is_empty() && matches!(self.place, Place::Front) && self.fault.is_none()
    }

    // Takes a byte at the front of a frame.
    #[tactic(auto, unfolding(crate::specs::Heard::step))]
    fn front_byte(&mut self, byte: u8) -> Result<Option<Front>, OrderFault>
        requires place { self.old.place ≡ place.Front }
        requires well { self.old.fault ≡ None }
        ensures ok { IfOk result (λ f. (self.new, front_orders f) ≡ step byte self.old) }
        ensures well { IfOk result (λ f. self.new.fault ≡ None) }
        ensures more { IfOk result (λ f. f ≡ None → self.new.place ≡ place.Front) }
        ensures fault { IfErr result (λ f. ((self.new, []) ≡ step byte self.old) × (self.new.fault ≡ Some f)) }
    {
        self.front.push(byte);
        match read_front(self.front.as_slice()) {
            Ok(None) => Ok(None),
            Ok(Some(front)) => {
                self.front.clear();
                self.place = place_after(front);
                Ok(Some(front))
            }
            Err(fault) => {
                self.front.clear();
                self.fault = Some(fault);
                Err(fault)
            }
        }
    }
}

// Takes bytes from the front of a frame on, until its order is told.
fn hear_front(reader: &mut OrderReader, piece: &[u8]) -> Result<(usize, Option<Front>), OrderFault>
    requires place { reader.old.place ≡ place.Front }
    requires well { reader.old.fault ≡ None }
    ensures within { IfOk result (λ r. r.0 ≤ length piece.now) }
    ensures some { IfOk result (λ r. 1 ≤ length piece.now → 1 ≤ r.0) }
    ensures whole { IfOk result (λ r. r.1 ≡ None → r.0 ≡ length piece.now) }
    ensures heard { IfOk result (λ r. after (front_orders r.1) (heard_of (drop r.0 piece.now) reader.new) ≡ heard_of piece.now reader.old) }
    ensures fault { IfErr result (λ f. (heard_of piece.now reader.old ≡ (reader.new, [])) × (reader.new.fault ≡ Some f)) }
{
    let mut taken = 0;
    'bytes: while taken < piece.len() {
        let byte = piece[taken];
        taken += 1;
        match reader.front_byte(byte) {
            Ok(None) => {}
            Ok(Some(front)) => return Ok((taken, Some(front))),
            Err(fault) => return Err(fault),
        }
    }
    Ok((taken, None))
}

// Where a reader is with so many bytes of a part to come.
fn within(number: u64, left: u32) -> Place
    ensures place { result ≡ within number left }
    ensures left { HasLeft result }
{
    if left == 0 {
        return Place::Front;
    }
    Place::Within { number, left }
}

// Where a reader is behind a front.
fn place_after(front: Front) -> Place
    ensures place { result ≡ place_after front }
    ensures left { HasLeft result }
{
    match front {
        Front::Begin { .. } | Front::End { .. } | Front::Drop { .. } => Place::Front,
        Front::Part { number, left } => within(number, left),
    }
}

// The order that a front tells. Of a part that begins no byte has come.
fn order_of<'a>(front: Option<Front>, piece: &'a [u8]) -> Option<Order<'a>>
    ensures orders { bytewise_of result ≡ front_orders front }
    ensures none { result ≡ None → front ≡ None }
{
    match front? {
        Front::Begin { number } => Some(Order::Begin { number }),
        Front::Part { number, .. } => Some(Order::Part {
            number,
            some: &piece[..0],
        }),
        Front::End { number, count } => Some(Order::End { number, count }),
        Front::Drop { number } => Some(Order::Drop { number }),
    }
}
