ghost use Rattle.std.specs.Prelude.{◌≡◌, ◌+◌, ◌≤◌, ◌++◌, ◌∷◌, vec_len, vec_capacity};
ghost use Rattle.av_base.specs.Answers.{Steps};
ghost use Rattle.av_parts.specs.Orders.{order_of};
ghost use Rattle.av_parts.specs.Spelling.{IsSpelled, field8, order_body, size_of, written};

use crate::fault::UnfitPart;
use crate::fields::{put1, put4, put8};
use crate::sizes::{END_SIZE, MAX_PART, NUMBER_SIZE, PART_HEAD};
use av_base::Refusal;

/// What a guard sends of a content, under a number of its own.
#[derive(Clone, Copy, Debug, PartialEq, Eq)]
pub enum Order<'a> {
    /// The content begins. Its number is above all that were begun before.
    Begin { number: u64 },
    /// Some of its bytes. A reader gives none of them where a part begins, and then those that came of it.
    Part { number: u64, some: &'a [u8] },
    /// It is whole, and has so many bytes.
    End { number: u64, count: u64 },
    /// It is given up.
    Drop { number: u64 },
}

/// Appends the frame of an order. A part's bytes are copied once. A part of no bytes or of more than 1,048,576 is refused; where
/// an order is refused nothing is appended.
pub fn put_order(out: &mut Vec<u8>, order: Order<'_>) -> Result<(), Refusal<UnfitPart>>
    ensures { Steps out.old.items out.new.items result (written out.old.items (order_of order.entry)) }
{
    if let Order::Part { some, .. } = order {
        if some.is_empty() {
            return Err(Refusal::Fault(UnfitPart::Empty));
        }
        if some.len() > MAX_PART {
            return Err(Refusal::Fault(UnfitPart::TooLong));
        }
    }
    put_frame(out, order)
}

// Appends the frame of an order that can be spelled.
fn put_frame(out: &mut Vec<u8>, order: Order<'_>) -> Result<(), Refusal<UnfitPart>>
    requires { IsSpelled (order_of order) }
    ensures { Steps out.old.items out.new.items result (written out.old.items (order_of order.entry)) }
{
    let size = size(order);
    out.reserve(4 + size)?;
    put4(out, size as u32);
    put_body(out, order);
    Ok(())
}

// How many bytes the body of an order has.
fn size(order: Order<'_>) -> usize
    requires { IsSpelled (order_of order) }
    ensures size { result ≡ size_of (order_of order.entry) }
    ensures small { result ≤ PART_HEAD + MAX_PART }
{
    match order {
        Order::Begin { .. } | Order::Drop { .. } => NUMBER_SIZE,
        Order::Part { some, .. } => PART_HEAD + some.len(),
        Order::End { .. } => END_SIZE,
    }
}

// Appends the body of an order, for which there is room.
fn put_body(out: &mut Vec<u8>, order: Order<'_>)
    requires { vec_len out.old + size_of (order_of order) ≤ vec_capacity out.old }
    ensures { out.new.items ≡ out.old.items ++ order_body (order_of order.entry) }
{
    match order {
        Order::Begin { number } => put_number(out, 16, number),
        Order::Part { number, some } => {
            put_number(out, 17, number);
            out.extend_from_slice(some).unwrap();
        }
        Order::End { number, count } => {
            put_number(out, 18, number);
            put8(out, count);
        }
        Order::Drop { number } => put_number(out, 19, number),
    }
}

// Appends a kind and a content's number, for which there is room.
fn put_number(out: &mut Vec<u8>, kind: u8, number: u64)
    requires { vec_len out.old + 9 ≤ vec_capacity out.old }
    ensures bytes { out.new.items ≡ out.old.items ++ kind ∷ field8 number }
    ensures len { vec_len out.new ≡ vec_len out.old + 9 }
    ensures capacity { vec_capacity out.old ≤ vec_capacity out.new }
{
    put1(out, kind);
    put8(out, number);
}
