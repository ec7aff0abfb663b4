//! How a glob is read.
ghost use Rattle.std.specs.Prelude.{◌≡◌, ◌∷◌, [], ℕ, List, IfOk, MatchOption};
ghost use Rattle.av_glob.specs.Reading.{ReadsItems, begins, ends, has, read, with_item, with_items};
ghost use Rattle.av_glob.specs.declared.reading.Place.TheVariants.{Between, Inside, Opened};

use crate::item::Item;
use av_base::{ByteList, Refusal};
use std::alloc::{AllocError, Global};
use thiserror::Error;

/// What is wrong with a text that is no glob.
#[derive(Clone, Copy, Debug, PartialEq, Eq, Error)]
pub enum GlobFault {
    #[error("is empty")]
    Empty,
    #[error("ends with a slash, which no path does")]
    Slash,
    #[error("ends with a backslash")]
    Escape,
    #[error("has a [ without its ]")]
    Class,
}

/// A place in a glob.
#[derive(Clone, Copy, Debug, PartialEq, Eq)]
pub enum Place {
    /// Between two items.
    Between,
    /// At the second of two stars.
    SecondStar,
    /// Behind a backslash.
    Escaped,
    /// Behind the bracket that opens a class, and the `!` that negates it.
    Opened(bool),
    /// Behind the first member of a class.
    Inside(bool),
}

/// The items that a text spells.
pub(crate) fn read_items(alloc: Global, text: &[u8]) -> Result<Vec<Item>, Refusal<GlobFault>>
    ensures { ReadsItems result (read Between [] text.now) }
{
    let mut items = Vec::new(alloc);
    let mut members = Vec::new(alloc);
    let mut place = Place::Between;
    let mut rest = text;
    'bytes: while let Some((byte, below)) = rest.split_first() {
        place = step(alloc, place, *byte, below, &mut members, &mut items)?;
        rest = below;
    }
    match fault_at(place) {
        None => Ok(items),
        Some(fault) => Err(Refusal::Fault(fault)),
    }
}

// The place behind a byte, where an item may end.
fn step(
    alloc: Global,
    place: Place,
    byte: u8,
    below: &[u8],
    members: &mut Vec<u8>,
    items: &mut Vec<Item>,
) -> Result<Place, AllocError>
    ensures { IfOk result (λ next. with_items items.new.items (read next members.new.items below.now) ≡ with_items items.old.items (read place members.old.items (byte ∷ below.now))) }
{
    match place {
        Place::Inside(is_negated) => inside(alloc, is_negated, byte, members, items),
        Place::Opened(is_negated) => opened(is_negated, byte, members),
        Place::Between => {
            members.clear();
            between(byte, below, items)
        }
        Place::SecondStar => {
            members.clear();
            put(Item::Stars, items)
        }
        Place::Escaped => {
            members.clear();
            put(Item::Byte(byte), items)
        }
    }
}

// The place behind a byte that is between two items.
fn between(byte: u8, below: &[u8], items: &mut Vec<Item>) -> Result<Place, AllocError>
    ensures { IfOk result (λ next. with_items items.new.items (read next [] below.now) ≡ with_items items.old.items (read Between [] (byte ∷ below.now))) }
{
    match byte {
        b'*' if begins(b'*', below) => Ok(Place::SecondStar),
        b'*' => put(Item::Star, items),
        b'?' => put(Item::One, items),
        b'\\' => Ok(Place::Escaped),
        b'[' => Ok(Place::Opened(false)),
        _ => put(Item::Byte(byte), items),
    }
}

// Puts an item behind the others. It ends here.
#[tactic(auto, using(crate::proofs::ReadingLemmas::one_more))]
fn put(item: Item, items: &mut Vec<Item>) -> Result<Place, AllocError>
    ensures { IfOk result (λ next. (below : List ℕ) → with_items items.new.items (read next [] below) ≡ with_items items.old.items (with_item item (read Between [] below))) }
{
    items.push(item)?;
    Ok(Place::Between)
}

// The place behind the first byte in the brackets of a class: a mark that negates it, or a member.
fn opened(is_negated: bool, byte: u8, members: &mut Vec<u8>) -> Result<Place, AllocError>
    ensures { IfOk result (λ next. (below : List ℕ) → read next members.new.items below ≡ read (Opened is_negated) members.old.items (byte ∷ below)) }
{
    members.clear();
    if byte == b'!' && !is_negated {
        return Ok(Place::Opened(true));
    }
    members.push(byte)?;
    Ok(Place::Inside(is_negated))
}

// The place behind a further byte of a class.
fn inside(
    alloc: Global,
    is_negated: bool,
    byte: u8,
    members: &mut Vec<u8>,
    items: &mut Vec<Item>,
) -> Result<Place, AllocError>
    ensures { IfOk result (λ next. (below : List ℕ) → with_items items.new.items (read next members.new.items below) ≡ with_items items.old.items (read (Inside is_negated) members.old.items (byte ∷ below))) }
{
    if byte != b']' {
        members.push(byte)?;
        return Ok(Place::Inside(is_negated));
    }
    let class = Item::Class {
        is_negated,
        members: ByteList::copied(alloc, members.as_slice())?,
    };
    members.clear();
    put(class, items)
}

// What is wrong with a glob that ends at this place.
fn fault_at(place: Place) -> Option<GlobFault>
    ensures { MatchOption result (read place [] [] ≡ Ok []) (λ fault. (members : List ℕ) → read place members [] ≡ Err fault) }
{
    match place {
        Place::Between | Place::SecondStar => None,
        Place::Escaped => Some(GlobFault::Escape),
        Place::Opened(_) | Place::Inside(_) => Some(GlobFault::Class),
    }
}

/// Whether the first byte is this one.
fn begins(wanted: u8, text: &[u8]) -> bool
    ensures { result ≡ begins wanted text.now }
{
    match text.first() {
        Some(byte) => *byte == wanted,
        None => false,
    }
}

/// Whether the last byte is this one.
pub(crate) fn ends(wanted: u8, text: &[u8]) -> bool
    ensures { result ≡ ends wanted text.now }
{
    let mut is_met = false;
    let mut rest = text;
    'bytes: while let Some((byte, below)) = rest.split_first() {
        is_met = *byte == wanted;
        rest = below;
    }
    is_met
}

/// Whether some byte is this one.
pub(crate) fn has(wanted: u8, text: &[u8]) -> bool
    ensures { result ≡ has wanted text.now }
{
    let mut rest = text;
    'bytes: while let Some((byte, below)) = rest.split_first() {
        if *byte == wanted {
            return true;
        }
        rest = below;
    }
    false
}
