//! Leaps: eight windows one after the other that are read at once, with no chain between them; or, where the set has one
//! pattern, to where its rarest bytes come next.
ghost use Rattle.std.specs.Prelude.{◌≡◌, ◌+◌, ◌-◌, ◌*◌, ◌^◌, ◌<◌, ◌≤◌, length, IfOk};
ghost use Rattle.std.specs.Bool.{OnTrue};
ghost use Rattle.av_match.specs.Leaps.{AreFree};
ghost use Rattle.av_match.specs.Passed.{AreOver, ArePassed};
ghost use Rattle.av_match.specs.Shifts.{AreBelow};

use crate::credit::{Credit, Stop};
use crate::searches::{next_by_byte, next_by_pair};
use crate::tables::Tables;
use crate::walks::moved;
use crate::windows::{after, pair_shift};

/// How many bytes of leaps pay for the steps between two of them.
const LEAST_LEAP: usize = 2048;

/// The same of searches, each of which ends at a place where one step follows.
const LEAST_SEARCH: usize = 768;

// Whether eight windows one after the other can each be moved by all of their bytes but one.
fn are_free(shifts: &[u8], pairs: &[u8], most: usize, at: usize) -> bool
    requires size { length shifts.now ≡ 65536 }
    requires most { AreBelow (most + 1) shifts.now }
    requires few { most ≤ 256 }
    requires room { at + 7 * most + 2 ≤ length pairs.now }
    ensures { OnTrue result (AreFree shifts.now pairs.now most at) }
{
    let a = pair_shift(shifts, pairs, at);
    let b = pair_shift(shifts, pairs, at + most);
    let c = pair_shift(shifts, pairs, at + 2 * most);
    let d = pair_shift(shifts, pairs, at + 3 * most);
    let e = pair_shift(shifts, pairs, at + 4 * most);
    let f = pair_shift(shifts, pairs, at + 5 * most);
    let g = pair_shift(shifts, pairs, at + 6 * most);
    let h = pair_shift(shifts, pairs, at + 7 * most);
    a + b + c + d + e + f + g + h == 8 * most
}

// The window is moved by eight steps at once, as long as each is as long as can be.
fn leap(tables: &Tables<'_>, piece: &[u8], from: usize) -> usize
    requires wide { 2 ≤ tables.now.window }
    requires small { length piece.now ≤ 2 ^ 32 }
    requires from { from + tables.now.window ≤ length piece.now }
    ensures over { AreOver tables.now piece.now from result }
    ensures within { result + tables.now.window ≤ length piece.now }
    ensures on { from ≤ result }
{
    let pairs = after(piece, tables.window - 2);
    let most = tables.window - 1;
    let mut place = from;
    'leaps: while place + 8 * most + 2 <= pairs.len() {
        if are_free(tables.shifts, pairs, most, place) {
            place += 8 * most;
        } else {
            return place;
        }
    }
    place
}

/// What a leap goes by: the rarest byte of the one pattern, its two rarest ones, or windows.
#[derive(Clone, Copy)]
enum LeapKind {
    Byte,
    Pair,
    Windows,
}

// One leap.
#[inline(always)]
fn leap_by(tables: &Tables<'_>, way: LeapKind, piece: &[u8], from: usize) -> usize
    requires wide { 2 ≤ tables.now.window }
    requires small { length piece.now ≤ 2 ^ 32 }
    requires from { from + tables.now.window ≤ length piece.now }
    ensures passed { ArePassed tables.now piece.now from result }
    ensures within { result ≤ length piece.now }
    ensures on { from ≤ result }
{
    match (way, &tables.rare) {
        (LeapKind::Byte, Some(rare)) => next_by_byte(rare, piece, from),
        (LeapKind::Pair, Some(rare)) => next_by_pair(rare, piece, from),
        _ => leap(tables, piece, from),
    }
}

// A place up to which leaps go from a place on, with a few steps between them, as long as that is quick. Each way has a
// loop of its own.
#[inline(always)]
fn leaped_by(tables: &Tables<'_>, way: LeapKind, piece: &[u8], from: usize) -> Result<usize, Stop>
    requires wide { 2 ≤ tables.now.window }
    requires small { length piece.now ≤ 2 ^ 32 }
    requires from { from ≤ length piece.now }
    ensures passed { IfOk result (λ p. ArePassed tables.now piece.now from p) }
    ensures within { IfOk result (λ p. p ≤ length piece.now) }
{
    let (price, steps) = match way {
        LeapKind::Windows => (LEAST_LEAP, 8 * tables.window),
        LeapKind::Byte | LeapKind::Pair => (LEAST_SEARCH, 1),
    };
    let mut place = from;
    let mut spare = price / 2;
    'leaps: while place + tables.window <= piece.len() {
        let far = leap_by(tables, way, piece, place);
        spare = spare.saturating_add(far - place);
        if spare < price {
            return Ok(far);
        }
        spare -= price;
        let end = (piece.len() - tables.window + 1).min(far + steps);
        match moved(tables, piece, far, end, &mut Credit::of(LEAST_LEAP)) {
            Ok(next) if far < next => place = next,
            Err(Stop::Hit) => return Err(Stop::Hit),
            _ => return Ok(far),
        }
    }
    Ok(place)
}

/// A place up to which leaps go: by rare bytes where the set has one pattern, and where these come too often, or end, by
/// windows.
pub fn leaped(tables: &Tables<'_>, piece: &[u8]) -> Result<usize, Stop>
    requires wide { 2 ≤ tables.now.window }
    requires small { length piece.now ≤ 2 ^ 32 }
    ensures passed { IfOk result (λ p. ArePassed tables.now piece.now 0 p) }
    ensures within { IfOk result (λ p. p ≤ length piece.now) }
{
    if tables.rare.is_none() {
        return leaped_by(tables, LeapKind::Windows, piece, 0);
    }
    let by_byte = leaped_by(tables, LeapKind::Byte, piece, 0)?;
    let by_pair = leaped_by(tables, LeapKind::Pair, piece, by_byte)?;
    leaped_by(tables, LeapKind::Windows, piece, by_pair)
}
