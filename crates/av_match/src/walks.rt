//! Walks from the root, where a window can't be moved, and one window that goes over a piece by moves and walks.
ghost use Rattle.std.specs.Prelude.{◌≡◌, ◌+◌, ◌<◌, ◌≤◌, length, take, slice_index, IfOk, OnOk};
ghost use Rattle.av_match.specs.Passed.{ArePassed, IsWalked};
ghost use Rattle.av_match.specs.Reach.{reach};
ghost use Rattle.av_match.specs.Words.{AllBytes};
ghost use Rattle.av_match.specs.declared.cells.Reached.TheVariants.{Through};

use crate::credit::{Credit, ONE_STEP, Stop};
use crate::reach::Position;
use crate::tables::Tables;
use crate::windows::shift;

// How many bytes from a place on show that no pattern begins there.
fn walked(tables: &Tables<'_>, piece: &[u8], at: usize) -> Result<usize, Stop>
    requires at { at ≤ length piece.now }
    ensures walked { IfOk result (λ count.
        IsWalked tables.now.cells.now tables.now.outputs.now tables.now.depths.now piece.now at) }
    ensures within { IfOk result (λ count. at + count ≤ length piece.now) }
    ensures some { IfOk result (λ count. 0 < count) }
{
    let mut state = 0usize;
    for place in at..piece.len() {
        state = tables.cells[256 * state + piece[place] as usize] as usize;
        if tables.outputs[state] != 0 {
            return Err(Stop::Hit);
        }
        let count = place + 1 - at;
        if (tables.depths[state] as usize) < count {
            return Ok(count);
        }
    }
    Err(Stop::Open)
}

/// One step of a window: as far as it can be moved, or by one where a walk allows it, or else to where it is.
pub fn step_on(
    tables: &Tables<'_>,
    piece: &[u8],
    at: usize,
    credit: &mut Credit,
) -> Result<usize, Stop>
    requires wide { 2 ≤ tables.now.window }
    requires room { at + tables.now.window ≤ length piece.now }
    ensures passed { IfOk result (λ next. ArePassed tables.now piece.now at next) }
    ensures within { IfOk result (λ next. next ≤ length piece.now) }
    ensures on { IfOk result (λ next. at ≤ next) }
{
    let far = shift(tables, piece, at);
    if far != 0 {
        return Ok(at + far);
    }
    match walked(tables, piece, at) {
        Ok(count) => {
            credit.pay_walk(count)?;
            Ok(at + 1)
        }
        Err(Stop::Open) => Ok(at),
        Err(stop) => Err(stop),
    }
}

/// A window goes to an end, or to where the bytes end first.
pub fn moved(
    tables: &Tables<'_>,
    piece: &[u8],
    from: usize,
    end: usize,
    credit: &mut Credit,
) -> Result<usize, Stop>
    requires wide { 2 ≤ tables.now.window }
    requires end { end + tables.now.window ≤ length piece.now + 1 }
    requires from { from ≤ length piece.now }
    ensures passed { IfOk result (λ place. ArePassed tables.now piece.now from place) }
    ensures within { IfOk result (λ place. place ≤ length piece.now) }
{
    let mut place = from;
    'moves: while place < end {
        let next = step_on(tables, piece, place, credit)?;
        if next == place {
            break;
        }
        credit.earn(next - place);
        credit.pay(ONE_STEP)?;
        place = next;
    }
    Ok(place)
}

/// A window goes to an end.
pub fn moved_to(
    tables: &Tables<'_>,
    piece: &[u8],
    from: usize,
    end: usize,
    credit: &mut Credit,
) -> Result<(), Stop>
    requires wide { 2 ≤ tables.now.window }
    requires end { end + tables.now.window ≤ length piece.now + 1 }
    requires from { from ≤ length piece.now }
    ensures passed { OnOk result (ArePassed tables.now piece.now from end) }
{
    let place = moved(tables, piece, from, end, credit)?;
    if place < end { Err(Stop::Open) } else { Ok(()) }
}

/// Where the first bytes of a piece lead from a state, until the state's word begins in the piece.
pub fn enter(tables: &Tables<'_>, from: u16, piece: &[u8]) -> Result<Position, Stop>
    requires inside { from < length tables.now.outputs.now }
    ensures within { IfOk result (λ e. e.place ≤ length piece.now) }
    ensures inside { IfOk result (λ e. e.state < length tables.now.outputs.now) }
    ensures short { IfOk result (λ e. slice_index tables.now.depths.now e.state ≤ e.place) }
    ensures reach { IfOk result (λ e. reach tables.now.cells.now tables.now.outputs.now from 0 (take e.place piece.now)
        ≡ Through e.state) }
    ensures bytes { AllBytes piece.now }
{
    let mut state = from;
    for place in 0..piece.len() {
        if tables.depths[state as usize] as usize <= place {
            return Ok(Position { state, place });
        }
        state = tables.cells[256 * state as usize + piece[place] as usize];
        if tables.outputs[state as usize] != 0 {
            return Err(Stop::Hit);
        }
    }
    Err(Stop::Open)
}
