//! A quick way over a piece at whose places no pattern begins. A window as long as the shortest pattern but for the
//! short ones is moved over it by its last two bytes; where it can't be moved, a walk from the root tells whether a
//! pattern begins there. The short ones are looked for by themselves.
ghost use Rattle.std.specs.Prelude.{◌≡◌, ◌^◌, ◌<◌, ◌≤◌, length, slice_index, IfOk};
ghost use Rattle.av_match.specs.Passed.{ArePassed};
ghost use Rattle.av_match.specs.Reach.{reach};
ghost use Rattle.av_match.specs.Tables.{AreTables};
ghost use Rattle.av_match.specs.declared.cells.Reached.TheVariants.{Through};

#[cfg(test)]
mod tests;

use crate::cells::Reached;
use crate::credit::{Credit, Stop};
use crate::leaps::leaped;
use crate::parts::rounds;
use crate::reach::{Position, reach_of};
use crate::shorts::are_absent;
use crate::tables::Tables;
use crate::walks::{enter, moved, moved_to};
use crate::windows::after;

/// Shorter pieces are passed over by one window.
const LEAST: usize = 512;

/// The state to which a piece leads, where windows show soon that nothing is given out on the way.
pub fn skim(tables: &Tables<'_>, from: u16, piece: &[u8]) -> Result<u16, Stop>
    requires set { AreTables tables.now }
    requires inside { from < length tables.now.outputs.now }
    requires silent { slice_index tables.now.outputs.now from ≡ 0 }
    requires small { length piece.now ≤ 2 ^ 32 }
    ensures { IfOk result (λ t. reach tables.now.cells.now tables.now.outputs.now from 0 piece.now ≡ Through t) }
{
    if tables.window < 2 {
        return Err(Stop::Costly);
    }
    let entry = enter(tables, from, piece)?;
    let rest = after(
        piece,
        entry.place - tables.depths[entry.state as usize] as usize,
    );
    let others = after(rest, leaped(tables, rest)?);
    let place = passed(tables, others)?;
    are_absent(tables.shorts, rest)?;
    match reach_of(tables, Position { state: 0, place }, others) {
        Reached::Through { state } => Ok(state),
        Reached::Hit { .. } => Err(Stop::Hit),
    }
}

/// A place up to which no pattern begins that is as long as the window.
pub fn passed(tables: &Tables<'_>, piece: &[u8]) -> Result<usize, Stop>
    requires wide { 2 ≤ tables.now.window }
    requires small { length piece.now ≤ 2 ^ 32 }
    ensures within { IfOk result (λ p. p ≤ length piece.now) }
    ensures passed { IfOk result (λ p. ArePassed tables.now piece.now 0 p) }
{
    if piece.len() < tables.window {
        return Ok(0);
    }
    let last = piece.len() - tables.window + 1;
    let mut credit = Credit::of(piece.len());
    if piece.len() < LEAST {
        return moved(tables, piece, 0, last, &mut credit);
    }
    let step = (piece.len() - tables.window) / 6;
    let at = rounds(tables, piece, step, &mut credit)?;
    moved_to(tables, piece, at.a, step, &mut credit)?;
    moved_to(tables, piece, at.b, 2 * step, &mut credit)?;
    moved_to(tables, piece, at.c, 3 * step, &mut credit)?;
    moved_to(tables, piece, at.d, 4 * step, &mut credit)?;
    moved_to(tables, piece, at.e, 5 * step, &mut credit)?;
    moved(tables, piece, at.f, last, &mut credit)
}
