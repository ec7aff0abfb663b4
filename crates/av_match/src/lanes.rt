//! A piece of a content, read in six parts side by side: a part needs no more than the 63 bytes before it to come to
//! the state of the whole, since a word of 64 bytes is a pattern.
ghost use Rattle.std.specs.Prelude.{◌≡◌, ◌+◌, ◌*◌, ◌<◌, ◌≤◌, length, take, slice_index, IfSome};
ghost use Rattle.std.specs.Bool.{OnTrue};
ghost use Rattle.av_match.specs.Lanes.{AreInside, AreSilent, AreWithin};
ghost use Rattle.av_match.specs.Part.{IsClosed};
ghost use Rattle.av_match.specs.Reach.{reach};
ghost use Rattle.av_match.specs.Tables.{AreTables};
ghost use Rattle.av_match.specs.Words.{run};
ghost use Rattle.av_match.specs.declared.cells.Reached.TheVariants.{Through};

use crate::cells::Reached;
use crate::reach::{Position, reach_of};
use crate::six_parts::{SixParts, six_parts};
use crate::tables::Tables;

/// How many bytes a part is begun early: one less than the longest pattern has.
const EARLY: usize = 63;

/// Below this length six parts cost more than one.
const LEAST: usize = 1024;

/// The states to which six parts lead.
#[derive(Clone, Copy)]
pub struct SixStates {
    pub a: usize,
    pub b: usize,
    pub c: usize,
    pub d: usize,
    pub e: usize,
    pub f: usize,
}

/// The state to which a piece leads, where it is long and nothing is given out on the way.
pub fn through_piece(tables: &Tables<'_>, from: u16, piece: &[u8]) -> Option<u16>
    requires set { AreTables tables.now }
    requires inside { from < length tables.now.outputs.now }
    requires silent { slice_index tables.now.outputs.now from ≡ 0 }
    ensures { IfSome result (λ t. reach tables.now.cells.now tables.now.outputs.now from 0 piece.now ≡ Through t) }
{
    if piece.len() < LEAST {
        return None;
    }
    let step = (piece.len() - EARLY) / 6;
    let state = through_parts(tables, from, piece, step)?;
    let last = Position {
        state,
        place: 6 * step + EARLY,
    };
    match reach_of(tables, last, piece) {
        Reached::Through { state } => Some(state),
        Reached::Hit { .. } => None,
    }
}

// The state to which six parts of a piece lead, where nothing is given out in them.
fn through_parts(tables: &Tables<'_>, from: u16, piece: &[u8], step: usize) -> Option<u16>
    requires set { AreTables tables.now }
    requires inside { from < length tables.now.outputs.now }
    requires silent { slice_index tables.now.outputs.now from ≡ 0 }
    requires room { 6 * step + 63 ≤ length piece.now }
    ensures { IfSome result (λ t. reach tables.now.cells.now tables.now.outputs.now from 0 (take (6 * step + 63) piece.now)
        ≡ Through t) }
{
    let parts = six_parts(piece, step, step + EARLY);
    let states = six_lanes(tables.cells, from as usize, &parts);
    if are_silent(tables.outputs, states) {
        Some(states.f as u16)
    } else {
        None
    }
}

// Whether none of the states gives anything out.
fn are_silent(outputs: &[u16], states: SixStates) -> bool
    requires { AreInside (length outputs.now) states }
    ensures { OnTrue result (AreSilent outputs.now states) }
{
    outputs[states.a] == 0
        && outputs[states.b] == 0
        && outputs[states.c] == 0
        && outputs[states.d] == 0
        && outputs[states.e] == 0
        && outputs[states.f] == 0
}

// Where six parts of one length lead, the first from a state and the others from the root.
fn six_lanes(cells: &[u16], from: usize, parts: &SixParts<'_>) -> SixStates
    requires closed { IsClosed cells.now }
    requires some { 256 ≤ length cells.now }
    requires inside { 256 * from + 256 ≤ length cells.now }
    ensures runs { result ≡ record {
      a = run cells.now from parts.now.a.now;
      b = run cells.now 0 parts.now.b.now;
      c = run cells.now 0 parts.now.c.now;
      d = run cells.now 0 parts.now.d.now;
      e = run cells.now 0 parts.now.e.now;
      f = run cells.now 0 parts.now.f.now;
    } }
    ensures inside { AreWithin (length cells.now) result }
{
    let SixParts { a, b, c, d, e, f } = *parts;
    let mut p = from;
    let mut q = 0usize;
    let mut r = 0usize;
    let mut s = 0usize;
    let mut t = 0usize;
    let mut u = 0usize;
    for i in 0..a.len() {
        p = cells[256 * p + a[i] as usize] as usize;
        q = cells[256 * q + b[i] as usize] as usize;
        r = cells[256 * r + c[i] as usize] as usize;
        s = cells[256 * s + d[i] as usize] as usize;
        t = cells[256 * t + e[i] as usize] as usize;
        u = cells[256 * u + f[i] as usize] as usize;
    }
    SixStates {
        a: p,
        b: q,
        c: r,
        d: s,
        e: t,
        f: u,
    }
}
