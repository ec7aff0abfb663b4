//! A piece of a content under patterns that are bound to spans, read in six parts side by side: a part needs no more than
//! the 64 bytes before it to come to the state of the whole.
ghost use Rattle.std.specs.Prelude.{◌≡◌, ◌+◌, ◌*◌, ◌^◌, ◌<◌, ◌≤◌, ◌∷◌, ℕ, List, length, take, IfSome};
ghost use Rattle.av_match.specs.Quiet.{AreQuiet};
ghost use Rattle.av_match.specs.Ranged.{reach_find};
ghost use Rattle.av_match.specs.declared.cells.Reached.TheVariants.{Through};

use crate::cells::Reached;
use crate::lanes::SixStates;
use crate::ranged::{Walk, find, walk_on};
use crate::reach::Position;
use crate::six_parts::{SixParts, six_parts};

/// How many bytes a part is begun early: as many as the longest pattern has.
const EARLY: usize = 64;

/// Below this length six parts cost more than one.
const LEAST: usize = 1024;

/// The state to which a piece of a chunk leads, where it is long and nothing is found in it. So many bytes have come before
/// the chunk.
pub fn quiet_piece(walk: &Walk<'_>, from: Position, fed: u64, piece: &[u8]) -> Option<u16>
    requires inside { from.state < length walk.now.stops.now }
    requires room { fed + from.place + length piece.now < 2 ^ 64 }
    ensures quiet { IfSome result (λ t. reach_find walk.now.patterns.now walk.now.cells.now fed from.state from.place piece.now ≡ Through t) }
    ensures inside { IfSome result (λ t. t < length walk.now.stops.now) }
{
    if piece.len() < LEAST {
        return None;
    }
    let step = (piece.len() - EARLY) / 6;
    let state = quiet_parts(walk, from, fed, piece, step)?;
    let count = 6 * step + EARLY;
    let last = Position {
        state,
        place: from.place + count,
    };
    match walk_on(walk, last, fed, &piece[count..]) {
        Reached::Through { state } => Some(state),
        Reached::Hit { .. } => None,
    }
}

// The state to which six parts of a piece lead, where nothing is found in them.
fn quiet_parts(walk: &Walk<'_>, from: Position, fed: u64, piece: &[u8], step: usize) -> Option<u16>
    requires inside { from.state < length walk.now.stops.now }
    requires room { fed + from.place + length piece.now < 2 ^ 64 }
    requires long { 6 * step + 64 ≤ length piece.now }
    ensures quiet { IfSome result (λ t. reach_find walk.now.patterns.now walk.now.cells.now fed from.state from.place
        (take (6 * step + 64) piece.now) ≡ Through t) }
    ensures inside { IfSome result (λ t. t < length walk.now.stops.now) }
{
    let parts = six_parts(piece, step, step + EARLY);
    let states = quiet_lanes(walk, from, fed, step, &parts)?;
    Some(states.f as u16)
}

// Where six parts of one length lead, the first from a position and the others, each so many bytes behind the one before,
// from the root; where nothing is found in them.
fn quiet_lanes(
    walk: &Walk<'_>,
    from: Position,
    fed: u64,
    step: usize,
    parts: &SixParts<'_>,
) -> Option<SixStates>
    requires inside { from.state < length walk.now.stops.now }
    requires room { fed + from.place + 5 * step + length parts.now.a.now < 2 ^ 64 }
    ensures quiet { IfSome result (λ s. AreQuiet walk.now.patterns.now walk.now.cells.now fed from.state from.place step
        parts.now.a.now parts.now.b.now parts.now.c.now parts.now.d.now parts.now.e.now parts.now.f.now s) }
    ensures inside { IfSome result (λ s. s.f < length walk.now.stops.now) }
{
    let SixParts { a, b, c, d, e, f } = *parts;
    let mut p = from.state as usize;
    let mut q = 0usize;
    let mut r = 0usize;
    let mut s = 0usize;
    let mut t = 0usize;
    let mut u = 0usize;
    let base = fed + from.place as u64;
    for i in 0..a.len() {
        let end_at = base + i as u64 + 1;
        p = quiet_step(walk, p, a[i], end_at)?;
        q = quiet_step(walk, q, b[i], end_at + step as u64)?;
        r = quiet_step(walk, r, c[i], end_at + 2 * step as u64)?;
        s = quiet_step(walk, s, d[i], end_at + 3 * step as u64)?;
        t = quiet_step(walk, t, e[i], end_at + 4 * step as u64)?;
        u = quiet_step(walk, u, f[i], end_at + 5 * step as u64)?;
    }
    Some(SixStates {
        a: p,
        b: q,
        c: r,
        d: s,
        e: t,
        f: u,
    })
}

// The state to which a byte leads, where nothing is found there.
#[inline(always)]
fn quiet_step(walk: &Walk<'_>, state: usize, byte: u8, end_at: u64) -> Option<usize>
    requires { state < length walk.now.stops.now }
    ensures inside { IfSome result (λ t. t < length walk.now.stops.now) }
    ensures quiet { IfSome result (λ t. (fed place : ℕ) (w : List ℕ) → end_at ≡ fed + (place + 1)
        → reach_find walk.now.patterns.now walk.now.cells.now fed state place (byte ∷ w)
        ≡ reach_find walk.now.patterns.now walk.now.cells.now fed t (place + 1) w) }
{
    let next = walk.cells[256 * state + byte as usize] as usize;
    match find(walk, next, end_at) {
        Some(_) => None,
        None => Some(next),
    }
}
