//! Six parts of a piece side by side, each with a window of its own.
ghost use Rattle.std.specs.Prelude.{◌+◌, ◌*◌, ◌^◌, ◌<◌, ◌≤◌, length, IfOk};
ghost use Rattle.av_match.specs.Places.{AreAllOver, AreAllPassed, HaveOwnRoom, HaveRoom, starts_of};

use crate::credit::{Credit, ROUND, SIX_STEPS, Stop};
use crate::tables::Tables;
use crate::walks::step_on;
use crate::windows::{after, pair_shift};

/// The places to which six parts have come.
#[derive(Clone, Copy)]
pub struct Places {
    pub a: usize,
    pub b: usize,
    pub c: usize,
    pub d: usize,
    pub e: usize,
    pub f: usize,
}

// The places after some steps, and how much of their room is left.
#[derive(Clone, Copy)]
struct Rounded {
    places: Places,
    left: usize,
}

// Each window is moved, until one can't be moved or has no room left. Its loop needs all registers for itself.
#[inline(never)]
fn round(tables: &Tables<'_>, piece: &[u8], from: Places, room: usize) -> Rounded
    requires wide { 2 ≤ tables.now.window }
    requires room { HaveRoom (length piece.now) (room + tables.now.window) from }
    ensures over { AreAllOver tables.now piece.now from result.places }
    ensures room { HaveRoom (length piece.now) tables.now.window result.places }
{
    let shifts = tables.shifts;
    let pairs = after(piece, tables.window - 2);
    let most = tables.window - 1;
    let mut a = from.a;
    let mut b = from.b;
    let mut c = from.c;
    let mut d = from.d;
    let mut e = from.e;
    let mut f = from.f;
    let mut left = room;
    'moves: while left >= most {
        let p = pair_shift(shifts, pairs, a);
        let q = pair_shift(shifts, pairs, b);
        let r = pair_shift(shifts, pairs, c);
        let s = pair_shift(shifts, pairs, d);
        let t = pair_shift(shifts, pairs, e);
        let u = pair_shift(shifts, pairs, f);
        a += p;
        b += q;
        c += r;
        d += s;
        e += t;
        f += u;
        left -= most;
        if p == 0 || q == 0 || r == 0 || s == 0 || t == 0 || u == 0 {
            break;
        }
    }
    Rounded {
        places: Places { a, b, c, d, e, f },
        left,
    }
}

// One step of each window.
fn all_on(
    tables: &Tables<'_>,
    piece: &[u8],
    at: Places,
    credit: &mut Credit,
) -> Result<Places, Stop>
    requires wide { 2 ≤ tables.now.window }
    requires room { HaveRoom (length piece.now) tables.now.window at }
    ensures passed { IfOk result (λ next. AreAllPassed tables.now piece.now at next) }
    ensures within { IfOk result (λ next. HaveRoom (length piece.now) 0 next) }
{
    Ok(Places {
        a: step_on(tables, piece, at.a, credit)?,
        b: step_on(tables, piece, at.b, credit)?,
        c: step_on(tables, piece, at.c, credit)?,
        d: step_on(tables, piece, at.d, credit)?,
        e: step_on(tables, piece, at.e, credit)?,
        f: step_on(tables, piece, at.f, credit)?,
    })
}

// How many bytes each part has left before the next begins, where each is a step long.
fn room_of(at: Places, step: usize) -> usize
    requires small { 6 * step < 2 ^ 63 }
    ensures { 0 < result → HaveOwnRoom step result at }
{
    let first = step
        .saturating_sub(at.a)
        .min((2 * step).saturating_sub(at.b));
    let middle = (3 * step)
        .saturating_sub(at.c)
        .min((4 * step).saturating_sub(at.d));
    let last = (5 * step)
        .saturating_sub(at.e)
        .min((6 * step).saturating_sub(at.f));
    first.min(middle).min(last)
}

// How far six parts have come in all.
fn sum(places: Places) -> usize
    requires room { HaveRoom (2 ^ 32) 0 places }
    ensures { result < 2 ^ 48 }
{
    places.a + places.b + places.c + places.d + places.e + places.f
}

/// Six parts are passed over side by side, each of them a step long, until one has no room left.
pub fn rounds(
    tables: &Tables<'_>,
    piece: &[u8],
    step: usize,
    credit: &mut Credit,
) -> Result<Places, Stop>
    requires wide { 2 ≤ tables.now.window }
    requires room { 6 * step + tables.now.window ≤ length piece.now }
    requires small { length piece.now ≤ 2 ^ 32 }
    ensures passed { IfOk result (λ six. AreAllPassed tables.now piece.now (starts_of step) six) }
    ensures within { IfOk result (λ six. HaveRoom (length piece.now) 0 six) }
{
    let mut at = Places {
        a: 0,
        b: step,
        c: 2 * step,
        d: 3 * step,
        e: 4 * step,
        f: 5 * step,
    };
    let price = 256 * SIX_STEPS / (tables.window - 1);
    'rounds: for _ in 0..piece.len() {
        let room = room_of(at, step);
        if room < tables.window {
            break;
        }
        let far = round(tables, piece, at, room);
        let steps = room.saturating_sub(far.left).saturating_mul(price) / 256;
        credit.earn(sum(far.places).saturating_sub(sum(at)));
        credit.pay(steps.saturating_add(ROUND))?;
        at = all_on(tables, piece, far.places, credit)?;
    }
    Ok(at)
}
