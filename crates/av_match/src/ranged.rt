//! Scans of patterns that are bound to spans: a state at which a pattern ends is passed where no pattern that ends there
//! begins in its span.
ghost use Rattle.std.specs.Prelude.{◌≡◌, ◌+◌, ◌*◌, ◌^◌, ◌<◌, ◌≤◌, ◌&&◌, ℕ, length, nat_lt, slice_index, IfOk, IfSome, Option};
ghost use Rattle.av_match.specs.Part.{AllPatterns, IsPart, ArePatterns};
ghost use Rattle.av_match.specs.Ranged.{AreStops, IsHorizon, IsRanged, IsRangedOf, IsStop, reach_find};
ghost use Rattle.av_match.specs.Reach.{place_of, reach};
ghost use Rattle.av_match.specs.Scanning.{are_bound, is_bound, state_words};
ghost use Rattle.av_match.specs.Search.{bytes_of, find_at, occurs_at};
ghost use Rattle.av_match.specs.States.{AreFails, AreOwn};
ghost use Rattle.av_match.specs.Tables.{AreTables, AreTablesOf};
ghost use Rattle.av_match.specs.Words.{word_at, AllBytes};
ghost use Rattle.av_match.specs.declared.cells.Reached.TheVariants.{Through};

use crate::cells::Reached;
use crate::credit::Patience;
use crate::endings::{Endings, endings_of};
use crate::outputs::stops_of;
use crate::pieces::{PIECE, piece_state};
use crate::quiet::quiet_piece;
use crate::reach::Position;
use crate::tables::Tables;
use av_sigset::signature::MAX_PLACE;
use av_sigset::{Pattern, Span};
use std::alloc::{AllocError, Global};

/// What is kept of a set with a bound pattern beside its tables: where each state goes by each byte, also those that
/// give something out; for each state the longest pattern that ends its word, counted from 1, and 0 where none does;
/// and for each such pattern those that end it.
#[derive(Drop)]
pub struct Ranged {
    pub cells: Vec<u16>,
    pub stops: Vec<u16>,
    pub endings: Vec<Endings>,
}

// Whether a span lacks some place.
fn is_bound(span: Span) -> bool
    ensures { result ≡ is_bound span }
{
    0 < span.low || span.high < MAX_PLACE
}

// Whether some pattern is bound.
fn are_bound(patterns: &[Pattern]) -> bool
    ensures { result ≡ are_bound patterns.now }
{
    for pattern in patterns {
        if is_bound(pattern.span) {
            return true;
        }
    }
    false
}

/// The last place at which a match of these patterns can end, or none where one can end at any.
pub fn horizon_of(patterns: &[Pattern]) -> Option<u64>
    requires { AllPatterns (bytes_of patterns.now) }
    ensures { IsHorizon patterns.now result }
{
    let mut horizon = 0u64;
    for pattern in patterns {
        if MAX_PLACE <= pattern.span.high {
            return None;
        }
        let last = pattern.span.high + pattern.bytes.len() as u64;
        if horizon < last {
            horizon = last;
        }
    }
    Some(horizon)
}

/// What is kept of these patterns. The cells are the rows before those of states that give something out led to themselves;
/// own and fails are each state's own number and its fail. Nothing where no pattern is bound.
pub fn ranged_of(
    alloc: Global,
    patterns: &[Pattern],
    cells: &[u16],
    own: &[u16],
    fails: &[u16],
) -> Result<Option<Ranged>, AllocError>
    requires patterns { ArePatterns (bytes_of patterns.now) }
    requires part { IsPart (state_words patterns.now) cells.now (length (state_words patterns.now)) }
    requires own { AreOwn (bytes_of patterns.now) (state_words patterns.now) own.now }
    requires fails { AreFails (state_words patterns.now) (length (state_words patterns.now)) fails.now }
    ensures { IfOk result (λ r. IsRangedOf patterns.now r) }
{
    if !are_bound(patterns) {
        return Ok(None);
    }
    let stops = stops_of(alloc, own, fails)?;
    let endings = endings_of(alloc, patterns, stops.as_slice())?;
    Ok(Some(Ranged {
        cells: cells.to_vec(alloc)?,
        stops,
        endings,
    }))
}

/// What a walk goes by: the patterns, and what is kept of them.
#[derive(Clone, Copy)]
pub struct Walk<'a> {
    pub patterns: &'a [Pattern],
    pub cells: &'a [u16],
    pub stops: &'a [u16],
    pub endings: &'a [Endings],
    pub ghost ranged: { IsRanged patterns.now cells.now stops.now endings.now },
    pub ghost few: { length patterns.now ≤ 1024 },
    pub ghost narrow: { length stops.now ≤ 16385 },
}

// The first pattern that ends a state's word and begins in its span, where the word ends at this place of a content.
#[inline(always)]
pub(crate) fn find(walk: &Walk<'_>, state: usize, end_at: u64) -> Option<u32>
    requires { state < length walk.now.stops.now }
    ensures { let v = word_at (state_words walk.now.patterns.now) state in result ≡ find_at 0 walk.now.patterns.now v (length v) end_at }
{
    let stop = walk.stops[state] as usize;
    if stop == 0 {
        return None;
    }
    walk.endings[stop - 1].first(end_at)
}

// Where some bytes of a chunk lead from a position by single steps, where so many bytes have come before the chunk.
pub(crate) fn walk_on(walk: &Walk<'_>, from: Position, fed: u64, part: &[u8]) -> Reached
    requires inside { from.state < length walk.now.stops.now }
    requires room { fed + from.place + length part.now < 2 ^ 64 }
    ensures reach { result ≡ reach_find walk.now.patterns.now walk.now.cells.now fed from.state from.place part.now }
    ensures place { place_of result ≤ from.place + length part.now }
    ensures inside { (t : ℕ) → result ≡ Through t → t < length walk.now.stops.now }
    ensures bytes { AllBytes part.now }
{
    let mut state = from.state as usize;
    for index in 0..part.len() {
        let place = from.place + index + 1;
        state = walk.cells[256 * state + part[index] as usize] as usize;
        if let Some(index) = find(walk, state, fed + place as u64) {
            return Reached::Hit { place, index };
        }
    }
    Reached::Through {
        state: state as u16,
    }
}

/// Where the bytes of a chunk lead from a state, where so many bytes have come before it: piece by piece as long as
/// nothing is found, and by single steps through a piece in which something is.
pub fn reach_ranged(
    tables: &Tables<'_>,
    walk: &Walk<'_>,
    from: u16,
    fed: u64,
    chunk: &[u8],
) -> Reached
    requires set { AreTablesOf (bytes_of walk.now.patterns.now) tables.now }
    requires inside { from < length walk.now.stops.now }
    requires room { fed + length chunk.now < 2 ^ 64 }
    ensures reach { result ≡ reach_find walk.now.patterns.now walk.now.cells.now fed from 0 chunk.now }
    ensures place { place_of result ≤ length chunk.now }
    ensures bytes { AllBytes chunk.now }
{
    let mut trials = Trials {
        windows: Patience::new(),
        silence: Patience::new(),
    };
    let mut state = from;
    let mut start = 0usize;
    'pieces: while start < chunk.len() {
        let end = start + PIECE.min(chunk.len() - start);
        let piece = &chunk[start..end];
        let from = Position {
            state,
            place: start,
        };
        match passed_state(tables, walk, &mut trials, from, fed, piece) {
            Some(next) => state = next,
            None => match walk_on(walk, from, fed, piece) {
                Reached::Through { state: next } => state = next,
                Reached::Hit { place, index } => return Reached::Hit { place, index },
            },
        }
        start = end;
    }
    Reached::Through { state }
}

// Which ways to read a piece are worth a trial: by windows, and as one in which no pattern ends.
#[derive(Drop)]
struct Trials {
    windows: Patience,
    silence: Patience,
}

// The state to which a piece leads, where nothing is found in it: by windows or six parts where no pattern ends there, and
// else by six parts that ask each state at which one does. A piece that fails the first way is read twice, so pieces
// behind it go by without that trial.
fn passed_state(
    tables: &Tables<'_>,
    walk: &Walk<'_>,
    trials: &mut Trials,
    from: Position,
    fed: u64,
    piece: &[u8],
) -> Option<u16>
    requires set { AreTablesOf (bytes_of walk.now.patterns.now) tables.now }
    requires inside { from.state < length walk.now.stops.now }
    requires room { fed + from.place + length piece.now < 2 ^ 64 }
    requires small { length piece.now ≤ 2 ^ 32 }
    ensures passed { IfSome result (λ t. reach_find walk.now.patterns.now walk.now.cells.now fed from.state from.place piece.now ≡ Through t) }
    ensures inside { IfSome result (λ t. t < length walk.now.stops.now) }
{
    if trials.silence.is_tried() {
        if let Some(next) = quick_state(tables, &mut trials.windows, from.state, piece) {
            trials.silence.won();
            return Some(next);
        }
        trials.silence.lost();
    }
    quiet_piece(walk, from, fed, piece)
}

// The state to which a piece leads from one that gives nothing out, where nothing is given out on the way.
fn quick_state(
    tables: &Tables<'_>,
    patience: &mut Patience,
    state: u16,
    piece: &[u8],
) -> Option<u16>
    requires set { AreTables tables.now }
    requires inside { state < length tables.now.outputs.now }
    requires small { length piece.now ≤ 2 ^ 32 }
    ensures { IfSome result (λ t. (slice_index tables.now.outputs.now state ≡ 0)
        × (reach tables.now.cells.now tables.now.outputs.now state 0 piece.now ≡ Through t)) }
{
    if tables.outputs[state as usize] == 0 {
        piece_state(tables, patience, state, piece)
    } else {
        None
    }
}
