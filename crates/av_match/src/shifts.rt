//! What is kept of a set for its windows: how long each word is, how far each pair of bytes lets a window be moved, and
//! which bytes to look for.
ghost use Rattle.std.specs.Prelude.{◌≡◌, ◌+◌, ◌-◌, ◌<◌, ◌≤◌, ℕ, length, map, slice_index, IfOk};
ghost use Rattle.av_match.specs.Part.{AtMost};
ghost use Rattle.av_match.specs.Shifts.{AreShifts, HasShorter, IsSkimmer, ReachWord};
ghost use Rattle.av_match.specs.Words.{word_at, words_of};

use crate::rare::RareBytes;
use crate::searches::rare_bytes;
use av_base::ByteList;
use std::alloc::{AllocError, Global};

/// Shorter windows cost more than they spare, so a pattern that is shorter is looked for by itself.
const LEAST_WINDOW: usize = 6;

/// With more short patterns to look for than these the six parts are quicker.
const MOST_SHORT: usize = 4;

/// What is kept of a set for its windows. The window has no bytes where too many patterns are too short for one.
#[derive(Drop)]
pub struct Skimmer {
    pub depths: Vec<u8>,
    pub window: usize,
    pub shifts: Vec<u8>,
    pub shorts: Vec<ByteList>,
    pub rare: Option<RareBytes>,
}

/// What is kept of these patterns, whose beginnings are the words.
pub fn skimmer_of(
    alloc: Global,
    patterns: &[ByteList],
    words: &[ByteList],
) -> Result<Skimmer, AllocError>
    requires words { words.now ≡ words_of patterns.now }
    requires most { AtMost words.now 64 }
    ensures { IfOk result (λ s. IsSkimmer patterns.now s.depths.items s.window s.shifts.items s.shorts.items s.rare) }
{
    let depths = depths_of(alloc, words)?;
    let shorts = shorter(alloc, patterns, LEAST_WINDOW)?;
    if shorts.len() > MOST_SHORT {
        return Ok(Skimmer {
            depths,
            window: 0,
            shifts: Vec::new(alloc),
            shorts: Vec::new(alloc),
            rare: None,
        });
    }
    let window = window_of(patterns, LEAST_WINDOW);
    let rare = if shorts.is_empty() {
        rare_bytes(patterns)
    } else {
        None
    };
    let shifts = shifts_of(alloc, words, window)?;
    Ok(Skimmer {
        depths,
        window,
        shifts,
        shorts,
        rare,
    })
}

// The patterns of fewer bytes.
fn shorter(alloc: Global, patterns: &[ByteList], least: usize) -> Result<Vec<ByteList>, AllocError>
    ensures { IfOk result (λ s. HasShorter patterns.now least s.items) }
{
    let mut shorts = Vec::new(alloc);
    for pattern in patterns {
        if pattern.as_slice().len() < least {
            shorts.push(pattern.clone()?)?;
        }
    }
    Ok(shorts)
}

// The length of each word.
fn depths_of(alloc: Global, words: &[ByteList]) -> Result<Vec<u8>, AllocError>
    requires most { AtMost words.now 64 }
    ensures { IfOk result (λ d. d.items ≡ map length words.now) }
{
    let mut depths = Vec::with_capacity(alloc, words.len())?;
    for word in words {
        depths.push(word.as_slice().len() as u8)?;
    }
    Ok(depths)
}

// The length of the shortest pattern that has at least so many bytes, but no more than 64.
fn window_of(patterns: &[ByteList], least: usize) -> usize
    requires { least ≤ 64 }
    ensures least { (j : ℕ) → j < length patterns.now → least ≤ length (word_at patterns.now j)
        → result ≤ length (word_at patterns.now j) }
    ensures wide { least ≤ result }
    ensures few { result ≤ 64 }
{
    let mut window = 64usize;
    for pattern in patterns {
        let count = pattern.as_slice().len();
        if least <= count {
            window = window.min(count);
        }
    }
    window
}

// How far each pair of bytes lets a window be moved.
fn shifts_of(alloc: Global, words: &[ByteList], window: usize) -> Result<Vec<u8>, AllocError>
    requires window { 2 ≤ window }
    requires few { window ≤ 64 }
    ensures { IfOk result (λ s. AreShifts words.now window s.items) }
{
    let mut shifts = filled(alloc, 65536, window as u8 - 1)?;
    for word in words {
        lower(&mut shifts, word.as_slice(), window);
    }
    Ok(shifts)
}

// The pair that ends a word of at most so many bytes lets the window move no further than to that word.
fn lower(shifts: &mut Vec<u8>, word: &[u8], window: usize)
    requires size { length shifts.old.items ≡ 65536 }
    requires window { window ≤ 64 }
    ensures size { length shifts.new.items ≡ 65536 }
    ensures below { (k : ℕ) → k < 65536 → slice_index shifts.new.items k ≤ slice_index shifts.old.items k }
    ensures here { ReachWord word.now window shifts.new.items }
{
    let count = word.len();
    if count < 2 || count > window {
        return;
    }
    let pair = word[count - 2] as usize + 256 * word[count - 1] as usize;
    let far = (window - count) as u8;
    if far < shifts[pair] {
        shifts[pair] = far;
    }
}

// So many bytes, each this one.
fn filled(alloc: Global, count: usize, byte: u8) -> Result<Vec<u8>, AllocError>
    ensures length { IfOk result (λ s. length s.items ≡ count) }
    ensures each { IfOk result (λ s. (k : ℕ) → k < count → slice_index s.items k ≡ byte) }
{
    vec![in alloc; byte; count]
}
