//! Searches by vectors for the rarest bytes of a set's one pattern.
ghost use Rattle.std.specs.Prelude.{◌<◌, ◌≤◌, ℕ, Some, length, IfSome};
ghost use Rattle.av_match.specs.Passed.{IsMissed};
ghost use Rattle.av_match.specs.Shifts.{HaveRare};

use crate::rare::RareBytes;
use crate::windows::after;
use av_base::ByteList;
use memchr::arch::all::packedpair::Finder;
use memchr::memchr;

/// The rarest bytes of a set's one pattern, by how often each byte comes in usual contents.
pub fn rare_bytes(patterns: &[ByteList]) -> Option<RareBytes>
    ensures { IfSome result (HaveRare patterns.now) }
{
    if patterns.len() != 1 {
        return None;
    }
    let pattern = patterns[0].as_slice();
    let finder = Finder::new(pattern)?;
    let offset = finder.pair().index1() as usize;
    Some(RareBytes {
        finder,
        byte: pattern[offset],
        offset,
        reach: offset.max(finder.pair().index2() as usize),
    })
}

/// The first place, from one on, at which the pattern can begin by its rarest byte, or else the first from which too few
/// bytes are left to tell.
pub fn next_by_byte(rare: &RareBytes, piece: &[u8], from: usize) -> usize
    requires from { from ≤ length piece.now }
    ensures missed { (i : ℕ) → from ≤ i → i < result → IsMissed (Some rare.now) piece.now i }
    ensures within { result ≤ length piece.now }
    ensures on { from ≤ result }
{
    if piece.len() - from <= rare.reach {
        return from;
    }
    let end = piece.len() - rare.reach;
    match memchr(rare.byte, after(piece, from + rare.offset)) {
        Some(count) => end.min(from + count),
        None => end,
    }
}

/// The same by its two rarest bytes.
pub fn next_by_pair(rare: &RareBytes, piece: &[u8], from: usize) -> usize
    requires from { from ≤ length piece.now }
    ensures missed { (i : ℕ) → from ≤ i → i < result → IsMissed (Some rare.now) piece.now i }
    ensures within { result ≤ length piece.now }
    ensures on { from ≤ result }
{
    if piece.len() - from <= rare.reach {
        return from;
    }
    match rare.finder.find_prefilter(after(piece, from)) {
        Some(count) => from + count,
        None => piece.len() - rare.reach,
    }
}
