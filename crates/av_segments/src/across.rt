// The verdicts of two stretches, joined under one set.
ghost use Rattle.std.specs.Prelude.{◌≡◌, ◌+◌, ◌-◌, ◌<◌, ◌≤◌, ◌++◌, ◌^◌, ℕ, List, false, length, take};
ghost use Rattle.av_base.specs.declared.verdict.Verdict.TheVariants.{Clean};
ghost use Rattle.av_match.specs.Match.{verdict};
ghost use Rattle.av_match.specs.Scanning.{are_bound};
ghost use Rattle.av_sigset.specs.Set.{patterns_of};
ghost use Rattle.av_segments.specs.Joining.{edge, last, least_of, moved_on};
ghost use Rattle.av_segments.specs.Seams.{Fits, IsSeam};

use crate::edge::{EDGE, Edge, SEAM, first, put};
use arrayvec::ArrayVec;
use av_base::Verdict;
use av_files::Scanner;

// The bytes at a cut, with the place at which they begin and that of the cut.
#[derive(Drop)]
pub(crate) struct Seam {
    pub(crate) bytes: ArrayVec<u8, SEAM>,
    pub(crate) start: u64,
    pub(crate) cut: u64,
}

// The bytes at a cut behind so many bytes, of a stretch with this tail and of the bytes that follow.
pub(crate) fn seam_at(cut: u64, tail: &Edge, next: &[u8]) -> Seam
    ensures bytes { result.bytes.items ≡ tail.now ++ take edge next.now }
    ensures start { result.start ≡ cut - length tail.now }
    ensures cut { result.cut ≡ cut }
{
    let mut bytes = ArrayVec::new();
    let before = tail.as_slice();
    put(&mut bytes, before);
    put(&mut bytes, first(next, EDGE));
    Seam {
        bytes,
        start: cut.saturating_sub(before.len() as u64),
        cut,
    }
}

// The verdict of a stretch and of a piece that follows, in one. If the first has a match, the piece is not looked at.
pub(crate) fn fed(scanner: &Scanner, before: Verdict, seam: &Seam, piece: &[u8]) -> Verdict
    ensures { (c : List ℕ) → are_bound (patterns_of scanner.now.signatures) ≡ false → IsSeam c piece.now seam.now
        → before ≡ verdict (patterns_of scanner.now.signatures) c → result ≡ verdict (patterns_of scanner.now.signatures) (c ++ piece.now) }
{
    match before {
        Verdict::Clean => across(scanner, seam, scanner.judge(piece)),
        Verdict::Infected { .. } => before,
    }
}

// The verdict of two stretches in one, from the verdict of each. If the first has a match, it is that.
pub(crate) fn joined(scanner: &Scanner, before: Verdict, seam: &Seam, after: Verdict) -> Verdict
    ensures { (c d : List ℕ) → are_bound (patterns_of scanner.now.signatures) ≡ false → IsSeam c d seam.now
        → before ≡ verdict (patterns_of scanner.now.signatures) c → after ≡ verdict (patterns_of scanner.now.signatures) d
        → result ≡ verdict (patterns_of scanner.now.signatures) (c ++ d) }
{
    match before {
        Verdict::Clean => across(scanner, seam, after),
        Verdict::Infected { .. } => before,
    }
}

// The verdict of two stretches in one, of which the first is clean.
fn across(scanner: &Scanner, seam: &Seam, after: Verdict) -> Verdict
    ensures { (c d : List ℕ) → are_bound (patterns_of scanner.now.signatures) ≡ false → IsSeam c d seam.now
        → Clean ≡ verdict (patterns_of scanner.now.signatures) c → after ≡ verdict (patterns_of scanner.now.signatures) d
        → result ≡ verdict (patterns_of scanner.now.signatures) (c ++ d) }
{
    // Read for the prover: the patterns of a set have their lengths.
    let _version = scanner.set().version();
    let at_cut = scanner.judge(seam.bytes.as_slice());
    least_of(moved_on(seam.start, at_cut), moved_on(seam.cut, after))
}

// The verdict of bytes that so many others come before.
fn moved_on(by: u64, verdict: Verdict) -> Verdict
    ensures { Fits by verdict → result ≡ moved_on by verdict }
{
    match verdict {
        Verdict::Clean => Verdict::Clean,
        Verdict::Infected { index, end_at } => Verdict::Infected {
            index,
            end_at: by.saturating_add(end_at),
        },
    }
}

// Of two verdicts the one whose match ends first, and of those the one with the lesser index.
fn least_of(one: Verdict, other: Verdict) -> Verdict
    ensures { result ≡ least_of one other }
{
    let Verdict::Infected { index, end_at } = one else {
        return other;
    };
    match other {
        Verdict::Clean => one,
        Verdict::Infected {
            index: other_index,
            end_at: other_end,
        } => {
            if end_at < other_end || (end_at == other_end && index <= other_index) {
                one
            } else {
                other
            }
        }
    }
}
