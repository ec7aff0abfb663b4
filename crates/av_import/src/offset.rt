//! The places at which a match may begin, as an offset tells them.
ghost use Rattle.std.specs.Prelude.{◌≡◌, IfOk, false};
ghost use Rattle.av_import.specs.Offset.{has_plus, has_section, is_counted, span_from, span_of};
ghost use Rattle.av_sigset.specs.Set.{IsSpan};

use crate::number::number;
use crate::why::Why;
use av_base::line::first_piece;
use av_sigset::Span;
use av_sigset::signature::MAX_PLACE;

/// The places of an offset: `*` is each, `n` one, and `n,m` those from n to n + m.
#[tactic(auto, using(crate::proofs::OffsetLemmas::three_numbers))]
pub fn span_of(offset: &[u8]) -> Result<Span, Why>
    ensures span { result ≡ span_of offset.now }
    ensures bound { IfOk result (λ s. IsSpan s) }
{
    if offset == b"*".as_slice() {
        return Ok(Span::WIDEST);
    }
    if is_counted(offset) {
        return Err(Why::Counted);
    }
    let (low, rest) = first_piece(offset, b',');
    let Some(rest) = rest else {
        return span_from(number(low), Some(0));
    };
    let (shift, more) = first_piece(rest, b',');
    if more.is_some() {
        return Err(Why::OffsetNumber);
    }
    span_from(number(low), number(shift))
}

// From a place to one that is so much further. In a signature file 1,048,575 as the last place is no bound, so a bound from there on
// can't be said.
fn span_from(low: Option<u64>, shift: Option<u64>) -> Result<Span, Why>
    ensures span { result ≡ span_from low shift }
    ensures bound { IfOk result (λ s. IsSpan s) }
{
    let (Some(low), Some(shift)) = (low, shift) else {
        return Err(Why::OffsetNumber);
    };
    let high = low.saturating_add(shift);
    if high >= MAX_PLACE {
        return Err(Why::Far);
    }
    Ok(Span { low, high })
}

// Whether an offset is counted from the end of a file, from an entry or from a section.
fn is_counted(offset: &[u8]) -> bool
    ensures { result ≡ is_counted offset.now }
{
    offset.starts_with(b"EOF-")
        || offset.starts_with(b"EP+")
        || offset.starts_with(b"EP-")
        || offset.starts_with(b"SL+")
        || offset.starts_with(b"VI")
        || has_section(offset)
}

// Whether it is counted from a section of a number, or bound to one.
#[tactic(auto, using(crate::proofs::OffsetLemmas::section_behind))]
fn has_section(offset: &[u8]) -> bool
    ensures { result ≡ has_section offset.now }
{
    if offset.len() < 2 || offset[0] != b'S' {
        return false;
    }
    if offset[1] == b'E' {
        return offset.len() > 2 && offset[2].is_ascii_digit();
    }
    has_plus_behind_digits(&offset[1..])
}

#[tactic(auto, unfolding(crate::specs::Offset::has_plus), using(crate::proofs::OffsetLemmas::one_more))]
fn has_plus_behind_digits(text: &[u8]) -> bool
    ensures { result ≡ has_plus false text.now }
{
    let mut has_digit = false;
    for byte in text {
        if !byte.is_ascii_digit() {
            return has_digit && *byte == b'+';
        }
        has_digit = true;
    }
    false
}
