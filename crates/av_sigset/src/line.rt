//! One line of a signature file.
ghost use Rattle.std.specs.Prelude.{◌≡◌, ◌*◌, ℕ, true, List, IfOk, IfErr, IfSome, MatchOption, Option, Some, Ok, Err, ◌&&◌, ◌==◌};
ghost use Rattle.std.specs.List.{list_all};
ghost use Rattle.std.specs.Option.{option_copied};
ghost use Rattle.av_base.specs.Line.{pieces_of, rest_of};
ghost use Rattle.hex.specs.Hex.{decode_of};
ghost use Rattle.av_sigset.specs.Judge.{is_name_byte, is_name, signature_of, signature_under, span_between, span_in, version_of};
ghost use Rattle.av_sigset.specs.Line.{AreWordsOf, SpellsPattern};
ghost use Rattle.av_sigset.specs.Set.{IsSpan};
ghost use Rattle.av_sigset.specs.declared.signature.Span.{Span};

use crate::fault::SetFaultKind;
use crate::format::Format;
use crate::hexadecimal::is_hex;
use crate::signature::{MAX_PATTERN, MAX_PLACE, Span};
use av_base::decimal::decimal;
use av_base::line::first_piece;

/// The byte between the words of a line.
pub const SPACE: u8 = b' ';

/// What a signature's line says: a name, the digits of the bytes, and a span.
#[derive(Clone, Copy)]
pub struct Words<'a> {
    pub name: &'a [u8],
    pub digits: &'a [u8],
    pub span: Span,
}

/// The words of a line of this format, where they are those of a signature.
#[tactic(auto, using(crate::proofs::LineLemmas::words_behind))]
pub fn words_of(format: Format, line: &[u8]) -> Result<Words<'_>, SetFaultKind>
    ensures words { IfOk result (λ w. AreWordsOf w.name.now w.digits.now w.span (signature_of format (pieces_of 32 line.now))) }
    ensures fault { IfErr result (λ kind. signature_of format (pieces_of 32 line.now) ≡ Err kind) }
{
    let (name, rest) = first_piece(line, SPACE);
    if !is_name(name) {
        return Err(SetFaultKind::Name);
    }
    let Some(rest) = rest else {
        return Err(SetFaultKind::Name);
    };
    let (digits, behind) = first_piece(rest, SPACE);
    match (format, behind) {
        (Format::One, Some(_)) => Err(SetFaultKind::Hex),
        (Format::One, None) => bound_words(name, digits, None),
        (Format::Two, behind) => bound_words(name, digits, behind),
    }
}

// A name and the digits of a pattern with the span that the words behind them name.
#[tactic(auto, using(crate::proofs::DigitsLemmas::made))]
fn bound_words<'a>(
    name: &'a [u8],
    digits: &'a [u8],
    behind: Option<&[u8]>,
) -> Result<Words<'a>, SetFaultKind>
    ensures words { IfOk result (λ w. AreWordsOf w.name.now w.digits.now w.span
        (signature_under name.now (decode_of digits.now) (span_in (rest_of 32 (option_copied behind.entry))))) }
    ensures fault { IfErr result (λ kind.
        signature_under name.now (decode_of digits.now) (span_in (rest_of 32 (option_copied behind.entry))) ≡ Err kind) }
{
    if let Some(kind) = fault_of(digits) {
        return Err(kind);
    }
    match span_of(behind) {
        Some(span) => Ok(Words { name, digits, span }),
        None => Err(SetFaultKind::Range),
    }
}

// The span that the words behind the digits name, the widest where there are none.
#[tactic(auto, using(crate::proofs::LineLemmas::three_numbers))]
fn span_of(behind: Option<&[u8]>) -> Option<Span>
    ensures span { result ≡ span_in (rest_of 32 (option_copied behind.entry)) }
    ensures bound { IfSome result (λ s. IsSpan s) }
{
    let Some(behind) = behind else {
        return Some(Span::WIDEST);
    };
    let (low, behind) = first_piece(behind, SPACE);
    let Some(behind) = behind else {
        return None;
    };
    let (high, behind) = first_piece(behind, SPACE);
    if behind.is_some() {
        return None;
    }
    span_between(decimal(low)?, decimal(high)?)
}

// From one place to another, where they are in order and a content has them.
fn span_between(low: u64, high: u64) -> Option<Span>
    ensures span { result ≡ span_between (Some low) (Some high) }
    ensures bound { IfSome result (λ s. IsSpan s) }
{
    if low <= high && high <= MAX_PLACE {
        Some(Span { low, high })
    } else {
        None
    }
}

// Why digits spell no pattern.
fn fault_of(digits: &[u8]) -> Option<SetFaultKind>
    ensures { MatchOption result (SpellsPattern digits.now) (λ kind. (name : List ℕ) (span : Option Span)
        → signature_under name (decode_of digits.now) span ≡ Err kind) }
{
    if !is_hex(digits) {
        return Some(SetFaultKind::Hex);
    }
    if digits.is_empty() || digits.len() > 2 * MAX_PATTERN {
        return Some(SetFaultKind::Length);
    }
    None
}

/// The version that line 2 names.
#[tactic(auto, using(crate::proofs::LineLemmas::three_parts))]
pub fn version_of(line: &[u8]) -> Option<u64>
    ensures { result ≡ version_of (pieces_of 32 line.now) }
{
    let (word, rest) = first_piece(line, SPACE);
    let Some(rest) = rest else {
        return None;
    };
    let (digits, rest) = first_piece(rest, SPACE);
    if rest.is_some() {
        return None;
    }
    if word != b"version".as_slice() {
        return None;
    }
    let Some(version) = decimal(digits) else {
        return None;
    };
    if version == 0 {
        return None;
    }
    Some(version)
}

/// The most bytes of a signature's name.
pub const MAX_NAME: usize = 32;

// Whether a word is 1 to 32 letters, digits, `.`, `_` or `-`.
fn is_name(word: &[u8]) -> bool
    ensures { result ≡ is_name word.now }
{
    !word.is_empty() && word.len() <= MAX_NAME && are_name_bytes(word)
}

fn are_name_bytes(word: &[u8]) -> bool
    ensures { result ≡ list_all is_name_byte word.now }
{
    for byte in word {
        if !is_name_byte(*byte) {
            return false;
        }
    }
    true
}

/// Whether a name may have this byte: a letter, a digit, `.`, `_` or `-`.
pub fn is_name_byte(byte: u8) -> bool
    ensures { result ≡ is_name_byte byte }
{
    byte.is_ascii_lowercase()
        || byte.is_ascii_uppercase()
        || byte.is_ascii_digit()
        || byte == b'.'
        || byte == b'_'
        || byte == b'-'
}
