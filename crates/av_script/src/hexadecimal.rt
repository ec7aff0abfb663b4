ghost use Rattle.std.specs.Prelude.{◌≡◌, IfOk, map};
ghost use Rattle.std.specs.Option.{option_copied};
ghost use Rattle.std.specs.List.{list_all};
ghost use Rattle.av_base.specs.Line.{pieces_of, rest_of};
ghost use Rattle.av_script.specs.Script.Grammar.{is_hex, is_pattern, bytes_in, is_content, content_in, pattern_in, span_behind, span_round};

use av_base::ByteList;
use av_base::decimal::decimal;
use av_base::line::first_piece;
use av_history::pattern::Patterns;
use av_sigset::{Pattern, Span, hexadecimal};
use hex::FromHexError;
use std::alloc::{AllocError, Global};

/// Whether a word is pairs of hexadecimal digits, one pair or more.
pub fn is_hex(word: &[u8]) -> bool
    ensures { result ≡ is_hex word.now }
{
    if word.is_empty() {
        return false;
    }
    hexadecimal::is_hex(word)
}

/// Whether each word that is left spells a pattern.
pub fn are_patterns(words: Option<&[u8]>) -> bool
    ensures { result ≡ list_all is_pattern (rest_of 32 (option_copied words.entry)) }
{
    let mut left = words;
    'words: while let Some(text) = left {
        let (word, rest) = first_piece(text, b' ');
        if !is_pattern(word) {
            return false;
        }
        left = rest;
    }
    true
}

// Whether a word spells a pattern: pairs of digits, and behind an `@` two numbers or nothing.
fn is_pattern(word: &[u8]) -> bool
    ensures { result ≡ is_pattern word.now }
{
    let (digits, behind) = first_piece(word, b'@');
    is_hex(digits) && span_behind(behind).is_some()
}

// The span that stands behind the digits of a pattern, in order or not; where there is nothing the widest.
#[tactic(auto, using(crate::proofs::PatternLemmas::two_ats, crate::proofs::PatternLemmas::two_hyphens))]
fn span_behind(behind: Option<&[u8]>) -> Option<Span>
    ensures { result ≡ span_behind (rest_of 64 (option_copied behind.entry)) }
{
    let Some(text) = behind else {
        return Some(Span::WIDEST);
    };
    let (range, more) = first_piece(text, b'@');
    if more.is_some() {
        return None;
    }
    span_round(range)
}

// The two numbers round a hyphen.
#[tactic(auto, using(crate::proofs::PatternLemmas::two_hyphens))]
fn span_round(range: &[u8]) -> Option<Span>
    ensures { result ≡ span_round (pieces_of 45 range.now) }
{
    let (low, behind) = first_piece(range, b'-');
    let (high, more) = first_piece(behind?, b'-');
    if more.is_some() {
        return None;
    }
    Some(Span {
        low: decimal(low)?,
        high: decimal(high)?,
    })
}

/// Whether a word spells a content: a hyphen for no bytes, or pairs of digits.
pub fn is_content(word: &[u8]) -> bool
    ensures { result ≡ is_content word.now }
{
    word == b"-".as_slice() || is_hex(word)
}

/// The bytes that a word spells, none where it spells no content.
pub fn content(alloc: Global, word: &[u8]) -> Result<ByteList, AllocError>
    ensures { IfOk result (λ bytes. bytes ≡ content_in word.now) }
{
    if word == b"-".as_slice() {
        return Ok(ByteList::from_vec(Vec::new(alloc)));
    }
    bytes_of(alloc, word)
}

// The bytes that pairs of digits spell, none where the word is something else.
fn bytes_of(alloc: Global, word: &[u8]) -> Result<ByteList, AllocError>
    ensures { IfOk result (λ bytes. bytes ≡ bytes_in word.now) }
{
    match hex::decode(alloc, word) {
        Ok(bytes) => Ok(ByteList::from_vec(bytes)),
        Err(FromHexError::OutOfMemory) => Err(AllocError),
        Err(_) => Ok(ByteList::from_vec(Vec::new(alloc))),
    }
}

/// The patterns that the words that are left spell.
pub fn patterns(alloc: Global, words: Option<&[u8]>) -> Result<Patterns, AllocError>
    ensures { IfOk result (λ patterns. patterns ≡ map pattern_in (rest_of 32 (option_copied words.entry))) }
{
    let mut patterns = Vec::new(alloc);
    let mut left = words;
    'words: while let Some(text) = left {
        let (word, rest) = first_piece(text, b' ');
        patterns.push(pattern(alloc, word)?)?;
        left = rest;
    }
    Ok(Patterns::from_vec(patterns))
}

// The pattern that a word spells.
fn pattern(alloc: Global, word: &[u8]) -> Result<Pattern, AllocError>
    ensures { IfOk result (λ pattern. pattern ≡ pattern_in word.now) }
{
    let (digits, behind) = first_piece(word, b'@');
    let bytes = bytes_of(alloc, digits)?;
    let span = match span_behind(behind) {
        Some(span) => span,
        None => Span::WIDEST,
    };
    Ok(Pattern { bytes, span })
}
