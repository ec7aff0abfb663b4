//! Conditions that are an `or` of strings, each anywhere, at a place or in a range of places.
ghost use Rattle.std.specs.Prelude.{◌≡◌, ◌≤◌, ◌<◌, ◌⊎◌, length, IfOk, IsErr};
ghost use Rattle.av_import.specs.declared.condition.TheConstants.{MAX_WANTED};
ghost use Rattle.av_sigset.specs.Set.{IsSpan};
ghost use Rattle.av_sigset.specs.declared.signature.TheConstants.{MAX_PLACE};

use crate::lexer::Token;
use crate::strings::{RuleFault, YaraString};
use crate::why::Why;
use av_sigset::Span;
use av_sigset::signature::MAX_PLACE;
use std::alloc::Global;

/// The most strings that a condition may name, each time that it does.
pub const MAX_WANTED: usize = 65_536;

/// A string that a condition wants, by its place among the rule's, and where it may begin.
#[derive(Clone, Copy)]
pub struct Wanted {
    pub place: usize,
    pub span: Span,
}

// The words of a condition, one by one. Behind the last there are empty ones.
#[derive(Clone, Copy)]
struct Words<'a, 'b> {
    rest: &'b [Token<'a>],
}

fn first_word<'a>(words: &[Token<'a>]) -> &'a [u8] {
    match words.get(0) {
        Some(token) => token.text,
        None => b"".as_slice(),
    }
}

fn behind_first<'a, 'b>(words: &'b [Token<'a>]) -> &'b [Token<'a>] {
    match words {
        [] => words,
        [_, rest @ ..] => rest,
    }
}

impl<'a, 'b> Words<'a, 'b> {
    fn peek(&self) -> &'a [u8] {
        first_word(self.rest)
    }

    fn next(&mut self) -> &'a [u8] {
        let word = first_word(self.rest);
        self.rest = behind_first(self.rest);
        word
    }

    fn want(&mut self, word: &[u8]) -> Result<(), RuleFault> {
        if self.next() == word {
            Ok(())
        } else {
            Err(RuleFault::Why(Why::Condition))
        }
    }
}

/// The strings that a condition wants, one of which has to be there.
pub fn strings_wanted(
    alloc: Global,
    condition: &[Token<'_>],
    strings: &[YaraString<'_>],
) -> Result<Vec<Wanted>, RuleFault>
    ensures few { IfOk result (λ wanted. length wanted.items ≤ MAX_WANTED) }
{
    let mut words = Words { rest: condition };
    let mut found = Vec::new(alloc);
    let mut depth = 0usize;
    let mut wants_term = true;
    'words: for _ in 0..condition.len().saturating_add(1) {
        if wants_term {
            let word = words.next();
            if word == b"(".as_slice() {
                depth = depth.saturating_add(1);
            } else {
                push_term(alloc, word, &mut words, strings, &mut found)?;
                wants_term = false;
            }
        } else if words.rest.is_empty() && depth == 0 {
            return Ok(found);
        } else {
            let word = words.next();
            if word == b"or".as_slice() {
                wants_term = true;
            } else if word == b")".as_slice() && depth > 0 {
                depth -= 1;
            } else {
                return Err(RuleFault::Why(Why::Condition));
            }
        }
    }
    Err(RuleFault::Why(Why::Condition))
}

// Puts what a term wants: a string, or some of them.
fn push_term(
    alloc: Global,
    word: &[u8],
    words: &mut Words<'_, '_>,
    strings: &[YaraString<'_>],
    found: &mut Vec<Wanted>,
) -> Result<(), RuleFault>
    ensures { length found.old.items ≤ MAX_WANTED → length found.new.items ≤ MAX_WANTED }
{
    if word == b"any".as_slice() || word == b"all".as_slice() || is_number(word) {
        return push_some(alloc, word, words, strings, found);
    }
    if !word.starts_with(b"$") || word.len() < 2 {
        return Err(RuleFault::Why(Why::Condition));
    }
    let Some(place) = place_of(strings, word) else {
        return Err(RuleFault::Why(Why::NoString));
    };
    let span = span_behind(words)?;
    push(found, Wanted { place, span })
}

fn push(found: &mut Vec<Wanted>, wanted: Wanted) -> Result<(), RuleFault>
    ensures { length found.old.items ≤ MAX_WANTED → length found.new.items ≤ MAX_WANTED }
{
    if found.len() >= MAX_WANTED {
        return Err(RuleFault::Why(Why::ManyStrings));
    }
    found.push(wanted)?;
    Ok(())
}

fn place_of(strings: &[YaraString<'_>], name: &[u8]) -> Option<usize> {
    for (place, string) in strings.iter().enumerate() {
        if string.name == name {
            return Some(place);
        }
    }
    None
}

fn is_number(word: &[u8]) -> bool {
    for byte in word {
        if !byte.is_ascii_digit() {
            return false;
        }
    }
    !word.is_empty()
}

// Where a string may begin: behind its name stands `at` with a place, `in` with two, or nothing of the kind.
fn span_behind(words: &mut Words<'_, '_>) -> Result<Span, RuleFault> {
    let (low, high) = if words.peek() == b"at".as_slice() {
        words.next();
        let place = place_in(words.next())?;
        (place, place)
    } else if words.peek() == b"in".as_slice() {
        words.next();
        words.want(b"(".as_slice())?;
        let low = place_in(words.next())?;
        words.want(b"..".as_slice())?;
        let high = place_in(words.next())?;
        words.want(b")".as_slice())?;
        (low, high)
    } else {
        return Ok(Span::WIDEST);
    };
    span_between(low, high)
}

// From a place to another. In a signature file 1,048,575 as the last place is no bound, so a bound from there on can't be said.
fn span_between(low: u64, high: u64) -> Result<Span, RuleFault>
    ensures ok { IfOk result (λ span. (span.low ≡ low) × (span.high ≡ high) × IsSpan span × (high < MAX_PLACE)) }
    ensures err { IsErr result → high < low ⊎ MAX_PLACE ≤ high }
{
    if low > high {
        return Err(RuleFault::Why(Why::NoPlace));
    }
    if high >= MAX_PLACE {
        return Err(RuleFault::Why(Why::Far));
    }
    Ok(Span { low, high })
}

// The number of a word: decimal digits, or `0x` and hexadecimal ones, with `KB` or `MB` behind them or not.
fn place_in(word: &[u8]) -> Result<u64, RuleFault> {
    let (front, unit) = split_unit(word);
    let number = if front.starts_with(b"0x") {
        number_of(&front[2..], 16)
    } else {
        number_of(front, 10)
    };
    match number {
        Some(number) => Ok(number.saturating_mul(unit)),
        None => Err(RuleFault::Why(Why::PlaceNumber)),
    }
}

fn split_unit(word: &[u8]) -> (&[u8], u64) {
    if word.ends_with(b"KB") {
        return (&word[..word.len() - 2], 1_024);
    }
    if word.ends_with(b"MB") {
        return (&word[..word.len() - 2], 1_048_576);
    }
    (word, 1)
}

fn number_of(digits: &[u8], base: u64) -> Option<u64> {
    if digits.is_empty() {
        return None;
    }
    let mut number = 0u64;
    for sign in digits {
        let value = match *sign {
            b'0'..=b'9' => u64::from(*sign - b'0'),
            b'a'..=b'f' => u64::from(*sign - b'a') + 10,
            b'A'..=b'F' => u64::from(*sign - b'A') + 10,
            _ => return None,
        };
        if value >= base {
            return None;
        }
        number = number.saturating_mul(base).saturating_add(value);
    }
    Some(number)
}

// Puts what `any of`, `1 of` or `all of` one string wants.
fn push_some(
    alloc: Global,
    count: &[u8],
    words: &mut Words<'_, '_>,
    strings: &[YaraString<'_>],
    found: &mut Vec<Wanted>,
) -> Result<(), RuleFault>
    ensures { length found.old.items ≤ MAX_WANTED → length found.new.items ≤ MAX_WANTED }
{
    words.want(b"of".as_slice())?;
    let places = named_places(alloc, words, strings)?;
    if words.peek() == b"at".as_slice() || words.peek() == b"in".as_slice() {
        return Err(RuleFault::Why(Why::Condition));
    }
    let is_one = count == b"any".as_slice() || count == b"1".as_slice();
    let is_only = count == b"all".as_slice() && places.len() == 1;
    if !is_one && !is_only {
        return Err(RuleFault::Why(Why::Several));
    }
    'places: for place in &places {
        push(
            found,
            Wanted {
                place: *place,
                span: Span::WIDEST,
            },
        )?;
    }
    Ok(())
}

// The places of the strings that are named: all, or those of a list in parentheses, each once.
fn named_places(
    alloc: Global,
    words: &mut Words<'_, '_>,
    strings: &[YaraString<'_>],
) -> Result<Vec<usize>, RuleFault> {
    let mut places = Vec::new(alloc);
    if words.peek() == b"them".as_slice() {
        words.next();
        for place in 0..strings.len() {
            places.push(place)?;
        }
        return Ok(places);
    }
    words.want(b"(".as_slice())?;
    for _ in 0..words.rest.len().saturating_add(1) {
        let word = words.next();
        if !push_matching(word, strings, &mut places)? {
            return Err(RuleFault::Why(Why::NoString));
        }
        if words.peek() != b",".as_slice() {
            break;
        }
        words.next();
    }
    words.want(b")".as_slice())?;
    Ok(places)
}

// Puts the places of the strings of this name, or of names that begin with it where a star ends it; answers whether there are
// any.
fn push_matching(
    word: &[u8],
    strings: &[YaraString<'_>],
    places: &mut Vec<usize>,
) -> Result<bool, RuleFault> {
    let mut is_found = false;
    for (place, string) in strings.iter().enumerate() {
        if matches_name(word, string.name) {
            is_found = true;
            if !places.contains(&place) {
                places.push(place)?;
            }
        }
    }
    Ok(is_found)
}

fn matches_name(word: &[u8], name: &[u8]) -> bool {
    if word == name {
        return true;
    }
    match word {
        [front @ .., b'*'] => name.starts_with(front),
        _ => false,
    }
}
