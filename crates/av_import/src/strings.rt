//! The strings of YARA rules, and the bytes that they look for.
ghost use Rattle.std.specs.Prelude.{◌≡◌, ◌<◌, ◌≤◌, length, IfOk, IfSome};
ghost use Rattle.std.specs.List.{position};
ghost use Rattle.av_import.specs.Rule.{is_word};
ghost use Rattle.av_import.specs.declared.strings.TheConstants.{MAX_STRINGS};

use crate::hexadecimal::fault_of;
use crate::lexer::{Token, TokenKind, space_len};
use crate::why::Why;
use av_sigset::signature::MAX_PATTERN;
use std::alloc::{AllocError, AllocFailed, Global};

/// The most strings of a rule that is taken.
pub const MAX_STRINGS: usize = 1_024;

/// Why a rule gives nothing.
#[derive(Clone, Copy, Debug, PartialEq, Eq)]
pub enum RuleFault {
    Why(Why),
    NoMemory,
}

impl From<AllocError> for RuleFault {
    ghost use Rattle.std.specs.Prelude.{◌≡◌};
    ghost use Rattle.av_import.specs.declared.strings.RuleFault.TheVariants.{NoMemory};

    ghost from_gives = { λ _ e. e ≡ NoMemory };

    fn from(_e: AllocError) -> RuleFault {
        RuleFault::NoMemory
    }
}

impl<T: Drop> From<AllocFailed<T>> for RuleFault {
    ghost use Rattle.std.specs.Prelude.{◌≡◌};
    ghost use Rattle.av_import.specs.declared.strings.RuleFault.TheVariants.{NoMemory};

    ghost from_gives = { λ _ e. e ≡ NoMemory };

    fn from(_e: AllocFailed<T>) -> RuleFault {
        RuleFault::NoMemory
    }
}

/// What a string looks for: its bytes, and those with a zero behind each, or one of the two.
#[derive(Drop)]
pub struct Patterns {
    pub plain: Option<Vec<u8>>,
    pub wide: Option<Vec<u8>>,
}

/// A string of a rule: its name with the `$`, and what it looks for.
#[derive(Drop)]
pub struct YaraString<'a> {
    pub name: &'a [u8],
    pub patterns: Result<Patterns, Why>,
}

/// The modifiers that say what a string looks for.
#[derive(Clone, Copy)]
struct Modifiers {
    wide: bool,
    ascii: bool,
    nocase: bool,
    refused: Option<Why>,
}

/// The strings that stand in the tokens of a rule in front of its condition.
pub fn strings_of<'a>(
    alloc: Global,
    body: &[Token<'a>],
    end: usize,
) -> Result<Vec<YaraString<'a>>, RuleFault>
    ensures few { IfOk result (λ strings. length strings.items ≤ MAX_STRINGS) }
{
    let mut strings = Vec::new(alloc);
    let Some(first) = place_of_word(body, b"strings".as_slice()) else {
        return Ok(strings);
    };
    if first >= end {
        return Ok(strings);
    }
    let mut at = first.saturating_add(2);
    'strings: for _ in 0..body.len() {
        if at >= end {
            break;
        }
        let (Some(name), Some(value)) = (body.get(at), body.get(at.saturating_add(2))) else {
            return Err(RuleFault::Why(Why::Condition));
        };
        if strings.len() >= MAX_STRINGS {
            return Err(RuleFault::Why(Why::ManyStrings));
        }
        let (modifiers, next) = modifiers_of(body, at.saturating_add(3), end);
        let patterns = patterns_of(alloc, value, modifiers)?;
        strings.push(YaraString {
            name: name.text,
            patterns,
        })?;
        at = next;
    }
    Ok(strings)
}

/// The place of the first of these words.
pub fn place_of_word(body: &[Token<'_>], word: &[u8]) -> Option<usize>
    ensures { result ≡ position (is_word word.now) body.now }
{
    body.iter().position(|token| is_word(token, word))
}

fn is_word(token: &Token<'_>, word: &[u8]) -> bool
    ensures { result ≡ is_word word.now token.now }
{
    token.text == word
}

// The modifiers from a place on, and where the next string begins.
fn modifiers_of(body: &[Token<'_>], from: usize, end: usize) -> (Modifiers, usize) {
    let mut modifiers = Modifiers {
        wide: false,
        ascii: false,
        nocase: false,
        refused: None,
    };
    let mut at = from;
    let mut is_inside = false;
    for _ in 0..body.len() {
        let Some(token) = body.get(at) else {
            break;
        };
        if is_inside {
            is_inside = token.text != b")".as_slice();
        } else {
            if at >= end || token.text.starts_with(b"$") {
                break;
            }
            is_inside = token.text == b"(".as_slice();
            modifiers = with_modifier(modifiers, token.text);
        }
        at = at.saturating_add(1);
    }
    (modifiers, at)
}

// The same with one modifier more. Of those that are refused xor counts before base64, and that before fullword.
fn with_modifier(modifiers: Modifiers, word: &[u8]) -> Modifiers {
    let mut all = modifiers;
    if word == b"wide".as_slice() {
        all.wide = true;
    }
    if word == b"ascii".as_slice() {
        all.ascii = true;
    }
    if word == b"nocase".as_slice() {
        all.nocase = true;
    }
    if word == b"xor".as_slice() {
        all.refused = Some(Why::Xor);
    }
    if (word == b"base64".as_slice() || word == b"base64wide".as_slice())
        && all.refused != Some(Why::Xor)
    {
        all.refused = Some(Why::Base64);
    }
    if word == b"fullword".as_slice() && all.refused.is_none() {
        all.refused = Some(Why::Fullword);
    }
    all
}

// What a string of this value looks for, or why nothing that can be said.
fn patterns_of(
    alloc: Global,
    value: &Token<'_>,
    modifiers: Modifiers,
) -> Result<Result<Patterns, Why>, AllocError> {
    if let Some(why) = modifiers.refused {
        return Ok(Err(why));
    }
    match value.kind {
        TokenKind::Expression => Ok(Err(Why::Expression)),
        TokenKind::Hex => hex_patterns(alloc, value.text),
        TokenKind::Plain => text_patterns(alloc, value.text, modifiers),
    }
}

fn hex_patterns(alloc: Global, body: &[u8]) -> Result<Result<Patterns, Why>, AllocError> {
    let text = plain_hex(alloc, body)?;
    if let Some(why) = fault_of(text.as_slice()) {
        return Ok(Err(why));
    }
    let Ok(bytes) = hex::decode(alloc, text.as_slice()) else {
        return Err(AllocError);
    };
    Ok(Ok(Patterns {
        plain: Some(bytes),
        wide: None,
    }))
}

// What stands between braces without space and comments, with `?` for each sign of gaps and alternatives.
fn plain_hex(alloc: Global, body: &[u8]) -> Result<Vec<u8>, AllocError> {
    let mut text = Vec::new(alloc);
    let mut rest = body;
    let mut is_unclosed = false;
    for _ in 0..body.len() {
        let (space, unclosed) = space_len(rest, is_unclosed);
        is_unclosed = unclosed;
        rest = &rest[space..];
        if rest.is_empty() {
            return Ok(text);
        }
        let sign = match rest[0] {
            b'~' | b'[' | b']' | b'(' | b')' | b'|' => b'?',
            other => other,
        };
        text.push(sign)?;
        rest = &rest[1..];
    }
    Ok(text)
}

fn text_patterns(
    alloc: Global,
    token: &[u8],
    modifiers: Modifiers,
) -> Result<Result<Patterns, Why>, AllocError> {
    let body = between_quotes(token);
    if has_bad_escape(without_pairs(alloc, body)?.as_slice()) {
        return Ok(Err(Why::Escape));
    }
    let bytes = unescaped(alloc, body)?;
    if bytes.is_empty() {
        return Ok(Err(Why::NoBytes));
    }
    if modifiers.nocase && has_letter(bytes.as_slice()) {
        return Ok(Err(Why::Nocase));
    }
    if bytes.len() > MAX_PATTERN || (modifiers.wide && bytes.len() > MAX_PATTERN / 2) {
        return Ok(Err(Why::TooLong));
    }
    if !modifiers.wide {
        return Ok(Ok(Patterns {
            plain: Some(bytes),
            wide: None,
        }));
    }
    let wide = widened(alloc, bytes.as_slice())?;
    let plain = if modifiers.ascii { Some(bytes) } else { None };
    Ok(Ok(Patterns {
        plain,
        wide: Some(wide),
    }))
}

fn between_quotes(token: &[u8]) -> &[u8] {
    if token.len() < 2 {
        return b"".as_slice();
    }
    &token[1..token.len() - 1]
}

fn has_letter(bytes: &[u8]) -> bool {
    for byte in bytes {
        if byte.is_ascii_alphabetic() {
            return true;
        }
    }
    false
}

fn widened(alloc: Global, bytes: &[u8]) -> Result<Vec<u8>, AllocError> {
    let mut wide = Vec::new(alloc);
    for byte in bytes {
        wide.push(*byte)?;
        wide.push(0)?;
    }
    Ok(wide)
}

// The text without each pair of backslashes.
fn without_pairs(alloc: Global, body: &[u8]) -> Result<Vec<u8>, AllocError> {
    let mut text = Vec::new(alloc);
    let mut rest = body;
    for _ in 0..body.len() {
        match rest {
            [] => return Ok(text),
            [b'\\', b'\\', behind @ ..] => rest = behind,
            [byte, behind @ ..] => {
                text.push(*byte)?;
                rest = behind;
            }
        }
    }
    Ok(text)
}

fn has_bad_escape(text: &[u8]) -> bool {
    for (place, byte) in text.iter().enumerate() {
        if *byte == b'\\' && escape_at(&text[place..]).is_none() {
            return true;
        }
    }
    false
}

// The text with the byte of each escape in its place.
fn unescaped(alloc: Global, body: &[u8]) -> Result<Vec<u8>, AllocError> {
    let mut bytes = Vec::new(alloc);
    let mut rest = body;
    for _ in 0..body.len() {
        if rest.is_empty() {
            return Ok(bytes);
        }
        match escape_at(rest) {
            Some((byte, length)) if length <= rest.len() => {
                bytes.push(byte)?;
                rest = &rest[length..];
            }
            _ => {
                bytes.push(rest[0])?;
                rest = &rest[1..];
            }
        }
    }
    Ok(bytes)
}

// The byte and the length of the escape that stands in front.
fn escape_at(text: &[u8]) -> Option<(u8, usize)> {
    match text {
        [b'\\', b'n', ..] => Some((b'\n', 2)),
        [b'\\', b't', ..] => Some((b'\t', 2)),
        [b'\\', b'r', ..] => Some((b'\r', 2)),
        [b'\\', b'"', ..] => Some((b'"', 2)),
        [b'\\', b'\\', ..] => Some((b'\\', 2)),
        [b'\\', b'x', high, low, ..] => Some((digit(*high)? * 16 + digit(*low)?, 4)),
        _ => None,
    }
}

fn digit(sign: u8) -> Option<u8>
    ensures { IfSome result (λ d. d < 16) }
{
    match sign {
        b'0'..=b'9' => Some(sign - b'0'),
        b'a'..=b'f' => Some(sign - b'a' + 10),
        b'A'..=b'F' => Some(sign - b'A' + 10),
        _ => None,
    }
}
