//! The tokens of YARA rules.
ghost use Rattle.std.specs.Prelude.{◌≡◌, ◌≤◌, ◌<◌, length, IfSome};
ghost use Rattle.av_import.specs.Rule.{is_space};

use crate::why::Why;

/// What a token is.
#[derive(Clone, Copy, Debug, PartialEq, Eq)]
pub enum TokenKind {
    /// What stands between the braces of a hex string.
    Hex,
    /// A regular expression.
    Expression,
    /// Anything else, a text in its quotes among them.
    Plain,
}

/// A token, and the line on which it begins.
#[derive(Clone, Copy)]
pub struct Token<'a> {
    pub kind: TokenKind,
    pub text: &'a [u8],
    pub line: u64,
}

/// The tokens of a file, one by one. A hex string and a regular expression are one token each, found by where they stand.
#[derive(Clone, Copy)]
pub struct Lexer<'a> {
    rest: &'a [u8],
    line: u64,
    before: &'a [u8],
    in_strings: bool,
    // No comment ends behind here.
    is_unclosed: bool,
    // How many bytes more may be looked at for texts without end.
    budget: usize,
}

impl<'a> Lexer<'a> {
    /// The tokens of these bytes.
    pub fn new(content: &'a [u8]) -> Lexer<'a> {
        Lexer {
            rest: content,
            line: 1,
            before: b"".as_slice(),
            in_strings: false,
            is_unclosed: false,
            budget: content.len().saturating_mul(4),
        }
    }

    /// The next token, where there is one. A hex string or a regular expression without end is a fault of the whole file.
    pub fn next(&mut self) -> Result<Option<Token<'a>>, Why> {
        let (space, is_unclosed) = space_len(self.rest, self.is_unclosed);
        self.is_unclosed = is_unclosed;
        self.line = self.line.saturating_add(lines_in(&self.rest[..space]));
        self.rest = &self.rest[space..];
        if self.rest.is_empty() {
            return Ok(None);
        }
        let rest = self.rest;
        let line = self.line;
        if rest[0] == b'{' && self.in_strings && self.before == b"=".as_slice() {
            let Some(end) = place_of(rest, b'}') else {
                return Err(Why::HexEnd);
            };
            let text = between_braces(rest, end);
            self.pass(rest, end, text);
            self.rest = &rest[end + 1..];
            return Ok(Some(Token {
                kind: TokenKind::Hex,
                text,
                line,
            }));
        }
        if begins_expression(rest) && is_expected(self.before) {
            let Some(length) = expression_len(rest) else {
                return Err(Why::ExpressionEnd);
            };
            let text = &rest[..length];
            self.before = text;
            self.rest = &rest[length..];
            return Ok(Some(Token {
                kind: TokenKind::Expression,
                text,
                line,
            }));
        }
        let length = self.plain_len(rest);
        let text = &rest[..length];
        self.pass(rest, length, text);
        self.rest = &rest[length..];
        if text == b"strings".as_slice() {
            self.in_strings = true;
        }
        if text == b"condition".as_slice()
            || text == b"rule".as_slice()
            || text == b"meta".as_slice()
        {
            self.in_strings = false;
        }
        Ok(Some(Token {
            kind: TokenKind::Plain,
            text,
            line,
        }))
    }

    // Counts the lines of so many bytes, behind which this text stands before.
    fn pass(&mut self, rest: &[u8], count: usize, text: &'a [u8])
        requires { count ≤ length rest.now }
    {
        self.line = self.line.saturating_add(lines_in(&rest[..count]));
        self.before = text;
    }

    // The length of a token that is no hex string and no regular expression.
    fn plain_len(&mut self, rest: &[u8]) -> usize
        requires { 0 < length rest.now }
        ensures least { 0 < result }
        ensures most { result ≤ length rest.now }
    {
        if rest[0] == b'"' && self.budget > 0 {
            let (length, is_ended) = text_len(rest);
            if is_ended {
                return length;
            }
            self.budget = self.budget.saturating_sub(length);
        }
        if rest[0].is_ascii_digit() {
            return number_len(rest);
        }
        word_len(rest)
    }
}

fn is_expected(before: &[u8]) -> bool {
    before == b"=".as_slice() || before == b"matches".as_slice()
}

// Whether a slash stands here that begins no comment.
fn begins_expression(rest: &[u8]) -> bool {
    match rest {
        [b'/'] => true,
        [b'/', next, ..] => *next != b'/' && *next != b'*',
        _ => false,
    }
}

fn between_braces(rest: &[u8], end: usize) -> &[u8]
    requires { end < length rest.now }
{
    if end == 0 {
        return b"".as_slice();
    }
    &rest[1..end]
}

fn place_of(bytes: &[u8], wanted: u8) -> Option<usize>
    ensures { IfSome result (λ place. place < length bytes.now) }
{
    for (place, byte) in bytes.iter().enumerate() {
        if *byte == wanted {
            return Some(place);
        }
    }
    None
}

fn lines_in(bytes: &[u8]) -> u64 {
    let mut count = 0u64;
    for byte in bytes {
        if *byte == b'\n' {
            count = count.saturating_add(1);
        }
    }
    count
}

/// Whether a byte is white space.
pub fn is_space(byte: u8) -> bool
    ensures { result ≡ is_space byte }
{
    byte == b' ' || matches!(byte, 9..=13)
}

/// How many bytes of space and comments stand in front, and whether no comment ends from here on.
pub fn space_len(bytes: &[u8], is_unclosed: bool) -> (usize, bool)
    ensures { result.0 ≤ length bytes.now }
{
    let mut is_unclosed = is_unclosed;
    let mut at = 0;
    'pieces: for _ in 0..bytes.len() {
        let (piece, unclosed) = piece_len(&bytes[at..], is_unclosed);
        is_unclosed = unclosed;
        if piece == 0 {
            return (at, is_unclosed);
        }
        at += piece;
    }
    (at, is_unclosed)
}

// The same of one run of white space or one comment.
fn piece_len(bytes: &[u8], is_unclosed: bool) -> (usize, bool)
    ensures { result.0 ≤ length bytes.now }
{
    match bytes {
        [b'/', b'/', ..] => (place_of(bytes, b'\n').unwrap_or(bytes.len()), is_unclosed),
        [b'/', b'*', ..] if !is_unclosed => match comment_len(bytes) {
            Some(length) => (length, false),
            None => (0, true),
        },
        _ => (count_while(bytes, is_space), is_unclosed),
    }
}

fn comment_len(bytes: &[u8]) -> Option<usize>
    ensures { IfSome result (λ n. n ≤ length bytes.now) }
{
    for place in 3..bytes.len() {
        if bytes[place] == b'/' && bytes[place - 1] == b'*' {
            return Some(place + 1);
        }
    }
    None
}

// The length of a text in its quotes, and whether it is ended; of one without end how many bytes were looked at.
fn text_len(rest: &[u8]) -> (usize, bool)
    requires { 0 < length rest.now }
    ensures least { 0 < result.0 }
    ensures most { result.0 ≤ length rest.now }
{
    let mut is_escaped = false;
    for place in 1..rest.len() {
        let byte = rest[place];
        if is_escaped {
            is_escaped = false;
        } else if byte == b'\\' {
            is_escaped = true;
        } else if byte == b'"' {
            return (place + 1, true);
        } else if byte == b'\n' {
            return (place, false);
        }
    }
    (rest.len(), false)
}

// The length of a regular expression with what stands behind its last slash.
fn expression_len(rest: &[u8]) -> Option<usize>
    ensures { IfSome result (λ n. n ≤ length rest.now) }
{
    let mut is_escaped = false;
    for place in 1..rest.len() {
        let byte = rest[place];
        if is_escaped {
            is_escaped = false;
        } else if byte == b'\\' {
            is_escaped = true;
        } else if byte == b'\n' {
            return None;
        } else if byte == b'/' {
            if place == 1 {
                return None;
            }
            let behind = &rest[place + 1..];
            return Some(place + 1 + count_while(behind, is_flag));
        }
    }
    None
}

fn is_flag(byte: u8) -> bool {
    byte == b'i' || byte == b's'
}

fn number_len(rest: &[u8]) -> usize
    requires { 0 < length rest.now }
    ensures least { 0 < result }
    ensures most { result ≤ length rest.now }
{
    if rest.len() > 2 && rest[0] == b'0' && rest[1] == b'x' && rest[2].is_ascii_hexdigit() {
        return 2 + count_while(&rest[2..], is_hex_digit);
    }
    let digits = 1 + count_while(&rest[1..], is_digit);
    let unit = &rest[digits..];
    if unit.starts_with(b"KB") || unit.starts_with(b"MB") {
        return digits + 2;
    }
    digits
}

fn is_digit(byte: u8) -> bool {
    byte.is_ascii_digit()
}

fn is_hex_digit(byte: u8) -> bool {
    byte.is_ascii_hexdigit()
}

fn is_word_byte(byte: u8) -> bool {
    byte == b'_' || byte.is_ascii_alphanumeric()
}

// The length of a word, of two dots, or of one sign.
fn word_len(rest: &[u8]) -> usize
    requires { 0 < length rest.now }
    ensures least { 0 < result }
    ensures most { result ≤ length rest.now }
{
    let sigil = rest[0];
    let begins = sigil == b'$' || sigil == b'#' || sigil == b'@' || sigil == b'!';
    let front = if begins { 1 } else { 0 };
    let signs = count_while(&rest[front..], is_word_byte);
    let length = front + signs;
    if signs > 0 || sigil == b'$' {
        if length < rest.len() && rest[length] == b'*' {
            return length + 1;
        }
        return length;
    }
    if rest.starts_with(b"..") { 2 } else { 1 }
}

// How many bytes in front pass a test.
fn count_while<F: Fn(u8) -> bool>(bytes: &[u8], passes: F) -> usize
    requires { F.IsAlwaysCallable passes }
    ensures { result ≤ length bytes.now }
{
    for (place, byte) in bytes.iter().enumerate() {
        if !passes(*byte) {
            return place;
        }
    }
    bytes.len()
}
