ghost use Rattle.std.specs.Prelude.{ℕ, ◌≡◌, ◌+◌, ◌≤◌, ◌<◌, ◌++◌, ◌∷◌, [], length, take, drop, get_or, Option, Some, None, IfSome};
ghost use Rattle.std.specs.Char.{digit_char, len_utf8};
ghost use Rattle.av_base.specs.Device.{Writes};
ghost use Rattle.av_json.specs.Shown.{BeginsHidden, front_char, goes_on, hidden_front, if_hidden, is_hidden, shown, unicode_escape};

use av_base::WriteFault;
use av_base::device::write_text;
use std::io::Write;

// A hidden character in a text.
#[derive(Clone, Copy)]
struct Hidden {
    // the place of its first byte
    at: usize,
    code: u16,
}

/// Writes a text with the escapes of its hidden characters. It takes no memory, and makes one write where nothing is hidden.
pub fn write_shown<W: Write>(writer: &mut W, text: &[u8]) -> Result<(), WriteFault>
    ensures { Writes result (W.contents writer.old) (W.contents writer.new) (shown text.now) }
{
    let mut rest = text;
    'hidden: while let Some(hidden) = first_hidden(rest) {
        let (plain, behind) = rest.split_at(hidden.at);
        write_text(writer, plain)?;
        write_text(writer, &unicode_escape(hidden.code))?;
        rest = &behind[char_len(hidden.code)..];
    }
    write_text(writer, rest)
}

// The first hidden character of a text.
fn first_hidden(text: &[u8]) -> Option<Hidden>
    ensures within { IfSome result (λ h. h.at + len_utf8 h.code ≤ length text.now) }
    ensures found { IfSome result (λ h. shown text.now
        ≡ take h.at text.now ++ (unicode_escape h.code ++ shown (drop (h.at + len_utf8 h.code) text.now))) }
    ensures nothing { result ≡ None → shown text.now ≡ text.now }
{
    for at in 0..text.len() {
        if let Some(code) = hidden_front(&text[at..]) {
            return Some(Hidden { at, code });
        }
    }
    None
}

// The hidden character that a text begins with.
#[tactic(auto, unfolding(crate::specs::Shown::hidden_front))]
fn hidden_front(text: &[u8]) -> Option<u16>
    ensures value { result ≡ hidden_front text.now }
    ensures found { IfSome result (λ c. BeginsHidden c text.now) }
    ensures only { (c : ℕ) → BeginsHidden c text.now → result ≡ Some c }
{
    if_hidden(front_char(byte_at(text, 0), byte_at(text, 1), byte_at(text, 2)))
}

// A character, if it is hidden.
fn if_hidden(code: Option<u16>) -> Option<u16>
    ensures { result ≡ if_hidden code }
{
    match code {
        Some(code) if is_hidden(code) => Some(code),
        _ => None,
    }
}

// A byte of a text, or zero after its end.
fn byte_at(text: &[u8], at: usize) -> u8
    ensures { result ≡ get_or text.now at 0 }
{
    match text.get(at) {
        Some(byte) => *byte,
        None => 0,
    }
}

// The character that three bytes begin with in UTF-8, unless it takes four or begins with E0.
#[tactic(auto, unfolding(crate::specs::Shown::front_char))]
fn front_char(first: u8, second: u8, third: u8) -> Option<u16>
    ensures { result ≡ front_char first second third }
{
    match first {
        0..=0x7f => Some(u16::from(first)),
        0xc2..=0xdf if goes_on(second) => {
            Some(u16::from(first - 0xc0) * 64 + u16::from(second - 0x80))
        }
        0xe1..=0xef if goes_on(second) && goes_on(third) => Some(
            u16::from(first - 0xe0) * 4096
                + u16::from(second - 0x80) * 64
                + u16::from(third - 0x80),
        ),
        _ => None,
    }
}

fn goes_on(byte: u8) -> bool
    ensures { result ≡ goes_on byte }
{
    matches!(byte, 0x80..=0xbf)
}

// Whether a terminal or an editor acts on a character instead of showing it: DEL, the controls after it, and the marks that turn the
// direction of a text.
fn is_hidden(code: u16) -> bool
    ensures { result ≡ is_hidden code }
{
    matches!(
        code,
        0x7f..=0x9f | 0x61c | 0x200e..=0x200f | 0x202a..=0x202e | 0x2066..=0x2069
    )
}

// How many bytes a character takes in UTF-8.
fn char_len(code: u16) -> usize
    ensures { result ≡ len_utf8 code }
{
    match code {
        0..=0x7f => 1,
        0x80..=0x7ff => 2,
        _ => 3,
    }
}

// The escape of a character.
#[tactic(auto, unfolding(crate::specs::Shown::unicode_escape))]
fn unicode_escape(code: u16) -> [u8; 6]
    ensures { result ≡ unicode_escape code }
{
    [
        b'\\',
        b'u',
        digit(code / 4096),
        digit(code / 256 % 16),
        digit(code / 16 % 16),
        digit(code % 16),
    ]
}

// A hexadecimal digit.
fn digit(value: u16) -> u8
    requires { value < 16 }
    ensures { result ≡ digit_char value }
{
    if value < 10 {
        b'0' + value as u8
    } else {
        b'a' + (value as u8 - 10)
    }
}
