ghost use Rattle.std.specs.Prelude.{◌≡◌, MatchOption, Err};
ghost use Rattle.std.specs.List.{list_all, list_any};
ghost use Rattle.hex.specs.Hex.{is_hex_digit};
ghost use Rattle.av_import.specs.Bytes.{bytes_of, fault_of_other, is_wildcard};
ghost use Rattle.av_sigset.specs.Line.{SpellsPattern};

use crate::why::Why;
use av_sigset::signature::MAX_PATTERN;

/// Why hexadecimal text is no pattern.
pub fn fault_of(text: &[u8]) -> Option<Why>
    ensures { MatchOption result (SpellsPattern text.now) (λ why. bytes_of text.now ≡ Err why) }
{
    if text.is_empty() {
        return Some(Why::NoBytes);
    }
    if !are_digits(text) {
        return Some(fault_of_other(text));
    }
    if text.len() % 2 == 1 {
        return Some(Why::HalfByte);
    }
    if text.len() > 2 * MAX_PATTERN {
        return Some(Why::TooLong);
    }
    None
}

// What is wrong with text that isn't digits alone.
fn fault_of_other(text: &[u8]) -> Why
    ensures { result ≡ fault_of_other text.now }
{
    if has_wildcard(text) {
        Why::Wildcards
    } else {
        Why::NotHexadecimal
    }
}

fn are_digits(text: &[u8]) -> bool
    ensures { result ≡ list_all is_hex_digit text.now }
{
    for byte in text {
        if !byte.is_ascii_hexdigit() {
            return false;
        }
    }
    true
}

fn has_wildcard(text: &[u8]) -> bool
    ensures { result ≡ list_any is_wildcard text.now }
{
    for byte in text {
        if is_wildcard(*byte) {
            return true;
        }
    }
    false
}

/// Whether a byte stands for gaps or alternatives.
pub fn is_wildcard(byte: u8) -> bool
    ensures { result ≡ is_wildcard byte }
{
    byte == b'?'
        || byte == b'*'
        || byte == b'{'
        || byte == b'}'
        || byte == b'('
        || byte == b')'
        || byte == b'['
        || byte == b']'
        || byte == b'!'
        || byte == b'|'
}
