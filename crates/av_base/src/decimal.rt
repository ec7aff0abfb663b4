ghost use Rattle.std.specs.Prelude.{◌≡◌};
ghost use Rattle.av_base.specs.Decimal.{decimal_of, digits_of};

/// The number that a word spells: decimal digits, no zero in front unless it is the whole word, below 2^64.
pub fn decimal(word: &[u8]) -> Option<u64>
    ensures { result ≡ decimal_of word.now }
{
    if word.is_empty() || (word[0] == b'0' && word.len() > 1) {
        return None;
    }
    digits(word)
}

// The number that digits spell, zeros in front or not.
fn digits(word: &[u8]) -> Option<u64>
    ensures { result ≡ digits_of word.now }
{
    let mut value = 0u64;
    for b in word {
        if !b.is_ascii_digit() {
            return None;
        }
        value = value.checked_mul(10)?.checked_add(u64::from(*b - b'0'))?;
    }
    Some(value)
}
