ghost use Rattle.std.specs.Prelude.{◌≡◌};
ghost use Rattle.av_import.specs.Number.{number_of, without_zeros};

use av_base::decimal::decimal;

/// The most digits of a number.
pub const MAX_DIGITS: usize = 19;

/// The number of a word of 1 to 19 digits. Zeros in front say nothing.
pub fn number(word: &[u8]) -> Option<u64>
    ensures { result ≡ number_of word.now }
{
    if word.len() > MAX_DIGITS {
        return None;
    }
    decimal(without_zeros(word))
}

#[tactic(auto, using(crate::proofs::NumberLemmas::one_zero, crate::proofs::NumberLemmas::one_left, crate::proofs::NumberLemmas::no_zero))]
fn without_zeros(word: &[u8]) -> &[u8]
    ensures { result.now ≡ without_zeros word.now }
{
    let mut rest = word;
    'zeros: while rest.len() > 1 && rest[0] == b'0' {
        rest = &rest[1..];
    }
    rest
}
