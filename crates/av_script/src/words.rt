ghost use Rattle.std.specs.Prelude.{◌≡◌, MatchOption, None, Some};
ghost use Rattle.std.specs.Option.{option_copied};
ghost use Rattle.av_base.specs.Line.{rest_of};
ghost use Rattle.av_script.specs.Script.Words.{one_word, two_words, three_words};

use av_base::line::first_piece;

const SPACE: u8 = b' ';

/// The one word that is left.
#[tactic(auto, using(crate::proofs::WordLemmas::one_only))]
pub fn one_word(words: Option<&[u8]>) -> Option<&[u8]>
    ensures { option_copied result ≡ one_word (rest_of 32 (option_copied words.entry)) }
{
    let (first, rest) = first_piece(words?, SPACE);
    match rest {
        None => Some(first),
        Some(_) => None,
    }
}

/// The two words that are left.
pub fn two_words(words: Option<&[u8]>) -> Option<(&[u8], &[u8])>
    ensures { MatchOption result (two_words (rest_of 32 (option_copied words.entry)) ≡ None)
        (λ p. two_words (rest_of 32 (option_copied words.entry)) ≡ Some (p.0.now, p.1.now)) }
{
    let (first, rest) = first_piece(words?, SPACE);
    let second = one_word(rest)?;
    Some((first, second))
}

/// The three words that are left.
pub fn three_words(words: Option<&[u8]>) -> Option<(&[u8], &[u8], &[u8])>
    ensures { MatchOption result (three_words (rest_of 32 (option_copied words.entry)) ≡ None)
        (λ p. three_words (rest_of 32 (option_copied words.entry)) ≡ Some (p.0.now, p.1.now, p.2.now)) }
{
    let (first, rest) = first_piece(words?, SPACE);
    let (second, third) = two_words(rest)?;
    Some((first, second, third))
}
