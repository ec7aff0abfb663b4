//! The lines of a signature file, judged without memory.
ghost use Rattle.std.specs.Prelude.{◌≡◌, ◌<◌, [], MatchOption, IsOk, Err, take};
ghost use Rattle.std.specs.List.{list_any};
ghost use Rattle.std.specs.Str.{bytes_eq};
ghost use Rattle.av_base.specs.Line.{pieces_of};
ghost use Rattle.av_sigset.specs.Judge.{signatures_from, first_word};

use crate::fault::{SetFault, SetFaultKind, bad_line};
use crate::format::Format;
use crate::line::{SPACE, words_of};
use crate::set::{MAX_BYTES, MAX_SIGNATURES};
use av_base::line::{LF, first_piece};

/// The first bad one of these lines. Looks for a name in each line above it, so it serves where memory is refused.
pub fn fault_in(format: Format, lines: &[u8]) -> Option<SetFault>
    ensures { MatchOption result (IsOk (signatures_from format [] (pieces_of 10 lines.now)))
        (λ f. signatures_from format [] (pieces_of 10 lines.now) ≡ Err f) }
{
    let mut rest = lines;
    let mut count = 0usize;
    let mut total = 0usize;
    'lines: while !rest.is_empty() {
        let (line, below) = first_piece(rest, LF);
        let number = count as u64 + 3;
        let Some(below) = below else {
            return Some(bad_line(number, SetFaultKind::Unended));
        };
        let words = match words_of(format, line) {
            Ok(words) => words,
            Err(kind) => return Some(bad_line(number, kind)),
        };
        if begins_one_of(lines, count, words.name) {
            return Some(bad_line(number, SetFaultKind::Duplicate));
        }
        if count >= MAX_SIGNATURES || total + words.digits.len() / 2 > MAX_BYTES {
            return Some(bad_line(number, SetFaultKind::TooMany));
        }
        total += words.digits.len() / 2;
        count += 1;
        rest = below;
    }
    None
}

// Whether the name begins one of the first lines.
fn begins_one_of(lines: &[u8], count: usize, name: &[u8]) -> bool
    ensures { result ≡ list_any (λ line. bytes_eq (first_word line) name.now) (take count (pieces_of 10 lines.now)) }
{
    let mut rest = lines;
    for passed in 0..count {
        let (line, below) = first_piece(rest, LF);
        let (word, _) = first_piece(line, SPACE);
        if word == name {
            return true;
        }
        let Some(below) = below else {
            return false;
        };
        rest = below;
    }
    false
}
