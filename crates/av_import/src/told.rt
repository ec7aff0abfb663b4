//! What is told of lines that are left out.
ghost use Rattle.std.specs.Prelude.{◌≤◌, length};

use crate::why::Why;
use av_base::Part;
use av_status::faults::{say_of, text};
use std::io::Write;

/// The most bytes of a name that are told.
const MAX_TOLD: usize = 64;

/// Tells that a line of a file, counted from 1, is left out, or the rule that begins there. Of its name the first 64 bytes are
/// told, with `_` for each that is no visible sign. Where that fails there is nobody left to tell.
pub fn tell_left<E: Write>(err: &mut E, path: &str, line: u64, name: &[u8], why: Why) {
    let mut room = [b'_'; MAX_TOLD];
    let count = show(name, &mut room);
    say_left(err, path, line, &room[..count], why);
}

// Puts the visible signs of a name's first bytes, and `_` for others; answers how many they are.
fn show(name: &[u8], room: &mut [u8]) -> usize
    ensures { result ≤ length room.new }
{
    let count = name.len().min(room.len());
    for place in 0..count {
        room[place] = match name[place] {
            33..=126 => name[place],
            _ => b'_',
        };
    }
    count
}

fn say_left<E: Write>(err: &mut E, path: &str, line: u64, name: &[u8], why: Why) {
    let front = text(": line ");
    let number = Part::Number(line);
    let between = text(if name.is_empty() { "" } else { ": " });
    let name = Part::Text(name);
    let words = text(text_of(why));
    match why {
        Why::Target(target) => {
            let target = Part::Number(target);
            let hint = text(" (--any-target takes it for all files)");
            say_of(
                err,
                path,
                &[
                    front,
                    number,
                    text(": "),
                    name,
                    between,
                    words,
                    target,
                    hint,
                ],
            );
        }
        _ => say_of(
            err,
            path,
            &[front, number, text(": "), name, between, words],
        ),
    }
}

// Why, in words. Behind those of a target its number is to follow.
fn text_of(why: Why) -> &'static str {
    match why {
        Why::Hashes => "hashes of whole files or sections",
        Why::UnknownKind => "not .ndb, .db, .yar or .yara",
        Why::NoNdbLine => "not Name:Target:Offset:Hex",
        Why::NoDbLine => "not Name=Hex",
        Why::TargetNumber => "the target isn't a number",
        Why::Target(_) => "only in files of target ",
        Why::Html => "only in HTML that was normalised",
        Why::Mail => "only in mail",
        Why::Text => "only in text that was normalised",
        Why::OffsetNumber => "the offset isn't a number",
        Why::Counted => "the place is counted from the end, an entry or a section",
        Why::Far => "a place past 1,048,574 has no bound in a signature file",
        Why::NoPlace => "a range of no place",
        Why::NoBytes => "no bytes",
        Why::Wildcards => "wildcards",
        Why::NotHexadecimal => "not hexadecimal",
        Why::HalfByte => "half a byte",
        Why::TooLong => "more than 64 bytes",
        Why::Ranged => "a range of places, which format 1 has not",
        Why::ManySignatures => "1,024 signatures were taken",
        Why::ManyBytes => "16,384 bytes were taken",
        Why::HexEnd => "a hex string without end",
        Why::ExpressionEnd => "a regular expression without end",
        Why::Private => "a private rule",
        Why::Global => "the file has a global rule, which restricts all",
        Why::NoCondition => "no condition",
        Why::ManyStrings => "more than 1,024 strings",
        Why::Condition => "a condition that is no `or` of strings",
        Why::NoString => "a string that the rule has not",
        Why::Several => "more than one string has to be there",
        Why::PlaceNumber => "a place that is no number",
        Why::Expression => "a regular expression",
        Why::Escape => "an escape that YARA has not",
        Why::Nocase => "the modifier nocase",
        Why::Fullword => "the modifier fullword",
        Why::Xor => "the modifier xor",
        Why::Base64 => "the modifier base64",
    }
}
