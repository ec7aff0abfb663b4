//! The lines of a signature file, judged from the first on.
ghost use Rattle.std.specs.Prelude.{◌≡◌, ◌≤◌, ◌<◌, ◌∷◌, ◌++◌, [], List, IfOk, IfErr, Ok, Err, ℕ};
ghost use Rattle.std.specs.List.{list_any};
ghost use Rattle.std.specs.Str.{bytes_eq};
ghost use Rattle.av_base.specs.Line.{pieces_of};
ghost use Rattle.av_sigset.specs.Judge.{set_of, set_under, signatures_from, signatures_with, signature_of};
ghost use Rattle.av_sigset.specs.Line.{IsFault, JoinsAs};
ghost use Rattle.av_base.specs.Refused.{IsRefusal};
ghost use Rattle.hex.specs.Hex.{decode_of};
ghost use Rattle.av_sigset.specs.Set.{AreInRange, patterns_of, byte_count};

use crate::fault::{SetFault, SetFaultKind, bad_line};
use crate::format::{Format, format_of};
use crate::judge::fault_in;
use crate::line::{Words, version_of, words_of};
use crate::set::{MAX_BYTES, MAX_SIGNATURES};
use crate::signature::{Pattern, Signature};
use av_base::line::{LF, first_piece};
use av_base::{ByteList, Refusal};
use hex::FromHexError;
use std::alloc::{AllocError, Global};

/// What stands in a signature file: its format, its version, and the lines of its signatures.
#[derive(Clone, Copy)]
pub struct Body<'a> {
    pub format: Format,
    pub version: u64,
    pub lines: &'a [u8],
}

/// The parts of a signature file, where its first two lines are good.
#[tactic(auto, using(crate::proofs::ReadLemmas::header_judged, crate::proofs::ReadLemmas::more_lines))]
pub fn body_of(bytes: &[u8]) -> Result<Body<'_>, SetFault>
    ensures body { IfOk result (λ b. set_of bytes.now ≡ set_under b.version (signatures_from b.format [] (pieces_of 10 b.lines.now))) }
    ensures version { IfOk result (λ b. 1 ≤ b.version) }
    ensures fault { IfErr result (λ f. set_of bytes.now ≡ Err f) }
{
    let (header, rest) = first_piece(bytes, LF);
    let Some(rest) = rest else {
        return Err(bad_line(1, SetFaultKind::Unended));
    };
    let Some(format) = format_of(header) else {
        return Err(bad_line(1, SetFaultKind::Header));
    };
    let (second, rest) = first_piece(rest, LF);
    let Some(rest) = rest else {
        return Err(bad_line(2, SetFaultKind::Unended));
    };
    match version_of(second) {
        Some(version) => Ok(Body {
            format,
            version,
            lines: rest,
        }),
        None => Err(bad_line(2, SetFaultKind::Version)),
    }
}

/// The signatures of these lines. Where memory is refused the lines are judged without any, so that a fault comes first.
pub fn read_signatures(
    alloc: Global,
    format: Format,
    lines: &[u8],
) -> Result<Vec<Signature>, Refusal<SetFault>>
    ensures ok { IfOk result (λ v. signatures_from format [] (pieces_of 10 lines.now) ≡ Ok v.items) }
    ensures ranges { IfOk result (λ v. AreInRange (patterns_of v.items)) }
    ensures refusal { IfErr result (λ e. IsRefusal e (signatures_from format [] (pieces_of 10 lines.now))) }
{
    match gathered(alloc, format, lines) {
        Ok(signatures) => Ok(signatures),
        Err(Refusal::Fault(fault)) => Err(Refusal::Fault(fault)),
        Err(Refusal::NoMemory) => match fault_in(format, lines) {
            Some(fault) => Err(Refusal::Fault(fault)),
            None => Err(Refusal::NoMemory),
        },
    }
}

// The same, where a want of memory ends the reading at once.
fn gathered(
    alloc: Global,
    format: Format,
    lines: &[u8],
) -> Result<Vec<Signature>, Refusal<SetFault>>
    ensures ok { IfOk result (λ v. signatures_from format [] (pieces_of 10 lines.now) ≡ Ok v.items) }
    ensures ranges { IfOk result (λ v. AreInRange (patterns_of v.items)) }
    ensures fault { IfErr result (λ e. IsFault e (signatures_from format [] (pieces_of 10 lines.now))) }
{
    let mut signatures = Vec::new(alloc);
    let mut rest = lines;
    let mut total = 0usize;
    'lines: while !rest.is_empty() {
        let (line, below) = first_piece(rest, LF);
        let number = signatures.len() as u64 + 3;
        let Some(below) = below else {
            return Err(Refusal::Fault(bad_line(number, SetFaultKind::Unended)));
        };
        let words = match words_behind(format, signatures.as_slice(), total, line) {
            Ok(words) => words,
            Err(kind) => return Err(Refusal::Fault(bad_line(number, kind))),
        };
        add(alloc, &mut signatures, words)?;
        total += words.digits.len() / 2;
        rest = below;
    }
    Ok(signatures)
}

// The words of a line, whose signature may stand behind these.
fn words_behind<'a>(
    format: Format,
    signatures: &[Signature],
    total: usize,
    line: &'a [u8],
) -> Result<Words<'a>, SetFaultKind>
    requires total { total ≡ byte_count (patterns_of signatures.now) }
    requires within { total ≤ MAX_BYTES }
    ensures words { IfOk result (λ w. JoinsAs signatures.now w.name.now w.digits.now w.span (signature_of format (pieces_of 32 line.now))) }
    ensures fault { IfErr result (λ kind. signatures_with signatures.now (signature_of format (pieces_of 32 line.now)) ≡ Err kind) }
{
    let words = match words_of(format, line) {
        Ok(words) => words,
        Err(kind) => return Err(kind),
    };
    if stands_in(signatures, words.name) {
        return Err(SetFaultKind::Duplicate);
    }
    if signatures.len() >= MAX_SIGNATURES || total + words.digits.len() / 2 > MAX_BYTES {
        return Err(SetFaultKind::TooMany);
    }
    Ok(words)
}

/// Whether a signature has this name.
pub fn stands_in(signatures: &[Signature], name: &[u8]) -> bool
    ensures { result ≡ list_any (λ s. bytes_eq s.name name.now) signatures.now }
{
    for signature in signatures {
        if signature.name.as_slice() == name {
            return true;
        }
    }
    false
}

// One signature more, of which the digits are known to spell bytes.
fn add(alloc: Global, signatures: &mut Vec<Signature>, words: Words<'_>) -> Result<(), AllocError>
    ensures { IfOk result (λ _. (bytes : List ℕ) → decode_of words.entry.digits.now ≡ Ok bytes → signatures.new.items
        ≡ signatures.old.items ++ record { name = words.entry.name.now; pattern = record { bytes = bytes; span = words.entry.span } } ∷ []) }
{
    let bytes = match hex::decode(alloc, words.digits) {
        Ok(bytes) => ByteList::from_vec(bytes),
        Err(_) => return Err(AllocError),
    };
    let name = ByteList::copied(alloc, words.name)?;
    signatures.push(Signature {
        name,
        pattern: Pattern {
            bytes,
            span: words.span,
        },
    })?;
    Ok(())
}
