//! The lines of ClamAV's `.ndb` and `.db` files.
ghost use Rattle.std.specs.Prelude.{◌≡◌, nat_le, length, IfOk, IfErr, Option, Err};
ghost use Rattle.std.specs.Option.{option_copied};
ghost use Rattle.av_base.specs.Line.{pieces_of, rest_of};
ghost use Rattle.av_import.specs.Bytes.{bytes_of};
ghost use Rattle.av_import.specs.Clamav.{AreWordsOf, db_of, fault_of_target, ndb_of, signature_in, signature_of, without_returns};
ghost use Rattle.av_import.specs.Offset.{span_of};
ghost use Rattle.std.specs.Prelude.{Ok};

use crate::hexadecimal::fault_of;
use crate::kind::Form;
use crate::number::number;
use crate::offset::span_of;
use crate::why::Why;
use av_base::line::first_piece;
use av_sigset::Span;

/// What a line gives: a name, the digits of a pattern, and the places at which it may begin.
#[derive(Clone, Copy)]
pub struct Words<'a> {
    pub name: &'a [u8],
    pub digits: &'a [u8],
    pub span: Span,
}

/// What a line of this form gives, or why nothing. Of `.ndb` lines those of other targets than 0 are taken only where this is
/// wanted.
pub fn words_of<'a>(form: Form, takes_any_target: bool, line: &'a [u8]) -> Result<Words<'a>, Why>
    ensures words { IfOk result (λ w. AreWordsOf w.name.now w.digits.now w.span (signature_of form takes_any_target line.now)) }
    ensures fault { IfErr result (λ why. signature_of form takes_any_target line.now ≡ Err why) }
{
    match form {
        Form::Ndb => ndb_words(takes_any_target, line),
        Form::Db => db_words(line),
    }
}

fn ndb_words<'a>(takes_any_target: bool, line: &'a [u8]) -> Result<Words<'a>, Why>
    ensures words { IfOk result (λ w. AreWordsOf w.name.now w.digits.now w.span (ndb_of takes_any_target (pieces_of 58 line.now))) }
    ensures fault { IfErr result (λ why. ndb_of takes_any_target (pieces_of 58 line.now) ≡ Err why) }
{
    let (name, rest) = first_piece(line, b':');
    let Some(rest) = rest else {
        return Err(Why::NoNdbLine);
    };
    let (target, rest) = first_piece(rest, b':');
    let Some(rest) = rest else {
        return Err(Why::NoNdbLine);
    };
    let (offset, rest) = first_piece(rest, b':');
    let Some(rest) = rest else {
        return Err(Why::NoNdbLine);
    };
    let (text, more) = first_piece(rest, b':');
    if !are_few(more) {
        return Err(Why::NoNdbLine);
    }
    if let Some(why) = fault_of_target(takes_any_target, number(target)) {
        return Err(why);
    }
    bound_words(name, text, offset)
}

// Whether at most two fields are left.
fn are_few(more: Option<&[u8]>) -> bool
    ensures { result ≡ nat_le (length (rest_of 58 (option_copied more.entry))) 2 }
{
    let Some(more) = more else {
        return true;
    };
    let (_, more) = first_piece(more, b':');
    let Some(more) = more else {
        return true;
    };
    let (_, more) = first_piece(more, b':');
    more.is_none()
}

// Why a line of this target is left out.
fn fault_of_target(takes_any_target: bool, target: Option<u64>) -> Option<Why>
    ensures { result ≡ fault_of_target takes_any_target target }
{
    match target {
        None => Some(Why::TargetNumber),
        Some(3) => Some(Why::Html),
        Some(4) => Some(Why::Mail),
        Some(7) => Some(Why::Text),
        Some(number) => {
            if number == 0 || takes_any_target {
                None
            } else {
                Some(Why::Target(number))
            }
        }
    }
}

fn bound_words<'a>(name: &'a [u8], text: &'a [u8], offset: &[u8]) -> Result<Words<'a>, Why>
    ensures words { IfOk result (λ w. AreWordsOf w.name.now w.digits.now w.span (signature_in name.now (bytes_of text.now) (span_of offset.now))) }
    ensures fault { IfErr result (λ why. signature_in name.now (bytes_of text.now) (span_of offset.now) ≡ Err why) }
{
    if let Some(why) = fault_of(text) {
        return Err(why);
    }
    match span_of(offset) {
        Ok(span) => Ok(Words {
            name,
            digits: text,
            span,
        }),
        Err(why) => Err(why),
    }
}

fn db_words<'a>(line: &'a [u8]) -> Result<Words<'a>, Why>
    ensures words { IfOk result (λ w. AreWordsOf w.name.now w.digits.now w.span (db_of (pieces_of 61 line.now))) }
    ensures fault { IfErr result (λ why. db_of (pieces_of 61 line.now) ≡ Err why) }
{
    let (name, rest) = first_piece(line, b'=');
    let Some(text) = rest else {
        return Err(Why::NoDbLine);
    };
    if let Some(why) = fault_of(text) {
        return Err(why);
    }
    Ok(Words {
        name,
        digits: text,
        span: Span::WIDEST,
    })
}

/// The line without the carriage returns at its end.
pub fn without_returns(line: &[u8]) -> &[u8]
    ensures { result.now ≡ without_returns line.now }
{
    let mut rest = line;
    'returns: while !rest.is_empty() && rest[rest.len() - 1] == b'\r' {
        rest = &rest[..rest.len() - 1];
    }
    rest
}
