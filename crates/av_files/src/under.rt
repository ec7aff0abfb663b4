//! Lines of files that were scanned under one of several sets.

ghost use Rattle.std.specs.Prelude.{◌≡◌, ◌∷◌, [], IfOk, codes};
ghost use Rattle.std.specs.Option.{option_copied};
ghost use Rattle.av_base.specs.Device.{Writes};
ghost use Rattle.av_json.specs.Line.{object_line};
ghost use Rattle.av_json.specs.Member.{Puts, joined};
ghost use Rattle.av_status.specs.declared.tally.Form.TheVariants.{Lines, ZeroEnded};
ghost use Rattle.av_files.specs.Quoted.{quoted};
ghost use Rattle.av_files.specs.Under.{line_naming, line_under, set_end, shown_under, tokens_under, verdict_members};

use crate::object::new_line;
use crate::quoted::quoted_name;
use crate::scan::{Scanned, is_infected, name_found, print_ended, print_in, print_line};
use crate::scanner::Scanner;
use av_base::Verdict;
use av_json::{LineFault, Member, Writer, put_members, put_named, write_line};
use av_sigset::SignatureSet;
use av_status::tally::{Form, Wishes};
use std::alloc::{AllocError, Global};
use std::io::Write;

/// The set that a file was scanned under, and the set's name where the file's line has it.
#[derive(Clone, Copy)]
pub struct Under<'a> {
    pub scanner: &'a Scanner,
    pub name: Option<&'a str>,
}

/// Writes the line of a file that was scanned under a set, where it is to be shown. A line of JSON is built in `room`.
pub fn print_one<W: Write>(
    alloc: Global,
    under: Under<'_>,
    file: Scanned<'_>,
    wishes: Wishes,
    room: &mut Vec<u8>,
    out: &mut W,
) -> Result<(), LineFault>
    ensures { Writes result (W.contents out.old) (W.contents out.new) (shown_under wishes (option_copied under.entry.name) under.entry.scanner.now file.entry) }
{
    if wishes.shown.has_line(is_infected(file.verdict)) {
        print_under(alloc, under, file, wishes.form, room, out)
    } else {
        Ok(())
    }
}

// Writes the line of a file in this form.
fn print_under<W: Write>(
    alloc: Global,
    under: Under<'_>,
    file: Scanned<'_>,
    form: Form,
    room: &mut Vec<u8>,
    out: &mut W,
) -> Result<(), LineFault>
    ensures { Writes result (W.contents out.old) (W.contents out.new) (line_under form (option_copied under.entry.name) under.entry.scanner.now file.entry) }
{
    let set = under.scanner.set();
    let Some(set_name) = under.name else {
        return print_in(alloc, form, set, file, room, out);
    };
    match form {
        Form::Lines => print_words(alloc, set, set_name, file, room, out),
        Form::Json => print_object(alloc, set, set_name, file, room, out),
        Form::ZeroEnded => print_raw(alloc, set, set_name, file, out),
    }
}

// Writes the line of a file in words, with names in quotes where they need them.
fn print_words<W: Write>(
    alloc: Global,
    set: &SignatureSet,
    set_name: &str,
    file: Scanned<'_>,
    room: &mut Vec<u8>,
    out: &mut W,
) -> Result<(), LineFault>
    ensures { Writes result (W.contents out.old) (W.contents out.new) (line_naming Lines set_name.now set.now file.entry) }
{
    let Ok(end) = quoted_end(alloc, set_name) else {
        return Err(LineFault::NoMemory);
    };
    print_line(set, file, end.as_slice(), room, out)
}

// Writes the line of a file in words under names as they are, ended by a zero byte.
fn print_raw<W: Write>(
    alloc: Global,
    set: &SignatureSet,
    set_name: &str,
    file: Scanned<'_>,
    out: &mut W,
) -> Result<(), LineFault>
    ensures { Writes result (W.contents out.old) (W.contents out.new) (line_naming ZeroEnded set_name.now set.now file.entry) }
{
    let Ok(end) = end_of(alloc, set_name.as_bytes(), b'\0') else {
        return Err(LineFault::NoMemory);
    };
    print_ended(set, file, end.as_slice(), out)
}

// The end of a line in words, with the name of a set.
fn quoted_end(alloc: Global, set_name: &str) -> Result<Vec<u8>, AllocError>
    ensures { IfOk result (λ end. end.items ≡ set_end (quoted set_name.now) (codes "\n")) }
{
    let mut room = Vec::new(alloc);
    match quoted_name(set_name.as_bytes(), &mut room) {
        Ok(shown) => end_of(alloc, shown, b'\n'),
        Err(_) => Err(AllocError),
    }
}

// The end of a line: the name of a set, and a byte.
fn end_of(alloc: Global, set_name: &[u8], byte: u8) -> Result<Vec<u8>, AllocError>
    ensures { IfOk result (λ end. end.items ≡ set_end set_name.now (byte ∷ [])) }
{
    let mut end = Vec::new(alloc);
    end.extend_from_slice(b" set ")?;
    end.extend_from_slice(set_name)?;
    end.push(byte)?;
    Ok(end)
}

// Writes the object of a file.
fn print_object<W: Write>(
    alloc: Global,
    set: &SignatureSet,
    set_name: &str,
    file: Scanned<'_>,
    room: &mut Vec<u8>,
    out: &mut W,
) -> Result<(), LineFault>
    ensures { Writes result (W.contents out.old) (W.contents out.new) (object_line (tokens_under set_name.now set.now file.entry.name.now file.entry.verdict)) }
{
    let mut line = new_line(alloc, room);
    if put_under(alloc, &mut line, set, set_name, file).is_err() {
        return Err(LineFault::NoMemory);
    }
    *room = write_line(line, out)?;
    Ok(())
}

// Puts the object of a file.
#[tactic(auto, unfolding(av_json::specs::Member::object_tokens))]
fn put_under(
    alloc: Global,
    line: &mut Writer,
    set: &SignatureSet,
    set_name: &str,
    file: Scanned<'_>,
) -> Result<(), AllocError>
    ensures { Puts result line.old line.new (tokens_under set_name.now set.now file.entry.name.now file.entry.verdict) }
{
    line.begin_object()?;
    put_named(alloc, line, "file", "file_hex", file.name.as_bytes())?;
    put_verdict(alloc, line, set, file.verdict)?;
    put_members(line, &[Member::Text("set", set_name)])?;
    line.end_object()
}

// Puts the members of a verdict.
fn put_verdict(
    alloc: Global,
    line: &mut Writer,
    set: &SignatureSet,
    verdict: Verdict,
) -> Result<(), AllocError>
    ensures { Puts result line.old line.new (joined (verdict_members set.now verdict)) }
{
    let version = Member::Number("version", set.version().get());
    match verdict {
        Verdict::Clean => put_members(line, &[Member::Text("verdict", "clean"), version]),
        Verdict::Infected { index, end_at } => {
            let index_member = Member::Number("index", u64::from(index));
            put_members(
                line,
                &[Member::Text("verdict", "infected"), version, index_member],
            )?;
            put_named(alloc, line, "name", "name_hex", name_found(set, verdict))?;
            put_members(line, &[Member::Number("end", end_at)])
        }
    }
}
