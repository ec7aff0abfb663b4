//! How a command line is read, and what is said where it is not understood.

ghost use Rattle.std.specs.Prelude.{◌≡◌, ◌≤◌, map, IfErr, IfOk, IfSome};
ghost use Rattle.av_words.specs.Words.{AreOfWords, IsOfWords};

use av_base::device::write_text;
use av_status::faults::{device_failed, out_of_memory};
use av_status::status::Status;
use clap::error::ErrorKind;
use clap::{ArgMatches, Command, Error};
use std::alloc::{AllocError, Global};
use std::convert::AsStr;
use std::env::{Env, FillError};
use std::io::Write;

/// Reads the words of the command line, the program's name first, by the program's commands. A help text goes to `out` and a usage
/// fault to `err`; the status is then that of the program.
pub fn matches_of<'a, S: AsStr, W: Write, E: Write>(
    alloc: Global,
    program: &str,
    command: Result<Command<'a>, AllocError>,
    words: &'a [S],
    out: &mut W,
    err: &mut E,
) -> Result<ArgMatches<'a>, Status>
    ensures matches { IfOk result (AreOfWords command.entry (map S.text words.now)) }
    ensures ends { IfErr result (IsOfWords (W.contents out.old) (W.contents out.new)) }
{
    match matched(command, words) {
        Ok(matches) => Ok(matches),
        Err(error) => Err(told(alloc, program, &error, out, err)),
    }
}

// What the words are by the commands.
fn matched<'a, S: AsStr>(
    command: Result<Command<'a>, AllocError>,
    words: &'a [S],
) -> Result<ArgMatches<'a>, Error>
    ensures { IfOk result (AreOfWords command.entry (map S.text words.now)) }
{
    command?.try_get_matches_from(words)
}

// The most bytes of a word: what Linux hands to a program, the byte behind its end included.
const MAX_WORD: usize = 131_072;

/// The first word of the command line that is not UTF-8, counted from 1 behind the program's name.
pub fn first_bad_word<R: Env>(rt: &R, alloc: Global) -> Result<Option<u64>, AllocError>
    ensures counted { IfOk result (λ found. IfSome found (λ number. 1 ≤ number)) }
{
    let mut word = vec![in alloc; 0u8; MAX_WORD]?;
    for i in 1..usize::MAX {
        match rt.arg(i, &mut word) {
            Ok(length) => {
                if str::from_utf8(&word[..length]).is_err() {
                    return Ok(Some(i as u64));
                }
            }
            Err(FillError::TooLong) => {}
            Err(FillError::NotPresent) => break,
        }
    }
    Ok(None)
}

// Writes the help or the fault, and gives the status.
fn told<W: Write, E: Write>(
    alloc: Global,
    program: &str,
    error: &Error,
    out: &mut W,
    err: &mut E,
) -> Status
    ensures { IsOfWords (W.contents out.old) (W.contents out.new) result }
{
    if error.kind() == ErrorKind::OutOfMemory {
        return out_of_memory(err);
    }
    let Ok(text) = format!(in alloc; "{error}") else {
        return out_of_memory(err);
    };
    if text.is_empty() || error.use_stderr() {
        say_usage(err, program, text.as_str());
        return Status::Usage;
    }
    if write_text(out, text.as_bytes()).is_err() || out.flush().is_err() {
        return device_failed(err);
    }
    Status::Done
}

/// Says a usage fault on one line: the first paragraph of the text, without the word in front that says that it is a fault, and how
/// to be told more.
pub fn say_usage<E: Write>(err: &mut E, program: &str, text: &str) {
    let fault = text.strip_prefix("error:").unwrap_or(text);
    for line in fault.lines() {
        if line.is_empty() {
            break;
        }
        let _ = write_text(err, line.trim().as_bytes());
        let _ = write_text(err, b" ".as_slice());
    }
    let _ = write_text(err, b"(".as_slice());
    let _ = write_text(err, program.as_bytes());
    let _ = write_text(err, b" --help tells more)\n".as_slice());
}
