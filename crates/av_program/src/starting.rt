//! How a program begins, and how it tells of a standard output that failed.

ghost use Rattle.std.specs.Prelude.{IfErr};
ghost use Rattle.av_status.specs.Status.{IsFault};

use crate::output::Errors;
use crate::reading::{reasons, say_error};
use av_status::faults::{bad_word, out_of_memory};
use av_status::{Prefixed, Progress, Status};
use av_words::{Named, first_bad_word};
use std::alloc::Global;
use std::cell::Cell;
use std::fs::File;
use std::io::{Error, IsTerminal, Stderr, Write};
use std::{env, fs};

/// Stands in for standard input, output and error where the program was begun without them, so that no file or socket that is opened
/// later takes their place and is written to: a folder can be neither read nor written. Where they are there it is held beside them.
pub fn held(rt: &HostRuntime) -> [Option<File>; 3] {
    [
        fs::open(rt, "/").ok(),
        fs::open(rt, "/").ok(),
        fs::open(rt, "/").ok(),
    ]
}

/// The words of the command line as text, the program's name first.
pub fn command_line<E: Write>(
    rt: &HostRuntime,
    alloc: Global,
    err: &mut E,
) -> Result<Vec<String>, Status>
    ensures { IfErr result IsFault }
{
    if let Ok(args) = env::args(rt) {
        return match args.collect(alloc) {
            Ok(words) => Ok(words),
            Err(_) => Err(out_of_memory(err)),
        };
    }
    match first_bad_word(rt, alloc) {
        Ok(Some(number)) => Err(bad_word(err, number)),
        _ => Err(out_of_memory(err)),
    }
}

/// Standard error of a program, with progress on a terminal where it is not unwanted.
pub fn progress<'a>(
    rt: &'a HostRuntime,
    program: &'static str,
    fault: &'a Cell<Option<Error>>,
    named: &Named<'_>,
) -> Progress<'a, HostRuntime, Errors<'a, Stderr>> {
    let err = rt.stderr();
    let is_wanted = !named.is_quiet && err.is_terminal();
    Progress::new(
        rt,
        Prefixed::new(program, Errors::new(err, fault)),
        is_wanted,
    )
}

/// Gives the reason why standard output failed, where it did and reasons are given.
pub fn say_output_fault<E: Write>(
    rt: &HostRuntime,
    alloc: Global,
    fault: &Cell<Option<Error>>,
    err: &mut E,
) {
    if let Some(error) = fault.get() {
        say_error(alloc, reasons(rt), "standard output", error, err);
    }
}
