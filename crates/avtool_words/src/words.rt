ghost use Rattle.std.specs.Prelude.{IfErr};
ghost use Rattle.av_words.specs.Words.{IsOfWords};

use crate::commands::avtool_command;
use crate::request::{Chart, Generate, Import, Merge, Request, Sign, Taking};
use av_status::faults::out_of_memory;
use av_status::status::Status;
use av_words::matched::{files_of, number_of, text_of};
use av_words::matches_of;
use clap::ArgMatches;
use std::alloc::{AllocError, Global};
use std::convert::AsStr;
use std::io::Write;

/// The program's name.
pub const PROGRAM: &str = "avtool";

/// Reads the words of the command line, the program's name first. A help text goes to `out` and a usage fault to `err`; the status
/// is then that of the program.
pub fn read_words<'a, S: AsStr, W: Write, E: Write>(
    alloc: Global,
    words: &'a [S],
    out: &mut W,
    err: &mut E,
) -> Result<Request<'a>, Status>
    ensures { IfErr result (IsOfWords (W.contents out.old) (W.contents out.new)) }
{
    let matches = matches_of(alloc, PROGRAM, avtool_command(alloc), words, out, err)?;
    match request_of(alloc, &matches) {
        Ok(request) => Ok(request),
        Err(_) => Err(out_of_memory(err)),
    }
}

// What is asked for by words that were understood.
fn request_of<'a>(alloc: Global, matches: &ArgMatches<'a>) -> Result<Request<'a>, AllocError> {
    match matches.subcommand() {
        Some(("generate", generate)) => Ok(generate_of(generate)),
        Some(("import", import)) => import_of(alloc, import),
        Some(("merge", merge)) => merge_of(alloc, merge),
        Some(("sign", sign)) => Ok(sign_of(sign)),
        Some((_, chart)) => Ok(chart_of(chart)),
        None => Ok(chart_of(matches)),
    }
}

fn chart_of<'a>(matches: &ArgMatches<'a>) -> Request<'a> {
    Request::Chart(Chart {
        script: text_of(matches, "script"),
        from: number_of(matches, "from"),
        to: number_of(matches, "to"),
    })
}

fn generate_of<'a>(matches: &ArgMatches<'a>) -> Request<'a> {
    Request::Generate(Generate {
        seed: number_of(matches, "seed"),
        commands: number_of(matches, "commands"),
        is_uniform: matches.get_str("profile") == Some("uniform"),
    })
}

fn import_of<'a>(alloc: Global, matches: &ArgMatches<'a>) -> Result<Request<'a>, AllocError> {
    Ok(Request::Import(Import {
        files: files_of(alloc, matches)?,
        version: number_of(matches, "set-version"),
        taking: taking_of(matches),
        output: matches.get_str("output"),
    }))
}

fn merge_of<'a>(alloc: Global, matches: &ArgMatches<'a>) -> Result<Request<'a>, AllocError> {
    Ok(Request::Merge(Merge {
        files: files_of(alloc, matches)?,
        trust: matches.get_str("trust"),
        version: matches.get_one::<u64>("set-version"),
        output: matches.get_str("output"),
    }))
}

fn sign_of<'a>(matches: &ArgMatches<'a>) -> Request<'a> {
    Request::Sign(Sign {
        set: text_of(matches, "set"),
        key: text_of(matches, "key"),
        trust: matches.get_str("trust"),
        output: matches.get_str("output"),
    })
}

fn taking_of(matches: &ArgMatches<'_>) -> Taking {
    Taking {
        takes_any_target: matches.get_flag("any-target"),
        has_format_1: matches.get_flag("format-1"),
        wants_all: matches.get_flag("all"),
    }
}
