//! The program that draws scripts, makes random ones, takes signatures of other products, merges signature files, and
//! signs them.
#![tactic(auto)]

mod chart;
mod generate;
mod import;
mod merge;
mod placing;
mod set;
mod sign;

use av_program::{Errors, Output, command_line, held, say_output_fault};
use av_status::faults::out_of_memory;
use av_status::{Prefixed, Status};
use avtool_words::{PROGRAM, Request, read_words};
use chart::chart_named;
use generate::generate;
use import::import_named;
use merge::merge_named;
use sign::sign_named;
use std::alloc::Global;
use std::cell::Cell;
use std::io::{BufWriter, Error, Write};
use std::process::ExitCode;

fn main(rt: HostRuntime) -> ExitCode {
    let _held = held(&rt);
    ExitCode::from(started(&rt, rt.alloc()).number())
}

// Takes the words of the command line as text.
fn started(rt: &HostRuntime, alloc: Global) -> Status {
    let mut err = Prefixed::new(PROGRAM, rt.stderr());
    match command_line(rt, alloc, &mut err) {
        Ok(words) => asked(rt, alloc, &words),
        Err(status) => status,
    }
}

// Does what the words ask for.
fn asked(rt: &HostRuntime, alloc: Global, words: &Vec<String>) -> Status {
    let fault = Cell::new(None);
    answered(rt, alloc, words, &fault)
}

// The same, with the place for a fault of standard output.
fn answered(
    rt: &HostRuntime,
    alloc: Global,
    words: &Vec<String>,
    fault: &Cell<Option<Error>>,
) -> Status {
    let mut err = Prefixed::new(PROGRAM, Errors::new(rt.stderr(), fault));
    let stdout = Output::new(rt.stdout(), fault);
    let Ok(mut out) = BufWriter::new(alloc, stdout) else {
        return out_of_memory(&mut err);
    };
    match read_words(alloc, words.as_slice(), &mut out, &mut err) {
        Ok(request) => done(rt, alloc, &request, fault, &mut out),
        Err(status) => status,
    }
}

// Does what is asked for, and gives the reason where standard output failed.
fn done<W: Write>(
    rt: &HostRuntime,
    alloc: Global,
    request: &Request<'_>,
    fault: &Cell<Option<Error>>,
    out: &mut W,
) -> Status {
    let mut err = Prefixed::new(PROGRAM, Errors::new(rt.stderr(), fault));
    let status = match request {
        Request::Chart(chart) => chart_named(rt, alloc, *chart, out, &mut err),
        Request::Generate(script) => generate(alloc, *script, out, &mut err),
        Request::Import(import) => import_named(rt, alloc, import, out, &mut err),
        Request::Merge(merge) => merge_named(rt, alloc, merge, out, &mut err),
        Request::Sign(sign) => sign_named(rt, alloc, *sign, out, &mut err),
    };
    say_output_fault(rt, alloc, fault, &mut err);
    status
}
