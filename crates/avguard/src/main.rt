//! The program that guards opens of other programs, asks a guard about files and how it is, opens paths for clients of clamd, and looks
//! at a guard's configuration file.
#![tactic(auto)]

mod ask;
mod configuring;
mod guarding;
mod inquiry;
mod paths;
mod reporting;
mod told;

use ask::ask_named;
use av_program::{Errors, Output, command_line, held, progress, say_output_fault};
use av_status::faults::out_of_memory;
use av_status::{Prefixed, Status};
use avguard_words::{PROGRAM, Request, read_words};
use configuring::{check_config, guard_configured};
use guarding::guard_named;
use paths::{Systems, open_named};
use reporting::print_report;
use std::alloc::Global;
use std::cell::Cell;
use std::io::{BufWriter, Error, Write};
use std::process::ExitCode;

fn main(rt: HostRuntime) -> ExitCode {
    let _held = held(&rt);
    ExitCode::from(started(&rt, &rt, rt.alloc()).number())
}

// Takes the words of the command line as text. The system is taken twice, the second time for sockets.
fn started<R: Systems>(rt: &HostRuntime, system: &R, alloc: Global) -> Status
where
    R::File: Send,
    R::Dir: Send,
    R::Stream: Send,
    R::Listener: Send,
{
    let mut err = Prefixed::new(PROGRAM, rt.stderr());
    match command_line(rt, alloc, &mut err) {
        Ok(words) => asked(rt, system, alloc, &words),
        Err(status) => status,
    }
}

// Does what the words ask for.
fn asked<R: Systems>(rt: &HostRuntime, system: &R, alloc: Global, words: &Vec<String>) -> Status
where
    R::File: Send,
    R::Dir: Send,
    R::Stream: Send,
    R::Listener: Send,
{
    let fault = Cell::new(None);
    answered(rt, system, alloc, words, &fault)
}

// The same, with the place for a fault of standard output.
fn answered<R: Systems>(
    rt: &HostRuntime,
    system: &R,
    alloc: Global,
    words: &Vec<String>,
    fault: &Cell<Option<Error>>,
) -> Status
where
    R::File: Send,
    R::Dir: Send,
    R::Stream: Send,
    R::Listener: Send,
{
    let mut err = Prefixed::new(PROGRAM, Errors::new(rt.stderr(), fault));
    let stdout = Output::new(rt.stdout(), fault);
    let Ok(mut out) = BufWriter::new(alloc, stdout) else {
        return out_of_memory(&mut err);
    };
    match read_words(alloc, words.as_slice(), &mut out, &mut err) {
        Ok(request) => done(rt, system, alloc, &request, fault, &mut out),
        Err(status) => status,
    }
}

// Does what is asked for, and gives the reason where standard output failed.
fn done<R: Systems, W: Write>(
    rt: &HostRuntime,
    system: &R,
    alloc: Global,
    request: &Request<'_>,
    fault: &Cell<Option<Error>>,
    out: &mut W,
) -> Status
where
    R::File: Send,
    R::Dir: Send,
    R::Stream: Send,
    R::Listener: Send,
{
    let mut err = Prefixed::new(PROGRAM, Errors::new(rt.stderr(), fault));
    let status = match request {
        Request::Guard(guard) => guard_named(rt, system, alloc, *guard, &mut err),
        Request::Configured(asked) => guard_configured(rt, system, alloc, *asked, &mut err),
        Request::CheckConfig(file) => check_config(rt, alloc, file, out, &mut err),
        Request::Paths(paths) => open_named(system, alloc, paths, &mut err),
        Request::Report(report) => print_report(system, alloc, *report, out, &mut err),
        Request::Ask(ask) => {
            let err = &mut progress(rt, PROGRAM, fault, &ask.named);
            ask_named(rt, system, alloc, ask, out, err)
        }
    };
    say_output_fault(rt, alloc, fault, &mut err);
    status
}
