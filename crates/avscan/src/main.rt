//! The program: it reads the words of its command line, and runs a script, scans files, opens them through a filter, or checks
//! signature files, over the proved crates.
#![tactic(auto)]

mod check;
mod disk;
mod opening;
mod run;
mod scan;
mod serving;
#[cfg(test)]
mod tests;

use av_host::Hosting;
use av_program::{Errors, Output, command_line, held, progress, say_output_fault};
use av_status::faults::{out_of_memory, say, text};
use av_status::{Prefixed, Status};
use avscan_words::{PROGRAM, Request, read_words};
use check::check_named;
use opening::{filter_named, host_named};
use run::run_named;
use scan::scan_named;
use serving::serve_named;
use std::alloc::Global;
use std::cell::Cell;
use std::io::{BufWriter, Error, IsTerminal, Write};
use std::process::ExitCode;

fn main(rt: HostRuntime) -> ExitCode {
    let _held = held(&rt);
    ExitCode::from(started(&rt, &rt, rt.alloc()).number())
}

// Takes the words of the command line as text. The system is taken twice, the second time for threads and sockets.
fn started<R: Hosting>(rt: &HostRuntime, system: &R, alloc: Global) -> Status
where
    R::Stream: Send,
    R::Listener: Send,
{
    let mut err = Prefixed::new(PROGRAM, rt.stderr());
    match command_line(rt, alloc, &mut err) {
        Ok(words) => asked(rt, system, alloc, &words),
        Err(status) => status,
    }
}

// Does what the words ask for.
fn asked<R: Hosting>(rt: &HostRuntime, system: &R, alloc: Global, words: &Vec<String>) -> Status
where
    R::Stream: Send,
    R::Listener: Send,
{
    let fault = Cell::new(None);
    answered(rt, system, alloc, words, &fault)
}

// The same, with the place for a fault of standard output.
fn answered<R: Hosting>(
    rt: &HostRuntime,
    system: &R,
    alloc: Global,
    words: &Vec<String>,
    fault: &Cell<Option<Error>>,
) -> Status
where
    R::Stream: Send,
    R::Listener: Send,
{
    let mut err = Prefixed::new(PROGRAM, Errors::new(rt.stderr(), fault));
    let stdout = Output::new(rt.stdout(), fault);
    let Ok(mut out) = BufWriter::new(alloc, stdout) else {
        return out_of_memory(&mut err);
    };
    if words.len() <= 1 && rt.stdin().is_terminal() {
        say(
            &mut err,
            &[text("reading a script from the terminal (avscan --help tells more)")],
        );
    }
    match read_words(alloc, words.as_slice(), &mut out, &mut err) {
        Ok(request) => done(rt, system, alloc, &request, fault, &mut out),
        Err(status) => status,
    }
}

// Does what is asked for, and gives the reason where standard output failed.
fn done<R: Hosting, W: Write>(
    rt: &HostRuntime,
    system: &R,
    alloc: Global,
    request: &Request<'_>,
    fault: &Cell<Option<Error>>,
    out: &mut W,
) -> Status
where
    R::Stream: Send,
    R::Listener: Send,
{
    let status = done_with(rt, system, alloc, request, fault, out);
    let mut err = Prefixed::new(PROGRAM, Errors::new(rt.stderr(), fault));
    say_output_fault(rt, alloc, fault, &mut err);
    status
}

fn done_with<R: Hosting, W: Write>(
    rt: &HostRuntime,
    system: &R,
    alloc: Global,
    request: &Request<'_>,
    fault: &Cell<Option<Error>>,
    out: &mut W,
) -> Status
where
    R::Stream: Send,
    R::Listener: Send,
{
    let mut err = Prefixed::new(PROGRAM, Errors::new(rt.stderr(), fault));
    match request {
        Request::Run(script) => run_named(rt, alloc, *script, out, &mut err),
        Request::Scan(scan) => {
            let err = &mut progress(rt, PROGRAM, fault, &scan.named);
            scan_named(rt, system, alloc, scan, out, err)
        }
        Request::Host(host) => {
            let err = &mut progress(rt, PROGRAM, fault, &host.named);
            host_named(rt, system, alloc, host, out, err)
        }
        Request::Filter(filter) => {
            let err = &mut progress(rt, PROGRAM, fault, &filter.named);
            filter_named(rt, system, alloc, filter, out, err)
        }
        Request::Service(service) => serve_named(rt, system, alloc, *service, out, &mut err),
        Request::Check(check) => check_named(rt, alloc, check, out, &mut err),
    }
}
