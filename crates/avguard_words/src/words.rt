ghost use Rattle.std.specs.Prelude.{◌≡◌, IfErr, IfOk};
ghost use Rattle.av_status.specs.declared.status.Status.TheVariants.{Usage};
ghost use Rattle.av_words.specs.Words.{IsOfWords};
ghost use Rattle.avguard_words.specs.Words.{AsksForApart, AsksForSockets, AsksForUseOfNames, Differ, HaveSockets};

use crate::commands::avguard_command;
use crate::request::{Ask, Configured, Paths, Report, Request, View};
use crate::settings::Settings;
use crate::sockets::with_sockets;
use av_status::faults::{bad_socket, out_of_memory, same_socket};
use av_status::status::Status;
use av_words::matched::{finding_of, mode_of, named_of, number_of, text_of};
use av_words::{bad_socket_of, matches_of, say_usage};
use clap::ArgMatches;
use clap::parser::ValueSource;
use std::alloc::{AllocError, Global};
use std::convert::AsStr;
use std::io::Write;

/// The program's name.
pub const PROGRAM: &str = "avguard";

// The most bytes of a content that can be asked about.
const MAX_ASKED: u64 = 1_048_576;

const CLAMD_MISSING: &str =
    "error: the following required arguments were not provided:\n  --clamd <CLAMD>\n";

const NAMES_MISSING: &str =
    "error: the following required arguments were not provided:\n  --names <SET>\n";

/// Reads the words of the command line, the program's name first. A help text goes to `out` and a usage fault to `err`; the status
/// is then that of the program.
pub fn read_words<'a, S: AsStr, W: Write, E: Write>(
    alloc: Global,
    words: &'a [S],
    out: &mut W,
    err: &mut E,
) -> Result<Request<'a>, Status>
    ensures sockets { IfOk result AsksForSockets }
    ensures apart { IfOk result AsksForApart }
    ensures names { IfOk result AsksForUseOfNames }
    ensures status { IfErr result (IsOfWords (W.contents out.old) (W.contents out.new)) }
{
    let matches = matches_of(alloc, PROGRAM, avguard_command(alloc), words, out, err)?;
    match request_of(alloc, &matches) {
        Ok(request) => in_order(request, err),
        Err(_) => Err(out_of_memory(err)),
    }
}

// What is asked for by words that were understood.
fn request_of<'a>(alloc: Global, matches: &ArgMatches<'a>) -> Result<Request<'a>, AllocError> {
    match matches.subcommand() {
        Some(("ask", ask)) => ask_of(alloc, ask),
        Some(("status", status)) => Ok(Request::Report(report_of(status, view_of(status)))),
        Some(("metrics", metrics)) => Ok(Request::Report(report_of(metrics, View::Metrics))),
        Some(("paths", paths)) => paths_of(alloc, paths),
        Some(("check-config", check)) => Ok(Request::CheckConfig(text_of(check, "file"))),
        Some((_, run)) => Ok(run_of(run)),
        None => Ok(run_of(matches)),
    }
}

fn run_of<'a>(matches: &ArgMatches<'a>) -> Request<'a> {
    let words = settings_of(matches);
    match matches.get_str("config") {
        Some(config) => Request::Configured(Configured { config, words }),
        None => {
            let opens = text_of(matches, "opens");
            Request::Guard(words.guard_at(opens, text_of(matches, "service")))
        }
    }
}

// What the words say of a guard.
fn settings_of<'a>(matches: &ArgMatches<'a>) -> Settings<'a> {
    Settings {
        opens: matches.get_str("opens"),
        service: matches.get_str("service"),
        clamd: matches.get_str("clamd"),
        names: matches.get_str("names"),
        trust: matches.get_str("trust"),
        is_open: openness_of(matches),
        wait: number_said(matches, "wait"),
        keep: number_said(matches, "keep"),
        questions: number_said(matches, "questions"),
        max_size: number_said(matches, "max-size"),
        stream_max_size: number_said(matches, "stream-max-size"),
        mode: mode_said(matches, "mode"),
        service_mode: mode_said(matches, "service-mode"),
        least: number_said(matches, "least"),
        most_version: number_said(matches, "most-version"),
        state: matches.get_str("state"),
        log: matches.get_str("log"),
        log_grants: flag_said(matches, "log-grants"),
        log_json: flag_said(matches, "log-json"),
    }
}

fn openness_of(matches: &ArgMatches<'_>) -> Option<bool> {
    if matches.get_flag("open") {
        Some(true)
    } else if matches.get_flag("closed") {
        Some(false)
    } else {
        None
    }
}

// The words have an option, which has a default.
fn is_said(matches: &ArgMatches<'_>, name: &str) -> bool {
    matches!(matches.value_source(name), Some(ValueSource::CommandLine))
}

fn number_said(matches: &ArgMatches<'_>, name: &str) -> Option<u64> {
    if is_said(matches, name) {
        Some(number_of(matches, name))
    } else {
        None
    }
}

// A flag says something where it is there.
fn flag_said(matches: &ArgMatches<'_>, name: &str) -> Option<bool> {
    if matches.get_flag(name) {
        Some(true)
    } else {
        None
    }
}

fn mode_said(matches: &ArgMatches<'_>, name: &str) -> Option<u32> {
    if is_said(matches, name) {
        Some(mode_of(matches, name))
    } else {
        None
    }
}

fn ask_of<'a>(alloc: Global, matches: &ArgMatches<'a>) -> Result<Request<'a>, AllocError> {
    Ok(Request::Ask(Ask {
        opens: text_of(matches, "opens"),
        named: named_of(alloc, matches)?,
        finding: finding_of(matches, MAX_ASKED),
        wait: number_of(matches, "wait"),
    }))
}

fn paths_of<'a>(alloc: Global, matches: &ArgMatches<'a>) -> Result<Request<'a>, AllocError> {
    let mut below = Vec::new(alloc);
    if let Some(folders) = matches.get_strs("below") {
        below.extend_from_slice(folders)?;
    }
    Ok(Request::Paths(Paths {
        door: text_of(matches, "door"),
        opens: text_of(matches, "opens"),
        below,
        wait: number_of(matches, "wait"),
        clients: number_of(matches, "clients"),
        mode: mode_of(matches, "mode"),
    }))
}

fn view_of(matches: &ArgMatches<'_>) -> View {
    if matches.get_flag("json") {
        View::Json
    } else {
        View::Text
    }
}

fn report_of<'a>(matches: &ArgMatches<'a>, view: View) -> Report<'a>
    ensures { result.view ≡ view }
{
    Report {
        opens: text_of(matches, "opens"),
        view,
        wait: number_of(matches, "wait"),
    }
}

// The request, where a guard of it can be one, and the socket of a question can too.
fn in_order<'a, E: Write>(request: Request<'a>, err: &mut E) -> Result<Request<'a>, Status>
    ensures sockets { IfOk result AsksForSockets }
    ensures apart { IfOk result AsksForApart }
    ensures names { IfOk result AsksForUseOfNames }
    ensures fault { IfErr result (λ status. status ≡ Usage) }
{
    match request {
        Request::Guard(guard) if guard.names.is_some() && guard.clamd.is_none() => {
            Err(word_missing(err, CLAMD_MISSING))
        }
        Request::Guard(guard) if guard.trust.is_some() && guard.names.is_none() => {
            Err(word_missing(err, NAMES_MISSING))
        }
        Request::Guard(guard) => match with_sockets(guard, err) {
            Ok(guard) => Ok(Request::Guard(guard)),
            Err(status) => Err(status),
        },
        Request::Ask(ask) => match bad_socket_of(ask.opens) {
            Some(socket) => Err(bad_socket(err, socket)),
            None => Ok(Request::Ask(ask)),
        },
        Request::Report(report) => match bad_socket_of(report.opens) {
            Some(socket) => Err(bad_socket(err, socket)),
            None => Ok(Request::Report(report)),
        },
        Request::Paths(paths) => match paths_in_order(paths, err) {
            Ok(paths) => Ok(Request::Paths(paths)),
            Err(status) => Err(status),
        },
        Request::Configured(asked) => Ok(Request::Configured(asked)),
        Request::CheckConfig(file) => Ok(Request::CheckConfig(file)),
    }
}

// The same, where its two sockets can be ones, with different paths.
fn paths_in_order<'a, E: Write>(paths: Paths<'a>, err: &mut E) -> Result<Paths<'a>, Status>
    ensures sockets { IfOk result HaveSockets }
    ensures apart { IfOk result (λ p. Differ p.door.now p.opens.now) }
    ensures fault { IfErr result (λ status. status ≡ Usage) }
{
    if let Some(socket) = bad_socket_of(paths.door) {
        return Err(bad_socket(err, socket));
    }
    if let Some(socket) = bad_socket_of(paths.opens) {
        return Err(bad_socket(err, socket));
    }
    if paths.door == paths.opens {
        return Err(same_socket(err, paths.door));
    }
    Ok(paths)
}

// Names are for clients of clamd: clap's own words for an option that another one requires.
fn word_missing<E: Write>(err: &mut E, fault: &str) -> Status
    ensures { result ≡ Usage }
{
    say_usage(err, PROGRAM, fault);
    Status::Usage
}
