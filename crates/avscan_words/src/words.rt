ghost use Rattle.std.specs.Prelude.{◌≡◌, ◌≤◌, ◌↔◌, ℕ, List, Option, length, slice_get, IfErr, IfNone, IfOk, IfSome, IsErrOf, IsSome, MatchResult};
ghost use Rattle.av_status.specs.declared.status.Status.TheVariants.{Usage};
ghost use Rattle.av_words.specs.Words.{IsOfWords};
ghost use Rattle.avscan_words.specs.Words.{AsksForSockets, IsMoved, IsStandardInput};

use crate::commands::avscan_command;
use crate::request::{Check, Filter, Host, Request, Scan, Script, Service};
use crate::size::{MAX_HELD, MAX_SIZE, size_of};
use av_base::{Part, Refusal};
use av_glob::{Glob, GlobFault};
use av_status::faults::{bad_socket, out_of_memory, say_of, text};
use av_status::status::Status;
use av_status::tally::Form;
use av_words::matched::{
    count_of, empty_sets_of, files_of, finding_of, form_of, mode_of, named_of, number_of, text_of,
};
use av_words::{bad_socket_of, matches_of, say_usage};
use clap::ArgMatches;
use std::alloc::{AllocError, Global};
use std::convert::AsStr;
use std::io::Write;

/// The program's name.
pub const PROGRAM: &str = "avscan";

// As many signature files may be given besides the first one.
const MORE_SETS: usize = 15;

/// Reads the words of the command line, the program's name first. No other word asks for a script on standard input. A
/// help text goes to `out` and a usage fault to `err`; the status is then that of the program.
pub fn read_words<'a, S: AsStr, W: Write, E: Write>(
    alloc: Global,
    words: &'a [S],
    out: &mut W,
    err: &mut E,
) -> Result<Request<'a>, Status>
    ensures none { length words.now ≤ 1 → MatchResult result IsStandardInput (λ status. ⊥) }
    ensures moved { IfSome (slice_get words.now 1) (λ word. IsMoved (S.text word) → IsErrOf result Usage) }
    ensures sockets { IfOk result AsksForSockets }
    ensures status { IfErr result (IsOfWords (W.contents out.old) (W.contents out.new)) }
{
    if words.len() <= 1 {
        return Ok(from_standard_input());
    }
    if let Some(fault) = moved_of(words) {
        say_usage(err, PROGRAM, fault);
        return Err(Status::Usage);
    }
    let matches = matches_of(alloc, PROGRAM, avscan_command(alloc), words, out, err)?;
    if has_bad_size(&matches) {
        say_usage(
            err,
            PROGRAM,
            "--max-size takes 1 to 2^63 - 1, with K, M or G for 1024 bytes, 1024 K or 1024 M",
        );
        return Err(Status::Usage);
    }
    if has_too_large_matches(&matches) {
        say_usage(
            err,
            PROGRAM,
            "--all-matches takes files of at most 64M (67108864 bytes): give it a smaller --max-size",
        );
        return Err(Status::Usage);
    }
    if has_too_many_sets(&matches) {
        say_usage(
            err,
            PROGRAM,
            "--set may be given 15 times at most: files are scanned under 16 sets",
        );
        return Err(Status::Usage);
    }
    let globs = match globs_of(alloc, &matches, err) {
        Ok(globs) => globs,
        Err(Refusal::Fault(_)) => return Err(Status::Usage),
        Err(Refusal::NoMemory) => return Err(out_of_memory(err)),
    };
    match request_of(alloc, &matches, globs) {
        Ok(request) => with_sockets(request, err),
        Err(_) => Err(out_of_memory(err)),
    }
}

// What became of the command that is asked for, where another program has it now.
fn moved_of<S: AsStr>(words: &[S]) -> Option<&'static str>
    ensures { IfSome (slice_get words.now 1) (λ word. IsMoved (S.text word) → IsSome result) }
{
    moved(words.get(1)?.as_str())
}

// What became of a command that another program has now.
fn moved(command: &str) -> Option<&'static str>
    ensures { IsSome result ↔ IsMoved command.now }
{
    match command {
        "guard" => Some("guard is now avguard run"),
        "ask" => Some("ask is now avguard ask"),
        "chart" => Some("chart is now avtool chart"),
        "generate" => Some("generate is now avtool generate"),
        "import" => Some("import is now avtool import"),
        _ => None,
    }
}

// What is asked for by words that were understood.
fn request_of<'a>(
    alloc: Global,
    matches: &ArgMatches<'a>,
    globs: Vec<Glob>,
) -> Result<Request<'a>, AllocError> {
    match matches.subcommand() {
        Some(("scan", scan)) => scan_of(alloc, scan, globs),
        Some(("host", host)) => host_of(alloc, host),
        Some(("filter", filter)) => filter_of(alloc, filter),
        Some(("service", service)) => Ok(service_of(service)),
        Some(("check", check)) => check_of(alloc, check),
        Some((_, run)) => Ok(Request::Run(Script {
            path: text_of(run, "script"),
            form: form_of(run, Form::Lines),
        })),
        None => Ok(from_standard_input()),
    }
}

// What is asked for where no word says it.
fn from_standard_input<'a>() -> Request<'a>
    ensures { IsStandardInput result }
{
    Request::Run(Script {
        path: "-",
        form: Form::Lines,
    })
}

fn scan_of<'a>(
    alloc: Global,
    matches: &ArgMatches<'a>,
    globs: Vec<Glob>,
) -> Result<Request<'a>, AllocError> {
    Ok(Request::Scan(Scan {
        set: text_of(matches, "set"),
        more_sets: more_sets_of(alloc, matches)?,
        trust: matches.get_str("trust"),
        empty_sets: empty_sets_of(matches),
        named: named_of(alloc, matches)?,
        finding: finding_of(matches, max_size_of(matches).unwrap_or(MAX_SIZE)),
        jobs: matches.get_one::<usize>("jobs"),
        globs,
        is_one_device: matches.get_flag("one-file-system"),
        has_all_matches: matches.get_flag("all-matches"),
        folder: matches.get_str("move"),
    }))
}

// The further signature files of a scan, in the order given.
fn more_sets_of<'a>(alloc: Global, matches: &ArgMatches<'a>) -> Result<Vec<&'a str>, AllocError> {
    let mut sets = Vec::new(alloc);
    if let Some(names) = matches.get_strs("more-sets") {
        for name in names {
            sets.push(*name)?;
        }
    }
    Ok(sets)
}

// The globs of what is left out. Where a word is none, one line to `err` names it.
fn globs_of<E: Write>(
    alloc: Global,
    matches: &ArgMatches<'_>,
    err: &mut E,
) -> Result<Vec<Glob>, Refusal<GlobFault>> {
    let mut globs = Vec::new(alloc);
    let Some(("scan", scan)) = matches.subcommand() else {
        return Ok(globs);
    };
    let Some(words) = scan.get_strs("exclude") else {
        return Ok(globs);
    };
    for word in words {
        match Glob::read(alloc, word.as_bytes()) {
            Ok(glob) => globs.push(glob)?,
            Err(refusal) => return Err(no_glob(alloc, word, refusal, err)),
        }
    }
    Ok(globs)
}

// Says why a word is no glob. Where memory is refused, nothing is said yet.
fn no_glob<E: Write>(
    alloc: Global,
    word: &str,
    refusal: Refusal<GlobFault>,
    err: &mut E,
) -> Refusal<GlobFault> {
    let Refusal::Fault(fault) = refusal else {
        return Refusal::NoMemory;
    };
    let Ok(why) = format!(in alloc; "{fault}") else {
        return Refusal::NoMemory;
    };
    say_of(
        err,
        word,
        &[text(": no glob: it "), Part::Text(why.as_bytes())],
    );
    Refusal::Fault(fault)
}

// Whether the size that is asked for is none.
fn has_bad_size(matches: &ArgMatches<'_>) -> bool {
    match matches.subcommand() {
        Some(("scan", scan)) => max_size_of(scan).is_none(),
        _ => false,
    }
}

// Whether each match is asked for in files that are too large to be held in memory.
fn has_too_large_matches(matches: &ArgMatches<'_>) -> bool {
    match matches.subcommand() {
        Some(("scan", scan)) => {
            scan.get_flag("all-matches") && max_size_of(scan).unwrap_or(MAX_SIZE) > MAX_HELD
        }
        _ => false,
    }
}

// Whether more sets are asked for than files are scanned under.
fn has_too_many_sets(matches: &ArgMatches<'_>) -> bool {
    match matches.subcommand() {
        Some(("scan", scan)) => match scan.get_strs("more-sets") {
            Some(names) => names.len() > MORE_SETS,
            None => false,
        },
        _ => false,
    }
}

// The most bytes of a file.
fn max_size_of(matches: &ArgMatches<'_>) -> Option<u64> {
    match matches.get_str("max-size") {
        Some(text) => size_of(text),
        None => Some(MAX_SIZE),
    }
}

fn host_of<'a>(alloc: Global, matches: &ArgMatches<'a>) -> Result<Request<'a>, AllocError> {
    Ok(Request::Host(Host {
        set: text_of(matches, "set"),
        trust: matches.get_str("trust"),
        empty_sets: empty_sets_of(matches),
        named: named_of(alloc, matches)?,
        openers: count_of(matches, "openers"),
        workers: count_of(matches, "workers"),
        has_spare: matches.get_flag("spare"),
    }))
}

fn filter_of<'a>(alloc: Global, matches: &ArgMatches<'a>) -> Result<Request<'a>, AllocError> {
    Ok(Request::Filter(Filter {
        socket: text_of(matches, "socket"),
        named: named_of(alloc, matches)?,
        wait: number_of(matches, "wait"),
        mode: mode_of(matches, "mode"),
    }))
}

fn service_of<'a>(matches: &ArgMatches<'a>) -> Request<'a> {
    Request::Service(Service {
        socket: text_of(matches, "socket"),
        set: text_of(matches, "set"),
        trust: matches.get_str("trust"),
        empty_sets: empty_sets_of(matches),
        wait: number_of(matches, "wait"),
        watch: matches.get_one::<u64>("watch"),
        is_spare: matches.get_flag("spare"),
    })
}

fn check_of<'a>(alloc: Global, matches: &ArgMatches<'a>) -> Result<Request<'a>, AllocError> {
    Ok(Request::Check(Check {
        sets: files_of(alloc, matches)?,
        trust: matches.get_str("trust"),
    }))
}

// The request, where the path of its socket can be one.
fn with_sockets<'a, E: Write>(request: Request<'a>, err: &mut E) -> Result<Request<'a>, Status>
    ensures sockets { IfOk result AsksForSockets }
    ensures fault { IfErr result (λ status. status ≡ Usage) }
{
    match first_bad_socket(&request) {
        Some(socket) => Err(bad_socket(err, socket)),
        None => Ok(request),
    }
}

fn first_bad_socket<'a>(request: &Request<'a>) -> Option<&'a str>
    ensures { IfNone result (AsksForSockets request.now) }
{
    match request {
        Request::Filter(filter) => bad_socket_of(filter.socket),
        Request::Service(service) => bad_socket_of(service.socket),
        _ => None,
    }
}
