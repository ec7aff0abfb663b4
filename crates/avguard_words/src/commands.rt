//! The commands of avguard, their words and their help.

use crate::bounds::{CLIENTS as CLIENTS_AT_ONCE, KEEP, QUESTIONS, SIZES, VERSIONS, WAIT};
use crate::words::PROGRAM;
use av_words::rows::{
    DENIED, FILES_FROM, JSON, KEEP_GOING, NOT_GRANTED, NULL, PRINT0, QUIET, RECURSIVE, SUMMARY,
};
use av_words::word::add_args;
use av_words::{Absent, Kind, Word, command_of, with};
use clap::{Arg, ArgAction, Command};
use std::alloc::{AllocError, Global};

/// The command line: a command that guards, one that asks a guard, two that ask it how it is, one that opens paths for clients, and one
/// that looks at a configuration file.
pub fn avguard_command<'a>(alloc: Global) -> Result<Command<'a>, AllocError> {
    let command = with(program(alloc), run_command(alloc))?;
    let command = with(command, ask_command(alloc))?;
    let command = with(command, status_command(alloc))?;
    let command = with(command, metrics_command(alloc))?;
    let command = with(command, paths_command(alloc))?;
    with(command, check_config_command(alloc))
}

// The program without its commands.
fn program<'a>(alloc: Global) -> Command<'a> {
    Command::new(alloc, PROGRAM)
        .version("0.1.0")
        .about(
            "A guard of opens: it answers other programs whether a content may be opened, by what a scanning service says.",
        )
        .after_help(
            "Example, in three terminals:\
             \n  avguard run opens.socket service.socket\
             \n  avscan service service.socket examples/test.avsig\
             \n  avguard ask opens.socket examples/letter.txt examples/eicar.com.txt\
             \n\nExit status: 0 all done, 1 input refused, 2 usage, 3 memory, 4 device; with --found-status 5 something is \
             infected,\
             \n6 something is infected and some files were not judged.",
        )
        .subcommand_required(true)
}

fn run_command<'a>(alloc: Global) -> Result<Command<'a>, AllocError> {
    let mut args = Vec::new(alloc);
    args.push(unless_config(alloc, "opens", "OPENS", OPENS_MADE)?)?;
    args.push(unless_config(alloc, "service", "SERVICE", SERVICE)?)?;
    add_args(alloc, &OPTIONS, &mut args)?;
    Command::new(alloc, "run")
        .about("Answers opens that other programs ask about, until it is ended")
        .after_help(RUN_HELP)
        .args(args)
}

// A socket of a guard, which a configuration file may name.
fn unless_config<'a>(
    alloc: Global,
    name: &'a str,
    shown: &'a str,
    help: &'a str,
) -> Result<Arg<'a>, AllocError> {
    Arg::new(alloc, name)
        .help(help)
        .value_name(shown)
        .required_unless_present("config")
}

const RUN_HELP: &str =
    "Any number of programs ask at OPENS whether a content may be opened; one `avscan service` at a time scans for them, at \
         SERVICE.\
         \nA grant is of exactly the bytes that were asked about, under the newest signatures. What was scanned once is answered \
         at once.\
         \nWhere no service is there opens are denied (cause 3 or 6), or let through with --open. It runs until it is ended by a \
         signal.\
         \n\nAt CLAMD programs may ask that speak to clamd, as `clamdscan` does where it streams. `OK` is said of a grant alone.\
         \n\nExample, in three terminals:\
         \n  avguard run opens.socket service.socket\
         \n  avscan service service.socket examples/test.avsig\
         \n  avguard ask opens.socket examples/letter.txt examples/eicar.com.txt";

const OPTIONS: [Word; 19] = [
    CONFIG,
    OPEN,
    CLOSED,
    WAIT_FOR_ALL,
    KEEP_BYTES,
    ASKED_AT_ONCE,
    MAX_SIZE,
    STREAM_MAX_SIZE,
    CLAMD,
    NAMES,
    TRUST_OF_NAMES,
    MODE_OF_OPENS,
    MODE_OF_SERVICE,
    LEAST,
    MOST_VERSION,
    STATE,
    LOG,
    LOG_GRANTS,
    LOG_JSON,
];

fn paths_command<'a>(alloc: Global) -> Result<Command<'a>, AllocError> {
    let mut args = Vec::new(alloc);
    add_args(alloc, &[DOOR, OPENS_OF_GUARD], &mut args)?;
    args.push(
        Arg::new(alloc, "below")
            .help(BELOW)
            .long("below")
            .value_name("FOLDER")
            .action(ArgAction::Append)
            .required(true),
    )?;
    add_args(alloc, &[WAIT_FOR_PATHS, CLIENTS, MODE_OF_DOOR], &mut args)?;
    Command::new(alloc, "paths")
        .about("Opens files for clients of clamd that name paths, and asks a guard about them")
        .after_help(PATHS_HELP)
        .args(args)
}

const BELOW: &str = "A folder whose files, and those below it, clients may name; an absolute path";

const PATHS_HELP: &str =
    "Some programs that speak to clamd send no contents but paths: `clamdscan FILE`, c-icap, amavis. They come to DOOR; the files \
         are read\
         \nwith the rights of this program, and their contents go to the guard at OPENS. `OK` is said of a grant alone. It runs until \
         it is ended\
         \nby a signal.\
         \n\nExample, beside `avguard run opens.socket service.socket`, where clamd.conf has `LocalSocket /PATH/paths.socket`:\
         \n  avguard paths paths.socket opens.socket --below /srv/mail\
         \n  clamdscan /srv/mail";

const DOOR: Word = Word {
    name: "door",
    kind: Kind::Required { shown: "DOOR" },
    help: "Where to make the socket for clients of clamd that name paths: a path of 1 to 107 bytes",
};

const WAIT_FOR_PATHS: Word = Word {
    name: "wait",
    kind: Kind::Number {
        shown: "SECONDS",
        least: WAIT.least,
        greatest: WAIT.greatest,
        absent: Absent::Means("30"),
    },
    help: "How long an answer of the guard may take, a client to send a command, and to take a reply",
};

const CLIENTS: Word = Word {
    name: "clients",
    kind: Kind::Number {
        shown: "N",
        least: CLIENTS_AT_ONCE.least,
        greatest: CLIENTS_AT_ONCE.greatest,
        absent: Absent::Means("16"),
    },
    help: "How many clients are served at a time, 1 to 64; others wait",
};

const MODE_OF_DOOR: Word = Word {
    name: "mode",
    kind: Kind::Choice {
        shown: "MODE",
        values: &["600", "660", "666"],
        default: "600",
    },
    help: "Who may come to DOOR: the owner, also the group, or anybody",
};

fn check_config_command<'a>(alloc: Global) -> Result<Command<'a>, AllocError> {
    command_of(
        alloc,
        "check-config",
        "Looks at a configuration file of `avguard run`",
        "It prints how a guard would run with the file alone, a setting a line, as a configuration file has them. Or a line says what is \
         wrong with\
         \nthe file, and where, and the status is that of `avguard run --config FILE`. It makes no socket.\
         \n\nExample:\
         \n  avguard check-config /etc/avscan/avguard.conf",
        &[CHECKED],
    )
}

fn ask_command<'a>(alloc: Global) -> Result<Command<'a>, AllocError> {
    command_of(
        alloc,
        "ask",
        "Asks a guard whether files may be opened",
        "It prints what each open is told, in the order of the files, as `host` does. The status is 0 only where each file was \
         judged: an answer\
         \nother than `granted` and `denied cause 2` ends it with 4, or with 6 where --found-status is given and something is \
         infected.\
         \n\nExample, beside `avguard run opens.socket service.socket`:\
         \n  avguard ask opens.socket examples/letter.txt examples/eicar.com.txt",
        &[
            OPENS_OF_GUARD,
            ASKED_FILES,
            RECURSIVE,
            KEEP_GOING,
            NOT_GRANTED,
            JSON,
            PRINT0,
            FILES_FROM,
            NULL,
            DENIED,
            SUMMARY,
            WAIT_FOR_GUARD,
            QUIET,
        ],
    )
}

fn status_command<'a>(alloc: Global) -> Result<Command<'a>, AllocError> {
    command_of(
        alloc,
        "status",
        "Asks a guard how it is",
        "It prints a line for each figure: its name and its number. The status is 0 only where a service is connected that has greeted,          so it\
         \nis a check of health; it is 4 without a service, and without a guard. The guard tells it at OPENS.status.\
         \n\nExample, beside `avguard run opens.socket service.socket`:\
         \n  avguard status opens.socket",
        &[OPENS_OF_GUARD, JSON, WAIT_FOR_REPORT],
    )
}

fn metrics_command<'a>(alloc: Global) -> Result<Command<'a>, AllocError> {
    command_of(
        alloc,
        "metrics",
        "Prints how a guard is, as Prometheus reads it",
        "The names begin with `avguard_`. The status is 0 where a guard told it, with a service or without.\
         \n\nExample, for the textfile collector of node_exporter:\
         \n  avguard metrics opens.socket > new.prom && mv new.prom avguard.prom",
        &[OPENS_OF_GUARD, WAIT_FOR_REPORT],
    )
}

const WAIT_FOR_REPORT: Word = Word {
    name: "wait",
    kind: Kind::Number {
        shown: "SECONDS",
        least: 1,
        greatest: 86_400,
        absent: Absent::Means("5"),
    },
    help: "How long to wait for the guard to be there, and for what it says",
};

const OPENS_MADE: &str = "Where to make the socket for opens: a path of 1 to 107 bytes";

const OPENS_OF_GUARD: Word = Word {
    name: "opens",
    kind: Kind::Required { shown: "OPENS" },
    help: "The guard's socket for opens: a path of 1 to 107 bytes",
};

const SERVICE: &str = "Where to make the socket for the scanning service";

const CONFIG: Word = Word {
    name: "config",
    kind: Kind::Value { shown: "FILE" },
    help: "Takes from FILE what these words don't say: lines like `wait = 30`, in TOML. OPENS and SERVICE may then be left out",
};

const CHECKED: Word = Word {
    name: "file",
    kind: Kind::Required { shown: "FILE" },
    help: "The configuration file",
};

const ASKED_FILES: Word = Word {
    name: "file",
    kind: Kind::Files,
    help: "The files to ask about, of any size",
};

const WAIT_FOR_ALL: Word = Word {
    name: "wait",
    kind: Kind::Number {
        shown: "SECONDS",
        least: WAIT.least,
        greatest: WAIT.greatest,
        absent: Absent::Means("30"),
    },
    help: "How long a question may take, and a client or the service may take nothing that it is sent",
};

const WAIT_FOR_GUARD: Word = Word {
    name: "wait",
    kind: Kind::Number {
        shown: "SECONDS",
        least: 1,
        greatest: 86_400,
        absent: Absent::Means("60"),
    },
    help: "How long to wait for the guard to be there, and for each of its answers",
};

const MODE_OF_OPENS: Word = Word {
    name: "mode",
    kind: Kind::Choice {
        shown: "MODE",
        values: &["600", "660", "666"],
        default: "600",
    },
    help: "Who may ask at OPENS and CLAMD: the owner, also the group, or anybody",
};

const MODE_OF_SERVICE: Word = Word {
    name: "service-mode",
    kind: Kind::Choice {
        shown: "MODE",
        values: &["600", "660", "666"],
        default: "600",
    },
    help: "Who may join at SERVICE, and is believed: the owner, also the group, or anybody",
};

const LEAST: Word = Word {
    name: "least",
    kind: Kind::Number {
        shown: "V",
        least: VERSIONS.least,
        greatest: VERSIONS.greatest,
        absent: Absent::Means("0"),
    },
    help: "No signature set of a version below V is believed, and none grants",
};

const MOST_VERSION: Word = Word {
    name: "most-version",
    kind: Kind::Number {
        shown: "V",
        least: VERSIONS.least,
        greatest: VERSIONS.greatest,
        absent: Absent::Means("18446744073709551615"),
    },
    help: "A service that begins with a version above V is turned away",
};

const STATE: Word = Word {
    name: "state",
    kind: Kind::Value { shown: "FILE" },
    help: "Keeps the greatest version that was believed in FILE, below which none is believed after a restart",
};

const LOG: Word = Word {
    name: "log",
    kind: Kind::Value { shown: "FILE" },
    help: "Puts a line at the end of FILE for each denial and for what becomes of the service; - is standard error",
};

const LOG_GRANTS: Word = Word {
    name: "log-grants",
    kind: Kind::Flag,
    help: "With --log: a line for each grant too",
};

const LOG_JSON: Word = Word {
    name: "log-json",
    kind: Kind::Flag,
    help: "With --log: a JSON object a line",
};

const OPEN: Word = Word {
    name: "open",
    kind: Kind::Flag,
    help: "Lets opens through that can't be judged, in place of denying them",
};

const CLOSED: Word = Word {
    name: "closed",
    kind: Kind::FlagWithout { other: "open" },
    help: "Denies opens that can't be judged, as without --open, whatever FILE says",
};

const KEEP_BYTES: Word = Word {
    name: "keep",
    kind: Kind::Number {
        shown: "BYTES",
        least: KEEP.least,
        greatest: KEEP.greatest,
        absent: Absent::Means("67108864"),
    },
    help: "How many bytes of contents are kept for later asks, up to 2^40",
};

const ASKED_AT_ONCE: Word = Word {
    name: "questions",
    kind: Kind::Number {
        shown: "N",
        least: QUESTIONS.least,
        greatest: QUESTIONS.greatest,
        absent: Absent::Means("256"),
    },
    help: "How many contents are scanned at a time, 1 to 256; further asks stand in line",
};

const MAX_SIZE: Word = Word {
    name: "max-size",
    kind: Kind::Number {
        shown: "BYTES",
        least: SIZES.least,
        greatest: SIZES.greatest,
        absent: Absent::Means("9223372036854775807"),
    },
    help: "The most bytes of a content that comes in parts at OPENS; none of them is kept",
};

const STREAM_MAX_SIZE: Word = Word {
    name: "stream-max-size",
    kind: Kind::Number {
        shown: "BYTES",
        least: SIZES.least,
        greatest: SIZES.greatest,
        absent: Absent::Means("26214399"),
    },
    help: "The most bytes of a content of a client of clamd: less than the StreamMaxLength of its clamd.conf",
};

const CLAMD: Word = Word {
    name: "clamd",
    kind: Kind::Value { shown: "CLAMD" },
    help: "Where to make a socket for clients of clamd",
};

const TRUST_OF_NAMES: Word = Word {
    name: "trust",
    kind: Kind::Value { shown: "KEY" },
    help: "Takes the SET of --names only if `avtool sign` signed it with the key of this file",
};

const NAMES: Word = Word {
    name: "names",
    kind: Kind::Value { shown: "SET" },
    help: "The service's signature file, whose names clients of clamd are told",
};
