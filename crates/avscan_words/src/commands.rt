//! The commands of avscan, their words and their help.

use crate::words::PROGRAM;
use av_words::rows::{
    DENIED, FILES_FROM, JSON, KEEP_GOING, NOT_GRANTED, NULL, PRINT0, QUIET, RECURSIVE, SCRIPT,
    SUMMARY, TRUST,
};
use av_words::{Absent, Kind, Word, command_of, with};
use clap::builder::ValueParser;
use clap::{Arg, ArgAction, Command};
use std::alloc::{AllocError, Global};

/// The command line: one command each for a script, for files that are scanned or opened, for the two programs that hold opens
/// together, and for signature files.
pub fn avscan_command<'a>(alloc: Global) -> Result<Command<'a>, AllocError> {
    let command = with(program(alloc), run_command(alloc))?;
    let command = with(command, scan_command(alloc))?;
    let command = with(command, host_command(alloc))?;
    let command = with(command, filter_command(alloc))?;
    let command = with(command, service_command(alloc))?;
    with(command, check_command(alloc))
}

// The program without its commands.
fn program<'a>(alloc: Global) -> Command<'a> {
    Command::new(alloc, PROGRAM)
        .version("0.1.0")
        .about(
            "A scan-on-open antivirus filter and its scanning service, over a volume in memory.\
             \nWithout a command it runs the script on its standard input.",
        )
        .after_help(
            "Examples:\
             \n  avscan scan examples/test.avsig examples/letter.txt      scan a file\
             \n  avscan host examples/test.avsig examples/letter.txt      open it through the filter, \
             which asks the service first\
             \n  avscan run examples/late_reply.avs                       run a script\
             \n  avscan scan -r -i --summary examples/test.avsig FOLDER   scan what is below a folder, and show what is infected\
             \n\nExit status: 0 all done, 1 input refused, 2 usage, 3 memory, 4 device; with --found-status 5 something is \
             infected,\
             \n6 something is infected and some files were not scanned.",
        )
        .subcommand_required(true)
}

fn run_command<'a>(alloc: Global) -> Result<Command<'a>, AllocError> {
    command_of(
        alloc,
        "run",
        "Runs a script and prints what each command did",
        "A script names a volume and then says what happens, a command a line:\
         \n\n  volume 1 closed\
         \n  publish 1 5858\
         \n  create report\
         \n  write report 0 414243\
         \n  connect\
         \n  up 1\
         \n  open report\
         \n  down 1\
         \n\nIt publishes a signature set of the bytes 58 58 and writes 41 42 43 into a stream. The \
         scanning service connects, the stream is\
         \nopened, and the filter's question is delivered to the service.\
         \n\nCommands:\
         \n  publish V PATTERN..   create NAME   write NAME OFFSET HEX   cut NAME LENGTH   remove NAME   judge NAME\
         \n  open NAME [LEAST]   cleanup NAME   connect   down K   up K   work K   timeout SEQ\
         \n  disconnect filter|service   restart filter|service\
         \nA PATTERN is HEX, or HEX@LOW-HIGH where it has to begin from place LOW to place HIGH of a content.\
         \n`man avscript` says what each does and prints.\
         \n\nExample:\
         \n  avscan run examples/late_reply.avs\
         \n  avscan run --json examples/late_reply.avs",
        &[SCRIPT, JSON_OF_COMMANDS],
    )
}

fn scan_command<'a>(alloc: Global) -> Result<Command<'a>, AllocError> {
    let command = command_of(
        alloc,
        "scan",
        "Scans files for signatures and prints a line for each",
        "A signature file names a format and a version, and then a signature a line, a name and bytes in hexadecimal:\
         \n\n  avsig 1\
         \n  version 1\
         \n  two.x 5858\
         \n\nIn a file that begins with `avsig 2` two numbers behind the bytes may say from which to which place of a \
         file they have to begin:\
         \n`two.x 5858 0 1023`.\
         \n\nA line of the output is `FILE clean` or `FILE infected INDEX NAME end PLACE`: which \
         signature ends first, and at which byte.\
         \n`man avsig` has the whole format. A name with a control character stands in double quotes, with escapes as in C.\
         \n\nWith --set a file has a line for each set, which ends with ` set SET`.\
         \nWith --all-matches it has a line for each signature that occurs in it, in the order of SET.\
         \n\nWithout -k one file that can't be read, or is too large, ends the run with no line for any file: -k passes it over.\
         \n\nExamples:\
         \n  avscan scan examples/test.avsig examples/letter.txt examples/eicar.com.txt\
         \n  avscan scan -r -i --summary --max-size 100000000 examples/test.avsig FOLDER\
         \n  avscan scan -r --one-file-system --exclude '*.iso' examples/test.avsig /home\
         \n  avscan scan -r -i --move /var/quarantine examples/test.avsig /home\
         \n  avscan scan -k --files-from LIST examples/test.avsig\
         \n  avscan scan examples/test.avsig --set OTHER.avsig examples/letter.txt",
        &[
            SET,
            SCANNED_FILES,
            RECURSIVE,
            ONE_FILE_SYSTEM,
            KEEP_GOING,
            MAX_SIZE,
            ALL_MATCHES,
            MOVE,
            ALLOW_EMPTY,
            TRUST,
            INFECTED,
            JSON,
            PRINT0_OF_SCANS,
            FILES_FROM,
            NULL,
            FOUND,
            SUMMARY,
            QUIET,
        ],
    )?;
    command
        .arg(more_sets(alloc))?
        .arg(exclude(alloc))?
        .arg(jobs(alloc))
}

// Further signature files. It may be given again and again.
fn more_sets<'a>(alloc: Global) -> Arg<'a> {
    Arg::new(alloc, "more-sets")
        .long("set")
        .value_name("SET")
        .action(ArgAction::Append)
        .help("Scans under this signature file too, in the same pass; may be given up to 15 times")
}

// What is left out below folders. It may be given again and again.
fn exclude<'a>(alloc: Global) -> Arg<'a> {
    Arg::new(alloc, "exclude")
        .long("exclude")
        .value_name("GLOB")
        .action(ArgAction::Append)
        .help(
            "Leaves out what is below a folder and matches GLOB (* ? ** [..]); may be given again and again",
        )
}

// How many threads scan. It has a letter too, and a value.
fn jobs<'a>(alloc: Global) -> Arg<'a> {
    Arg::new(alloc, "jobs")
        .long("jobs")
        .short('j')
        .value_name("N")
        .value_parser(ValueParser::unsigned(1, 64))
        .help("How many threads scan files, 1 to 64; without it one for each processor")
}

fn host_command<'a>(alloc: Global) -> Result<Command<'a>, AllocError> {
    command_of(
        alloc,
        "host",
        "Opens files through the filter and its scanning service, both in this process",
        "The files become streams of a volume in memory. Each is opened through the filter, \
         which asks the scanning service over a\
         \nsocket and holds the open until the content is judged. The first opener opens the first \
         file, the second the next, and so on.\
         \n\nA line of the output is `FILE granted generation G version V` or `FILE denied cause C`, \
         in the order of the files. Cause 2 says\
         \nthat a signature occurs; `man avscan` has the others.\
         \n\nThere is no -k here: one file that can't be read, is too large, was named twice or has a path that no stream can \
         have ends the\
         \nrun with no answer for any. `avscan scan -k` passes such files over.\
         \n\nExample:\
         \n  avscan host examples/test.avsig examples/letter.txt examples/eicar.com.txt --openers 2 --workers 2",
        &[
            SET,
            OPENED_FILES,
            ALLOW_EMPTY,
            TRUST,
            NOT_GRANTED,
            JSON,
            PRINT0,
            FILES_FROM,
            NULL,
            DENIED,
            SUMMARY,
            OPENERS,
            WORKERS,
            SPARE,
            QUIET,
        ],
    )
}

fn filter_command<'a>(alloc: Global) -> Result<Command<'a>, AllocError> {
    command_of(
        alloc,
        "filter",
        "Opens files through the filter, which one scanning service may join over a socket",
        "It makes the socket, waits for one `avscan service`, opens each file in order and \
         prints what each open is told, as `host`\
         \ndoes. Where no service comes or it goes away, the opens that it leaves are denied (cause 3 \
         or 6), and the status is 4.\
         \nThe socket's file is removed as soon as a service has come, and at the end.\
         \n\nThere is no -k here: one file that can't be read, is too large, was named twice or has a path that no stream can \
         have ends the\
         \nrun with no answer for any. `avscan scan -k` passes such files over.\
         \n\nExample, in two terminals:\
         \n  avscan filter avscan.socket examples/letter.txt examples/eicar.com.txt\
         \n  avscan service avscan.socket examples/test.avsig",
        &[
            SOCKET_MADE,
            OPENED_FILES,
            NOT_GRANTED,
            JSON,
            PRINT0,
            FILES_FROM,
            NULL,
            DENIED,
            SUMMARY,
            WAIT_FOR_SERVICE,
            MODE,
            QUIET,
        ],
    )
}

fn service_command<'a>(alloc: Global) -> Result<Command<'a>, AllocError> {
    command_of(
        alloc,
        "service",
        "Scans for a filter that listens on a socket, until the filter closes it",
        "It prints `closed` once the filter has closed the connection.\
         \nWith --watch it looks at SET again and again, and scans under each newer version as soon as the file stays as it is; \
         what is wrong with\
         \none is said on standard error, and it goes on with the set that it has.\
         \n\nExample, in two terminals:\
         \n  avscan filter avscan.socket examples/letter.txt examples/eicar.com.txt\
         \n  avscan service avscan.socket examples/test.avsig\
         \nFor a guard, as long as that runs:\
         \n  avscan service service.socket examples/test.avsig --watch 10\
         \nBeside it, so that either may be restarted without a denial:\
         \n  avscan service service.socket examples/test.avsig --watch 10 --spare",
        &[
            SOCKET_OF_FILTER,
            SET,
            WAIT_FOR_FILTER,
            WATCH,
            BESIDE,
            ALLOW_EMPTY,
            TRUST,
        ],
    )
}

fn check_command<'a>(alloc: Global) -> Result<Command<'a>, AllocError> {
    command_of(
        alloc,
        "check",
        "Checks signature files",
        "A line of the output is `SET: version V, N signatures`. What is wrong with a file is said on standard error, with the place \
         and in words,\
         \nand the status is 1 where a file is bad, 4 where one can't be read.\
         \n\nExample:\
         \n  avscan check examples/test.avsig",
        &[CHECKED_SETS, TRUST],
    )
}

const SET: Word = Word {
    name: "set",
    kind: Kind::Required { shown: "SET" },
    help: "The signature file",
};

const SOCKET_MADE: Word = Word {
    name: "socket",
    kind: Kind::Required { shown: "SOCKET" },
    help: "Where to make the socket: a path of 1 to 107 bytes",
};

const SOCKET_OF_FILTER: Word = Word {
    name: "socket",
    kind: Kind::Required { shown: "SOCKET" },
    help: "The filter's socket: a path of 1 to 107 bytes",
};

const SCANNED_FILES: Word = Word {
    name: "file",
    kind: Kind::Files,
    help: "The files to scan, of at most 1,048,576 bytes each where --max-size says nothing else",
};

const OPENED_FILES: Word = Word {
    name: "file",
    kind: Kind::Files,
    help: "The files to open: each of at most 1,048,576 bytes under a path of at most 255, without spaces",
};

const CHECKED_SETS: Word = Word {
    name: "file",
    kind: Kind::RequiredFiles { shown: "SET" },
    help: "The signature files to check",
};

const ALLOW_EMPTY: Word = Word {
    name: "allow-empty",
    kind: Kind::Flag,
    help: "Takes a SET without signatures, under which every content is clean",
};

const MAX_SIZE: Word = Word {
    name: "max-size",
    kind: Kind::Value { shown: "BYTES" },
    help: "The most bytes of a file, up to 2^63 - 1, with K, M or G for 1024 bytes, 1024 K, 1024 M; by default 1M",
};

const ALL_MATCHES: Word = Word {
    name: "all-matches",
    kind: Kind::Flag,
    help: "Prints a line for each signature that occurs in a file; its bytes are held in memory, at most 64M of them",
};

const MOVE: Word = Word {
    name: "move",
    kind: Kind::Value { shown: "FOLDER" },
    help: "Moves each infected file into FOLDER, which has to be on its file system, and says so on standard error",
};

const ONE_FILE_SYSTEM: Word = Word {
    name: "one-file-system",
    kind: Kind::Flag,
    help: "Below a folder leaves out folders on other file systems",
};

const PRINT0_OF_SCANS: Word = Word {
    name: "print0",
    kind: Kind::FlagWithout { other: "json" },
    help: "Ends each line with a zero byte in place of a line feed; with -i prints the names of infected files alone",
};

const INFECTED: Word = Word {
    name: "infected",
    kind: Kind::Letter('i'),
    help: "Prints the lines of infected files alone",
};

const JSON_OF_COMMANDS: Word = Word {
    name: "json",
    kind: Kind::Flag,
    help: "Prints a JSON object a line for the volume line and for each command",
};

const FOUND: Word = Word {
    name: "found-status",
    kind: Kind::Flag,
    help: "Ends with status 5 where a file is infected, 6 where besides some were not scanned",
};

const OPENERS: Word = Word {
    name: "openers",
    kind: Kind::Number {
        shown: "N",
        least: 1,
        greatest: 16,
        absent: Absent::Means("2"),
    },
    help: "How many threads open files, 1 to 16",
};

const WORKERS: Word = Word {
    name: "workers",
    kind: Kind::Number {
        shown: "N",
        least: 1,
        greatest: 16,
        absent: Absent::Means("2"),
    },
    help: "How many threads scan beside the one that reads, 1 to 16",
};

const SPARE: Word = Word {
    name: "spare",
    kind: Kind::Flag,
    help: "A second service stands by: what the first one leaves undone when it is lost is asked there",
};

const BESIDE: Word = Word {
    name: "spare",
    kind: Kind::Flag,
    help: "Comes as the second service of a guard, beside one without --spare: each takes over what the other leaves",
};

const WAIT_FOR_SERVICE: Word = Word {
    name: "wait",
    kind: Kind::Number {
        shown: "SECONDS",
        least: 1,
        greatest: 86_400,
        absent: Absent::Means("30"),
    },
    help: "How long to wait for a service to come, for each of its messages, and for it to take each answer",
};

const WAIT_FOR_FILTER: Word = Word {
    name: "wait",
    kind: Kind::Number {
        shown: "SECONDS",
        least: 1,
        greatest: 86_400,
        absent: Absent::Means("30"),
    },
    help: "How long to wait for the socket to be there, for each message, and for the filter to take each reply",
};

const WATCH: Word = Word {
    name: "watch",
    kind: Kind::Number {
        shown: "SECONDS",
        least: 1,
        greatest: 86_400,
        absent: Absent::MeansNothing,
    },
    help: "Looks at SET every so many seconds, 1 to 86,400, and takes newer versions; an idle filter is waited for",
};

const MODE: Word = Word {
    name: "mode",
    kind: Kind::Choice {
        shown: "MODE",
        values: &["600", "660", "666"],
        default: "600",
    },
    help: "Who may join at the socket: its owner, also its group, or anybody",
};
