//! Words that commands of several programs have.

use crate::word::{Kind, Word};

/// The script of a command that runs one.
pub const SCRIPT: Word = Word {
    name: "script",
    kind: Kind::Required { shown: "SCRIPT" },
    help: "The script's file, or - for standard input",
};

/// The key that signature files have to be signed with.
pub const TRUST: Word = Word {
    name: "trust",
    kind: Kind::Value { shown: "KEY" },
    help: "Takes a SET only if `avtool sign` signed it with the key of this file",
};

/// Folders stand for files.
pub const RECURSIVE: Word = Word {
    name: "recursive",
    kind: Kind::Letter('r'),
    help: "A FILE that is a folder stands for the regular files in it and below it; no link is followed. Means -k too",
};

/// A run goes on where a file fails.
pub const KEEP_GOING: Word = Word {
    name: "keep-going",
    kind: Kind::Letter('k'),
    help: "A file that can't be scanned is reported and passed over; the status is the greatest",
};

/// Which lines of opens are written.
pub const NOT_GRANTED: Word = Word {
    name: "infected",
    kind: Kind::Letter('i'),
    help: "Prints the lines of files that were not granted alone",
};

/// Lines of JSON.
pub const JSON: Word = Word {
    name: "json",
    kind: Kind::Flag,
    help: "Prints a JSON object a line for each file",
};

/// Names as they are.
pub const PRINT0: Word = Word {
    name: "print0",
    kind: Kind::FlagWithout { other: "json" },
    help: "Ends each line with a zero byte in place of a line feed, and prints names as they are",
};

/// A list of further files.
pub const FILES_FROM: Word = Word {
    name: "files-from",
    kind: Kind::Value { shown: "LIST" },
    help: "A list of further files, a name a line; - is standard input. FILE may then be left out",
};

/// How names in a list end.
pub const NULL: Word = Word {
    name: "null",
    kind: Kind::Letter('0'),
    help: "A zero byte ends each name of LIST, in place of a line feed",
};

/// Statuses of their own for what was found.
pub const DENIED: Word = Word {
    name: "found-status",
    kind: Kind::Flag,
    help: "Ends with status 5 where an open was denied for cause 2, 6 where besides some were not judged",
};

/// How many files were scanned.
pub const SUMMARY: Word = Word {
    name: "summary",
    kind: Kind::Flag,
    help: "Says at the end, on standard error, how many files were scanned",
};

/// No progress.
pub const QUIET: Word = Word {
    name: "quiet",
    kind: Kind::Letter('q'),
    help: "Shows no progress on a terminal",
};
