//! The commands of avtool, their words and their help.

use crate::words::PROGRAM;
use av_words::rows::{SCRIPT, TRUST};
use av_words::{Absent, Kind, Word, command_of, with};
use clap::Command;
use std::alloc::{AllocError, Global};

/// The command line: a command each that draws a script, makes one, takes signatures of other products, merges signature sets, and signs
/// one.
pub fn avtool_command<'a>(alloc: Global) -> Result<Command<'a>, AllocError> {
    let command = with(program(alloc), chart_command(alloc))?;
    let command = with(command, generate_command(alloc))?;
    let command = with(command, import_command(alloc))?;
    let command = with(command, merge_command(alloc))?;
    with(command, sign_command(alloc))
}

// The program without its commands.
fn program<'a>(alloc: Global) -> Command<'a> {
    Command::new(alloc, PROGRAM)
        .version("0.1.0")
        .about(
            "Draws scripts of avscan, makes random ones, takes signatures of other products, merges signature files, and signs \
             them.",
        )
        .after_help(
            "Examples:\
             \n  avtool chart examples/late_reply.avs > late_reply.svg             draw a script\
             \n  avtool generate --seed 1 --commands 100 | avscan run -            run a random one\
             \n  avtool import --set-version 7 examples/other.ndb > set.avsig      take signatures of ClamAV or YARA\
             \n  avtool merge first.avsig second.avsig > set.avsig                 make one signature file of several\
             \n  avtool sign --key avsig.key set.avsig --output signed.avsig       sign a signature file\
             \n\nExit status: 0 all done, 1 input refused, 2 usage, 3 memory, 4 device.",
        )
        .subcommand_required(true)
}

fn chart_command<'a>(alloc: Global) -> Result<Command<'a>, AllocError> {
    command_of(
        alloc,
        "chart",
        "Runs a script and draws what happened, as a picture in SVG",
        "Volume, opener, filter, port and service each have a lane. An arrow is a message, from where it was sent to where it was \
         delivered;\
         \none that was never delivered ends in a cross. Bars are opens, questions, jobs and works for as long as they live. \
         The whole script\
         \nis run, whatever part of it is drawn.\
         \n\nExample:\
         \n  avtool chart examples/late_reply.avs > late_reply.svg\
         \n  avtool chart --from 10 --to 20 examples/late_reply.avs > late_reply.svg",
        &[SCRIPT, FROM, TO],
    )
}

fn generate_command<'a>(alloc: Global) -> Result<Command<'a>, AllocError> {
    command_of(
        alloc,
        "generate",
        "Prints a random script, led by the world that it builds",
        "The same seed gives the same script.\
         \n\nExample:\
         \n  avtool generate --seed 1 --commands 100 | avscan run -",
        &[SEED, COMMANDS_DRAWN, PROFILE],
    )
}

fn import_command<'a>(alloc: Global) -> Result<Command<'a>, AllocError> {
    command_of(
        alloc,
        "import",
        "Writes a signature file of signatures that ClamAV or YARA reads",
        "What is taken means the same: a file that the other tool finds by it is infected here, and no other. \
         What can't be said exactly\
         \nis left out, and a line on standard error says why.\
         \n\nExample:\
         \n  avtool import --set-version 7 --output set.avsig examples/other.ndb",
        &[
            IMPORTED_FILES,
            SET_VERSION,
            ANY_TARGET,
            FORMAT_1,
            ALL,
            OUTPUT,
        ],
    )
}

fn merge_command<'a>(alloc: Global) -> Result<Command<'a>, AllocError> {
    command_of(
        alloc,
        "merge",
        "Writes one signature file that finds what several find",
        "Signatures come in the order of the files and of their lines. One that an earlier file has, name and pattern, is left out.\
         \nA name that an earlier file has with another pattern is a fault, and nothing is written.\
         \n\nExample:\
         \n  avtool merge --output set.avsig examples/test.avsig examples/ranges.avsig",
        &[MERGED_FILES, MERGED_VERSION, OUTPUT, TRUST],
    )
}

fn sign_command<'a>(alloc: Global) -> Result<Command<'a>, AllocError> {
    command_of(
        alloc,
        "sign",
        "Signs a signature file",
        "A program that is run with `--trust KEY` takes signature files alone that were signed with the key in the file KEY. Whoever can \
         read\
         \nKEY can sign: give it to nobody else.\
         \nA key has 32 to 64 bytes, which should be random, and others may neither read nor change its file.\
         \n\nExample:\
         \n  umask 077; dd if=/dev/urandom of=avsig.key bs=32 count=1\
         \n  avtool sign --key avsig.key examples/test.avsig --output signed.avsig\
         \n  avscan scan --trust avsig.key signed.avsig examples/letter.txt",
        &[SIGNED_SET, SIGNING_KEY, OUTPUT, TRUST],
    )
}

const SIGNED_SET: Word = Word {
    name: "set",
    kind: Kind::Required { shown: "SET" },
    help: "The signature file to sign. With --trust one that is signed already, with that key",
};

const SIGNING_KEY: Word = Word {
    name: "key",
    kind: Kind::RequiredValue { shown: "KEY" },
    help: "The file with the key to sign with",
};

const MERGED_FILES: Word = Word {
    name: "file",
    kind: Kind::RequiredFiles { shown: "SET" },
    help: "Signature files, each with signatures",
};

const MERGED_VERSION: Word = Word {
    name: "set-version",
    kind: Kind::Number {
        shown: "N",
        least: 1,
        greatest: 18_446_744_073_709_551_615,
        absent: Absent::MeansNothing,
    },
    help: "The version of the signature file that is written, 1 to 2^64 - 1 [default: the greatest of the files]",
};

const OUTPUT: Word = Word {
    name: "output",
    kind: Kind::Value { shown: "FILE" },
    help: "Writes FILE in one step, in place of standard output",
};

const IMPORTED_FILES: Word = Word {
    name: "file",
    kind: Kind::RequiredFiles { shown: "FILE" },
    help: "Files of signatures: .ndb, .ndu, .db, .yar or .yara",
};

const FROM: Word = Word {
    name: "from",
    kind: Kind::Number {
        shown: "LINE",
        least: 1,
        greatest: 18_446_744_073_709_551_615,
        absent: Absent::Means("1"),
    },
    help: "The first line of the script whose command is drawn",
};

const TO: Word = Word {
    name: "to",
    kind: Kind::Number {
        shown: "LINE",
        least: 1,
        greatest: 18_446_744_073_709_551_615,
        absent: Absent::Means("18446744073709551615"),
    },
    help: "The last line of the script whose command is drawn",
};

const SEED: Word = Word {
    name: "seed",
    kind: Kind::Number {
        shown: "N",
        least: 0,
        greatest: 18_446_744_073_709_551_615,
        absent: Absent::IsRefused,
    },
    help: "From which number the draws begin, up to 2^64 - 1",
};

const COMMANDS_DRAWN: Word = Word {
    name: "commands",
    kind: Kind::Number {
        shown: "M",
        least: 1,
        greatest: 100_000,
        absent: Absent::IsRefused,
    },
    help: "How many commands the script has, 1 to 100,000",
};

const PROFILE: Word = Word {
    name: "profile",
    kind: Kind::Choice {
        shown: "PROFILE",
        values: &["deep", "uniform"],
        default: "deep",
    },
    help: "Which commands are drawn: those that lead on, or each as often",
};

const SET_VERSION: Word = Word {
    name: "set-version",
    kind: Kind::Number {
        shown: "N",
        least: 1,
        greatest: 18_446_744_073_709_551_615,
        absent: Absent::Means("1"),
    },
    help: "The version of the signature file that is written, 1 to 2^64 - 1",
};

const ANY_TARGET: Word = Word {
    name: "any-target",
    kind: Kind::Flag,
    help: "Takes a signature for files of one kind as one for all files",
};

const FORMAT_1: Word = Word {
    name: "format-1",
    kind: Kind::Flag,
    help: "Leaves out what is bound to a place, and writes format 1",
};

const ALL: Word = Word {
    name: "all",
    kind: Kind::Flag,
    help: "Writes nothing, with status 1, where anything was left out",
};
