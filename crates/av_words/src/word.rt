//! Words of a command: arguments and options.
ghost use Rattle.std.specs.Prelude.{◌≡◌, ◌+◌, length, OnOk};

use clap::builder::ValueParser;
use clap::{Arg, ArgAction};
use std::alloc::{AllocError, Global};

/// An argument or an option of a command.
#[derive(Clone, Copy)]
pub struct Word {
    pub name: &'static str,
    pub kind: Kind,
    pub help: &'static str,
}

/// What a word is, and as what help shows its value.
#[derive(Clone, Copy)]
pub enum Kind {
    /// An argument.
    Required {
        shown: &'static str,
    },
    /// Names of files, one at least.
    RequiredFiles {
        shown: &'static str,
    },
    /// Names of files, for which a list may stand.
    Files,
    /// An option without a value.
    Flag,
    /// The same, which has a letter too.
    Letter(char),
    /// An option without a value that the other one excludes.
    FlagWithout {
        other: &'static str,
    },
    Value {
        shown: &'static str,
    },
    /// A value that a command can't be without.
    RequiredValue {
        shown: &'static str,
    },
    /// A value that is of use only with the other option.
    ValueWith {
        shown: &'static str,
        other: &'static str,
    },
    /// A number within bounds.
    Number {
        shown: &'static str,
        least: u64,
        greatest: u64,
        absent: Absent,
    },
    /// One of these values.
    Choice {
        shown: &'static str,
        values: &'static [&'static str],
        default: &'static str,
    },
}

/// What becomes of a command without an option.
#[derive(Clone, Copy)]
pub enum Absent {
    Means(&'static str),
    MeansNothing,
    IsRefused,
}

/// Adds what clap takes for each of these words.
pub fn add_args<'a>(
    alloc: Global,
    words: &[Word],
    args: &mut Vec<Arg<'a>>,
) -> Result<(), AllocError>
    ensures { OnOk result (length args.new.items ≡ length args.old.items + length words.now) }
{
    'words: for word in words {
        args.push(arg_of(alloc, *word)?)?;
    }
    Ok(())
}

fn arg_of<'a>(alloc: Global, word: Word) -> Result<Arg<'a>, AllocError> {
    let arg = Arg::new(alloc, word.name).help(word.help);
    match word.kind {
        Kind::Required { shown } => Ok(arg.value_name(shown).required(true)),
        Kind::RequiredFiles { shown } => Ok(files(arg, shown).required(true)),
        Kind::Files => files(arg, "FILE").required_unless_present("files-from"),
        Kind::Flag => Ok(flag(arg, word.name)),
        Kind::Letter(letter) => Ok(flag(arg, word.name).short(letter)),
        Kind::FlagWithout { other } => flag(arg, word.name).conflicts_with(other),
        Kind::Value { shown } => Ok(arg.long(word.name).value_name(shown)),
        Kind::RequiredValue { shown } => {
            Ok(arg.long(word.name).value_name(shown).required(true))
        }
        Kind::ValueWith { shown, other } => {
            arg.long(word.name).value_name(shown).requires_arg(other)
        }
        Kind::Number {
            shown,
            least,
            greatest,
            absent,
        } => {
            let arg = arg.long(word.name).value_name(shown);
            let bounded = arg.value_parser(ValueParser::unsigned(least, greatest));
            Ok(unless_absent(bounded, absent))
        }
        Kind::Choice {
            shown,
            values,
            default,
        } => Ok(
            arg.long(word.name)
                .value_name(shown)
                .value_parser(values)
                .default_value(default),
        ),
    }
}

fn files<'a>(arg: Arg<'a>, shown: &'static str) -> Arg<'a> {
    arg.value_name(shown)
        .action(ArgAction::Append)
        .num_args(1..)
}

fn flag<'a>(arg: Arg<'a>, name: &'a str) -> Arg<'a> {
    arg.long(name).action(ArgAction::SetTrue)
}

fn unless_absent<'a>(arg: Arg<'a>, absent: Absent) -> Arg<'a> {
    match absent {
        Absent::Means(value) => arg.default_value(value),
        Absent::MeansNothing => arg,
        Absent::IsRefused => arg.required(true),
    }
}
