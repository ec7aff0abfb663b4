//! Commands, with their words and their help.

use crate::word::{Word, add_args};
use clap::Command;
use std::alloc::{AllocError, Global};

/// Adds a command to a program, where it could be made.
pub fn with<'a>(
    program: Command<'a>,
    made: Result<Command<'a>, AllocError>,
) -> Result<Command<'a>, AllocError> {
    program.subcommand(made?)
}

/// A command, with its words in the order in which help lists them.
pub fn command_of<'a>(
    alloc: Global,
    name: &'a str,
    about: &'a str,
    after_help: &'a str,
    words: &[Word],
) -> Result<Command<'a>, AllocError> {
    let mut args = Vec::new(alloc);
    add_args(alloc, words, &mut args)?;
    Command::new(alloc, name)
        .about(about)
        .after_help(after_help)
        .args(args)
}
