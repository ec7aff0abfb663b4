ghost use Rattle.std.specs.Prelude.{◌≡◌, IfOk};
ghost use Rattle.av_script.specs.Script.Statement.{Commands, is_setting, is_told, meaning};

use crate::command::Command;
use crate::hexadecimal::{content, patterns};
use crate::verb::{BareVerb, NameVerb, NumberVerb};
use av_base::{ByteList, LimitField, Mode, Version};
use av_history::event::Event;
use std::alloc::{AllocError, Global};

/// What one line of a script says, by views of its text. It takes no memory, so that a bad line is found before memory
/// is asked for.
#[derive(Clone, Copy)]
pub enum Statement<'a> {
    Silent,
    Limit {
        which: LimitField,
        value: u64,
    },
    Volume {
        number: u64,
        mode: Mode,
    },
    Publish {
        version: u64,
        patterns: Option<&'a [u8]>,
    },
    Write {
        name: &'a [u8],
        offset: u64,
        content: &'a [u8],
    },
    Cut {
        name: &'a [u8],
        length: u64,
    },
    Open {
        name: &'a [u8],
        least: u64,
    },
    Named {
        verb: NameVerb,
        name: &'a [u8],
    },
    Numbered {
        verb: NumberVerb,
        number: u64,
    },
    Bare {
        verb: BareVerb,
    },
}

impl Statement<'_> {
    /// Whether it sets a limit or the volume, which only the head of a script may do.
    pub fn is_setting(self) -> bool
        ensures { result ≡ is_setting (meaning self.entry) }
    {
        matches!(self, Statement::Limit { .. } | Statement::Volume { .. })
    }

    /// Whether it does something: a command, or the volume line, which mounts the filter.
    pub fn is_told(self) -> bool
        ensures { result ≡ is_told (meaning self.entry) }
    {
        !matches!(self, Statement::Silent | Statement::Limit { .. })
    }

    /// The command that a statement is, where it is one, with copies of what it views.
    pub fn command(self, alloc: Global) -> Result<Option<Command>, AllocError>
        ensures { IfOk result (Commands (meaning self.entry)) }
    {
        let command = match self {
            Statement::Silent | Statement::Limit { .. } | Statement::Volume { .. } => {
                return Ok(None);
            }
            Statement::Publish {
                version,
                patterns: words,
            } => Command::Step(Event::Publish {
                version: Version::new(version),
                patterns: patterns(alloc, words)?,
            }),
            Statement::Write {
                name,
                offset,
                content: word,
            } => Command::Step(Event::Write {
                name: ByteList::copied(alloc, name)?,
                offset,
                bytes: content(alloc, word)?,
            }),
            Statement::Cut { name, length } => Command::Step(Event::Cut {
                name: ByteList::copied(alloc, name)?,
                length,
            }),
            Statement::Open { name, least } => Command::Step(Event::Open {
                name: ByteList::copied(alloc, name)?,
                least: Version::new(least),
            }),
            Statement::Named { verb, name } => verb.command(ByteList::copied(alloc, name)?),
            Statement::Numbered { verb, number } => Command::Step(verb.event(number)),
            Statement::Bare { verb } => Command::Step(verb.event()),
        };
        Ok(Some(command))
    }
}
