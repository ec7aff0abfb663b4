ghost use Rattle.std.specs.Prelude.{◌≡◌, ◌+◌, ◌<◌, ◌^◌, ◌++◌, ◌≤◌, length, IfOk, IfErr, OnOk, Ok, Err};
ghost use Rattle.std.specs.Option.{option_to_list};
ghost use Rattle.av_script.specs.Script.Statement.{meaning, command_of};
ghost use Rattle.av_base.specs.Answers.{Reads};
ghost use Rattle.av_base.specs.Line.{lines_of};
ghost use Rattle.av_script.specs.Script.{ScriptText, script_of, heads, commands_from, Parses};
ghost use Rattle.av_base.specs.Refused.{IsRefusal};

use crate::command::Command;
use crate::reading::read_statement;
use crate::statement::Statement;
use av_base::line::first_line;
use av_base::{LimitValues, Limits, Mode, Refusal};
use std::alloc::{AllocError, Global};
use std::collections::VecDeque;
use std::marker::Model;
use thiserror::Error;

/// The first line that makes a text no script, counted from 1.
#[derive(Clone, Copy, Debug, PartialEq, Eq, Error)]
#[error("line {line}: bad script")]
pub struct ScriptFault {
    pub line: u64,
}

/// A script: a volume with its mode and limits, and the commands in their order.
#[derive(Debug, Drop)]
pub struct Script {
    number: u64,
    mode: Mode,
    limits: Limits,
    commands: VecDeque<Command>,
}

impl Model for Script {
    ghost use Rattle.av_script.specs.Script.{ScriptText};

    ghost Value = { ScriptText };

    ghost view = { λ s. record { number = s.number; mode = s.mode; limits = s.limits; commands = s.commands.items } };
}

impl Script {
    /// The volume's number.
    pub fn number(&self) -> u64
        ensures { result ≡ self.now.number }
    {
        self.number
    }

    /// The mode of the mount.
    pub fn mode(&self) -> Mode
        ensures { result ≡ self.now.mode }
    {
        self.mode
    }

    /// The limits of the volume, the filter and the service.
    pub fn limits(&self) -> Limits
        ensures { result ≡ self.now.limits }
    {
        self.limits
    }

    /// The commands, given away.
    pub fn into_commands(self) -> VecDeque<Command>
        ensures { result.items ≡ self.commands }
    {
        self.commands
    }
}

// What a script says up to its volume line, and the text below that, whose first line has the number `line`.
#[derive(Clone, Copy)]
struct Header<'a> {
    number: u64,
    mode: Mode,
    limits: Limits,
    below: &'a [u8],
    line: u64,
}

/// The script that a text is, or its first bad line. Where memory is refused the rest is judged without, so that a bad
/// line is told before want of memory.
pub fn parse_script(alloc: Global, text: &[u8]) -> Result<Script, Refusal<ScriptFault>>
    ensures { Reads result (script_of text.now) }
{
    let header = match read_header(text) {
        Ok(header) => header,
        Err(fault) => return Err(Refusal::Fault(fault)),
    };
    let commands = read_commands(alloc, header.below, header.line)?;
    Ok(Script {
        number: header.number,
        mode: header.mode,
        limits: header.limits,
        commands,
    })
}

// The header of a text, or the first bad line up to it.
fn read_header(text: &[u8]) -> Result<Header<'_>, ScriptFault>
    ensures header { IfOk result
        (λ h. script_of text.now ≡ heads h.number h.mode h.limits (commands_from h.line (lines_of h.below.now))) }
    ensures fault { IfErr result (λ f. script_of text.now ≡ Err f) }
    ensures lines { IfOk result (λ h. h.line + length h.below.now ≤ 1 + length text.now) }
{
    let mut values = LimitValues::greatest();
    let mut rest = text;
    let mut line = 1u64;
    'lines: while !rest.is_empty() {
        let (first, below) = first_line(rest);
        match read_statement(first) {
            Some(Statement::Silent) => {}
            Some(Statement::Limit { which, value }) => values = values.with(which, value),
            Some(Statement::Volume { number, mode }) => {
                let Ok(limits) = Limits::check(values) else {
                    return Err(ScriptFault { line });
                };
                return Ok(Header {
                    number,
                    mode,
                    limits,
                    below,
                    line: line + 1,
                });
            }
            _ => return Err(ScriptFault { line }),
        }
        rest = below;
        line += 1;
    }
    Err(ScriptFault { line })
}

// The commands of a text whose first line has the number `first_number`, or its first bad line.
fn read_commands(
    alloc: Global,
    text: &[u8],
    first_number: u64,
) -> Result<VecDeque<Command>, Refusal<ScriptFault>>
    requires { first_number + length text.now < 2 ^ 64 }
    ensures { Parses result (commands_from first_number (lines_of text.now)) }
{
    let mut commands = VecDeque::new(alloc);
    let mut rest = text;
    let mut line = first_number;
    'lines: while !rest.is_empty() {
        let (first, below) = first_line(rest);
        let Some(statement) = read_statement(first) else {
            return Err(Refusal::Fault(ScriptFault { line }));
        };
        if statement.is_setting() {
            return Err(Refusal::Fault(ScriptFault { line }));
        }
        if push_command(alloc, &mut commands, statement).is_err() {
            return Err(without_memory(below, line + 1));
        }
        rest = below;
        line += 1;
    }
    Ok(commands)
}

// The command that a statement is, where it is one, behind the others.
fn push_command(
    alloc: Global,
    commands: &mut VecDeque<Command>,
    statement: Statement<'_>,
) -> Result<(), AllocError>
    ensures { OnOk result (commands.new.items ≡ commands.old.items ++ option_to_list (command_of (meaning statement.entry))) }
{
    if let Some(command) = statement.command(alloc)? {
        commands.push_back(command)?;
    }
    Ok(())
}

// Why commands are refused where memory was, and this text is left.
fn without_memory(text: &[u8], first_number: u64) -> Refusal<ScriptFault>
    requires { first_number + length text.now < 2 ^ 64 }
    ensures { IsRefusal result (commands_from first_number (lines_of text.now)) }
{
    let mut rest = text;
    let mut line = first_number;
    'lines: while !rest.is_empty() {
        let (first, below) = first_line(rest);
        let Some(statement) = read_statement(first) else {
            return Refusal::Fault(ScriptFault { line });
        };
        if statement.is_setting() {
            return Refusal::Fault(ScriptFault { line });
        }
        rest = below;
        line += 1;
    }
    Refusal::NoMemory
}
