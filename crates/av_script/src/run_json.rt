ghost use Rattle.std.specs.Prelude.{◌≡◌, ◌+◌, ◌<◌, ◌^◌, ◌++◌, [], true, Some, length, IfErr, IfOk, IfSome, OnOk, OnErr};
ghost use Rattle.av_base.specs.Device.{Writes};
ghost use Rattle.av_base.specs.Line.{lines_of};
ghost use Rattle.av_json.specs.Member.{Puts};
ghost use Rattle.av_output.specs.Objects.{report_tokens};
ghost use Rattle.av_script.specs.CommandObjects.{command_tokens, did, line_object, lines_json, refused, said_json, said_tokens, said_world, step_tokens, told_by};
ghost use Rattle.av_output.specs.Objects.Lines.{judged_tokens, line_tokens};
ghost use Rattle.av_script.specs.Output.{IsFrontOfRead, IsLate, IsOfRead, IsOfReads, IsTrueOf, KeepsEarly, PrintsJson, PrintsJsonFront};
ghost use Rattle.av_script.specs.Script.Grammar.{line_of};
ghost use Rattle.av_script.specs.Script.Statement.{is_told, meaning};
ghost use Rattle.av_history.specs.declared.report.Line.TheVariants.{Booted};
ghost use Rattle.av_script.specs.CommandText.{command_world};
ghost use Rattle.av_history.specs.World.{after, step_of};

use crate::command::Command;
use crate::reading::read_statement;
use crate::run_script::{RunFault, read_script};
use crate::statement::Statement;
use av_base::Refusal;
use av_base::line::first_line;
use av_base::recorded::RecordedRead;
use av_history::event::Event;
use av_history::report::{Judged, Line, Report};
use av_json::{LineFault, Member, put_members, put_named, write_line};
use av_output::objects::line::{put_judged, put_line};
use av_world::world::World;
use json::Writer;
use std::alloc::{AllocError, Global};
use std::io::Write;

/// Reads a script whole and writes an object for its volume line and for each of its commands, a line each, and nothing else.
/// Where that fails a front of these lines was written, and none where the script was not read or is bad.
pub fn run_json<R: RecordedRead, W: Write>(
    alloc: Global,
    reader: &mut R,
    writer: &mut W,
    turns: u64,
) -> Result<(), RunFault>
    ensures ok { OnOk result (IsOfRead (R.remaining reader.old) (PrintsJson (W.contents writer.old) (W.contents writer.new))) }
    ensures err { OnErr result (IsFrontOfRead (R.remaining reader.old) (W.contents writer.old) (W.contents writer.new) (PrintsJsonFront (W.contents writer.old) (W.contents writer.new))) }
    ensures fault { IfErr result (λ f. IfSome (R.remaining reader.old) (IsTrueOf f)) }
    ensures device { IfErr result (λ f. IsOfReads f (R.has_failed reader.new) turns (R.reads reader.old) (R.reads reader.new)) }
    ensures early { IfErr result (λ f. KeepsEarly f (W.contents writer.old) (W.contents writer.new)) }
{
    let (text, script) = read_script(alloc, reader, turns)?;
    let Ok(mut world) = World::new(alloc, script.number(), script.mode(), script.limits()) else {
        return Err(RunFault::NoMemory);
    };
    let ran = run_lines(alloc, &mut world, &text, writer);
    world.close();
    ran
}

// Runs the lines of a script's text in turn, and writes their objects.
fn run_lines<W: Write>(
    alloc: Global,
    world: &mut World,
    text: &[u8],
    writer: &mut W,
) -> Result<(), RunFault>
    requires { 1 + length text.now < 2 ^ 64 }
    ensures writes { Writes result (W.contents writer.old) (W.contents writer.new) (lines_json world.old 1 (lines_of text.now)) }
    ensures late { IfErr result IsLate }
{
    let mut room = Vec::new(alloc);
    let mut rest = text;
    let mut number = 1u64;
    'lines: while !rest.is_empty() {
        let (first, below) = first_line(rest);
        let line = SourceLine {
            number,
            text: first,
        };
        room = run_line(alloc, world, line, room, writer)?;
        rest = below;
        number += 1;
    }
    if writer.flush().is_err() {
        return Err(RunFault::Write);
    }
    Ok(())
}

// A line of a script and its number, from 1 on.
#[derive(Clone, Copy)]
struct SourceLine<'a> {
    number: u64,
    text: &'a [u8],
}

// Runs a line of a script and writes its object, if it has one; gives back the room, emptied.
fn run_line<W: Write>(
    alloc: Global,
    world: &mut World,
    line: SourceLine<'_>,
    room: Vec<u8>,
    writer: &mut W,
) -> Result<Vec<u8>, RunFault>
    requires { room.items ≡ [] }
    ensures world { OnOk result (world.new ≡ said_world world.old (line_of line.entry.text.now)) }
    ensures writes { Writes result (W.contents writer.old) (W.contents writer.new)
        (said_json line.entry.number line.entry.text.now (said_tokens world.old (line_of line.entry.text.now))) }
    ensures late { IfErr result IsLate }
    ensures emptied { IfOk result (λ left. left.items ≡ []) }
{
    match read_statement(line.text) {
        Some(statement) if statement.is_told() => {
            run_statement(alloc, world, line, statement, room, writer)
        }
        _ => Ok(room),
    }
}

// Runs a statement that does something and writes its object; gives back the room, emptied.
fn run_statement<W: Write>(
    alloc: Global,
    world: &mut World,
    line: SourceLine<'_>,
    statement: Statement<'_>,
    room: Vec<u8>,
    writer: &mut W,
) -> Result<Vec<u8>, RunFault>
    requires empty { room.items ≡ [] }
    requires told { is_told (meaning statement) ≡ true }
    ensures world { OnOk result (world.new ≡ said_world world.old (Some (meaning statement.entry))) }
    ensures writes { Writes result (W.contents writer.old) (W.contents writer.new)
        (said_json line.entry.number line.entry.text.now (said_tokens world.old (Some (meaning statement.entry)))) }
    ensures late { IfErr result IsLate }
    ensures emptied { IfOk result (λ left. left.items ≡ []) }
{
    let SourceLine { number, text } = line;
    let mut object = Writer::new(room);
    if put_line_object(alloc, world, number, text, statement, &mut object).is_err() {
        return Err(RunFault::NoMemory);
    }
    match write_line(object, writer) {
        Ok(room) => Ok(room),
        Err(LineFault::NoMemory) => Err(RunFault::NoMemory),
        Err(LineFault::Write) => Err(RunFault::Write),
    }
}

// Runs a statement and puts its object.
fn put_line_object(
    alloc: Global,
    world: &mut World,
    number: u64,
    text: &[u8],
    statement: Statement<'_>,
    line: &mut Writer,
) -> Result<(), AllocError>
    requires { is_told (meaning statement) ≡ true }
    ensures world { OnOk result (world.new ≡ said_world world.old (Some (meaning statement.entry))) }
    ensures before { line.new.before ≡ line.old.before }
    ensures tokens { OnOk result (line.new.tokens ≡ line.old.tokens
        ++ line_object number text.now (told_by world.old (meaning statement.entry))) }
{
    line.begin_object()?;
    put_members(line, &[Member::Number("line", number)])?;
    put_named(alloc, line, "command", "command_hex", text)?;
    put_statement(alloc, world, statement, line)?;
    line.end_object()
}

// Runs a statement and puts what it did.
fn put_statement(
    alloc: Global,
    world: &mut World,
    statement: Statement<'_>,
    line: &mut Writer,
) -> Result<(), AllocError>
    requires { is_told (meaning statement) ≡ true }
    ensures world { OnOk result (world.new ≡ said_world world.old (Some (meaning statement.entry))) }
    ensures tokens { Puts result line.old line.new (told_by world.old (meaning statement.entry)) }
{
    match statement.command(alloc)? {
        Some(command) => put_command(alloc, world, command, line),
        None => put_boot(line),
    }
}

// Puts that the filter was mounted once.
fn put_boot(line: &mut Writer) -> Result<(), AllocError>
    ensures { Puts result line.old line.new (did (line_tokens (Booted 1))) }
{
    line.key("did")?;
    line.begin_array()?;
    put_line(&Line::Booted { boot: 1 }, line)?;
    line.end_array()
}

// Runs a command and puts what it did.
fn put_command(
    alloc: Global,
    world: &mut World,
    command: Command,
    line: &mut Writer,
) -> Result<(), AllocError>
    ensures world { OnOk result (world.new ≡ command_world world.old command) }
    ensures tokens { Puts result line.old line.new (command_tokens world.old command) }
{
    match command {
        Command::Step(event) => put_step(alloc, world, event, line),
        Command::Judge { name } => match world.judge(name.as_slice()) {
            Ok(judged) => put_verdict(&judged, line),
            Err(fault) => put_refused(fault.word(), line),
        },
    }
}

// Lets an event happen and puts what it did.
fn put_step(
    alloc: Global,
    world: &mut World,
    event: Event,
    line: &mut Writer,
) -> Result<(), AllocError>
    ensures world { OnOk result (world.new ≡ after world.old event) }
    ensures tokens { Puts result line.old line.new (step_tokens (step_of world.old event)) }
{
    match world.step(alloc, event) {
        Ok(report) => put_did(alloc, world, &report, line),
        Err(refused) => match refused.why {
            Refusal::Fault(fault) => put_refused(fault.word(), line),
            Refusal::NoMemory => Err(AllocError),
        },
    }
}

fn put_did(
    alloc: Global,
    world: &World,
    report: &Report,
    line: &mut Writer,
) -> Result<(), AllocError>
    ensures { Puts result line.old line.new (did (report_tokens world.now report.now)) }
{
    line.key("did")?;
    line.begin_array()?;
    world.put(alloc, report, line)?;
    line.end_array()
}

fn put_verdict(judged: &Judged, line: &mut Writer) -> Result<(), AllocError>
    ensures { Puts result line.old line.new (did (judged_tokens judged.now)) }
{
    line.key("did")?;
    line.begin_array()?;
    put_judged(judged, line)?;
    line.end_array()
}

fn put_refused(word: &str, line: &mut Writer) -> Result<(), AllocError>
    ensures { Puts result line.old line.new (refused word.now) }
{
    put_members(line, &[Member::Text("refused", word)])
}
