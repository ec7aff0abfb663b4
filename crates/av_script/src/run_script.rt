ghost use Rattle.std.specs.Prelude.{◌≡◌, ◌≤◌, ◌++◌, is_ok, length, IfErr, IfOk, IfSome, Ok, OnOk, OnErr};
ghost use Rattle.av_base.specs.Device.{Writes};
ghost use Rattle.av_script.specs.Output.{IsFrontOfRead, IsLate, IsOfRead, IsOfReads, IsTrueOf, IsUnwritten, KeepsEarly, Prints, PrintsFront};
ghost use Rattle.av_script.specs.CommandText.{boot_text, command_text, command_world, commands_text, script_text, step_text};
ghost use Rattle.av_script.specs.Script.{script_of};
ghost use Rattle.av_history.specs.World.{after, step_of};

use crate::command::Command;
use crate::script::{Script, parse_script};
use av_base::device::write_text;
use av_base::recorded::{RecordedRead, read_whole};
use av_base::{ReadFault, Refusal, WriteFault};
use av_history::event::Event;
use av_output::judgement::print_judged;
use av_output::refusal::print_refused;
use av_world::world::World;
use std::alloc::Global;
use std::collections::VecDeque;
use std::io::Write;
use thiserror::Error;

/// The most bytes of a script.
pub const MAX_SCRIPT: usize = 1_048_576;

/// Why a script did not run to its end.
#[derive(Clone, Copy, Debug, PartialEq, Eq, Error)]
pub enum RunFault {
    /// The script was not read: a read failed, or as many were made as were allowed. Nothing was written.
    #[error("device")]
    Read,
    /// The script is longer than 1,048,576 bytes. Nothing was written.
    #[error("script too long")]
    TooLong,
    /// This line is the first that is none of a script. Nothing was written.
    #[error("line {line}: bad script")]
    BadScript { line: u64 },
    /// Memory was refused. A front of the output may have been written.
    #[error("no memory")]
    NoMemory,
    /// A write failed, or took no byte. A front of the output was written.
    #[error("device")]
    Write,
}

/// Reads a script whole and writes the lines that it prints, and nothing else. Where that fails a front of these lines
/// was written, and none where the script was not read or is bad.
pub fn run_script<R: RecordedRead, W: Write>(
    alloc: Global,
    reader: &mut R,
    writer: &mut W,
    turns: u64,
) -> Result<(), RunFault>
    ensures ok { OnOk result (IsOfRead (R.remaining reader.old) (Prints (W.contents writer.old) (W.contents writer.new))) }
    ensures err { OnErr result (IsFrontOfRead (R.remaining reader.old) (W.contents writer.old) (W.contents writer.new) (PrintsFront (W.contents writer.old) (W.contents writer.new))) }
    ensures fault { IfErr result (λ f. IfSome (R.remaining reader.old) (IsTrueOf f)) }
    ensures device { IfErr result (λ f. IsOfReads f (R.has_failed reader.new) turns (R.reads reader.old) (R.reads reader.new)) }
    ensures early { IfErr result (λ f. KeepsEarly f (W.contents writer.old) (W.contents writer.new)) }
{
    let (_text, script) = read_script(alloc, reader, turns)?;
    print_script(alloc, script, writer)
}

/// Reads a script whole, and gives its text and what it says.
pub fn read_script<R: RecordedRead>(
    alloc: Global,
    reader: &mut R,
    turns: u64,
) -> Result<(Vec<u8>, Script), RunFault>
    ensures text { IfOk result (λ p. IfSome (R.remaining reader.old) (λ input. p.0.items ≡ input)) }
    ensures script { IfOk result (λ p. script_of p.0.items ≡ Ok p.1) }
    ensures bound { IfOk result (λ p. length p.0.items ≤ MAX_SCRIPT) }
    ensures fault { IfErr result (λ f. IfSome (R.remaining reader.old) (IsTrueOf f)) }
    ensures device { IfErr result (λ f. IsOfReads f (R.has_failed reader.new) turns (R.reads reader.old) (R.reads reader.new)) }
    ensures unwritten { IfErr result IsUnwritten }
{
    let text = match read_whole(alloc, reader, MAX_SCRIPT, turns) {
        Ok(text) => text,
        Err(ReadFault::Device) => return Err(RunFault::Read),
        Err(ReadFault::TooLong) => return Err(RunFault::TooLong),
        Err(ReadFault::NoMemory) => return Err(RunFault::NoMemory),
    };
    match parse_script(alloc, &text) {
        Ok(script) => Ok((text, script)),
        Err(Refusal::Fault(fault)) => Err(RunFault::BadScript { line: fault.line }),
        Err(Refusal::NoMemory) => Err(RunFault::NoMemory),
    }
}

// Writes the lines of a script.
fn print_script<W: Write>(alloc: Global, script: Script, writer: &mut W) -> Result<(), RunFault>
    ensures writes { Writes result (W.contents writer.old) (W.contents writer.new) (script_text script) }
    ensures late { IfErr result IsLate }
{
    let Ok(mut world) = World::new(alloc, script.number(), script.mode(), script.limits()) else {
        return Err(RunFault::NoMemory);
    };
    let ran = run_from_boot(alloc, &mut world, script.into_commands(), writer);
    world.close();
    ran
}

// Writes the line of the volume, runs commands in turn and writes their lines.
fn run_from_boot<W: Write>(
    alloc: Global,
    world: &mut World,
    commands: VecDeque<Command>,
    writer: &mut W,
) -> Result<(), RunFault>
    ensures writes { Writes result (W.contents writer.old) (W.contents writer.new) (boot_text ++ commands_text world.old commands.items) }
    ensures late { IfErr result IsLate }
{
    if write_text(writer, b"boot 1\n").is_err() {
        return Err(RunFault::Write);
    }
    run_commands(alloc, world, commands, writer)
}

// Runs commands in turn and writes their lines.
fn run_commands<W: Write>(
    alloc: Global,
    world: &mut World,
    mut commands: VecDeque<Command>,
    writer: &mut W,
) -> Result<(), RunFault>
    ensures writes { Writes result (W.contents writer.old) (W.contents writer.new) (commands_text world.old commands.items) }
    ensures late { IfErr result IsLate }
{
    'commands: while let Some(command) = commands.pop_front() {
        run_command(alloc, world, command, writer)?;
    }
    if writer.flush().is_err() {
        return Err(RunFault::Write);
    }
    Ok(())
}

// Runs a command and writes its line.
fn run_command<W: Write>(
    alloc: Global,
    world: &mut World,
    command: Command,
    writer: &mut W,
) -> Result<(), RunFault>
    ensures world { OnOk result (world.new ≡ command_world world.old command) }
    ensures writes { Writes result (W.contents writer.old) (W.contents writer.new) (command_text world.old command) }
    ensures late { IfErr result IsLate }
{
    match command {
        Command::Step(event) => run_step(alloc, world, event, writer),
        Command::Judge { name } => written(match world.judge(name.as_slice()) {
            Ok(judged) => print_judged(&judged, writer),
            Err(fault) => print_refused(fault.word(), writer),
        }),
    }
}

// Lets an event happen and writes its line.
fn run_step<W: Write>(
    alloc: Global,
    world: &mut World,
    event: Event,
    writer: &mut W,
) -> Result<(), RunFault>
    ensures world { OnOk result (world.new ≡ after world.old event) }
    ensures writes { Writes result (W.contents writer.old) (W.contents writer.new) (step_text (step_of world.old event)) }
    ensures late { IfErr result IsLate }
{
    match world.step(alloc, event) {
        Ok(report) => written(world.print(&report, writer)),
        Err(refused) => match refused.why {
            Refusal::Fault(fault) => written(print_refused(fault.word(), writer)),
            Refusal::NoMemory => Err(RunFault::NoMemory),
        },
    }
}

fn written(outcome: Result<(), WriteFault>) -> Result<(), RunFault>
    ensures ok { is_ok result ≡ is_ok outcome }
    ensures late { IfErr result IsLate }
{
    match outcome {
        Ok(()) => Ok(()),
        Err(_) => Err(RunFault::Write),
    }
}
