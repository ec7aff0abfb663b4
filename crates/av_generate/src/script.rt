ghost use Rattle.std.specs.Prelude.{◌≡◌, ◌++◌, IfOk, OnOk};
ghost use Rattle.std.specs.String.{string_bytes};
ghost use Rattle.av_base.specs.Device.{Writes};
ghost use Rattle.av_generate.specs.Head.{headed_as};
ghost use Rattle.av_generate.specs.Generated.{behind_head, generated, line_drawn, lines_drawn};

use crate::draws::Draws;
use crate::generator::Generator;
use crate::head::{Head, head_drawn};
use crate::profile::Profile;
use av_base::device::write_text;
use av_world::World;
use std::alloc::{AllocError, Global};
use std::io::Write;
use thiserror::Error;

/// Why a script was not written to its end.
#[derive(Clone, Copy, Debug, PartialEq, Eq, Error)]
pub enum GenerateFault {
    /// Memory was refused. A front of the script may have been written.
    #[error("no memory")]
    NoMemory,
    /// A write failed, or took no byte. A front of the script was written.
    #[error("device")]
    Write,
}

/// Writes the script of a seed: its limits and its volume line, and then so many commands, each a line. The same seed,
/// profile and number of commands give the same script. Where that fails a front of it was written.
#[tactic(auto, unfolding(crate::specs::Generated::generated))]
pub fn write_script<W: Write>(
    alloc: Global,
    seed: u64,
    commands: u64,
    profile: Profile,
    writer: &mut W,
) -> Result<(), GenerateFault>
    ensures { Writes result (W.contents writer.old) (W.contents writer.new) (generated seed commands profile) }
{
    let mut draws = Draws::new(seed);
    let Ok(head) = head_drawn(alloc, &mut draws) else {
        return Err(GenerateFault::NoMemory);
    };
    write_behind(alloc, head, draws, commands, profile, writer)
}

// Writes a head and the script behind it.
fn write_behind<W: Write>(
    alloc: Global,
    head: Head,
    draws: Draws,
    commands: u64,
    profile: Profile,
    writer: &mut W,
) -> Result<(), GenerateFault>
    ensures { Writes result (W.contents writer.old) (W.contents writer.new) (behind_head profile commands (headed_as head draws)) }
{
    let Ok(mut generator) = Generator::new(alloc, profile, draws) else {
        return Err(GenerateFault::NoMemory);
    };
    let Ok(mut world) = World::new(alloc, 1, head.mode, head.limits) else {
        return Err(GenerateFault::NoMemory);
    };
    let text = head.text.as_bytes();
    let written = write_whole(alloc, text, &mut generator, &mut world, commands, writer);
    world.close();
    written
}

// Writes the text of a head, and so many commands behind it.
fn write_whole<W: Write>(
    alloc: Global,
    text: &[u8],
    generator: &mut Generator,
    world: &mut World,
    commands: u64,
    writer: &mut W,
) -> Result<(), GenerateFault>
    ensures { Writes result (W.contents writer.old) (W.contents writer.new)
        (text.now ++ lines_drawn commands generator.old world.old) }
{
    if write_text(writer, text).is_err() {
        return Err(GenerateFault::Write);
    }
    write_lines(alloc, generator, world, commands, writer)
}

// Writes the lines of so many commands.
fn write_lines<W: Write>(
    alloc: Global,
    generator: &mut Generator,
    world: &mut World,
    commands: u64,
    writer: &mut W,
) -> Result<(), GenerateFault>
    ensures { Writes result (W.contents writer.old) (W.contents writer.new)
        (lines_drawn commands generator.old world.old) }
{
    let mut left = commands;
    'lines: while left > 0 {
        write_line(alloc, generator, world, writer)?;
        left -= 1;
    }
    if writer.flush().is_err() {
        return Err(GenerateFault::Write);
    }
    Ok(())
}

// Writes the line of the next command, which then happens.
fn write_line<W: Write>(
    alloc: Global,
    generator: &mut Generator,
    world: &mut World,
    writer: &mut W,
) -> Result<(), GenerateFault>
    ensures state { OnOk result ((generator.new, world.new) ≡ (line_drawn generator.old world.old).1) }
    ensures writes { Writes result (W.contents writer.old) (W.contents writer.new) (line_drawn generator.old world.old).0 }
{
    let Ok(line) = line_drawn(alloc, generator, world) else {
        return Err(GenerateFault::NoMemory);
    };
    if write_text(writer, line.as_bytes()).is_err() {
        return Err(GenerateFault::Write);
    }
    Ok(())
}

// The line of the next command, which happens.
#[tactic(auto, unfolding(crate::specs::Generated::line_drawn))]
fn line_drawn(
    alloc: Global,
    generator: &mut Generator,
    world: &mut World,
) -> Result<String, AllocError>
    ensures { IfOk result (λ t. (string_bytes t, (generator.new, world.new)) ≡ line_drawn generator.old world.old) }
{
    let mut text = generator.words(alloc, world)?;
    generator.follow(alloc, world, text.as_bytes())?;
    text.push_str("\n")?;
    Ok(text)
}
