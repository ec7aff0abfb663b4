//! A guard by a configuration file, and a look at one.

ghost use Rattle.std.specs.Prelude.{IfErr};
ghost use Rattle.av_status.specs.Status.{IsFault};

use crate::guarding::{Guards, guard_named};
use av_base::ReadFault;
use av_base::device::write_text;
use av_base::recorded::{Recorded, read_whole};
use av_files::TURNS;
use av_program::{Source, open_file, say_why};
use av_status::faults::{device_failed, out_of_memory, unreadable};
use av_status::{Prefixed, Status};
use avguard_words::{
    Configured, Guard, MAX_CONFIG, NOTHING_SAID, config_lines, config_table, config_too_long,
    configured,
};
use std::alloc::Global;
use std::io::Write;

/// Guards as words say, and as a configuration file does where they say nothing. A file that can't be read, or is bad, ends it before
/// a socket is made.
pub fn guard_configured<R: Guards, E: Write>(
    rt: &HostRuntime,
    system: &R,
    alloc: Global,
    asked: Configured<'_>,
    err: &mut Prefixed<E>,
) -> Status
    ensures { IsFault result }
{
    let text = match config_text(rt, alloc, asked.config, err) {
        Ok(text) => text,
        Err(status) => return status,
    };
    let table = match config_table(alloc, asked.config, text.as_slice(), err) {
        Ok(table) => table,
        Err(status) => return status,
    };
    match configured(alloc, asked, text.as_slice(), &table, err) {
        Ok(guard) => guard_named(rt, system, alloc, guard, err),
        Err(status) => status,
    }
}

/// Prints how a guard would be run with a configuration file alone.
pub fn check_config<W: Write, E: Write>(
    rt: &HostRuntime,
    alloc: Global,
    file: &str,
    out: &mut W,
    err: &mut E,
) -> Status {
    let text = match config_text(rt, alloc, file, err) {
        Ok(text) => text,
        Err(status) => return status,
    };
    let table = match config_table(alloc, file, text.as_slice(), err) {
        Ok(table) => table,
        Err(status) => return status,
    };
    let asked = Configured {
        config: file,
        words: NOTHING_SAID,
    };
    match configured(alloc, asked, text.as_slice(), &table, err) {
        Ok(guard) => print_config(alloc, guard, out, err),
        Err(status) => status,
    }
}

fn print_config<W: Write, E: Write>(
    alloc: Global,
    guard: Guard<'_>,
    out: &mut W,
    err: &mut E,
) -> Status {
    let Ok(lines) = config_lines(alloc, guard) else {
        return out_of_memory(err);
    };
    if write_text(out, lines.as_bytes()).is_err() || out.flush().is_err() {
        return device_failed(err);
    }
    Status::Done
}

// The text of a configuration file.
fn config_text<E: Write>(
    rt: &HostRuntime,
    alloc: Global,
    path: &str,
    err: &mut E,
) -> Result<Vec<u8>, Status>
    ensures { IfErr result (λ status. IsFault status) }
{
    let Some(file) = open_file(rt, path) else {
        let status = unreadable(err, path);
        say_why(rt, alloc, path, Source::Other, err);
        return Err(status);
    };
    match read_whole(alloc, &mut Recorded::new(file), MAX_CONFIG, TURNS) {
        Ok(text) => Ok(text),
        Err(ReadFault::TooLong) => Err(config_too_long(err, path)),
        Err(ReadFault::NoMemory) => Err(out_of_memory(err)),
        Err(ReadFault::Device) => Err(unreadable(err, path)),
    }
}
