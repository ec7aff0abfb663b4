ghost use Rattle.std.specs.Prelude.{◌≡◌, []};
ghost use Rattle.av_status.specs.Status.{IsFault};

use av_json::{LineFault, Writer};
use av_status::faults::{device_failed, out_of_memory};
use av_status::status::Status;
use std::alloc::Global;
use std::io::Write;
use std::mem;

/// A line of which nothing was put, in the memory of the one before.
pub fn new_line(alloc: Global, room: &mut Vec<u8>) -> Writer
    ensures before { result.before ≡ [] }
    ensures tokens { result.tokens ≡ [] }
{
    let mut text = mem::replace(room, Vec::new(alloc));
    text.clear();
    Writer::new(text)
}

/// Says why a line was not written.
pub fn line_failed<E: Write>(err: &mut E, fault: LineFault) -> Status
    ensures { IsFault result }
{
    match fault {
        LineFault::NoMemory => out_of_memory(err),
        LineFault::Write => device_failed(err),
    }
}
