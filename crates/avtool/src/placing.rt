//! Files that are written in one step: beside their place first, and put there once they are whole.

ghost use Rattle.av_status.specs.Status.{IsDoneOrFault};

use av_program::{reasons, say_error};
use av_status::faults::{out_of_memory, say_of, text};
use av_status::status::Status;
use std::alloc::Global;
use std::fs::{OpenFile, OpenOptions};
use std::io::Write;
use std::{fs, io};

/// Makes the file of this content at a path, in one step. Where that fails the file that was there is as it was, and a line to `err`
/// says so.
pub fn put_content<E: Write>(
    rt: &HostRuntime,
    alloc: Global,
    path: &str,
    content: &[u8],
    err: &mut E,
) -> Status
    ensures { IsDoneOrFault result }
{
    let Ok(beside) = format!(in alloc; "{path}.new") else {
        return out_of_memory(err);
    };
    match put_file(rt, path, beside.as_str(), content) {
        Ok(()) => Status::Done,
        Err(error) => {
            say_of(err, path, &[text(": cannot write")]);
            say_error(alloc, reasons(rt), path, error, err);
            Status::Device
        }
    }
}

// Makes the file of this content at a path, in one step: it is written beside its place first.
fn put_file(rt: &HostRuntime, path: &str, beside: &str, content: &[u8]) -> io::Result<()> {
    let mut how = OpenOptions::new();
    let _ = how.write(true).create(true).truncate(true);
    let file = how.open(rt, beside)?;
    let put = fill(file, content).and_then(|()| fs::rename(rt, beside, path));
    if put.is_err() {
        let _ = fs::remove_file(rt, beside);
    }
    put
}

// Writes all of a file.
fn fill<F: OpenFile + Write + Drop>(mut file: F, content: &[u8]) -> io::Result<()> {
    file.write_all(content)?;
    file.sync_all()
}
