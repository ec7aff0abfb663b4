//! Keys of signature files, by the names of their files.

ghost use Rattle.std.specs.Prelude.{◌≡◌, IfErr, IfOk, IfSome, IsOkAnd, IsSome, None};
ghost use Rattle.av_status.specs.Status.{IsFault};
ghost use Rattle.av_status.specs.declared.status.Status.TheVariants.{Refused};

use crate::reading::{Source, open_file, say_why};
use av_base::device::read_into;
use av_files::TURNS;
use av_status::Status;
use av_status::faults::{say_of, text, unreadable};
use av_trust::{Key, KeyFault, LONGEST_KEY};
use std::alloc::Global;
use std::fs::OpenFile;
use std::io::{Read, Write};
use std::os::unix::fs::PermissionsExt;

// What others may not have of a key's file: any right, and its group none to change it.
const OF_OTHERS: u32 = 0o027;

/// The key that is asked for, where one is.
pub fn key_asked<E: Write>(
    rt: &HostRuntime,
    alloc: Global,
    name: Option<&str>,
    err: &mut E,
) -> Result<Option<Key>, Status>
    ensures none { name.entry ≡ None → IsOkAnd result (λ key. key ≡ None) }
    ensures some { IfSome name.entry (λ _. IfOk result (λ key. IsSome key)) }
    ensures status { IfErr result (λ status. IsFault status) }
{
    match name {
        Some(name) => match key_named(rt, alloc, name, err) {
            Ok(key) => Ok(Some(key)),
            Err(status) => Err(status),
        },
        None => Ok(None),
    }
}

/// The key in the file of this name. Where there is none, one line to `err` says why: the file can't be read, others may read or change
/// it, it has too few bytes or too many, in this order.
pub fn key_named<E: Write>(
    rt: &HostRuntime,
    alloc: Global,
    name: &str,
    err: &mut E,
) -> Result<Key, Status>
    ensures { IfErr result (λ status. IsFault status) }
{
    let Some(mut file) = open_file(rt, name) else {
        let status = unreadable(err, name);
        say_why(rt, alloc, name, Source::Other, err);
        return Err(status);
    };
    let Ok(metadata) = file.metadata() else {
        return Err(unreadable(err, name));
    };
    if metadata.permissions().mode() & OF_OTHERS != 0 {
        return Err(key_refused(
            err,
            name,
            ": others may read or change this key (chmod 600)",
        ));
    }
    read_key(&mut file, name, err)
}

// The key that a reader has left.
fn read_key<R: Read, E: Write>(reader: &mut R, name: &str, err: &mut E) -> Result<Key, Status>
    ensures { IfErr result (λ status. IsFault status) }
{
    let mut buffer = [0u8; LONGEST_KEY + 2];
    let mut front = reader.take(LONGEST_KEY as u64 + 1);
    let Ok(count) = read_into(&mut front, &mut buffer, TURNS) else {
        return Err(unreadable(err, name));
    };
    match Key::new(&buffer[..count]) {
        Ok(key) => Ok(key),
        Err(KeyFault::TooShort) => Err(key_refused(err, name, ": a key has at least 32 bytes")),
        Err(KeyFault::TooLong) => Err(key_refused(err, name, ": a key has at most 64 bytes")),
    }
}

fn key_refused<E: Write>(err: &mut E, name: &str, why: &'static str) -> Status
    ensures { result ≡ Refused }
{
    say_of(err, name, &[text(why)]);
    Status::Refused
}
