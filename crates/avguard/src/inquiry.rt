//! One file that a guard is asked about.

ghost use Rattle.std.specs.Prelude.{◌≡◌, ◌+◌, length, IfErr, OnOk};
ghost use Rattle.av_client.specs.Asking.{AreAtTheirTags, IsOwedEach};
ghost use Rattle.av_status.specs.Status.{IsFault};
ghost use Rattle.av_status.specs.declared.status.Status.TheVariants.{Device};
ghost use Rattle.avguard.specs.Ask.{failed_of};

use crate::guarding::Guards;
use av_client::{Asker, AskingFault, Reply, Way};
use av_paths::{ask_content, kept_size, manner_of, way_again};
use av_program::{Source, open_file, open_met, say_why};
use av_sockets::SocketFault;
use av_sockets::fault::socket_failed;
use av_status::faults::{out_of_memory, say_of, text, too_large, unreadable};
use av_status::{Progress, Status};
use avguard_words::Ask;
use std::alloc::Global;
use std::fs::File;
use std::io::Write;

// What is asked, and the system that it is asked on.
#[derive(Drop)]
pub(crate) struct Asking<'a, R> {
    pub rt: &'a HostRuntime,
    pub system: &'a R,
    pub alloc: Global,
    pub asked: &'a Ask<'a>,
}

// A file that is asked about.
#[derive(Drop)]
pub(crate) struct Found {
    pub name: String,
    pub source: Source,
}

// Why a file was not asked about, and whether no other can be.
#[derive(Clone, Copy)]
pub(crate) struct Failed {
    pub status: Status,
    pub is_last: bool,
}

// Asks about a file. Where the guard says that it is to be asked again, it is opened anew and asked about from its beginning, up to three
// times.
pub(crate) fn ask_one<R: Guards, E: Write>(
    asking: &Asking<'_, R>,
    asker: &mut Asker<'_, R>,
    file: &Found,
    buffer: &mut [u8],
    err: &mut Progress<'_, HostRuntime, E>,
) -> Result<(), Failed>
    ensures asked { OnOk result (length asker.new.answers.items ≡ length asker.old.answers.items + 1) }
    ensures failed { IfErr result (λ failed. IsFault failed.status) }
    ensures tags { AreAtTheirTags asker.old.answers.items → AreAtTheirTags asker.new.answers.items }
    ensures owed { IsOwedEach asker.old.owed asker.old.answers.items → IsOwedEach asker.new.owed asker.new.answers.items }
{
    let way = if asker.takes_parts() {
        Way::Parts
    } else {
        Way::One
    };
    let mut size = ask_once(asking, asker, file, way, buffer, err)?;
    'tries: for tries in 0..u32::MAX {
        let Some(way) = way_again(asker.answers(), tries, size) else {
            break;
        };
        if asker.forget_last().is_none() {
            break;
        }
        size = ask_once(asking, asker, file, way, buffer, err)?;
    }
    Ok(())
}

// Opens a file and asks about it, from its beginning. It gives the file's size where it can be had once more.
fn ask_once<R: Guards, E: Write>(
    asking: &Asking<'_, R>,
    asker: &mut Asker<'_, R>,
    file: &Found,
    way: Way,
    buffer: &mut [u8],
    err: &mut Progress<'_, HostRuntime, E>,
) -> Result<Option<u64>, Failed>
    ensures asked { OnOk result (length asker.new.answers.items ≡ length asker.old.answers.items + 1) }
    ensures failed { IfErr result (λ failed. IsFault failed.status) }
    ensures tags { AreAtTheirTags asker.old.answers.items → AreAtTheirTags asker.new.answers.items }
    ensures owed { IsOwedEach asker.old.owed asker.old.answers.items → IsOwedEach asker.new.owed asker.new.answers.items }
{
    let name = file.name.as_str();
    let Some(content) = open_found(asking.rt, file) else {
        return Err(unread(asking, file, err));
    };
    let size = kept_size(&content);
    match ask_content(asker, name, content, manner_of(way, size), buffer) {
        Ok(()) => Ok(size),
        Err(AskingFault::Unread) => Err(unread(asking, file, err)),
        Err(fault) => Err(asking_failed(err, asking.asked.opens, name, fault, asker.answers())),
    }
}

fn open_found(rt: &HostRuntime, file: &Found) -> Option<File> {
    match file.source {
        Source::Met => open_met(rt, file.name.as_str()),
        _ => open_file(rt, file.name.as_str()),
    }
}

// A file could not be read.
fn unread<R: Guards, E: Write>(
    asking: &Asking<'_, R>,
    file: &Found,
    err: &mut Progress<'_, HostRuntime, E>,
) -> Failed
    ensures { IsFault result.status }
{
    let name = file.name.as_str();
    let status = unreadable(err, name);
    say_why(asking.rt, asking.alloc, name, file.source, err);
    Failed {
        status,
        is_last: false,
    }
}

// Says why a file, or any from here on, is not answered, by what was answered before.
pub(crate) fn asking_failed<E: Write>(
    err: &mut E,
    socket: &str,
    name: &str,
    fault: AskingFault,
    answers: &[Option<Reply>],
) -> Failed
    ensures { result ≡ failed_of fault }
{
    match fault {
        AskingFault::TooLarge => Failed {
            status: too_large(err, name),
            is_last: false,
        },
        AskingFault::Unread => Failed {
            status: unreadable(err, name),
            is_last: false,
        },
        AskingFault::Memory => Failed {
            status: out_of_memory(err),
            is_last: true,
        },
        AskingFault::Lost => Failed {
            status: guard_lost(err, socket, answers),
            is_last: true,
        },
    }
}

// The guard went away. One that has as many clients as it can have closes the connection of the next one unheard.
fn guard_lost<E: Write>(err: &mut E, socket: &str, answers: &[Option<Reply>]) -> Status
    ensures { result ≡ Device }
{
    if answers.iter().any(|answer| answer.is_some()) {
        return socket_failed(err, socket, SocketFault::GuardLost);
    }
    let why = text(": the guard gave no answer: it was lost, or has no room for another client");
    say_of(err, socket, &[why]);
    Status::Device
}
