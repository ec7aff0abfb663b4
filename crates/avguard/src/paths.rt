//! Opens paths for clients of clamd.

ghost use Rattle.std.specs.Prelude.{◌≡◌, IfErr};
ghost use Rattle.av_status.specs.Status.{IsFault};
ghost use Rattle.av_status.specs.declared.status.Status.TheVariants.{Usage};

use crate::guarding::Guards;
use av_paths::{Opening, Opens, is_plain, open_paths};
use av_status::Status;
use av_status::faults::{say_of, text};
use avguard_words::Paths;
use std::alloc::Global;
use std::io::Write;
use std::thread::Threads;

/// A system on which any of the commands runs.
pub trait Systems: Guards + Threads + Sync {}

impl<R: Guards + Threads + Sync> Systems for R {}

/// Opens paths for clients until the process is ended. Each folder has to be an absolute path.
pub fn open_named<R: Opens + Threads + Sync, E: Write>(
    system: &R,
    alloc: Global,
    asked: &Paths<'_>,
    err: &mut E,
) -> Status
where
    R::File: Send,
    R::Dir: Send,
    R::Stream: Send,
    R::Listener: Send,
    ensures { IsFault result }
{
    match check_folders(asked.below.as_slice(), err) {
        Ok(()) => open_paths(system, alloc, opening(asked), err),
        Err(status) => status,
    }
}

// Whether paths can be below each of these folders.
fn check_folders<E: Write>(folders: &[&str], err: &mut E) -> Result<(), Status>
    ensures { IfErr result (λ status. status ≡ Usage) }
{
    'folders: for folder in folders {
        if !is_plain(folder) {
            return Err(bad_folder(err, folder));
        }
    }
    Ok(())
}

fn bad_folder<E: Write>(err: &mut E, folder: &str) -> Status
    ensures { result ≡ Usage }
{
    say_of(err, folder, &[text(": is no absolute path without ..")]);
    Status::Usage
}

// How paths are opened.
fn opening<'a>(asked: &'a Paths<'_>) -> Opening<'a>
    ensures sockets { (result.door ≡ asked.now.door) × (result.opens ≡ asked.now.opens) }
    ensures below { result.below.now ≡ asked.now.below.items }
    ensures numbers { (result.wait ≡ asked.now.wait) × (result.clients ≡ asked.now.clients) × (result.rights ≡ asked.now.mode) }
{
    Opening {
        door: asked.door,
        opens: asked.opens,
        below: asked.below.as_slice(),
        wait: asked.wait,
        clients: asked.clients,
        rights: asked.mode,
    }
}
