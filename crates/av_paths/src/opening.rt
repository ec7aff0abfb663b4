//! The socket to which clients come, and a thread for each.

ghost use Rattle.av_paths.specs.Opening.{IsFailed};

use crate::client::serve_client;
use av_sockets::fault::socket_failed;
use av_sockets::{Meeting, listen, remove_own};
use av_status::Status;
use av_status::faults::{device_failed, out_of_memory};
use std::alloc::Global;
use std::fs::Files;
use std::io::{ErrorKind, Write};
use std::net::Net;
use std::os::unix::net::UnixListener;
use std::thread;
use std::thread::Threads;
use std::time::{Clock, Duration};

// For how many milliseconds is waited where no client could be let in, for want of descriptors.
const PAUSE: u64 = 100;

/// A system on which paths are opened for clients.
pub trait Opens: Files + Net + Clock {}

impl<R: Files + Net + Clock> Opens for R {}

/// How paths are opened for clients.
#[derive(Clone, Copy)]
pub struct Opening<'a> {
    /// The path of the socket to which clients come.
    pub door: &'a str,
    /// The path of the guard's socket for opens.
    pub opens: &'a str,
    /// The folders whose files may be asked about, and what is below them.
    pub below: &'a [&'a str],
    /// The most seconds that an answer of the guard may take, a client to say what it has begun, and to take what it is told.
    pub wait: u64,
    /// How many clients are served at a time. Others wait.
    pub clients: u64,
    /// The rights of the socket.
    pub rights: u32,
}

// What serves a client, and how.
#[derive(Drop)]
pub(crate) struct Place<'a, R> {
    pub system: &'a R,
    pub alloc: Global,
    pub asked: Opening<'a>,
}

impl<'a, R> Place<'a, R> {
    pub(crate) fn meeting(&self) -> Meeting<'a> {
        Meeting::within(self.asked.opens, self.asked.wait)
    }
}

/// Opens paths for clients until the process is ended. It comes back where it can't begin, or where memory or the socket fails, and one
/// line to `err` says why.
pub fn open_paths<R: Opens + Threads + Sync, E: Write>(
    system: &R,
    alloc: Global,
    asked: Opening<'_>,
    err: &mut E,
) -> Status
where
    R::File: Send,
    R::Dir: Send,
    R::Stream: Send,
    R::Listener: Send,
    ensures { IsFailed result }
{
    let (listener, node) = match listen(system, alloc, asked.door, asked.rights) {
        Ok(listening) => listening,
        Err(fault) => return socket_failed(err, asked.door, fault),
    };
    let place = Place {
        system,
        alloc,
        asked,
    };
    let status = serve_all(&place, &listener, err);
    remove_own(system, asked.door, node);
    status
}

// Serves clients in as many threads as may be.
fn serve_all<R: Opens + Threads + Sync, E: Write>(
    place: &Place<'_, R>,
    listener: &UnixListener,
    err: &mut E,
) -> Status
where
    R::File: Send,
    R::Dir: Send,
    R::Stream: Send,
    R::Listener: Send,
    ensures { IsFailed result }
{
    if listener.set_nonblocking(false).is_err() {
        return device_failed(err);
    }
    let serve = |_number: usize| serve_door(place, listener);
    match thread::map_indices(
        place.system,
        place.alloc,
        place.asked.clients as usize,
        &serve,
    ) {
        Ok(_) => device_failed(err),
        Err(_) => out_of_memory(err),
    }
}

// Serves one client after another.
fn serve_door<R: Opens>(place: &Place<'_, R>, listener: &UnixListener) {
    'clients: for _ in 0..u64::MAX {
        match listener.accept() {
            Ok((stream, _)) => serve_client(place, stream),
            Err(error) if error.kind() == ErrorKind::Interrupted => {}
            Err(_) => thread::sleep(place.system, Duration::from_millis(PAUSE)),
        }
    }
}
