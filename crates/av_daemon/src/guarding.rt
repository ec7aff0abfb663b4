ghost use Rattle.std.specs.Prelude.{◌≡◌, max, IfErr};
ghost use Rattle.av_daemon.specs.Guarding.{IsFailed};
ghost use Rattle.av_status.specs.declared.status.Status.TheVariants.{Device};

use crate::daemon::{CLAMD, Daemon, Entrance, OPENS, PARTS, SERVICE, STATUS, Stop};
use crate::descriptors::{clients_of, descriptors};
use crate::door::Door;
use crate::keeping::{BadKeeping, kept_version};
use crate::recorder::{BadLog, Logging, Recorder, open_log};
use av_base::{Mode, Version};
use av_client::{PARTS_BEHIND, STATUS_BEHIND, beside};
use av_guard::{Guard, Settings};
use av_peers::belief::Belief;
use av_sockets::fault::socket_failed;
use av_sockets::{Node, listen, remove_own};
use av_status::Prefixed;
use av_status::faults::{device_failed, out_of_memory, say, say_of, text};
use av_status::status::Status;
use av_trust::Trust;
use mio::Poll;
use mio::net::UnixListener;
use std::alloc::Global;
use std::fs::Files;
use std::hash::RandomState;
use std::io;
use std::io::Write;
use std::net::Net;
use std::random::RandomSource;
use std::time::{Clock, Duration};

// The numbers that the boot of a guard's filter may have.
const BOOTS: u64 = 16_777_216;

/// The sockets of a guard, each by its path.
#[derive(Clone, Copy, Debug)]
pub struct Doors<'a> {
    /// To which clients come with opens.
    pub opens: &'a str,
    /// To which scanning services come, one at each of two ports.
    pub service: &'a str,
    /// To which clients of clamd come.
    pub clamd: Option<&'a str>,
    /// The signature file whose names clients of clamd are told.
    pub names: Option<&'a str>,
}

/// The most bytes of a content that comes in parts. Nothing of it is kept, so a limit protects nothing but time.
#[derive(Clone, Copy, Debug, PartialEq, Eq)]
pub struct Sizes {
    /// Of a client at the socket for opens.
    pub contents: u64,
    /// Of a client of clamd. Those cut a content at a length of their own, so it is to be less than that.
    pub streams: u64,
}

/// How a guard is run.
#[derive(Clone, Copy)]
pub struct Guarding<'a> {
    pub doors: Doors<'a>,
    /// Which signature files are taken.
    pub trust: Trust<'a>,
    /// What becomes of an open that can't be judged.
    pub mode: Mode,
    /// How many bytes of contents are kept for later asks.
    pub keep: u64,
    /// How many questions the service is asked at a time, 1 to 256.
    pub questions: u64,
    /// The most bytes of a content in parts.
    pub most: Sizes,
    /// How long an ask may take to come and to be answered, and how long a client or the service may take nothing that it is sent.
    pub wait: Duration,
    /// The rights of the sockets for opens and for clients of clamd.
    pub rights: u32,
    /// The rights of the socket for the service.
    pub service_rights: u32,
    /// No set of a lesser version is believed or grants.
    pub least: u64,
    /// A service whose set has a greater version is turned away.
    pub most_version: u64,
    /// The file that keeps the greatest version that was believed.
    pub state: Option<&'a str>,
    /// How decisions are logged, where they are.
    pub log: Option<Logging<'a>>,
}

impl<'a> Guarding<'a> {
    // Which versions are believed, where this one was kept.
    pub(crate) fn belief(self, kept: Version) -> Belief
        ensures least { result.least ≡ max self.entry.least kept }
        ensures most { result.most ≡ self.entry.most_version }
    {
        Belief {
            least: Version::new(self.least.max(kept.get())),
            most: Version::new(self.most_version),
        }
    }
}

/// Guards until the process is ended. It comes back where it can't begin, where memory ends, or where the system's wait for
/// sockets fails, and then one line to `err` says why. What services come and go is told there too.
pub fn guard_at<R: Files + Net + Clock + RandomSource, E: Write>(
    rt: &R,
    alloc: Global,
    asked: Guarding<'_>,
    err: &mut Prefixed<E>,
) -> Status
    ensures { IsFailed result }
{
    let Some(most_clients) = clients_of(descriptors(rt)) else {
        return few_descriptors(err);
    };
    let begun = Begun {
        asked,
        most_clients,
        program: err.program(),
    };
    let mut made = Vec::new(alloc);
    let status = match listen_all(rt, alloc, asked, &mut made, err) {
        Ok(listeners) => guard_over(rt, alloc, begun, listeners, err),
        Err(status) => status,
    };
    'made: for socket in made {
        remove_own(rt, socket.path.as_str(), socket.node);
    }
    status
}

/// What a guard begins with.
#[derive(Clone, Copy)]
pub struct Begun<'a> {
    pub asked: Guarding<'a>,
    pub most_clients: u64,
    /// The name that each line on standard error begins with.
    pub program: &'static str,
}

fn few_descriptors<E: Write>(err: &mut E) -> Status
    ensures { result ≡ Device }
{
    say(err, &[text("a guard needs 19 descriptors (ulimit -n)")]);
    Status::Device
}

fn bad_state<E: Write>(err: &mut E, path: &str) -> Status
    ensures { result ≡ Device }
{
    say_of(
        err,
        path,
        &[text(": is no file that a guard keeps a version in")],
    );
    Status::Device
}

// The sockets at which a guard listens.
#[derive(Drop)]
struct Listeners {
    opens: UnixListener,
    service: UnixListener,
    parts: Option<UnixListener>,
    clamd: Option<UnixListener>,
    status: Option<UnixListener>,
}

// The file of one of them, which is removed in the end.
#[derive(Drop)]
struct Made {
    path: String,
    node: Node,
}

// Listens at all of them. Those that were made are noted, also where one can't be.
fn listen_all<R: Files + Net + Clock, E: Write>(
    rt: &R,
    alloc: Global,
    asked: Guarding<'_>,
    made: &mut Vec<Made>,
    err: &mut E,
) -> Result<Listeners, Status>
    ensures { IfErr result IsFailed }
{
    let doors = asked.doors;
    let opens = listen_at(rt, alloc, doors.opens, asked.rights, made, err)?;
    let service = listen_at(rt, alloc, doors.service, asked.service_rights, made, err)?;
    let parts = match path_behind(alloc, doors.service, PARTS_BEHIND, err)? {
        Some(path) => Some(listen_at(rt, alloc, path.as_str(), asked.service_rights, made, err)?),
        None => None,
    };
    let clamd = match doors.clamd {
        Some(path) => Some(listen_at(rt, alloc, path, asked.rights, made, err)?),
        None => None,
    };
    let status = match path_behind(alloc, doors.opens, STATUS_BEHIND, err)? {
        Some(path) => Some(listen_at(rt, alloc, path.as_str(), asked.rights, made, err)?),
        None => None,
    };
    Ok(Listeners {
        opens,
        service,
        parts,
        clamd,
        status,
    })
}

fn listen_at<R: Files + Net + Clock, E: Write>(
    rt: &R,
    alloc: Global,
    path: &str,
    rights: u32,
    made: &mut Vec<Made>,
    err: &mut E,
) -> Result<UnixListener, Status>
    ensures { IfErr result IsFailed }
{
    let Ok(name) = String::from_str(alloc, path) else {
        return Err(out_of_memory(err));
    };
    if made.reserve(1).is_err() {
        return Err(out_of_memory(err));
    }
    match listen(rt, alloc, path, rights) {
        Ok((listener, node)) => {
            made.push_reserved(Made { path: name, node });
            Ok(UnixListener::from_std(listener))
        }
        Err(fault) => Err(socket_failed(err, path, fault)),
    }
}

// The path of a socket beside another one. None where it would be too long, which a line says.
fn path_behind<E: Write>(
    alloc: Global,
    path: &str,
    behind: &'static str,
    err: &mut E,
) -> Result<Option<String>, Status>
    ensures { IfErr result IsFailed }
{
    match beside(alloc, path, behind) {
        Ok(Some(path)) => Ok(Some(path)),
        Ok(None) => {
            let why = text(": the path of a socket has 1 to 107 bytes");
            say_of(err, path, &[text(behind), why]);
            Ok(None)
        }
        Err(_) => Err(out_of_memory(err)),
    }
}

// Goes on with all sockets.
fn guard_over<R: Files + Net + Clock + RandomSource, E: Write>(
    rt: &R,
    alloc: Global,
    begun: Begun<'_>,
    listeners: Listeners,
    err: &mut Prefixed<E>,
) -> Status
    ensures { IsFailed result }
{
    let Some((boot, key)) = drawn(rt) else {
        return device_failed(err);
    };
    let settings = Settings {
        mode: begun.asked.mode,
        keep: begun.asked.keep,
        questions: begun.asked.questions,
        boot,
        key,
    };
    let Ok(doors) = entrance(rt, listeners) else {
        return device_failed(err);
    };
    let Ok(mut guard) = Guard::new(alloc, settings) else {
        return out_of_memory(err);
    };
    let status = guard_through(rt, alloc, begun, doors, &mut guard, err);
    guard.abandon();
    status
}

// Guards at these doors.
fn guard_through<'a, R: Files + Net + Clock, E: Write>(
    rt: &'a R,
    alloc: Global,
    begun: Begun<'a>,
    doors: Entrance,
    guard: &mut Guard,
    err: &mut Prefixed<E>,
) -> Status
    ensures { IsFailed result }
{
    let asked = begun.asked;
    let kept = match kept_version(rt, asked.state) {
        Ok(kept) => kept,
        Err(BadKeeping) => return bad_state(err, asked.state.unwrap_or("")),
    };
    let recorder = match recorder_of(rt, alloc, asked.log, err) {
        Ok(recorder) => recorder,
        Err(status) => return status,
    };
    let stop = match Daemon::new(rt, alloc, begun, doors, kept, recorder) {
        Ok(mut daemon) => daemon.run(guard, &mut err.writer),
        Err(stop) => stop,
    };
    match stop {
        Stop::Memory => out_of_memory(err),
        Stop::Device => device_failed(err),
    }
}

// What writes the log, where there is one.
fn recorder_of<'a, R: Files, E: Write>(
    rt: &R,
    alloc: Global,
    log: Option<Logging<'a>>,
    err: &mut E,
) -> Result<Option<Recorder<'a, R::File>>, Status>
    ensures { IfErr result IsFailed }
{
    let Some(logging) = log else {
        return Ok(None);
    };
    let file = match logging.file {
        None => None,
        Some(path) => match open_log(rt, path) {
            Ok(file) => Some(file),
            Err(BadLog) => return Err(bad_log(err, path)),
        },
    };
    match Recorder::new(alloc, logging, file) {
        Ok(recorder) => Ok(Some(recorder)),
        Err(_) => Err(out_of_memory(err)),
    }
}

fn bad_log<E: Write>(err: &mut E, path: &str) -> Status
    ensures { result ≡ Device }
{
    say_of(
        err,
        path,
        &[text(": cannot be opened as a file that a guard logs to")],
    );
    Status::Device
}

// The doors at these sockets, whose changes the system tells.
fn entrance<R: Net>(rt: &R, listeners: Listeners) -> io::Result<Entrance> {
    let Listeners {
        opens,
        service,
        parts,
        clamd,
        status,
    } = listeners;
    let poll = Poll::new(rt)?;
    let opens = Door::new(&poll, opens, OPENS)?;
    let service = Door::new(&poll, service, SERVICE)?;
    let parts = door_at(&poll, parts, PARTS)?;
    let clamd = door_at(&poll, clamd, CLAMD)?;
    let status = door_at(&poll, status, STATUS)?;
    Ok(Entrance {
        poll,
        opens,
        service,
        parts,
        clamd,
        status,
    })
}

// The door at a socket, where there is one.
fn door_at(poll: &Poll, listener: Option<UnixListener>, number: u64) -> io::Result<Option<Door>> {
    match listener {
        None => Ok(None),
        Some(listener) => Ok(Some(Door::new(poll, listener, number)?)),
    }
}

// The number of the filter's boot and the key of the names of contents, which nobody can know before.
fn drawn<R: RandomSource>(rt: &R) -> Option<(u64, RandomState)> {
    let mut bytes = [0u8; 8];
    rt.fill_bytes(&mut bytes).ok()?;
    let boot = u64::from_le_bytes(bytes) % BOOTS + 1;
    let key = RandomState::new(rt).ok()?;
    Some((boot, key))
}
