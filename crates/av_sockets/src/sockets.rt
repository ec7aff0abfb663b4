//! The socket at which a filter and its service meet: a file that the filter makes and the service finds.

ghost use Rattle.std.specs.Prelude.{◌≡◌, ◌*◌, IfErr};
ghost use Rattle.std.specs.Duration.{as_nanos};
ghost use Rattle.av_sockets.specs.Sockets.{IsUnjoined, IsUnmade, IsUnmet};

use crate::duplex::Duplex;
use crate::fault::SocketFault;
use mio::net;
use std::alloc::{AllocError, Global};
use std::fs::{DirBuilder, Files, OpenFile, Permissions};
use std::io::ErrorKind;
use std::net::Net;
use std::os::unix::fs::{DirBuilderExt, FileTypeExt, MetadataExt, PermissionsExt};
use std::os::unix::net::{UnixListener, UnixStream};
use std::time::{Clock, Duration};
use std::{fs, thread};

// Milliseconds between two looks.
const PAUSE: u64 = 10;

// The rights of a folder that its owner alone may enter, and those that others have in it.
const ALONE: u32 = 0o700;

const OTHERS: u32 = 0o077;

// Among so many descriptors one is looked for.
const DESCRIPTORS: u32 = 1_024;

/// How two programs meet at a socket.
#[derive(Clone, Copy, Debug)]
pub struct Meeting<'a> {
    pub path: &'a str,
    /// How long each side waits for the other.
    pub wait: Duration,
}

impl<'a> Meeting<'a> {
    /// At this path, where each side waits so many seconds for the other.
    pub fn within(path: &'a str, seconds: u64) -> Meeting<'a>
        ensures path { result.path ≡ path.entry }
        ensures wait { as_nanos result.wait ≡ seconds * 1_000_000_000 }
    {
        Meeting {
            path,
            wait: Duration::from_secs(seconds),
        }
    }
}

/// A socket's file, told from any other that later has its path.
#[derive(Clone, Copy, PartialEq, Eq)]
pub struct Node {
    device: u64,
    number: u64,
}

/// Makes a socket with these rights and takes the first service that comes to it and speaks. The socket's file is gone then.
pub fn meet_service<'a, R: Files + Net + Clock>(
    rt: &'a R,
    alloc: Global,
    meeting: Meeting<'_>,
    mode: u32,
) -> Result<Duplex<'a, R>, SocketFault>
    ensures { IfErr result IsUnmet }
{
    let (listener, node) = listen(rt, alloc, meeting.path, mode)?;
    let met = await_service(rt, alloc, &listener, meeting.wait);
    remove_own(rt, meeting.path, node);
    met
}

/// Makes the socket's file with these rights in a folder of its own, listens there without waiting, and only then puts it in its
/// place, so that nobody finds a socket that is not ready. A file that is there is not replaced, unless it is a socket that an earlier
/// program left and nobody listens at.
pub fn listen<R: Files + Net + Clock>(
    rt: &R,
    alloc: Global,
    path: &str,
    mode: u32,
) -> Result<(UnixListener, Node), SocketFault>
    ensures { IfErr result IsUnmade }
{
    let Ok(apart) = name_beside(rt, alloc, path) else {
        return Err(SocketFault::CannotListen);
    };
    let apart = apart.as_str();
    if DirBuilder::new().mode(ALONE).create(rt, apart).is_err() {
        return Err(SocketFault::CannotListen);
    }
    let listens = listen_apart(rt, alloc, apart, path, mode);
    let _ = fs::remove_dir(rt, apart);
    listens
}

// Goes on with a folder that was just made. It is entered by its descriptor from here on, so what others put in its place, where they
// may write to the folder around it, is neither given rights nor listened at.
fn listen_apart<R: Files + Net + Clock>(
    rt: &R,
    alloc: Global,
    apart: &str,
    path: &str,
    mode: u32,
) -> Result<(UnixListener, Node), SocketFault>
    ensures { IfErr result IsUnmade }
{
    let Ok(folder) = fs::open(rt, apart) else {
        return Err(SocketFault::CannotListen);
    };
    let Some(inside) = entered(rt, alloc, &folder) else {
        return Err(SocketFault::CannotListen);
    };
    let inside = inside.as_str();
    let Ok(listener) = UnixListener::bind(rt, inside) else {
        return Err(SocketFault::CannotListen);
    };
    let placed = match guarded(rt, &listener, inside, mode) {
        Some(node) => place(rt, alloc, inside, path).map(|_| node),
        None => Err(SocketFault::CannotListen),
    };
    let _ = fs::remove_file(rt, inside);
    Ok((listener, placed?))
}

// A free name in the folder of a path.
fn name_beside<R: Clock>(rt: &R, alloc: Global, path: &str) -> Result<String, AllocError> {
    let folder = match path.rfind('/') {
        Some(place) => path.get(..place.saturating_add(1)).unwrap_or(""),
        None => "",
    };
    let now = match rt.since_1970() {
        Ok(now) => now.subsec_nanos(),
        Err(_) => 0,
    };
    format!(in alloc; "{folder}.{now:x}")
}

// The path of a socket in an open folder, where that is this process's own and nobody else may enter it. The kit tells no number of a
// descriptor, so it is looked for among those of the process.
fn entered<R: Files>(rt: &R, alloc: Global, folder: &R::File) -> Option<String> {
    let own = fs::metadata(rt, "/proc/self").ok()?;
    let data = folder.metadata().ok()?;
    if !data.is_dir() || data.uid() != own.uid() || data.mode() & OTHERS != 0 {
        return None;
    }
    'descriptors: for number in 0..DESCRIPTORS {
        let path = format!(in alloc; "/proc/self/fd/{number}/socket").ok()?;
        let entry = path.get(..path.len().saturating_sub("/socket".len()))?;
        if let Ok(found) = fs::metadata(rt, entry) {
            if found.dev() == data.dev() && found.ino() == data.ino() {
                return Some(path);
            }
        }
    }
    None
}

// Gives a socket its rights, and turns away who came before it had them.
fn guarded<R: Files>(rt: &R, listener: &UnixListener, path: &str, mode: u32) -> Option<Node> {
    fs::set_permissions(rt, path, Permissions::from_mode(mode)).ok()?;
    listener.set_nonblocking(true).ok()?;
    'early: for _ in 0..u64::MAX {
        if listener.accept().is_err() {
            break;
        }
    }
    node_of(rt, path)
}

fn node_of<R: Files>(rt: &R, path: &str) -> Option<Node> {
    let metadata = fs::symlink_metadata(rt, path).ok()?;
    Some(Node {
        device: metadata.dev(),
        number: metadata.ino(),
    })
}

// Gives a socket its path, where nothing is there but a socket that somebody left.
fn place<R: Files + Net>(rt: &R, alloc: Global, beside: &str, path: &str) -> Result<(), SocketFault>
    ensures { IfErr result IsUnmade }
{
    match fs::hard_link(rt, beside, path) {
        Ok(()) => return Ok(()),
        Err(error) if error.kind() == ErrorKind::AlreadyExists => {}
        Err(_) => return Err(SocketFault::CannotListen),
    }
    remove_leftover(rt, alloc, beside, path)?;
    match fs::hard_link(rt, beside, path) {
        Ok(()) => Ok(()),
        Err(_) => Err(SocketFault::InUse),
    }
}

// Removes a socket's file at which nobody listens. A filter that listens there takes no notice: it takes a connection for a
// service from its first byte on. No call waits, also not where as many wait there as may: then somebody listens. The file is taken out
// of its place first, and put back where it is another one by then.
fn remove_leftover<R: Files + Net>(
    rt: &R,
    alloc: Global,
    beside: &str,
    path: &str,
) -> Result<(), SocketFault>
    ensures { IfErr result IsUnmade }
{
    match fs::symlink_metadata(rt, path) {
        Ok(metadata) if metadata.file_type().is_socket() => {}
        Ok(_) => return Err(SocketFault::NotASocket),
        Err(_) => return Ok(()),
    }
    let node = node_of(rt, path);
    match net::UnixStream::connect(rt, path) {
        Ok(_) => return Err(SocketFault::InUse),
        Err(error) => match error.kind() {
            ErrorKind::ConnectionRefused => {}
            ErrorKind::NotFound => return Ok(()),
            ErrorKind::PermissionDenied => return Err(SocketFault::NotAllowed),
            _ => return Err(SocketFault::InUse),
        },
    }
    take_away(rt, alloc, beside, path, node)
}

// Takes the file of a leftover socket out of its place.
fn take_away<R: Files>(
    rt: &R,
    alloc: Global,
    beside: &str,
    path: &str,
    node: Option<Node>,
) -> Result<(), SocketFault>
    ensures { IfErr result IsUnmade }
{
    let Ok(aside) = format!(in alloc; "{beside}.old") else {
        return Err(SocketFault::CannotListen);
    };
    let aside = aside.as_str();
    match fs::rename(rt, path, aside) {
        Ok(()) => {}
        Err(error) if error.kind() == ErrorKind::NotFound => return Ok(()),
        Err(_) => return Err(SocketFault::Leftover),
    }
    let is_other = node_of(rt, aside) != node;
    if is_other {
        let _ = fs::hard_link(rt, aside, path);
    }
    let _ = fs::remove_file(rt, aside);
    if is_other {
        Err(SocketFault::InUse)
    } else {
        Ok(())
    }
}

/// Removes the socket's file, where it is still the one that was made.
pub fn remove_own<R: Files>(rt: &R, path: &str, node: Node) {
    if node_of(rt, path) == Some(node) {
        let _ = fs::remove_file(rt, path);
    }
}

// Waits for a service to come to a socket and say its first byte; a connection that is closed without a byte is none.
fn await_service<'a, R: Clock>(
    rt: &'a R,
    alloc: Global,
    listener: &UnixListener,
    wait: Duration,
) -> Result<Duplex<'a, R>, SocketFault>
    ensures { IfErr result IsUnmet }
{
    let begun = rt.monotonic().unwrap_or(Duration::ZERO);
    let until = begun.saturating_add(wait);
    'looks: for _ in 0..u64::MAX {
        if let Ok((stream, _)) = listener.accept() {
            if let Some(duplex) = greeted(rt, alloc, stream, wait, until) {
                return Ok(duplex);
            }
        }
        if is_over(rt, begun, wait) {
            break;
        }
        thread::sleep(rt, Duration::from_millis(PAUSE));
    }
    Err(SocketFault::NoService)
}

// A connection whose first byte has come, where one comes until this moment.
fn greeted<'a, R: Clock>(
    rt: &'a R,
    alloc: Global,
    stream: UnixStream,
    wait: Duration,
    until: Duration,
) -> Option<Duplex<'a, R>> {
    let duplex = Duplex::new(rt, alloc, stream, wait).ok()?;
    if duplex.await_first(until).ok()? {
        Some(duplex)
    } else {
        None
    }
}

// Whether a wait that began then is over.
fn is_over<R: Clock>(rt: &R, begun: Duration, wait: Duration) -> bool {
    match rt.monotonic() {
        Ok(now) => now.saturating_sub(begun) >= wait,
        Err(_) => true,
    }
}

/// Connects to a filter that may take so long to listen. No call waits, also not where as many others wait there as may.
pub fn connect<'a, R: Net + Clock>(
    rt: &'a R,
    alloc: Global,
    meeting: Meeting<'_>,
) -> Result<Duplex<'a, R>, SocketFault>
    ensures { IfErr result IsUnjoined }
{
    let begun = rt.monotonic().unwrap_or(Duration::ZERO);
    'looks: for _ in 0..u64::MAX {
        match net::UnixStream::connect(rt, meeting.path) {
            Ok(stream) => return over(rt, alloc, stream.into(), meeting.wait),
            Err(error) if error.kind() == ErrorKind::PermissionDenied => {
                return Err(SocketFault::NotAllowed);
            }
            Err(_) => {}
        }
        if is_over(rt, begun, meeting.wait) {
            break;
        }
        thread::sleep(rt, Duration::from_millis(PAUSE));
    }
    Err(SocketFault::NoFilter)
}

fn over<'a, R: Clock>(
    rt: &'a R,
    alloc: Global,
    stream: UnixStream,
    wait: Duration,
) -> Result<Duplex<'a, R>, SocketFault>
    ensures { IfErr result IsUnjoined }
{
    match Duplex::new(rt, alloc, stream, wait) {
        Ok(duplex) => Ok(duplex),
        Err(_) => Err(SocketFault::FilterLost),
    }
}
