ghost use Rattle.std.specs.Prelude.{◌≡◌};
ghost use Rattle.av_status.specs.declared.status.Status.TheVariants.{Device};

use av_status::Status;
use av_status::faults::{say_of, text};
use std::io::Write;

/// Why two programs do not meet at a socket.
#[derive(Clone, Copy, Debug, PartialEq, Eq)]
pub enum SocketFault {
    /// Another filter waits there.
    InUse,
    /// The file that is there is no socket.
    NotASocket,
    /// The file can't be made: there is no such folder, or writing to it is not allowed.
    CannotListen,
    /// The socket that is there, or its folder, may not be entered.
    NotAllowed,
    /// A socket that somebody left is there, and can't be removed.
    Leftover,
    /// No service came in time.
    NoService,
    /// No filter came to listen in time.
    NoFilter,
    /// The service went away, or neither spoke nor listened for too long, before each open was answered.
    ServiceLost,
    /// The connection to the filter failed, or the filter neither spoke nor listened for too long.
    FilterLost,
    /// No guard came to listen in time.
    NoGuard,
    /// The guard went away, or answered nothing for too long, or said what is no answer.
    GuardLost,
}

/// Two programs do not meet at a socket, or not to the end.
pub fn socket_failed<E: Write>(err: &mut E, socket: &str, fault: SocketFault) -> Status
    ensures { result ≡ Device }
{
    let why = text(match fault {
        SocketFault::InUse => ": another filter waits there",
        SocketFault::NotASocket => ": the file that is there is no socket",
        SocketFault::CannotListen => ": cannot make a socket",
        SocketFault::NotAllowed => ": may not be entered",
        SocketFault::Leftover =>
            ": a socket that nobody listens at is in its place, and cannot be removed",
        SocketFault::NoService => ": no service came",
        SocketFault::NoFilter => ": no filter listens",
        SocketFault::ServiceLost => ": the service was lost",
        SocketFault::FilterLost => ": the filter was lost",
        SocketFault::NoGuard => ": no guard listens",
        SocketFault::GuardLost => ": the guard was lost",
    });
    say_of(err, socket, &[why]);
    Status::Device
}
