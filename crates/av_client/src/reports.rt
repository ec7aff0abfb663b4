//! Where a guard says how it is, and how that is asked.

ghost use Rattle.std.specs.Prelude.{◌≡◌, IfErr, IfOk};
ghost use Rattle.std.specs.Option.{option_map};
ghost use Rattle.std.specs.String.{string_bytes};
ghost use Rattle.av_client.specs.Asking.{IsGuardless};
ghost use Rattle.av_client.specs.Reports.{IsPathBeside, IsStatusPath};
ghost use Rattle.av_status.specs.declared.status.Status.TheVariants.{Usage};

use crate::asking::meet;
use av_base::device::read_into;
use av_health::{REPORT_SIZE, Report, report_in};
use av_sockets::{Hearing, Meeting, SocketFault};
use av_status::Status;
use av_status::faults::{say_of, text};
use std::alloc::{AllocError, Global};
use std::io::Write;
use std::net::Net;
use std::time::Clock;

/// What stands behind the path of the socket for opens, in that of the socket at which a guard says how it is.
pub const STATUS_BEHIND: &str = ".status";

/// What stands behind the path of the socket for the service, in that of the socket for its second connection.
pub const PARTS_BEHIND: &str = ".parts";

// The most bytes of a socket's path.
const MAX_PATH: usize = 107;

// A report and one byte, which shows that more came.
const ROOM: usize = REPORT_SIZE + 1;

/// The path of the socket at which a guard says how it is: that for opens with `.status` behind it. None where it would be too long.
pub fn status_path(alloc: Global, opens: &str) -> Result<Option<String>, AllocError>
    ensures { IfOk result (λ path. IsStatusPath opens.now (option_map (λ p. string_bytes p) path)) }
{
    beside(alloc, opens, STATUS_BEHIND)
}

/// The path of a socket beside another one, with this behind it. None where it would be too long.
pub fn beside(alloc: Global, path: &str, behind: &str) -> Result<Option<String>, AllocError>
    ensures { IfOk result (λ made. IsPathBeside path.now behind.now (option_map (λ p. string_bytes p) made)) }
{
    if path.len() > MAX_PATH || behind.len() > MAX_PATH - path.len() {
        return Ok(None);
    }
    let mut made = String::from_str(alloc, path)?;
    made.push_str(behind)?;
    Ok(Some(made))
}

/// A guard at this socket for opens says nothing of itself: the path would be too long.
pub fn no_report<E: Write>(err: &mut E, opens: &str) -> Status
    ensures { result ≡ Usage }
{
    say_of(
        err,
        opens,
        &[text(".status: the path of a socket has 1 to 107 bytes")],
    );
    Status::Usage
}

/// What the guard that listens at this socket, or will within the wait, says of itself. No part of it may take longer than that.
pub fn report_at<R: Net + Clock>(
    rt: &R,
    alloc: Global,
    meeting: Meeting<'_>,
) -> Result<Report, SocketFault>
    ensures { IfErr result IsGuardless }
{
    let duplex = meet(rt, alloc, meeting)?;
    let mut hearing = Hearing { duplex: &duplex };
    let mut bytes = [0u8; ROOM];
    let Ok(count) = read_into(&mut hearing, &mut bytes, ROOM as u64) else {
        return Err(SocketFault::GuardLost);
    };
    match report_in(bytes.get(..count).unwrap_or(b"".as_slice())) {
        Some(report) => Ok(report),
        None => Err(SocketFault::GuardLost),
    }
}
