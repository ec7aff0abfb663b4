//! How the program ends where a loop over a stream of frames did.

ghost use Rattle.std.specs.Prelude.{◌≡◌};
ghost use Rattle.av_status.specs.Status.{graver, status_of_end};

use crate::faults::{audit_full, bad_frame, device_failed, out_of_memory};
use crate::status::Status;
use av_frame::End;
use std::io::Write;

/// The status of a loop's end.
pub fn status_of(end: End) -> Status
    ensures { result ≡ status_of_end end }
{
    match end {
        End::Done | End::Closed => Status::Done,
        End::Frame | End::AuditFull => Status::Refused,
        End::Memory => Status::Memory,
        End::ReadFault | End::WriteFault => Status::Device,
    }
}

/// How a loop ended, where that is a fault.
pub fn end_told<E: Write>(err: &mut E, end: End) -> Status
    ensures { result ≡ status_of_end end }
{
    match end {
        End::Done | End::Closed => Status::Done,
        End::Frame => bad_frame(err),
        End::AuditFull => audit_full(err),
        End::Memory => out_of_memory(err),
        End::ReadFault | End::WriteFault => device_failed(err),
    }
}

/// The end whose status is the greater, the first of two that have the same.
pub fn gravest(one: End, other: End) -> End
    ensures { result ≡ graver one other }
{
    if status_of(one).number() < status_of(other).number() {
        other
    } else {
        one
    }
}
