ghost use Rattle.std.specs.Prelude.{◌≡◌, ◌++◌, OnOk, OnErr};
ghost use Rattle.av_asks.specs.Contents.{newer_frame};

use crate::fields::{put1, put4, put8};
use crate::sizes::WATCH_SIZE;
use av_base::Version;
use std::alloc::AllocError;

/// Appends the frame that tells a client of a newer version, under the tag by which it asked for one, 21 bytes. Where memory is refused
/// nothing is appended.
pub fn put_newer(out: &mut Vec<u8>, tag: u64, version: Version) -> Result<(), AllocError>
    ensures ok { OnOk result (out.new.items ≡ out.old.items ++ newer_frame tag version) }
    ensures err { OnErr result (out.new.items ≡ out.old.items) }
{
    out.reserve(4 + WATCH_SIZE)?;
    put4(out, WATCH_SIZE as u32);
    put1(out, 9);
    put8(out, tag);
    put8(out, version.get());
    Ok(())
}
