ghost use Rattle.std.specs.Prelude.{◌≡◌, ◌≤◌, ◌-◌};
ghost use Rattle.av_store.specs.Store.{empty_store};

use av_base::Limits;
use av_store::Volume;
use std::alloc::Global;

/// The greatest boot number, 2^24.
pub(crate) const BOOTS: u64 = 16_777_216;

/// A volume without a stream, whose next mount is the boot of this number. It takes no memory. A volume counts its mounts
/// one by one, so this takes a step for each: 2 milliseconds for the greatest number.
pub(crate) fn volume_before(alloc: Global, limits: Limits, boot: u64) -> Volume
    requires some { 1 ≤ boot }
    requires few { boot ≤ 16777216 }
    ensures { result ≡ record (empty_store 1 limits) { boot = boot - 1 } }
{
    let mut volume = Volume::new(alloc, 1, limits);
    'mounts: for _mounts in 0..boot - 1 {
        match volume.mount() {
            Ok(_boot) => {}
            Err(_) => unreachable!(),
        }
    }
    volume
}
