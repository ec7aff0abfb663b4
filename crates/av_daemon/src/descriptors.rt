ghost use Rattle.std.specs.Prelude.{◌≡◌};
ghost use Rattle.av_daemon.specs.Descriptors.{clients_of};

use crate::process::number_of;
use std::fs::Files;

// Descriptors that no client gets: three standard ones, those held beside them, the wait for changes, five doors, two services, two that
// wait at their door, one that is let in to be closed, a file that is read, and some to spare.
const OTHERS: u64 = 18;

// The most clients, however many descriptors there are.
const MOST: u64 = 4_096;

/// How many clients there may be, where the process may open so many files. None where it may open too few to begin.
pub fn clients_of(descriptors: u64) -> Option<u64>
    ensures { result ≡ clients_of descriptors }
{
    if descriptors <= OTHERS {
        return None;
    }
    Some((descriptors - OTHERS).min(MOST))
}

/// How many files this process may open: the limit that holds. Where the system doesn't tell, as many as clients there may be.
pub fn descriptors<R: Files>(rt: &R) -> u64 {
    number_of(rt, "/proc/self/limits", "Max open files").unwrap_or(MOST + OTHERS)
}
