//! Patterns that are too short for a window, each of which is looked for by itself.
ghost use Rattle.std.specs.Prelude.{OnOk};
ghost use Rattle.av_match.specs.Shorts.{AreAbsent};

use crate::credit::Stop;
use av_base::ByteList;
use memchr::memmem;

/// None of the patterns occurs in a piece, or it has a hit.
pub fn are_absent(shorts: &[ByteList], piece: &[u8]) -> Result<(), Stop>
    ensures { OnOk result (AreAbsent shorts.now piece.now) }
{
    for short in shorts {
        if memmem::find(piece, short.as_slice()).is_some() {
            return Err(Stop::Hit);
        }
    }
    Ok(())
}
