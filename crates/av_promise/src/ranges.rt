//! What a signature's range of places says.
ghost use Rattle.av_promise.specs.Ranges.{RangesAreLiteral};

use av_match::laws::verdict_is_least;

/// Of every content of at most 1,048,576 bytes, which is the most that a filter asks about, the verdict is that of ranges as they are
/// written: a signature occurs where its bytes begin from the first place of its range to the last, both counted from 0. In a longer
/// content, which `scan` may take, a range up to place 1,048,575 has no end.
pub fn ranges_are_literal()
    ensures { RangesAreLiteral }
{
    verdict_is_least();
}
