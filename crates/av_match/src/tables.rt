//! What is read of an automaton while bytes go by.
ghost use Rattle.std.specs.Prelude.{◌≡◌, ◌*◌, ◌<◌, ◌≤◌, length};
ghost use Rattle.av_match.specs.Part.{IsClosed};
ghost use Rattle.av_match.specs.Shifts.{AreBelow};

use crate::rare::RareBytes;
use av_base::ByteList;

/// The tables of an automaton: where each state goes by each byte, what each gives out, how many bytes its word has,
/// how far each pair of bytes lets a window be moved, the patterns that are shorter than it, and the rarest bytes of
/// the pattern where it is the only one. The window has no bytes where too many patterns are too short for one.
#[derive(Clone, Copy)]
pub struct Tables<'a> {
    pub cells: &'a [u16],
    pub outputs: &'a [u16],
    pub depths: &'a [u8],
    pub shifts: &'a [u8],
    pub window: usize,
    pub shorts: &'a [ByteList],
    pub rare: Option<RareBytes>,
    pub ghost closed: { IsClosed cells.now },
    pub ghost rows: { length cells.now ≡ 256 * length outputs.now },
    pub ghost deep: { length depths.now ≡ length outputs.now },
    pub ghost some: { 0 < length outputs.now },
    pub ghost few: { length outputs.now ≤ 16385 },
    pub ghost narrow: { window ≤ 64 },
    pub ghost pairs: { 2 ≤ window → length shifts.now ≡ 65536 },
    pub ghost moves: { 2 ≤ window → AreBelow window shifts.now },
}
