//! A window of bytes, as long as the shortest pattern, that is moved over a piece by its last two bytes.
ghost use Rattle.std.specs.Prelude.{◌≡◌, ◌+◌, ◌*◌, ◌<◌, ◌≤◌, ℕ, length, drop, slice_index};
ghost use Rattle.av_match.specs.Shifts.{AreBelow, pair_at, shift_at};

use crate::tables::Tables;

/// How far the window at a place can be moved.
pub fn shift(tables: &Tables<'_>, piece: &[u8], at: usize) -> usize
    requires wide { 2 ≤ tables.now.window }
    requires room { at + tables.now.window ≤ length piece.now }
    ensures shift { result ≡ shift_at tables.now.shifts.now tables.now.window piece.now at }
    ensures small { result < tables.now.window }
{
    pair_shift(tables.shifts, piece, at + tables.window - 2)
}

/// How far the pair at a place lets its window be moved.
pub fn pair_shift(shifts: &[u8], pairs: &[u8], at: usize) -> usize
    requires size { length shifts.now ≡ 65536 }
    requires room { at + 2 ≤ length pairs.now }
    ensures shift { result ≡ slice_index shifts.now (pair_at pairs.now at) }
    ensures small { (m : ℕ) → AreBelow m shifts.now → result < m }
{
    shifts[pair(pairs[at], pairs[at + 1])] as usize
}

// Two bytes as one number.
fn pair(first: u8, second: u8) -> usize
    ensures { result ≡ first + 256 * second }
{
    u16::from_le_bytes([first, second]) as usize
}

/// The bytes from a place on.
pub fn after(piece: &[u8], start: usize) -> &[u8]
    requires { start ≤ length piece.now }
    ensures { result.now ≡ drop start piece.now }
{
    &piece[start..]
}
