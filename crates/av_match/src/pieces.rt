//! A chunk of a content, read piece by piece: each by windows where they pay, and else by six parts.
ghost use Rattle.std.specs.Prelude.{◌≡◌, ◌^◌, ◌<◌, ◌≤◌, length, drop, slice_index, IfSome};
ghost use Rattle.av_match.specs.Reach.{reach, place_of};
ghost use Rattle.av_match.specs.Tables.{AreTables};
ghost use Rattle.av_match.specs.Words.{AllBytes};
ghost use Rattle.av_match.specs.declared.cells.Reached.TheVariants.{Through};

use crate::cells::Reached;
use crate::credit::{Patience, Stop};
use crate::lanes::through_piece;
use crate::reach::{Position, reach_of};
use crate::skim::skim;
use crate::tables::Tables;

/// The most bytes of one piece.
pub(crate) const PIECE: usize = 12288;

/// The most bytes of one piece, where the next larger one has a hit; so many are read again byte by byte.
const SMALL_PIECE: usize = 1024;

/// Where the bytes of a chunk lead from a state.
pub fn reach_in_pieces(tables: &Tables<'_>, from: u16, chunk: &[u8]) -> Reached
    requires set { AreTables tables.now }
    requires inside { from < length tables.now.outputs.now }
    requires silent { slice_index tables.now.outputs.now from ≡ 0 }
    ensures reach { result ≡ reach tables.now.cells.now tables.now.outputs.now from 0 chunk.now }
    ensures place { place_of result ≤ length chunk.now }
    ensures bytes { AllBytes chunk.now }
{
    let first = Position {
        state: from,
        place: 0,
    };
    let mut patience = Patience::new();
    let far = through_pieces(tables, &mut patience, first, chunk, PIECE);
    let near = through_pieces(tables, &mut patience, far, chunk, SMALL_PIECE);
    reach_of(tables, near, chunk)
}

// The position to which pieces of at most so many bytes lead from a position, where nothing is given out in them.
fn through_pieces(
    tables: &Tables<'_>,
    patience: &mut Patience,
    from: Position,
    chunk: &[u8],
    size: usize,
) -> Position
    requires set { AreTables tables.now }
    requires inside { from.state < length tables.now.outputs.now }
    requires silent { slice_index tables.now.outputs.now from.state ≡ 0 }
    requires within { from.place ≤ length chunk.now }
    requires some { 0 < size }
    requires small { size ≤ 2 ^ 32 }
    ensures inside { result.state < length tables.now.outputs.now }
    ensures silent { slice_index tables.now.outputs.now result.state ≡ 0 }
    ensures within { result.place ≤ length chunk.now }
    ensures whole { reach tables.now.cells.now tables.now.outputs.now from.state from.place (drop from.place chunk.now)
        ≡ reach tables.now.cells.now tables.now.outputs.now result.state result.place (drop result.place chunk.now) }
{
    let mut state = from.state;
    let mut start = from.place;
    'pieces: while start < chunk.len() {
        let end = start + size.min(chunk.len() - start);
        match piece_state(tables, patience, state, &chunk[start..end]) {
            Some(next) => {
                state = next;
                start = end;
            }
            None => break,
        }
    }
    Position {
        state,
        place: start,
    }
}

/// The state to which a piece leads, where nothing is given out on the way.
pub(crate) fn piece_state(
    tables: &Tables<'_>,
    patience: &mut Patience,
    from: u16,
    piece: &[u8],
) -> Option<u16>
    requires set { AreTables tables.now }
    requires inside { from < length tables.now.outputs.now }
    requires silent { slice_index tables.now.outputs.now from ≡ 0 }
    requires small { length piece.now ≤ 2 ^ 32 }
    ensures { IfSome result (λ t. reach tables.now.cells.now tables.now.outputs.now from 0 piece.now ≡ Through t) }
{
    if patience.is_tried() {
        match skim(tables, from, piece) {
            Ok(state) => {
                patience.won();
                return Some(state);
            }
            Err(Stop::Hit) => return None,
            Err(_) => patience.lost(),
        }
    }
    through_piece(tables, from, piece)
}
