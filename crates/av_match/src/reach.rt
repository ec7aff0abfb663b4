//! Where bytes lead from a state by one pass over them.
ghost use Rattle.std.specs.Prelude.{◌≡◌, ◌<◌, ◌≤◌, length, drop};
ghost use Rattle.av_match.specs.Reach.{reach, place_of};
ghost use Rattle.av_match.specs.Words.{AllBytes};

use crate::cells::Reached;
use crate::tables::Tables;

/// A state, and the place up to which bytes were read to come to it.
#[derive(Clone, Copy)]
pub struct Position {
    pub state: u16,
    pub place: usize,
}

/// Where the bytes of a chunk from a position on lead.
pub fn reach_of(tables: &Tables<'_>, from: Position, chunk: &[u8]) -> Reached
    requires inside { from.state < length tables.now.outputs.now }
    requires within { from.place ≤ length chunk.now }
    ensures reach { result ≡ reach tables.now.cells.now tables.now.outputs.now from.state from.place (drop from.place chunk.now) }
    ensures place { place_of result ≤ length chunk.now }
    ensures bytes { AllBytes chunk.now }
{
    let mut state = from.state as usize;
    for place in from.place..chunk.len() {
        state = tables.cells[256 * state + chunk[place] as usize] as usize;
        let output = tables.outputs[state];
        if output != 0 {
            return Reached::Hit {
                place: place + 1,
                index: u32::from(output) - 1,
            };
        }
    }
    Reached::Through {
        state: state as u16,
    }
}
