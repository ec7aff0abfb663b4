ghost use Rattle.std.specs.Prelude.{◌≡◌};
ghost use Rattle.av_gate.specs.Seats.{calls_of};

use crate::call::NamedCall;
use av_ends::FloorSeat;
use av_filter::Note;

/// One call that was accepted: its place in the audit, its own arguments, and what the filter told.
#[derive(Debug, Drop)]
pub struct SeatCall {
    pub place: usize,
    pub call: NamedCall,
    pub note: Note,
}

/// What one caller of a gate holds: the calls that it made, and what it has seen of the floor.
#[derive(Drop)]
pub struct Seat {
    pub(crate) floor: FloorSeat,
    pub(crate) calls: Vec<SeatCall>,
}

impl Seat {
    /// The calls that it made and that were accepted, in their order. It takes no memory.
    pub fn calls(&self) -> &[SeatCall]
        ensures { result.now ≡ calls_of self.now }
    {
        self.calls.as_slice()
    }
}
