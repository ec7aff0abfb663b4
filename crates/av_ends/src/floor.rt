ghost use Rattle.std.specs.Prelude.{◌≡◌, ◌≤◌, [], max, IfOk};

use crate::steps::{Alike, Load, Raise, Rising};
use atomic_table::{Seat, Table};
use av_base::Version;
use std::alloc::{AllocError, Global};

/// The least version that is still accepted, as a word that threads share with no lock. It only rises, from 0 on.
#[derive(Drop)]
pub struct Floor {
    table: Table<(), u64, (), Rising, Global>,
    ghost one_word: { table.shared.table_id.words ≡ 1 },
}

/// What one holder has seen of one floor. It takes no bytes, and what it has seen never goes back.
#[derive(Drop)]
pub struct FloorSeat {
    seat: Seat<(), u64>,
    ghost empty: { seat.me.1 ≡ [] },
}

impl Floor {
    ghost use Rattle.av_ends.specs.Seats.{IsFloorSeatOf, seen};

    /// A floor of 0, with its first seat.
    pub fn new(alloc: Global) -> Result<(Floor, FloorSeat), AllocError>
        ensures { IfOk result (λ r. IsFloorSeatOf r.0 r.1 × (seen r.1 ≡ 0)) }
    {
        let (table, seat) = Table::of_words(alloc, &[0], &())?;
        Ok((Floor { table }, FloorSeat { seat }))
    }

    /// What the floor is, in one step. The seat has seen that from now on, and it is no less than the seat had seen.
    pub fn load(&self, seat: &mut FloorSeat) -> Version
        requires { IsFloorSeatOf self.now seat.old }
        ensures same { IsFloorSeatOf self.now seat.new }
        ensures seen { result ≡ seen seat.new }
        ensures later { seen seat.old ≤ seen seat.new }
    {
        Version::new(self.table.shared.load::<Load>(&mut seat.seat, 0))
    }

    /// Raises the floor to `least` where it is below, in one step.
    pub fn raise(&self, seat: &mut FloorSeat, least: Version)
        requires { IsFloorSeatOf self.now seat.old }
        ensures same { IsFloorSeatOf self.now seat.new }
        ensures least { least ≤ seen seat.new }
        ensures later { seen seat.old ≤ seen seat.new }
    {
        self.table
            .shared
            .fetch_max::<Raise>(&mut seat.seat, 0, least.get());
    }

    /// A second seat, which has seen as much.
    pub fn split(&self, seat: &mut FloorSeat) -> FloorSeat
        requires { IsFloorSeatOf self.now seat.old }
        ensures old { IsFloorSeatOf self.now seat.new × (seen seat.new ≡ seen seat.old) }
        ensures new { IsFloorSeatOf self.now result × (seen result ≡ seen seat.old) }
    {
        let second = self.table.shared.split_seat::<Alike>(&mut seat.seat);
        FloorSeat { seat: second }
    }

    /// From now on the seat has seen what the other had, too.
    pub fn join(&self, seat: &mut FloorSeat, other: FloorSeat)
        requires one { IsFloorSeatOf self.now seat.old }
        requires other { IsFloorSeatOf self.now other }
        ensures same { IsFloorSeatOf self.now seat.new }
        ensures seen { seen seat.new ≡ max (seen seat.old) (seen other) }
    {
        let FloorSeat { seat: theirs } = other;
        self.table.shared.join_seat::<Alike>(&mut seat.seat, theirs);
    }
}
