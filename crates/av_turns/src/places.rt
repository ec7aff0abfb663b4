ghost use Rattle.std.specs.Prelude.{◌≡◌, ◌+◌, false, min};
ghost use Rattle.av_turns.specs.Places.{came_of, greeted_of, is_free, is_stuck, is_unheard, left_of, lost_of, place_at, since_of, since_of_guest, stands_by, stuck_of, unheard_of, with_guest, with_misses, with_place};
ghost use Rattle.av_turns.specs.Times.{after};

use crate::client::{after, earlier};
use crate::limits::MISSES;

/// The first or the second of two: two places of services, one for each port of the filter, and two for those who wait at the
/// services' door.
#[derive(Clone, Copy, Debug, PartialEq, Eq)]
pub enum Nth {
    First,
    Second,
}

/// The place of a service.
#[derive(Clone, Copy, Debug, PartialEq, Eq)]
pub struct Place {
    /// A service has it.
    pub is_taken: bool,
    /// Questions in a row whose time was up without any reply.
    pub misses: u64,
}

/// Who waits at the services' door.
#[derive(Clone, Copy, Debug, PartialEq, Eq)]
pub enum Guest {
    /// Nobody.
    Nobody,
    /// One that has not greeted, since then.
    Came(u64),
    /// One that greeted, and has this place once its service is lost.
    StandsBy(Nth),
}

/// The places of both services, and who waits for them.
#[derive(Clone, Copy, Debug, PartialEq, Eq)]
pub struct Places {
    pub first: Place,
    pub second: Place,
    pub first_guest: Guest,
    pub second_guest: Guest,
}

/// What becomes of one that greeted.
#[derive(Clone, Copy, Debug, PartialEq, Eq)]
pub enum Arrived {
    /// It is the service, and no guest any more.
    Place,
    /// It waits until the service is lost.
    Successor,
    /// The place is taken and another one waits for it: it is no guest any more.
    Away,
}

impl Places {
    /// All are free.
    pub fn new() -> Places
        ensures { result ≡ record { first = record { is_taken = false; misses = 0 }; second = record { is_taken = false; misses = 0 }; first_guest = Guest.Nobody; second_guest = Guest.Nobody } }
    {
        let free = Place {
            is_taken: false,
            misses: 0,
        };
        Places {
            first: free,
            second: free,
            first_guest: Guest::Nobody,
            second_guest: Guest::Nobody,
        }
    }

    fn place(&self, place: Nth) -> Place
        ensures { result ≡ place_at place self.now }
    {
        match place {
            Nth::First => self.first,
            Nth::Second => self.second,
        }
    }

    fn put_place(&mut self, place: Nth, now: Place)
        ensures { self.new ≡ with_place place now self.old }
    {
        match place {
            Nth::First => self.first = now,
            Nth::Second => self.second = now,
        }
    }

    fn put_guest(&mut self, guest: Nth, now: Guest)
        ensures { self.new ≡ with_guest guest now self.old }
    {
        match guest {
            Nth::First => self.first_guest = now,
            Nth::Second => self.second_guest = now,
        }
    }

    /// One is at the services' door: the guest that it is, where two are not there already.
    pub fn came(&mut self, now: u64) -> Option<Nth>
        ensures { (result, self.new) ≡ came_of now self.old }
    {
        if is_free(self.first_guest) {
            self.first_guest = Guest::Came(now);
            return Some(Nth::First);
        }
        if is_free(self.second_guest) {
            self.second_guest = Guest::Came(now);
            return Some(Nth::Second);
        }
        None
    }

    // The guest that stands by for a place.
    fn successor(&self, place: Nth) -> Option<Nth>
        ensures { result ≡ stands_by place self.now }
    {
        if self.first_guest == Guest::StandsBy(place) {
            return Some(Nth::First);
        }
        if self.second_guest == Guest::StandsBy(place) {
            return Some(Nth::Second);
        }
        None
    }

    /// A guest greets at a place.
    pub fn greeted(&mut self, guest: Nth, place: Nth) -> Arrived
        ensures { (result, self.new) ≡ greeted_of guest place self.old }
    {
        if !self.place(place).is_taken {
            self.put_guest(guest, Guest::Nobody);
            self.put_place(place, TAKEN);
            return Arrived::Place;
        }
        match self.successor(place) {
            None => {
                self.put_guest(guest, Guest::StandsBy(place));
                Arrived::Successor
            }
            Some(_) => {
                self.put_guest(guest, Guest::Nobody);
                Arrived::Away
            }
        }
    }

    /// A guest is gone.
    pub fn guest_lost(&mut self, guest: Nth)
        ensures { self.new ≡ left_of guest self.old }
    {
        self.put_guest(guest, Guest::Nobody)
    }

    /// The service of a place is lost: the guest that has it from now on, where one stood by.
    pub fn lost(&mut self, place: Nth) -> Option<Nth>
        ensures { (result, self.new) ≡ lost_of place self.old }
    {
        match self.successor(place) {
            None => {
                self.put_place(place, FREE);
                None
            }
            Some(guest) => {
                self.put_guest(guest, Guest::Nobody);
                self.put_place(place, TAKEN);
                Some(guest)
            }
        }
    }

    /// A reply came.
    pub fn replied(&mut self, place: Nth)
        ensures { self.new ≡ with_misses place 0 self.old }
    {
        let was = self.place(place);
        self.put_place(place, Place { misses: 0, ..was });
    }

    /// The time of a question was up.
    pub fn missed(&mut self, place: Nth)
        ensures { self.new ≡ with_misses place (min ((place_at place self.old).misses + 1) 18446744073709551615) self.old }
    {
        let was = self.place(place);
        let misses = was.misses.saturating_add(1);
        self.put_place(place, Place { misses, ..was });
    }

    /// The place of a service that is to be lost, since too many questions in a row had no reply.
    pub fn stuck(&self) -> Option<Nth>
        ensures { result ≡ stuck_of self.now }
    {
        if is_stuck(self.first) {
            return Some(Nth::First);
        }
        if is_stuck(self.second) {
            return Some(Nth::Second);
        }
        None
    }

    /// When the time of a guest that has not greeted is up.
    pub fn due(&self, wait: u64) -> Option<u64>
        ensures { result ≡ after (since_of self.now) wait }
    {
        after(
            earlier(came_at(self.first_guest), came_at(self.second_guest)),
            wait,
        )
    }

    /// A guest whose time to greet is up.
    pub fn unheard(&self, wait: u64, now: u64) -> Option<Nth>
        ensures { result ≡ unheard_of wait now self.now }
    {
        if is_unheard(self.first_guest, wait, now) {
            return Some(Nth::First);
        }
        if is_unheard(self.second_guest, wait, now) {
            return Some(Nth::Second);
        }
        None
    }
}

const FREE: Place = Place {
    is_taken: false,
    misses: 0,
};

const TAKEN: Place = Place {
    is_taken: true,
    misses: 0,
};

fn is_free(guest: Guest) -> bool
    ensures { result ≡ is_free guest }
{
    match guest {
        Guest::Nobody => true,
        Guest::Came(_) | Guest::StandsBy(_) => false,
    }
}

fn came_at(guest: Guest) -> Option<u64>
    ensures { result ≡ since_of_guest guest }
{
    match guest {
        Guest::Came(since) => Some(since),
        Guest::Nobody | Guest::StandsBy(_) => None,
    }
}

fn is_stuck(place: Place) -> bool
    ensures { result ≡ is_stuck place }
{
    place.misses >= MISSES && place.is_taken
}

fn is_unheard(guest: Guest, wait: u64, now: u64) -> bool
    ensures { result ≡ is_unheard wait now guest }
{
    match after(came_at(guest), wait) {
        Some(due) => due <= now,
        None => false,
    }
}
