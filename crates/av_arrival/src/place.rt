ghost use Rattle.std.specs.Prelude.{◌≡◌, ◌<◌, ◌≤◌, Some, drop, length};
ghost use Rattle.av_arrival.specs.Place.{behind, in_body, in_length, is_within, passed, passed_at, rested, start};

use std::marker::Model;
use std::time::Duration;

// Where in a stream of frames one stands: a frame is its body's length in four bytes, and then its body.
#[derive(Drop)]
struct Place {
    // The bytes of a length that came so far, and how many they are.
    length: [u8; LENGTH],
    known: usize,
    // How many bytes of a body are still to come.
    left: usize,
}

// How many bytes a length has.
const LENGTH: usize = 4;

impl Model for Place {
    ghost use Rattle.std.specs.Prelude.{◌<◌, take};
    ghost use Rattle.av_arrival.specs.Place.{Standing};

    ghost Value = { Standing };

    ghost view = { λ p. record { begun = take p.known p.length; left = p.left } };

    ghost invariant = { λ p. p.known < 4 };
}

impl Place {
    // In front of the first frame.
    fn start() -> Place
        ensures { result ≡ start }
    {
        Place {
            length: [0u8; LENGTH],
            known: 0,
            left: 0,
        }
    }

    // Whether a frame has begun that is not whole.
    fn is_within(&self) -> bool
        ensures { result ≡ is_within self.now }
    {
        self.known > 0 || self.left > 0
    }

    // Goes on over bytes that came, and says whether a frame became whole.
    #[tactic(auto, using(crate::proofs::PlaceLemmas::in_turn))]
    fn pass(&mut self, bytes: &[u8]) -> bool
        ensures { (self.new, result) ≡ passed bytes.now self.old }
    {
        let mut rest = bytes;
        let mut is_whole = false;
        while !rest.is_empty() {
            let (count, became_whole) = self.advance(rest);
            let (_, behind) = rest.split_at(count);
            rest = behind;
            is_whole |= became_whole;
        }
        is_whole
    }

    // Goes on over the first of some bytes, one of a length or those of a body. How many they are, and whether a frame became whole.
    #[tactic(auto, using(crate::proofs::PlaceLemmas::over))]
    fn advance(&mut self, bytes: &[u8]) -> (usize, bool)
        requires { 0 < length bytes.now }
        ensures some { 0 < result.0 }
        ensures within { result.0 ≤ length bytes.now }
        ensures passed { passed bytes.now self.old ≡ behind result.1 (passed (drop result.0 bytes.now) self.new) }
    {
        if self.left == 0 {
            return (1, self.begin(bytes[0]));
        }
        let count = self.left.min(bytes.len());
        (count, self.skip(count))
    }

    // So many bytes of a body. Whether that makes a frame whole.
    fn skip(&mut self, count: usize) -> bool
        requires { count ≤ self.old.left }
        ensures { (self.new, result) ≡ in_body count self.old }
    {
        self.left -= count;
        self.left == 0
    }

    // One byte of a length. Whether that makes a frame whole, which is then of no bytes.
    fn begin(&mut self, byte: u8) -> bool
        ensures { (self.new, result) ≡ in_length byte self.old }
    {
        self.length[self.known] = byte;
        if self.known + 1 < LENGTH {
            self.known += 1;
            return false;
        }
        self.known = 0;
        self.left = u32::from_be_bytes(self.length) as usize;
        self.left == 0
    }
}

/// A stream of frames that comes in pieces, and since when a frame of it is waited for.
#[derive(Drop)]
pub struct Arriving {
    place: Place,
    since: Option<Duration>,
}

impl Model for Arriving {
    ghost use Rattle.av_arrival.specs.Place.{Arrival};

    ghost Value = { Arrival };

    ghost view = { λ a. record { place = a.place; since = a.since } };
}

impl Arriving {
    /// Nothing has come yet, and a first frame is waited for since then.
    pub fn since(begun: Duration) -> Arriving
        ensures { result ≡ record { place = start; since = Some begun } }
    {
        Arriving {
            place: Place::start(),
            since: Some(begun),
        }
    }

    /// No frame is waited for that has not begun.
    pub fn rest(&mut self)
        ensures { self.new ≡ rested self.old }
    {
        if !self.place.is_within() {
            self.since = None;
        }
    }

    /// Since when a frame is waited for: the first one, or one that has begun.
    pub fn begun(&self) -> Option<Duration>
        ensures { result ≡ self.now.since }
    {
        let Arriving { since, .. } = self;
        *since
    }

    /// Goes on over bytes that came just now.
    pub fn pass(&mut self, bytes: &[u8], now: Duration)
        ensures { self.new ≡ passed_at now bytes.now self.old }
    {
        let is_whole = self.place.pass(bytes);
        if !self.place.is_within() {
            self.since = if is_whole { None } else { self.since };
        } else if is_whole || self.since.is_none() {
            self.since = Some(now);
        }
    }
}
