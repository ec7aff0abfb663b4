//! The version of the set that grants, and since when.

ghost use Rattle.std.specs.Prelude.{◌≡◌, ◌==◌};
ghost use Rattle.av_peers.specs.Adopted.{IsAdopted, about_of, none};

use av_base::Version;
use av_clamd::{About, date_of};

/// A version, and when the guard took it up.
#[derive(Clone, Copy, Debug, PartialEq, Eq)]
pub struct Adopted {
    version: Version,
    seconds: u64,
    date: [u8; 24],
}

impl Adopted {
    /// No version yet.
    pub fn new() -> Adopted
        ensures { result ≡ none result.date }
    {
        Adopted {
            version: Version::new(0),
            seconds: 0,
            date: date_of(0),
        }
    }

    /// Whether this is its version.
    pub fn is(&self, version: Version) -> bool
        ensures { result ≡ (self.now.version == version) }
    {
        self.version == version
    }

    /// Takes up a version at this time, in seconds since 1970.
    pub fn take_up(&mut self, version: Version, seconds: u64)
        ensures { IsAdopted version seconds self.new }
    {
        *self = Adopted {
            version,
            seconds,
            date: date_of(seconds),
        };
    }

    /// When it was taken up, in seconds since 1970; 0 before the first.
    pub fn seconds(&self) -> u64
        ensures { result ≡ self.now.seconds }
    {
        let Adopted { seconds, .. } = self;
        *seconds
    }

    /// What a client of clamd is told of a guard with so many contents that wait.
    pub fn about(&self, is_ready: bool, waiting: u64) -> About
        ensures { result ≡ about_of self.now is_ready waiting }
    {
        About {
            version: self.version.get(),
            date: self.date,
            is_ready,
            waiting,
        }
    }
}
