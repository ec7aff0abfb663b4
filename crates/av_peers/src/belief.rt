ghost use Rattle.std.specs.Prelude.{◌≡◌};
ghost use Rattle.av_peers.specs.Belief.{greeting_refusal, newer_refusal, refusal_of, risen};

use crate::service::Claim;
use av_arrival::TurnedAway;
use av_base::Version;

/// Which versions of sets are believed. A service that claims another one is turned away, so that no content is granted under a set
/// that is too old, and none that is said to be newer than all others shuts those out.
#[derive(Clone, Copy, Debug, PartialEq, Eq)]
pub struct Belief {
    /// The least.
    pub least: Version,
    /// The most.
    pub most: Version,
}

impl Belief {
    /// Why a service is turned away that says this of its set, where no version below the floor was believed so far.
    pub fn refusal(&self, claim: &Claim, floor: Version) -> Option<TurnedAway>
        ensures { result ≡ refusal_of self.now claim.now floor }
    {
        match claim {
            Claim::Greeting(version) => self.greeting_refusal(*version, floor),
            Claim::Newer(version) => self.newer_refusal(*version),
        }
    }

    fn greeting_refusal(&self, version: Version, floor: Version) -> Option<TurnedAway>
        ensures { result ≡ greeting_refusal self.now version floor }
    {
        if self.most < version {
            return Some(TurnedAway::Above(self.most));
        }
        let least = self.risen(floor);
        if version < least {
            return Some(TurnedAway::Older(least));
        }
        None
    }

    fn newer_refusal(&self, version: Version) -> Option<TurnedAway>
        ensures { result ≡ newer_refusal self.now version }
    {
        if self.most < version {
            return Some(TurnedAway::Above(self.most));
        }
        None
    }

    /// The least version that is believed, where this is the floor.
    pub fn risen(&self, floor: Version) -> Version
        ensures { result ≡ risen self.now floor }
    {
        if floor < self.least {
            self.least
        } else {
            floor
        }
    }
}
