ghost use Rattle.std.specs.Prelude.{◌≡◌, ◌≤◌};
ghost use Rattle.av_generate.specs.Verb.{deep_odds, has_work, odds};

use crate::profile::Profile;
use crate::sight::Sight;

/// What begins a command.
#[derive(Clone, Copy, Debug, PartialEq, Eq)]
pub enum Verb {
    Publish,
    Create,
    Write,
    Cut,
    Remove,
    Judge,
    Open,
    Cleanup,
    Connect,
    Down,
    Up,
    Work,
    Timeout,
    DisconnectFilter,
    DisconnectService,
    RestartFilter,
    RestartService,
}

/// The verbs in the order in which they are weighed.
pub const VERBS: [Verb; 17] = [
    Verb::Publish,
    Verb::Create,
    Verb::Write,
    Verb::Cut,
    Verb::Remove,
    Verb::Judge,
    Verb::Open,
    Verb::Cleanup,
    Verb::Connect,
    Verb::Down,
    Verb::Up,
    Verb::Work,
    Verb::Timeout,
    Verb::DisconnectFilter,
    Verb::DisconnectService,
    Verb::RestartFilter,
    Verb::RestartService,
];

/// What a verb weighs where it has something to do, and what it weighs else.
#[derive(Clone, Copy, Debug, PartialEq, Eq)]
pub struct Odds {
    pub busy: u64,
    pub idle: u64,
}

impl Odds {
    const fn of(busy: u64, idle: u64) -> Odds
        ensures { result ≡ record { busy = busy; idle = idle } }
    {
        Odds { busy, idle }
    }
}

impl Verb {
    /// Whether it has something to do.
    pub fn has_work(self, sight: &Sight) -> bool
        ensures { result ≡ has_work sight.now self }
    {
        match self {
            Verb::Publish => sight.latest.is_none(),
            Verb::Create => sight.streams < 2,
            Verb::Connect => !sight.connected,
            Verb::Down => sight.down != 0,
            Verb::Up => sight.up != 0,
            Verb::Work => sight.lent != 0,
            Verb::Timeout => sight.questions != 0,
            _ => sight.streams != 0,
        }
    }

    /// What it weighs under a profile: 24 at most.
    pub fn odds(self, profile: Profile) -> Odds
        ensures exact { result ≡ odds profile self }
        ensures small { (result.busy ≤ 24) × (result.idle ≤ 24) }
    {
        match profile {
            Profile::Deep => self.deep_odds(),
            Profile::Uniform => Odds::of(1, 1),
        }
    }

    fn deep_odds(self) -> Odds
        ensures exact { result ≡ deep_odds self }
        ensures small { (result.busy ≤ 24) × (result.idle ≤ 24) }
    {
        match self {
            Verb::Publish => Odds::of(12, 2),
            Verb::Create => Odds::of(12, 1),
            Verb::Write => Odds::of(8, 1),
            Verb::Cut => Odds::of(6, 1),
            Verb::Open => Odds::of(16, 2),
            Verb::Cleanup => Odds::of(5, 1),
            Verb::Connect => Odds::of(12, 1),
            Verb::Down | Verb::Up => Odds::of(24, 2),
            Verb::Work => Odds::of(20, 1),
            Verb::Timeout => Odds::of(2, 1),
            Verb::Remove
            | Verb::Judge
            | Verb::DisconnectFilter
            | Verb::DisconnectService
            | Verb::RestartFilter
            | Verb::RestartService => Odds::of(1, 1),
        }
    }
}
