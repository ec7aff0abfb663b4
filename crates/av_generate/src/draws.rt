ghost use Rattle.std.specs.Prelude.{◌≡◌, ◌<◌};
ghost use Rattle.av_generate.specs.Draws.{below, next};

use rand_core::SeedableRng;
use rand_core::utils::NextWord;
use rand_xoshiro::SplitMix64;
use std::marker::Model;

/// The numbers of a seed, by SplitMix64, one behind the other.
#[derive(Debug, Drop)]
pub struct Draws {
    numbers: SplitMix64,
}

impl Model for Draws {
    ghost use Rattle.std.specs.Prelude.{ℕ};

    ghost Value = { ℕ };

    ghost view = { λ d. d.numbers };
}

impl Draws {
    /// The numbers of this seed, from the first on.
    pub fn new(seed: u64) -> Draws
        ensures { result ≡ seed }
    {
        Draws {
            numbers: SplitMix64::seed_from_u64(seed),
        }
    }

    /// The next number.
    #[tactic(auto, unfolding(crate::specs::Draws::next))]
    pub fn next(&mut self) -> u64
        ensures { (result, self.new) ≡ next self.old }
    {
        self.numbers.next_word()
    }

    /// The next number modulo `count`.
    #[tactic(auto, unfolding(crate::specs::Draws::below))]
    pub fn below(&mut self, count: u64) -> u64
        requires { 0 < count }
        ensures drawn { (result, self.new) ≡ below count self.old }
        ensures less { result < count }
    {
        self.next() % count
    }
}
