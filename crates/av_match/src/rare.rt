//! The rarest bytes of a set's one pattern: where a content lacks them, the pattern doesn't begin.
ghost use Rattle.std.specs.Prelude.{◌≡◌, ◌+◌, ◌≤◌, ℕ, List, slice_index};
ghost use Rattle.memchr.specs.Pairs.{HasPair, reach_of};

use memchr::arch::all::packedpair::Finder;

/// What is looked for of a pattern: its two rarest bytes at once by `finder`, or the rarest alone, which is `byte` and
/// has `offset` bytes of the pattern before it. The later of the two has `reach` bytes before it.
#[derive(Clone, Copy)]
pub struct RareBytes {
    pub finder: Finder,
    pub byte: u8,
    pub offset: usize,
    pub reach: usize,
    pub ghost reaches: { reach ≡ reach_of finder },
    pub ghost within: { offset ≤ reach },
    pub ghost first: { (w : List ℕ) (i : ℕ) → HasPair finder w i → slice_index w (i + offset) ≡ byte },
}
