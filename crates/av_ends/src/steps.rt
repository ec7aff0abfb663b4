// The rule of the floor's word, and the kinds of step that holders of it take.
ghost use Rattle.std.specs.Prelude.{max};

use atomic_table::{Join, Play, Split, TableRule};

// The word is at least what every seat has seen. A joined seat leaves a view of 0.
pub(crate) struct Rising;

impl TableRule<(), u64, ()> for Rising {
    ghost use Rattle.av_ends.specs.Floors.{NoneAbove};

    ghost holds = { λ _ s. NoneAbove s };

    ghost first = { λ _. 0 };
}

pub(crate) struct Load;

impl Play<(), u64> for Load {
    ghost use Rattle.av_ends.specs.Floors.{Loads};

    ghost then = { Loads };
}

pub(crate) struct Raise;

impl Play<(), u64> for Raise {
    ghost use Rattle.av_ends.specs.Floors.{Raises};

    ghost then = { Raises };
}

// A second seat has seen as much as the first; two joined have seen what either had.
pub(crate) struct Alike;

impl Split<u64> for Alike {
    ghost left = { λ v. v };

    ghost right = { λ v. v };
}

impl Join<u64> for Alike {
    ghost use Rattle.std.specs.Prelude.{max};

    ghost both = { λ v w. max v w };

    ghost spent = { 0 };
}
