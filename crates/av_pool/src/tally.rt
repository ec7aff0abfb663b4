use atomic_table::{Join, Split};
use crossbeam_channel::protocol::{Lesson, Outcome, Protocol};
use std::collections::LinkedList;

/// What a pass has put and taken, and its parts of the right to know the whole. Clauses alone see it: no value of it is made.
pub struct PassTally<T> {
    pub parts: u64,
    pub put: LinkedList<T>,
    pub taken: LinkedList<T>,
}

/// The rule of a channel: each item comes out as often as it went in. The first pass has all 1024 parts.
pub struct EachAsOften;

impl<T> Protocol<T, PassTally<T>> for EachAsOften {
    ghost use Rattle.std.specs.Prelude.{[]};
    ghost use Rattle.av_pool.specs.Tally.{tally, Balanced};

    ghost holds = { λ items views. Balanced items views };

    ghost first = { tally 1024 [] [] };
}

/// A new pass has one part of the old one's, and the old one takes it in again.
pub struct Cut;

impl<T> Split<PassTally<T>> for Cut {
    ghost use Rattle.std.specs.Prelude.{[], ◌-◌};
    ghost use Rattle.av_pool.specs.Tally.{tally};

    ghost left = { λ v. tally (v.parts - 1) v.put v.taken };

    ghost right = { λ v. tally 1 [] [] };
}

impl<T> Join<PassTally<T>> for Cut {
    ghost use Rattle.std.specs.Prelude.{[], ◌+◌, ◌++◌};
    ghost use Rattle.av_pool.specs.Tally.{tally};

    ghost both = { λ v w. tally (v.parts + w.parts) (v.put ++ w.put) (v.taken ++ w.taken) };

    ghost spent = { tally 0 [] [] };
}

/// An item is put.
pub struct Put;

impl<T> Outcome<T, PassTally<T>> for Put {
    ghost use Rattle.std.specs.Prelude.{◌≡◌, [], ◌∷◌, ◌++◌};
    ghost use Rattle.av_pool.specs.Tally.{tally};

    ghost then = { λ v x w. w ≡ tally v.parts (v.put ++ x ∷ []) v.taken };
}

impl<T> Lesson<T, PassTally<T>> for Put {
    ghost use Rattle.av_pool.specs.Tally.{Knows};

    ghost fact = { Knows };
}

/// An item is taken.
pub struct Took;

impl<T> Outcome<T, PassTally<T>> for Took {
    ghost use Rattle.std.specs.Prelude.{◌≡◌, [], ◌∷◌, ◌++◌};
    ghost use Rattle.av_pool.specs.Tally.{tally};

    ghost then = { λ v x w. w ≡ tally v.parts v.put (v.taken ++ x ∷ []) };
}

impl<T> Lesson<T, PassTally<T>> for Took {
    ghost use Rattle.av_pool.specs.Tally.{Knows};

    ghost fact = { Knows };
}
