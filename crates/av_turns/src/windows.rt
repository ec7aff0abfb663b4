ghost use Rattle.std.specs.Prelude.{◌≡◌};
ghost use Rattle.av_turns.specs.Windows.{added, cost_of, has_room, is_within, removed};

use crate::limits::{LARGE_WINDOW, QUESTION, SMALL, SMALL_WINDOW};

/// What the questions that run count. Small and large ones have a window each, so that none of the small waits for a large one.
#[derive(Clone, Copy, Debug, PartialEq, Eq)]
pub struct Windows {
    /// What the small ones count.
    pub small: u64,
    /// What the large ones count.
    pub large: u64,
}

impl Windows {
    /// Whether a question of so many bytes may be asked: one of its kind always may, and others as long as they are within its window.
    pub fn has_room(&self, bytes: u64) -> bool
        ensures { result ≡ has_room bytes self.now }
    {
        if bytes > SMALL {
            is_within(self.large, bytes, LARGE_WINDOW)
        } else {
            is_within(self.small, bytes, SMALL_WINDOW)
        }
    }

    /// The same with a question more, of so many bytes.
    pub fn with(self, bytes: u64) -> Windows
        ensures { result ≡ added bytes self }
    {
        let Windows { small, large } = self;
        if bytes > SMALL {
            let large = large.saturating_add(cost(bytes));
            Windows { small, large }
        } else {
            let small = small.saturating_add(cost(bytes));
            Windows { small, large }
        }
    }

    /// The same without a question of so many bytes.
    pub fn without(self, bytes: u64) -> Windows
        ensures { result ≡ removed bytes self }
    {
        let Windows { small, large } = self;
        if bytes > SMALL {
            let large = large.saturating_sub(cost(bytes));
            Windows { small, large }
        } else {
            let small = small.saturating_sub(cost(bytes));
            Windows { small, large }
        }
    }
}

// What a question of so many bytes counts in its window.
fn cost(bytes: u64) -> u64
    ensures { result ≡ cost_of bytes }
{
    bytes.saturating_add(QUESTION)
}

// Whether one more of so many bytes runs alone, or is within the window beside those that count so much.
fn is_within(running: u64, bytes: u64, window: u64) -> bool
    ensures { result ≡ is_within running bytes window }
{
    running == 0 || running.saturating_add(cost(bytes)) <= window
}
