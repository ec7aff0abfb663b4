ghost use Rattle.std.specs.Prelude.{◌≡◌};
ghost use Rattle.av_turns.specs.Budget.{is_spent, spent};

use crate::limits::TURN_OUT;

/// What is left of the turn that is on.
#[derive(Clone, Copy, Debug, PartialEq, Eq)]
pub struct Budget {
    /// How many known asks and commands may still be parsed: 0 to 16.
    pub asks: u64,
    /// Bytes that the turn put into the output, with the room that it kept there for answers.
    pub said: u64,
}

impl Budget {
    /// The budget of a turn of so many known asks and commands.
    pub fn of(asks: u64) -> Budget
        ensures { result ≡ record { asks = asks; said = 0 } }
    {
        Budget { asks, said: 0 }
    }

    /// A thing was parsed, and put so many bytes into the output.
    pub fn spend(self, bytes: u64) -> Budget
        ensures { result ≡ spent bytes self }
    {
        Budget {
            asks: self.asks.saturating_sub(1),
            said: self.said.saturating_add(bytes),
        }
    }

    /// Whether nothing more may be parsed in the turn.
    pub fn is_spent(self) -> bool
        ensures { result ≡ is_spent self }
    {
        self.asks == 0 || self.said >= TURN_OUT
    }
}
