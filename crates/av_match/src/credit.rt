//! What windows may cost, and where they stop. What is passed over earns, and what is done for it is paid. No clause
//! speaks of speed, so the numbers are free to change.

/// Why bytes were not passed over.
#[derive(Clone, Copy, Debug, PartialEq, Eq, Drop)]
pub enum Stop {
    /// A pattern ends among them.
    Hit,
    /// They end before they show whether a pattern begins.
    Open,
    /// Windows would cost more than they spare.
    Costly,
}

/// What a step of six windows side by side costs, in units. A byte that is read by six parts without windows costs
/// about two, and a byte that is passed earns five quarters: windows go on where they are half as quick again and more.
pub const SIX_STEPS: usize = 36;

/// What a step of one window costs.
pub const ONE_STEP: usize = 10;

/// What it costs that six windows stop and each is looked at.
pub const ROUND: usize = 40;

/// What a walk costs for each byte.
const WALKED_BYTE: usize = 10;

/// The units that are left to pay with.
#[derive(Drop)]
pub struct Credit {
    units: usize,
}

impl Credit {
    /// What may be spent on so many bytes before any of them is passed.
    pub fn of(bytes: usize) -> Credit {
        Credit { units: bytes / 16 }
    }

    /// So many bytes were passed.
    pub fn earn(&mut self, bytes: usize) {
        self.units = self.units.saturating_add(bytes).saturating_add(bytes / 4);
    }

    /// Pays for a walk over so many bytes.
    pub fn pay_walk(&mut self, bytes: usize) -> Result<(), Stop> {
        self.pay(bytes.saturating_mul(WALKED_BYTE))
    }

    /// Pays so many units, or tells that they are not there.
    pub fn pay(&mut self, units: usize) -> Result<(), Stop> {
        self.units = self.units.checked_sub(units).ok_or(Stop::Costly)?;
        Ok(())
    }
}

/// Whether a quick way to read a piece is worth a trial: after each piece that it gave up more pieces go by without one.
#[derive(Drop)]
pub struct Patience {
    wait: u8,
    losses: u8,
}

impl Patience {
    /// The first piece is tried.
    pub fn new() -> Patience {
        Patience { wait: 0, losses: 0 }
    }

    /// Whether the next piece is to be tried.
    pub fn is_tried(&mut self) -> bool {
        if self.wait == 0 {
            return true;
        }
        self.wait -= 1;
        false
    }

    /// A piece was read that way.
    pub fn won(&mut self) {
        self.losses /= 2;
    }

    /// A piece was given up.
    pub fn lost(&mut self) {
        self.losses = if self.losses < 16 {
            2 * self.losses + 1
        } else {
            31
        };
        self.wait = self.losses;
    }
}
