use crate::fault::{JudgeFault, OrderFault};
use std::alloc::AllocError;

/// How a service's connection ends.
#[derive(Clone, Copy, Debug, PartialEq, Eq)]
pub enum Ended {
    /// The guard closed the connection, between frames.
    Done,
    /// The guard closed the connection within a frame.
    Cut,
    /// A read failed.
    ReadFault,
    /// The reader reports that the guard was idle for too long.
    Idle,
    /// As many reads were made as were allowed.
    Spent,
    /// A write failed, or took no byte.
    WriteFault,
    /// What came is no order. All that came before it is done.
    Order(OrderFault),
    /// An order that no guard sends. All that came before it is done.
    Judge(JudgeFault),
    /// Out of memory.
    Memory,
}

impl From<AllocError> for Ended {
    ghost use Rattle.std.specs.Prelude.{◌≡◌};
    ghost use Rattle.av_parts.specs.declared.ended.Ended.TheVariants.{Memory};

    ghost from_gives = { λ _ e. e ≡ Memory };

    fn from(_e: AllocError) -> Ended {
        Ended::Memory
    }
}
