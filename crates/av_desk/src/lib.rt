//! The scanning service shared by threads: one lock, under which each call is one event of the service, with an audit of
//! all that it was asked and gave out; and works that go out with the automaton of their version.
//!
//! ```text
//! let desk = Desk::new(alloc, 1, Port::One, catalogue, limits)?;
//! desk.connect(&rt, alloc)?;                        // Hello waits for `wait_outgoing`
//! let taken = desk.message(&rt, alloc, chunk)?;     // a `Lent`, for whichever thread
//! desk.finish(&rt, alloc, lent.run())?;             // Read, or Reply
//! let audit = desk.close();
//! ```
#![tactic(auto)]

pub mod audit;
pub mod desk;
pub mod entry;
pub mod event;
pub mod fault;
mod given;
pub mod lent;
pub mod locked;
pub mod setup;
pub mod shared;
#[cfg(test)]
mod tests;

pub use audit::Audit;
pub use desk::Desk;
pub use entry::DeskEntry;
pub use event::Event;
pub use fault::DeskFault;
pub use lent::{Lent, LentParcel, Taken};
pub use locked::Locked;
pub use setup::Setup;
pub use shared::SharedAutomaton;
