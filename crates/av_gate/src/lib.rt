//! The gate: the filter behind a lock that many openers use at once, with an audit of every call.
#![tactic(auto)]

mod answer_place;
pub mod audit;
pub mod call;
mod checks;
pub mod closing;
mod copying;
pub mod entry;
pub mod fault;
pub mod gate;
mod happening;
pub mod locked;
mod naming;
pub mod patch;
pub mod port_counts;
mod port_waits;
mod same;
pub mod seat;
pub mod settled;
#[cfg(test)]
mod tests;

pub use audit::Audit;
pub use call::{Call, Event, NamedCall};
pub use closing::{CloseFault, Unclosed};
pub use entry::GateEntry;
pub use fault::GateFault;
pub use gate::Gate;
pub use locked::Locked;
pub use patch::Patch;
pub use port_counts::PortCounts;
pub use seat::{Seat, SeatCall};
pub use settled::Settled;
