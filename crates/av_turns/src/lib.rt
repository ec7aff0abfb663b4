//! Who is read next, and who holds how much memory: no socket, no clock but the one that is handed in.
#![tactic(auto)]

pub mod budget;
pub mod client;
pub mod clients;
pub mod laws;
pub mod limits;
pub mod line;
pub mod places;
pub mod questions;
pub mod queue;
#[cfg(test)]
mod tests;
pub mod times;
pub mod turns;
pub mod waits;
pub mod windows;

pub use client::{Client, Kind, Left};
pub use line::Standing;
pub use places::{Arrived, Nth};
pub use turns::{Admitted, Late, Next, Parsed, Thing, Turns, Why};
pub use waits::Waits;
