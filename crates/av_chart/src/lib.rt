//! A picture of a script's run: an SVG that has a row for each command, a lane for the volume, the opener, the filter, the port and
//! the scanning service, an arrow for each delivery of a message, a bar for each open, question, job and piece of work while it
//! lives, and each answer.
//!
//! ```text
//! let lines = Lines { from: 1, to: u64::MAX };
//! write_chart(alloc, b"run.avs", lines, &mut reader, &mut writer, turns)?;
//! ```
#![tactic(auto)]

pub mod chart;
pub mod escape;
pub mod fault;
pub mod happened;
mod happening;
pub mod label;
pub mod laws;
pub mod life;
pub mod living;
pub mod mark;
pub mod picture;
pub mod place;
pub mod spot;
#[cfg(test)]
mod tests;

pub use chart::{Lines, write_chart};
pub use fault::ChartFault;
