//! The two ends of a stream of frames, over any reader and writer, and the engines that run a filter and a scanning service
//! over one: every message that comes is an event, and every message that the event sends goes out at once.
//!
//! ```text
//! let mut incoming = Incoming::new(alloc, turns)?;
//! let message = incoming.next(&mut reader)?;
//! Outgoing::new(alloc).send(&mut writer, out.messages.as_slice())?;
//! ```
#![tactic(auto)]

pub mod exchange;
pub mod fresh;
pub mod incoming;
pub mod laws;
pub mod outgoing;
mod renewing;
pub mod serving;
mod tally;
#[cfg(test)]
mod tests;
pub mod watching;

pub use av_frame::End;
pub use exchange::Exchange;
pub use fresh::Fresh;
pub use incoming::Incoming;
pub use outgoing::Outgoing;
pub use serving::{CataloguedService, serve_fresh, serve_service};
pub use watching::{Watched, serve_filter, serve_further};
