//! The filter and the service for threads: gate, desk and pool, the engines and the loops, and what the audits promise that the `close`
//! calls of a gate and its desks give. A program takes all of it from here.
//!
//! ```text
//! let (gate, mut seat) = Gate::new(alloc, volume, Mode::FailClosed, Limits::greatest())?;
//! let desk = Desk::new(alloc, 1, Port::One, catalogue, Limits::greatest())?;
//! let ticket = gate.open(&rt, alloc, &mut seat, b"letter")?;   // messages go to and fro
//! let closed = close_all(gate, seats, receipts, desk, None)?;
//! ```
#![tactic(auto)]

pub mod apart;
pub mod certify;
pub mod closing;
pub mod laws;
pub mod looking;
pub mod merge;
mod sent;
pub mod still;
pub mod telling;
#[cfg(test)]
mod tests;
pub mod works;

pub use av_base::{Cause, Generation, Limits, Mode, OpenId, Port, StreamId, Version};
pub use av_desk::{Desk, Lent, Taken};
pub use av_ends::{Receipt, Ticket, TicketNote};
pub use av_engines::{End, Exchange, Watched, serve_filter, serve_further, serve_service};
pub use av_filter::{Filter, Mounted};
pub use av_frame::Message;
pub use av_gate::{Gate, Seat, Unclosed};
pub use av_loops::{DeskSide, GateSide, desk_done, desk_in, desk_out, gate_in, gate_out};
pub use av_pend::Answer;
pub use av_pool::{Giver, Pace, Pool, Stopped, Taker};
pub use av_service::Done;
pub use av_sigset::{Catalogue, SignatureSet};
pub use av_store::Volume;
pub use certify::is_certified;
pub use closing::{Closed, NotClosed, close_all};
pub use looking::Looking;
