//! What arrives at a socket, before anybody knows what it means: frames that come in pieces, with the time since which one is waited for,
//! and the frame by which a guard turns somebody away. No socket is here.
//!
//! ```text
//! let mut arriving = Arriving::since(now);        // a first frame is waited for since now
//! arriving.pass(bytes, now);                      // some bytes came
//! let late = arriving.begun();                    // since when one is waited for, if one is
//! ```
#![tactic(auto)]

pub mod place;
pub mod refusal;
#[cfg(test)]
mod tests;

pub use place::Arriving;
pub use refusal::{Front, REFUSAL_SIZE, TurnedAway, put_refusal, refusal_in, turned_away};
