//! The loops that carry messages between streams of frames and a gate, a desk and a pool, one for each thread of a program
//! that has both sides: into the gate and out of it, into the desk and out of it, and from the pool back to the desk.
//!
//! ```text
//! let sender = Sender::new(alloc, &stream);                                // one a side
//! let side = GateSide { rt: &rt, alloc, gate: &gate, port, sender: &sender };
//! gate_in(&side, &mut seat, &mut stream, turns)                            // frames that come: events of the gate, and frames
//! gate_out(&side, &mut seat)                                               // messages of the gate that others give out: frames
//! let side = DeskSide { rt: &rt, alloc, desk: &desk, sender: &sender };
//! desk_in(&side, &mut giver, &mut stream, turns)                           // frames that come: events of the desk, works, frames
//!                                                                          // or desk_in_running_works: runs most works itself
//! desk_done(&side, &mut taker)                                             // works that were run: events of the desk, and frames
//! desk_out(&side)                                                          // messages of the desk that others send: frames
//! ```
#![tactic(auto)]

mod desk_side;
mod ending;
mod gate_side;
mod sender;
#[cfg(test)]
mod tests;

pub use desk_side::{DeskSide, desk_done, desk_in, desk_in_running_works, desk_out};
pub use gate_side::{GateSide, gate_in, gate_out};
pub use sender::Sender;
