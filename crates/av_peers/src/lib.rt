//! The peers of a guard: its clients and its two services, each at a connection on which no call waits. What their bytes say, what they are
//! told, what they are owed, and since when they are waited for. The loop that serves them is av_daemon.
//!
//! ```text
//! let mut client = Client::of_opens(alloc, Line::new(alloc, stream, LEAST));
//! let count = client.read(&mut buffer)?;                         // what came, as far as there is room
//! let (taken, thing) = client.hear(&buffer[..count], sending)?;  // the next thing that it said
//! ```
#![tactic(auto)]

pub mod adopted;
pub mod asked;
pub mod belief;
pub mod client;
pub mod line;
pub mod parts;
pub mod service;
pub mod told;
pub mod watches;
