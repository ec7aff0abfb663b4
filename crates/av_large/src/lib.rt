//! The guard's side of contents in parts: a client's content of any size is relayed to the scanning service as it comes, over a
//! second connection that the service makes, and nothing of it is kept. Each call is an event. It says which orders to send and
//! which answers to tell. No socket and no clock stands here.
//!
//! ```text
//! large.greet(floor, version)?;                                    // the service takes parts from here on
//! let begun = large.begin(Service::Connected, client, 7, most)?;   // Sent: Begin 1
//! let given = large.bring(client, b"AB");                          // order: Part 1 "AB"
//! let given = large.end(client, Ending::Whole);                    // order: End 1, 2 bytes
//! let told = large.hear(floor, word)?;                             // told: client, tag 7, granted
//! ```
#![tactic(auto)]

pub mod answer;
pub mod content;
pub mod fault;
mod held;
mod index;
pub mod large;
pub mod laws;
#[cfg(test)]
mod tests;

pub use answer::{Answer, Begun, LargeOut, Told};
pub use content::{Content, Ending, ServicePresence};
pub use fault::{BeginFault, Unwelcome};
pub use large::Large;
