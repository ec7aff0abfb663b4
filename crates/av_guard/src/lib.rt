//! The state of a daemon that takes opens of contents from any number of clients, and asks one scanning service. A content is
//! kept as a stream that is written once, and an ask is an open of it. One function an event; no socket, no lock, no audit.
//!
//! ```text
//! let settings = Settings { mode: Mode::FailClosed, keep: 67_108_864, questions: 256, boot, key: RandomState::new(&rt)? };
//! let mut guard = Guard::new(rt.alloc(), settings)?;
//! let client = guard.client()?;
//! let given = guard.ask(rt.alloc(), client, 7, content)?;      // told what is known at once, and what the service is asked
//! ```
#![tactic(auto)]

pub mod answered;
mod beginning;
pub mod class;
mod events;
pub mod fault;
pub mod given;
pub mod guard;
pub mod laws;
mod naming;
mod place;
pub mod settings;
mod settling;
mod shelf;
#[cfg(test)]
mod tests;
pub mod waiter;

pub use answered::Answered;
pub use class::Class;
pub use fault::{AskFault, SettingsFault};
pub use given::{GuardOut, Told};
pub use guard::Guard;
pub use settings::Settings;
