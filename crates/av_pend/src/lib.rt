//! One open that waits for a verdict. It is answered exactly once: a `PendedOpen` can be neither copied nor let go, and each
//! call that gives an answer spends it.
//!
//! ```text
//! let pended = PendedOpen::new(OpenId::new(1), StreamId::new(7), Version::new(3));
//! let answer = pended.refuse(Mode::FailClosed, generation, Cause::TimedOut);
//! assert_eq!(answer, Answer::Denied { open_id: OpenId::new(1), cause: Cause::TimedOut });
//! ```
#![tactic(auto)]

pub mod again;
pub mod answer;
pub mod pended_open;
#[cfg(test)]
mod tests;

pub use again::Again;
pub use answer::Answer;
pub use pended_open::PendedOpen;
