//! The guard as a program: it takes opens of contents from any number of clients at a socket, asks the two scanning services that
//! come to another, and answers each client. One thread, which waits for nothing but the next thing that can be done.
//!
//! ```text
//! guard_at(&rt, alloc, Guarding { doors, mode, keep: 67_108_864, questions: 256, wait, rights: 0o600, service_rights: 0o600, .. }, &mut err);
//! ```
#![tactic(auto)]

mod daemon;
mod descriptors;
mod door;
mod guarding;
mod keeping;
mod log;
mod names;
mod process;
mod recorder;

pub use guarding::{Doors, Guarding, Sizes, guard_at};
pub use recorder::Logging;
