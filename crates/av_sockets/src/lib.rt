//! A filter and its scanning service as two programs that meet at a socket: a file that the filter makes and the service finds.
//!
//! ```text
//! let meeting = Meeting { path: "avscan.socket", wait: Duration::from_secs(30) };
//! let filtering = Filtering { rt: &rt, alloc, meeting, mode: 0o600, files: &files };
//! filter_files(filtering, &names, wishes, &mut out, &mut err);                           // in the one
//! let beginning = Beginning { port: Port::One, set, watched: None };
//! serve_at(&rt, alloc, meeting, beginning, &mut out, &mut err);                          // in the other
//! ```
#![tactic(auto)]

mod duplex;
pub mod fault;
pub mod filter;
pub mod group;
mod line;
pub mod looks;
mod mount;
mod opener;
mod second;
pub mod service;
mod sharing;
pub mod sockets;
#[cfg(test)]
mod tests;
pub mod tries;
pub mod watch;

pub use duplex::{Duplex, Hearing, Saying};
pub use fault::SocketFault;
pub use filter::{Filtering, filter_files};
pub use looks::{Look, looked_at};
pub use service::{Beginning, serve_at};
pub use sockets::{Meeting, Node, connect, listen, remove_own};
pub use watch::Watched;
