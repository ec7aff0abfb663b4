//! A host: files are opened through a filter and its scanning service, both in this process, in threads that speak over two
//! connected sockets.
//!
//! ```text
//! let crew = Crew { openers: 2, workers: 2, has_spare: false };
//! let request = HostRequest { set, files: &files, crew, wishes };
//! let status = host_files(&rt, alloc, request, &mut out, &mut err);
//! ```
#![tactic(auto)]

mod carrying;
mod crew;
mod desks;
mod ends;
pub mod groups;
pub mod host;
mod lines;
pub mod opener;
mod service;
mod signal;
pub mod signatures;
mod staffed;
#[cfg(test)]
mod tests;
mod threads;
mod wire;

pub use groups::host_groups;
pub use host::{Crew, Host, HostRequest, Hosting, host_files, host_group};
pub use opener::Group;
pub use signatures::Signatures;
