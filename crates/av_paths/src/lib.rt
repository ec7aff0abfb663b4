//! A program that opens paths for others: clients of clamd's protocol name a file or a folder at a socket, it reads the files with its
//! own rights, and asks a guard about their contents. A thread for each client, up to a limit.
//!
//! ```text
//! let opening = Opening { door: "paths.socket", opens: "opens.socket", below: &["/srv/mail"], wait: 30, clients: 16, rights: 0o600 };
//! let status = open_paths(&rt, alloc, opening, &mut err);     // it ends where it can't begin
//! ```
#![tactic(auto)]

mod below;
mod client;
mod content;
mod course;
mod files;
mod judging;
mod line;
mod opening;
mod streamed;
#[cfg(test)]
mod tests;
mod verdict;

pub use below::{is_below, is_plain};
pub use content::{Manner, ask_content, kept_size, manner_of, way_again};
pub use course::{Course, a_clean_folder_has_clean_files};
pub use opening::{Opening, Opens, open_paths};
pub use verdict::{clean_is_granted, spoken_of, spoken_of_stream};
