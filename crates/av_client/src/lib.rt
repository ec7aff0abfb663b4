//! A guard's client: it asks about contents, and asks how the guard is.
//!
//! ```text
//! let mut asker = Asker::connect(&rt, alloc, Meeting { path: "opens.socket", wait })?;
//! asker.ask("letter.txt", content)?;
//! asker.ask_in_parts("film.mkv", &mut reader)?;
//! asker.finish()?;
//! ```
#![tactic(auto)]

mod again;
mod asking;
mod reply;
mod reports;
mod sending;
#[cfg(test)]
mod tests;

pub use again::{Chance, Way, next_way};
pub use asking::{Asker, AskingFault};
pub use reply::Reply;
pub use reports::{PARTS_BEHIND, STATUS_BEHIND, beside, no_report, report_at, status_path};
pub use sending::{SendingFault, send_content, send_given_up};
