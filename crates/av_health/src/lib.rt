//! What a guard reports of itself: how often it granted and denied, who is connected, and what it keeps. Its figures as bytes, which another
//! program reads, and as text, as metrics and as JSON. No socket is here.
//!
//! ```text
//! let bytes = report_bytes(alloc, &report)?;             // in the guard
//! let report = report_in(bytes)?;                        // in the program that asks
//! let text = text_of(alloc, &figures_of(&report))?;
//! ```
#![tactic(auto)]

pub mod counts;
pub mod figure;
pub mod laws;
pub mod report;
#[cfg(test)]
mod tests;

pub use counts::Counts;
pub use figure::{Figure, Sort, figures_of, json_of, metrics_of, text_of};
pub use report::{REPORT_SIZE, Report, report_bytes, report_in};
