//! A scan of many files by several threads, which reads as a scan by one: names go into a line-up at one end, and come out at the
//! other in the same order, each with the verdict of its file.
//!
//! ```text
//! let mut feed = Feed::new(&rt, alloc, names, Folders::Entered, bounds);
//! let status = scan_on(&scanning, &scanners, &mut feed, Tally::new(), &mut out, &mut err);
//! ```
#![tactic(auto)]

mod arrivals;
mod coming;
mod crew;
mod ended;
mod ending;
pub mod feed;
mod judging;
mod line_up;
mod matches;
mod moving;
mod on;
pub mod opening;
mod report;
pub mod scanning;
pub mod stretches;
pub mod told;
mod truth;

pub use av_quarantine::Seen;
pub use ended::scan_all;
pub use feed::{Feed, Folders};
pub use on::scan_on;
pub use opening::{Opening, Origin};
pub use scanning::{MAX_JOBS, Matches, Scanning, jobs_of};
pub use stretches::ReadAnywhere;
pub use told::{ScanEntry, Told, Unscanned};
