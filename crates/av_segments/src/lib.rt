//! A content that is scanned in stretches, each by its own thread. What they found is joined, and it is exactly what a scan of
//! the whole content finds.
//!
//! ```text
//! if may_be_cut(&scanners) {
//!     let mut front = Segment::empty(alloc, &scanners)?;
//!     let mut back = Segment::empty(alloc, &scanners)?;
//!     // Each in a thread of its own:
//!     let fed = front.feed(&scanners, b"..EIC") && back.feed(&scanners, b"AR..");
//!     let joined = fed && front.join(&scanners, &back);
//!     let findings = front.findings(alloc)?;      // EICAR is found, at 7
//! }
//! ```
#![tactic(auto)]

mod across;
pub mod cut;
mod edge;
pub mod laws;
pub mod segment;
#[cfg(test)]
mod tests;

pub use cut::may_be_cut;
pub use segment::Segment;
