//! What a step of a world tells, as the lines of a script's output and as objects of JSON. Both are made of one definition of what
//! a message holds, and the objects lead back to the lines.
//!
//! ```text
//! print_report(&report, lists, &mut out)?;          // stream 1 generation 2 length 3
//! put_report(alloc, &report, lists, &mut line)?;    // {"kind":"changed","stream":1,..}
//! ```
#![tactic(auto)]

mod answer;
pub mod judgement;
pub mod laws;
mod line;
pub mod lists;
mod message;
mod note;
pub mod objects;
mod part;
pub mod refusal;
pub mod report;
mod told;
mod work;

pub use lists::Lists;
pub use message::Direction;
