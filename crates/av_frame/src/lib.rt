//! Messages between a filter and its scanning services, and the frames that carry them: eight kinds of message, each with
//! the port at which it goes or comes, whose fields are in their ranges by their type, the one spelling of each, a decoder that answers a message exactly for its spelling
//! and otherwise says which fault it is, and a feed for a stream of frames that is cut anywhere.
//!
//! ```text
//! encode_into(&Message::updated(Port::One, Version::new(7)), &mut out)?;
//! feed.push(&out)?;
//! assert!(matches!(feed.next()?, Some(message) if matches!(message.body(), Body::Updated { .. })));
//! ```
#![tactic(auto)]

pub mod cause;
pub mod decode;
pub mod encode;
pub mod end;
pub mod fault;
pub mod feed;
mod fields;
pub mod frames;
pub mod laws;
pub mod message;
pub mod outcome;
pub mod sizes;
#[cfg(test)]
mod tests;

pub use cause::{FailCause, NoChunkCause};
pub use end::End;
pub use fault::{FeedFault, FrameFault};
pub use feed::Feed;
pub use frames::ReadFrames;
pub use message::{Body, Message};
pub use outcome::Outcome;
