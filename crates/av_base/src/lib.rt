//! What every layer of Vizdroun speaks of: the numbers of streams, opens and signature sets, verdicts and causes, the
//! limits in their ranges, refusals that say why, and the small forms of text that files and scripts share.
//!
//! ```text
//! let limits = Limits::check(LimitValues::greatest().with(LimitField::Chunk, 512))?;
//! assert_eq!(Limits::check(LimitValues::greatest().with(LimitField::Jobs, 0)),
//!     Err(LimitFault::LimitZero { which: LimitField::Jobs }));
//! ```
#![tactic(auto)]

pub mod byte_list;
pub mod cause;
pub mod decimal;
pub mod device;
pub mod limits;
pub mod line;
pub mod message_id;
pub mod mode;
pub mod number;
pub mod overwrite;
pub mod parts;
pub mod port;
pub mod recorded;
pub mod refusal;
#[cfg(test)]
mod tests;
pub mod verdict;

pub use byte_list::ByteList;
pub use cause::Cause;
pub use device::{ReadFault, WriteFault};
pub use limits::{LimitFault, LimitField, LimitValues, Limits};
pub use message_id::MessageId;
pub use mode::Mode;
pub use number::{Generation, Lease, OpenId, StreamId, Version};
pub use parts::Part;
pub use port::Port;
pub use refusal::{Refusal, Refused};
pub use verdict::Verdict;
