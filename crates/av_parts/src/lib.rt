//! The parts protocol: what a guard and a service say to each other of contents that come in parts. The guard sends orders:
//! a content begins, some of it comes, it is whole, or it is given up. The service greets, and says a verdict of each content.
//! Both come as frames over a byte stream, a length in four bytes and then a body; README.md has the table of bodies. No
//! socket stands here: bytes go in, bytes come out.
//!
//! ```text
//! put_order(&mut out, Order::Begin { number: 1 })?;
//! let heard = reader.hear(&out)?;
//! assert_eq!(heard.order, Some(Order::Begin { number: 1 }));
//! ```
#![tactic(auto)]

pub mod ended;
pub mod fault;
mod fields;
mod front;
pub mod judge;
pub mod laws;
pub mod newest;
pub mod order;
pub mod order_reader;
pub mod serve;
mod side;
pub mod sizes;
#[cfg(test)]
mod tests;
pub mod word;
pub mod word_reader;

pub use ended::Ended;
pub use fault::{JudgeFault, OrderFault, UnfitPart, WordFault};
pub use judge::Judge;
pub use newest::Newest;
pub use order::{Order, put_order};
pub use order_reader::{Heard, OrderReader};
pub use serve::serve_parts;
pub use word::{Said, Unjudged, Word, put_said};
pub use word_reader::WordReader;
