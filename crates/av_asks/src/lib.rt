//! The open protocol: a client asks about a content under a tag of its own, and is told once that it is granted, denied,
//! or let through unscanned. Asks and answers come as frames over a byte stream, a length in four bytes and then a body;
//! README.md has the table of bodies. No socket stands here: bytes go in, bytes come out.
//!
//! ```text
//! put_ask(&mut out, 7, b"a", b"ABC")?;
//! feed.push(&out)?;
//! assert!(matches!(feed.next()?, Some(ask) if ask.tag == 7 && ask.content.as_slice() == b"ABC"));
//! ```
#![tactic(auto)]

pub mod answer;
pub mod answer_feed;
pub mod ask;
pub mod ask_feed;
pub mod client_reader;
pub mod content_answer;
pub mod contents;
pub mod fault;
mod fields;
mod head;
pub mod large_answer;
mod large_head;
pub mod laws;
pub mod sizes;
#[cfg(test)]
mod tests;
pub mod watch;

pub use answer::{OpenAnswer, put_answer};
pub use answer_feed::AnswerFeed;
pub use ask::{Ask, put_ask};
pub use ask_feed::AskFeed;
pub use client_reader::{ClientHeard, ClientReader, ClientSays};
pub use content_answer::{ContentAnswer, ContentAnswerFeed};
pub use contents::{How, put_begin, put_end, put_part};
pub use fault::{AnswerFault, AskFault, ClientFault, TooLong, UnfitPart};
pub use large_answer::{LargeAnswer, LargeCause, put_large_answer};
pub use watch::put_newer;
