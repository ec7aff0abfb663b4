//! The storage of a filter's table: what is known of streams, the questions that run, the opens that wait for them, and the
//! verdicts that were kept. To its callers a table is the plain record `Table` of specs/Table.antt.
//!
//! ```text
//! let id = table.ask_for(port, stream, generation, held)?;            // a question runs, and an open waits for it
//! while let Some(held) = table.take_open(id.seq) { .. }               // each open is answered, in order
//! table.end_question(id.seq, ContextState::Modified);                 // and the question ends
//! ```
#![tactic(auto)]

pub mod answering;
mod asked;
mod chains;
pub mod filter_table;
mod moving;
pub mod pended;
pub mod ports;
pub mod present;
pub mod question;
pub mod rewriting;
mod stream_contexts;
#[cfg(test)]
mod tests;
mod waits;

pub use filter_table::FilterTable;
pub use pended::Pended;
pub use ports::Ports;
pub use question::Question;
pub use rewriting::Rewriting;
