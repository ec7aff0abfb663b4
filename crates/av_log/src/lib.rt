//! The log of a guard's decisions as values: what a line says of an answer or of the service, in words or as JSON; the lines that wait
//! to be written; the labels of what is asked about, until it is answered. No file and no clock is here.
//!
//! ```text
//! let fields = fields_of(alloc, &entry)?;
//! put_line(alloc, &mut line, Form::Words, &stamp_of(millis), fields.as_slice())?;
//! queue.put(line.as_slice());
//! ```
#![tactic(auto)]

pub mod entry;
pub mod field;
pub mod laws;
pub mod line;
pub mod notes;
pub mod pace;
pub mod queue;
pub mod stamp;
#[cfg(test)]
mod tests;

pub use entry::{AskSocket, Asked, Judged, LogEntry, Told, fields_of, is_logged};
pub use field::Field;
pub use line::{Form, put_line};
pub use notes::{AskNote, Notes};
pub use pace::is_due;
pub use queue::Queue;
pub use stamp::stamp_of;
