//! Readers, writers and memory that fail where a test wants it. Only tests stand on this crate.
//!
//! ```text
//! let mut reader = FakeReader::new(b"abc".as_slice()).in_pieces_of(1).failing_at(2);
//! let mut writer = FakeWriter::new(alloc).with(Fault::TakesNothing { write: 3 });
//! may_refuse(alloc);
//! let created = volume.create(alloc, b"a");
//! refuse_no_more(alloc);
//! ```
#![tactic(auto)]

mod memory;
mod reader;
mod writer;

pub use memory::{may_refuse, refuse_no_more};
pub use reader::FakeReader;
pub use writer::{FakeWriter, Fault};
