//! Files: found in folders and lists, scanned one by one, or made streams of a volume, each with the line that the program prints.
//!
//! ```text
//! let scanner = Scanner::read(alloc, set_file, &mut err)?;
//! let verdict = scanner.scan_pieces("a.bin", &mut reader, &mut buffer, 4_000_000, &mut err)?;
//! add_file(alloc, &mut volume, file, &mut err)?;
//! ```
#![tactic(auto)]

pub mod contents;
pub mod finding;
pub mod listed;
pub mod object;
pub mod opened;
pub mod quoted;
pub mod scan;
pub mod scanner;
pub mod scanners;
pub mod streams;
#[cfg(test)]
mod tests;
pub mod under;
pub mod walk;

pub use contents::{Contents, GROUP_BYTES, content_of, counted_bytes};
pub use finding::{Finding, is_found};
pub use listed::{Failing, Listing, with_listed};
pub use object::line_failed;
pub use opened::{Opened, conclude_opened, count_opened, print_opened};
pub use quoted::quoted_name;
pub use scan::{Scanned, is_infected, print_scanned, scan_files};
pub use scanner::{FILE_BUFFER, Input, MAX_FILE, Scanner, admit_set, read_set};
pub use scanners::{NamedScanner, Scanners};
pub use streams::{TURNS, VOLUME, add_file, empty_volume, look_at, say_refused};
pub use under::{Under, print_one};
pub use walk::{Bounds, Met, Walk};
