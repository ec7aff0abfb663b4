//! What the programs share: the standard streams held open, the words of the command line, standard output and error that know each
//! of the other, files by their names and why one can't be read, lists of names, and signature sets with the keys
//! that they are signed with.
//!
//! ```text
//! let _held = held(&rt);                                                  // no file takes the place of a closed standard stream
//! let words = command_line(&rt, alloc, &mut err)?;                        // or a line says which word is no text
//! let set = set_named(&rt, alloc, "test.avsig", Trust::Unsigned, EmptySets::Refused, &mut err)?;
//! ```
#![tactic(auto)]

pub mod keys;
pub mod list;
pub mod output;
pub mod reading;
pub mod scanners;
pub mod sets;
pub mod starting;

pub use keys::{key_asked, key_named};
pub use list::{failing, names_of, whole_text};
pub use output::{Errors, Output};
pub use reading::{
    Source, Why, is_folder, open_file, open_met, read_file, read_met, reasons, say_error,
    say_given, say_why, size_of, why_unread,
};
pub use scanners::{Sets, scanners_named};
pub use sets::set_named;
pub use starting::{command_line, held, progress, say_output_fault};
