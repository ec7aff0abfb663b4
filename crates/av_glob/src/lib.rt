//! Globs: which paths a user leaves out. A glob is read once, and then matched against any number of paths, each in a time that
//! grows with the product of both lengths, whatever the glob is.
//!
//! ```text
//! let glob = Glob::read(alloc, b"*.o")?;
//! assert!(glob.leaves_out(alloc, b"tree/a.o")? && !glob.leaves_out(alloc, b"tree/a.c")?);
//! ```
#![tactic(auto)]

pub mod class;
pub mod glob;
pub mod item;
pub mod reading;
mod row;

pub use glob::{Glob, any_leaves_out};
pub use item::Item;
pub use reading::GlobFault;
