//! Scripts: a volume with its mode and limits, and commands, one a line. They are read by a grammar and run over a world, and what
//! they print, as lines or as JSON, is defined apart from the printer.
//!
//! ```text
//! let script = parse_script(alloc, text)?;             // its commands, or its first bad line
//! run_script(alloc, &mut reader, &mut writer, turns)?; // the lines of a whole script
//! run_json(alloc, &mut reader, &mut writer, turns)?;   // an object a command
//! ```
#![tactic(auto)]

pub mod command;
mod hexadecimal;
pub mod laws;
pub mod reading;
pub mod run_json;
pub mod run_script;
pub mod script;
mod setting;
pub mod statement;
#[cfg(test)]
mod tests;
mod verb;
mod words;

pub use run_script::RunFault;
pub use script::{Script, ScriptFault};
