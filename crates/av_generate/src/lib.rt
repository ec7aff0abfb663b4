//! Scripts at random: the script of a seed is a head and so many commands, which are chosen by the numbers of the seed and by the
//! world that the commands so far have led to. The same seed gives the same script, and each line is one of the language.
//!
//! ```text
//! write_script(alloc, 7, 1_000, Profile::Deep, &mut writer)?;     // limit jobs 1, volume 1 closed, create a ..
//! ```
#![tactic(auto)]

mod draws;
mod fresh;
mod generator;
mod head;
pub mod laws;
mod lent;
mod profile;
mod script;
mod sight;
mod temper;
#[cfg(test)]
mod tests;
mod verb;
mod words;

pub use profile::Profile;
pub use script::{GenerateFault, write_script};
