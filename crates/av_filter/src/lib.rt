//! The filter: it holds each open until the present content of its stream is known to be clean under a signature set that
//! is new enough, or answers it for a cause. One function an event; specs/Conduct.antt says what each does.
#![tactic(auto)]

mod asking_again;
pub mod call;
mod changing;
mod closing;
mod ending;
mod ending_all;
pub mod fault;
pub mod filter;
pub mod laws;
mod losing;
pub mod mounted;
pub mod note;
mod opening;
pub mod out;
mod receiving;
mod running;
mod storing;
#[cfg(test)]
mod tests;
mod timing_out;

pub use call::FilterCall;
pub use fault::FilterFault;
pub use filter::Filter;
pub use mounted::Mounted;
pub use note::Note;
pub use out::Out;
