//! What a history of the whole system is: the events of a volume, a filter and a scanning service on each port, where they lead by
//! the conduct of both cores, and what the audits of the three say together, whoever kept them.
//!
//! ```text
//! Event::Open { name, least }                    // one thing that happens
//! Report { line, before, after, note }           // what an accepted step tells
//! laws::audits();                                // the headline of three audits, put together in any order
//! ```
#![tactic(auto)]

pub mod event;
pub mod fault;
pub mod given;
pub mod laws;
pub mod pattern;
pub mod report;

pub use event::Event;
pub use fault::{JudgeFault, StepFault};
pub use given::Given;
pub use pattern::Patterns;
pub use report::{EventNote, Judged, Line, Places, Report};
