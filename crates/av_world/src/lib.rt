//! The world: one volume, the signature sets that were published, a filter and a scanning service on each port, with the history of
//! all that happened to them and each message that they ever sent. What holds wherever a history leads is the contract of
//! `World::step` and `World::run`.
//!
//! ```text
//! let mut world = World::new(alloc, 1, Mode::FailClosed, Limits::greatest())?;
//! let report = world.step(alloc, Event::Create { name })?;  // its line: Line::Created { stream: 1 }
//! world.print(&report, &mut out)?;                          // stream 1 generation 1
//! world.close();
//! ```
#![tactic(auto)]

pub mod laws;
pub mod world;

pub use av_history::{
    Event, EventNote, Given, JudgeFault, Judged, Line, Patterns, Places, Report, StepFault,
};
pub use world::World;
