//! Workers in threads, which run the works that a desk lends: works go in at one end, what their runs give comes out at the
//! other, and at the end nothing is lost.
//!
//! ```text
//! let (pool, mut giver, mut taker) = Pool::start(rt, alloc, 2, ())?;
//! giver.give(&rt, lent);                       // any thread may own the giver
//! let done = taker.take(&rt);                  // and any the taker
//! let stopped = pool.stop(&rt, giver, taker);  // what nobody took
//! ```
#![tactic(auto)]

mod crew;
mod fault;
mod giver;
mod item;
mod pace;
mod pool;
mod ran;
mod rest;
mod stopped;
mod taker;
mod tally;
#[cfg(test)]
mod tests;
mod worker;

pub use fault::StartFault;
pub use giver::Giver;
pub use pace::Pace;
pub use pool::Pool;
pub use stopped::Stopped;
pub use taker::Taker;
