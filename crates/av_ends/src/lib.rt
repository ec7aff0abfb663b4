//! What threads share beside a lock: a floor that only rises, and the answer of an open, which is shown once and stays.
//! Neither takes a lock or waits for anybody.
//!
//! ```text
//! let (floor, mut seat) = Floor::new(rt.alloc())?;
//! floor.raise(&mut seat, Version::new(3));
//! assert_eq!(floor.load(&mut seat), Version::new(3));
//!
//! let (ticket, due) = Ticket::new(rt.alloc(), OpenId::new(1), Version::new(3))?;
//! let mut note = ticket.note();
//! assert_eq!(ticket.poll(&mut note), None);
//! due.show(answer);
//! assert_eq!(ticket.poll(&mut note), Some(&answer));
//! ```
#![tactic(auto)]

pub mod floor;
mod steps;
#[cfg(test)]
mod tests;
pub mod ticket;
pub mod ticket_note;

pub use floor::{Floor, FloorSeat};
pub use ticket::{Due, Receipt, Ticket};
pub use ticket_note::TicketNote;
