use crate::port_counts::PortCounts;
use av_base::Version;
use av_filter::Note;

/// What became of an event that was accepted.
#[derive(Clone, Copy, Debug, PartialEq, Eq)]
pub struct Settled {
    /// Its place in the audit, counted from 0.
    pub place: usize,
    /// What the filter told.
    pub note: Note,
    /// The filter's floor after it.
    pub floor: Version,
    /// How many answers it gave out, and how many messages of each port.
    pub answers: usize,
    pub messages: PortCounts,
}
