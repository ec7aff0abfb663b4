use av_filter::FilterFault;
use thiserror::Error;

/// Why an event of a gate is refused, in the order of the tests.
#[derive(Clone, Copy, Debug, PartialEq, Eq, Error)]
pub enum GateFault {
    /// The audit, or the caller's seat, holds as many events as the limit allows.
    #[error("AuditFull")]
    AuditFull,
    /// The filter, or the volume below it, refuses the event.
    #[error("{0}")]
    Filter(FilterFault),
}
