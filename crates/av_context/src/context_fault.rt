use thiserror::Error;

/// Why a table of contexts refused a call.
#[derive(Clone, Copy, Debug, PartialEq, Eq, Error)]
pub enum ContextFault {
    /// No context is attached to the stream.
    #[error("NotFound")]
    NotFound,
    /// The count of the context would pass 2^64 - 1.
    #[error("RefsSpent")]
    RefsSpent,
}
