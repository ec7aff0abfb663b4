use thiserror::Error;

/// Why a pool is not started, the first that holds. Want of memory comes last and has no word here.
#[derive(Clone, Copy, Debug, PartialEq, Eq, Error)]
pub enum StartFault {
    /// A pool has 1 to 16 workers.
    #[error("WorkersRange")]
    WorkersRange,
    /// A thread couldn't be started. Those that were have ended.
    #[error("NoThread")]
    NoThread,
}
