use av_base::Mode;
use std::hash::RandomState;

/// What a guard begins with.
#[derive(Clone, Copy, Debug)]
pub struct Settings {
    pub mode: Mode,
    /// So many bytes of contents are kept for later asks.
    pub keep: u64,
    /// So many questions run at once, 1 to 1,024.
    pub questions: u64,
    /// The number of the filter's boot, 1 to 16,777,216, which each question and each reply carries. Draw it anew for each
    /// guard, so that no reply is prepared before its question is asked.
    pub boot: u64,
    /// The key of the names under which contents are kept. Draw it from the system for each guard, by `RandomState::new`, so
    /// that nobody can choose contents that share a name.
    pub key: RandomState,
}
