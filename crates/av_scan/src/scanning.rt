//! How files are scanned.
ghost use Rattle.std.specs.Prelude.{◌<◌, ◌≤◌, length, IfSome};

use av_status::Wishes;
use std::alloc::Global;
use std::thread::{Threads, available_parallelism};

/// The most threads that scan files.
pub const MAX_JOBS: usize = 64;

// As many threads scan where the system doesn't tell how many processors there are.
const JOBS: usize = 4;

/// Which signatures are reported of those that occur in a file.
#[derive(Clone, Copy, Debug, PartialEq, Eq)]
pub enum Matches {
    /// Of each set the one that ends first: the verdict.
    First,
    /// Each one, in the order of its set. The file is then read whole into memory.
    All,
}

/// What a scan of files runs on, and how it goes: the system and its memory, where files come from, which signatures are reported and
/// how many bytes a file may have, how many threads scan, what is written, whether someone looks at the lines as they come, and the folder
/// that infected files are moved into, where they are.
#[derive(Clone, Copy)]
pub struct Scanning<'a, R, O> {
    pub rt: R,
    pub alloc: Global,
    pub files: O,
    pub matches: Matches,
    pub max_size: u64,
    pub jobs: usize,
    pub wishes: Wishes,
    pub is_live: bool,
    pub folder: Option<&'a str>,
}

impl<'a, R, O> Scanning<'a, R, O> {
    /// A buffer for the bytes of files, where there is memory for it: of so many bytes for pieces, or of one byte more than a file may
    /// have, if it holds a whole one. That byte shows that a file is too large.
    pub(crate) fn buffer(&self, piece: usize) -> Option<Vec<u8>>
        requires { 0 < piece }
        ensures { IfSome result (λ buffer. 0 < length buffer.items) }
    {
        let size = match self.matches {
            Matches::First => piece,
            Matches::All => (self.max_size as usize).checked_add(1)?,
        };
        vec![in self.alloc; 0u8; size].ok()
    }
}

/// How many threads scan: as many as were asked for, else as many as there are processors, in any case 1 to 64.
pub fn jobs_of<R: Threads>(rt: &R, asked: Option<usize>) -> usize
    ensures least { 1 ≤ result }
    ensures most { result ≤ MAX_JOBS }
{
    match asked {
        Some(jobs) => jobs.clamp(1, MAX_JOBS),
        None => match available_parallelism(rt) {
            Ok(processors) => processors.get().clamp(1, MAX_JOBS),
            Err(_) => JOBS,
        },
    }
}
