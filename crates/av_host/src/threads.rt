ghost use Rattle.std.specs.Prelude.{◌≤◌};

use av_desk::{Audit as DeskAudit, Event as DeskEvent};
use av_frame::Body;
use av_shared::closing::Closed;
use std::thread::{Threads, available_parallelism};

// A thread more is started for so many bytes of works: it takes longer to look at these than to start a thread.
const BYTES_A_THREAD: usize = 262_144;

// The bytes of the least work that counts: it takes longer to hand a smaller one to another thread than to run it.
const LEAST_WORK: usize = 16_384;

// As many threads look at most.
const MOST: usize = 16;

/// How many threads look at a run that was closed: one for each quarter of a MiB that its works of 16 KiB and more have, as far as there
/// are processors.
pub fn threads_for<R: Threads>(rt: &R, closed: &Closed) -> usize
    ensures { 1 ≤ result }
{
    let spare = match &closed.spare {
        None => 0,
        Some(audit) => bytes_of_works(audit),
    };
    let wanted = bytes_of_works(&closed.desk).saturating_add(spare) / BYTES_A_THREAD;
    if wanted < 2 {
        return 1;
    }
    match available_parallelism(rt) {
        Ok(processors) => processors.get().min(wanted).clamp(1, MOST),
        Err(_) => 1,
    }
}

// The bytes of all chunks of some size that came to a desk: each is lent as a work.
fn bytes_of_works(audit: &DeskAudit) -> usize {
    let mut bytes = 0usize;
    'events: for entry in &audit.events {
        if let DeskEvent::Receive { message } = entry.event() {
            if let Body::Chunk { bytes: chunk, .. } = message.body() {
                let size = chunk.as_slice().len();
                if size >= LEAST_WORK {
                    bytes = bytes.saturating_add(size);
                }
            }
        }
    }
    bytes
}
