ghost use Rattle.av_loops.specs.Ends.{IsUnread};

use av_base::Refusal;
use av_engines::End;

/// How a loop ends at the refusal of an event that only a full audit or want of memory refuses.
pub(crate) fn end_of<F: Drop>(refusal: Refusal<F>) -> End
    ensures { IsUnread result }
{
    match refusal {
        Refusal::Fault(_) => End::AuditFull,
        Refusal::NoMemory => End::Memory,
    }
}
