use crate::pended_open::PendedOpen;

/// An open whose scan was overtaken: it waits for one scan more, or has waited for too many. Either way it is still owed its
/// answer.
pub enum Again {
    /// One rescan more was counted.
    Held(PendedOpen),
    /// All rescans were counted before; the open is as it was.
    Spent(PendedOpen),
}
