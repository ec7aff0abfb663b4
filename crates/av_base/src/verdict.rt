/// The judgement of a content under a set of signatures.
#[derive(Clone, Copy, Debug, PartialEq, Eq)]
pub enum Verdict {
    /// No signature occurs in it.
    Clean,
    /// The first place at which a signature ends, as the count of bytes up to its last one, and the least index, counted
    /// from 0 in the set's order, of the signatures that end there.
    Infected { index: u32, end_at: u64 },
}
