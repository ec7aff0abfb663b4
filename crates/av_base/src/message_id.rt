/// The id of one question: the filter's boot, and the question's number within that boot. Both are 1 or more in a
/// message, and no two questions of one volume have the same id.
#[derive(Clone, Copy, Debug, PartialEq, Eq, PartialOrd, Ord, Hash)]
pub struct MessageId {
    pub boot: u64,
    pub seq: u64,
}
