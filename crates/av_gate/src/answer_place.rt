/// Where an answer stands in an audit: its event's place, and its own among the answers of that event.
#[derive(Clone, Copy, Debug, PartialEq, Eq)]
pub(crate) struct AnswerPlace {
    pub(crate) event: usize,
    pub(crate) answer: usize,
}

impl AnswerPlace {
    /// Of an open that waits: no event is there.
    pub(crate) const NOWHERE: AnswerPlace = AnswerPlace {
        event: usize::MAX,
        answer: 0,
    };
}
