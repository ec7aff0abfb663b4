use av_base::StreamId;

/// Who waits for an open: the client and the tag of the ask, and the stream of its content.
#[derive(Clone, Copy, Debug, PartialEq, Eq)]
pub struct Waiter {
    pub client: u64,
    pub tag: u64,
    pub stream: StreamId,
}
