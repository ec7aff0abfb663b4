use av_base::{Generation, StreamId, Verdict, Version};

/// One verdict of a cache, with the content that it is of and the signature set that it is under.
#[derive(Clone, Copy, Debug, PartialEq, Eq)]
pub struct Entry {
    pub stream: StreamId,
    pub generation: Generation,
    pub version: Version,
    pub verdict: Verdict,
}
