use av_base::{Generation, StreamId, Version};

// What a verdict is found by.
#[derive(Clone, Copy, Debug, PartialEq, Eq, Hash)]
pub struct Key {
    pub stream: StreamId,
    pub generation: Generation,
    pub version: Version,
}
