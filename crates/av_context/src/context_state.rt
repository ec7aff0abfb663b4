use av_base::{MessageId, Verdict, Version};

/// What is known of the content of a stream.
#[derive(Clone, Copy, Debug, PartialEq, Eq)]
pub enum ContextState {
    /// It was written, and no scan of it runs.
    Modified,
    /// It is being scanned, by this question.
    Scanning(MessageId),
    /// It was judged under the signature set of this version.
    Judged { version: Version, verdict: Verdict },
}
