use thiserror::Error;

/// How an engine, or a loop over a stream of frames in a thread, came to its end.
#[derive(Clone, Copy, Debug, PartialEq, Eq, Error)]
pub enum End {
    /// All that it was to do is done, and all that it sent went out.
    #[error("Done")]
    Done,
    /// A read failed, or as many reads were made as were allowed.
    #[error("ReadFault")]
    ReadFault,
    /// A write failed, or took no byte.
    #[error("WriteFault")]
    WriteFault,
    /// What came next was no frame of a message.
    #[error("Frame")]
    Frame,
    /// The input ended.
    #[error("Closed")]
    Closed,
    /// Memory was refused.
    #[error("Memory")]
    Memory,
    /// The audit of the gate or desk was full.
    #[error("AuditFull")]
    AuditFull,
}
