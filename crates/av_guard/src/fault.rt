use thiserror::Error;

/// Why an ask is refused.
#[derive(Clone, Copy, Debug, PartialEq, Eq, Error)]
pub enum AskFault {
    /// No client of this number is there.
    #[error("NoClient")]
    NoClient,
    /// The content has more than 1,048,576 bytes.
    #[error("TooLarge")]
    TooLarge,
    /// No question is free, no open more can be held, or the volume takes no stream more. Ask again later.
    #[error("Busy")]
    Busy,
    /// All open numbers were given.
    #[error("OpensSpent")]
    OpensSpent,
    /// The content can't be kept: all stream numbers were given, the volume has as many streams as it may, or other contents
    /// have all 16 names of this one.
    #[error("Full")]
    Full,
}

/// Why no guard begins.
#[derive(Clone, Copy, Debug, PartialEq, Eq, Error)]
pub enum SettingsFault {
    /// The count of questions is not in 1 to 1,024.
    #[error("the questions are to be 1 to 1024")]
    Questions,
    /// The boot number is not in 1 to 16,777,216.
    #[error("the boot number is to be 1 to 16777216")]
    Boot,
}
