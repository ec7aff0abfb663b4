use thiserror::Error;

/// Why bytes are no ask: the first of these that holds. Whoever feeds them closes the connection.
#[derive(Clone, Copy, Debug, PartialEq, Eq, Error)]
pub enum AskFault {
    /// A fault was met before. The feed is of no further use.
    #[error("Broken")]
    Broken,
    /// The body would have fewer than 10 bytes or more than 1,048,841. It is told before the body came.
    #[error("Length")]
    Length,
    /// The body's first byte is not an ask's. It is told as soon as that byte is there.
    #[error("Kind")]
    Kind,
    /// The label goes past the end of the body.
    #[error("Label")]
    Label,
    /// The content has more than 1,048,576 bytes.
    #[error("Content")]
    Content,
}

/// Why bytes are no answer: the first of these that holds.
#[derive(Clone, Copy, Debug, PartialEq, Eq, Error)]
pub enum AnswerFault {
    /// A fault was met before. The feed is of no further use.
    #[error("Broken")]
    Broken,
    /// The body would have fewer than 10 bytes or more than 25. It is told before the body came.
    #[error("Length")]
    Length,
    /// No answer has the body's first byte. It is told as soon as that byte is there.
    #[error("Kind")]
    Kind,
    /// No answer of its kind has as many bytes.
    #[error("Shape")]
    Shape,
    /// No cause has that number.
    #[error("Cause")]
    Cause,
}

/// Why an ask can't be spelled.
#[derive(Clone, Copy, Debug, PartialEq, Eq, Error)]
pub enum TooLong {
    /// The label has more than 255 bytes.
    #[error("Label")]
    Label,
    /// The content has more than 1,048,576 bytes.
    #[error("Content")]
    Content,
}

/// Why bytes are nothing that a client sends that may send contents in parts: the first of these that holds. Whoever reads
/// them closes the connection.
#[derive(Clone, Copy, Debug, PartialEq, Eq, Error)]
pub enum ClientFault {
    /// The body would have fewer than 10 bytes or more than 1,048,841. It is told once the four bytes of the length are there.
    #[error("Length")]
    Length,
    /// The body's first byte is not 1, 5, 6 or 7. It is told as soon as that byte is there.
    #[error("Kind")]
    Kind,
    /// No body of its kind has as many bytes. It is told with the kind.
    #[error("Shape")]
    Shape,
    /// A part, or an end, of a tag under which no content is open. That of a part is told with its tag.
    #[error("Tag")]
    Tag,
    /// A content begins within another.
    #[error("Within")]
    Within,
    /// The label goes past the end of the body, or does not fill that of a beginning.
    #[error("Label")]
    Label,
    /// The content of an ask has more than 1,048,576 bytes.
    #[error("Content")]
    Content,
    /// A content ends neither whole nor given up.
    #[error("How")]
    How,
    /// The count at the end of a content is not that of the bytes that came in its parts, or they are more than can be counted.
    #[error("Count")]
    Count,
}

/// Why a content in parts can't be spelled.
#[derive(Clone, Copy, Debug, PartialEq, Eq, Error)]
pub enum UnfitPart {
    /// The label has more than 255 bytes.
    #[error("Label")]
    Label,
    /// A part has no bytes.
    #[error("Empty")]
    Empty,
    /// A part has more than 1,048,576 bytes.
    #[error("TooLong")]
    TooLong,
}
