use thiserror::Error;

/// Why bytes are no order: the first of these that holds. Whoever reads them closes the connection.
#[derive(Clone, Copy, Debug, PartialEq, Eq, Error)]
pub enum OrderFault {
    /// The body would have fewer than 9 bytes or more than 1,048,585. It is told once the four bytes of the length are there.
    #[error("Length")]
    Length,
    /// No order has the body's first byte. It is told as soon as that byte is there.
    #[error("Kind")]
    Kind,
    /// No order of its kind has as many bytes. It is told with the kind.
    #[error("Shape")]
    Shape,
}

/// Why bytes are no word of a service: the first of these that holds. Whoever reads them closes the connection.
#[derive(Clone, Copy, Debug, PartialEq, Eq, Error)]
pub enum WordFault {
    /// The body would have fewer than 10 bytes or more than 30. It is told once the four bytes of the length are there.
    #[error("Length")]
    Length,
    /// No word has the body's first byte. It is told as soon as that byte is there.
    #[error("Kind")]
    Kind,
    /// A verdict before the greeting, or a second greeting. It is told with the kind.
    #[error("Greeting")]
    Greeting,
    /// The greeting is of another format than 1.
    #[error("Format")]
    Format,
    /// No verdict has that status.
    #[error("Status")]
    Status,
    /// No word of its kind and status has as many bytes.
    #[error("Shape")]
    Shape,
    /// A field is out of range: a number, a version or the place of an end is 0, an index is above 1,023, or a cause is unknown.
    #[error("Range")]
    Range,
}

/// Why a part can't be spelled.
#[derive(Clone, Copy, Debug, PartialEq, Eq, Error)]
pub enum UnfitPart {
    /// It has no bytes.
    #[error("Empty")]
    Empty,
    /// It has more than 1,048,576 bytes.
    #[error("TooLong")]
    TooLong,
}

/// Why an order can't be obeyed: no guard sends it, and the service closes the connection.
#[derive(Clone, Copy, Debug, PartialEq, Eq, Error)]
pub enum JudgeFault {
    /// A content begins under a number that is not above all before.
    #[error("NotAbove")]
    NotAbove,
    /// No content has begun under that number.
    #[error("Unknown")]
    Unknown,
    /// A content has more than 2^64 - 1 bytes.
    #[error("TooLong")]
    TooLong,
    /// The count at the end of a content is not that of the bytes that came.
    #[error("Count")]
    Count,
}
