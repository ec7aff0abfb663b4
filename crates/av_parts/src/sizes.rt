//! How many bytes stand where. A size stands here alone: code and definitions name it.

/// The most bytes of a part.
pub const MAX_PART: usize = 1_048_576;

/// Bytes of the body of an order that has a number alone: one that begins a content, and one that drops it.
pub const NUMBER_SIZE: usize = 9;

/// Bytes of a part's body before the part: its kind, and the content's number.
pub const PART_HEAD: usize = 9;

/// Bytes of the body of an order that ends a content.
pub const END_SIZE: usize = 17;

/// The most bytes of an order's body.
pub const MAX_ORDER: usize = PART_HEAD + MAX_PART;

/// The most bytes of an order that are kept until it is told: a frame's length, and the body of one that ends a content.
pub const ORDER_FRONT: usize = 21;

/// Bytes of the greeting's body.
pub const HELLO_SIZE: usize = 10;

/// Bytes of the body of a verdict that a content is clean.
pub const CLEAN_SIZE: usize = 26;

/// The same of a verdict that a signature occurs.
pub const INFECTED_SIZE: usize = 30;

/// The same of a content that has no verdict.
pub const UNJUDGED_SIZE: usize = 11;

/// The most bytes of a frame from a service.
pub const WORD_FRONT: usize = 34;

/// The greatest index of a signature.
pub const MAX_INDEX: u32 = 1_023;

/// The most contents that a service judges at once.
pub const MAX_HELD: usize = 4_096;

/// The most bytes of a content.
pub const MAX_COUNT: u64 = u64::MAX;
