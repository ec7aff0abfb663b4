//! How many bytes stand where. A size stands here alone: code and definitions name it.

use av_base::limits::MAX_LENGTH;

/// Bytes of an ask's body before its label: its kind, its tag, and how many bytes the label has.
pub const ASK_HEAD: usize = 10;

/// The most bytes of a label.
pub const MAX_LABEL: usize = 255;

/// The most bytes of a content.
pub const MAX_CONTENT: usize = MAX_LENGTH as usize;

/// The most bytes of an ask's body.
pub const MAX_ASK: usize = ASK_HEAD + MAX_LABEL + MAX_CONTENT;

/// Bytes of the body of each answer: a kind, a tag, and its fields.
pub const GRANTED_SIZE: usize = 25;

/// The same of an answer that denies.
pub const DENIED_SIZE: usize = 10;

/// The same of an answer that lets through.
pub const UNSCANNED_SIZE: usize = 18;

/// Bytes of the body that begins a content, before its label: its kind, its tag, and how many bytes the label has.
pub const BEGIN_HEAD: usize = 10;

/// The most bytes of the body that begins a content.
pub const MAX_BEGIN: usize = BEGIN_HEAD + MAX_LABEL;

/// Bytes of a part's body before the part: its kind and its tag.
pub const PART_HEAD: usize = 9;

/// The most bytes of a part.
pub const MAX_PART: usize = 1_048_576;

/// The most bytes of a part's body.
pub const MAX_PART_BODY: usize = PART_HEAD + MAX_PART;

/// Bytes of the body that ends a content: its kind, its tag, how, and a count.
pub const END_SIZE: usize = 18;

/// Bytes of the body that asks for a newer version, and of the one that tells it: a kind, a tag, and a version.
pub const WATCH_SIZE: usize = 17;

/// The most bytes of a content in parts.
pub const MAX_COUNT: u64 = u64::MAX;
