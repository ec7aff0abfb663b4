//! How many bytes each kind of body has, its kind and its port among them. A size stands here alone: code and definitions
//! name it.

use av_base::limits::MAX_CHUNK;

/// Bytes of a kind, a port and a question's id: all of an Abort, and the front of every other message about a question.
pub const HEAD_SIZE: usize = 18;

/// Bytes of a Scan.
pub const SCAN_SIZE: usize = 42;

/// Bytes of a Chunk before its content: a head and an offset. One byte of content or more follows.
pub const CHUNK_HEADER: usize = 26;

/// Bytes of a NoChunk.
pub const NO_CHUNK_SIZE: usize = 27;

/// Bytes of a Hello.
pub const HELLO_SIZE: usize = 18;

/// Bytes of a Read.
pub const READ_SIZE: usize = 30;

/// Bytes behind a Reply's head, from its status on, where the verdict is clean.
pub const CLEAN_SIZE: usize = 9;

/// The same where the verdict is infected.
pub const INFECTED_SIZE: usize = 21;

/// The same where the scan failed.
pub const FAILED_SIZE: usize = 2;

/// Bytes of an Updated.
pub const UPDATED_SIZE: usize = 10;

/// The most bytes of a body: a Chunk's.
pub const MAX_BODY: usize = CHUNK_HEADER + MAX_CHUNK as usize;
