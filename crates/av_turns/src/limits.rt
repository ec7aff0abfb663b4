//! What each client and all together may hold, and how much a turn may take.

/// Bytes of input that each client may hold whatever others do: a small ask, and the front of another.
pub const FLOOR: u64 = 8_192;

/// Bytes of all shares for large asks: 64 at once of the greatest.
pub const POOL: u64 = 67_108_864;

/// The greatest share: the longest frame.
pub const MOST: u64 = 1_048_845;

/// A longer ask needs a share of the pool.
pub const SMALL: u64 = 4_096;

/// The most bytes of a turn.
pub const PIECE: u64 = 65_536;

/// The bytes of a round of turns, which those in the ring divide among them.
pub const ROUND: u64 = 262_144;

/// The bytes of a turn, however many are in the ring.
pub const LEAST_TURN: u64 = 4_096;

/// The most known asks and commands of a turn.
pub const KNOWNS: u64 = 16;

/// The known asks and commands of a round of turns.
pub const ROUND_KNOWNS: u64 = 128;

/// A client with more output than this, unsent or unanswered, is not read.
pub const OUT_READ: u64 = 16_384;

/// A turn that put so many bytes into the output ends.
pub const TURN_OUT: u64 = 4_096;

/// In a turn a client with more output than this is parsed no further.
pub const OUT_TURN: u64 = 20_480;

/// The longest answer to a command.
pub const SAY: u64 = 1_024;

/// Room for the answer to an ask of the open protocol.
pub const REPLY_OPENS: u64 = 64;

/// Room for the answer to an ask of clamd's protocol.
pub const REPLY_CLAMD: u64 = 1_024;

/// Small asks in line of one client.
pub const LINE_EACH: u64 = 16;

/// Bytes of the large questions that run, each counted with `QUESTION` more.
pub const LARGE_WINDOW: u64 = 1_048_576;

/// The same of the small ones: eight of the longest.
pub const SMALL_WINDOW: u64 = 294_912;

/// What a question counts beside its bytes.
pub const QUESTION: u64 = 32_768;

/// Small asks that leave the line between two large ones.
pub const SMALLS: u64 = 16;

/// Bytes that a client takes within the wait, while output waits.
pub const OUT_LEAST: u64 = 4_096;

/// Questions in a row without any reply, after which the service is lost.
pub const MISSES: u64 = 8;
