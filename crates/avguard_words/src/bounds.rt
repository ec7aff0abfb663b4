//! The bounds of the numbers that a guard is run with, and what they are where nothing is said of them: the same for the command line
//! and a configuration file.

/// The least and the greatest of a number.
#[derive(Clone, Copy, Debug, PartialEq, Eq)]
pub struct Bounds {
    pub least: u64,
    pub greatest: u64,
}

/// Of the seconds that a question may take.
pub const WAIT: Bounds = Bounds {
    least: 1,
    greatest: 86_400,
};

/// Of the bytes of contents that are kept.
pub const KEEP: Bounds = Bounds {
    least: 0,
    greatest: 1_099_511_627_776,
};

/// Of the bytes of a content in parts.
pub const SIZES: Bounds = Bounds {
    least: 1,
    greatest: 9_223_372_036_854_775_807,
};

/// Of the contents that are scanned at a time.
pub const QUESTIONS: Bounds = Bounds {
    least: 1,
    greatest: 256,
};

/// Of the clients that a program which opens paths serves at a time.
pub const CLIENTS: Bounds = Bounds {
    least: 1,
    greatest: 64,
};

/// Of a version.
pub const VERSIONS: Bounds = Bounds {
    least: 0,
    greatest: 18_446_744_073_709_551_615,
};

/// The most bytes of a socket's path.
pub const MAX_SOCKET: usize = 107;
