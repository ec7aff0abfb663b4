//! What the words of several programs may ask for.

use av_status::tally::Wishes;

/// The files that were named, and what is printed of them.
#[derive(Drop)]
pub struct Named<'a> {
    pub files: Vec<&'a str>,
    /// A list of further ones.
    pub list: Option<List<'a>>,
    pub wishes: Wishes,
    /// No progress is shown.
    pub is_quiet: bool,
}

/// A list of further files: its own name, `-` for standard input, and the byte that ends each name in it.
#[derive(Clone, Copy, Debug, PartialEq, Eq)]
pub struct List<'a> {
    pub path: &'a str,
    pub end: u8,
}

/// What is scanned of the files that were named.
#[derive(Clone, Copy, Debug, PartialEq, Eq)]
pub struct Finding {
    /// A folder stands for the regular files in it and below it.
    pub is_recursive: bool,
    /// A file that can't be scanned is reported and passed over, as it always is where folders stand for files.
    pub keeps_going: bool,
    /// The most bytes of a file, from 1 to 2^63 - 1.
    pub max_size: u64,
}
