//! What is seen of a file and its folder before a move.
ghost use Rattle.std.specs.Prelude.{◌≡◌};
ghost use Rattle.av_quarantine.specs.Looks.{is_one_folder, why_not};

use crate::steps::MoveFault;
use std::fs;
use std::fs::{Files, Metadata};
use std::os::unix::fs::MetadataExt;
use std::path::Path;

/// A file as the system counts it: its device, and its number there. While a file is open or has a name, no other has both.
#[derive(Clone, Copy, Debug, PartialEq, Eq)]
pub struct Node {
    pub device: u64,
    pub number: u64,
}

impl Node {
    /// That of an open file, or of one that was looked at.
    pub fn of(metadata: &Metadata) -> Node {
        Node {
            device: metadata.dev(),
            number: metadata.ino(),
        }
    }
}

/// A file as it was seen: which one it is, its length, and when it was written to last, in nanoseconds to or from 1970. The number of a file
/// that is gone may be that of a new one, which was written later.
#[derive(Clone, Copy, Debug, PartialEq, Eq)]
pub struct Seen {
    pub node: Node,
    pub length: u64,
    pub written: u64,
}

impl Seen {
    /// An open file, or one that was looked at.
    pub fn of(metadata: &Metadata) -> Seen {
        Seen {
            node: Node::of(metadata),
            length: metadata.len(),
            written: metadata
                .mtime()
                .saturating_mul(1_000_000_000)
                .saturating_add(metadata.mtime_nsec())
                .unsigned_abs(),
        }
    }
}

/// What was found under a name.
#[derive(Clone, Copy)]
pub struct Found {
    pub is_regular: bool,
    pub seen: Seen,
}

/// What is under a path, a link not followed.
pub fn found_at<R: Files>(rt: &R, path: &str) -> Option<Found> {
    let metadata = fs::symlink_metadata(rt, path).ok()?;
    Some(Found {
        is_regular: metadata.is_file(),
        seen: Seen::of(&metadata),
    })
}

/// The folder of a path, a link followed.
pub fn folder_at<R: Files>(rt: &R, path: &str) -> Option<Node> {
    let metadata = fs::metadata(rt, path).ok()?;
    Some(Node::of(&metadata))
}

/// The path of the folder that a path is in.
pub fn parent_of(path: &str) -> &str {
    match Path::new(path).parent() {
        Some(parent) if !parent.as_str().is_empty() => parent.as_str(),
        _ => ".",
    }
}

/// Why what was found is not moved: `own` is the folder that it is in, `other` the one that it would be moved into.
pub fn why_not(
    judged: Seen,
    own: Option<Node>,
    other: Option<Node>,
    found: Option<Found>,
) -> Option<MoveFault>
    ensures { result ≡ why_not judged own other found }
{
    let Some(found) = found else {
        return Some(MoveFault::Another);
    };
    if !found.is_regular {
        return Some(MoveFault::NotRegular);
    }
    if found.seen != judged {
        return Some(MoveFault::Another);
    }
    if is_one_folder(own, other) {
        return Some(MoveFault::Inside);
    }
    None
}

fn is_one_folder(own: Option<Node>, other: Option<Node>) -> bool
    ensures { result ≡ is_one_folder own other }
{
    match (own, other) {
        (Some(own), Some(other)) => own == other,
        _ => false,
    }
}
