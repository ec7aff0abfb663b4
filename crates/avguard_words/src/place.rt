//! Places in the text of a configuration file.

use std::alloc::Global;
use toml_parser::{Key, dotted_key, quoted, starts_string};

/// A place in a text. A line counts from 1, and so does a column, which counts characters.
#[derive(Clone, Copy, Debug, PartialEq, Eq)]
pub struct Place {
    pub line: u64,
    pub column: u64,
}

impl Place {
    /// The place behind these bytes of a text's front.
    pub fn behind(front: &[u8]) -> Place {
        let mut place = Place { line: 1, column: 1 };
        'bytes: for byte in front {
            if *byte == b'\n' {
                place.line = place.line.saturating_add(1);
                place.column = 1;
            } else if *byte & 0xc0 != 0x80 {
                place.column = place.column.saturating_add(1);
            }
        }
        place
    }

    // Where the rest of a text begins.
    fn of_rest(whole: &str, rest: &str) -> Place {
        let count = whole.len().saturating_sub(rest.len());
        Place::behind(whole.as_bytes().get(..count).unwrap_or(b"".as_slice()))
    }
}

/// Where a key is, and its value.
#[derive(Clone, Copy, Debug, PartialEq, Eq)]
pub struct Found {
    pub key: Place,
    pub value: Place,
}

/// Where a document has a key: the first one that is written so, else the text's first place, also where memory is refused. A value
/// of several lines is passed over if it is a text. So a line of another such value may be taken for a key.
pub fn find_key(alloc: Global, whole: &str, key: &str) -> Found {
    let mut rest = whole.strip_prefix('\u{feff}').unwrap_or(whole);
    'lines: for _ in 0..whole.len() {
        rest = rest.trim_start();
        if rest.is_empty() {
            break;
        }
        if rest.starts_with('#') {
            rest = next_line(rest);
            continue;
        }
        let bare = rest.trim_start_matches('[').trim_start();
        let Ok((found, after)) = dotted_key(alloc, bare) else {
            rest = next_line(rest);
            continue;
        };
        let value = value_after(after).unwrap_or(rest);
        if begins_with(&found, key) {
            return Found {
                key: Place::of_rest(whole, rest),
                value: Place::of_rest(whole, value),
            };
        }
        rest = behind_value(alloc, value);
    }
    let first = Place { line: 1, column: 1 };
    Found {
        key: first,
        value: first,
    }
}

// The first part of a key.
fn begins_with(found: &Key, key: &str) -> bool {
    match found.path.first() {
        Some(first) => first.as_str() == key,
        None => found.last.as_str() == key,
    }
}

// A value, behind its key. The name of a table has none.
fn value_after(after: &str) -> Option<&str> {
    let value = after.strip_prefix('=')?;
    Some(value.trim_start_matches(' ').trim_start_matches('\t'))
}

fn behind_value(alloc: Global, value: &str) -> &str {
    if starts_string(value) {
        if let Ok((_, after)) = quoted(alloc, value) {
            return next_line(after);
        }
    }
    next_line(value)
}

// What follows the first line.
fn next_line(text: &str) -> &str {
    match text.split_once('\n') {
        Some((_, rest)) => rest,
        None => "",
    }
}
