//! What the system tells of this process.

use av_base::device::read_into;
use std::fs;
use std::fs::Files;

// The bytes of a page of the system, and how often it is read at most.
const PAGE: usize = 4_096;

const READS: u64 = 64;

/// How many bytes of memory this process has; 0 where the system doesn't tell.
pub fn memory<R: Files>(rt: &R) -> u64 {
    let kibibytes = number_of(rt, "/proc/self/status", "VmRSS:").unwrap_or(0);
    kibibytes.saturating_mul(1_024)
}

/// The first number in the line of a page that begins with these words, where the system tells it.
pub fn number_of<R: Files>(rt: &R, path: &str, front: &str) -> Option<u64> {
    let mut page = [0u8; PAGE];
    let mut file = fs::open(rt, path).ok()?;
    let count = read_into(&mut file, &mut page, READS).ok()?;
    let text = str::from_utf8(page.get(..count)?).ok()?;
    for line in text.lines() {
        if let Some(rest) = line.strip_prefix(front) {
            return rest.split_ascii_whitespace().next()?.parse().ok();
        }
    }
    None
}
