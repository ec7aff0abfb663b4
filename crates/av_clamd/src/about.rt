//! What a guard tells of itself: the set by which it grants, and what it does now.

ghost use Rattle.std.specs.Prelude.{◌≡◌, ◌++◌, Some, OnOk};
ghost use Rattle.av_clamd.specs.About.{IsDate, date_text, queue_text, set_text, spaced, state_text, state_word, stats_text, version_text};

use crate::text::{put_between, put_number};
use httpdate::HttpDate;
use itoa::Buffer;
use std::alloc::AllocError;

// The last second of the year 9999.
const LAST: u64 = 253_402_300_799;

/// A guard at one moment.
#[derive(Clone, Copy, Debug, PartialEq, Eq)]
pub struct About {
    /// The version of the signature set that grants; 0 before the first.
    pub version: u64,
    /// When the guard took it up, as `date_of` has it.
    pub date: [u8; 24],
    /// Whether a service is there that judges.
    pub is_ready: bool,
    /// How many contents wait for their verdict.
    pub waiting: u64,
}

/// A time of so many seconds since 1970 as clamd has it, in UTC: `Sun Nov 29 16:59:53 2026`. A time after the year 9999 is told as the
/// last one of that year.
pub fn date_of(seconds: u64) -> [u8; 24]
    ensures { IsDate seconds result }
{
    let Ok(date) = HttpDate::from_unix_secs(seconds.min(LAST)) else {
        unreachable!();
    };
    dated(date)
}

// The bytes of a date in the order of clamd.
fn dated(date: HttpDate) -> [u8; 24]
    ensures { result ≡ date_text date.parts }
{
    let text = date.to_bytes();
    [
        text[0],
        text[1],
        text[2],
        b' ',
        text[8],
        text[9],
        text[10],
        b' ',
        spaced(text[5]),
        text[6],
        b' ',
        text[17],
        text[18],
        text[19],
        text[20],
        text[21],
        text[22],
        text[23],
        text[24],
        b' ',
        text[12],
        text[13],
        text[14],
        text[15],
    ]
}

// The first digit of a day, or a space in place of 0.
fn spaced(digit: u8) -> u8
    ensures { result ≡ spaced digit }
{
    if digit == b'0' { b' ' } else { digit }
}

// Appends what is answered to VERSION.
#[tactic(auto, unfolding(crate::specs::About::version_text))]
pub fn put_version(out: &mut Vec<u8>, about: Option<About>) -> Result<(), AllocError>
    ensures { OnOk result (out.new.items ≡ out.old.items ++ version_text about) }
{
    out.extend_from_slice(b"Vizdroun 1")?;
    match about {
        Some(about) if about.version > 0 => put_set(out, about),
        _ => Ok(()),
    }
}

// Appends the version of the set, and when it was taken up.
fn put_set(out: &mut Vec<u8>, about: About) -> Result<(), AllocError>
    ensures { OnOk result (out.new.items ≡ out.old.items ++ set_text about) }
{
    out.push(b'/')?;
    put_number(out, about.version)?;
    out.push(b'/')?;
    out.extend_from_slice(&about.date)
}

// Appends what is answered to STATS.
pub fn put_stats(out: &mut Vec<u8>, about: About) -> Result<(), AllocError>
    ensures { OnOk result (out.new.items ≡ out.old.items ++ stats_text about) }
{
    put_state(out, about.is_ready)?;
    put_queue(out, about.waiting)?;
    out.extend_from_slice(
        b"MEMSTATS: heap N/A mmap N/A used N/A free N/A releasable N/A pools 1 pools_used N/A pools_total N/A\nEND",
    )
}

// Appends whether contents are judged.
#[tactic(auto, unfolding(crate::specs::About::state_text))]
fn put_state(out: &mut Vec<u8>, is_ready: bool) -> Result<(), AllocError>
    ensures { OnOk result (out.new.items ≡ out.old.items ++ state_text is_ready) }
{
    put_between(
        out,
        b"POOLS: 1\n\nSTATE: ",
        state_word(is_ready),
        b" PRIMARY\n",
    )
}

fn state_word(is_ready: bool) -> &'static [u8]
    ensures { result.now ≡ state_word is_ready }
{
    if is_ready { b"VALID" } else { b"INVALID" }
}

// Appends how many threads judge, and how many contents wait.
#[tactic(auto, unfolding(crate::specs::About::queue_text))]
fn put_queue(out: &mut Vec<u8>, waiting: u64) -> Result<(), AllocError>
    ensures { OnOk result (out.new.items ≡ out.old.items ++ queue_text waiting) }
{
    let mut buffer = Buffer::new();
    put_between(
        out,
        b"THREADS: live 1  idle 0 max 1 idle-timeout 0\nQUEUE: ",
        buffer.format(waiting).as_bytes(),
        b" items\n\n",
    )
}
