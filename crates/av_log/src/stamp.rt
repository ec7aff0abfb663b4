//! Times in lines.

ghost use Rattle.std.specs.Prelude.{◌≡◌, ◌<◌};
ghost use Rattle.av_log.specs.Stamp.{IsStamp, month_of, stamp_text};

use httpdate::HttpDate;

// The last millisecond of the year 9999.
const LAST: u64 = 253_402_300_799_999;

/// A time of so many milliseconds since 1970 as RFC 3339 has it, in UTC: `2026-11-28T14:47:53.123Z`. A time after the year 9999 is told
/// as the last one of that year.
pub fn stamp_of(millis: u64) -> [u8; 24]
    ensures { IsStamp millis result }
{
    let told = millis.min(LAST);
    let Ok(date) = HttpDate::from_unix_secs(told / 1000) else {
        unreachable!();
    };
    stamped(date, (told % 1000) as u16)
}

// A date with so many milliseconds.

fn stamped(date: HttpDate, millis: u16) -> [u8; 24]
    requires { millis < 1000 }
    ensures { result ≡ stamp_text date.parts millis }
{
    let text = date.to_bytes();
    let [tens, ones] = month_of(text[9], text[10]);
    [
        text[12],
        text[13],
        text[14],
        text[15],
        b'-',
        tens,
        ones,
        b'-',
        text[5],
        text[6],
        b'T',
        text[17],
        text[18],
        b':',
        text[20],
        text[21],
        b':',
        text[23],
        text[24],
        b'.',
        b'0' + (millis / 100) as u8,
        b'0' + (millis % 100 / 10) as u8,
        b'0' + (millis % 100 % 10) as u8,
        b'Z',
    ]
}

// The number of a month, by the last two letters of its first three.
#[tactic(auto, unfolding(crate::specs::Stamp::month_of))]
fn month_of(second: u8, third: u8) -> [u8; 2]
    ensures { result ≡ month_of second third }
{
    match second {
        b'a' if third == b'n' => *b"01",
        b'a' if third == b'r' => *b"03",
        b'a' => *b"05",
        b'e' if third == b'b' => *b"02",
        b'e' if third == b'p' => *b"09",
        b'p' => *b"04",
        b'u' if third == b'n' => *b"06",
        b'u' if third == b'l' => *b"07",
        b'u' => *b"08",
        b'c' => *b"10",
        b'o' => *b"11",
        _ => *b"12",
    }
}
