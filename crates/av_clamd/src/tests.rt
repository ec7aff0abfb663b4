mod rows;

use crate::about::{About, date_of};
use crate::door::{Door, Heard, Sending};
use crate::reply::{Failing, Spoken, put_path_reply, put_reply, put_timed_out};
use crate::tests::rows::{LONG, PATH_REPLIES, PATHS, REPLIES, ROWS};
use av_fakes::{may_refuse, refuse_no_more};
use std::alloc::{AllocError, Global};
use std::test::Fail;

// Writes what was heard: S and a line, or A, a number, an end and a content, each with a bar behind it. Of a content in parts B,
// the number and the end, what came of it so far, a stroke, the bytes of all its parts, and a bar where it ends. Of a path P, the number,
// the end, M where it goes on past the first infected file and else F, the path, and a bar.
fn write_down(all: &[Heard<'_>], out: &mut Vec<u8>) -> Result<(), Fail> {
    for heard in all {
        match heard {
            Heard::Say(line) => {
                out.push(b'S')?;
                out.extend_from_slice(line)?;
                out.push(b'|')?;
            }
            Heard::Ask {
                number,
                end,
                content,
            } => {
                out.extend_from_slice(&[b'A', b'0'.wrapping_add((*number % 10) as u8), *end])?;
                out.extend_from_slice(content)?;
                out.push(b'|')?;
            }
            Heard::Begin { number, end, first } => {
                out.extend_from_slice(&[b'B', b'0'.wrapping_add((*number % 10) as u8), *end])?;
                out.extend_from_slice(first)?;
                out.push(b'/')?;
            }
            Heard::More(bytes) => out.extend_from_slice(bytes)?,
            Heard::End => out.push(b'|')?,
            Heard::Path {
                number,
                end,
                is_many,
                path,
            } => {
                let many = if *is_many { b'M' } else { b'F' };
                let number = b'0'.wrapping_add((*number % 10) as u8);
                out.extend_from_slice(&[b'P', number, *end, many])?;
                out.extend_from_slice(path)?;
                out.push(b'|')?;
            }
        }
    }
    Ok(())
}

// All that a door hears of a piece, one thing after the other.
fn hear_in<'a>(
    alloc: Global,
    door: &mut Door,
    piece: &'a [u8],
    sending: Sending,
) -> Result<Vec<Heard<'a>>, AllocError> {
    let mut all = Vec::new(alloc);
    let mut rest = piece;
    'things: while !rest.is_empty() {
        let (taken, one) = door.hear(rest, sending)?;
        rest = rest.get(taken..).unwrap_or(b"".as_slice());
        if let Some(one) = one {
            all.push(one)?;
        }
    }
    Ok(all)
}

// The same, of contents that go whole.
fn hear_all<'a>(
    alloc: Global,
    door: &mut Door,
    piece: &'a [u8],
) -> Result<Vec<Heard<'a>>, AllocError> {
    hear_in(alloc, door, piece, Sending::Whole)
}

// What a new door hears of these bytes, cut at these places, and D where it is done, else O.
fn heard(
    alloc: Global,
    sending: Sending,
    bytes: &[u8],
    first: usize,
    second: usize,
) -> Result<Vec<u8>, Fail> {
    heard_at(alloc, Door::new(alloc), sending, bytes, (first, second))
}

// The same of a door that was just made, cut at two places.
fn heard_at(
    alloc: Global,
    mut door: Door,
    sending: Sending,
    bytes: &[u8],
    cuts: (usize, usize),
) -> Result<Vec<u8>, Fail> {
    let (first, second) = cuts;
    let mut out = Vec::new(alloc);
    let (front, rest) = bytes.split_at(first.min(bytes.len()));
    let (middle, back) = rest.split_at(second.min(rest.len()));
    write_down(&hear_in(alloc, &mut door, front, sending)?, &mut out)?;
    write_down(&hear_in(alloc, &mut door, middle, sending)?, &mut out)?;
    write_down(&hear_in(alloc, &mut door, back, sending)?, &mut out)?;
    out.push(if door.is_done() { b'D' } else { b'O' })?;
    Ok(out)
}

#[test]
fn each_exchange_is_heard_however_it_is_cut(rt: HostRuntime) -> Result<(), Fail> {
    for (bytes, wanted) in ROWS.as_slice() {
        for cut in 0..=bytes.len() {
            let whole = heard(rt.alloc(), Sending::Whole, bytes, cut, 1)?;
            assert!(rt; whole.as_slice() == *wanted, "at {cut}");
            let parts = heard(rt.alloc(), Sending::InParts, bytes, cut, 1)?;
            assert!(rt; parts.as_slice() == *wanted, "at {cut}, in parts");
        }
    }
    Ok(())
}

#[test]
fn paths_are_handed_out_where_they_are_taken(rt: HostRuntime) -> Result<(), Fail> {
    for (bytes, wanted) in PATHS.as_slice() {
        for cut in 0..=bytes.len() {
            let door = Door::with_paths(rt.alloc());
            let out = heard_at(rt.alloc(), door, Sending::InParts, bytes, (cut, 1))?;
            assert!(rt; out.as_slice() == *wanted, "at {cut}");
        }
    }
    Ok(())
}

#[test]
fn each_verdict_of_a_path_is_spoken_as_clamd_speaks_it(rt: HostRuntime) -> Result<(), Fail> {
    for (number, end, path, verdict, wanted) in PATH_REPLIES.as_slice() {
        let mut out = Vec::new(rt.alloc());
        out.push(b'<')?;
        put_path_reply(&mut out, *number, *end, path, verdict)?;
        assert!(rt; out.as_slice() == *wanted);
    }
    Ok(())
}

#[test]
fn refused_or_not_a_path_is_replied_to(rt: HostRuntime) -> Result<(), Fail> {
    let mut out = Vec::new(rt.alloc());
    let verdict = Spoken::Failed(Failing::Unreadable);
    may_refuse(rt.alloc());
    let first = put_path_reply(&mut out, 5, 0, b"/a", &verdict);
    refuse_no_more(rt.alloc());
    if first.is_err() {
        assert!(rt; out.is_empty());
        put_path_reply(&mut out, 5, 0, b"/a", &verdict)?;
    }
    assert!(rt; out.as_slice() == b"5: /a: cannot read. ERROR\0".as_slice());
    Ok(())
}

// Bytes, each time with so many zeros behind them.
fn laid_out(alloc: Global, runs: &[(&[u8], usize)]) -> Result<Vec<u8>, AllocError> {
    let mut out = Vec::new(alloc);
    for (bytes, zeros) in runs {
        out.extend_from_slice(bytes)?;
        out.extend_from_slice(&vec![in alloc; 0u8; *zeros]?)?;
    }
    Ok(out)
}

#[test]
fn each_long_exchange_is_heard_however_it_is_cut(rt: HostRuntime) -> Result<(), Fail> {
    for (number, (sending, sent, wanted)) in LONG.as_slice().iter().enumerate() {
        let bytes = laid_out(rt.alloc(), sent)?;
        let wanted = laid_out(rt.alloc(), wanted)?;
        let mut at = 0usize;
        for (run, zeros) in *sent {
            // Of the longest a cut at each run's first byte is enough.
            let cuts = if bytes.len() < 200_000 { run.len() } else { 0 };
            for cut in at..=at.saturating_add(cuts) {
                let out = heard(rt.alloc(), *sending, &bytes, cut, 1)?;
                assert!(rt;
                    out.as_slice() == wanted.as_slice(),
                    "row {number} at {cut}"
                );
            }
            at = at.saturating_add(run.len()).saturating_add(*zeros);
        }
        let out = heard(rt.alloc(), *sending, &bytes, at / 2, at / 3)?;
        assert!(rt;
            out.as_slice() == wanted.as_slice(),
            "row {number} in its midst"
        );
    }
    Ok(())
}

#[test]
fn a_content_stays_on_its_way_where_the_other_is_chosen(rt: HostRuntime) -> Result<(), Fail> {
    let zeros = vec![in rt.alloc(); 0u8; 65_537]?;
    let mut door = Door::new(rt.alloc());
    assert!(rt;
        hear_all(
            rt.alloc(),
            &mut door,
            b"zIDSESSION\0zINSTREAM\0\0\x01\0\x01"
        )?
        .is_empty()
    );
    assert!(rt; hear_in(rt.alloc(), &mut door, &zeros, Sending::InParts)?.is_empty());
    assert!(rt; hear_in(rt.alloc(), &mut door, b"\0\0\0\x01a", Sending::InParts)?.is_empty());
    assert!(rt; !door.is_relaying() && door.begun() == Some(65_538));
    let all = hear_in(
        rt.alloc(),
        &mut door,
        b"\0\0\0\0zINSTREAM\0\0\x01\0\x01",
        Sending::InParts,
    )?;
    assert!(rt;
        matches!(all.as_slice(),
        [Heard::Ask { content, .. }, Heard::Begin { number: 2, end: 0, first }]
            if content.len() == 65_538 && first.is_empty()
    )
    );
    assert!(rt; door.is_relaying() && door.begun() == Some(0));
    let all = hear_all(rt.alloc(), &mut door, &zeros)?;
    assert!(rt; matches!(all.as_slice(), [Heard::More(bytes)] if bytes.len() == 65_537));
    assert!(rt; hear_all(rt.alloc(), &mut door, b"\0\x10")?.is_empty() && door.begun() == Some(2));
    assert!(rt; hear_all(rt.alloc(), &mut door, b"\0\x01")?.is_empty() && door.begun() == Some(0));
    let all = hear_all(rt.alloc(), &mut door, &zeros)?;
    assert!(rt; matches!(all.as_slice(), [Heard::More(bytes)] if bytes.len() == 65_537));
    assert!(rt; door.is_relaying() && !door.is_done());
    Ok(())
}

#[test]
fn parts_are_handed_out_as_they_lie_in_the_piece(rt: HostRuntime) -> Result<(), Fail> {
    let piece = b"nINSTREAM\n\0\x01\0\0abc";
    let mut door = Door::new(rt.alloc());
    assert!(rt; hear_in(rt.alloc(), &mut door, piece, Sending::InParts)?.is_empty());
    assert!(rt; door.begun() == Some(3) && !door.is_relaying());
    let mut door = Door::new(rt.alloc());
    let piece = b"nINSTREAM\n\0\x02\0\0abc";
    let (taken, begun) = door.hear(piece, Sending::InParts)?;
    assert!(rt;
        taken == 14
            && matches!(
                begun,
                Some(Heard::Begin {
                    number: 0,
                    end: 10,
                    ..
                })
            )
    );
    let (taken, more) = door.hear(&piece[14..], Sending::InParts)?;
    assert!(rt;
        taken == 3 && matches!(more, Some(Heard::More(bytes)) if bytes == b"abc".as_slice())
    );
    Ok(())
}

// A number from a seed, which goes on.
fn draw(seed: &mut u64, below: u64) -> u64 {
    *seed = seed
        .wrapping_mul(6_364_136_223_846_793_005)
        .wrapping_add(1_442_695_040_888_963_407);
    (*seed >> 33).checked_rem(below).unwrap_or(0)
}

const BYTES: &[u8] = b"\0\0\x01\x02\x03\n\rznPING SCAN/INSTREAMIDSESSIONEND\xff";

#[test]
fn mutated_exchanges_are_heard_alike_in_pieces(rt: HostRuntime) -> Result<(), Fail> {
    let mut seed = 1;
    for round in 0..20_000u64 {
        assert!(rt; is_heard_alike(rt.alloc(), &mut seed)?, "in round {round}");
    }
    Ok(())
}

fn is_heard_alike(alloc: Global, seed: &mut u64) -> Result<bool, Fail> {
    let mut bytes = Vec::new(alloc);
    for _ in 0..2u8 {
        let row = draw(seed, ROWS.len() as u64) as usize;
        let (row, _) = ROWS.as_slice().get(row).ok_or("a row")?;
        bytes.extend_from_slice(row)?;
    }
    for _ in 0..draw(seed, 4) {
        let at = draw(seed, bytes.len() as u64) as usize;
        let byte = draw(seed, BYTES.len() as u64) as usize;
        if at < bytes.len() && byte < BYTES.len() {
            bytes[at] = BYTES[byte];
        }
    }
    let (first, second) = (draw(seed, 60) as usize, draw(seed, 30) as usize);
    let mut is_alike = true;
    for sending in [Sending::Whole, Sending::InParts] {
        let whole = heard(alloc, sending, &bytes, 0, 0)?;
        let cut = heard(alloc, sending, &bytes, first, second)?;
        is_alike = is_alike && whole.as_slice() == cut.as_slice();
    }
    Ok(is_alike)
}

#[test]
fn a_command_has_1024_bytes_with_its_end(rt: HostRuntime) -> Result<(), Fail> {
    let mut long = vec![in rt.alloc(); b'A'; 1_024]?;
    assert_eq!(rt;
        heard(rt.alloc(), Sending::Whole, &long, 1_023, 1)?.as_slice(),
        b"D".as_slice()
    );
    assert_eq!(rt;
        heard(rt.alloc(), Sending::Whole, &long[1..], 9, 9)?.as_slice(),
        b"O".as_slice()
    );
    long[1_023] = b'\n';
    let out = heard(rt.alloc(), Sending::Whole, &long, 0, 0)?;
    assert_eq!(rt; out.as_slice(), b"SUNKNOWN COMMAND\n|D".as_slice());
    Ok(())
}

#[test]
fn a_content_of_1048576_bytes_is_asked_about(rt: HostRuntime) -> Result<(), Fail> {
    let content = vec![in rt.alloc(); b'x'; 1_048_576]?;
    let mut door = Door::new(rt.alloc());
    assert!(rt; hear_all(rt.alloc(), &mut door, b"zINSTREAM\0\x00\x10\x00\x00")?.is_empty());
    assert!(rt; hear_all(rt.alloc(), &mut door, &content)?.is_empty() && !door.is_done());
    let all = hear_all(rt.alloc(), &mut door, b"\0\0\0\0zPING\0")?;
    assert!(rt;
        matches!(all.as_slice(), [Heard::Ask { content, .. }] if content.len() == 1_048_576)
    );
    assert!(rt; door.is_done());
    Ok(())
}

const TOO_LONG: &[u8] = b"S1: stream: INSTREAM size limit exceeded. ERROR\0|";

#[test]
fn what_is_too_long_is_told_and_dropped(rt: HostRuntime) -> Result<(), Fail> {
    let content = vec![in rt.alloc(); 0u8; 1_048_577]?;
    let mut door = Door::new(rt.alloc());
    let mut out = Vec::new(rt.alloc());
    write_down(
        &hear_all(
            rt.alloc(),
            &mut door,
            b"zIDSESSION\0zINSTREAM\0\x00\x10\x00\x01",
        )?,
        &mut out,
    )?;
    assert_eq!(rt; out.as_slice(), TOO_LONG);
    assert!(rt; hear_all(rt.alloc(), &mut door, &content)?.is_empty());
    assert!(rt; hear_all(rt.alloc(), &mut door, b"\0\0\0\x04more\0\0\0\0")?.is_empty());
    let all = hear_all(rt.alloc(), &mut door, b"zINSTREAM\0\0\0\0\x03one\0\0\0\0")?;
    assert!(rt;
        matches!(all.as_slice(), [Heard::Ask { number: 2, end: 0, content }] if content.len() == 3)
    );
    assert!(rt; !door.is_done());
    Ok(())
}

#[test]
fn what_grows_too_long_ends_a_connection_once_it_was_read(rt: HostRuntime) -> Result<(), Fail> {
    let content = vec![in rt.alloc(); 0u8; 1_048_574]?;
    let mut door = Door::new(rt.alloc());
    let mut out = Vec::new(rt.alloc());
    write_down(
        &hear_all(
            rt.alloc(),
            &mut door,
            b"nINSTREAM\n\0\0\0\x03abc\x00\x0f\xff\xfe",
        )?,
        &mut out,
    )?;
    assert_eq!(rt;
        out.as_slice(),
        b"Sstream: INSTREAM size limit exceeded. ERROR\n|".as_slice()
    );
    assert!(rt; hear_all(rt.alloc(), &mut door, &content)?.is_empty() && !door.is_done());
    assert!(rt; hear_all(rt.alloc(), &mut door, b"\0\0\0\0")?.is_empty() && door.is_done());
    Ok(())
}

// A guard whose service judges, with three contents that wait.
const ABOUT: About = About {
    version: 27_500,
    date: *b"Sun Nov 29 16:59:53 2026",
    is_ready: true,
    waiting: 3,
};

// What a door says to a word that has learned this.
fn told(alloc: Global, mut door: Door, about: About, word: &[u8]) -> Result<Vec<u8>, Fail> {
    door.learn(about);
    heard_at(alloc, door, Sending::Whole, word, (2, 1))
}

#[test]
fn a_door_tells_what_it_has_learned(rt: HostRuntime) -> Result<(), Fail> {
    let alloc = rt.alloc();
    let version = told(alloc, Door::new(alloc), ABOUT, b"zVERSION\0")?;
    let wanted = b"SVizdroun 1/27500/Sun Nov 29 16:59:53 2026\0|D";
    assert!(&rt; version.as_slice() == wanted.as_slice(), "version");
    let none = About {
        version: 0,
        is_ready: false,
        waiting: 0,
        ..ABOUT
    };
    let version = told(alloc, Door::new(alloc), none, b"VERSION\n")?;
    assert!(&rt;
        version.as_slice() == b"SVizdroun 1\n|D".as_slice(),
        "no version"
    );
    let commands = told(alloc, Door::new(alloc), none, b"nVERSIONCOMMANDS\n")?;
    let wanted =
        b"SVizdroun 1| COMMANDS: PING VERSION VERSIONCOMMANDS STATS INSTREAM IDSESSION END\n|D";
    assert!(&rt; commands.as_slice() == wanted.as_slice(), "commands");
    Ok(())
}

#[test]
fn the_state_is_told_as_clamd_tells_it(rt: HostRuntime) -> Result<(), Fail> {
    let alloc = rt.alloc();
    let stats = told(alloc, Door::new(alloc), ABOUT, b"nSTATS\n")?;
    let wanted =
        b"SPOOLS: 1\n\nSTATE: VALID PRIMARY\nTHREADS: live 1  idle 0 max 1 idle-timeout 0\nQUEUE: 3 items\n\n\
        MEMSTATS: heap N/A mmap N/A used N/A free N/A releasable N/A pools 1 pools_used N/A pools_total N/A\nEND\n|D";
    assert!(&rt; stats.as_slice() == wanted.as_slice(), "ready");
    let away = About {
        is_ready: false,
        waiting: 0,
        ..ABOUT
    };
    let stats = told(alloc, Door::new(alloc), away, b"zSTATS\0")?;
    let wanted =
        b"SPOOLS: 1\n\nSTATE: INVALID PRIMARY\nTHREADS: live 1  idle 0 max 1 idle-timeout 0\nQUEUE: 0 items\n\n\
        MEMSTATS: heap N/A mmap N/A used N/A free N/A releasable N/A pools 1 pools_used N/A pools_total N/A\nEND\0|D";
    assert!(&rt; stats.as_slice() == wanted.as_slice(), "not ready");
    let unknown = heard(alloc, Sending::Whole, b"zSTATS\0", 1, 1)?;
    assert!(&rt;
        unknown.as_slice() == b"SUNKNOWN COMMAND\0|D".as_slice(),
        "unknown"
    );
    Ok(())
}

// Seconds since 1970, and the date of them.
const DATES: [(u64, &[u8; 24]); 7] = [
    (0, b"Thu Jan  1 00:00:00 1970"),
    (784_111_777, b"Sun Nov  6 08:49:37 1994"),
    (951_782_399, b"Mon Feb 28 23:59:59 2000"),
    (951_782_400, b"Tue Feb 29 00:00:00 2000"),
    (1_796_057_993, b"Mon Nov 30 16:59:53 2026"),
    (253_402_300_799, b"Fri Dec 31 23:59:59 9999"),
    (u64::MAX, b"Fri Dec 31 23:59:59 9999"),
];

#[test]
fn a_date_is_as_clamd_has_it(rt: HostRuntime) -> Result<(), Fail> {
    for (seconds, wanted) in DATES {
        assert!(rt;
            date_of(seconds).as_slice() == wanted.as_slice(),
            "{seconds}"
        );
    }
    Ok(())
}

#[test]
fn each_verdict_is_spoken_as_clamd_speaks_it(rt: HostRuntime) -> Result<(), Fail> {
    for (number, end, verdict, wanted) in REPLIES.as_slice() {
        let mut out = Vec::new(rt.alloc());
        out.push(b'<')?;
        put_reply(&mut out, *number, *end, verdict)?;
        assert!(rt; out.as_slice() == *wanted);
    }
    Ok(())
}

#[test]
fn who_says_nothing_is_told_with_the_last_commands_end(rt: HostRuntime) -> Result<(), Fail> {
    let mut door = Door::new(rt.alloc());
    assert_eq!(rt; door.end(), b'\n');
    assert!(rt; hear_all(rt.alloc(), &mut door, b"zIDSESSION\0nPI")?.is_empty());
    let mut out = Vec::new(rt.alloc());
    put_timed_out(&mut out, door.end())?;
    assert_eq!(rt; out.as_slice(), b"COMMAND READ TIMED OUT\0".as_slice());
    Ok(())
}

const SPOKEN: &[u8] =
    b"zIDSESSION\0zPING\0zINSTREAM\0\0\0\0\x03abc\0\0\0\0zSCAN /x\0zINSTREAM\0\0\0\0\x02de\0\x01\0\0f";

// How many things a door hears of a piece. It takes no memory of its own.
fn count_all(door: &mut Door, piece: &[u8]) -> Result<usize, AllocError> {
    let mut count = 0usize;
    let mut rest = piece;
    'things: while !rest.is_empty() {
        let (taken, one) = door.hear(rest, Sending::InParts)?;
        rest = rest.get(taken..).unwrap_or(b"".as_slice());
        if one.is_some() {
            count = count.saturating_add(1);
        }
    }
    Ok(count)
}

#[test]
fn refused_or_not_bytes_are_heard(rt: HostRuntime) -> Result<(), Fail> {
    let mut door = Door::new(rt.alloc());
    may_refuse(rt.alloc());
    let first = count_all(&mut door, SPOKEN);
    refuse_no_more(rt.alloc());
    match first {
        Ok(count) => assert!(rt; count == 5 && door.is_relaying() && !door.is_done()),
        Err(_) => assert!(rt;
            door.is_done() && hear_all(rt.alloc(), &mut door, SPOKEN)?.is_empty()
        ),
    }
    Ok(())
}

#[test]
fn refused_or_not_a_verdict_is_spoken(rt: HostRuntime) -> Result<(), Fail> {
    let mut out = Vec::new(rt.alloc());
    let verdict = Spoken::FoundAt {
        index: 3,
        version: 7,
    };
    may_refuse(rt.alloc());
    let first = put_reply(&mut out, 5, 0, &verdict);
    refuse_no_more(rt.alloc());
    if first.is_err() {
        assert!(rt; out.is_empty());
        put_reply(&mut out, 5, 0, &verdict)?;
    }
    assert!(rt; out.as_slice() == b"5: stream: signature-3-of-version-7 FOUND\0".as_slice());
    Ok(())
}

#[test]
fn refused_or_not_a_silent_client_is_told(rt: HostRuntime) -> Result<(), Fail> {
    let mut out = Vec::new(rt.alloc());
    may_refuse(rt.alloc());
    let first = put_timed_out(&mut out, b'\n');
    refuse_no_more(rt.alloc());
    if first.is_err() {
        assert!(rt; out.is_empty());
        put_timed_out(&mut out, b'\n')?;
    }
    assert!(rt; out.as_slice() == b"COMMAND READ TIMED OUT\n".as_slice());
    Ok(())
}
