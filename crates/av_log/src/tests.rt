use crate::entry::{AskSocket, Asked, Judged, LogEntry, Told, fields_of};
use crate::line::{Form, put_line};
use crate::queue::Queue;
use crate::stamp::stamp_of;
use av_asks::LargeCause;
use av_base::{Cause, Port, Version};
use std::alloc::{AllocError, Global};
use std::test::Fail;

#[test]
fn a_time_is_told_as_its_date(rt: HostRuntime) -> Result<(), Fail> {
    for (millis, text) in [
        (0, b"1970-01-01T00:00:00.000Z"),
        (951_782_400_000, b"2000-02-29T00:00:00.000Z"),
        (951_868_799_999, b"2000-02-29T23:59:59.999Z"),
        (1_709_164_800_001, b"2024-02-29T00:00:00.001Z"),
        (1_795_877_273_123, b"2026-11-28T14:47:53.123Z"),
        (4_102_444_799_999, b"2099-12-31T23:59:59.999Z"),
        (253_402_300_799_999, b"9999-12-31T23:59:59.999Z"),
        (u64::MAX, b"9999-12-31T23:59:59.999Z"),
    ] {
        assert!(&rt; stamp_of(millis) == *text, "{millis}");
    }
    Ok(())
}

// The line of an entry at the first moment.
fn line(alloc: Global, form: Form, entry: &LogEntry<'_>) -> Result<Vec<u8>, AllocError> {
    let mut out = Vec::new(alloc);
    let fields = fields_of(alloc, entry)?;
    put_line(alloc, &mut out, form, &stamp_of(0), fields.as_slice())?;
    Ok(out)
}

#[test]
fn a_label_is_told_in_quotes(rt: HostRuntime) -> Result<(), Fail> {
    let told = Told {
        judged: Judged::Denied {
            cause: Cause::NotConnected,
        },
        name: None,
        way: AskSocket::Opens,
        client: 3,
        tag: 5,
        asked: Some(Asked {
            bytes: 68,
            label: Some(b"a \"\\\n\x7f\xff~".as_slice()),
        }),
    };
    let words = line(rt.alloc(), Form::Words, &LogEntry::Told(told))?;
    let object = line(rt.alloc(), Form::Json, &LogEntry::Told(told))?;
    assert!(&rt;
        words.as_slice()
            == b"time=1970-01-01T00:00:00.000Z event=answer answer=denied cause=3 why=\"not connected\" socket=opens client=3 tag=5 bytes=68 label=\"a \\x22\\x5c\\x0a\\x7f\\xff~\"\n".as_slice()
    );
    assert!(rt;
        object.as_slice()
            == b"{\"time\":\"1970-01-01T00:00:00.000Z\",\"event\":\"answer\",\"answer\":\"denied\",\"cause\":3,\"why\":\"not connected\",\"socket\":\"opens\",\"client\":3,\"tag\":5,\"bytes\":68,\"label_hex\":\"6120225c0a7fff7e\"}\n".as_slice()
    );
    Ok(())
}

#[test]
fn a_line_without_room_is_counted_and_told_once(rt: HostRuntime) -> Result<(), Fail> {
    let mut queue = Queue::new(rt.alloc(), 6)?;
    queue.put(b"abc\n");
    queue.put(b"def\n");
    queue.put(b"g\n");
    let dropped_early = queue.take_dropped();
    queue.gone(2);
    queue.drop_begun();
    let left = queue.piece(9) == b"g\n".as_slice();
    queue.gone(2);
    let (dropped, again) = (queue.take_dropped(), queue.take_dropped());
    assert!(rt; left && (dropped_early, dropped, again) == (0, 2, 0));
    Ok(())
}

#[test]
fn a_version_has_its_event(rt: HostRuntime) -> Result<(), Fail> {
    let entry = LogEntry::Older {
        version: Version::new(3),
        least: Version::new(7),
    };
    let words = line(rt.alloc(), Form::Words, &entry)?;
    assert!(rt;
        words.as_slice()
            == b"time=1970-01-01T00:00:00.000Z event=service state=refused version=3 least=7\n".as_slice()
    );
    Ok(())
}

#[test]
fn a_service_has_lines_that_name_its_port(rt: HostRuntime) -> Result<(), Fail> {
    let version = Version::new(7);
    for (entry, text) in [
        (
            LogEntry::Connected {
                port: Port::One,
                version,
            },
            b"state=connected version=7 port=1\n".as_slice(),
        ),
        (LogEntry::Lost(Port::Two), b"state=lost port=2\n".as_slice()),
        (
            LogEntry::Newer {
                port: Port::Two,
                version,
            },
            b"state=newer version=7 port=2\n".as_slice(),
        ),
        (
            LogEntry::Stuck(Port::One),
            b"state=stuck port=1\n".as_slice(),
        ),
        (
            LogEntry::Quiet(Port::Two),
            b"state=quiet port=2\n".as_slice(),
        ),
    ] {
        let begun = b"time=1970-01-01T00:00:00.000Z event=service ".as_slice();
        let wanted = [begun, text].concat(rt.alloc())?;
        assert!(&rt; line(rt.alloc(), Form::Words, &entry)? == wanted);
    }
    Ok(())
}

#[test]
fn contents_in_parts_have_causes_of_their_own(rt: HostRuntime) -> Result<(), Fail> {
    for (cause, text) in [
        (
            LargeCause::AskAgain,
            b"cause=11 why=\"ask again\"".as_slice(),
        ),
        (
            LargeCause::TooLarge,
            b"cause=12 why=\"too large\"".as_slice(),
        ),
        (LargeCause::GivenUp, b"cause=13 why=\"given up\"".as_slice()),
        (
            LargeCause::NoParts,
            b"cause=14 why=\"takes no parts\"".as_slice(),
        ),
    ] {
        for (judged, answer) in [
            (Judged::LargeDenied { cause }, b"denied".as_slice()),
            (Judged::LargeUnscanned { cause }, b"unscanned".as_slice()),
        ] {
            let told = Told {
                judged,
                name: None,
                way: AskSocket::Clamd,
                client: 1,
                tag: 2,
                asked: None,
            };
            let words = line(rt.alloc(), Form::Words, &LogEntry::Told(told))?;
            let begun = b"time=1970-01-01T00:00:00.000Z event=answer answer=";
            let wanted = [begun, answer, b" ", text, b" socket=clamd client=1 tag=2\n"].concat(
                rt.alloc(),
            )?;
            assert!(&rt; words == wanted);
        }
    }
    Ok(())
}

#[test]
fn a_second_connection_has_lines(rt: HostRuntime) -> Result<(), Fail> {
    let version = Version::new(7);
    let least = Version::new(9);
    for (entry, text) in [
        (
            LogEntry::PartsConnected(version),
            b"time=1970-01-01T00:00:00.000Z event=parts state=connected version=7\n".as_slice(),
        ),
        (
            LogEntry::PartsLost,
            b"time=1970-01-01T00:00:00.000Z event=parts state=lost\n".as_slice(),
        ),
        (
            LogEntry::PartsOlder { version, least },
            b"time=1970-01-01T00:00:00.000Z event=parts state=refused version=7 least=9\n".as_slice(),
        ),
    ] {
        assert!(&rt; line(rt.alloc(), Form::Words, &entry)?.as_slice() == text);
    }
    Ok(())
}
