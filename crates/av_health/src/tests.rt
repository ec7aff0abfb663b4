use crate::counts::Counts;
use crate::figure::{figures_of, json_of, metrics_of, text_of};
use crate::report::{REPORT_SIZE, Report, report_bytes, report_in};
use av_base::{Cause, Version};
use av_log::Judged;
use std::test::Fail;

// A report whose figures are 1, 2, .. 21.
const COUNTED: Report = Report {
    ready: 1,
    version: 2,
    services: 3,
    clients: 4,
    unanswered: 5,
    questions: 6,
    contents: 7,
    content_bytes: 8,
    counts: Counts {
        asks: 9,
        grants: 10,
        denials: 11,
        unscanned: 12,
        timeouts: 13,
        dropped_lines: 14,
    },
    uptime_seconds: 15,
    service_seconds: 16,
    memory_bytes: 17,
    parts: 18,
    open_contents: 19,
    signatures: 20,
    version_time: 21,
};

#[test]
fn a_report_has_a_format_and_eight_bytes_a_figure(rt: HostRuntime) -> Result<(), Fail> {
    let bytes = report_bytes(rt.alloc(), &COUNTED)?;
    assert!(&rt;
        bytes.len() == REPORT_SIZE && bytes[0] == 3,
        "{}",
        bytes.len()
    );
    for place in 0..21usize {
        let at = 1 + 8 * place;
        let field = bytes.get(at..at + 8).unwrap_or(b"".as_slice());
        let last = place as u8 + 1;
        assert!(&rt; field == [0, 0, 0, 0, 0, 0, 0, last].as_slice(), "{place}");
    }
    assert!(&rt; report_in(bytes.as_slice()) == Some(COUNTED), "read back");
    Ok(())
}

#[test]
fn other_bytes_are_no_report(rt: HostRuntime) -> Result<(), Fail> {
    let mut bytes = report_bytes(rt.alloc(), &COUNTED)?;
    assert!(&rt; report_in(b"") == None, "none");
    assert!(&rt; report_in(&bytes[..REPORT_SIZE - 1]) == None, "a byte less");
    bytes.push(0)?;
    assert!(&rt; report_in(bytes.as_slice()) == None, "a byte more");
    let _ = bytes.pop();
    bytes[0] = 2;
    assert!(&rt; report_in(bytes.as_slice()) == None, "another format");
    Ok(())
}

#[test]
fn figures_are_shown_by_their_names(rt: HostRuntime) -> Result<(), Fail> {
    let figures = figures_of(&COUNTED);
    let text = text_of(rt.alloc(), &figures)?;
    let wanted =
        b"ready 1\nversion 2\nservices 3\nclients 4\nunanswered 5\nquestions 6\ncontents 7\ncontent_bytes 8\nasks_total 9\n\
        grants_total 10\ndenials_total 11\nunscanned_total 12\ntimeouts_total 13\ndropped_lines_total 14\nuptime_seconds 15\n\
        service_seconds 16\nmemory_bytes 17\nparts 18\nopen_contents 19\nsignatures 20\nversion_time_seconds 21\n";
    assert!(&rt; text.as_slice() == wanted.as_slice(), "text");
    let json = json_of(rt.alloc(), &figures)?;
    let object =
        b"{\"ready\":1,\"version\":2,\"services\":3,\"clients\":4,\"unanswered\":5,\"questions\":6,\"contents\":7,\"content_bytes\":8,\
        \"asks_total\":9,\"grants_total\":10,\"denials_total\":11,\"unscanned_total\":12,\"timeouts_total\":13,\"dropped_lines_total\":14,\
        \"uptime_seconds\":15,\"service_seconds\":16,\"memory_bytes\":17,\"parts\":18,\"open_contents\":19,\
        \"signatures\":20,\"version_time_seconds\":21}\n";
    assert!(&rt; json.as_slice() == object.as_slice(), "json");
    let metrics = metrics_of(rt.alloc(), &figures[8..10])?;
    let lines =
        b"# HELP avguard_asks_total asks\n# TYPE avguard_asks_total counter\navguard_asks_total 9\n\
        # HELP avguard_grants_total answers that granted\n# TYPE avguard_grants_total counter\navguard_grants_total 10\n";
    assert!(&rt; metrics.as_slice() == lines.as_slice(), "metrics");
    Ok(())
}

#[test]
fn answers_are_counted_by_what_they_say(rt: HostRuntime) -> Result<(), Fail> {
    let mut counts = Counts::new();
    counts.asked();
    let version = Version::new(7);
    counts.told(Judged::Granted { version });
    counts.told(Judged::Infected {
        version,
        signature: 0,
        end: 64,
    });
    for cause in [Cause::TimedOut, Cause::Busy] {
        counts.told(Judged::Denied { cause });
        counts.told(Judged::Unscanned { cause });
    }
    counts.dropped(5);
    let wanted = Counts {
        asks: 1,
        grants: 1,
        denials: 3,
        unscanned: 2,
        timeouts: 2,
        dropped_lines: 5,
    };
    assert!(&rt; counts == wanted, "{counts:?}");
    counts.dropped(u64::MAX);
    assert!(&rt; counts.dropped_lines == u64::MAX, "the greatest");
    Ok(())
}
