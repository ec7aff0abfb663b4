use crate::escape::{put_escaped, short};
use crate::mark::{Mark, Side, put_marks};
use crate::place::Places;
use crate::spot::Spot;
use crate::{ChartFault, Lines, write_chart};
use av_base::recorded::Recorded;
use av_fakes::{FakeReader, FakeWriter, Fault, may_refuse, refuse_no_more};
use std::test::Fail;

const ALL: Lines = Lines {
    from: 1,
    to: u64::MAX,
};

#[test]
fn bytes_of_a_name_are_escaped(rt: HostRuntime) -> Result<(), Fail> {
    let mut page = Vec::new(rt.alloc());
    put_escaped(&mut page, b"a<&\">'\\ \x7f\xff\n")?;
    assert_eq!(rt;
        page.as_slice(),
        b"a&lt;&amp;&quot;&gt;'\\ \\x7f\\xff\\x0a".as_slice()
    );
    Ok(())
}

#[test]
fn a_long_name_is_cut(rt: HostRuntime) -> Result<(), Fail> {
    let whole = short(rt.alloc(), b"ninebytes", 9)?;
    assert_eq!(rt; whole.as_slice(), b"ninebytes".as_slice());
    let cut = short(rt.alloc(), b"nine\xffbytes", 9)?;
    assert_eq!(rt; cut.as_slice(), b"nine\\xf..".as_slice());
    Ok(())
}

#[test]
fn rows_stand_below_one_another(rt: HostRuntime) -> Result<(), Fail> {
    let places = Places::of(rt.alloc(), 5, &[19, 38, 19])?;
    assert_eq!(rt; places.top(5), 90);
    assert_eq!(rt; places.top(6), 118);
    assert_eq!(rt; places.top(7), 165);
    assert_eq!(rt; places.bottom, 193);
    assert_eq!(rt; places.shows(4), false);
    assert_eq!(rt; places.shows(7), true);
    assert_eq!(rt; places.shows(8), false);
    Ok(())
}

#[test]
fn an_arrow_is_a_line_and_a_head(rt: HostRuntime) -> Result<(), Fail> {
    let mut page = Vec::new(rt.alloc());
    let from = Spot { x: 10, y: 20 };
    let to = from.right_of(30);
    put_marks(
        &mut page,
        &[
            Mark::Line {
                class: b"o",
                from,
                to,
            },
            Mark::Head {
                class: b"ho",
                tip: to,
                side: Side::Right,
            },
        ],
    )?;
    let wanted =
        b"<path class=\"o\" d=\"M10 20 L40 20\"/>\n<path class=\"ho\" d=\"M40 20 L32 16 L32 24 Z\"/>\n";
    assert_eq!(rt; page.as_slice(), wanted.as_slice());
    Ok(())
}

#[test]
fn what_is_no_script_has_no_picture(rt: HostRuntime) -> Result<(), Fail> {
    let mut out = FakeWriter::new(rt.alloc());
    let mut reader = Recorded::new(FakeReader::new(
        b"volume 1 closed\nbogus\n".as_slice(),
    ).in_pieces_of(3));
    let bad = write_chart(rt.alloc(), b"t", ALL, &mut reader, &mut out, 100);
    assert!(rt; matches!(&bad, Err(ChartFault::BadScript { line: 2 })));
    let mut reader = Recorded::new(FakeReader::new(
        b"volume 1 closed\nconnect\n".as_slice(),
    ).failing_at(1));
    let failed = write_chart(rt.alloc(), b"t", ALL, &mut reader, &mut out, 100);
    assert!(rt; matches!(&failed, Err(ChartFault::Read)));
    let mut reader = Recorded::new(FakeReader::new(b"volume 1 closed\n\nconnect\n".as_slice()));
    let lines = Lines { from: 4, to: 9 };
    let none = write_chart(rt.alloc(), b"t", lines, &mut reader, &mut out, 100);
    assert!(rt; matches!(&none, Err(ChartFault::NoLines)));
    assert_eq!(rt; out.taken(), b"".as_slice());
    Ok(())
}

#[test]
fn a_failing_writer_is_told(rt: HostRuntime) -> Result<(), Fail> {
    for write in 1..4u64 {
        let mut reader = Recorded::new(FakeReader::new(b"volume 1 closed\n".as_slice()));
        let mut out = FakeWriter::new(rt.alloc())
            .in_pieces_of(100)
            .with(Fault::Fails { write });
        let failed = write_chart(rt.alloc(), b"t", ALL, &mut reader, &mut out, 100);
        assert!(rt; matches!(&failed, Err(ChartFault::Write)));
        let mut reader = Recorded::new(FakeReader::new(b"volume 1 closed\n".as_slice()));
        let mut out = FakeWriter::new(rt.alloc()).with(Fault::KeepsUnflushed);
        let kept = write_chart(rt.alloc(), b"t", ALL, &mut reader, &mut out, 100);
        assert!(rt; matches!(&kept, Err(ChartFault::Write)));
    }
    Ok(())
}

#[test]
fn a_picture_is_the_same_in_any_pieces(rt: HostRuntime) -> Result<(), Fail> {
    let script = b"volume 1 closed\ncreate a\nopen a\n".as_slice();
    let mut whole = FakeWriter::new(rt.alloc());
    let mut reader = Recorded::new(FakeReader::new(script));
    assert!(rt; write_chart(rt.alloc(), b"t", ALL, &mut reader, &mut whole, 100).is_ok());
    let mut pieces = FakeWriter::new(rt.alloc()).in_pieces_of(7);
    let mut reader = Recorded::new(FakeReader::new(script).in_pieces_of(1));
    assert!(rt; write_chart(rt.alloc(), b"t", ALL, &mut reader, &mut pieces, 100).is_ok());
    assert_eq!(rt; pieces.taken(), whole.taken());
    Ok(())
}

// An open that waits for a job, a reply that is late, a lost message, and a second delivery.
const SCRIPT: &[u8] =
    b"volume 1 closed\npublish 1 41\ncreate a\nwrite a 0 42\nconnect\nup 1\nopen a\ndown 1\nup 2\n\
    down 2\nwork 1\nwrite a 0 43\nup 3\nup 3\ncleanup a\nrestart service\njudge a\nremove b\n";

#[test]
fn the_lines_that_are_asked_for_are_drawn(rt: HostRuntime) -> Result<(), Fail> {
    let mut out = FakeWriter::new(rt.alloc());
    let mut reader = Recorded::new(FakeReader::new(SCRIPT));
    let lines = Lines { from: 7, to: 9 };
    assert!(rt; write_chart(rt.alloc(), b"t", lines, &mut reader, &mut out, 100).is_ok());
    let page = out.taken();
    assert!(rt; holds(page, b" Shown: lines 7 to 9."));
    assert!(rt; holds(page, b"<title>open a</title>"));
    assert!(rt; holds(page, b"<title>up 2</title>"));
    assert!(rt; !holds(page, b"<title>up 1</title>"));
    assert!(rt; !holds(page, b"<title>down 2</title>"));
    Ok(())
}

// An open that waits for a question of the first port, whose service is lost while that of the second is there.
const SPARE: &[u8] =
    b"volume 1 closed\npublish 1 58\ncreate a\nwrite a 0 414243\nconnect\nup 1\nconnect 2\nup 2\n\
    open a\ndisconnect filter\n";

// The same, and the other service is lost too.
const BOTH_LOST: &[u8] =
    b"volume 1 closed\npublish 1 58\ncreate a\nwrite a 0 414243\nconnect\nup 1\nconnect 2\nup 2\n\
    open a\ndisconnect filter\ndisconnect filter 2\n";

#[test]
fn a_question_that_is_asked_anew_has_a_bar_of_its_own(rt: HostRuntime) -> Result<(), Fail> {
    let mut out = FakeWriter::new(rt.alloc());
    let mut reader = Recorded::new(FakeReader::new(SPARE));
    assert!(rt; write_chart(rt.alloc(), b"t", ALL, &mut reader, &mut out, 100).is_ok());
    let page = out.taken();
    assert!(rt; holds(page, b"question 1.1: a generation 2, ended"));
    assert!(rt; holds(page, b"question 1.2: a generation 2, not ended"));
    assert!(rt; holds(page, b"open 1 of a, not ended"));
    assert!(rt; holds(page, b">down 1 scan 1.1 g2<"));
    assert!(rt; holds(page, b">down 2 scan 1.2 g2 port 2<"));
    assert!(rt; holds(page, b">service is lost<"));
    Ok(())
}

#[test]
fn the_service_of_the_second_port_is_told_by_its_port(rt: HostRuntime) -> Result<(), Fail> {
    let mut out = FakeWriter::new(rt.alloc());
    let mut reader = Recorded::new(FakeReader::new(BOTH_LOST));
    assert!(rt; write_chart(rt.alloc(), b"t", ALL, &mut reader, &mut out, 100).is_ok());
    let page = out.taken();
    assert!(rt; holds(page, b">service is lost<"));
    assert!(rt; holds(page, b">service is lost port 2<"));
    assert!(rt; holds(page, b"question 1.2: a generation 2, ended"));
    assert!(rt; holds(page, b"open 1 of a, denied"));
    Ok(())
}

// Whether a text stands in a page.
fn holds(page: &[u8], text: &[u8]) -> bool {
    for place in 0..page.len() {
        if page[place..].starts_with(text) {
            return true;
        }
    }
    false
}

#[test]
fn refused_or_not_a_picture_is_whole_or_a_front(rt: HostRuntime) -> Result<(), Fail> {
    let alloc = rt.alloc();
    let mut whole = FakeWriter::new(alloc);
    let mut reader = Recorded::new(FakeReader::new(SCRIPT));
    assert!(rt; write_chart(alloc, b"t", ALL, &mut reader, &mut whole, 100).is_ok());
    let mut out = FakeWriter::new(alloc);
    let mut reader = Recorded::new(FakeReader::new(SCRIPT));
    may_refuse(alloc);
    let written = write_chart(alloc, b"t", ALL, &mut reader, &mut out, 100);
    refuse_no_more(alloc);
    match written {
        Ok(()) => assert_eq!(rt; out.taken(), whole.taken()),
        Err(ChartFault::NoMemory) => assert_eq!(rt; out.taken(), b"".as_slice()),
        Err(fault) => {
            assert_eq!(rt; fault, ChartFault::Write);
            assert!(rt; whole.taken().starts_with(out.taken()));
        }
    }
    Ok(())
}
