use crate::again::{Chance, Way, next_way};
use crate::reply::Reply;
use crate::sending::{Early, SendingFault, send_content, send_given_up};
use av_asks::{How, LargeAnswer, LargeCause};
use av_fakes::{FakeReader, FakeWriter, Fault, may_refuse, refuse_no_more};
use std::cell::Cell;
use std::test::Fail;

// Frames of a content under the tag 7 and the name a: its beginning, parts of two bytes and of one, and its end, whole or given up.
const BEGIN: &[u8] = b"\0\0\0\x0b\x05\0\0\0\0\0\0\0\x07\x01a";

const AB: &[u8] = b"\0\0\0\x0b\x06\0\0\0\0\0\0\0\x07AB";

const C: &[u8] = b"\0\0\0\x0a\x06\0\0\0\0\0\0\0\x07C";

const END_OF_3: &[u8] = b"\0\0\0\x12\x07\0\0\0\0\0\0\0\x07\0\0\0\0\0\0\0\0\x03";

const END_OF_2: &[u8] = b"\0\0\0\x12\x07\0\0\0\0\0\0\0\x07\0\0\0\0\0\0\0\0\x02";

const END_OF_0: &[u8] = b"\0\0\0\x12\x07\0\0\0\0\0\0\0\x07\0\0\0\0\0\0\0\0\0";

const UP_AT_2: &[u8] = b"\0\0\0\x12\x07\0\0\0\0\0\0\0\x07\x01\0\0\0\0\0\0\0\x02";

const UP_AT_0: &[u8] = b"\0\0\0\x12\x07\0\0\0\0\0\0\0\x07\x01\0\0\0\0\0\0\0\0";

// No answer comes.
#[derive(Drop)]
struct Never;

impl Early for Never {
    fn has_answer(&self) -> bool {
        false
    }
}

// An answer comes behind so many looks.
#[derive(Drop)]
struct Behind {
    looks: Cell<u32>,
}

impl Early for Behind {
    fn has_answer(&self) -> bool {
        let left = self.looks.get();
        self.looks.set(left.saturating_sub(1));
        left == 0
    }
}

#[test]
fn what_follows_an_early_answer_is_not_sent(rt: HostRuntime) -> Result<(), Fail> {
    let rows: [(u32, How, &[&[u8]]); 4] = [
        (0, How::GivenUp, &[BEGIN, UP_AT_0]),
        (1, How::GivenUp, &[BEGIN, AB, UP_AT_2]),
        (2, How::Whole, &[BEGIN, AB, END_OF_2]),
        (3, How::Whole, &[BEGIN, AB, END_OF_2]),
    ];
    for (looks, how, frames) in rows {
        let mut reader = FakeReader::new(b"AB").in_pieces_of(2);
        let mut writer = FakeWriter::new(rt.alloc());
        let early = Behind {
            looks: Cell::new(looks),
        };
        let sent = send_content(rt.alloc(), 7, "a", &mut reader, &mut writer, &early)?;
        let mut wanted = Vec::new(rt.alloc());
        for frame in frames {
            wanted.extend_from_slice(frame)?;
        }
        assert!(rt;
            sent == how && writer.taken() == wanted.as_slice(),
            "{looks}"
        );
    }
    Ok(())
}

#[test]
fn a_content_goes_in_a_frame_for_each_read(rt: HostRuntime) -> Result<(), Fail> {
    let rows: [(&[u8], Option<u64>, How, &[&[u8]]); 5] = [
        (b"ABC", None, How::Whole, &[BEGIN, AB, C, END_OF_3]),
        (b"", None, How::Whole, &[BEGIN, END_OF_0]),
        (b"ABC", Some(1), How::GivenUp, &[BEGIN, UP_AT_0]),
        (b"ABC", Some(2), How::GivenUp, &[BEGIN, AB, UP_AT_2]),
        (b"AB", Some(2), How::GivenUp, &[BEGIN, AB, UP_AT_2]),
    ];
    for (content, failing, how, frames) in rows {
        let reader = FakeReader::new(content).in_pieces_of(2);
        let mut reader = match failing {
            Some(read) => reader.failing_at(read),
            None => reader,
        };
        let mut writer = FakeWriter::new(rt.alloc()).in_pieces_of(5);
        let sent = send_content(rt.alloc(), 7, "a", &mut reader, &mut writer, &Never)?;
        assert_eq!(rt; sent, how);
        let mut wanted = Vec::new(rt.alloc());
        for frame in frames {
            wanted.extend_from_slice(frame)?;
        }
        assert_eq!(rt; writer.taken(), wanted.as_slice());
    }
    Ok(())
}

#[test]
fn a_long_content_goes_in_parts_of_131072_bytes(rt: HostRuntime) -> Result<(), Fail> {
    let content = vec![in rt.alloc(); 65u8; 300_000]?;
    let mut reader = FakeReader::new(content.as_slice());
    let mut writer = FakeWriter::new(rt.alloc());
    let sent = send_content(rt.alloc(), 1, "a", &mut reader, &mut writer, &Never)?;
    assert_eq!(rt; sent, How::Whole);
    assert_eq!(rt; writer.taken().len(), 15 + 3 * 13 + 300_000 + 22);
    assert_eq!(rt; writer.writes(), 5);
    assert_eq!(rt; &writer.taken()[15..19], b"\0\x02\0\x09".as_slice());
    Ok(())
}

#[test]
fn of_a_long_name_255_bytes_go_along(rt: HostRuntime) -> Result<(), Fail> {
    let mut name = String::new(rt.alloc());
    for _ in 0..300 {
        name.push_str("n")?;
    }
    let mut writer = FakeWriter::new(rt.alloc());
    send_given_up(rt.alloc(), 7, name.as_str(), &mut writer)?;
    assert_eq!(rt; writer.taken().len(), 14 + 255 + 22);
    assert_eq!(rt; writer.taken()[13], 255);
    Ok(())
}

#[test]
fn what_is_asked_about_in_vain_begins_and_is_given_up(rt: HostRuntime) -> Result<(), Fail> {
    let mut writer = FakeWriter::new(rt.alloc());
    send_given_up(rt.alloc(), 7, "a", &mut writer)?;
    assert_eq!(rt; &writer.taken()[..15], BEGIN);
    assert_eq!(rt; &writer.taken()[15..], UP_AT_0);
    Ok(())
}

#[test]
fn a_write_that_fails_is_told(rt: HostRuntime) -> Result<(), Fail> {
    for write in 1..=4 {
        for fault in [Fault::Fails { write }, Fault::TakesNothing { write }] {
            let mut reader = FakeReader::new(b"ABC").in_pieces_of(2);
            let mut writer = FakeWriter::new(rt.alloc()).with(fault);
            let sent = send_content(rt.alloc(), 7, "a", &mut reader, &mut writer, &Never);
            assert_eq!(rt; sent, Err(SendingFault::Write), "{fault:?}");
        }
    }
    Ok(())
}

#[test]
fn refused_or_not_a_content_is_sent(rt: HostRuntime) -> Result<(), Fail> {
    let mut writer = FakeWriter::new(rt.alloc());
    let mut reader = FakeReader::new(b"ABC");
    may_refuse(rt.alloc());
    let sent = send_content(rt.alloc(), 7, "a", &mut reader, &mut writer, &Never);
    refuse_no_more(rt.alloc());
    match sent {
        Ok(how) => assert_eq!(rt; how, How::Whole),
        Err(SendingFault::Memory) => {}
        // The writer of the test takes memory too.
        Err(SendingFault::Write) => {}
    }
    Ok(())
}

#[test]
fn a_content_is_asked_about_again_as_its_reply_says(rt: HostRuntime) -> Result<(), Fail> {
    let rows = [
        (LargeCause::AskAgain, 0, true, false, Some(Way::Parts)),
        (LargeCause::AskAgain, 2, true, true, Some(Way::Parts)),
        (LargeCause::AskAgain, 3, true, true, None),
        (LargeCause::AskAgain, 0, false, true, None),
        (LargeCause::NoParts, 0, true, true, Some(Way::One)),
        (LargeCause::NoParts, 0, true, false, None),
        (LargeCause::NoParts, 3, true, true, None),
        (LargeCause::NoParts, 0, false, true, None),
        (LargeCause::GivenUp, 0, true, false, Some(Way::Parts)),
        (LargeCause::TooLarge, 0, true, true, None),
    ];
    for (cause, tries, is_kept, is_small, wanted) in rows {
        let reply = Reply::Large(LargeAnswer::Denied { tag: 1, cause });
        let chance = Chance {
            tries,
            is_kept,
            is_small,
        };
        assert_eq!(rt; next_way(reply, chance), wanted, "{cause:?} {chance:?}");
    }
    Ok(())
}
