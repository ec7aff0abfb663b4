use crate::byte_list::ByteList;
use crate::cause::Cause;
use crate::decimal::decimal;
use crate::device::{ReadFault, read_into, write_text};
use crate::limits::{LimitFault, LimitField, LimitValues, Limits};
use crate::line::{first_line, first_piece};
use crate::number::{Generation, Lease, OpenId, StreamId, Version};
use crate::parts::{Part, write_parts};
use crate::port::Port;
use crate::recorded::{Recorded, read_whole};
use av_fakes::{FakeReader, FakeWriter, Fault, may_refuse, refuse_no_more};
use std::alloc::AllocError;
use std::io::{Read, Write};
use std::test::Fail;

// Each limit in the order in which they are tested, with its greatest value.
const LIMITS: [(LimitField, u64); 9] = [
    (LimitField::Streams, 65_536),
    (LimitField::Length, 1_048_576),
    (LimitField::Generation, 281_474_976_710_655),
    (LimitField::Questions, 1_024),
    (LimitField::Pended, 4_096),
    (LimitField::Jobs, 256),
    (LimitField::Cache, 4_096),
    (LimitField::Chunk, 4_096),
    (LimitField::Audit, 1_048_576),
];

#[test]
fn each_limit_is_from_one_to_its_greatest_value(rt: HostRuntime) -> Result<(), Fail> {
    let greatest = LimitValues::greatest();
    assert_eq!(rt;
        Limits::check(greatest)?.values(),
        Limits::greatest().values()
    );
    for (which, most) in LIMITS {
        let zero = Limits::check(greatest.with(which, 0)).err();
        assert_eq!(rt; zero, Some(LimitFault::LimitZero { which }), "{which:?}");
        assert!(rt; Limits::check(greatest.with(which, 1)).is_ok(), "{which:?}");
        assert!(rt;
            Limits::check(greatest.with(which, most)).is_ok(),
            "{which:?}"
        );
        let above = Limits::check(greatest.with(which, most.saturating_add(1))).err();
        assert_eq!(rt;
            above,
            Some(LimitFault::LimitTooLarge { which }),
            "{which:?}"
        );
    }
    Ok(())
}

#[test]
fn the_first_of_two_bad_limits_is_named(rt: HostRuntime) -> Result<(), Fail> {
    for (place, (which, _)) in LIMITS.iter().enumerate() {
        for (later, _) in LIMITS.iter().skip(place.saturating_add(1)) {
            let values = LimitValues::greatest()
                .with(*later, 0)
                .with(*which, u64::MAX);
            let fault = Limits::check(values).err();
            assert_eq!(rt;
                fault,
                Some(LimitFault::LimitTooLarge { which: *which }),
                "{which:?}"
            );
        }
    }
    Ok(())
}

// Each cause with its number.
const CAUSES: [(Cause, u8); 10] = [
    (Cause::NoStream, 1),
    (Cause::Infected, 2),
    (Cause::NotConnected, 3),
    (Cause::Busy, 4),
    (Cause::TimedOut, 5),
    (Cause::PortDisconnected, 6),
    (Cause::ScanFailed, 7),
    (Cause::Unsettled, 8),
    (Cause::StreamRemoved, 9),
    (Cause::FilterRestart, 10),
];

#[test]
fn causes_count_from_one_to_ten(rt: HostRuntime) -> Result<(), Fail> {
    for (cause, number) in CAUSES {
        assert_eq!(rt; cause.number(), number);
        assert_eq!(rt; Cause::from_number(number), Some(cause));
    }
    assert_eq!(rt; Cause::from_number(0), None);
    assert_eq!(rt; Cause::from_number(11), None);
    Ok(())
}

#[test]
fn ports_are_one_and_two(rt: HostRuntime) -> Result<(), Fail> {
    for (port, number, other) in [(Port::One, 1, Port::Two), (Port::Two, 2, Port::One)] {
        assert_eq!(rt; port.number(), number);
        assert_eq!(rt; Port::from_number(number), Some(port));
        assert_eq!(rt; port.other(), other);
    }
    assert_eq!(rt; Port::from_number(0), None);
    assert_eq!(rt; Port::from_number(3), None);
    Ok(())
}

#[test]
fn numbers_are_read_back(rt: HostRuntime) -> Result<(), Fail> {
    assert_eq!(rt; StreamId::new(7).get(), 7);
    assert_eq!(rt; Generation::new(7).get(), 7);
    assert_eq!(rt; Version::new(7).get(), 7);
    assert_eq!(rt; OpenId::new(7).get(), 7);
    assert_eq!(rt; Lease::new(7).get(), 7);
    Ok(())
}

#[test]
fn a_number_has_no_zero_in_front_and_64_bits(rt: HostRuntime) -> Result<(), Fail> {
    assert_eq!(rt; decimal(b"0"), Some(0));
    assert_eq!(rt; decimal(b"10"), Some(10));
    assert_eq!(rt; decimal(b"01"), None);
    assert_eq!(rt; decimal(b""), None);
    assert_eq!(rt; decimal(b"18446744073709551615"), Some(u64::MAX));
    assert_eq!(rt; decimal(b"18446744073709551616"), None);
    Ok(())
}

#[test]
fn a_line_ends_before_its_line_feed(rt: HostRuntime) -> Result<(), Fail> {
    let (line, rest) = first_line(b"a b\nc");
    assert_eq!(rt; line, b"a b".as_slice());
    assert_eq!(rt; rest, b"c".as_slice());
    let (word, words) = first_piece(line, b' ');
    assert_eq!(rt; word, b"a".as_slice());
    assert_eq!(rt; words, Some(b"b".as_slice()));
    Ok(())
}

#[test]
fn bytes_are_written_over_and_past_the_end(rt: HostRuntime) -> Result<(), Fail> {
    let mut list = ByteList::copied(rt.alloc(), b"abc")?;
    assert!(rt; !list.is_empty());
    list.overwrite(2, b"xyz")?;
    assert_eq!(rt; list.as_slice(), b"abxyz".as_slice());
    list.truncate(4);
    assert_eq!(rt; list.clone()?.len(), 4);
    let bytes = ByteList::from_vec(list.into_vec()).into_vec();
    assert_eq!(rt; bytes.as_slice(), b"abxy".as_slice());
    Ok(())
}

#[test]
fn byte_lists_are_the_same_where_their_bytes_are(rt: HostRuntime) -> Result<(), Fail> {
    let list = ByteList::copied(rt.alloc(), b"abc")?;
    assert!(rt; list == ByteList::copied(rt.alloc(), b"abc")?);
    for other in [b"".as_slice(), b"ab", b"abd", b"abcd"] {
        assert!(rt; list != ByteList::copied(rt.alloc(), other)?);
    }
    Ok(())
}

#[test]
fn a_recorded_device_is_read_and_written_as_it_is(rt: HostRuntime) -> Result<(), Fail> {
    let mut reader = Recorded::new(b"abc".as_slice());
    let mut piece = [0u8; 2];
    assert_eq!(rt; reader.read(&mut piece)?, 2);
    assert_eq!(rt; piece.as_slice(), b"ab".as_slice());
    assert_eq!(rt; reader.read(&mut piece)?, 1);
    assert_eq!(rt; reader.read(&mut piece)?, 0);
    let mut writer = Recorded::new(FakeWriter::new(rt.alloc()).in_pieces_of(2));
    assert_eq!(rt; writer.write(b"abc")?, 2);
    assert_eq!(rt; writer.device.taken(), b"ab".as_slice());
    assert_eq!(rt; writer.device.flushed(), 0);
    writer.flush()?;
    assert_eq!(rt; writer.device.flushed(), 2);
    Ok(())
}

#[test]
fn an_input_is_read_whole_or_refused(rt: HostRuntime) -> Result<(), Fail> {
    let alloc = rt.alloc();
    let mut reader = Recorded::new(b"abc".as_slice());
    let whole = read_whole(alloc, &mut reader, 3, 2)?;
    assert_eq!(rt; whole.as_slice(), b"abc".as_slice());
    let mut long = Recorded::new(b"abc".as_slice());
    assert_eq!(rt;
        read_whole(alloc, &mut long, 2, 2).err(),
        Some(ReadFault::TooLong)
    );
    let mut late = Recorded::new(b"abc".as_slice());
    assert_eq!(rt;
        read_whole(alloc, &mut late, 3, 1).err(),
        Some(ReadFault::Device)
    );
    let mut written = Vec::new(alloc);
    assert_eq!(rt; write_text(&mut written, b"abc"), Ok(()));
    assert_eq!(rt; written.as_slice(), b"abc".as_slice());
    Ok(())
}

#[test]
fn an_input_is_the_same_however_its_reads_are_cut(rt: HostRuntime) -> Result<(), Fail> {
    let text = b"volume 1 closed\n".as_slice();
    for piece in 1..18 {
        let mut whole = FakeReader::new(text).in_pieces_of(piece);
        let read = read_whole(rt.alloc(), &mut Recorded::new(&mut whole), 16, 99)?;
        assert_eq!(rt; read.as_slice(), text, "in pieces of {piece}");
        let mut buffer = [7u8; 17];
        let mut into = FakeReader::new(text).in_pieces_of(piece);
        assert_eq!(rt;
            read_into(&mut into, &mut buffer, 99),
            Ok(16),
            "in pieces of {piece}"
        );
        assert_eq!(rt; &buffer[..16], text, "in pieces of {piece}");
    }
    Ok(())
}

#[test]
fn a_failing_read_is_a_device_wherever_it_comes(rt: HostRuntime) -> Result<(), Fail> {
    let text = b"volume 1 closed\n".as_slice();
    for read in 1..18 {
        let mut whole = FakeReader::new(text).in_pieces_of(1).failing_at(read);
        let fault = read_whole(rt.alloc(), &mut Recorded::new(&mut whole), 16, 99).err();
        assert_eq!(rt; fault, Some(ReadFault::Device), "at read {read}");
        assert_eq!(rt; whole.reads(), read);
        let mut into = FakeReader::new(text).in_pieces_of(1).failing_at(read);
        let fault = read_into(&mut into, &mut [0u8; 17], 99).err();
        assert_eq!(rt; fault, Some(ReadFault::Device), "at read {read}");
        assert_eq!(rt; into.reads(), read);
    }
    Ok(())
}

#[test]
fn reads_end_with_their_turns(rt: HostRuntime) -> Result<(), Fail> {
    let text = b"abc".as_slice();
    for (turns, whole) in [(0, false), (1, false), (3, false), (4, true)] {
        let mut reader = FakeReader::new(text).in_pieces_of(1);
        let read = read_whole(rt.alloc(), &mut Recorded::new(&mut reader), 3, turns);
        assert_eq!(rt; read.is_ok(), whole, "{turns} turns");
        let mut into = FakeReader::new(text).in_pieces_of(1);
        let read = read_into(&mut into, &mut [0u8; 4], turns);
        assert_eq!(rt; read.is_ok(), whole, "{turns} turns");
        assert_eq!(rt; into.reads(), turns);
    }
    Ok(())
}

#[test]
fn an_input_of_one_byte_too_many_is_too_long(rt: HostRuntime) -> Result<(), Fail> {
    for (limit, fault) in [(2, Some(ReadFault::TooLong)), (3, None)] {
        let mut reader = FakeReader::new(b"abc".as_slice()).in_pieces_of(1);
        assert_eq!(rt;
            read_whole(rt.alloc(), &mut Recorded::new(&mut reader), limit, 9).err(),
            fault
        );
        let mut buffer = [0u8; 4];
        let mut into = FakeReader::new(b"abc".as_slice()).in_pieces_of(1);
        assert_eq!(rt;
            read_into(&mut into, &mut buffer[..limit + 1], 9).err(),
            fault
        );
    }
    Ok(())
}

#[test]
fn what_a_failing_writer_took_is_a_front(rt: HostRuntime) -> Result<(), Fail> {
    let text = b"boot 1\n".as_slice();
    for write in 1..8 {
        for fault in [Fault::Fails { write }, Fault::TakesNothing { write }] {
            let mut writer = FakeWriter::new(rt.alloc()).in_pieces_of(1).with(fault);
            assert!(rt; write_text(&mut writer, text).is_err(), "{fault:?}");
            let front = usize::try_from(write)?.saturating_sub(1);
            assert_eq!(rt; writer.taken(), &text[..front.min(7)], "{fault:?}");
            assert_eq!(rt; writer.writes(), write);
        }
    }
    let mut slow = FakeWriter::new(rt.alloc()).in_pieces_of(1);
    assert_eq!(rt; write_text(&mut slow, text), Ok(()));
    assert_eq!(rt; slow.taken(), text);
    Ok(())
}

#[test]
fn parts_of_a_line_are_written_in_their_order(rt: HostRuntime) -> Result<(), Fail> {
    let parts = [
        Part::Text(b"stream ".as_slice()),
        Part::Number(0),
        Part::Text(b" ".as_slice()),
        Part::Number(u64::MAX),
        Part::Text(b" bytes ".as_slice()),
        Part::Hexadecimal(b"\x00\x09\x0a\x9f\xf0\xff".as_slice()),
        Part::Hexadecimal(b"".as_slice()),
    ];
    let mut slow = FakeWriter::new(rt.alloc()).in_pieces_of(1);
    assert_eq!(rt; write_parts(&mut slow, parts.as_slice()), Ok(()));
    assert_eq!(rt;
        slow.taken(),
        b"stream 0 18446744073709551615 bytes 00090a9ff0ff".as_slice()
    );
    Ok(())
}

#[test]
fn refused_or_not_a_list_of_bytes_is_as_it_was_or_changed(rt: HostRuntime) -> Result<(), Fail> {
    let alloc = rt.alloc();
    let longer = b"a longer text than there was".as_slice();
    may_refuse(alloc);
    let copied = ByteList::copied(alloc, b"abc");
    refuse_no_more(alloc);
    let mut list = match copied {
        Ok(list) => list,
        Err(_) => ByteList::copied(alloc, b"abc")?,
    };
    may_refuse(alloc);
    let overwritten = list.overwrite(1, longer);
    let again: Result<ByteList, AllocError> = list.clone();
    let mut reader = Recorded::new(b"abc".as_slice());
    let read = read_whole(alloc, &mut reader, 3, 2);
    refuse_no_more(alloc);
    if overwritten.is_err() {
        assert_eq!(rt; list.as_slice(), b"abc".as_slice());
        list.overwrite(1, longer)?;
    }
    assert_eq!(rt; list.len(), 29);
    match again {
        Ok(again) => assert!(rt; again.len() == 29 || overwritten.is_err()),
        Err(_) => assert_eq!(rt; list.clone()?.len(), 29),
    }
    match read {
        Ok(bytes) => assert_eq!(rt; bytes.as_slice(), b"abc".as_slice()),
        Err(fault) => assert_eq!(rt; fault, ReadFault::NoMemory),
    }
    Ok(())
}
