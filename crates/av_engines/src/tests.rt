mod cases;
mod cut;
mod faults;
mod floods;
mod frames;
mod fresh;
mod interrupted;
mod sides;
mod sockets;
mod text;
mod told;
mod wrong_to_filter;
mod wrong_to_service;

use self::cut::CutReader;
use self::frames::{DOWN, HELLO, UP};
use self::sides::{served, watched, watched_again, watched_further};
use self::text::bytes_of;
use self::told::{LOST, Told, denied, granted, granted_of};
use crate::watching::Watched;
use av_base::{Cause, StreamId};
use av_fakes::{FakeReader, FakeWriter, Fault};
use av_frame::End;
use std::alloc::Global;
use std::test::Fail;

// The end of a run of the filter's engine with one open, how many of the worked bytes are out, and nothing else, and what the
// open was told.
fn is_watched(watched: &Watched, writer: &FakeWriter, end: End, out: usize, told: Told) -> bool {
    watched.end == end && writer.taken() == &DOWN[..out.min(79)] && told.is(&watched.answers)
}

// What the worked input leaves of which so many bytes came: how many bytes are out, and what open 1 was told.
fn left_by(came: usize) -> (usize, Told) {
    match came {
        0..=21 => (0, Told::Nothing),
        22..=55 => (46, LOST),
        _ => (79, LOST),
    }
}

#[test]
fn the_worked_run_is_written_byte_by_byte_however_it_is_cut(rt: HostRuntime) -> Result<(), Fail> {
    let cuts: [&[usize]; 5] = [&[], &[2], &[24], &[58], &[2, 24, 58]];
    for cut in cuts {
        assert!(rt; runs_cut(rt.alloc(), cut)?);
    }
    for piece in [1, 7, 87, 8_192] {
        assert!(rt; runs_in_pieces(rt.alloc(), piece)?, "in pieces of {piece}");
    }
    Ok(())
}

fn runs_cut(alloc: Global, cuts: &[usize]) -> Result<bool, Fail> {
    let mut reader = CutReader::new(&UP, cuts);
    let mut writer = FakeWriter::new(alloc);
    let run = watched(alloc, &mut reader, &mut writer, 1_000)?;
    let watched = is_watched(&run, &writer, End::Done, 79, Told::Granted(1));
    let mut back = CutReader::new(&DOWN, cuts);
    let mut answer = FakeWriter::new(alloc);
    let end = served(alloc, &mut back, &mut answer, 1_000)?;
    Ok(watched && end == End::Closed && answer.taken() == UP.as_slice())
}

fn runs_in_pieces(alloc: Global, piece: usize) -> Result<bool, Fail> {
    let mut reader = FakeReader::new(&UP).in_pieces_of(piece);
    let mut writer = FakeWriter::new(alloc);
    let run = watched(alloc, &mut reader, &mut writer, 1_000)?;
    let watched = is_watched(&run, &writer, End::Done, 79, Told::Granted(1));
    let mut back = FakeReader::new(&DOWN).in_pieces_of(piece);
    let mut answer = FakeWriter::new(alloc);
    let end = served(alloc, &mut back, &mut answer, 1_000)?;
    Ok(watched && end == End::Closed && answer.taken() == UP.as_slice())
}

#[test]
fn a_filter_that_is_connected_waits_for_a_message(rt: HostRuntime) -> Result<(), Fail> {
    let alloc = rt.alloc();
    let mut writer = FakeWriter::new(alloc);
    let nothing = &mut FakeReader::new(&[]);
    let unheard = watched_again(alloc, &[StreamId::new(2)], nothing, &mut writer)?;
    assert_eq!(rt; unheard.end, End::Closed);
    assert_eq!(rt; unheard.answers.len(), 0);
    assert_eq!(rt; writer.taken().len(), 0);
    let greeting = bytes_of(alloc, &[HELLO])?;
    let known = watched_again(
        alloc,
        &[StreamId::new(1)],
        &mut FakeReader::new(&greeting),
        &mut writer,
    )?;
    assert_eq!(rt; known.end, End::Done);
    assert_eq!(rt; known.answers.as_slice(), [granted(2, 1)].as_slice());
    let asked = watched_again(
        alloc,
        &[StreamId::new(2)],
        &mut FakeReader::new(&greeting),
        &mut writer,
    )?;
    assert_eq!(rt; asked.end, End::Closed);
    assert_eq!(rt;
        asked.answers.as_slice(),
        [denied(2, Cause::PortDisconnected)].as_slice()
    );
    let scan = bytes_of(alloc, &[SCAN_OF_TWO])?;
    assert_eq!(rt; writer.taken(), scan.as_slice());
    Ok(())
}

// What comes behind the worked run, and what is sent for an open of the second stream.
const BEHIND: [&str; 2] = [
    "0000001e 0601 [1] [2] [0] 00000003",
    "0000001b 0701 [1] [2] 00 [1]",
];

const SCAN_OF_TWO: &str = "0000002a 0101 [1] [2] [2] [2] [3]";

const CHUNK_OF_TWO: &str = "0000001d 0201 [1] [2] [0] 415858";

#[test]
fn further_opens_take_what_came_behind_the_ones_before(rt: HostRuntime) -> Result<(), Fail> {
    for piece in [1, 7, 40, 87, 88, 100, 8_192] {
        assert!(rt; goes_on(rt.alloc(), piece)?, "in pieces of {piece}");
    }
    Ok(())
}

fn goes_on(alloc: Global, piece: usize) -> Result<bool, Fail> {
    let mut comes = Vec::new(alloc);
    comes.extend_from_slice(&UP)?;
    comes.extend_from_slice(&bytes_of(alloc, &BEHIND)?)?;
    let mut sends = Vec::new(alloc);
    sends.extend_from_slice(&DOWN)?;
    sends.extend_from_slice(&bytes_of(alloc, &[SCAN_OF_TWO, CHUNK_OF_TWO])?)?;
    let mut reader = FakeReader::new(&comes).in_pieces_of(piece);
    let mut writer = FakeWriter::new(alloc);
    let (first, second) = watched_further(alloc, &[StreamId::new(2)], &mut reader, &mut writer)?;
    let ends = first.end == End::Done && second.end == End::Done;
    let grants = second.answers.as_slice() == [granted_of(2, 2, 1)].as_slice();
    Ok(ends && grants && writer.taken() == sends.as_slice())
}

#[test]
fn further_opens_of_a_filter_that_is_connected_are_submitted_at_once(
    rt: HostRuntime,
) -> Result<(), Fail> {
    let alloc = rt.alloc();
    let mut writer = FakeWriter::new(alloc);
    let comes = &mut FakeReader::new(&UP);
    let (_, asked) = watched_further(alloc, &[StreamId::new(2)], comes, &mut writer)?;
    assert_eq!(rt; asked.end, End::Closed);
    assert_eq!(rt;
        asked.answers.as_slice(),
        [denied(2, Cause::PortDisconnected)].as_slice()
    );
    let scan = bytes_of(alloc, &[SCAN_OF_TWO])?;
    assert_eq!(rt; &writer.taken()[79..], scan.as_slice());
    Ok(())
}

#[test]
fn an_input_that_ends_anywhere_closes_and_answers_what_was_submitted(
    rt: HostRuntime,
) -> Result<(), Fail> {
    for came in 0..87usize {
        assert!(rt;
            closes_after(rt.alloc(), came, 8_192)?,
            "after {came} bytes"
        );
        assert!(rt;
            closes_after(rt.alloc(), came, 1)?,
            "after {came} bytes, each read alone"
        );
    }
    Ok(())
}

fn closes_after(alloc: Global, came: usize, piece: usize) -> Result<bool, Fail> {
    let mut reader = FakeReader::new(&UP[..came.min(87)]).in_pieces_of(piece);
    let mut writer = FakeWriter::new(alloc);
    let run = watched(alloc, &mut reader, &mut writer, 1_000)?;
    let (out, told) = left_by(came);
    Ok(is_watched(&run, &writer, End::Closed, out, told))
}

#[test]
fn a_read_that_fails_anywhere_leaves_what_came_before_it(rt: HostRuntime) -> Result<(), Fail> {
    for read in 1..88u64 {
        assert!(rt; fails_at_read(rt.alloc(), read, 1_000)?, "at read {read}");
        assert!(rt;
            fails_at_read(rt.alloc(), 1_000, read)? || read == 87,
            "at {read} reads"
        );
    }
    Ok(())
}

// The input comes byte by byte, and the read of this number fails or is one too many.
fn fails_at_read(alloc: Global, read: u64, turns: u64) -> Result<bool, Fail> {
    let mut reader = FakeReader::new(&UP).in_pieces_of(1).failing_at(read);
    let mut writer = FakeWriter::new(alloc);
    let run = watched(alloc, &mut reader, &mut writer, turns)?;
    let (out, told) = left_by(read.saturating_sub(1).min(turns) as usize);
    Ok(is_watched(&run, &writer, End::ReadFault, out, told))
}

#[test]
fn a_write_that_fails_anywhere_leaves_what_was_written_before_it(
    rt: HostRuntime,
) -> Result<(), Fail> {
    for write in 1..80u64 {
        assert!(rt;
            breaks_at(rt.alloc(), write, Fault::Fails { write })?,
            "write {write} fails"
        );
        assert!(rt;
            breaks_at(rt.alloc(), write, Fault::TakesNothing { write })?,
            "write {write} takes no byte"
        );
    }
    Ok(())
}

fn breaks_at(alloc: Global, write: u64, fault: Fault) -> Result<bool, Fail> {
    let mut writer = FakeWriter::new(alloc).in_pieces_of(1).with(fault);
    let run = watched(alloc, &mut FakeReader::new(&UP), &mut writer, 1_000)?;
    let out = write.saturating_sub(1) as usize;
    Ok(is_watched(&run, &writer, End::WriteFault, out, LOST))
}

#[test]
fn a_writer_that_cannot_be_flushed_is_a_write_fault(rt: HostRuntime) -> Result<(), Fail> {
    let mut writer = FakeWriter::new(rt.alloc()).with(Fault::KeepsUnflushed);
    let run = watched(rt.alloc(), &mut FakeReader::new(&UP), &mut writer, 1_000)?;
    assert!(rt; is_watched(&run, &writer, End::WriteFault, 46, LOST));
    let end = served(rt.alloc(), &mut FakeReader::new(&DOWN), &mut writer, 1_000)?;
    assert!(rt; end == End::WriteFault);
    Ok(())
}

#[test]
fn what_was_sent_is_flushed(rt: HostRuntime) -> Result<(), Fail> {
    let mut writer = FakeWriter::new(rt.alloc());
    let _ = watched(rt.alloc(), &mut FakeReader::new(&UP), &mut writer, 1_000)?;
    assert!(rt; writer.flushed() == 79);
    Ok(())
}

#[test]
fn a_wrong_frame_ends_an_engine(rt: HostRuntime) -> Result<(), Fail> {
    let empty = [0u8; 4];
    assert!(rt; frame_fault(rt.alloc(), &empty, 0, Told::Nothing)?);
    let mut greeted = [0u8; 27];
    greeted[..22].copy_from_slice(&UP[..22]);
    greeted[25] = 1;
    greeted[26] = 9;
    assert!(rt; frame_fault(rt.alloc(), &greeted, 46, LOST)?);
    Ok(())
}

fn frame_fault(alloc: Global, input: &[u8], out: usize, told: Told) -> Result<bool, Fail> {
    let mut writer = FakeWriter::new(alloc);
    let run = watched(alloc, &mut FakeReader::new(input), &mut writer, 1_000)?;
    Ok(is_watched(&run, &writer, End::Frame, out, told))
}

#[test]
fn a_service_answers_what_came_before_its_input_ended(rt: HostRuntime) -> Result<(), Fail> {
    for came in 0..80usize {
        assert!(rt; serves_until(rt.alloc(), came)?, "after {came} bytes");
    }
    Ok(())
}

fn serves_until(alloc: Global, came: usize) -> Result<bool, Fail> {
    let out = match came {
        0..=45 => 22,
        46..=78 => 56,
        _ => 87,
    };
    let mut reader = FakeReader::new(&DOWN[..came.min(79)]);
    let mut writer = FakeWriter::new(alloc);
    let end = served(alloc, &mut reader, &mut writer, 1_000)?;
    Ok(end == End::Closed && writer.taken() == &UP[..out])
}

#[test]
fn no_open_is_done_at_once(rt: HostRuntime) -> Result<(), Fail> {
    let mut writer = FakeWriter::new(rt.alloc());
    let run = sides::watched_opens(
        rt.alloc(),
        &[],
        &mut FakeReader::new(&UP).failing_at(1),
        &mut writer,
        0,
    )?;
    assert!(rt; is_watched(&run, &writer, End::Done, 0, Told::Nothing));
    Ok(())
}

#[test]
fn refused_or_not_an_engine_ends_with_a_front_of_its_text(rt: HostRuntime) -> Result<(), Fail> {
    assert!(rt; sides::refused_watch(rt.alloc())?);
    assert!(rt; sides::refused_serve(rt.alloc())?);
    Ok(())
}
