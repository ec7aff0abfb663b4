// Runs of one engine, as data.
use crate::tests::sides::{limits_with, served_within, watched_within};
use crate::tests::text::bytes_of;
use crate::tests::told::Told;
use av_base::{LimitField, Limits, StreamId};
use av_fakes::{FakeReader, FakeWriter};
use av_frame::End;
use std::alloc::Global;
use std::test::Fail;

// The frames that come to an engine, and those that it sends.
#[derive(Clone, Copy)]
pub struct Case<'a> {
    pub name: &'a str,
    pub limit: (LimitField, u64),
    pub comes: &'a [&'a str],
    pub sends: &'a [&'a str],
    pub side: Side,
}

// Whose engine it is, how it ends, and what the filter's one open, of stream 1, was told.
#[derive(Clone, Copy)]
pub enum Side {
    Filter(End, Told),
    Service(End),
}

// The greatest chunk: all limits stay the greatest.
pub const FULL: (LimitField, u64) = (LimitField::Chunk, 4_096);

// The name of the first of these cases that does not hold.
pub fn first_wrong<'a>(alloc: Global, cases: &[Case<'a>]) -> Result<Option<&'a str>, Fail> {
    for case in cases {
        if !holds(alloc, case)? {
            return Ok(Some(case.name));
        }
    }
    Ok(None)
}

pub fn holds(alloc: Global, case: &Case<'_>) -> Result<bool, Fail> {
    let limits = limits_with(case.limit)?;
    let comes = bytes_of(alloc, case.comes)?;
    let sends = bytes_of(alloc, case.sends)?;
    match case.side {
        Side::Filter(end, told) => watches(alloc, limits, &comes, &sends, end, told),
        Side::Service(end) => serves(alloc, limits, &comes, &sends, end),
    }
}

fn watches(
    alloc: Global,
    limits: Limits,
    comes: &[u8],
    sends: &[u8],
    end: End,
    told: Told,
) -> Result<bool, Fail> {
    let opens = [StreamId::new(1)];
    let mut reader = FakeReader::new(comes);
    let mut writer = FakeWriter::new(alloc);
    let run = watched_within(alloc, limits, &opens, &mut reader, &mut writer, 1_000)?;
    Ok(run.end == end && writer.taken() == sends && told.is(&run.answers))
}

fn serves(
    alloc: Global,
    limits: Limits,
    comes: &[u8],
    sends: &[u8],
    end: End,
) -> Result<bool, Fail> {
    let mut reader = FakeReader::new(comes);
    let mut writer = FakeWriter::new(alloc);
    let ended = served_within(alloc, limits, &mut reader, &mut writer, 1_000)?;
    Ok(ended == end && writer.taken() == sends)
}
