// Both engines over a volume of two streams, `ABC` and `AXX`, and a set of version 1 with the pattern `XX`.

use crate::exchange::Exchange;
use crate::serving::{CataloguedService, serve_service};
use crate::tests::frames::{DOWN, UP};
use crate::watching::{Watched, serve_filter, serve_further};
use av_base::recorded::Recorded;
use av_base::{LimitField, LimitValues, Limits, Mode, Port, StreamId, Version};
use av_fakes::{FakeReader, FakeWriter, may_refuse, refuse_no_more};
use av_filter::Mounted;
use av_frame::End;
use av_service::Service;
use av_sigset::{Catalogue, SignatureSet};
use av_store::Volume;
use std::alloc::Global;
use std::io::{Read, Write};

/// A side could not be made.
#[derive(Clone, Copy, Debug)]
pub struct Unmade;

pub fn volume_of_two(alloc: Global) -> Result<Volume, Unmade> {
    let mut volume = Volume::new(alloc, 1, Limits::greatest());
    add_stream(alloc, &mut volume, b"a", b"ABC")?;
    add_stream(alloc, &mut volume, b"b", b"AXX")?;
    Ok(volume)
}

fn add_stream(
    alloc: Global,
    volume: &mut Volume,
    name: &[u8],
    content: &[u8],
) -> Result<(), Unmade> {
    let Ok(stream) = volume.create(alloc, name) else {
        return Err(Unmade);
    };
    match volume.write(stream, 0, content) {
        Ok(()) => Ok(()),
        Err(_) => Err(Unmade),
    }
}

pub fn catalogue_of_one(alloc: Global) -> Result<Catalogue, Unmade> {
    let mut catalogue = Catalogue::new(alloc);
    let patterns: [&[u8]; 1] = [b"XX"];
    let Ok(set) = SignatureSet::from_patterns(alloc, Version::new(1), &patterns) else {
        return Err(Unmade);
    };
    match catalogue.publish(set) {
        Ok(()) => Ok(catalogue),
        Err(_) => Err(Unmade),
    }
}

// The filter's engine with one open of stream 1.
pub fn watched<R: Read, W: Write>(
    alloc: Global,
    reader: &mut R,
    writer: &mut W,
    turns: u64,
) -> Result<Watched, Unmade> {
    watched_opens(alloc, &[StreamId::new(1)], reader, writer, turns)
}

pub fn watched_opens<R: Read, W: Write>(
    alloc: Global,
    opens: &[StreamId],
    reader: &mut R,
    writer: &mut W,
    turns: u64,
) -> Result<Watched, Unmade> {
    watched_within(alloc, Limits::greatest(), opens, reader, writer, turns)
}

pub fn watched_within<R: Read, W: Write>(
    alloc: Global,
    limits: Limits,
    opens: &[StreamId],
    reader: &mut R,
    writer: &mut W,
    turns: u64,
) -> Result<Watched, Unmade> {
    let mut mounted = mounted(alloc, limits)?;
    if mounted.volume().opens_left() < opens.len() as u64 {
        let _volume = mounted.abandon();
        return Err(Unmade);
    }
    may_refuse(alloc);
    let watched = serve_filter(
        alloc,
        &mut mounted,
        opens,
        &mut Recorded::new(reader),
        &mut Recorded::new(writer),
        turns,
    );
    refuse_no_more(alloc);
    let _volume = mounted.abandon();
    Ok(watched)
}

// The filter's engine, on a filter that was greeted in a run of one open over a stream of its own.
pub fn watched_again<R: Read, W: Write>(
    alloc: Global,
    opens: &[StreamId],
    reader: &mut R,
    writer: &mut W,
) -> Result<Watched, Unmade> {
    let mut mounted = mounted(alloc, Limits::greatest())?;
    let one = [StreamId::new(1)];
    let greeting = &mut FakeReader::new(&UP);
    let unheard = &mut FakeWriter::new(alloc);
    let first = watched_over(alloc, &mut mounted, &one, greeting, unheard);
    let watched = watched_over(alloc, &mut mounted, opens, reader, writer);
    let _volume = mounted.abandon();
    match first?.end {
        End::Done => watched,
        _ => Err(Unmade),
    }
}

fn watched_over<R: Read, W: Write>(
    alloc: Global,
    mounted: &mut Mounted,
    opens: &[StreamId],
    reader: &mut R,
    writer: &mut W,
) -> Result<Watched, Unmade> {
    if mounted.filter().connected(Port::Two) || mounted.volume().opens_left() < opens.len() as u64 {
        return Err(Unmade);
    }
    Ok(serve_filter(
        alloc,
        mounted,
        opens,
        &mut Recorded::new(reader),
        &mut Recorded::new(writer),
        1_000,
    ))
}

// A filter just mounted.
fn mounted(alloc: Global, limits: Limits) -> Result<Mounted, Unmade> {
    let volume = volume_of_two(alloc)?;
    match Mounted::mount(alloc, volume, Mode::FailClosed, limits) {
        Ok(mounted) => Ok(mounted),
        Err(_) => Err(Unmade),
    }
}

// One open of the first stream, and then these further opens over the same stream of frames.
pub fn watched_further<R: Read, W: Write>(
    alloc: Global,
    opens: &[StreamId],
    reader: &mut R,
    writer: &mut W,
) -> Result<(Watched, Watched), Unmade> {
    let mut mounted = mounted(alloc, Limits::greatest())?;
    let watched = further_over(alloc, &mut mounted, opens, reader, writer);
    let _volume = mounted.abandon();
    watched
}

fn further_over<R: Read, W: Write>(
    alloc: Global,
    mounted: &mut Mounted,
    opens: &[StreamId],
    reader: &mut R,
    writer: &mut W,
) -> Result<(Watched, Watched), Unmade> {
    let Ok(mut exchange) = Exchange::new(alloc, 1_000) else {
        return Err(Unmade);
    };
    if mounted.filter().connected(Port::Two) || mounted.volume().opens_left() < 1 {
        return Err(Unmade);
    }
    let one = [StreamId::new(1)];
    let (mut reader, mut writer) = (Recorded::new(reader), Recorded::new(writer));
    let first = serve_further(
        alloc,
        mounted,
        &one,
        &mut exchange,
        &mut reader,
        &mut writer,
    );
    let is_over = first.end != End::Done || mounted.filter().connected(Port::Two);
    if is_over || mounted.volume().opens_left() < opens.len() as u64 {
        return Err(Unmade);
    }
    exchange.incoming.allow(1_000);
    let second = serve_further(
        alloc,
        mounted,
        opens,
        &mut exchange,
        &mut reader,
        &mut writer,
    );
    Ok((first, second))
}

// The service's engine.
pub fn served<R: Read, W: Write>(
    alloc: Global,
    reader: &mut R,
    writer: &mut W,
    turns: u64,
) -> Result<End, Unmade> {
    served_within(alloc, Limits::greatest(), reader, writer, turns)
}

pub fn served_within<R: Read, W: Write>(
    alloc: Global,
    limits: Limits,
    reader: &mut R,
    writer: &mut W,
    turns: u64,
) -> Result<End, Unmade> {
    let catalogue = catalogue_of_one(alloc)?;
    let Ok(service) = Service::start(alloc, 1, Port::One, &catalogue, limits) else {
        return Err(Unmade);
    };
    let Some(version) = service.version() else {
        return Err(Unmade);
    };
    if service.connected() || catalogue.at(version).is_none() {
        return Err(Unmade);
    }
    may_refuse(alloc);
    let end = serve_service(
        alloc,
        &mut CataloguedService { service, catalogue },
        &mut Recorded::new(reader),
        &mut Recorded::new(writer),
        turns,
    );
    refuse_no_more(alloc);
    Ok(end)
}

// With each request refused in turn: Memory with a front of the text, or the whole run.
pub fn refused_watch(alloc: Global) -> Result<bool, Unmade> {
    let mut writer = FakeWriter::new(alloc);
    let run = watched(alloc, &mut FakeReader::new(&UP), &mut writer, 1_000)?;
    let out = writer.taken();
    Ok(match run.end {
        End::Done => out == DOWN.as_slice(),
        End::Memory | End::WriteFault => DOWN.starts_with(out),
        _ => false,
    })
}

pub fn refused_serve(alloc: Global) -> Result<bool, Unmade> {
    let mut writer = FakeWriter::new(alloc);
    let end = served(alloc, &mut FakeReader::new(&DOWN), &mut writer, 1_000)?;
    let out = writer.taken();
    Ok(match end {
        End::Closed => out == UP.as_slice(),
        End::Memory | End::WriteFault => UP.starts_with(out),
        _ => false,
    })
}

// The greatest limits but this one.
pub fn limits_with(limit: (LimitField, u64)) -> Result<Limits, Unmade> {
    let (field, most) = limit;
    match Limits::check(LimitValues::greatest().with(field, most)) {
        Ok(limits) => Ok(limits),
        Err(_) => Err(Unmade),
    }
}
