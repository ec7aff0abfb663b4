// A service to which newer sets come while it runs.
use crate::fresh::Fresh;
use crate::serving::{CataloguedService, serve_fresh};
use crate::tests::frames::{CHUNK, CLEAN, HELLO, READ, SCAN};
use crate::tests::sides::{Unmade, catalogue_of_one};
use crate::tests::text::bytes_of;
use av_base::recorded::Recorded;
use av_base::{Limits, Port, Refusal, Version};
use av_fakes::{FakeWriter, may_refuse, refuse_no_more};
use av_frame::End;
use av_service::Service;
use av_sigset::{Catalogue, CatalogueFault, SignatureSet};
use std::alloc::Global;
use std::io;
use std::io::{ErrorKind, Read};
use std::test::Fail;

// A reader that gives a text in pieces, and where a piece is empty has its time up.
#[derive(Drop)]
struct Timed<'a> {
    pieces: &'a [&'a [u8]],
    reads: u64,
}

impl<'a> Read for Timed<'a> {
    fn read(&mut self, buf: &mut [u8]) -> io::Result<usize> {
        self.reads = self.reads.saturating_add(1);
        let Some((first, rest)) = self.pieces.split_first() else {
            return Ok(0);
        };
        self.pieces = rest;
        if first.is_empty() {
            return Err(io::Error::from(ErrorKind::WouldBlock));
        }
        let count = buf.len().min(first.len());
        buf[..count].copy_from_slice(&first[..count]);
        Ok(count)
    }
}

// A set of each of the versions from one to another, the first at the ask of a number and one at each ask behind it.
#[derive(Drop)]
struct Coming {
    alloc: Global,
    versions: (u64, u64),
    at: u64,
    asks: u64,
    published: u64,
    old: u64,
    full: u64,
    no_memory: u64,
}

impl Coming {
    fn of(alloc: Global, versions: (u64, u64), at: u64) -> Coming {
        Coming {
            alloc,
            versions,
            at,
            asks: 0,
            published: 0,
            old: 0,
            full: 0,
            no_memory: 0,
        }
    }
}

impl Fresh for Coming {
    ghost use Rattle.std.specs.Prelude.{None};

    ghost coming = { λ _. None };

    fn next(&mut self) -> Option<SignatureSet> {
        self.asks = self.asks.saturating_add(1);
        let (version, last) = self.versions;
        if self.asks < self.at || version > last {
            return None;
        }
        let patterns: [&[u8]; 1] = [b"AB"];
        self.versions = (version.saturating_add(1), last);
        refuse_no_more(self.alloc);
        let set = SignatureSet::from_patterns(self.alloc, Version::new(version), &patterns);
        may_refuse(self.alloc);
        set.ok()
    }

    fn published(&mut self, _version: Version) {
        self.published = self.published.saturating_add(1);
    }

    fn refused(&mut self, _version: Version, why: Refusal<CatalogueFault>) {
        let count = match why {
            Refusal::NoMemory => &mut self.no_memory,
            Refusal::Fault(CatalogueFault::OldVersion) => &mut self.old,
            Refusal::Fault(CatalogueFault::CatalogueFull) => &mut self.full,
        };
        *count = count.saturating_add(1);
    }
}

// Serves under a set of version 1 with the pattern `XX`.
fn served(
    alloc: Global,
    fresh: &mut Coming,
    reader: &mut Timed<'_>,
    writer: &mut FakeWriter,
    turns: u64,
) -> Result<End, Unmade> {
    served_over(
        alloc,
        catalogue_of_one(alloc)?,
        fresh,
        reader,
        writer,
        turns,
    )
}

// A catalogue of so many sets, of the versions from 1 on.
fn catalogue_of(alloc: Global, count: u64) -> Result<Catalogue, Unmade> {
    let mut catalogue = Catalogue::new(alloc);
    let patterns: [&[u8]; 1] = [b"XX"];
    for version in 0..count {
        let Ok(set) = SignatureSet::from_patterns(alloc, Version::new(version + 1), &patterns)
        else {
            return Err(Unmade);
        };
        if catalogue.publish(set).is_err() {
            return Err(Unmade);
        }
    }
    Ok(catalogue)
}

fn served_over(
    alloc: Global,
    catalogue: Catalogue,
    fresh: &mut Coming,
    reader: &mut Timed<'_>,
    writer: &mut FakeWriter,
    turns: u64,
) -> Result<End, Unmade> {
    let Ok(service) = Service::start(alloc, 1, Port::One, &catalogue, Limits::greatest()) else {
        return Err(Unmade);
    };
    let Some(version) = service.version() else {
        return Err(Unmade);
    };
    if service.connected() || catalogue.at(version).is_none() {
        return Err(Unmade);
    }
    may_refuse(alloc);
    let end = serve_fresh(
        alloc,
        &mut CataloguedService { service, catalogue },
        &mut Recorded::new(reader),
        &mut Recorded::new(writer),
        turns,
        fresh,
    );
    refuse_no_more(alloc);
    Ok(end)
}

// Updated to version 2, and Reply 1.1 infected by signature 0 that ends at 2 under it.
const UPDATED: &str = "0000000a 0801 [2]";

const INFECTED: &str = "00000027 0701 [1] [1] 01 [2] 00000000 [2]";

#[test]
fn a_set_that_comes_is_told_and_its_jobs_begin_anew(rt: HostRuntime) -> Result<(), Fail> {
    let alloc = rt.alloc();
    let scan = bytes_of(alloc, &[SCAN])?;
    let chunk = bytes_of(alloc, &[CHUNK])?;
    let mut reader = Timed {
        pieces: &[&scan, b"", &chunk],
        reads: 0,
    };
    let mut fresh = Coming::of(alloc, (2, 2), 4);
    let mut writer = FakeWriter::new(alloc);
    let end = served(alloc, &mut fresh, &mut reader, &mut writer, 1_000)?;
    let sent = bytes_of(alloc, &[HELLO, READ, UPDATED, READ, INFECTED])?;
    assert_eq!(rt; end, End::Closed);
    assert_eq!(rt; writer.taken(), sent.as_slice());
    assert_eq!(rt;
        (fresh.published, fresh.old, fresh.full, fresh.no_memory),
        (1, 0, 0, 0)
    );
    Ok(())
}

#[test]
fn a_set_that_comes_before_the_first_message_is_told_behind_the_greeting(
    rt: HostRuntime,
) -> Result<(), Fail> {
    let alloc = rt.alloc();
    let both = bytes_of(alloc, &[SCAN, CHUNK])?;
    let mut reader = Timed {
        pieces: &[&both],
        reads: 0,
    };
    let mut fresh = Coming::of(alloc, (2, 2), 1);
    let mut writer = FakeWriter::new(alloc);
    let end = served(alloc, &mut fresh, &mut reader, &mut writer, 1_000)?;
    let sent = bytes_of(alloc, &[HELLO, UPDATED, READ, INFECTED])?;
    assert_eq!(rt; end, End::Closed);
    assert_eq!(rt; writer.taken(), sent.as_slice());
    Ok(())
}

#[test]
fn a_set_that_is_not_newer_changes_nothing_and_is_told_as_old(rt: HostRuntime) -> Result<(), Fail> {
    let alloc = rt.alloc();
    let scan = bytes_of(alloc, &[SCAN])?;
    let chunk = bytes_of(alloc, &[CHUNK])?;
    let mut reader = Timed {
        pieces: &[&scan, b"", &chunk],
        reads: 0,
    };
    let mut fresh = Coming::of(alloc, (1, 1), 3);
    let mut writer = FakeWriter::new(alloc);
    let end = served(alloc, &mut fresh, &mut reader, &mut writer, 1_000)?;
    let sent = bytes_of(alloc, &[HELLO, READ, CLEAN])?;
    assert_eq!(rt; end, End::Closed);
    assert_eq!(rt; writer.taken(), sent.as_slice());
    assert_eq!(rt;
        (fresh.published, fresh.old, fresh.full, fresh.no_memory),
        (0, 1, 0, 0)
    );
    Ok(())
}

#[test]
fn a_set_is_asked_for_before_each_read_and_a_read_whose_time_is_up_is_made_again(
    rt: HostRuntime,
) -> Result<(), Fail> {
    let alloc = rt.alloc();
    let mut reader = Timed {
        pieces: &[b"", b"", b"", b"", b"", b"", b""],
        reads: 0,
    };
    let mut fresh = Coming::of(alloc, (2, 0), 1);
    let mut writer = FakeWriter::new(alloc);
    let end = served(alloc, &mut fresh, &mut reader, &mut writer, 1_000)?;
    assert_eq!(rt; (end, reader.reads, fresh.asks), (End::Closed, 8, 8));
    let mut reader = Timed {
        pieces: &[b"", b"", b"", b"", b"", b"", b""],
        reads: 0,
    };
    let end = served(alloc, &mut fresh, &mut reader, &mut writer, 5)?;
    assert_eq!(rt; (end, reader.reads), (End::ReadFault, 5));
    Ok(())
}

#[test]
fn behind_4095_versions_one_is_published_and_the_others_are_told_as_too_many(
    rt: HostRuntime,
) -> Result<(), Fail> {
    let alloc = rt.alloc();
    let catalogue = catalogue_of(alloc, 4_095)?;
    let scan = bytes_of(alloc, &[SCAN])?;
    let chunk = bytes_of(alloc, &[CHUNK])?;
    let mut reader = Timed {
        pieces: &[b"", b"", &scan, &chunk],
        reads: 0,
    };
    let mut fresh = Coming::of(alloc, (4_096, 4_098), 1);
    let mut writer = FakeWriter::new(alloc);
    let end = served_over(
        alloc,
        catalogue,
        &mut fresh,
        &mut reader,
        &mut writer,
        1_000,
    )?;
    let sent = bytes_of(
        alloc,
        &[
            "00000012 0501 [1] [4095]",
            "0000000a 0801 [4096]",
            READ,
            "00000027 0701 [1] [1] 01 [4096] 00000000 [2]",
        ],
    )?;
    assert_eq!(rt; end, End::Closed);
    assert_eq!(rt;
        (fresh.published, fresh.old, fresh.full, fresh.no_memory),
        (1, 0, 2, 0)
    );
    assert_eq!(rt; writer.taken(), sent.as_slice());
    Ok(())
}

#[test]
fn refused_or_not_a_set_that_comes_is_published_or_changes_nothing(
    rt: HostRuntime,
) -> Result<(), Fail> {
    let alloc = rt.alloc();
    let scan = bytes_of(alloc, &[SCAN])?;
    let chunk = bytes_of(alloc, &[CHUNK])?;
    let mut reader = Timed {
        pieces: &[&scan, b"", &chunk],
        reads: 0,
    };
    let mut fresh = Coming::of(alloc, (2, 2), 4);
    let mut writer = FakeWriter::new(alloc);
    let end = served(alloc, &mut fresh, &mut reader, &mut writer, 1_000)?;
    let renewed = bytes_of(alloc, &[HELLO, READ, UPDATED, READ, INFECTED])?;
    let kept = bytes_of(alloc, &[HELLO, READ, CLEAN])?;
    let out = writer.taken();
    let holds = match end {
        End::Closed if fresh.no_memory == 0 => out == renewed.as_slice(),
        End::Closed => out == kept.as_slice() && fresh.published == 0,
        End::Memory | End::WriteFault => renewed.starts_with(out) || kept.starts_with(out),
        _ => false,
    };
    assert!(rt; holds);
    Ok(())
}
