// A service over a connection: what it writes, however what comes is cut, and how it ends.
use crate::ended::Ended;
use crate::fault::{JudgeFault, OrderFault};
use crate::newest::Newest;
use crate::serve::serve_parts;
use crate::tests::service::{Row, Step};
use crate::tests::service_rows::ROWS;
use crate::tests::set::automaton_of;
use av_fakes::{FakeReader, FakeWriter, Fault, may_refuse, refuse_no_more};
use av_match::Automaton;
use std::alloc::Global;
use std::io;
use std::io::{ErrorKind, Read};
use std::sync::Arc;
use std::test::Fail;

// A guard: its bytes, how many of them each read gives, and how the connection ends. A read of no bytes has its time up.
#[derive(Drop)]
struct Guard {
    bytes: Vec<u8>,
    sizes: Vec<usize>,
    at: usize,
    reads: usize,
    end: Option<ErrorKind>,
}

impl Read for Guard {
    fn read(&mut self, buf: &mut [u8]) -> io::Result<usize> {
        let size = self.sizes.get(self.reads).copied();
        self.reads = self.reads.saturating_add(1);
        let Some(size) = size else {
            return match self.end {
                Some(kind) => Err(io::Error::from(kind)),
                None => Ok(0),
            };
        };
        if size == 0 {
            return Err(io::Error::from(ErrorKind::WouldBlock));
        }
        let rest = self.bytes.get(self.at..).unwrap_or(&[]);
        let count = size.min(buf.len()).min(rest.len());
        buf[..count].copy_from_slice(&rest[..count]);
        self.at = self.at.saturating_add(count);
        Ok(count)
    }
}

// The sets that come, each at the look of its number, counted from 1.
#[derive(Drop)]
struct Coming {
    sets: Vec<(usize, Arc<Automaton, Global>)>,
    looks: usize,
}

impl Newest for Coming {
    ghost use Rattle.std.specs.Prelude.{None};

    ghost looks = { λ _. None };

    fn newer(&mut self) -> Option<Arc<Automaton, Global>> {
        self.looks = self.looks.saturating_add(1);
        let is_due = self.sets.first().is_some_and(|set| set.0 == self.looks);
        if is_due {
            let (_, automaton) = self.sets.remove(0);
            return Some(automaton);
        }
        None
    }
}

// A connection: what comes, with the sets, and what is to be written.
#[derive(Drop)]
struct Course {
    guard: Guard,
    coming: Coming,
    text: Vec<u8>,
    breaks: bool,
}

impl Course {
    // The connection of a row, where each read gives so many bytes at most.
    fn of(alloc: Global, row: &Row<'_>, size: usize) -> Result<Course, Fail> {
        let mut course = Course {
            guard: Guard {
                bytes: Vec::new(alloc),
                sizes: Vec::new(alloc),
                at: 0,
                reads: 0,
                end: None,
            },
            coming: Coming {
                sets: Vec::new(alloc),
                looks: 0,
            },
            text: Vec::new(alloc),
            breaks: false,
        };
        for step in row.steps {
            course.take(alloc, *step, size)?;
        }
        Ok(course)
    }

    fn take(&mut self, alloc: Global, step: Step<'_>, size: usize) -> Result<(), Fail> {
        match step {
            Step::From(text, zeros) => {
                let mut bytes = hex::decode(alloc, text)?;
                bytes.extend_from_slice(&vec![in alloc; 0u8; zeros]?)?;
                self.come(&bytes, if zeros > 65_536 { size.max(999) } else { size })
            }
            Step::To(text) => Ok(self.text.extend_from_slice(&hex::decode(alloc, text)?)?),
            Step::Publish(version, patterns) => {
                self.guard.sizes.push(0)?;
                let automaton = automaton_of(alloc, version, patterns)?;
                Ok(self.coming.sets.push((self.guard.sizes.len(), automaton))?)
            }
            Step::Closed => {
                self.breaks = true;
                Ok(())
            }
        }
    }

    fn come(&mut self, bytes: &[u8], size: usize) -> Result<(), Fail> {
        self.guard.bytes.extend_from_slice(bytes)?;
        for piece in bytes.chunks(size.clamp(1, 65_536)) {
            self.guard.sizes.push(piece.len())?;
        }
        Ok(())
    }
}

// Whether a service writes what a row says, and ends with a fault if it breaks, and else as the guard closes.
fn goes_as_written(alloc: Global, row: &Row<'_>, size: usize) -> Result<bool, Fail> {
    let mut course = Course::of(alloc, row, size)?;
    let mut writer = FakeWriter::new(alloc);
    let set = automaton_of(alloc, row.version, row.patterns)?;
    let end = serve_parts(
        alloc,
        set,
        &mut course.coming,
        &mut course.guard,
        &mut writer,
        u64::MAX,
    );
    let ends = match end {
        Ended::Order(_) | Ended::Judge(_) => course.breaks,
        Ended::Done => !course.breaks,
        _ => false,
    };
    Ok(ends && writer.taken() == course.text.as_slice() && writer.flushed() == course.text.len())
}

// The first row that does not go as it is written.
fn first_other(alloc: Global, size: usize) -> Result<Option<&'static str>, Fail> {
    for row in ROWS.as_slice() {
        if !goes_as_written(alloc, row, size)? {
            return Ok(Some(row.name));
        }
    }
    Ok(None)
}

#[test]
fn each_connection_is_served_however_it_is_cut(rt: HostRuntime) -> Result<(), Fail> {
    for size in [1, 7, 65_536] {
        assert_eq!(rt; first_other(rt.alloc(), size)?, None, "in pieces of {size}");
    }
    Ok(())
}

// Content 1 is clean, and `AB` occurs in content 2, which begins and ends within the second half.
const FIRST: &str =
    "000000091000000000000000010000000a11000000000000000178000000111200000000000000010000000000000001";

const SECOND: &str = "000000091000000000000000020000000b1100000000000000024142";

const HELLO: &str = "0000000a14010000000000000001";

const CLEAN: &str = "0000001a1500000000000000010000000000000000010000000000000001";

const INFECTED: &str = "0000001e150000000000000002010000000000000001000000000000000000000002";

fn two_contents(alloc: Global) -> Result<Vec<u8>, Fail> {
    let mut bytes = hex::decode(alloc, FIRST)?;
    bytes.extend_from_slice(&hex::decode(alloc, SECOND)?)?;
    Ok(bytes)
}

fn three_words(alloc: Global) -> Result<Vec<u8>, Fail> {
    let mut bytes = hex::decode(alloc, HELLO)?;
    bytes.extend_from_slice(&hex::decode(alloc, CLEAN)?)?;
    bytes.extend_from_slice(&hex::decode(alloc, INFECTED)?)?;
    Ok(bytes)
}

// How a service ends of a reader and a writer, under a set of version 1 with the pattern `AB`.
fn served<R: Read>(
    alloc: Global,
    reader: &mut R,
    writer: &mut FakeWriter,
    turns: u64,
) -> Result<Ended, Fail> {
    let set = automaton_of(alloc, 1, &[(b"AB", 0, 1_048_575)])?;
    Ok(serve_parts(alloc, set, &mut (), reader, writer, turns))
}

// A guard of whom these bytes come, in reads of these sizes.
fn guard_of(alloc: Global, sizes: &[usize], end: Option<ErrorKind>) -> Result<Guard, Fail> {
    let mut reads = Vec::new(alloc);
    reads.extend_from_slice(sizes)?;
    Ok(Guard {
        bytes: two_contents(alloc)?,
        sizes: reads,
        at: 0,
        reads: 0,
        end,
    })
}

#[test]
fn each_end_has_its_name(rt: HostRuntime) -> Result<(), Fail> {
    let rows: [(&[usize], Option<ErrorKind>, u64, Ended, usize); 8] = [
        (&[], None, 9, Ended::Done, 14),
        (&[48], None, 9, Ended::Done, 44),
        (&[48, 1], None, 9, Ended::Cut, 44),
        (&[48, 27], None, 9, Ended::Cut, 44),
        (&[48, 28], None, 9, Ended::Done, 78),
        (
            &[48],
            Some(ErrorKind::ConnectionReset),
            9,
            Ended::ReadFault,
            44,
        ),
        (&[48], Some(ErrorKind::TimedOut), 9, Ended::Idle, 44),
        (&[48, 0, 0, 28], None, 4, Ended::Spent, 78),
    ];
    let words = three_words(rt.alloc())?;
    for (sizes, kind, turns, wanted, written) in rows {
        let mut writer = FakeWriter::new(rt.alloc());
        let mut guard = guard_of(rt.alloc(), sizes, kind)?;
        assert_eq!(rt; served(rt.alloc(), &mut guard, &mut writer, turns)?, wanted);
        assert_eq!(rt; writer.taken(), &words[..written]);
    }
    Ok(())
}

#[test]
fn a_fault_of_the_guard_has_its_name(rt: HostRuntime) -> Result<(), Fail> {
    let rows: [(&str, Ended); 7] = [
        ("00000008", Ended::Order(OrderFault::Length)),
        ("0000000914", Ended::Order(OrderFault::Kind)),
        ("0000000a10", Ended::Order(OrderFault::Shape)),
        (
            "00000009100000000000000001",
            Ended::Judge(JudgeFault::NotAbove),
        ),
        (
            "00000009130000000000000002",
            Ended::Judge(JudgeFault::Unknown),
        ),
        (
            "0000000a11000000000000000041",
            Ended::Judge(JudgeFault::Unknown),
        ),
        (
            "00000009100000000000000002000000111200000000000000020000000000000001",
            Ended::Judge(JudgeFault::Count),
        ),
    ];
    let words = three_words(rt.alloc())?;
    for (text, wanted) in rows {
        let mut bytes = hex::decode(rt.alloc(), FIRST)?;
        bytes.extend_from_slice(&hex::decode(rt.alloc(), text)?)?;
        bytes.extend_from_slice(&hex::decode(rt.alloc(), SECOND)?)?;
        let mut writer = FakeWriter::new(rt.alloc());
        assert_eq!(rt;
            served(rt.alloc(), &mut FakeReader::new(&bytes), &mut writer, 9)?,
            wanted
        );
        assert_eq!(rt; writer.taken(), &words[..44]);
    }
    Ok(())
}

#[test]
fn a_read_that_fails_ends_it_behind_all_that_came(rt: HostRuntime) -> Result<(), Fail> {
    let bytes = two_contents(rt.alloc())?;
    let words = three_words(rt.alloc())?;
    for read in 1..77_u64 {
        let mut reader = FakeReader::new(&bytes).in_pieces_of(1).failing_at(read);
        let mut writer = FakeWriter::new(rt.alloc());
        assert_eq!(rt;
            served(rt.alloc(), &mut reader, &mut writer, 1_000)?,
            Ended::ReadFault
        );
        let written = match read {
            1..=48 => 14,
            49..=76 => 44,
            _ => 78,
        };
        assert_eq!(rt; writer.taken(), &words[..written], "read {read}");
    }
    Ok(())
}

#[test]
fn a_write_that_fails_ends_it_before_the_next_read(rt: HostRuntime) -> Result<(), Fail> {
    let bytes = two_contents(rt.alloc())?;
    let words = three_words(rt.alloc())?;
    let rows: [(u64, usize, u64); 3] = [(1, 0, 0), (2, 14, 48), (3, 44, 76)];
    for (write, written, reads) in rows {
        for fault in [Fault::Fails { write }, Fault::TakesNothing { write }] {
            let mut reader = FakeReader::new(&bytes).in_pieces_of(1);
            let mut writer = FakeWriter::new(rt.alloc()).with(fault);
            assert_eq!(rt;
                served(rt.alloc(), &mut reader, &mut writer, 1_000)?,
                Ended::WriteFault
            );
            assert_eq!(rt;
                (writer.taken(), reader.reads()),
                (&words[..written], reads)
            );
        }
    }
    let mut reader = FakeReader::new(&bytes);
    let mut writer = FakeWriter::new(rt.alloc()).with(Fault::KeepsUnflushed);
    assert_eq!(rt;
        served(rt.alloc(), &mut reader, &mut writer, 1_000)?,
        Ended::WriteFault
    );
    assert_eq!(rt; reader.reads(), 0);
    Ok(())
}

#[test]
fn a_writer_that_takes_a_byte_at_a_time_gets_all(rt: HostRuntime) -> Result<(), Fail> {
    let bytes = two_contents(rt.alloc())?;
    let mut writer = FakeWriter::new(rt.alloc()).in_pieces_of(1);
    let end = served(rt.alloc(), &mut FakeReader::new(&bytes), &mut writer, 9)?;
    assert_eq!(rt; end, Ended::Done);
    assert_eq!(rt; writer.taken(), three_words(rt.alloc())?.as_slice());
    Ok(())
}

#[test]
fn refused_or_not_a_front_is_written(rt: HostRuntime) -> Result<(), Fail> {
    let words = three_words(rt.alloc())?;
    let set = automaton_of(rt.alloc(), 1, &[(b"AB", 0, 1_048_575)])?;
    let mut guard = guard_of(rt.alloc(), &[9, 0, 39, 28], None)?;
    let mut writer = FakeWriter::new(rt.alloc());
    may_refuse(rt.alloc());
    let end = serve_parts(rt.alloc(), set, &mut (), &mut guard, &mut writer, 9);
    refuse_no_more(rt.alloc());
    assert!(rt; words.starts_with(writer.taken()));
    if end != Ended::Memory && end != Ended::WriteFault {
        assert_eq!(rt; end, Ended::Done);
        assert_eq!(rt; writer.taken().len(), 78);
    }
    Ok(())
}

#[test]
fn refused_or_not_a_newer_set_ends_contents(rt: HostRuntime) -> Result<(), Fail> {
    let row = &ROWS[0];
    let mut course = Course::of(rt.alloc(), row, 65_536)?;
    let mut writer = FakeWriter::new(rt.alloc());
    let set = automaton_of(rt.alloc(), row.version, row.patterns)?;
    may_refuse(rt.alloc());
    let end = serve_parts(
        rt.alloc(),
        set,
        &mut course.coming,
        &mut course.guard,
        &mut writer,
        1_000,
    );
    refuse_no_more(rt.alloc());
    assert!(rt; course.text.starts_with(writer.taken()));
    if end != Ended::Memory && end != Ended::WriteFault {
        assert_eq!(rt; end, Ended::Done);
        assert_eq!(rt; writer.taken(), course.text.as_slice());
    }
    Ok(())
}
