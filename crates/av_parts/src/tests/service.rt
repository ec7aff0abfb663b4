use crate::judge::Judge;
use crate::order_reader::OrderReader;
use crate::tests::service_rows::ROWS;
use crate::tests::set::{Patterns, automaton_of};
use crate::word::{Said, put_said};
use av_base::Refusal;
use std::alloc::Global;
use std::test::Fail;

// What comes of a guard, or what was said behind it.
#[derive(Clone, Copy)]
pub enum Step<'a> {
    // These bytes come, and then so many zeros.
    From(&'a str, usize),
    // This was said since the step before, and nothing else.
    To(&'a str),
    // A set of this version comes.
    Publish(u64, Patterns<'a>),
    // The connection is closed.
    Closed,
}

// A service that has the set of this version, and the steps of its connection.
#[derive(Clone, Copy)]
pub struct Row<'a> {
    pub name: &'a str,
    pub version: u64,
    pub patterns: Patterns<'a>,
    pub steps: &'a [Step<'a>],
}

// The service's side of a connection.
#[derive(Drop)]
struct Side {
    reader: OrderReader,
    judge: Judge,
    said: Vec<u8>,
    closed: bool,
}

impl Side {
    fn new(alloc: Global, row: &Row<'_>) -> Result<Side, Fail> {
        let judge = Judge::new(alloc, automaton_of(alloc, row.version, row.patterns)?);
        let mut said = Vec::new(alloc);
        put_said(&mut said, &judge.greeting())?;
        Ok(Side {
            reader: OrderReader::new(),
            judge,
            said,
            closed: false,
        })
    }

    // Hears bytes, cut into pieces of so many at most.
    fn hear(&mut self, bytes: &[u8], size: usize) -> Result<(), Fail> {
        for piece in bytes.chunks(size.max(1)) {
            self.hear_piece(piece)?;
        }
        Ok(())
    }

    fn hear_piece(&mut self, piece: &[u8]) -> Result<(), Fail> {
        let mut rest = piece;
        for _ in 0..piece.len() {
            if rest.is_empty() || self.closed {
                break;
            }
            let taken = self.hear_one(rest)?;
            rest = rest.get(taken..).unwrap_or(&[]);
        }
        Ok(())
    }

    // Hears what the first bytes tell, and answers how many these are.
    fn hear_one(&mut self, piece: &[u8]) -> Result<usize, Fail> {
        let Ok(heard) = self.reader.hear(piece) else {
            self.closed = true;
            return Ok(piece.len());
        };
        let Some(order) = heard.order else {
            return Ok(heard.taken);
        };
        match self.judge.obey(order) {
            Ok(Some(word)) => put_said(&mut self.said, &Said::Of(word))?,
            Ok(None) => {}
            Err(Refusal::Fault(_)) => self.closed = true,
            Err(Refusal::NoMemory) => return Err(Fail::from("no memory")),
        }
        Ok(heard.taken)
    }

    fn publish(&mut self, alloc: Global, version: u64, patterns: Patterns<'_>) -> Result<(), Fail> {
        let automaton = automaton_of(alloc, version, patterns)?;
        let mut words = Vec::new(alloc);
        self.judge.renew(&automaton, &mut words)?;
        for word in &words {
            put_said(&mut self.said, &Said::Of(*word))?;
        }
        Ok(())
    }
}

// Into how many bytes what comes is cut, where short ones are cut into so many: long ones take too long byte by byte.
fn size_of_pieces(bytes: &[u8], size: usize) -> usize {
    if bytes.len() > 65_536 {
        size.max(999)
    } else {
        size
    }
}

// Whether the connection of a row goes as it is written, where bytes come in pieces of so many at most.
fn goes_as_written(alloc: Global, row: &Row<'_>, size: usize) -> Result<bool, Fail> {
    let mut side = Side::new(alloc, row)?;
    let mut coming = Vec::new(alloc);
    for step in row.steps {
        if let Step::From(text, zeros) = step {
            coming.extend_from_slice(&hex::decode(alloc, *text)?)?;
            coming.extend_from_slice(&vec![in alloc; 0u8; *zeros]?)?;
            continue;
        }
        side.hear(&coming, size_of_pieces(&coming, size))?;
        coming.clear();
        let goes = match step {
            Step::To(text) => side.said.as_slice() == hex::decode(alloc, *text)?.as_slice(),
            Step::Closed => side.closed && side.said.is_empty(),
            Step::Publish(version, patterns) => {
                let silent = side.said.is_empty();
                side.publish(alloc, *version, *patterns)?;
                silent
            }
            Step::From(..) => false,
        };
        if !goes {
            return Ok(false);
        }
        if matches!(step, Step::To(_)) {
            side.said.clear();
        }
    }
    let was_closed = side.closed;
    side.hear(&coming, size_of_pieces(&coming, size))?;
    Ok(side.said.is_empty() && side.closed == was_closed)
}

// The first connection that does not go as it is written.
fn first_other(alloc: Global, size: usize) -> Result<Option<&'static str>, Fail> {
    for row in ROWS.as_slice() {
        if !goes_as_written(alloc, row, size)? {
            return Ok(Some(row.name));
        }
    }
    Ok(None)
}

#[test]
fn each_connection_goes_as_written(rt: HostRuntime) -> Result<(), Fail> {
    assert_eq!(rt; first_other(rt.alloc(), usize::MAX)?, None);
    Ok(())
}

#[test]
fn each_connection_goes_as_written_byte_by_byte(rt: HostRuntime) -> Result<(), Fail> {
    assert_eq!(rt; first_other(rt.alloc(), 1)?, None);
    Ok(())
}

#[test]
fn each_connection_goes_as_written_in_pieces_of_seven(rt: HostRuntime) -> Result<(), Fail> {
    assert_eq!(rt; first_other(rt.alloc(), 7)?, None);
    Ok(())
}

#[test]
fn each_connection_goes_as_written_in_pieces_of_65536(rt: HostRuntime) -> Result<(), Fail> {
    assert_eq!(rt; first_other(rt.alloc(), 65_536)?, None);
    Ok(())
}
