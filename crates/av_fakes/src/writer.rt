use std::alloc::Global;
use std::io;
use std::io::Write;

/// What goes wrong with a writer. Writes and flushes are counted from 1.
#[derive(Clone, Copy, Debug, PartialEq, Eq)]
pub enum Fault {
    Never,
    /// This write fails.
    Fails { write: u64 },
    /// This write takes no byte.
    TakesNothing { write: u64 },
    /// Each flush fails.
    KeepsUnflushed,
}

/// A writer that keeps what it takes, in pieces, and has a fault.
#[derive(Drop)]
pub struct FakeWriter {
    taken: Vec<u8>,
    flushed: usize,
    piece: usize,
    fault: Fault,
    writes: u64,
}

impl FakeWriter {
    /// A writer that takes all that it is given.
    pub fn new(alloc: Global) -> FakeWriter {
        FakeWriter {
            taken: Vec::new(alloc),
            flushed: 0,
            piece: usize::MAX,
            fault: Fault::Never,
            writes: 0,
        }
    }

    /// The same, with this many bytes a write at most.
    pub fn in_pieces_of(self, piece: usize) -> FakeWriter {
        FakeWriter { piece, ..self }
    }

    /// The same, with this fault.
    pub fn with(self, fault: Fault) -> FakeWriter {
        FakeWriter { fault, ..self }
    }

    /// All bytes that were taken.
    pub fn taken(&self) -> &[u8] {
        self.taken.as_slice()
    }

    /// How many bytes had been taken at the last flush.
    pub fn flushed(&self) -> usize {
        self.flushed
    }

    /// How many writes were made.
    pub fn writes(&self) -> u64 {
        self.writes
    }
}

impl Write for FakeWriter {
    fn write(&mut self, buf: &[u8]) -> io::Result<usize> {
        self.writes = self.writes.saturating_add(1);
        if self.fault == (Fault::Fails { write: self.writes }) {
            return Err(io::Error::from(io::ErrorKind::BrokenPipe));
        }
        if self.fault == (Fault::TakesNothing { write: self.writes }) {
            return Ok(0);
        }
        let count = self.piece.min(buf.len());
        match self.taken.extend_from_slice(&buf[..count]) {
            Ok(()) => Ok(count),
            Err(_) => Err(io::Error::from(io::ErrorKind::OutOfMemory)),
        }
    }

    fn flush(&mut self) -> io::Result<()> {
        if self.fault == Fault::KeepsUnflushed {
            return Err(io::Error::from(io::ErrorKind::BrokenPipe));
        }
        self.flushed = self.taken.len();
        Ok(())
    }
}
