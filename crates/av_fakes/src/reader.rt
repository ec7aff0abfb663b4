use std::io;
use std::io::Read;

/// A reader over a text that gives it in pieces, and fails at one read.
#[derive(Drop)]
pub struct FakeReader<'a> {
    rest: &'a [u8],
    piece: usize,
    failing: Option<u64>,
    reads: u64,
}

impl<'a> FakeReader<'a> {
    /// A reader that gives the whole text, as far as each buffer has room, and never fails.
    pub fn new(text: &'a [u8]) -> FakeReader<'a> {
        FakeReader {
            rest: text,
            piece: usize::MAX,
            failing: None,
            reads: 0,
        }
    }

    /// The same, with this many bytes a read at most.
    pub fn in_pieces_of(self, piece: usize) -> FakeReader<'a> {
        FakeReader { piece, ..self }
    }

    /// The same, where the read of this number, counted from 1, fails.
    pub fn failing_at(self, read: u64) -> FakeReader<'a> {
        FakeReader {
            failing: Some(read),
            ..self
        }
    }

    /// How many reads were made.
    pub fn reads(&self) -> u64 {
        self.reads
    }
}

impl<'a> Read for FakeReader<'a> {
    fn read(&mut self, buf: &mut [u8]) -> io::Result<usize> {
        self.reads = self.reads.saturating_add(1);
        if self.failing == Some(self.reads) {
            return Err(io::Error::from(io::ErrorKind::BrokenPipe));
        }
        let count = self.piece.min(buf.len()).min(self.rest.len());
        buf[..count].copy_from_slice(&self.rest[..count]);
        self.rest = &self.rest[count..];
        Ok(count)
    }
}
