use std::cell::Cell;
use std::io;
use std::io::{Error, ErrorKind, Write};

/// Standard output, which keeps the fault of a write that failed.
#[derive(Drop)]
pub struct Output<'a, W> {
    writer: W,
    fault: &'a Cell<Option<Error>>,
}

impl<'a, W: Write> Output<'a, W> {
    /// Writes to `writer`, and puts the fault of a write into `fault`.
    pub fn new(writer: W, fault: &'a Cell<Option<Error>>) -> Output<'a, W> {
        Output { writer, fault }
    }
}

impl<'a, W: Write> Write for Output<'a, W> {
    fn write(&mut self, buf: &[u8]) -> io::Result<usize> {
        let written = self.writer.write(buf);
        if let Err(error) = &written {
            self.fault.set(Some(*error));
        }
        written
    }

    fn flush(&mut self) -> io::Result<()> {
        let flushed = self.writer.flush();
        if let Err(error) = &flushed {
            self.fault.set(Some(*error));
        }
        flushed
    }
}

/// Standard error. Once nobody reads standard output any more, which is no fault that a user has to hear of, nothing is written.
#[derive(Drop)]
pub struct Errors<'a, E> {
    writer: E,
    fault: &'a Cell<Option<Error>>,
}

impl<'a, E: Write> Errors<'a, E> {
    /// Writes to `writer`, until `fault` is that of a pipe that was closed.
    pub fn new(writer: E, fault: &'a Cell<Option<Error>>) -> Errors<'a, E> {
        Errors { writer, fault }
    }
}

impl<'a, E: Write> Write for Errors<'a, E> {
    fn write(&mut self, buf: &[u8]) -> io::Result<usize> {
        if is_closed(self.fault.get()) {
            return Ok(buf.len());
        }
        self.writer.write(buf)
    }

    fn flush(&mut self) -> io::Result<()> {
        self.writer.flush()
    }
}

// Whether a write failed since the other end of a pipe is closed.
fn is_closed(fault: Option<Error>) -> bool {
    match fault {
        Some(error) => error.kind() == ErrorKind::BrokenPipe,
        None => false,
    }
}
