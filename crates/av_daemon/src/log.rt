use av_log::Queue;
use av_status::Prefixed;
use mio::unix::SourceFd;
use mio::{Interest, Registry, Token};
use std::alloc::{AllocError, Global};
use std::io;
use std::io::{ErrorKind, Write};
use std::os::fd::RawFd;

// The descriptor of standard error.
const STANDARD_ERROR: RawFd = 2;

// The most bytes of one line.
const MOST_LINE: usize = 8_192;

// So many bytes a pipe takes at once where it takes any.
const PIECE: usize = 4_096;

/// The lines that a guard says on standard error. They wait until it takes them, so a reader that is slow or stopped keeps nobody
/// waiting. Where too many wait, lines are dropped, and how many is said later.
#[derive(Drop)]
pub struct Log {
    pub queue: Queue,
    // The line that is being written.
    line: Vec<u8>,
    // Standard error takes a piece now.
    may_write: bool,
    // The system tells when it does. It tells nothing of a file, which always does.
    is_told: bool,
    // It took nothing the last time.
    is_failing: bool,
}

impl Log {
    /// Nothing was said. At most so many bytes of lines wait.
    pub fn new(alloc: Global, most: usize) -> Result<Log, AllocError> {
        Ok(Log {
            queue: Queue::new(alloc, most)?,
            line: Vec::new(alloc),
            may_write: true,
            is_told: false,
            is_failing: false,
        })
    }

    /// Has the system tell under this number when standard error takes more.
    pub fn register(&mut self, registry: &Registry, number: u64) {
        let mut source = SourceFd(&STANDARD_ERROR);
        let token = Token(number as usize);
        self.is_told = registry
            .register(&mut source, token, Interest::WRITABLE)
            .is_ok();
        self.may_write = !self.is_told;
    }

    /// Standard error takes more.
    pub fn told(&mut self) {
        self.may_write = true;
    }

    /// Something waits, and is taken without a wait.
    pub fn may_send(&self) -> bool {
        !self.queue.is_empty() && self.may_write
    }

    // Writes a piece of what waits. What can't be written is dropped.
    fn send<E: Write>(&mut self, registry: &Registry, number: u64, err: &mut E) {
        match err.write(self.queue.piece(PIECE)) {
            Ok(taken) => {
                self.queue.gone(taken);
                self.is_failing = false;
            }
            Err(error) => match error.kind() {
                ErrorKind::Interrupted | ErrorKind::WouldBlock => {}
                _ => {
                    self.queue.drop_all();
                    self.is_failing = true;
                }
            },
        }
        if self.is_told {
            self.may_write = false;
            let mut source = SourceFd(&STANDARD_ERROR);
            let token = Token(number as usize);
            let _ = registry.reregister(&mut source, token, Interest::WRITABLE);
        }
    }

    // The line is whole. One that is too long ends early.
    fn end_line(&mut self) {
        if self.line.last() != Some(&b'\n') {
            let _ = self.line.pop();
            let _ = self.line.push(b'\n');
        }
        self.queue.put(self.line.as_slice());
        self.line.clear();
    }
}

/// Writes a piece of what waits, where that is taken without a wait. Once nothing waits it gives how many lines were dropped.
pub fn send_lines<E: Write>(
    log: &mut Prefixed<Log>,
    registry: &Registry,
    number: u64,
    err: &mut E,
) -> u64 {
    if !log.writer.may_send() {
        return 0;
    }
    log.writer.send(registry, number, err);
    if log.writer.is_failing {
        return 0;
    }
    log.writer.queue.take_dropped()
}

impl Write for Log {
    fn write(&mut self, buf: &[u8]) -> io::Result<usize> {
        for byte in buf {
            if self.line.len() < MOST_LINE {
                self.line.push(*byte)?;
            }
            if *byte == b'\n' {
                self.end_line();
            }
        }
        Ok(buf.len())
    }

    fn flush(&mut self) -> io::Result<()> {
        Ok(())
    }
}
