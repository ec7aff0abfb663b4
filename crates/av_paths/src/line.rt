//! A client's connection, on which no read and no write takes longer than the wait.

use std::alloc::{AllocError, Global};
use std::io;
use std::io::{ErrorKind, Read, Write};
use std::os::unix::net::UnixStream;
use std::time::{Clock, Duration};

/// How many bytes are read at a time.
pub(crate) const PIECE: usize = 65_536;

// The shortest wait, in milliseconds.
const LEAST: u64 = 1;

/// A client's connection.
#[derive(Drop)]
pub(crate) struct ClientConnection<'a, C> {
    clock: &'a C,
    stream: UnixStream,
    wait: Duration,
    // What came last, how many bytes that were, and how many of them were taken.
    piece: Vec<u8>,
    came: usize,
    taken: usize,
}

/// The client is to be left.
#[derive(Clone, Copy, Debug, PartialEq, Eq)]
pub(crate) enum Lost {
    /// It closed, or can't be heard or told any more.
    Gone,
    /// It said nothing for too long.
    Late,
    /// Memory was refused.
    Memory,
}

impl From<AllocError> for Lost {
    fn from(_error: AllocError) -> Lost {
        Lost::Memory
    }
}

impl<'a, C: Clock> ClientConnection<'a, C> {
    /// Over a connection that was just made.
    pub(crate) fn new(
        clock: &'a C,
        alloc: Global,
        stream: UnixStream,
        wait: Duration,
    ) -> Result<ClientConnection<'a, C>, Lost> {
        if stream.set_nonblocking(false).is_err() {
            return Err(Lost::Gone);
        }
        Ok(ClientConnection {
            clock,
            stream,
            wait,
            piece: vec![in alloc; 0u8; PIECE]?,
            came: 0,
            taken: 0,
        })
    }

    /// The moment at which a wait is over that begins now.
    pub(crate) fn until(&self) -> Result<Duration, Lost> {
        Ok(self.now()?.saturating_add(self.wait))
    }

    /// What came and was not taken.
    pub(crate) fn rest(&self) -> &[u8] {
        let came = self.piece.get(..self.came).unwrap_or(b"".as_slice());
        came.get(self.taken..).unwrap_or(b"".as_slice())
    }

    /// So many bytes of that were taken.
    pub(crate) fn take(&mut self, count: usize) {
        self.taken = self.taken.saturating_add(count);
    }

    /// Waits for some more until this moment, where nothing is left of what came.
    pub(crate) fn hear(&mut self, until: Duration) -> Result<(), Lost> {
        if !self.rest().is_empty() {
            return Ok(());
        }
        'reads: for _ in 0..u64::MAX {
            let left = self.left(until)?;
            if self.stream.set_read_timeout(Some(left)).is_err() {
                return Err(Lost::Gone);
            }
            let mut reader = &self.stream;
            match reader.read(&mut self.piece) {
                Ok(0) => return Err(Lost::Gone),
                Ok(count) => {
                    self.came = count;
                    self.taken = 0;
                    return Ok(());
                }
                Err(error) if is_passing(&error) => {}
                Err(_) => return Err(Lost::Gone),
            }
        }
        Err(Lost::Late)
    }

    /// Says this, as a whole within the wait.
    pub(crate) fn say(&self, text: &[u8]) -> Result<(), Lost> {
        let until = self.until()?;
        let mut sent = 0usize;
        'writes: for _ in 0..u64::MAX {
            let rest = text.get(sent..).unwrap_or(b"".as_slice());
            if rest.is_empty() {
                return Ok(());
            }
            let Ok(left) = self.left(until) else {
                return Err(Lost::Gone);
            };
            if self.stream.set_write_timeout(Some(left)).is_err() {
                return Err(Lost::Gone);
            }
            let mut writer = &self.stream;
            match writer.write(rest) {
                Ok(count) => sent = sent.saturating_add(count),
                Err(error) if is_passing(&error) => {}
                Err(_) => return Err(Lost::Gone),
            }
        }
        Err(Lost::Gone)
    }

    fn now(&self) -> Result<Duration, Lost> {
        match self.clock.monotonic() {
            Ok(now) => Ok(now),
            Err(_) => Err(Lost::Gone),
        }
    }

    // How long it is until this moment, where it has not come.
    fn left(&self, until: Duration) -> Result<Duration, Lost> {
        let left = until.saturating_sub(self.now()?);
        if left < Duration::from_millis(LEAST) {
            return Err(Lost::Late);
        }
        Ok(left)
    }
}

impl<'a, C: Clock> Write for ClientConnection<'a, C> {
    fn write(&mut self, buf: &[u8]) -> io::Result<usize> {
        match self.say(buf) {
            Ok(()) => Ok(buf.len()),
            Err(_) => Err(io::Error::from(ErrorKind::ConnectionAborted)),
        }
    }

    fn flush(&mut self) -> io::Result<()> {
        Ok(())
    }
}

// Whether a read or a write is to be made again: it was interrupted, or waited as long as one call does.
fn is_passing(error: &io::Error) -> bool {
    matches!(
        error.kind(),
        ErrorKind::WouldBlock | ErrorKind::TimedOut | ErrorKind::Interrupted
    )
}
