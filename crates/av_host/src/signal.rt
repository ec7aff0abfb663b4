//! How one end of a connection learns without sleeping that the other one has written: both are in one process.

use std::alloc::{AllocError, Global};
use std::io::{Read, Write};
use std::os::unix::net::UnixStream;
use std::sync::Arc;
use std::sync::atomic::AtomicU64;
use std::sync::atomic::Ordering::SeqCst;
use std::{io, thread};

/// How often is looked before a thread sleeps: some tens of microseconds in all, which the other side needs for an answer.
pub const LOOKS: usize = 100;

/// How many bytes one end has written. Who misses them sleeps in the read, which is slower and no fault.
#[derive(Drop)]
pub struct Signal {
    written: Arc<AtomicU64, Global>,
}

impl Signal {
    /// A signal of no byte, for who looks at it and for who writes.
    pub fn pair(alloc: Global) -> Result<(Signal, Signal), AllocError> {
        let Ok(written) = Arc::new(alloc, AtomicU64::new(0)) else {
            return Err(AllocError);
        };
        let same = Arc::try_clone(&written)?;
        Ok((Signal { written }, Signal { written: same }))
    }

    fn add(&self, count: usize) {
        self.written.fetch_add(count as u64, SeqCst);
    }

    // Looks for a while whether more was written than so many bytes. It counts bytes, since who sleeps in a read has them before their
    // writer comes to say so: a flag would then stay for the next look, which would end at once.
    fn await_more(&self, read: u64) {
        for _ in 0..LOOKS {
            if self.written.load(SeqCst) > read {
                return;
            }
            thread::yield_now();
        }
    }
}

/// The writing end of a stream: it tells the other end what was written.
#[derive(Drop)]
pub struct SignallingWriter {
    pub stream: UnixStream,
    pub signal: Signal,
}

impl Write for SignallingWriter {
    fn write(&mut self, buf: &[u8]) -> io::Result<usize> {
        let count = self.stream.write(buf)?;
        self.signal.add(count);
        Ok(count)
    }

    fn flush(&mut self) -> io::Result<()> {
        self.stream.flush()
    }
}

/// The reading end of a stream: before it sleeps it looks whether more was written than it has read.
#[derive(Drop)]
pub struct WatchingReader<'w> {
    stream: &'w UnixStream,
    signal: &'w Signal,
    read: u64,
}

impl<'w> WatchingReader<'w> {
    /// Of a stream of which nothing was read yet.
    pub fn new(stream: &'w UnixStream, signal: &'w Signal) -> WatchingReader<'w> {
        WatchingReader {
            stream,
            signal,
            read: 0,
        }
    }
}

impl<'w> Read for WatchingReader<'w> {
    fn read(&mut self, buf: &mut [u8]) -> io::Result<usize> {
        self.signal.await_more(self.read);
        let mut stream = self.stream;
        let count = stream.read(buf)?;
        self.read = self.read.wrapping_add(count as u64);
        Ok(count)
    }
}
