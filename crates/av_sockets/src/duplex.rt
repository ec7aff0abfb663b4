//! A connection to the other program, on which two that write at the same time never stand against each other: what is written
//! goes out before the next read that would wait, in few pieces, and while the other side does not take it what comes is read
//! and kept. No wait is longer than was asked for: for a frame that has begun to be whole, for the first byte of the next one,
//! and for what goes out to be taken.

ghost use Rattle.std.specs.Prelude.{◌≤◌, length, IfOk, IfSome};

use av_arrival::{Arriving, Front, TurnedAway, refusal_in};
use std::alloc::Global;
use std::cell::RefCell;
use std::io::{ErrorKind, Read, Write};
use std::os::unix::net::UnixStream;
use std::time::{Clock, Duration};
use std::{io, thread};

// For how many milliseconds a write waits before it is looked what has come meanwhile.
const PAUSE: u64 = 10;

// The shortest wait, for what is there already, in milliseconds.
const LEAST: u64 = 1;

// For how many seconds a read waits that has no end.
const LONG: u64 = 3_600;

// How many bytes are read at a time while a write waits, how often, and how many of them are kept at most.
const PIECE: usize = 8_192;

const PIECES: usize = 16;

const MOST_KEPT: usize = 2_097_152;

// How often a read looks whether something has come before it sleeps: some tens of microseconds in all, which the other side needs
// for an answer.
const LOOKS: usize = 50;

// As soon as so many bytes wait to go out they do.
const MANY: usize = 65_536;

/// Both directions of a connection.
#[derive(Drop)]
pub struct Duplex<'a, C> {
    line: TimedStream<'a, C>,
    inside: RefCell<Inside>,
}

// The connection and the time that a wait may take.
#[derive(Drop)]
struct TimedStream<'a, C> {
    clock: &'a C,
    stream: UnixStream,
    wait: Duration,
}

#[derive(Drop)]
struct Inside {
    // What came while a write waited, and how many of its bytes were given on.
    kept: Vec<u8>,
    given: usize,
    // What waits to go out.
    waiting: Vec<u8>,
    // The first bytes that came.
    front: Front,
    // Where what came ends, and since when a frame is waited for that is not whole.
    arriving: Arriving,
    // The moment at which a read that waits ends with nothing, where there is one.
    wake: Option<Duration>,
}

impl<'a, C: Clock> Duplex<'a, C> {
    /// Over a connection that was just made, on which a first frame has to be whole within the wait.
    pub fn new(
        clock: &'a C,
        alloc: Global,
        stream: UnixStream,
        wait: Duration,
    ) -> io::Result<Duplex<'a, C>> {
        stream.set_nonblocking(false)?;
        stream.set_write_timeout(Some(Duration::from_millis(PAUSE)))?;
        let since = clock.monotonic()?;
        Ok(Duplex {
            line: TimedStream {
                clock,
                stream,
                wait,
            },
            inside: RefCell::new(Inside {
                kept: Vec::new(alloc),
                given: 0,
                waiting: Vec::new(alloc),
                front: Front::new(),
                arriving: Arriving::since(since),
                wake: None,
            }),
        })
    }

    /// Waits for the first bytes until this moment, and keeps them. None where the other side closes without one.
    pub fn await_first(&self, until: Duration) -> io::Result<bool> {
        match self.inside.try_borrow_mut() {
            Ok(mut inside) => {
                inside.wake = Some(until);
                let first = inside.await_first(&self.line);
                inside.wake = None;
                first
            }
            Err(_) => Err(lost()),
        }
    }

    /// Why the other side turned this one away, where that is what it said first. It may have closed the connection before it was read.
    pub fn refusal(&self) -> Option<TurnedAway> {
        match self.inside.try_borrow_mut() {
            Ok(mut inside) => {
                let _ = inside.read_ahead(&self.line);
                refusal_in(inside.front.bytes())
            }
            Err(_) => None,
        }
    }

    /// Whether something has come that was not read yet, as far as that can be seen without waiting.
    pub fn has_come(&self) -> bool {
        match self.inside.try_borrow_mut() {
            Ok(mut inside) => {
                let _ = inside.read_ahead(&self.line);
                inside.kept.len() > inside.given
            }
            Err(_) => false,
        }
    }

    /// From now on the next frame is waited for without an end, as long as it has not begun, and a read that waits at this
    /// moment ends with WouldBlock.
    pub fn wake_at(&self, moment: Duration) {
        if let Ok(mut inside) = self.inside.try_borrow_mut() {
            inside.arriving.rest();
            inside.wake = Some(moment);
        }
    }

    /// Sends what waits to go out.
    pub fn finish(&self) -> io::Result<()> {
        match self.inside.try_borrow_mut() {
            Ok(mut inside) => inside.send(&self.line),
            Err(_) => Err(lost()),
        }
    }
}

impl Inside {
    fn await_first<C: Clock>(&mut self, line: &TimedStream<'_, C>) -> io::Result<bool> {
        let mut piece = [0u8; PIECE];
        let count = self.hear(line, &mut piece)?;
        self.kept.extend_from_slice(&piece[..count])?;
        Ok(count > 0)
    }

    // What was kept, or else what comes once all that waits has gone out.
    fn read<C: Clock>(&mut self, line: &TimedStream<'_, C>, buf: &mut [u8]) -> io::Result<usize>
        ensures { IfOk result (λ count. count ≤ length buf.new) }
    {
        let count = self.give(buf);
        if count > 0 {
            return Ok(count);
        }
        self.send(line)?;
        let count = self.give(buf);
        if count > 0 {
            return Ok(count);
        }
        self.hear(line, buf)
    }

    // As many bytes as are kept and as `buf` has room for, at its front.
    fn give(&mut self, buf: &mut [u8]) -> usize
        ensures { result ≤ length buf.new }
    {
        let rest = self.kept.get(self.given..).unwrap_or(b"".as_slice());
        let count = rest.len().min(buf.len());
        buf[..count].copy_from_slice(&rest[..count]);
        self.given = self.given.saturating_add(count);
        if self.given >= self.kept.len() {
            self.kept.clear();
            self.given = 0;
        }
        count
    }

    // One read. A frame that has begun is waited for since its first byte, else the next one from now on, or without an end where
    // there is a moment to wake at.
    fn hear<C: Clock>(&mut self, line: &TimedStream<'_, C>, buf: &mut [u8]) -> io::Result<usize>
        ensures { IfOk result (λ count. count ≤ length buf.new) }
    {
        if let Some(count) = self.look(line, buf)? {
            self.pass(line, &buf[..count])?;
            return Ok(count);
        }
        let over = self.over(line)?;
        'reads: for _ in 0..u64::MAX {
            let now = line.clock.monotonic()?;
            let left = left_until(over, now);
            let rest = left_until(self.wake, now);
            line.stream
                .set_read_timeout(Some(left.min(rest).max(Duration::from_millis(LEAST))))?;
            let mut reader = &line.stream;
            match reader.read(buf) {
                Ok(count) => {
                    self.pass(line, &buf[..count])?;
                    return Ok(count);
                }
                Err(error) if !is_passing(&error) => return Err(error),
                Err(_) if is_none(left) => return Err(lost()),
                Err(_) if is_none(rest) => return Err(io::Error::from(ErrorKind::WouldBlock)),
                Err(_) => {}
            }
        }
        Err(lost())
    }

    // One read without sleeping, where something comes within some looks.
    fn look<C: Clock>(
        &mut self,
        line: &TimedStream<'_, C>,
        buf: &mut [u8],
    ) -> io::Result<Option<usize>>
        ensures { IfOk result (λ heard. IfSome heard (λ count. count ≤ length buf.new)) }
    {
        line.stream.set_nonblocking(true)?;
        let heard = looked(&line.stream, buf);
        line.stream.set_nonblocking(false)?;
        heard
    }

    // The moment at which the wait for a frame is over, where it ever is.
    fn over<C: Clock>(&self, line: &TimedStream<'_, C>) -> io::Result<Option<Duration>> {
        let since = match self.arriving.begun() {
            Some(since) => since,
            None if self.wake.is_some() => return Ok(None),
            None => line.clock.monotonic()?,
        };
        Ok(Some(since.saturating_add(line.wait)))
    }

    // Goes on over bytes that came.
    fn pass<C: Clock>(&mut self, line: &TimedStream<'_, C>, bytes: &[u8]) -> io::Result<()> {
        let now = line.clock.monotonic()?;
        self.front.pass(bytes);
        self.arriving.pass(bytes, now);
        Ok(())
    }

    // Puts bytes behind those that wait to go out, which do once they are many.
    fn put<C: Clock>(&mut self, line: &TimedStream<'_, C>, bytes: &[u8]) -> io::Result<()> {
        self.waiting.extend_from_slice(bytes)?;
        if self.waiting.len() < MANY {
            return Ok(());
        }
        self.send(line)
    }

    // Sends what waits to go out, as a whole within the wait. Where that fails it is gone.
    fn send<C: Clock>(&mut self, line: &TimedStream<'_, C>) -> io::Result<()> {
        if self.waiting.is_empty() {
            return Ok(());
        }
        let sent = self.send_all(line);
        self.waiting.clear();
        sent
    }

    fn send_all<C: Clock>(&mut self, line: &TimedStream<'_, C>) -> io::Result<()> {
        let since = line.clock.monotonic()?;
        let mut sent = 0usize;
        'writes: for _ in 0..u64::MAX {
            let rest = self.waiting.get(sent..).unwrap_or(b"".as_slice());
            if rest.is_empty() {
                return Ok(());
            }
            if line.left_since(since)?.is_none() {
                break;
            }
            let mut writer = &line.stream;
            match writer.write(rest) {
                Ok(count) => sent = sent.saturating_add(count),
                Err(error) if is_passing(&error) => self.read_ahead(line)?,
                Err(error) => return Err(error),
            }
        }
        Err(lost())
    }

    // Keeps what has come, as far as it can be had without waiting.
    fn read_ahead<C: Clock>(&mut self, line: &TimedStream<'_, C>) -> io::Result<()> {
        if self.given > 0 {
            let rest = self.kept.len().saturating_sub(self.given);
            self.kept.rotate_left(self.given.min(self.kept.len()));
            self.kept.truncate(rest);
            self.given = 0;
        }
        line.stream.set_nonblocking(true)?;
        let kept = self.keep(line);
        line.stream.set_nonblocking(false)?;
        kept
    }

    fn keep<C: Clock>(&mut self, line: &TimedStream<'_, C>) -> io::Result<()> {
        let mut piece = [0u8; PIECE];
        'pieces: for _ in 0..PIECES {
            if self.kept.len() >= MOST_KEPT {
                break;
            }
            let mut reader = &line.stream;
            match reader.read(&mut piece) {
                Ok(0) => break,
                Ok(count) => {
                    self.pass(line, &piece[..count])?;
                    self.kept.extend_from_slice(&piece[..count])?;
                }
                Err(error) if is_passing(&error) => break,
                Err(error) => return Err(error),
            }
        }
        Ok(())
    }
}

impl<'a, C: Clock> TimedStream<'a, C> {
    // How much is left of a wait that began then, where any is.
    fn left_since(&self, since: Duration) -> io::Result<Option<Duration>> {
        let gone = self.clock.monotonic()?.saturating_sub(since);
        let left = self.wait.saturating_sub(gone);
        if is_none(left) {
            return Ok(None);
        }
        Ok(Some(left))
    }
}

// One read of a stream that has nobody wait. Between two looks the processor is another thread's that wants it.
fn looked(stream: &UnixStream, buf: &mut [u8]) -> io::Result<Option<usize>>
    ensures { IfOk result (λ heard. IfSome heard (λ count. count ≤ length buf.new)) }
{
    let mut reader = stream;
    'looks: for _ in 0..LOOKS {
        match reader.read(buf) {
            Ok(count) => return Ok(Some(count)),
            Err(error) if !is_passing(&error) => return Err(error),
            Err(_) => thread::yield_now(),
        }
    }
    Ok(None)
}

// How much is left until a moment, or an hour where there is none.
fn left_until(moment: Option<Duration>, now: Duration) -> Duration {
    match moment {
        Some(moment) => moment.saturating_sub(now),
        None => Duration::from_secs(LONG),
    }
}

// Whether so little is left that it is nothing.
fn is_none(left: Duration) -> bool {
    left < Duration::from_millis(LEAST)
}

// Whether a read or a write is to be made again: it was interrupted, or waited as long as one call does.
fn is_passing(error: &io::Error) -> bool {
    matches!(error.kind(), ErrorKind::WouldBlock | ErrorKind::Interrupted)
}

fn lost() -> io::Error {
    io::Error::from(ErrorKind::TimedOut)
}

/// The reading end.
#[derive(Drop)]
pub struct Hearing<'a, 'b, C> {
    pub duplex: &'b Duplex<'a, C>,
}

impl<'a, 'b, C: Clock> Read for Hearing<'a, 'b, C> {
    fn read(&mut self, buf: &mut [u8]) -> io::Result<usize> {
        match self.duplex.inside.try_borrow_mut() {
            Ok(mut inside) => inside.read(&self.duplex.line, buf),
            Err(_) => Err(lost()),
        }
    }
}

/// The writing end. What is flushed goes out before the next read that waits, or at the finish.
#[derive(Drop)]
pub struct Saying<'a, 'b, C> {
    pub duplex: &'b Duplex<'a, C>,
}

impl<'a, 'b, C: Clock> Write for Saying<'a, 'b, C> {
    fn write(&mut self, buf: &[u8]) -> io::Result<usize> {
        match self.duplex.inside.try_borrow_mut() {
            Ok(mut inside) => {
                inside.put(&self.duplex.line, buf)?;
                Ok(buf.len())
            }
            Err(_) => Err(lost()),
        }
    }

    fn flush(&mut self) -> io::Result<()> {
        Ok(())
    }
}
