//! A content that a client sends in parts, as a reader.

ghost use Rattle.std.specs.Prelude.{◌≤◌, length};

use crate::line::{ClientConnection, Lost};
use av_clamd::{Door, Heard, Sending};
use std::io;
use std::io::{ErrorKind, Read};
use std::time::{Clock, Duration};

/// A content that has begun. Each read fills its buffer or comes to the content's end, within the line's wait.
#[derive(Drop)]
pub(crate) struct Streamed<'a, 'b, C> {
    line: &'b mut ClientConnection<'a, C>,
    door: &'b mut Door,
    // What came of it before it was known to come in parts, and how many of these bytes were given.
    first: Vec<u8>,
    given: usize,
    is_over: bool,
}

impl<'a, 'b, C: Clock> Streamed<'a, 'b, C> {
    /// A content of which this came first.
    pub(crate) fn new(
        line: &'b mut ClientConnection<'a, C>,
        door: &'b mut Door,
        first: Vec<u8>,
    ) -> Streamed<'a, 'b, C> {
        Streamed {
            line,
            door,
            first,
            given: 0,
            is_over: false,
        }
    }

    /// Whether its end came.
    pub(crate) fn is_over(&self) -> bool {
        self.is_over
    }
}

// What came of one look at what a client sends.
#[derive(Clone, Copy)]
struct Came {
    count: usize,
    is_over: bool,
}

// Takes some bytes of a content from a line. They are none where it was a length that came, or the end.
fn take_some<C: Clock>(
    line: &mut ClientConnection<'_, C>,
    door: &mut Door,
    buf: &mut [u8],
    until: Duration,
) -> Result<Came, Lost> {
    line.hear(until)?;
    let rest = line.rest();
    let most = rest.len().min(buf.len());
    let (taken, heard) = door.hear(&rest[..most], Sending::InParts)?;
    let came = came_of(heard, buf)?;
    line.take(taken);
    Ok(came)
}

fn came_of(heard: Option<Heard<'_>>, buf: &mut [u8]) -> Result<Came, Lost> {
    match heard {
        None => Ok(Came {
            count: 0,
            is_over: false,
        }),
        Some(Heard::More(bytes)) => Ok(Came {
            count: put(bytes, buf),
            is_over: false,
        }),
        Some(Heard::End) => Ok(Came {
            count: 0,
            is_over: true,
        }),
        Some(_other) => Err(Lost::Gone),
    }
}

// The bytes from a place on, none behind their end.
fn from(bytes: &[u8], at: usize) -> &[u8] {
    bytes.get(at..).unwrap_or(b"".as_slice())
}

// Puts as many bytes into a buffer as it has room for, and says how many.
fn put(bytes: &[u8], buf: &mut [u8]) -> usize
    ensures { result ≤ length buf.new }
{
    let count = bytes.len().min(buf.len());
    buf[..count].copy_from_slice(&bytes[..count]);
    count
}

impl<'a, 'b, C: Clock> Read for Streamed<'a, 'b, C> {
    fn read(&mut self, buf: &mut [u8]) -> io::Result<usize> {
        let mut filled = put(from(&self.first, self.given), buf);
        self.given = self.given.saturating_add(filled);
        let Ok(until) = self.line.until() else {
            return Err(gone());
        };
        'pieces: for _ in 0..u64::MAX {
            if self.is_over || filled >= buf.len() {
                return Ok(filled);
            }
            match take_some(self.line, self.door, &mut buf[filled..], until) {
                Ok(came) => {
                    filled = filled.saturating_add(came.count).min(buf.len());
                    self.is_over = came.is_over;
                }
                Err(_) => break,
            }
        }
        Err(gone())
    }
}

fn gone() -> io::Error {
    io::Error::from(ErrorKind::ConnectionAborted)
}
