ghost use Rattle.std.specs.Prelude.{◌≡◌, ◌≤◌, [], false, length, max, true, vec_len, None};
ghost use Rattle.av_peers.specs.Line.{IsEndOf, IsWithin, has_more, may_send, noted, since_of, taken_of, unsent};

use mio::event::Event;
use mio::net::UnixStream;
use mio::{Interest, Registry, Token};
use std::alloc::Global;
use std::io;
use std::io::{ErrorKind, Read, Write};
use std::time::Duration;

// Once so many bytes in front have gone out, those behind are moved to their place.
const MANY: usize = 65_536;

// So much room stays where nothing waits.
const KEPT: usize = 1_024;

/// How many bytes the other side is to take in the time for which it is waited, unless less waits for it.
pub const LEAST: usize = 4_096;

/// One end of a connection, of which no call waits: what is to go out is kept until the other side takes it.
#[derive(Drop)]
pub struct Connection {
    alloc: Global,
    stream: UnixStream,
    /// The bytes that wait to go out, to put more behind them.
    pub waiting: Vec<u8>,
    // How many of the waiting bytes have gone out.
    sent: usize,
    // Since when the other side has taken less of what waits than it is to take, and how many bytes it took since.
    since: Option<Duration>,
    taken: usize,
    least: usize,
    may_read: bool,
    // The other side takes no more.
    is_closed: bool,
}

/// What a read came to.
#[derive(Clone, Copy, Debug, PartialEq, Eq)]
pub enum Came {
    /// So many bytes, and there may be more.
    Bytes(usize),
    /// Nothing for now.
    Nothing,
    /// The other side sends no more, or the connection failed.
    End,
}

impl Connection {
    /// Over a connection that does not block, whose other side is to take so many bytes in the time for which it is waited.
    pub fn new(alloc: Global, stream: UnixStream, least: usize) -> Connection
        ensures empty { unsent result ≡ [] }
        ensures taken { (result.since ≡ None) × (result.taken ≡ 0) × (result.least ≡ least) }
        ensures open { (result.may_read ≡ true) × (result.is_closed ≡ false) }
    {
        Connection {
            alloc,
            stream,
            waiting: Vec::new(alloc),
            sent: 0,
            since: None,
            taken: 0,
            least,
            may_read: true,
            is_closed: false,
        }
    }

    /// Has changes told under this number.
    pub fn register(&mut self, registry: &Registry, number: u64) -> io::Result<()>
        ensures { self.new ≡ record self.old { stream = self.new.stream } }
    {
        let both = Interest::READABLE | Interest::WRITABLE;
        registry.register(&mut self.stream, Token(number as usize), both)
    }

    /// Has changes told under another number.
    pub fn register_again(&mut self, registry: &Registry, number: u64) -> io::Result<()>
        ensures { self.new ≡ record self.old { stream = self.new.stream } }
    {
        let both = Interest::READABLE | Interest::WRITABLE;
        registry.reregister(&mut self.stream, Token(number as usize), both)
    }

    /// A change was told. Whether what waits may go out now.
    pub fn note(&mut self, event: &Event) -> bool
        ensures line { self.new ≡ noted event.now self.old }
        ensures sends { result ≡ may_send event.now self.old }
    {
        if event.is_readable() || event.is_read_closed() || event.is_error() {
            self.may_read = true;
        }
        if event.is_write_closed() {
            self.is_closed = true;
        }
        event.is_writable() && self.waiting() > 0
    }

    /// Whether the other side was seen to take no more.
    pub fn is_closed(&self) -> bool
        ensures { result ≡ self.now.is_closed }
    {
        self.is_closed
    }

    /// Whether a read may come to anything.
    pub fn may_read(&self) -> bool
        ensures { result ≡ self.now.may_read }
    {
        self.may_read
    }

    /// How many bytes wait to go out.
    pub fn waiting(&self) -> usize
        ensures { result ≡ length (unsent self.now) }
    {
        self.waiting.len().saturating_sub(self.sent)
    }

    /// Since when the other side has taken less than it is to take, though something waits for it.
    pub fn since(&self) -> Option<Duration>
        ensures { result ≡ self.now.since }
    {
        self.since
    }

    /// Reads a piece.
    pub fn read(&mut self, buffer: &mut [u8]) -> Came
        ensures within { IsWithin result buffer.new }
        ensures line { self.new ≡ record self.old { may_read = has_more result self.old.may_read } }
    {
        'reads: for _ in 0..u64::MAX {
            match self.stream.read(buffer) {
                Ok(0) => break,
                Ok(count) => return Came::Bytes(count.min(buffer.len())),
                Err(error) => match error.kind() {
                    ErrorKind::Interrupted => {}
                    ErrorKind::WouldBlock => {
                        self.may_read = false;
                        return Came::Nothing;
                    }
                    _ => break,
                },
            }
        }
        self.may_read = false;
        Came::End
    }

    /// Sends as much as the other side takes, and says whether the connection still stands.
    pub fn send(&mut self, now: Duration) -> bool
        ensures rest { IsEndOf (unsent self.new) (unsent self.old) }
        ensures since { self.new.since ≡ since_of self.old now (unsent self.new) }
        ensures taken { self.new.taken ≡ taken_of self.old (unsent self.new) }
        ensures same { (self.new.may_read ≡ self.old.may_read) × (self.new.is_closed ≡ self.old.is_closed) × (self.new.least ≡ self.old.least) }
    {
        let before = self.waiting();
        let stands = self.send_all();
        let rest = self.waiting();
        let taken = self.taken.saturating_add(before.saturating_sub(rest));
        if rest == 0 {
            self.since = None;
            self.taken = 0;
        } else if taken >= self.least || self.since.is_none() {
            self.since = Some(now);
            self.taken = 0;
        } else {
            self.taken = taken;
        }
        self.tidy();
        stands
    }

    fn send_all(&mut self) -> bool
        ensures same { self.new ≡ record self.old { sent = self.new.sent } }
        ensures forth { self.old.sent ≤ self.new.sent }
        ensures within { self.new.sent ≤ max self.old.sent (vec_len self.old.waiting) }
    {
        'writes: for _ in 0..u64::MAX {
            let rest = self.waiting.get(self.sent..).unwrap_or(b"".as_slice());
            if rest.is_empty() {
                break;
            }
            match self.stream.write(rest) {
                Ok(0) => return false,
                Ok(count) => self.sent = self.sent.saturating_add(count),
                Err(error) => match error.kind() {
                    ErrorKind::Interrupted => {}
                    ErrorKind::WouldBlock => break,
                    _ => return false,
                },
            }
        }
        true
    }

    // Lets go of what has gone out.
    fn tidy(&mut self)
        ensures unsent { unsent self.new ≡ unsent self.old }
        ensures same { (self.new.since ≡ self.old.since) × (self.new.taken ≡ self.old.taken) × (self.new.least ≡ self.old.least) × (self.new.may_read ≡ self.old.may_read) × (self.new.is_closed ≡ self.old.is_closed) }
    {
        if self.sent >= self.waiting.len() {
            if self.waiting.capacity() > KEPT {
                self.waiting = Vec::new(self.alloc);
            }
            self.waiting.clear();
            self.sent = 0;
        } else if self.sent >= MANY && self.sent >= self.waiting() {
            let rest = self.waiting();
            self.waiting.rotate_left(self.sent.min(self.waiting.len()));
            self.waiting.truncate(rest);
            self.sent = 0;
        }
    }
}
