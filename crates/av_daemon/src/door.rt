use mio::net::{UnixListener, UnixStream};
use mio::{Interest, Poll, Token};
use std::io;
use std::time::Duration;

// For how many milliseconds is waited where a door could not be opened to all that came, for want of descriptors.
const PAUSE: u64 = 100;

/// A listening socket, whether somebody may wait there, and whether the last one who came could not be let in.
#[derive(Drop)]
pub struct Door {
    listener: UnixListener,
    may_accept: bool,
    has_failed: bool,
}

impl Door {
    /// At a socket, whose changes are told under this number.
    pub fn new(poll: &Poll, mut listener: UnixListener, number: u64) -> io::Result<Door> {
        let token = Token(number as usize);
        poll.registry()
            .register(&mut listener, token, Interest::READABLE)?;
        Ok(Door {
            listener,
            may_accept: true,
            has_failed: false,
        })
    }

    /// Somebody came.
    pub fn told(&mut self) {
        self.may_accept = true;
    }

    /// When it is tried again to let in who may wait: at once, or after a pause where that failed.
    pub fn next_try(&self, now: Duration) -> Option<Duration> {
        if !self.may_accept {
            return None;
        }
        let pause = if self.has_failed { PAUSE } else { 0 };
        Some(now.saturating_add(Duration::from_millis(pause)))
    }

    /// Who came. Where none is left no look is taken before somebody comes.
    pub fn next(&mut self) -> Option<UnixStream> {
        self.has_failed = false;
        if !self.may_accept {
            return None;
        }
        'tries: for _ in 0..u64::MAX {
            match self.listener.accept() {
                Ok((stream, _)) => return Some(stream),
                Err(error) => match error.kind() {
                    io::ErrorKind::Interrupted => {}
                    io::ErrorKind::WouldBlock => {
                        self.may_accept = false;
                        break;
                    }
                    _ => {
                        self.has_failed = true;
                        break;
                    }
                },
            }
        }
        None
    }
}
