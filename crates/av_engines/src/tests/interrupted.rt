// A read that was interrupted, as where the process was stopped and continued, is made again.
use crate::incoming::Incoming;
use av_base::recorded::Recorded;
use av_frame::{Body, End};
use std::io;
use std::io::{ErrorKind, Read};
use std::test::Fail;

// A reader that gives a byte a read, and is interrupted before each.
#[derive(Drop)]
struct Stuttering<'a> {
    rest: &'a [u8],
    is_ready: bool,
}

impl<'a> Read for Stuttering<'a> {
    fn read(&mut self, buf: &mut [u8]) -> io::Result<usize> {
        self.is_ready = !self.is_ready;
        if self.is_ready {
            return Err(io::Error::from(ErrorKind::Interrupted));
        }
        let count = buf.len().min(self.rest.len()).min(1);
        buf[..count].copy_from_slice(&self.rest[..count]);
        self.rest = &self.rest[count..];
        Ok(count)
    }
}

const HELLO: &[u8] = &[
    0, 0, 0, 18, 5, 1, 0, 0, 0, 0, 0, 0, 0, 1, 0, 0, 0, 0, 0, 0, 0, 1,
];

#[test]
fn a_read_that_was_interrupted_is_made_again(rt: HostRuntime) -> Result<(), Fail> {
    let mut reader = Recorded::new(Stuttering {
        rest: HELLO,
        is_ready: false,
    });
    let mut incoming = Incoming::new(rt.alloc(), 1_000)?;
    let is_whole = match incoming.next(&mut reader) {
        Ok(message) => matches!(message.body(), Body::Hello { .. }),
        Err(_) => false,
    };
    assert!(rt; is_whole);
    let is_closed = matches!(incoming.next(&mut reader), Err(End::Closed));
    assert!(rt; is_closed);
    Ok(())
}
