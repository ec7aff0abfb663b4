//! When a file that others write is read again: once two looks at it in a row agree and it is not what was taken last, and only
//! where a look behind the reading agrees too. What is still being written changes from look to look.

ghost use Rattle.std.specs.Prelude.{◌≡◌, ◌↔◌, None, IsTrue, if◌then◌else◌};
ghost use Rattle.av_sockets.specs.Looks.{IsSettled, first};

use std::fs;
use std::fs::Files;
use std::os::unix::fs::MetadataExt;

/// What a look at a regular file tells: which one it is, how long, and when it was written to.
#[derive(Clone, Copy, PartialEq, Eq)]
pub struct Look {
    pub device: u64,
    pub number: u64,
    pub length: u64,
    /// In nanoseconds since 1970.
    pub written: i64,
    /// When anything of it was changed, its name or its rights too, in nanoseconds since 1970. No program can set that time, so a file that
    /// is written anew with the old length and time is seen.
    pub changed: i64,
}

/// A look at a file: none where no regular file is there.
pub fn looked_at<R: Files>(rt: &R, path: &str) -> Option<Look> {
    let data = fs::metadata(rt, path).ok()?;
    if !data.is_file() {
        return None;
    }
    Some(Look {
        device: data.dev(),
        number: data.ino(),
        length: data.len(),
        written: nanoseconds(data.mtime(), data.mtime_nsec()),
        changed: nanoseconds(data.ctime(), data.ctime_nsec()),
    })
}

fn nanoseconds(seconds: i64, more: i64) -> i64 {
    seconds.saturating_mul(1_000_000_000).saturating_add(more)
}

/// The looks at a file so far: what was seen where it was taken last, and the last look.
#[derive(Drop)]
pub struct Looks {
    pub taken: Option<Look>,
    pub last: Option<Look>,
}

impl Looks {
    /// Of a file that was taken where this was seen, or was not.
    pub fn new(taken: Option<Look>) -> Looks
        ensures { result ≡ first taken }
    {
        Looks { taken, last: None }
    }

    /// Looks, and says whether the file is to be read now.
    pub fn settles(&mut self, now: Option<Look>) -> bool
        ensures settled { IsTrue result ↔ IsSettled self.old now }
        ensures looked { self.new ≡ record self.old { last = now } }
    {
        let is_settled = now.is_some() && now == self.last && now != self.taken;
        self.last = now;
        is_settled
    }

    /// Looks behind a reading, and says whether what was read is the file that the look before it saw: then it is taken.
    pub fn takes(&mut self, now: Option<Look>) -> bool
        ensures same { IsTrue result ↔ (now ≡ self.old.last) }
        ensures taken { self.new ≡ record { taken = (if result then now else self.old.taken); last = now } }
    {
        let is_same = now == self.last;
        self.last = now;
        if is_same {
            self.taken = now;
        }
        is_same
    }
}
