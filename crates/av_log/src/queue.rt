//! The lines that wait to be written.

ghost use Rattle.std.specs.Prelude.{◌≡◌, ◌≤◌, ◌+◌, ◌-◌, ◌==◌, ◌++◌, [], false, length, drop, min, take, IfOk, if◌then◌else◌};
ghost use Rattle.av_log.specs.Queue.{begun_after, behind_line, dropped_all, dropping, ends_in, gone_of, has_room, is_told, put_of, told_of, whole_of};

use std::alloc::{AllocError, Global};
use std::marker::Model;

/// Lines that wait until they are written, of a bounded count of bytes. A line for which there is no room is dropped, and counted.
#[derive(Drop)]
pub struct Queue {
    // Room for `most` bytes was taken at first.
    waiting: Vec<u8>,
    most: usize,
    dropped: u64,
    is_begun: bool,
}

impl Model for Queue {
    ghost use Rattle.std.specs.Prelude.{◌≤◌, vec_len, vec_capacity};
    ghost use Rattle.av_log.specs.Queue.{Lines};

    ghost Value = { Lines };

    ghost view = { λ q. record { waiting = q.waiting.items; most = q.most; dropped = q.dropped; is_begun = q.is_begun } };

    ghost invariant = { λ q. (vec_len q.waiting ≤ q.most) × (q.most ≤ vec_capacity q.waiting) };
}

impl Queue {
    /// None, with room for so many bytes, which is taken now: no line is dropped for want of memory.
    pub fn new(alloc: Global, most: usize) -> Result<Queue, AllocError>
        ensures { IfOk result (λ q. q ≡ record { waiting = []; most = most; dropped = 0; is_begun = false }) }
    {
        Ok(Queue {
            waiting: Vec::with_capacity(alloc, most)?,
            most,
            dropped: 0,
            is_begun: false,
        })
    }

    /// A line comes. Where there is no room for all of it, it is dropped and counted.
    pub fn put(&mut self, line: &[u8])
        ensures put { self.new ≡ put_of line.now self.old }
        ensures bounded { length self.new.waiting ≤ self.new.most }
    {
        if line.len() <= self.most - self.waiting.len() {
            self.waiting.extend_from_slice(line).unwrap();
        } else {
            self.drop_one();
        }
    }

    /// A line could not be made: it is counted as dropped.
    pub fn drop_one(&mut self)
        ensures { self.new ≡ dropping 1 self.old }
    {
        self.dropped = self.dropped.saturating_add(1);
    }

    /// Whether nothing waits.
    pub fn is_empty(&self) -> bool
        ensures { result ≡ is_told self.now }
    {
        self.waiting.is_empty()
    }

    /// The bytes that wait, of the next ones at most so many.
    pub fn piece(&self, most: usize) -> &[u8]
        ensures { result.now ≡ take most self.now.waiting }
    {
        let count = self.waiting.len().min(most);
        &self.waiting[..count]
    }

    /// So many bytes have gone out.
    pub fn gone(&mut self, count: usize)
        ensures { self.new ≡ gone_of count self.old }
    {
        let count = self.waiting.len().min(count);
        self.is_begun = begun_after(self.is_begun, &self.waiting[..count]);
        let rest = self.waiting.len() - count;
        self.keep_last(rest);
    }

    /// All that waits is dropped and counted: what took lines takes none.
    pub fn drop_all(&mut self)
        ensures { self.new ≡ dropped_all self.old }
    {
        let count = ends_in(self.waiting.as_slice());
        self.waiting.clear();
        self.is_begun = false;
        self.dropped = self.dropped.saturating_add(count);
    }

    /// The rest of a line of which a part has gone out is dropped, and the line is counted: what takes lines from now on has no part of it.
    #[tactic(auto, using(crate::proofs::QueueLemmas::behind_line_ends, crate::proofs::QueueLemmas::behind_line_is_end))]
    pub fn drop_begun(&mut self)
        ensures { self.new ≡ whole_of self.old }
    {
        if !self.is_begun {
            return;
        }
        let rest = behind_line(self.waiting.as_slice()).len();
        self.keep_last(rest);
        self.is_begun = false;
        self.drop_one();
    }

    // So many bytes stay, the last ones.
    fn keep_last(&mut self, rest: usize)
        requires { rest ≤ length self.old.waiting }
        ensures { self.new ≡ record self.old { waiting = drop (length self.old.waiting - rest) self.old.waiting } }
    {
        let count = self.waiting.len() - rest;
        self.waiting.rotate_left(count);
        self.waiting.truncate(rest);
    }

    /// How many lines were dropped and not told of.
    pub fn dropped(&self) -> u64
        ensures { result ≡ self.now.dropped }
    {
        self.dropped
    }

    /// How many lines were dropped, once nothing waits: they are told of now. Else 0.
    pub fn take_dropped(&mut self) -> u64
        ensures taken { result ≡ (if is_told self.old then self.old.dropped else 0) }
        ensures told { self.new ≡ told_of self.old }
    {
        if !self.waiting.is_empty() {
            return 0;
        }
        let dropped = self.dropped;
        self.dropped = 0;
        dropped
    }
}

fn begun_after(before: bool, bytes: &[u8]) -> bool
    ensures { result ≡ begun_after before bytes.now }
{
    let mut begun = before;
    let mut rest = bytes;
    'bytes: while let Some((byte, below)) = rest.split_first() {
        begun = *byte != b'\n';
        rest = below;
    }
    begun
}

fn ends_in(bytes: &[u8]) -> u64
    ensures { result ≡ ends_in bytes.now }
{
    let mut count = 0u64;
    let mut rest = bytes;
    'bytes: while let Some((byte, below)) = rest.split_first() {
        if *byte == b'\n' {
            count += 1;
        }
        rest = below;
    }
    count
}

// What follows the first line.
fn behind_line(bytes: &[u8]) -> &[u8]
    ensures { result.now ≡ behind_line bytes.now }
{
    let mut rest = bytes;
    'bytes: while let Some((byte, below)) = rest.split_first() {
        rest = below;
        if *byte == b'\n' {
            return rest;
        }
    }
    rest
}
