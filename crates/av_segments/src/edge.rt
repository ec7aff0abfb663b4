// The bytes at an end of a stretch, and those at a cut.
ghost use Rattle.std.specs.Prelude.{◌≡◌, ◌+◌, ◌++◌, ◌≤◌, [], length, take};
ghost use Rattle.arrayvec.specs.ArrayVec.{array_vec_len};
ghost use Rattle.av_segments.specs.Joining.{edge, last};

use arrayvec::ArrayVec;
use av_sigset::signature::MAX_PATTERN;
use std::marker::Model;

// How many bytes a match that lies across a cut can have on one side of it: one fewer than the longest pattern has.
pub(crate) const EDGE: usize = MAX_PATTERN - 1;

// As many bytes on both sides of a cut.
pub(crate) const SEAM: usize = 2 * EDGE;

// The first or the last bytes of a stretch, at most `EDGE` of them. Contracts see the bytes.
#[derive(Drop)]
pub(crate) struct Edge {
    bytes: ArrayVec<u8, EDGE>,
}

impl Model for Edge {
    ghost use Rattle.std.specs.Prelude.{ℕ, List};

    ghost Value = { List ℕ };

    ghost view = { λ e. e.bytes.items };
}

impl Edge {
    // No bytes.
    pub(crate) fn empty() -> Edge
        ensures { result ≡ [] }
    {
        Edge {
            bytes: ArrayVec::new(),
        }
    }

    // The bytes.
    pub(crate) fn as_slice(&self) -> &[u8]
        ensures bytes { result.now ≡ self.now }
        ensures few { length result.now ≤ edge }
    {
        self.bytes.as_slice()
    }

    // Keeps the first bytes of these and those that follow.
    pub(crate) fn keep_first(&mut self, next: &[u8])
        ensures { self.new ≡ take edge (self.old ++ next.now) }
    {
        let room = EDGE - self.bytes.as_slice().len();
        put(&mut self.bytes, first(next, room));
    }

    // Keeps the last bytes of these and those that follow.
    pub(crate) fn keep_last(&mut self, next: &[u8])
        ensures { self.new ≡ last edge (self.old ++ next.now) }
    {
        let fresh = last(next, EDGE);
        let mut bytes = ArrayVec::new();
        put(&mut bytes, last(self.bytes.as_slice(), EDGE - fresh.len()));
        put(&mut bytes, fresh);
        self.bytes = bytes;
    }
}

// The first bytes, at most so many.
pub(crate) fn first(bytes: &[u8], most: usize) -> &[u8]
    ensures bytes { result.now ≡ take most bytes.now }
    ensures few { length result.now ≤ most }
{
    if bytes.len() <= most {
        bytes
    } else {
        &bytes[..most]
    }
}

// The last bytes, at most so many.
pub(crate) fn last(bytes: &[u8], most: usize) -> &[u8]
    ensures bytes { result.now ≡ last most bytes.now }
    ensures few { length result.now ≤ most }
{
    &bytes[bytes.len().saturating_sub(most)..]
}

// Puts more bytes behind those that are there.
pub(crate) fn put<const N: usize>(bytes: &mut ArrayVec<u8, N>, more: &[u8])
    requires { array_vec_len bytes.old + length more.now ≤ N }
    ensures items { bytes.new.items ≡ bytes.old.items ++ more.now }
    ensures len { array_vec_len bytes.new ≡ array_vec_len bytes.old + length more.now }
{
    bytes.try_extend_from_slice(more).unwrap();
}
