// A large file that several threads read at once, each a stretch of it.

ghost use Rattle.std.specs.Prelude.{◌≡◌, ◌+◌, ◌<◌, ◌≤◌, ℕ, drop, length, slice_index_or, take, true, IfOk, IfSome};
ghost use Rattle.std.specs.Io.{ReadsAtMost};
ghost use Rattle.av_scan.specs.Stretches.{AreFromTo, GivesFrom, IsFoundFrom, place_of};
ghost use Rattle.av_scan.specs.Told.{AreFoundIn};
ghost use Rattle.av_scan.specs.declared.scanning.Matches.TheVariants.{First};
ghost use Rattle.av_segments.specs.Segments.{may_be_cut};

use av_files::{Finding, Scanners};
use av_segments::{Segment, may_be_cut};
use std::alloc::{AllocError, Global};
use std::fs::File;
use std::io::Read;
use std::os::unix::fs::FileExt;
use std::sync::atomic::{AtomicBool, Ordering};
use std::thread::Threads;
use std::{io, thread};

// A file of so many bytes, or more, is read by several threads.
const LARGE: u64 = 67_108_864;

// The bytes that one read gives at most: they stay near the processor while they are scanned.
const PIECE: usize = 262_144;

/// A file that several threads can read at once, each at a place of its own. Places are counted from where `read` goes on.
pub trait ReadAnywhere: Read {
    ghost use Rattle.std.specs.Prelude.{◌≡◌, IfSome, length};
    ghost use Rattle.av_scan.specs.Stretches.{GivesFrom};

    /// How many bytes are left to read, if they can be read so.
    fn size(&self) -> Option<u64>
        ensures { IfSome result (λ size. IfSome (Self.remaining self.now) (λ all. size ≡ length all)) };

    /// Reads at a place, and leaves where `read` goes on.
    fn read_at(&self, buffer: &mut [u8], place: u64) -> io::Result<usize>
        ensures bound { ReadsAtMost result buffer.new }
        ensures bytes { IfOk result (λ count. GivesFrom (Self.remaining self.now) place count buffer.new) };
}

impl ReadAnywhere for File {
    fn size(&self) -> Option<u64> {
        match self.metadata() {
            Ok(metadata) if metadata.is_file() => Some(metadata.len()),
            _ => None,
        }
    }

    fn read_at(&self, buffer: &mut [u8], place: u64) -> io::Result<usize> {
        FileExt::read_at(self, buffer, place)
    }
}

/// Whose turn it is to read a large file by several threads. Only one has it at a time, so that there are at most twice as many threads
/// as were asked for.
#[derive(Drop)]
pub(crate) struct Turn {
    is_taken: AtomicBool,
}

impl Turn {
    /// Nobody's.
    pub(crate) fn new() -> Turn {
        Turn {
            is_taken: AtomicBool::new(false),
        }
    }

    // Takes it, unless somebody has it.
    fn take(&self) -> bool {
        !self.is_taken.swap(true, Ordering::Acquire)
    }

    fn give_back(&self) {
        self.is_taken.store(false, Ordering::Release);
    }
}

/// By how many threads a large file may be read, for who has the turn.
#[derive(Clone, Copy)]
pub(crate) struct Hands<'a> {
    pub(crate) jobs: usize,
    pub(crate) turn: &'a Turn,
}

/// What is found in a file that several threads read at once. None if one thread has to read it: it is not large, or has more bytes than
/// are allowed, a signature is bound to places, another file is read so, or it could not be read so to its end.
pub(crate) fn found_at_once<F: ReadAnywhere + Sync, R: Threads + Sync>(
    rt: &R,
    alloc: Global,
    hands: Hands<'_>,
    scanners: &Scanners,
    file: &F,
    most: u64,
) -> Option<Vec<Finding>>
    ensures { IfSome result (λ found. AreFoundIn (F.remaining file.now) First most scanners.now found.items) }
{
    let size = file.size()?;
    if hands.jobs < 2 || size < LARGE || size > most || !may_be_cut(scanners) {
        return None;
    }
    if !hands.turn.take() {
        return None;
    }
    let cut = Cut {
        size,
        count: hands.jobs,
    };
    let whole = whole_of(rt, alloc, scanners, file, cut);
    hands.turn.give_back();
    whole?.findings(alloc).ok()
}

// A file of so many bytes that is cut into so many stretches.
#[derive(Clone, Copy)]
struct Cut {
    size: u64,
    count: usize,
}

impl Cut {
    // Where the stretch of this number begins. The last one ends with the file.
    #[tactic(auto, unfolding(crate::specs::Stretches::place_of))]
    fn place(self, number: usize) -> u64
        ensures { result ≡ place_of self.size self.count number }
    {
        if number < self.count {
            self.size / self.count as u64 * number as u64
        } else {
            self.size
        }
    }
}

// All that is found in a file of so many bytes. None if it has fewer now, or more.
fn whole_of<F: ReadAnywhere + Sync, R: Threads + Sync>(
    rt: &R,
    alloc: Global,
    scanners: &Scanners,
    file: &F,
    cut: Cut,
) -> Option<Segment>
    requires cut { may_be_cut scanners.now ≡ true }
    requires some { 0 < cut.count }
    ensures found { IfSome result (IsFoundFrom (F.remaining file.now) scanners.now 0 cut.size) }
    ensures length { IfSome result (λ whole. whole.length ≡ cut.size) }
{
    let stretches = stretches_of(rt, alloc, scanners, file, cut).ok()?;
    let whole = joined::<F>(alloc, scanners, file, cut, stretches.as_slice())?;
    if whole.len() == cut.size && has_end(file, cut.size) {
        Some(whole)
    } else {
        None
    }
}

// What is found in each stretch, by a thread of its own.
fn stretches_of<F: ReadAnywhere + Sync, R: Threads + Sync>(
    rt: &R,
    alloc: Global,
    scanners: &Scanners,
    file: &F,
    cut: Cut,
) -> Result<Vec<Option<Segment>>, AllocError>
    requires { may_be_cut scanners.now ≡ true }
    ensures count { IfOk result (λ all. length all.items ≡ cut.count) }
    ensures each { IfOk result (λ all. (i : ℕ) (d : _) → i < length all.items
        → IfSome (slice_index_or all.items i d) (IsFoundFrom (F.remaining file.now) scanners.now (place_of cut.size cut.count i) (place_of cut.size cut.count (i + 1)))) }
{
    thread::map_indices(
        rt,
        alloc,
        cut.count,
        &|number| { numbered_stretch(alloc, scanners, file, cut, number) },
    )
}

// What is found in the stretch of this number.
fn numbered_stretch<F: ReadAnywhere>(
    alloc: Global,
    scanners: &Scanners,
    file: &F,
    cut: Cut,
    number: usize,
) -> Option<Segment>
    requires cut { may_be_cut scanners.now ≡ true }
    requires number { number < cut.count }
    ensures { IfSome result (IsFoundFrom (F.remaining file.now) scanners.now (place_of cut.size cut.count number) (place_of cut.size cut.count (number + 1))) }
{
    stretch_of(
        alloc,
        scanners,
        file,
        cut.place(number),
        cut.place(number + 1),
    )
}

// What is found from one place of a file up to another. None if that can't be read whole.
fn stretch_of<F: ReadAnywhere>(
    alloc: Global,
    scanners: &Scanners,
    file: &F,
    from: u64,
    to: u64,
) -> Option<Segment>
    requires cut { may_be_cut scanners.now ≡ true }
    requires order { from ≤ to }
    ensures { IfSome result (IsFoundFrom (F.remaining file.now) scanners.now from to) }
{
    let mut buffer = vec![in alloc; 0u8; PIECE].ok()?;
    let mut segment = Segment::empty(alloc, scanners).ok()?;
    let mut place = from;
    'pieces: for _ in 0..u64::MAX {
        if place == to {
            return Some(segment);
        }
        let piece = piece_at(file, &mut buffer, place, to)?;
        if !segment.feed(scanners, piece) {
            return None;
        }
        place += piece.len() as u64;
    }
    None
}

// Some of the bytes from one place of a file up to another. None if none can be read.
fn piece_at<'a, F: ReadAnywhere>(
    file: &F,
    buffer: &'a mut [u8],
    place: u64,
    to: u64,
) -> Option<&'a [u8]>
    requires { place ≤ to }
    ensures within { IfSome result (λ piece. place + length piece.now ≤ to) }
    ensures bytes { IfSome result (λ piece. AreFromTo (F.remaining file.now) place (place + length piece.now) piece.now) }
{
    let room = buffer.len().min((to - place) as usize);
    let count = file.read_at(&mut buffer[..room], place).ok()?;
    if count == 0 {
        return None;
    }
    Some(&buffer[..count])
}

// The stretches as one, if each was read.
fn joined<F: ReadAnywhere>(
    alloc: Global,
    scanners: &Scanners,
    file: &F,
    cut: Cut,
    stretches: &[Option<Segment>],
) -> Option<Segment>
    requires cut { may_be_cut scanners.now ≡ true }
    requires some { 0 < cut.count }
    requires count { length stretches.now ≡ cut.count }
    requires each { (i : ℕ) (d : _) → i < length stretches.now
        → IfSome (slice_index_or stretches.now i d) (IsFoundFrom (F.remaining file.now) scanners.now (place_of cut.size cut.count i) (place_of cut.size cut.count (i + 1))) }
    ensures { IfSome result (IsFoundFrom (F.remaining file.now) scanners.now 0 cut.size) }
{
    // Read for the prover: whose bytes these are.
    let _ = file;
    let mut whole = Segment::empty(alloc, scanners).ok()?;
    'stretches: for i in 0..stretches.len() {
        let Some(stretch) = &stretches[i] else {
            return None;
        };
        if !whole.join(scanners, stretch) {
            return None;
        }
    }
    Some(whole)
}

// Whether a file ends at this place.
fn has_end<F: ReadAnywhere>(file: &F, place: u64) -> bool {
    let mut one = [0u8; 1];
    match file.read_at(&mut one, place) {
        Ok(count) => count == 0,
        Err(_) => false,
    }
}
