// The threads that scan files. Where one can't be started there are fewer, and without any the files are scanned in the thread that
// wanted to start them.

ghost use Rattle.std.specs.Prelude.{◌≡◌, ◌<◌, ℕ, IfSome, List, length};
ghost use Rattle.std.specs.Arc.{arc_value};
ghost use Rattle.av_files.specs.declared.finding.Finding.{Finding};
ghost use Rattle.av_scan.specs.Told.{AreFindings};

use crate::judging::{Means, judge};
use crate::opening::Opening;
use crate::scanning::Scanning;
use crate::stretches::{Hands, ReadAnywhere, Turn};
use crate::told::ScanEntry;
use crate::truth::{Judged, Truth};
use av_files::{FILE_BUFFER, Scanners};
use crossbeam_channel::{Receiver, Sender, TryRecvError, bounded};
use std::alloc::Global;
use std::sync::{Arc, Wait};
use std::thread;
use std::thread::{JoinHandle, Threads};

/// The bytes of a file that one read gives at most.
pub(crate) const PIECE: usize = FILE_BUFFER;

/// As many files are under way at most.
pub(crate) const ROOM: usize = 1_024;

// How often a thread looks for a file before it sleeps: some tens of microseconds in all, in which small files follow each other.
const LOOKS: usize = 100;

// So many bytes are left free where threads are started, for what is found in as many files: a thread that has no memory of its own is
// given a page of the system for each. So where memory is short there are fewer threads, and none misses a file for want of it.
const RESERVE: usize = 2 * ROOM * 4_096;

/// A file to scan, and its place in the line-up.
#[derive(Drop)]
pub(crate) struct Work {
    pub(crate) place: u64,
    pub(crate) entry: ScanEntry,
}

/// What became of it.
#[derive(Drop)]
pub(crate) struct Done<T: Truth> {
    pub(crate) place: u64,
    pub(crate) judged: Judged<T>,
}

/// Threads that scan, and the end at which files go to them.
#[derive(Drop)]
pub(crate) struct Crew {
    works: Sender<Work>,
    // Takes back what no thread has begun.
    left: Receiver<Work>,
    threads: Vec<JoinHandle<()>>,
}

impl Crew {
    /// Starts as many threads as were asked for, where that is more than one, and gives them with the end at which what became of files
    /// comes back.
    pub(crate) fn start<
        T: Truth + Send + 'static,
        F: ReadAnywhere + Drop + Send + Sync + 'static,
        O: Opening<F>,
        R: Threads + Wait + Copy + Send + Sync + 'static,
    >(
        scanning: &Scanning<'_, R, O>,
        scanners: &Arc<Scanners, Global>,
    ) -> Option<(Crew, Receiver<Done<T>>)>
        requires { (name : List ℕ) (fs : List Finding) → AreFindings scanning.now.matches scanning.now.max_size (O.is_of scanning.now.files) F.remaining (arc_value scanners.now) name fs → T.is_true name fs }
    {
        if scanning.jobs < 2 {
            return None;
        }
        let alloc = scanning.alloc;
        let (works, left) = bounded::<Work, Global>(alloc, ROOM).ok()?;
        let (done, dones) = bounded::<Done<T>, Global>(alloc, ROOM).ok()?;
        let mut threads = Vec::with_capacity(alloc, scanning.jobs).ok()?;
        let turn = Arc::new(alloc, Turn::new()).ok()?;
        let reserve: Vec<u8> = Vec::with_capacity(alloc, RESERVE).ok()?;
        'threads: for _ in 0..scanning.jobs {
            let Some(thread) = start_worker::<T, F, O, R>(scanning, scanners, &turn, &left, &done)
            else {
                break;
            };
            if threads.push(thread).is_err() {
                break;
            }
        }
        drop(reserve);
        if threads.is_empty() {
            return None;
        }
        let crew = Crew {
            works,
            left,
            threads,
        };
        Some((crew, dones))
    }

    /// Gives a file to the threads. Says whether it is with them.
    pub(crate) fn give<R: Wait>(&self, rt: &R, work: Work) -> bool {
        self.works.send(rt, work).is_ok()
    }

    /// Takes back what no thread has begun, and waits until each has done what it began.
    pub(crate) fn stop<R: Threads + Wait>(self, rt: &R) {
        let Crew {
            works,
            left,
            threads,
        } = self;
        drop(works);
        'works: for _ in left.iter(rt) {}
        'threads: for thread in threads {
            thread.join(rt);
        }
    }
}

fn start_worker<
    T: Truth + Send + 'static,
    F: ReadAnywhere + Drop + Send + Sync + 'static,
    O: Opening<F>,
    R: Threads + Wait + Copy + Send + Sync + 'static,
>(
    scanning: &Scanning<'_, R, O>,
    scanners: &Arc<Scanners, Global>,
    turn: &Arc<Turn, Global>,
    works: &Receiver<Work>,
    dones: &Sender<Done<T>>,
) -> Option<JoinHandle<()>>
    requires { (name : List ℕ) (fs : List Finding) → AreFindings scanning.now.matches scanning.now.max_size (O.is_of scanning.now.files) F.remaining (arc_value scanners.now) name fs → T.is_true name fs }
{
    let mut buffer = scanning.buffer(PIECE)?;
    let scanners = shared(scanners)?;
    let turn = turn.clone().ok()?;
    let works = works.clone().ok()?;
    let dones = dones.clone().ok()?;
    let (rt, alloc, files) = (scanning.rt, scanning.alloc, scanning.files);
    let (matches, max_size, jobs) = (scanning.matches, scanning.max_size, scanning.jobs);
    let is_moving = scanning.folder.is_some();
    thread::spawn(
        &rt,
        move ||
            requires room { 0 < length buffer.items }
            requires truth { (name : List ℕ) (fs : List Finding) → AreFindings matches max_size (O.is_of files) F.remaining (arc_value scanners) name fs → T.is_true name fs }
        {
            let means = Means {
                alloc,
                files: &files,
                scanners: &*scanners,
                matches,
                max_size,
                is_moving,
                hands: Some(Hands { jobs, turn: &*turn }),
            };
            serve::<T, F, O, R>(&rt, means, &works, &dones, &mut buffer);
        },
    )
    .ok()
}

// The sets, for one thread more.
fn shared(scanners: &Arc<Scanners, Global>) -> Option<Arc<Scanners, Global>>
    ensures { IfSome result (λ shared. arc_value shared ≡ arc_value scanners.now) }
{
    scanners.clone().ok()
}

// Scans what comes, until nothing more comes or nobody takes what is done.
fn serve<T: Truth, F: ReadAnywhere + Drop + Sync, O: Opening<F>, R: Threads + Wait + Sync>(
    rt: &R,
    means: Means<'_, O>,
    works: &Receiver<Work>,
    dones: &Sender<Done<T>>,
    buffer: &mut [u8],
)
    requires room { 0 < length buffer.old }
    requires truth { (name : List ℕ) (fs : List Finding) → AreFindings means.matches means.max_size (O.is_of means.files.now) F.remaining means.scanners.now name fs → T.is_true name fs }
{
    'works: for _ in rt.forever() {
        let Some(work) = next_work(rt, works) else {
            return;
        };
        let done = Done {
            place: work.place,
            judged: judge::<T, F, O, R>(rt, means, work.entry, buffer),
        };
        if dones.send(rt, done).is_err() {
            return;
        }
    }
}

// The next file, none where no more comes. It is looked for a while before this thread sleeps, since waking it costs who gives it a call
// of the system.
fn next_work<R: Wait>(rt: &R, works: &Receiver<Work>) -> Option<Work> {
    'looks: for _ in 0..LOOKS {
        match works.try_recv(rt) {
            Ok(work) => return Some(work),
            Err(TryRecvError::Empty) => thread::yield_now(),
            Err(TryRecvError::Disconnected) => return None,
        }
    }
    works.recv(rt).ok()
}
