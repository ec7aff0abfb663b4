// Files in the order in which they came, some of them under way: names go in at the back, and what became of them comes out at the front.

ghost use Rattle.std.specs.Prelude.{◌≡◌, ◌<◌, ◌++◌, ◌∷◌, [], ℕ, List, IfOk, length, MatchOption, MatchResult};
ghost use Rattle.av_files.specs.declared.finding.Finding.{Finding};
ghost use Rattle.av_scan.specs.Told.{AreFindings, name_of, path_of};

use crate::arrivals::Arrivals;
use crate::crew::{Crew, Done, ROOM, Work};
use crate::judging::{Means, judge};
use crate::opening::Opening;
use crate::stretches::ReadAnywhere;
use crate::told::{ScanEntry, name_of, path_of};
use crate::truth::{Judged, Truth};
use av_files::Met;
use crossbeam_channel::Receiver;
use std::alloc::{AllocError, Global};
use std::collections::VecDeque;
use std::marker::Model;
use std::sync::Wait;
use std::thread::Threads;

// A file whose turn has not come, and whether a thread scans it.
#[derive(Drop)]
struct Place {
    entry: ScanEntry,
    is_sent: bool,
}

/// Files in their order. Contracts see their names.
#[derive(Drop)]
pub(crate) struct LineUp<T: Truth> {
    alloc: Global,
    places: VecDeque<Place>,
    arrivals: Arrivals<T>,
    room: usize,
    crew: Option<Crew>,
    // For files that are scanned in this thread.
    buffer: Vec<u8>,
}

impl<T: Truth> Model for LineUp<T> {
    ghost use Rattle.std.specs.Prelude.{◌<◌, ℕ, List, length, map};
    ghost use Rattle.av_scan.specs.Told.{path_of};

    ghost Value = { List (List ℕ) };

    ghost view = { λ l. map (λ p. path_of p.entry.met) l.places.items };

    ghost invariant = { λ l. 0 < length l.buffer.items };
}

impl<T: Truth> LineUp<T> {
    /// No file yet, and the threads that scan them, if there are any. The buffer is for files that none of them scans.
    pub(crate) fn new(
        alloc: Global,
        crew: Option<(Crew, Receiver<Done<T>>)>,
        buffer: Vec<u8>,
    ) -> Result<LineUp<T>, AllocError>
        requires { 0 < length buffer.items }
        ensures { IfOk result (λ line. line ≡ []) }
    {
        let (crew, dones, room) = match crew {
            Some((crew, dones)) => (Some(crew), Some(dones), ROOM),
            None => (None, None, 1),
        };
        Ok(LineUp {
            alloc,
            places: VecDeque::with_capacity(alloc, room)?,
            arrivals: Arrivals::new(alloc, room, dones)?,
            room,
            crew,
            buffer,
        })
    }

    /// Whether one file more may come.
    pub(crate) fn has_room(&self) -> bool {
        self.places.len() < self.room
    }

    /// A file comes. Where it has no memory it has no place.
    pub(crate) fn give<R: Wait>(&mut self, rt: &R, entry: ScanEntry) -> Result<(), AllocError>
        ensures { MatchResult result (λ _. self.new ≡ self.old ++ path_of entry.met ∷ []) (λ _. self.new ≡ self.old) }
    {
        let place = self.arrivals.add()?;
        let is_sent = send(rt, self.alloc, &self.crew, place, &entry);
        match self.places.push_back(Place { entry, is_sent }) {
            Ok(()) => Ok(()),
            Err(_) => {
                self.arrivals.take_back();
                Err(AllocError)
            }
        }
    }

    /// Whether what became of the first file is known, or is for this thread to find out.
    pub(crate) fn is_ready<R: Wait>(&mut self, rt: &R) -> bool
        ensures { self.new ≡ self.old }
    {
        match self.places.front() {
            Some(place) => !place.is_sent || self.arrivals.is_first_there(rt),
            None => false,
        }
    }

    /// What became of the first file, which leaves. Nothing where there is none.
    pub(crate) fn take<F: ReadAnywhere + Drop + Sync, O: Opening<F>, R: Threads + Wait + Sync>(
        &mut self,
        rt: &R,
        means: Means<'_, O>,
    ) -> Option<Judged<T>>
        requires { (name : List ℕ) (fs : List Finding) → AreFindings means.matches means.max_size (O.is_of means.files.now) F.remaining means.scanners.now name fs → T.is_true name fs }
        ensures { MatchOption result ((self.old ≡ []) × (self.new ≡ [])) (λ judged. self.old ≡ name_of judged.told ∷ self.new) }
    {
        let place = self.places.pop_front()?;
        if place.is_sent {
            self.arrivals.wait(rt);
        }
        let arrived = self.arrivals.take();
        Some(fitting::<T, F, O, R>(rt, means, place.entry, arrived, &mut self.buffer))
    }

    /// Ends the threads that scan.
    pub(crate) fn end<R: Threads + Wait>(self, rt: &R) {
        let LineUp { crew, .. } = self;
        if let Some(crew) = crew {
            crew.stop(rt);
        }
    }
}

// Gives a file to the threads that scan. Says whether it is with them.
fn send<R: Wait>(
    rt: &R,
    alloc: Global,
    crew: &Option<Crew>,
    place: u64,
    entry: &ScanEntry,
) -> bool {
    let Some(crew) = crew else {
        return false;
    };
    let Met::File(path) = &entry.met else {
        return false;
    };
    let Ok(name) = String::from_str(alloc, path.as_str()) else {
        return false;
    };
    let entry = ScanEntry {
        met: Met::File(name),
        origin: entry.origin,
    };
    crew.give(rt, Work { place, entry })
}

// What became of an entry: what has come under its name, else what this thread finds.
fn fitting<T: Truth, F: ReadAnywhere + Drop + Sync, O: Opening<F>, R: Threads + Sync>(
    rt: &R,
    means: Means<'_, O>,
    entry: ScanEntry,
    arrived: Option<Judged<T>>,
    buffer: &mut [u8],
) -> Judged<T>
    requires room { 0 < length buffer.old }
    requires truth { (name : List ℕ) (fs : List Finding) → AreFindings means.matches means.max_size (O.is_of means.files.now) F.remaining means.scanners.now name fs → T.is_true name fs }
    ensures name { name_of result.told ≡ path_of entry.met }
    ensures buffer { length buffer.new ≡ length buffer.old }
{
    let Some(judged) = arrived else {
        return judge::<T, F, O, R>(rt, means, entry, buffer);
    };
    if name_of(&judged.told) == path_of(&entry.met) {
        judged
    } else {
        judge::<T, F, O, R>(rt, means, entry, buffer)
    }
}
