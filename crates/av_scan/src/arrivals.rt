// What became of files, as it comes back from the threads that scan them.

use crate::crew::Done;
use crate::truth::{Judged, Truth};
use crossbeam_channel::Receiver;
use std::alloc::{AllocError, Global};
use std::collections::VecDeque;
use std::sync::Wait;

/// A row for each file that is under way, in their order, with what became of it once that has come.
#[derive(Drop)]
pub(crate) struct Arrivals<T: Truth> {
    rows: VecDeque<Option<Judged<T>>>,
    // The place of the first row.
    first: u64,
    dones: Option<Receiver<Done<T>>>,
}

impl<T: Truth> Arrivals<T> {
    /// No row, with room for so many.
    pub(crate) fn new(
        alloc: Global,
        room: usize,
        dones: Option<Receiver<Done<T>>>,
    ) -> Result<Arrivals<T>, AllocError> {
        Ok(Arrivals {
            rows: VecDeque::with_capacity(alloc, room)?,
            first: 0,
            dones,
        })
    }

    /// A row for one file more, and its place.
    pub(crate) fn add(&mut self) -> Result<u64, AllocError> {
        let place = self.first.wrapping_add(self.rows.len() as u64);
        match self.rows.push_back(None) {
            Ok(()) => Ok(place),
            Err(_) => Err(AllocError),
        }
    }

    /// Takes the last row away.
    pub(crate) fn take_back(&mut self) {
        let _ = self.rows.pop_back();
    }

    /// What became of the first file, where it has come, and its row is gone.
    pub(crate) fn take(&mut self) -> Option<Judged<T>> {
        let row = self.rows.pop_front()?;
        self.first = self.first.wrapping_add(1);
        row
    }

    /// Whether it is known what became of the first file, once all is taken in that has come.
    pub(crate) fn is_first_there<R: Wait>(&mut self, rt: &R) -> bool {
        'dones: for _ in 0..self.rows.len() {
            let Some(done) = self.come(rt) else {
                break;
            };
            self.put(done);
        }
        self.has_first()
    }

    /// Waits until it is known what became of the first file. It does not wait once no thread is there any more.
    pub(crate) fn wait<R: Wait>(&mut self, rt: &R) {
        'dones: for _ in rt.forever() {
            if self.has_first() {
                return;
            }
            let Some(done) = self.next(rt) else {
                return;
            };
            self.put(done);
        }
    }

    fn has_first(&self) -> bool {
        match self.rows.front() {
            Some(row) => row.is_some(),
            None => false,
        }
    }

    // What has come, if anything has.
    fn come<R: Wait>(&self, rt: &R) -> Option<Done<T>> {
        match &self.dones {
            Some(dones) => dones.try_recv(rt).ok(),
            None => None,
        }
    }

    // What comes next.
    fn next<R: Wait>(&self, rt: &R) -> Option<Done<T>> {
        match &self.dones {
            Some(dones) => dones.recv(rt).ok(),
            None => None,
        }
    }

    fn put(&mut self, done: Done<T>) {
        let Done { place, judged } = done;
        let at = place.wrapping_sub(self.first) as usize;
        if let Some(row) = self.rows.get_mut(at) {
            *row = Some(judged);
        }
    }
}
