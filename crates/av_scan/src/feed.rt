//! Which files come to a scan: those of a list of names, and those below its folders.
ghost use Rattle.std.specs.Prelude.{◌≡◌, IfOk};
ghost use Rattle.av_scan.specs.Feed.{IsNext, left_of};
ghost use Rattle.av_scan.specs.Told.{path_of};
ghost use Rattle.av_scan.specs.declared.feed.Folders.TheVariants.{Refused};

use crate::opening::Origin;
use crate::told::ScanEntry;
use av_files::{Bounds, Met, Walk};
use std::alloc::{AllocError, Global};
use std::fs;
use std::fs::Files;
use std::marker::Model;

/// What a folder stands for.
#[derive(Clone, Copy, Debug, PartialEq, Eq)]
pub enum Folders {
    /// For the files in it and below it.
    Entered,
    /// For itself, which can't be read.
    Refused,
}

// Names that are left, and the files of a folder among them.
#[derive(Drop)]
struct Names<'a, R> {
    files: &'a R,
    alloc: Global,
    names: &'a [&'a [u8]],
    next: usize,
    walk: Option<Walk<'a, R>>,
    bounds: Bounds<'a>,
    // By walks that are over.
    left_out: u64,
}

/// The files that come to a scan, in their order. Contracts see the names that are left, where no folder stands for files.
#[derive(Drop)]
pub struct Feed<'a, R> {
    left: Names<'a, R>,
    folders: Folders,
}

impl<'a, R> Model for Feed<'a, R> {
    ghost use Rattle.std.specs.Prelude.{ℕ, List, Option};
    ghost use Rattle.av_scan.specs.Feed.{left_of};

    ghost Value = { Option (List (List ℕ)) };

    ghost view = { λ f. left_of f.folders f.left.next f.left.names.now };
}

impl<'a, R: Files> Feed<'a, R> {
    /// The files of these names, and what folders stand for, within these bounds. A name that is no text is passed on as one.
    pub fn new(
        files: &'a R,
        alloc: Global,
        names: &'a [&'a [u8]],
        folders: Folders,
        bounds: Bounds<'a>,
    ) -> Feed<'a, R>
        ensures { result ≡ left_of folders 0 names.now }
    {
        let left = Names {
            files,
            alloc,
            names,
            next: 0,
            walk: None,
            bounds,
            left_out: 0,
        };
        Feed { left, folders }
    }

    /// How many entries were left out so far, where folders stand for files and something may be left out.
    pub fn left_out(&self) -> Option<u64> {
        let bounds = self.left.bounds;
        if self.folders == Folders::Refused || (bounds.globs.is_empty() && !bounds.is_one_device) {
            return None;
        }
        Some(self.left.left_out())
    }

    /// What comes next, nothing at the end.
    pub fn next(&mut self) -> Result<Option<ScanEntry>, AllocError>
        ensures { IsNext self.old self.new result }
    {
        match self.folders {
            Folders::Entered => self.left.next_entered(),
            Folders::Refused => self.left.next_named(),
        }
    }
}

impl<'a, R: Files> Names<'a, R> {
    // The next file where folders stand for files.
    fn next_entered(&mut self) -> Result<Option<ScanEntry>, AllocError> {
        'names: for _ in 0..u64::MAX {
            if let Some(met) = self.next_met()? {
                let origin = Origin::Met;
                return Ok(Some(ScanEntry { met, origin }));
            }
            let Some(name) = self.names.get(self.next) else {
                return Ok(None);
            };
            self.next += 1;
            if !self.enter(name)? {
                return Ok(Some(named(self.alloc, name)?));
            }
        }
        Ok(None)
    }

    // What the walk comes to, until it is over.
    fn next_met(&mut self) -> Result<Option<Met>, AllocError> {
        let Some(walk) = &mut self.walk else {
            return Ok(None);
        };
        let met = walk.next()?;
        if met.is_none() {
            self.left_out = self.left_out.saturating_add(walk.left_out());
            self.walk = None;
        }
        Ok(met)
    }

    // How many entries all walks left out.
    fn left_out(&self) -> u64 {
        match &self.walk {
            Some(walk) => self.left_out.saturating_add(walk.left_out()),
            None => self.left_out,
        }
    }

    // Begins a walk through a folder of this name, if it is that of one.
    fn enter(&mut self, name: &[u8]) -> Result<bool, AllocError> {
        let Ok(name) = str::from_utf8(name) else {
            return Ok(false);
        };
        if !is_folder(self.files, name) {
            return Ok(false);
        }
        let walk = Walk::within(self.files, self.alloc, name, self.bounds)?;
        self.walk = Some(walk);
        Ok(true)
    }

    // The next file of the names alone.
    fn next_named(&mut self) -> Result<Option<ScanEntry>, AllocError>
        ensures { IsNext (left_of Refused self.old.next self.old.names.now) (left_of Refused self.new.next self.new.names.now) result }
    {
        let Some(name) = self.names.get(self.next) else {
            return Ok(None);
        };
        let entry = named(self.alloc, name)?;
        self.next += 1;
        Ok(Some(entry))
    }
}

// A file that was named.
fn named(alloc: Global, name: &[u8]) -> Result<ScanEntry, AllocError>
    ensures { IfOk result (λ entry. path_of entry.met ≡ name.now) }
{
    let origin = Origin::Named;
    match str::from_utf8(name) {
        Ok(name) => {
            let met = Met::File(String::from_str(alloc, name)?);
            Ok(ScanEntry { met, origin })
        }
        Err(_) => {
            let met = Met::NotText(name.to_vec(alloc)?);
            Ok(ScanEntry { met, origin })
        }
    }
}

// Whether a name is that of a folder, or of a link to one.
fn is_folder<R: Files>(files: &R, name: &str) -> bool {
    match fs::metadata(files, name) {
        Ok(metadata) => metadata.is_dir(),
        Err(_) => false,
    }
}
