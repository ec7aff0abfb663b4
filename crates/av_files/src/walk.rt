ghost use Rattle.std.specs.Prelude.{◌≡◌, map, IfOk};
ghost use Rattle.av_files.specs.Walk.{AreTurned, IsKeptUnless, is_elsewhere, is_entry};
ghost use Rattle.av_glob.specs.Glob.{is_left_out};

use crate::listed::listed;
use crate::streams::TURNS;
use av_base::ReadFault;
use av_base::recorded::{Recorded, read_whole};
use av_glob::{Glob, any_leaves_out};
use std::alloc::{AllocError, Global};
use std::fs;
use std::fs::Files;
use std::os::unix::fs::MetadataExt;

/// What a walk comes to, with its path.
#[derive(Drop)]
pub enum Met {
    /// A regular file.
    File(String),
    /// A folder whose entries, or an entry whose kind, can't be read.
    Unreadable(String),
    /// An entry that can't be looked at, since its name is not UTF-8.
    NotText(Vec<u8>),
}

/// What a walk leaves out of all that is below its folder.
#[derive(Clone, Copy)]
pub struct Bounds<'a> {
    /// Each entry whose path one of these globs matches. It is not looked at.
    pub globs: &'a [Glob],
    /// Each folder on another device than the folder of the walk.
    pub is_one_device: bool,
}

impl<'a> Bounds<'a> {
    /// Nothing is left out.
    pub fn none() -> Bounds<'a> {
        Bounds {
            globs: &[],
            is_one_device: false,
        }
    }
}

// A folder whose entries wait, the last in order first.
#[derive(Drop)]
struct Folder {
    path: String,
    names: Vec<Vec<u8>>,
}

/// A walk through a folder and all that is below it. Entries come in the order of their names' bytes, a folder in its place. No
/// link is followed, and what is neither a folder nor a regular file is passed over. A path is that of its folder, a slash unless
/// that ends in one, and a name.
///
/// The names of the folders on the way down are held, and no folder is held open.
#[derive(Drop)]
pub struct Walk<'a, R> {
    files: &'a R,
    alloc: Global,
    folders: Vec<Folder>,
    // What is met before any entry.
    first: Option<Met>,
    bounds: Bounds<'a>,
    // That of the folder of the walk, where no other is entered.
    device: Option<u64>,
    left_out: u64,
}

impl<'a, R: Files> Walk<'a, R> {
    /// A walk through this folder, which may be a link to one. If it can't be read, that is all it comes to.
    pub fn new(files: &'a R, alloc: Global, folder: &str) -> Result<Walk<'a, R>, AllocError> {
        Walk::within(files, alloc, folder, Bounds::none())
    }

    /// The same, within these bounds. The folder itself is never left out.
    pub fn within(
        files: &'a R,
        alloc: Global,
        folder: &str,
        bounds: Bounds<'a>,
    ) -> Result<Walk<'a, R>, AllocError> {
        let mut walk = Walk {
            files,
            alloc,
            folders: Vec::new(alloc),
            first: None,
            bounds,
            device: None,
            left_out: 0,
        };
        let mut followed = String::from_str(alloc, folder)?;
        if !folder.ends_with('/') {
            followed.push('/')?;
        }
        let path = String::from_str(alloc, folder)?;
        if bounds.is_one_device {
            let Ok(metadata) = fs::metadata(files, followed.as_str()) else {
                walk.first = Some(Met::Unreadable(path));
                return Ok(walk);
            };
            walk.device = Some(metadata.dev());
        }
        let names = names_of(files, alloc, followed.as_str())?;
        walk.first = walk.enter(path, names)?;
        Ok(walk)
    }

    /// How many entries were left out so far: each folder counts once, whatever is below it.
    pub fn left_out(&self) -> u64 {
        self.left_out
    }

    /// What comes next, nothing at the end.
    pub fn next(&mut self) -> Result<Option<Met>, AllocError> {
        if let Some(first) = self.first.take() {
            return Ok(Some(first));
        }
        for _ in 0..u64::MAX {
            if self.folders.is_empty() {
                return Ok(None);
            }
            let Some(path) = self.next_path()? else {
                continue;
            };
            let Some(path) = kept(self.alloc, self.bounds.globs, path)? else {
                self.leave_out();
                continue;
            };
            if let Some(met) = self.look(path)? {
                return Ok(Some(met));
            }
        }
        Ok(None)
    }

    // The path of the next entry of the innermost folder. Where it has none left the folder is left.
    fn next_path(&mut self) -> Result<Option<Vec<u8>>, AllocError> {
        let Some(folder) = self.folders.last_mut() else {
            return Ok(None);
        };
        let Some(name) = folder.names.pop() else {
            let _ = self.folders.pop();
            return Ok(None);
        };
        let mut path = Vec::with_capacity(self.alloc, folder.path.len())?;
        path.extend_from_slice(folder.path.as_bytes())?;
        if !folder.path.ends_with('/') {
            path.push(b'/')?;
        }
        path.extend_from_slice(name.as_slice())?;
        Ok(Some(path))
    }

    // What an entry is. A folder is entered; one that was put in the place of a folder meanwhile, and is none, is not.
    fn look(&mut self, path: Vec<u8>) -> Result<Option<Met>, AllocError> {
        let path = match String::from_utf8(path) {
            Ok(path) => path,
            Err(fault) => return Ok(Some(Met::NotText(fault.into_bytes()))),
        };
        let Ok(metadata) = fs::symlink_metadata(self.files, path.as_str()) else {
            return Ok(Some(Met::Unreadable(path)));
        };
        if metadata.is_dir() {
            if is_elsewhere(self.device, metadata.dev()) {
                self.leave_out();
                return Ok(None);
            }
            let names = names_of(self.files, self.alloc, path.as_str())?;
            return self.enter(path, names);
        }
        if metadata.is_file() {
            return Ok(Some(Met::File(path)));
        }
        Ok(None)
    }

    fn leave_out(&mut self) {
        self.left_out = self.left_out.saturating_add(1);
    }

    // Goes on with the entries of a folder, where they could be read.
    fn enter(
        &mut self,
        path: String,
        names: Option<Vec<Vec<u8>>>,
    ) -> Result<Option<Met>, AllocError> {
        let Some(names) = names else {
            return Ok(Some(Met::Unreadable(path)));
        };
        self.folders.push(Folder { path, names })?;
        Ok(None)
    }
}

// The path of an entry, unless a glob matches it.
fn kept(alloc: Global, globs: &[Glob], path: Vec<u8>) -> Result<Option<Vec<u8>>, AllocError>
    ensures { IfOk result (IsKeptUnless (is_left_out globs.now path.items) path) }
{
    if any_leaves_out(alloc, globs, path.as_slice())? {
        Ok(None)
    } else {
        Ok(Some(path))
    }
}

// Whether a folder is on another device than this one, where that counts.
fn is_elsewhere(wanted: Option<u64>, device: u64) -> bool
    ensures { result ≡ is_elsewhere wanted device }
{
    match wanted {
        Some(wanted) => wanted != device,
        None => false,
    }
}

// The names of a folder's entries, the last in order first, where they can be read. Without a slash at its end the path of a
// link is refused.
fn names_of<R: Files>(
    files: &R,
    alloc: Global,
    path: &str,
) -> Result<Option<Vec<Vec<u8>>>, AllocError> {
    let Ok(folder) = files.open_dir(path) else {
        return Ok(None);
    };
    match read_whole(alloc, &mut Recorded::new(folder), usize::MAX, TURNS) {
        Ok(text) => Ok(Some(turned(alloc, text.as_slice())?)),
        Err(ReadFault::NoMemory) => Err(AllocError),
        Err(_) => Ok(None),
    }
}

// The names of a folder as the system lists them, without those of itself and of the folder above, the last in order first.
fn turned(alloc: Global, text: &[u8]) -> Result<Vec<Vec<u8>>, AllocError>
    ensures { IfOk result (λ names. AreTurned text.now (map (λ n. n.items) names.items)) }
{
    let mut sorted = listed(alloc, text, 0)?;
    sorted.sort_unstable();
    let mut names = Vec::with_capacity(alloc, sorted.len())?;
    'names: while let Some(name) = sorted.pop() {
        if is_entry(name) {
            names.push(name.to_vec(alloc)?)?;
        }
    }
    Ok(names)
}

fn is_entry(name: &[u8]) -> bool
    ensures { result ≡ is_entry name.now }
{
    name != b".".as_slice() && name != b"..".as_slice()
}
