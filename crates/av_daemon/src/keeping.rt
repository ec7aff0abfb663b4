ghost use Rattle.std.specs.Prelude.{◌≡◌, None, IfOk, IfSome};
ghost use Rattle.av_daemon.specs.Keeping.{SaysVersion, kept_after};

use av_base::device::read_into;
use av_base::{Part, Version};
use av_status::faults::{say_of, text};
use std::alloc::Global;
use std::fs;
use std::fs::{Files, OpenFile, OpenOptions};
use std::io::Write;

// The most bytes of the file, and how often it is read at most.
const MOST: usize = 64;

const READS: u64 = 16;

/// The file that keeps the greatest version that was believed, so that a guard that is started again believes no older one.
#[derive(Drop)]
pub struct Keeping<'a> {
    path: Option<&'a str>,
    kept: Version,
}

/// The file is there, and doesn't say a version, or can't be read.
#[derive(Clone, Copy, Debug, PartialEq, Eq)]
pub struct BadKeeping;

impl<'a> Keeping<'a> {
    /// In this file, where one was named, which keeps this version.
    pub fn new(path: Option<&'a str>, kept: Version) -> Keeping<'a>
        ensures { result ≡ record { path = path.entry; kept = kept } }
    {
        Keeping { path, kept }
    }

    /// Keeps a version, where it is above the one that is kept. Where the file can't be written a line says so, and the next version
    /// is tried again, and it is given back.
    pub fn keep<R: Files, E: Write>(
        &mut self,
        rt: &R,
        alloc: Global,
        version: Version,
        err: &mut E,
    ) -> Option<Version>
        ensures kept { self.new ≡ record self.old { kept = kept_after self.old.path self.old.kept version } }
        ensures told { IfSome result (λ told. told ≡ version) }
    {
        let path = self.path?;
        if version <= self.kept {
            return None;
        }
        self.kept = version;
        if is_written(rt, alloc, path, version) {
            return None;
        }
        say_of(
            err,
            path,
            &[
                text(": cannot write that version "),
                Part::Number(version.get()),
                text(" was believed"),
            ],
        );
        Some(version)
    }
}

/// The version that the file says: none, which is 0, where no file was named or there is none yet.
pub fn kept_version<R: Files>(rt: &R, path: Option<&str>) -> Result<Version, BadKeeping>
    ensures { path.entry ≡ None → IfOk result (λ version. version ≡ 0) }
{
    match path {
        None => Ok(Version::new(0)),
        Some(path) => version_in(rt, path),
    }
}

// The version that a file says, in one line.
fn version_in<R: Files>(rt: &R, path: &str) -> Result<Version, BadKeeping> {
    if let Ok(false) = fs::exists(rt, path) {
        return Ok(Version::new(0));
    }
    let Ok(mut file) = fs::open(rt, path) else {
        return Err(BadKeeping);
    };
    let mut line = [0u8; MOST];
    let Ok(count) = read_into(&mut file, &mut line, READS) else {
        return Err(BadKeeping);
    };
    match spelled(line.get(..count).unwrap_or(b"".as_slice())) {
        Some(version) => Ok(version),
        None => Err(BadKeeping),
    }
}

// The version that a line says.
fn spelled(line: &[u8]) -> Option<Version>
    ensures { IfSome result (λ version. SaysVersion line.now version) }
{
    let number = line
        .strip_prefix(b"version ".as_slice())?
        .strip_suffix(b"\n".as_slice())?;
    Some(Version::new(av_base::decimal::decimal(number)?))
}

// Writes the file anew beside its place, and puts it there once it is whole.
fn is_written<R: Files>(rt: &R, alloc: Global, path: &str, version: Version) -> bool {
    let Ok(beside) = format!(in alloc; "{path}.new") else {
        return false;
    };
    let beside = beside.as_str();
    let mut how = OpenOptions::new();
    let _ = how.write(true).create(true).truncate(true);
    let Ok(mut file) = how.open(rt, beside) else {
        return false;
    };
    let number = version.get();
    let is_whole = write!(file, "version {number}\n").is_ok() && file.sync_all().is_ok();
    is_whole && fs::rename(rt, beside, path).is_ok()
}
