//! What becomes of a file.
ghost use Rattle.std.specs.Prelude.{◌≡◌};
ghost use Rattle.av_scan.specs.Told.{name_of, path_of, status_of, unscanned_of, unread_of, words_of};

use crate::opening::Origin;
use av_files::{Finding, Met};
use av_quarantine::Seen;
use av_status::Status;

/// What a scan comes to: a file, or an entry of a folder that is passed over.
#[derive(Drop)]
pub struct ScanEntry {
    pub met: Met,
    pub origin: Origin,
}

/// What became of it.
#[derive(Drop)]
pub enum Told {
    /// A file with what is found in its content under each set, and which file that was, as far as that is known and wanted.
    Scanned {
        name: String,
        findings: Vec<Finding>,
        seen: Option<Seen>,
    },
    /// A file or an entry that has none, and the status of the fault for which it has none.
    Missed {
        entry: ScanEntry,
        status: Status,
    },
}

/// Why a file or an entry was not scanned.
#[derive(Clone, Copy, Debug, PartialEq, Eq)]
pub enum Unscanned {
    /// It has more bytes than it may.
    TooLarge,
    /// It can't be opened or read.
    Unreadable,
    /// Its name is not UTF-8.
    NotText,
    /// There is no memory for what is found in it.
    NoMemory,
}

impl Unscanned {
    /// The status of the fault.
    pub fn status(self) -> Status
        ensures { result ≡ status_of self }
    {
        match self {
            Unscanned::TooLarge | Unscanned::NotText => Status::Refused,
            Unscanned::Unreadable => Status::Device,
            Unscanned::NoMemory => Status::Memory,
        }
    }

    /// The words of its line, without the name.
    pub fn words(self) -> &'static str
        ensures { result.now ≡ words_of self }
    {
        match self {
            Unscanned::TooLarge => "TooLarge",
            Unscanned::Unreadable => "cannot read",
            Unscanned::NotText => "the name is not UTF-8",
            Unscanned::NoMemory => "no memory",
        }
    }
}

/// Why what was met was not scanned, by the status of the fault.
pub fn unscanned_of(met: &Met, status: Status) -> Unscanned
    ensures { result ≡ unscanned_of met.now status }
{
    match met {
        Met::File(_) => unread_of(status),
        Met::Unreadable(_) => Unscanned::Unreadable,
        Met::NotText(_) => Unscanned::NotText,
    }
}

// Why a file was not scanned that could be looked at.
fn unread_of(status: Status) -> Unscanned
    ensures { result ≡ unread_of status }
{
    match status {
        Status::Refused => Unscanned::TooLarge,
        Status::Memory => Unscanned::NoMemory,
        _ => Unscanned::Unreadable,
    }
}

/// The path of what was met.
pub fn path_of(met: &Met) -> &[u8]
    ensures { result.now ≡ path_of met.now }
{
    match met {
        Met::File(path) | Met::Unreadable(path) => path.as_bytes(),
        Met::NotText(path) => path.as_slice(),
    }
}

/// The name of what something became of.
pub fn name_of(told: &Told) -> &[u8]
    ensures { result.now ≡ name_of told.now }
{
    match told {
        Told::Scanned { name, .. } => name.as_bytes(),
        Told::Missed { entry, .. } => path_of(&entry.met),
    }
}
