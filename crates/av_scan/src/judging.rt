// What is found in one file.

ghost use Rattle.std.specs.Prelude.{◌≡◌, ◌<◌, ℕ, List, length, IfErr, IfOk};
ghost use Rattle.av_files.specs.declared.finding.Finding.{Finding};
ghost use Rattle.av_status.specs.Status.{IsFault};
ghost use Rattle.av_scan.specs.Told.{AreFindings, AreFoundIn, judged_of, name_of, path_of};
ghost use Rattle.av_scan.specs.declared.scanning.Matches.TheVariants.{First};

use crate::matches::matches_in;
use crate::opening::{Opening, Origin};
use crate::scanning::Matches;
use crate::stretches::{Hands, ReadAnywhere, found_at_once};
use crate::told::{ScanEntry, Told};
use crate::truth::{Judged, Truth};
use av_base::ReadFault;
use av_base::device::read_into;
use av_files::{Finding, Met, Scanners};
use av_quarantine::Seen;
use av_status::Status;
use std::alloc::Global;
use std::thread::Threads;

/// By what files are judged: the memory, where they come from, the sets, which signatures are reported, how many bytes a file may have,
/// whether infected ones are moved, for which it has to be known which files they are, and the threads that read a large one, if there
/// are some.
#[derive(Clone, Copy)]
pub struct Means<'a, O> {
    pub alloc: Global,
    pub files: &'a O,
    pub scanners: &'a Scanners,
    pub matches: Matches,
    pub max_size: u64,
    pub is_moving: bool,
    pub hands: Option<Hands<'a>>,
}

/// What becomes of an entry. Of a file that was not scanned the status says why: Refused that it is too large, Device
/// that it can't be read, Memory that there is none for what is found in it.
pub fn judge<T: Truth, F: ReadAnywhere + Drop + Sync, O: Opening<F>, R: Threads + Sync>(
    rt: &R,
    means: Means<'_, O>,
    entry: ScanEntry,
    buffer: &mut [u8],
) -> Judged<T>
    requires room { 0 < length buffer.old }
    requires truth { (name : List ℕ) (fs : List Finding) → AreFindings means.matches means.max_size (O.is_of means.files.now) F.remaining means.scanners.now name fs → T.is_true name fs }
    ensures name { name_of result.told ≡ path_of entry.met }
    ensures buffer { length buffer.new ≡ length buffer.old }
{
    let ScanEntry { met, origin } = entry;
    match met {
        Met::File(name) => match found_under::<F, O, R>(rt, means, name.as_str(), origin, buffer) {
            Ok(Found { findings, seen }) => Judged::new(Told::Scanned {
                name,
                findings,
                seen,
            }),
            Err(status) => {
                let met = Met::File(name);
                missed(ScanEntry { met, origin }, status)
            }
        },
        Met::Unreadable(name) => {
            let met = Met::Unreadable(name);
            missed(ScanEntry { met, origin }, Status::Device)
        }
        Met::NotText(name) => {
            let met = Met::NotText(name);
            missed(ScanEntry { met, origin }, Status::Refused)
        }
    }
}

fn missed<T: Truth>(entry: ScanEntry, status: Status) -> Judged<T>
    ensures { name_of result.told ≡ path_of entry.met }
{
    Judged::new(Told::Missed { entry, status })
}

// What is found in a file under each set, and which file that is, as far as it is known.
#[derive(Drop)]
struct Found {
    findings: Vec<Finding>,
    seen: Option<Seen>,
}

// What is found under a name. The file is opened once, and read once.
fn found_under<F: ReadAnywhere + Drop + Sync, O: Opening<F>, R: Threads + Sync>(
    rt: &R,
    means: Means<'_, O>,
    name: &str,
    origin: Origin,
    buffer: &mut [u8],
) -> Result<Found, Status>
    requires { 0 < length buffer.old }
    ensures findings { IfOk result (λ found. AreFindings means.entry.matches means.entry.max_size (O.is_of means.entry.files.now) F.remaining means.entry.scanners.now name.now found.findings.items) }
    ensures status { IfErr result (λ status. IsFault status) }
    ensures buffer { length buffer.new ≡ length buffer.old }
{
    let Some(mut file) = means.files.opened(name, origin) else {
        return Err(Status::Device);
    };
    let seen = if means.is_moving {
        means.files.seen(&file)
    } else {
        None
    };
    match found_in::<F, O, R>(rt, means, &mut file, buffer) {
        Ok(findings) => Ok(Found { findings, seen }),
        Err(fault) => Err(status_of(fault)),
    }
}

// What is found in a file that is open.
fn found_in<F: ReadAnywhere + Sync, O: Copy, R: Threads + Sync>(
    rt: &R,
    means: Means<'_, O>,
    file: &mut F,
    buffer: &mut [u8],
) -> Result<Vec<Finding>, ReadFault>
    requires { 0 < length buffer.old }
    ensures findings { IfOk result (λ found. AreFoundIn (F.remaining file.old) means.entry.matches means.entry.max_size means.entry.scanners.now found.items) }
    ensures buffer { length buffer.new ≡ length buffer.old }
{
    match means.matches {
        Matches::First => first_in(rt, means, file, buffer),
        Matches::All => {
            let count = read_into(file, buffer, u64::MAX)?;
            if count as u64 > means.max_size {
                return Err(ReadFault::TooLong);
            }
            matches_in(means.alloc, means.scanners, &buffer[..count])
        }
    }
}

// The verdict of a file under each set. It is read by several threads if it is large and they are there.
fn first_in<F: ReadAnywhere + Sync, O: Copy, R: Threads + Sync>(
    rt: &R,
    means: Means<'_, O>,
    file: &mut F,
    buffer: &mut [u8],
) -> Result<Vec<Finding>, ReadFault>
    requires { 0 < length buffer.old }
    ensures findings { IfOk result (λ found. AreFoundIn (F.remaining file.old) First means.entry.max_size means.entry.scanners.now found.items) }
    ensures buffer { length buffer.new ≡ length buffer.old }
{
    let Means {
        alloc,
        scanners,
        max_size,
        ..
    } = means;
    if let Some(hands) = means.hands
        && let Some(found) = found_at_once(rt, alloc, hands, scanners, &*file, max_size)
    {
        return Ok(found);
    }
    scanners.scan_pieces(alloc, file, buffer, max_size)
}

// The status for a file that was not read to its end.
fn status_of(fault: ReadFault) -> Status
    ensures { IsFault result }
{
    match fault {
        ReadFault::TooLong => Status::Refused,
        ReadFault::Device => Status::Device,
        ReadFault::NoMemory => Status::Memory,
    }
}
