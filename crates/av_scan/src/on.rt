// A scan that goes on where a file can't be scanned: lines are written as they come.

ghost use Rattle.std.specs.Prelude.{◌≡◌, [], ℕ, List, IfErr, IfSome, OnErr, OnOk, is_some};
ghost use Rattle.std.specs.Arc.{arc_value};
ghost use Rattle.av_files.specs.declared.finding.Finding.{Finding};
ghost use Rattle.av_scan.specs.Outcome.{AreScanned, AreScannedSoFar, Ends};
ghost use Rattle.av_scan.specs.Told.{AreFindings};
ghost use Rattle.av_status.specs.Status.{IsFault};

use crate::coming::{Coming, come, is_due, over};
use crate::crew::{Crew, PIECE};
use crate::ending::end_well;
use crate::feed::Feed;
use crate::judging::Means;
use crate::line_up::LineUp;
use crate::moving::put_away;
use crate::opening::Opening;
use crate::report::{Reporting, report};
use crate::scanning::Scanning;
use crate::stretches::ReadAnywhere;
use crate::truth::Truth;
use av_files::Scanners;
use av_status::faults::{device_failed, out_of_memory};
use av_status::{Progress, Status, Tally};
use std::alloc::Global;
use std::fs::Files;
use std::io::Write;
use std::marker::Brand;
use std::sync::{Arc, Wait};
use std::thread::Threads;
use std::time::Clock;

// The bytes that one read gives at most to the thread that writes lines, which scans what no other thread can.
const STAND_IN: usize = 65_536;

/// Scans files and writes their lines as they come, in the order of the feed. What can't be scanned is reported and passed over.
pub fn scan_on<
    F: ReadAnywhere + Drop + Send + Sync + 'static,
    O: Opening<F>,
    R: Files + Threads + Wait + Copy + Send + Sync + 'static,
    C: Clock,
    W: Write,
    E: Write,
>(
    scanning: &Scanning<'_, R, O>,
    scanners: Scanners,
    feed: &mut Feed<'_, R>,
    tally: Tally,
    out: &mut W,
    err: &mut Progress<'_, C, E>,
) -> Status
    ensures { Ends (AreFindings scanning.now.matches scanning.now.max_size (O.is_of scanning.now.files) F.remaining scanners) (is_some scanning.now.folder) scanning.now.wishes scanners tally (W.contents out.old) (W.contents out.new) feed.old result }
{
    match Arc::new(scanning.alloc, scanners) {
        Ok(scanners) => {
            scan_truly::<Brand, F, O, R, C, W, E>(scanning, &scanners, feed, tally, out, err)
        }
        Err(_) => out_of_memory(err),
    }
}

// The same, where something is true of each verdict.
fn scan_truly<
    T: Truth + Send + 'static,
    F: ReadAnywhere + Drop + Send + Sync + 'static,
    O: Opening<F>,
    R: Files + Threads + Wait + Copy + Send + Sync + 'static,
    C: Clock,
    W: Write,
    E: Write,
>(
    scanning: &Scanning<'_, R, O>,
    scanners: &Arc<Scanners, Global>,
    feed: &mut Feed<'_, R>,
    mut tally: Tally,
    out: &mut W,
    err: &mut Progress<'_, C, E>,
) -> Status
    requires { (name : List ℕ) (fs : List Finding) → AreFindings scanning.now.matches scanning.now.max_size (O.is_of scanning.now.files) F.remaining (arc_value scanners.now) name fs → T.is_true name fs }
    ensures { Ends T.is_true (is_some scanning.now.folder) scanning.now.wishes (arc_value scanners.now) tally (W.contents out.old) (W.contents out.new) feed.old result }
{
    let Some(mut line) = line_up::<T, F, O, R>(scanning, scanners) else {
        return out_of_memory(err);
    };
    let by = By {
        scanning,
        scanners: &**scanners,
    };
    let done = scan_line::<T, F, O, R, C, W, E>(by, &mut line, feed, &mut tally, out, err);
    line.end(&scanning.rt);
    match done {
        Ok(()) => end_well(
            scanning.alloc,
            tally,
            scanning.wishes,
            feed.left_out(),
            out,
            err,
        ),
        Err(status) => tally.worst.or_graver(status),
    }
}

/// A line-up with its threads, where there is memory for it.
pub(crate) fn line_up<
    T: Truth + Send + 'static,
    F: ReadAnywhere + Drop + Send + Sync + 'static,
    O: Opening<F>,
    R: Threads + Wait + Copy + Send + Sync + 'static,
>(scanning: &Scanning<'_, R, O>, scanners: &Arc<Scanners, Global>) -> Option<LineUp<T>>
    requires { (name : List ℕ) (fs : List Finding) → AreFindings scanning.now.matches scanning.now.max_size (O.is_of scanning.now.files) F.remaining (arc_value scanners.now) name fs → T.is_true name fs }
    ensures { IfSome result (λ line. line ≡ []) }
{
    let piece = if scanning.jobs < 2 { PIECE } else { STAND_IN };
    let buffer = scanning.buffer(piece)?;
    let crew = Crew::start::<T, F, O, R>(scanning, scanners);
    match LineUp::new(scanning.alloc, crew, buffer) {
        Ok(line) => Some(line),
        Err(_) => None,
    }
}

/// By what files are scanned and reported.
#[derive(Clone, Copy)]
pub(crate) struct By<'a, R, O> {
    pub(crate) scanning: &'a Scanning<'a, R, O>,
    pub(crate) scanners: &'a Scanners,
}

// Scans what comes, until nothing more comes, and reports each file once it is the first.
fn scan_line<
    T: Truth,
    F: ReadAnywhere + Drop + Sync,
    O: Opening<F>,
    R: Files + Threads + Wait + Sync,
    C: Clock,
    W: Write,
    E: Write,
>(
    by: By<'_, R, O>,
    line: &mut LineUp<T>,
    feed: &mut Feed<'_, R>,
    tally: &mut Tally,
    out: &mut W,
    err: &mut Progress<'_, C, E>,
) -> Result<(), Status>
    requires truth { (name : List ℕ) (fs : List Finding) → AreFindings by.scanning.now.matches by.scanning.now.max_size (O.is_of by.scanning.now.files) F.remaining by.scanners.now name fs → T.is_true name fs }
    requires empty { line.old ≡ [] }
    ensures scanned { OnOk result (AreScanned T.is_true (is_some by.entry.scanning.now.folder) by.entry.scanning.now.wishes by.entry.scanners.now tally.old tally.new (W.contents out.old) (W.contents out.new) feed.old) }
    ensures so_far { OnErr result (AreScannedSoFar T.is_true by.entry.scanning.now.wishes by.entry.scanners.now (W.contents out.old) (W.contents out.new)) }
    ensures fault { IfErr result (λ status. IsFault status) }
{
    let rt = &by.scanning.rt;
    let means = Means {
        alloc: by.scanning.alloc,
        files: &by.scanning.files,
        scanners: by.scanners,
        matches: by.scanning.matches,
        max_size: by.scanning.max_size,
        is_moving: by.scanning.folder.is_some(),
        hands: None,
    };
    let reporting = Reporting {
        alloc: by.scanning.alloc,
        files: &by.scanning.files,
        scanners: by.scanners,
        wishes: by.scanning.wishes,
        is_live: by.scanning.is_live,
    };
    let mut room = Vec::new(by.scanning.alloc);
    let mut coming = Coming::More;
    'files: for _ in 0..u64::MAX {
        coming = come(rt, line, feed, coming);
        if !is_due(rt, line, coming) {
            continue;
        }
        let Some(judged) = line.take::<F, O, R>(rt, means) else {
            return over(coming, err);
        };
        report::<F, O, W, Progress<'_, C, E>>(reporting, &judged.told, tally, &mut room, out, err)?;
        put_away(by.scanning, &judged.told, tally, err);
        err.step_on("scanned", tally.scanned);
    }
    Err(device_failed(err))
}
