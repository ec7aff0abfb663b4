// A scan that ends at the first file which can't be scanned: each file is scanned before a line is written.

ghost use Rattle.std.specs.Prelude.{◌≡◌, ◌∷◌, [], ℕ, List, Some, IfErr, IfOk, IfSome, OnErr, OnOk, is_some, map};
ghost use Rattle.std.specs.Arc.{arc_value};
ghost use Rattle.av_files.specs.declared.finding.Finding.{Finding};
ghost use Rattle.av_scan.specs.Outcome.{AreScanned, AreScannedSoFar, Ends};
ghost use Rattle.av_scan.specs.Told.{AreFindings, name_of};
ghost use Rattle.av_status.specs.Status.{IsFault};
ghost use Rattle.av_status.specs.Tally.{no_files};

use crate::coming::{Coming, come, is_due, over};
use crate::ending::end_well;
use crate::feed::{Feed, Folders};
use crate::judging::Means;
use crate::line_up::LineUp;
use crate::moving::put_away;
use crate::on::{By, line_up};
use crate::opening::Opening;
use crate::report::{Reporting, report, say_unscanned};
use crate::scanning::Scanning;
use crate::stretches::ReadAnywhere;
use crate::told::{Told, unscanned_of};
use crate::truth::{Judged, Truth};
use av_files::{Bounds, Scanners};
use av_status::faults::{device_failed, out_of_memory};
use av_status::{Progress, Status, Tally};
use std::alloc::Global;
use std::fs::Files;
use std::io::Write;
use std::marker::Brand;
use std::sync::{Arc, Wait};
use std::thread::Threads;
use std::time::Clock;

/// Scans files of these names before a line is written, and then writes their lines. The first file that can't be scanned ends it, with no
/// line for any.
pub fn scan_all<
    F: ReadAnywhere + Drop + Send + Sync + 'static,
    O: Opening<F>,
    R: Files + Threads + Wait + Copy + Send + Sync + 'static,
    C: Clock,
    W: Write,
    E: Write,
>(
    scanning: &Scanning<'_, R, O>,
    scanners: Scanners,
    names: &[&[u8]],
    out: &mut W,
    err: &mut Progress<'_, C, E>,
) -> Status
    ensures { Ends (AreFindings scanning.now.matches scanning.now.max_size (O.is_of scanning.now.files) F.remaining scanners) (is_some scanning.now.folder) scanning.now.wishes scanners no_files (W.contents out.old) (W.contents out.new) (Some (map (λ n. n.now) names.now)) result }
{
    match Arc::new(scanning.alloc, scanners) {
        Ok(scanners) => {
            all_truly::<Brand, F, O, R, C, W, E>(scanning, &scanners, names, out, err)
        }
        Err(_) => out_of_memory(err),
    }
}

// The same, where something is true of each verdict.
fn all_truly<
    T: Truth + Send + 'static,
    F: ReadAnywhere + Drop + Send + Sync + 'static,
    O: Opening<F>,
    R: Files + Threads + Wait + Copy + Send + Sync + 'static,
    C: Clock,
    W: Write,
    E: Write,
>(
    scanning: &Scanning<'_, R, O>,
    scanners: &Arc<Scanners, Global>,
    names: &[&[u8]],
    out: &mut W,
    err: &mut Progress<'_, C, E>,
) -> Status
    requires { (name : List ℕ) (fs : List Finding) → AreFindings scanning.now.matches scanning.now.max_size (O.is_of scanning.now.files) F.remaining (arc_value scanners.now) name fs → T.is_true name fs }
    ensures { Ends T.is_true (is_some scanning.now.folder) scanning.now.wishes (arc_value scanners.now) no_files (W.contents out.old) (W.contents out.new) (Some (map (λ n. n.now) names.now)) result }
{
    let Some(mut line) = line_up::<T, F, O, R>(scanning, scanners) else {
        return out_of_memory(err);
    };
    let by = By {
        scanning,
        scanners: &**scanners,
    };
    let mut feed = Feed::new(
        &scanning.rt,
        scanning.alloc,
        names,
        Folders::Refused,
        Bounds::none(),
    );
    let judged = judge_all::<T, F, O, R, C, E>(by, &mut line, &mut feed, names.len(), err);
    line.end(&scanning.rt);
    match judged {
        Ok(all) => print_all::<T, F, O, R, C, W, E>(by, all.as_slice(), out, err),
        Err(status) => status,
    }
}

// What became of all files, so many, where each was scanned.
fn judge_all<
    T: Truth,
    F: ReadAnywhere + Drop + Sync,
    O: Opening<F>,
    R: Files + Threads + Wait + Sync,
    C: Clock,
    E: Write,
>(
    by: By<'_, R, O>,
    line: &mut LineUp<T>,
    feed: &mut Feed<'_, R>,
    count: usize,
    err: &mut Progress<'_, C, E>,
) -> Result<Vec<Judged<T>>, Status>
    requires truth { (name : List ℕ) (fs : List Finding) → AreFindings by.scanning.now.matches by.scanning.now.max_size (O.is_of by.scanning.now.files) F.remaining by.scanners.now name fs → T.is_true name fs }
    requires empty { line.old ≡ [] }
    ensures names { IfOk result (λ all. IfSome feed.old (λ names. map (λ j. name_of j.told) all.items ≡ names)) }
    ensures fault { IfErr result (λ status. IsFault status) }
{
    let rt = &by.scanning.rt;
    let means = Means {
        alloc: by.scanning.alloc,
        files: &by.scanning.files,
        scanners: by.scanners,
        matches: by.scanning.matches,
        max_size: by.scanning.max_size,
        is_moving: by.scanning.folder.is_some(),
        hands: None,
    };
    let mut all = Vec::new(by.scanning.alloc);
    let mut coming = Coming::More;
    'files: for _ in 0..u64::MAX {
        coming = come(rt, line, feed, coming);
        if !is_due(rt, line, coming) {
            continue;
        }
        let Some(judged) = line.take::<F, O, R>(rt, means) else {
            return match over(coming, err) {
                Ok(()) => Ok(all),
                Err(status) => Err(status),
            };
        };
        if let Told::Missed { entry, status } = &judged.told {
            let unscanned = unscanned_of(&entry.met, *status);
            return Err(say_unscanned::<F, O, Progress<'_, C, E>>(
                means.files,
                entry,
                unscanned,
                err,
            ));
        }
        if all.push(judged).is_err() {
            return Err(out_of_memory(err));
        }
        err.step("scanned", all.len(), count);
    }
    Err(device_failed(err))
}

// Writes the lines of files that were all scanned, and ends the run.
fn print_all<T: Truth, F, O: Opening<F>, R: Files, C: Clock, W: Write, E: Write>(
    by: By<'_, R, O>,
    all: &[Judged<T>],
    out: &mut W,
    err: &mut Progress<'_, C, E>,
) -> Status
    ensures { Ends T.is_true (is_some by.entry.scanning.now.folder) by.entry.scanning.now.wishes by.entry.scanners.now no_files (W.contents out.old) (W.contents out.new) (Some (map (λ j. name_of j.told) all.now)) result }
{
    err.wipe();
    let (alloc, wishes) = (by.scanning.alloc, by.scanning.wishes);
    let mut tally = Tally::new();
    match print_each::<T, F, O, R, C, W, E>(by, all, &mut tally, out, err) {
        Ok(()) => end_well(alloc, tally, wishes, None, out, err),
        Err(status) => status,
    }
}

fn print_each<T: Truth, F, O: Opening<F>, R: Files, C: Clock, W: Write, E: Write>(
    by: By<'_, R, O>,
    all: &[Judged<T>],
    tally: &mut Tally,
    out: &mut W,
    err: &mut Progress<'_, C, E>,
) -> Result<(), Status>
    ensures scanned { OnOk result (AreScanned T.is_true (is_some by.entry.scanning.now.folder) by.entry.scanning.now.wishes by.entry.scanners.now tally.old tally.new (W.contents out.old) (W.contents out.new) (Some (map (λ j. name_of j.told) all.now))) }
    ensures so_far { OnErr result (AreScannedSoFar T.is_true by.entry.scanning.now.wishes by.entry.scanners.now (W.contents out.old) (W.contents out.new)) }
    ensures fault { IfErr result (λ status. IsFault status) }
{
    let reporting = Reporting {
        alloc: by.scanning.alloc,
        files: &by.scanning.files,
        scanners: by.scanners,
        wishes: by.scanning.wishes,
        is_live: by.scanning.is_live,
    };
    let mut room = Vec::new(by.scanning.alloc);
    let mut rest = all;
    'files: while let Some((judged, after)) = rest.split_first() {
        report::<F, O, W, Progress<'_, C, E>>(reporting, &judged.told, tally, &mut room, out, err)?;
        put_away(by.scanning, &judged.told, tally, err);
        rest = after;
    }
    Ok(())
}
