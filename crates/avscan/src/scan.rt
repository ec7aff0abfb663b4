ghost use Rattle.std.specs.Prelude.{◌≡◌, ◌⊎◌, [], None, map, IfErr, IfOk};
ghost use Rattle.av_status.specs.Status.{IsFault};
ghost use Rattle.avscan.specs.Scanning.{AreEveryName, AsksFor, EndsOfAll, EndsUnder, IsAskedFor, IsNotBegun, IsScanOf, end_of, folders_of, matches_of};

use crate::disk::Disk;
use av_files::listed::listed;
use av_files::{Bounds, Scanners};
use av_host::Hosting;
use av_program::{Sets, failing, is_folder, names_of, scanners_named};
use av_scan::{Feed, Folders, Matches, Scanning, jobs_of, scan_all, scan_on};
use av_status::faults::{out_of_memory, say_of, text};
use av_status::{Progress, Status, Tally};
use av_words::{Finding, List, Named};
use avscan_words::Scan;
use std::alloc::{AllocError, Global};
use std::io::{IsTerminal, Write};

/// Scans files by their names, by as many threads as are asked for. What is written does not depend on how many they are: a line for each
/// file, by the verdict of a content that was read for it, in the order of the names. Whatever the status, nothing else was written.
pub fn scan_named<R: Hosting, W: Write, E: Write>(
    rt: &HostRuntime,
    system: &R,
    alloc: Global,
    asked: &Scan<'_>,
    out: &mut W,
    err: &mut Progress<'_, HostRuntime, E>,
) -> Status
    ensures { IsScanOf asked.now (W.contents out.old) (W.contents out.new) result }
{
    match asked.folder {
        Some(folder) if !is_folder(rt, folder) => return no_folder(folder, err),
        _ => {}
    }
    match scanners_named(rt, alloc, sets_of(asked), err) {
        Ok(scanners) => {
            let finding = asked.finding;
            let scanning = Scanning {
                rt: *system,
                alloc,
                files: Disk { rt: *rt },
                matches: matches_of(asked),
                max_size: finding.max_size,
                jobs: jobs_of(system, asked.jobs),
                wishes: asked.named.wishes,
                is_live: rt.stdout().is_terminal(),
                folder: asked.folder,
            };
            scan_listed(&scanning, scanners, asked, out, err)
        }
        Err(fault) => fault,
    }
}

// Says that infected files can't be moved into what is no folder.
fn no_folder<E: Write>(folder: &str, err: &mut E) -> Status
    ensures { IsFault result }
{
    say_of(err, folder, &[text(": is no folder to move files into")]);
    Status::Refused
}

// Which signatures are asked for, of those that occur in a file.
fn matches_of(asked: &Scan<'_>) -> Matches
    ensures { result ≡ matches_of asked.now }
{
    if asked.has_all_matches {
        Matches::All
    } else {
        Matches::First
    }
}

// The sets that are asked for.
fn sets_of<'a, 'b: 'a>(asked: &'a Scan<'b>) -> Sets<'a>
    ensures { AsksFor asked.now result }
{
    Sets {
        first: asked.set,
        more: asked.more_sets.as_slice(),
        trust: asked.trust,
        empty_sets: asked.empty_sets,
    }
}

// Scans the files that were given, and behind them those of a list.
fn scan_listed<R: Hosting, W: Write, E: Write>(
    scanning: &Scanning<'_, R, Disk>,
    scanners: Scanners,
    asked: &Scan<'_>,
    out: &mut W,
    err: &mut Progress<'_, HostRuntime, E>,
) -> Status
    requires { IsAskedFor asked.now scanning.now }
    ensures { IsNotBegun (W.contents out.old) (W.contents out.new) result ⊎ EndsOfAll asked.now scanners (W.contents out.old) (W.contents out.new) result }
{
    let text = match list_read(scanning, asked, err) {
        Ok(text) => text,
        Err(status) => return status,
    };
    match every_name(scanning.alloc, &asked.named, text.as_slice()) {
        Ok(names) => scan_each(scanning, scanners, asked, names.as_slice(), out, err),
        Err(_) => out_of_memory(err),
    }
}

// The text of the list of further files, where there is one. A name that is no text is told: it ends the run, or is missed at its turn.
fn list_read<R: Hosting, E: Write>(
    scanning: &Scanning<'_, R, Disk>,
    asked: &Scan<'_>,
    err: &mut Progress<'_, HostRuntime, E>,
) -> Result<Vec<u8>, Status>
    ensures none { IfOk result (λ text. asked.now.named.list ≡ None → text.items ≡ []) }
    ensures fault { IfErr result (λ status. IsFault status) }
{
    let mut text = Vec::new(scanning.alloc);
    if asked.named.list.is_none() {
        return Ok(text);
    }
    let (rt, failing) = (&scanning.files.rt, failing(asked.finding));
    let (room, tally) = (&mut text, &mut Tally::new());
    match names_of(rt, &asked.named, room, failing, tally, err) {
        Ok(_) => {}
        Err(status) => return Err(status),
    }
    Ok(text)
}

// All names that were given, and behind them those of a list, text or not.
fn every_name<'a, 'b: 'a>(
    alloc: Global,
    named: &Named<'b>,
    text: &'a [u8],
) -> Result<Vec<&'a [u8]>, AllocError>
    ensures { IfOk result (λ names. AreEveryName (end_of named.now.list) text.now (map (λ n. n.now) named.now.files.items) (map (λ n. n.now) names.items)) }
{
    let mut names = given_names(alloc, named.files.as_slice())?;
    let listed = listed(alloc, text, end_of(named.list))?;
    names.extend_from_slice(listed.as_slice())?;
    Ok(names)
}

fn given_names<'a, 'b: 'a>(alloc: Global, given: &[&'b str]) -> Result<Vec<&'a [u8]>, AllocError>
    ensures { IfOk result (λ names. map (λ n. n.now) names.items ≡ map (λ n. n.now) given.now) }
{
    let mut names: Vec<&'a [u8]> = Vec::new(alloc);
    for name in given {
        let name: &'a str = *name;
        names.push(name.as_bytes())?;
    }
    Ok(names)
}

// The byte that ends each name of a list.
fn end_of(list: Option<List<'_>>) -> u8
    ensures { result ≡ end_of list.entry }
{
    match list {
        Some(list) => list.end,
        None => 0,
    }
}

// Scans the files of these names.
fn scan_each<R: Hosting, W: Write, E: Write>(
    scanning: &Scanning<'_, R, Disk>,
    scanners: Scanners,
    asked: &Scan<'_>,
    names: &[&[u8]],
    out: &mut W,
    err: &mut Progress<'_, HostRuntime, E>,
) -> Status
    requires { IsAskedFor asked.now scanning.now }
    ensures { EndsUnder asked.now scanners (map (λ n. n.now) names.now) (W.contents out.old) (W.contents out.new) result }
{
    let scanning = &in_turn(scanning, names);
    if !asked.finding.keeps_going {
        return scan_all(scanning, scanners, names, out, err);
    }
    let bounds = Bounds {
        globs: asked.globs.as_slice(),
        is_one_device: asked.is_one_device,
    };
    let folders = folders_of(asked.finding);
    let mut feed = Feed::new(&scanning.rt, scanning.alloc, names, folders, bounds);
    scan_on(scanning, scanners, &mut feed, Tally::new(), out, err)
}

// What a folder stands for.
fn folders_of(finding: Finding) -> Folders
    ensures { result ≡ folders_of finding }
{
    if finding.is_recursive {
        Folders::Entered
    } else {
        Folders::Refused
    }
}

// The same scan, by one thread where two of the files may be one pipe: what one reader takes of it is lost to the other, so the first has to
// have all of it.
fn in_turn<'a, R: Hosting>(
    scanning: &Scanning<'a, R, Disk>,
    names: &[&[u8]],
) -> Scanning<'a, R, Disk>
    ensures matches { result.matches ≡ scanning.now.matches }
    ensures most { result.max_size ≡ scanning.now.max_size }
    ensures wishes { result.wishes ≡ scanning.now.wishes }
    ensures folder { result.folder ≡ scanning.now.folder }
{
    let handed = names.iter().filter(|name| is_handed(name)).count();
    let jobs = if handed > 1 { 1 } else { scanning.jobs };
    Scanning { jobs, ..*scanning }
}

// Whether a name is of a descriptor that the program was handed.
fn is_handed(name: &[u8]) -> bool {
    name == b"-".as_slice()
        || name == b"/dev/stdin".as_slice()
        || name.starts_with(b"/dev/fd/".as_slice())
}
