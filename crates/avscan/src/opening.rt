ghost use Rattle.std.specs.Prelude.{IfErr, IfOk};
ghost use Rattle.av_files.specs.Scan.{IsAdmitted};
ghost use Rattle.av_host.specs.Groups.{AreHostedInGroups};
ghost use Rattle.av_program.specs.Sets.{IsTrustedFor};
ghost use Rattle.av_sockets.specs.Filter.{AreFiltered};
ghost use Rattle.av_status.specs.Status.{EndsWell, IsFault};
ghost use Rattle.avscan.specs.Opening.{AreAllNames, AreFilteredAsNamed, AreFilteredSoFar, AreHostedAsNamed, AreHostedSoFar, HostsAll, HostsSoFar, Read};

use av_files::{Contents, Failing, look_at};
use av_host::{Crew, Hosting, Signatures, host, host_groups};
use av_program::{Source, key_asked, names_of, read_file, say_why, set_named, size_of};
use av_sockets::{Filtering, Meeting, filter_files};
use av_status::faults::{out_of_memory, say, text};
use av_status::{Progress, Status, Tally};
use av_trust::Trust;
use av_words::Named;
use avscan_words::{Filter, Host};
use std::alloc::Global;
use std::collections::BTreeSet;
use std::io::Write;

/// Opens files by their names, as `host_files` does by their contents, and holds one group of them at a time. What can be seen of a
/// file without reading it is told before the first one is opened. Whatever the status, nothing was written but lines that are true of
/// the contents that were read.
#[tactic(auto, using(crate::proofs::OpeningLemmas::no_set, crate::proofs::OpeningLemmas::of_set, crate::proofs::OpeningLemmas::all_of_set))]
pub fn host_named<R: Hosting, W: Write, E: Write>(
    rt: &HostRuntime,
    system: &R,
    alloc: Global,
    asked: &Host<'_>,
    out: &mut W,
    err: &mut Progress<'_, HostRuntime, E>,
) -> Status
    ensures so_far { AreHostedSoFar asked.now (W.contents out.old) (W.contents out.new) }
    ensures hosted { EndsWell result → AreHostedAsNamed asked.now (W.contents out.old) (W.contents out.new) result }
{
    let signatures = match signatures_of(rt, alloc, asked, err) {
        Ok(signatures) => signatures,
        Err(status) => return status,
    };
    let crew = Crew {
        openers: asked.openers,
        workers: asked.workers,
        has_spare: asked.has_spare,
    };
    let host = host::Host {
        rt: system,
        alloc,
        signatures: &signatures,
        crew,
        wishes: asked.named.wishes,
    };
    host_over(rt, &host, &asked.named, out, err)
}

// The signatures that files are judged by.
#[tactic(auto, using(av_program::proofs::SetLemmas::trust_for))]
fn signatures_of<E: Write>(
    rt: &HostRuntime,
    alloc: Global,
    asked: &Host<'_>,
    err: &mut E,
) -> Result<Signatures, Status>
    ensures trusted { IfOk result (IsTrustedFor asked.now.trust) }
    ensures admitted { IfOk result (IsAdmitted asked.now.empty_sets) }
    ensures fault { IfErr result (λ status. IsFault status) }
{
    let key = key_asked(rt, alloc, asked.trust, err)?;
    let trust = Trust::by(key.as_ref());
    let set = set_named(rt, alloc, asked.set, trust, asked.empty_sets, err)?;
    match Signatures::build(alloc, set) {
        Ok(signatures) => Ok(signatures),
        Err(_) => Err(out_of_memory(err)),
    }
}

// The same, by this host.
#[tactic(auto, using(crate::proofs::OpeningLemmas::none_hosted, crate::proofs::OpeningLemmas::hosts_all))]
fn host_over<R: Hosting, W: Write, E: Write>(
    rt: &HostRuntime,
    host: &host::Host<'_, R>,
    named: &Named<'_>,
    out: &mut W,
    err: &mut Progress<'_, HostRuntime, E>,
) -> Status
    ensures so_far { HostsSoFar host.now.signatures.now host.now.crew.openers host.now.wishes (W.contents out.old) (W.contents out.new) }
    ensures hosted { EndsWell result → HostsAll named.now host.now.signatures.now host.now.crew.openers host.now.wishes (W.contents out.old) (W.contents out.new) result }
{
    let mut text = Vec::new(host.alloc);
    match all_names(rt, named, &mut text, err) {
        Ok(names) => host_all(rt, host, names.as_slice(), out, err),
        Err(status) => status,
    }
}

// The same, with all names: each file is looked at before the first one is opened.
#[tactic(auto, using(crate::proofs::OpeningLemmas::none_hosted, crate::proofs::OpeningLemmas::so_far))]
fn host_all<R: Hosting, W: Write, E: Write>(
    rt: &HostRuntime,
    host: &host::Host<'_, R>,
    names: &[&str],
    out: &mut W,
    err: &mut Progress<'_, HostRuntime, E>,
) -> Status
    ensures so_far { HostsSoFar host.now.signatures.now host.now.crew.openers host.now.wishes (W.contents out.old) (W.contents out.new) }
    ensures hosted { EndsWell result → AreHostedInGroups Read host.now.signatures.now host.now.crew.openers names.now host.now.wishes (W.contents out.old) (W.contents out.new) result }
{
    match look_over(rt, host.alloc, names, err) {
        Ok(()) => host_groups(host, &Disk { rt }, names, out, err),
        Err(status) => status,
    }
}

// Says what can be seen of the files before one is read.
fn look_over<E: Write>(
    rt: &HostRuntime,
    alloc: Global,
    names: &[&str],
    err: &mut E,
) -> Result<(), Status>
    ensures { IfErr result (λ status. IsFault status) }
{
    let mut seen = BTreeSet::new(alloc);
    'files: for name in names {
        let size = size_of(rt, name);
        if let Err(status) = look_at(alloc, &mut seen, *name, size, err) {
            if size.is_none() {
                say_why(rt, alloc, name, Source::Other, err);
            }
            return Err(status);
        }
    }
    Ok(())
}

/// Opens files by their names, through a filter that a service may join at a socket, and holds one group of them at a time. What
/// can be seen of a file without reading it is told before the socket is made. Whatever the status, nothing was written but lines of the
/// filter's answers.
#[tactic(auto, using(crate::proofs::OpeningLemmas::none_filtered, crate::proofs::OpeningLemmas::filters_all))]
pub fn filter_named<R: Hosting, W: Write, E: Write>(
    rt: &HostRuntime,
    system: &R,
    alloc: Global,
    asked: &Filter<'_>,
    out: &mut W,
    err: &mut Progress<'_, HostRuntime, E>,
) -> Status
    ensures so_far { AreFilteredSoFar asked.now (W.contents out.old) (W.contents out.new) }
    ensures filtered { EndsWell result → AreFilteredAsNamed asked.now (W.contents out.old) (W.contents out.new) result }
{
    let disk = Disk { rt };
    let filtering = Filtering {
        rt: system,
        alloc,
        meeting: Meeting::within(asked.socket, asked.wait),
        mode: asked.mode,
        files: &disk,
    };
    let mut text = Vec::new(alloc);
    match all_names(rt, &asked.named, &mut text, err) {
        Ok(names) => filter_all(rt, filtering, asked, names.as_slice(), out, err),
        Err(status) => status,
    }
}

// The same, with all names: each file is looked at before the first one is read.
#[tactic(auto, using(crate::proofs::OpeningLemmas::none_filtered, crate::proofs::OpeningLemmas::filters_so_far))]
fn filter_all<R: Hosting, W: Write, E: Write>(
    rt: &HostRuntime,
    filtering: Filtering<'_, R, Disk<'_>>,
    asked: &Filter<'_>,
    names: &[&str],
    out: &mut W,
    err: &mut Progress<'_, HostRuntime, E>,
) -> Status
    ensures so_far { AreFilteredSoFar asked.now (W.contents out.old) (W.contents out.new) }
    ensures filtered { EndsWell result → AreFiltered Read names.now asked.now.named.wishes (W.contents out.old) (W.contents out.new) result }
{
    match look_over(rt, filtering.alloc, names, err) {
        Ok(()) => filter_files(filtering, names, asked.named.wishes, out, err),
        Err(status) => status,
    }
}

// Files as the system has them.
#[derive(Drop)]
struct Disk<'a> {
    rt: &'a HostRuntime,
}

impl<'a> Contents for Disk<'a> {
    // What a disk holds no clause can say.
    ghost has_content = { λ _ name content. Read name content };

    fn read(&self, name: &str, buffer: &mut [u8]) -> Option<usize> {
        match read_file(self.rt, name, buffer).content {
            Some(content) => Some(content.len()),
            None => None,
        }
    }
}

// The names of all files, of which there is one at least: who opened none has judged none. A name of a list that is no text ends it.
fn all_names<'a, 'b: 'a, E: Write>(
    rt: &HostRuntime,
    named: &Named<'b>,
    text: &'a mut Vec<u8>,
    err: &mut E,
) -> Result<Vec<&'a str>, Status>
    ensures all { IfOk result (λ names. AreAllNames named.now names.items) }
    ensures fault { IfErr result (λ status. IsFault status) }
{
    let tally = &mut Tally::new();
    let names = names_of(rt, named, text, Failing::Ends, tally, err)?;
    if names.is_empty() {
        return Err(no_file(err));
    }
    Ok(names)
}

fn no_file<E: Write>(err: &mut E) -> Status
    ensures { IsFault result }
{
    say(err, &[text("no file was opened")]);
    Status::Refused
}
