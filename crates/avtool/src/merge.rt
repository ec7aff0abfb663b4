ghost use Rattle.std.specs.Prelude.{◌≡◌, ◌≢◌, List, ℕ, IfErr, IfOk, length, unwrap_or};
ghost use Rattle.std.specs.Io.KnownBytes.{Appends};
ghost use Rattle.av_base.specs.Device.{AppendsPrefix};
ghost use Rattle.av_sigset.specs.Spelling.{ReadsBack, spelling};
ghost use Rattle.av_status.specs.Status.{IsDoneOrFault, IsFault};
ghost use Rattle.av_status.specs.declared.status.Status.TheVariants.{Device, Done};
ghost use Rattle.avtool.specs.Merge.{IsMergeAsked, IsMergeFile, IsMergeOfFiles, Leaves};
ghost use Rattle.avtool.specs.Placing.{GoesOut};

use crate::placing::put_content;
use crate::set::set_of;
use av_base::{Part, Refusal, Version};
use av_files::quoted_name;
use av_merge::{MergeFault, Merger};
use av_program::key_asked;
use av_sigset::SignatureSet;
use av_status::faults::{device_failed, out_of_memory, say_of, text};
use av_status::status::Status;
use av_trust::Trust;
use avtool_words::Merge;
use std::alloc::Global;
use std::io::Write;

/// Writes one signature file of several, to standard output or into a file. If a set can't be read or doesn't fit, nothing is written.
pub fn merge_named<W: Write, E: Write>(
    rt: &HostRuntime,
    alloc: Global,
    asked: &Merge<'_>,
    out: &mut W,
    err: &mut E,
) -> Status
    ensures done { result ≡ Done → (text : List ℕ) × IsMergeFile asked.now text × GoesOut asked.now.output (W.contents out.old) (W.contents out.new) text }
    ensures failed { result ≢ Done → Leaves asked.now result (W.contents out.old) (W.contents out.new) }
    ensures ended { IsDoneOrFault result }
{
    let merger = match merged_as(rt, alloc, asked, err) {
        Ok(merger) => merger,
        Err(status) => return status,
    };
    let version = version_for(asked, &merger);
    match asked.output {
        Some(path) => write_file(rt, alloc, path, &merger, version, err),
        None => print(&merger, version, out, err),
    }
}

// The version that is asked for, or the greatest of the sets.
fn version_for(asked: &Merge<'_>, merger: &Merger) -> Version
    ensures { result ≡ unwrap_or asked.now.version merger.now.version }
{
    match asked.version {
        Some(number) => Version::new(number),
        None => merger.version(),
    }
}

// The merge of the sets of the files that were named, as far as they are trusted.
fn merged_as<E: Write>(
    rt: &HostRuntime,
    alloc: Global,
    asked: &Merge<'_>,
    err: &mut E,
) -> Result<Merger, Status>
    ensures merge { IfOk result (IsMergeAsked asked.now) }
    ensures fault { IfErr result (λ status. IsFault status) }
{
    let key = key_asked(rt, alloc, asked.trust, err)?;
    let trust = Trust::by(key.as_ref());
    merged(rt, alloc, asked.files.as_slice(), trust, err)
}

// The merge of the sets of these files.
fn merged<E: Write>(
    rt: &HostRuntime,
    alloc: Global,
    names: &[&str],
    trust: Trust<'_>,
    err: &mut E,
) -> Result<Merger, Status>
    ensures merge { IfOk result (IsMergeOfFiles trust.entry (length names.now)) }
    ensures fault { IfErr result (λ status. IsFault status) }
{
    let mut merger = Merger::new(alloc);
    'files: for place in 0..names.len() {
        let set = set_of(rt, alloc, names[place], trust, err)?;
        match merger.add(alloc, place, &set) {
            Ok(()) => {}
            Err(Refusal::NoMemory) => return Err(out_of_memory(err)),
            Err(Refusal::Fault(fault)) => {
                return Err(refused(alloc, names, place, &set, fault, err));
            }
        }
    }
    Ok(merger)
}

// Says why the set of the file at this place doesn't fit to the sets before it.
fn refused<E: Write>(
    alloc: Global,
    names: &[&str],
    place: usize,
    set: &SignatureSet,
    fault: MergeFault,
    err: &mut E,
) -> Status
    ensures { IsFault result }
{
    let name = name_at(names, place);
    match fault {
        MergeFault::Clash { index, earlier } => {
            let signature = set.name(index).unwrap_or(b"".as_slice());
            return clash(alloc, name, signature, name_at(names, earlier), err);
        }
        MergeFault::ManySignatures => {
            say_of(
                err,
                name,
                &[text(": with it there are more than 1,024 signatures")],
            );
        }
        MergeFault::ManyBytes => {
            say_of(
                err,
                name,
                &[text(": with it there are more than 16,384 bytes in all")],
            );
        }
    }
    Status::Refused
}

// Says that a signature has another pattern in an earlier file.
fn clash<E: Write>(
    alloc: Global,
    name: &str,
    signature: &[u8],
    earlier: &str,
    err: &mut E,
) -> Status
    ensures { IsFault result }
{
    let mut room = Vec::new(alloc);
    match quoted_name(earlier.as_bytes(), &mut room) {
        Ok(shown) => {
            say_clash(name, signature, shown, err);
            Status::Refused
        }
        Err(_) => out_of_memory(err),
    }
}

fn say_clash<E: Write>(name: &str, signature: &[u8], earlier: &[u8], err: &mut E) {
    say_of(
        err,
        name,
        &[
            text(": "),
            Part::Text(signature),
            text(" has another pattern in "),
            Part::Text(earlier),
        ],
    );
}

fn name_at<'a>(names: &[&'a str], place: usize) -> &'a str {
    match names.get(place) {
        Some(name) => *name,
        None => "",
    }
}

// Writes the merge to standard output.
fn print<W: Write, E: Write>(merger: &Merger, version: Version, out: &mut W, err: &mut E) -> Status
    ensures done { result ≡ Done → Appends (W.contents out.old) (W.contents out.new) (spelling (record { version = version; signatures = merger.now.signatures })) }
    ensures failed { result ≢ Done → (result ≡ Device) × AppendsPrefix (W.contents out.old) (W.contents out.new)
        (spelling (record { version = version; signatures = merger.now.signatures })) }
    ensures reads_back { result ≡ Done → ReadsBack (record { version = version; signatures = merger.now.signatures }) }
    ensures ended { IsDoneOrFault result }
{
    if merger.write(version, out).is_err() {
        return device_failed(err);
    }
    if out.flush().is_err() {
        return device_failed(err);
    }
    Status::Done
}

// Writes the merge beside its place, and puts it there once it is whole.
fn write_file<E: Write>(
    rt: &HostRuntime,
    alloc: Global,
    path: &str,
    merger: &Merger,
    version: Version,
    err: &mut E,
) -> Status
    ensures reads_back { result ≡ Done → ReadsBack (record { version = version; signatures = merger.now.signatures }) }
    ensures ended { IsDoneOrFault result }
{
    let mut content = Vec::new(alloc);
    if merger.write(version, &mut content).is_err() {
        return out_of_memory(err);
    }
    put_content(rt, alloc, path, content.as_slice(), err)
}
