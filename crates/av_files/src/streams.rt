ghost use Rattle.std.specs.Prelude.{[], ◌≡◌, ◌≤◌, false, is_some, true, IfErr, IfSome, OnErr, OnOk};
ghost use Rattle.std.specs.BTreeSet.{contains, insert_key, IsUnchanged};
ghost use Rattle.std.specs.Cmp.Lexicographic.{slice_cmp};
ghost use Rattle.std.specs.Option.{option_copied};
ghost use Rattle.std.specs.Ordering.{nat_cmp};
ghost use Rattle.av_base.specs.Limits.{greatest_values};
ghost use Rattle.av_store.specs.Store.{empty_store, is_name};
ghost use Rattle.av_base.specs.Answers.{Steps};
ghost use Rattle.av_files.specs.Streams.{HasFile, IsRefused, IsStop, joined_of, looked_of};
ghost use Rattle.av_files.specs.Volume.{AddsFile, volume_of_files};
ghost use Rattle.av_status.specs.Status.{IsFault};

use crate::scanner::{Input, MAX_FILE};
use av_base::{Limits, Refusal};
use av_status::faults::{file_refused, out_of_memory, unreadable};
use av_status::status::Status;
use av_store::{StoreFault, Volume};
use std::alloc::Global;
use std::collections::BTreeSet;
use std::io::Write;

/// How many reads are made of a script, a file or a connection at most.
pub const TURNS: u64 = 16_777_216;

/// The number of the volume in every program.
pub const VOLUME: u64 = 1;

/// The volume of a program's files: number 1, never mounted, with no stream yet.
pub fn empty_volume(alloc: Global) -> Volume
    ensures empty { result ≡ empty_store VOLUME greatest_values }
    ensures files { result ≡ volume_of_files [] }
{
    Volume::new(alloc, VOLUME, Limits::greatest())
}

/// Says why a file can be no stream beside those of the names that were seen, as far as its name and size show it: it can't be
/// opened, and so has no size, BadName, Exists, TooLarge. The names are then as before; else this one is seen too. It costs the
/// logarithm of how many were.
pub fn look_at<'a, E: Write>(
    alloc: Global,
    seen: &mut BTreeSet<&'a str>,
    name: &'a str,
    size: Option<u64>,
    err: &mut E,
) -> Result<(), Status>
    ensures name { OnOk result (is_name name.now ≡ true) }
    ensures opened { OnOk result (is_some size ≡ true) }
    ensures size { OnOk result (IfSome size (λ n. n ≤ greatest_values.length)) }
    ensures fresh { OnOk result (contains (λ x y. slice_cmp nat_cmp x.now y.now) seen.old name.entry ≡ false) }
    ensures joined { OnOk result (seen.new.keys ≡ insert_key (λ x y. slice_cmp nat_cmp x.now y.now) seen.old.keys name.entry) }
    ensures looked { OnOk result (looked_of seen.old name.entry size ≡ Ok seen.new.keys) }
    ensures kept { OnErr result (IsUnchanged seen.old seen.new) }
    ensures status { IfErr result (λ status. IsFault status) }
    ensures stopped { IfErr result (λ status. IsStop status (looked_of seen.old name.entry size)) }
{
    let Some(size) = size else {
        return Err(unreadable(err, name));
    };
    match join(alloc, seen, name, size) {
        Ok(()) => Ok(()),
        Err(Refusal::Fault(fault)) => Err(say_refused(alloc, err, name, fault)),
        Err(Refusal::NoMemory) => Err(out_of_memory(err)),
    }
}

// Adds a name to those that were seen, where it is one of a stream that may have so many bytes.
fn join<'a>(
    alloc: Global,
    seen: &mut BTreeSet<&'a str>,
    name: &'a str,
    size: u64,
) -> Result<(), Refusal<StoreFault>>
    ensures name { OnOk result (is_name name.now ≡ true) }
    ensures size { OnOk result (size ≤ greatest_values.length) }
    ensures fresh { OnOk result (contains (λ x y. slice_cmp nat_cmp x.now y.now) seen.old name.entry ≡ false) }
    ensures joined { OnOk result (seen.new.keys ≡ insert_key (λ x y. slice_cmp nat_cmp x.now y.now) seen.old.keys name.entry) }
    ensures step { Steps seen.old.keys seen.new.keys result (joined_of seen.old name.entry size) }
    ensures kept { OnErr result (IsUnchanged seen.old seen.new) }
{
    if let Some(fault) = empty_volume(alloc).create_refusal(name.as_bytes()) {
        return Err(Refusal::Fault(fault));
    }
    if size > MAX_FILE as u64 {
        return Err(Refusal::Fault(if seen.contains(&name) {
            StoreFault::Exists
        } else {
            StoreFault::TooLarge
        }));
    }
    match seen.insert(name) {
        Ok(true) => Ok(()),
        Ok(false) => Err(Refusal::Fault(StoreFault::Exists)),
        Err(_) => Err(Refusal::NoMemory),
    }
}

/// Makes a file a stream under its path, by one create and one write. Where it can't be one, a line to `err` says why: it
/// could not be read, BadName, Exists, Full, TooLarge.
pub fn add_file<E: Write>(
    alloc: Global,
    volume: &mut Volume,
    file: Input<'_>,
    err: &mut E,
) -> Result<(), Status>
    ensures file { OnOk result (HasFile volume.old volume.new file.entry.name.now (option_copied file.entry.content)) }
    ensures added { OnOk result (AddsFile volume.old volume.new file.entry.name.now (option_copied file.entry.content)) }
    ensures status { IfErr result (λ status. IsFault status) }
{
    let content = file.readable(err)?;
    match add_stream(alloc, volume, file.name.as_bytes(), content) {
        Ok(()) => Ok(()),
        Err(Refusal::Fault(fault)) => Err(say_refused(alloc, err, file.name, fault)),
        Err(Refusal::NoMemory) => Err(out_of_memory(err)),
    }
}

// Makes a content a stream of this name.
fn add_stream(
    alloc: Global,
    volume: &mut Volume,
    name: &[u8],
    content: &[u8],
) -> Result<(), Refusal<StoreFault>>
    ensures file { OnOk result (HasFile volume.old volume.new name.now (Some content.now)) }
{
    let stream = volume.create(alloc, name)?;
    let _done = volume.write(stream, 0, content)?;
    Ok(())
}

/// Says why a file can't be a stream.
pub fn say_refused<E: Write>(alloc: Global, err: &mut E, file: &str, fault: StoreFault) -> Status
    ensures { IsRefused result }
{
    match format!(in alloc; "{fault}") {
        Ok(word) => file_refused(err, file, word.as_str()),
        Err(_) => out_of_memory(err),
    }
}
