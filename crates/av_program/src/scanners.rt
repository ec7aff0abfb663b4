//! The signature sets that files are scanned under, by the names of their files.

ghost use Rattle.std.specs.Prelude.{◌≡◌, ◌++◌, ◌∷◌, [], ℕ, List, map, IfErr, IfOk};
ghost use Rattle.av_files.specs.Scan.{IsAdmitted};
ghost use Rattle.av_program.specs.Sets.{AreAsked, AreOf};
ghost use Rattle.av_sets.specs.Sets.{IsTrusted};
ghost use Rattle.av_status.specs.Status.{IsFault};

use crate::keys::key_asked;
use crate::sets::set_named;
use av_files::{NamedScanner, Scanner, Scanners};
use av_status::Status;
use av_status::faults::{EmptySets, out_of_memory};
use av_trust::Trust;
use std::alloc::Global;
use std::io::Write;

/// Which sets are asked for: the names of their files, the first one and further ones, the file of the key that they have to be signed
/// with, and whether one may be empty.
#[derive(Clone, Copy)]
pub struct Sets<'a> {
    pub first: &'a str,
    pub more: &'a [&'a str],
    pub trust: Option<&'a str>,
    pub empty_sets: EmptySets,
}

// By what a signature file is read.
#[derive(Clone, Copy)]
struct Reading<'a, 'b> {
    rt: &'a HostRuntime,
    alloc: Global,
    trust: Trust<'b>,
    empty_sets: EmptySets,
}

/// The scanners of the sets that are asked for, in the order given. The first set that can't be taken ends it.
pub fn scanners_named<E: Write>(
    rt: &HostRuntime,
    alloc: Global,
    sets: Sets<'_>,
    err: &mut E,
) -> Result<Scanners, Status>
    ensures asked { IfOk result (AreAsked sets.entry) }
    ensures status { IfErr result (λ status. IsFault status) }
{
    let key = key_asked(rt, alloc, sets.trust, err)?;
    let trust = Trust::by(key.as_ref());
    let reading = Reading {
        rt,
        alloc,
        trust,
        empty_sets: sets.empty_sets,
    };
    let mut scanners = first_of(reading, sets.first, err)?;
    match add_each(reading, sets.more, &mut scanners, err) {
        Ok(()) => Ok(scanners),
        Err(status) => Err(status),
    }
}

// The scanner of the first set alone.
fn first_of<E: Write>(reading: Reading<'_, '_>, name: &str, err: &mut E) -> Result<Scanners, Status>
    ensures first { IfOk result (AreOf reading.entry.trust reading.entry.empty_sets (name.now ∷ [])) }
    ensures status { IfErr result (λ status. IsFault status) }
{
    let named = scanner_named(reading, name, err)?;
    match Scanners::of(reading.alloc, named) {
        Ok(scanners) => Ok(scanners),
        Err(_) => Err(out_of_memory(err)),
    }
}

// Adds the scanners of further sets.
fn add_each<E: Write>(
    reading: Reading<'_, '_>,
    names: &[&str],
    scanners: &mut Scanners,
    err: &mut E,
) -> Result<(), Status>
    ensures added { (before : List (List ℕ)) → AreOf reading.entry.trust reading.entry.empty_sets before scanners.old
        → IfOk result (λ _. AreOf reading.entry.trust reading.entry.empty_sets (before ++ map (λ n. n.now) names.now) scanners.new) }
    ensures status { IfErr result (λ status. IsFault status) }
{
    for name in names {
        add_one(reading, name, scanners, err)?;
    }
    Ok(())
}

// Adds the scanner of one set more.
fn add_one<E: Write>(
    reading: Reading<'_, '_>,
    name: &str,
    scanners: &mut Scanners,
    err: &mut E,
) -> Result<(), Status>
    ensures added { (before : List (List ℕ)) → AreOf reading.entry.trust reading.entry.empty_sets before scanners.old
        → IfOk result (λ _. AreOf reading.entry.trust reading.entry.empty_sets (before ++ name.now ∷ []) scanners.new) }
    ensures status { IfErr result (λ status. IsFault status) }
{
    let named = scanner_named(reading, name, err)?;
    if scanners.add(named).is_err() {
        return Err(out_of_memory(err));
    }
    Ok(())
}

// The scanner of the set in the file of this name.
fn scanner_named<E: Write>(
    reading: Reading<'_, '_>,
    name: &str,
    err: &mut E,
) -> Result<NamedScanner, Status>
    ensures name { IfOk result (λ s. s.name ≡ name.now) }
    ensures trusted { IfOk result (λ s. IsTrusted reading.entry.trust s.set) }
    ensures admitted { IfOk result (λ s. IsAdmitted reading.entry.empty_sets s.set) }
    ensures status { IfErr result (λ status. IsFault status) }
{
    let scanner = scanner_of(reading, name, err)?;
    match String::from_str(reading.alloc, name) {
        Ok(name) => Ok(NamedScanner::new(name, scanner)),
        Err(_) => Err(out_of_memory(err)),
    }
}

fn scanner_of<E: Write>(
    reading: Reading<'_, '_>,
    name: &str,
    err: &mut E,
) -> Result<Scanner, Status>
    ensures trusted { IfOk result (IsTrusted reading.entry.trust) }
    ensures admitted { IfOk result (IsAdmitted reading.entry.empty_sets) }
    ensures status { IfErr result (λ status. IsFault status) }
{
    let Reading {
        rt,
        alloc,
        trust,
        empty_sets,
    } = reading;
    match set_named(rt, alloc, name, trust, empty_sets, err) {
        Ok(set) => Scanner::of(alloc, set, err),
        Err(status) => Err(status),
    }
}
