ghost use Rattle.std.specs.Prelude.{◌≡◌, map, IfErr, OnOk};
ghost use Rattle.std.specs.Option.{option_copied};
ghost use Rattle.std.specs.Io.KnownBytes.{Appends};
ghost use Rattle.av_status.specs.Status.{IsDoneOrFault, IsFault};
ghost use Rattle.av_status.specs.declared.status.Status.TheVariants.{Done};
ghost use Rattle.avscan.specs.Check.{AreAllGood, AreGood, IsChecked, IsGood, checked_line, line_of};

use av_base::parts::write_parts;
use av_base::{Part, Refusal, WriteFault};
use av_files::{FILE_BUFFER, Input, admit_set, quoted_name};
use av_program::{Source, Why, key_asked, read_file, say_given, why_unread};
use av_sets::trusted_text;
use av_sigset::SignatureSet;
use av_status::Status;
use av_status::faults::{EmptySets, bad_set_line, device_failed, out_of_memory, unreadable};
use av_trust::Trust;
use avscan_words::Check;
use std::alloc::Global;
use std::io::Write;

/// Checks signature files: a line to `out` for each that is good, and one to `err` for each that is not. The status is the greatest: Done
/// only if all are good.
pub fn check_named<W: Write, E: Write>(
    rt: &HostRuntime,
    alloc: Global,
    asked: &Check<'_>,
    out: &mut W,
    err: &mut E,
) -> Status
    ensures ended { IsDoneOrFault result }
    ensures good { result ≡ Done → AreAllGood asked.now (W.contents out.old) (W.contents out.new) }
{
    let key = match key_asked(rt, alloc, asked.trust, err) {
        Ok(key) => key,
        Err(status) => return status,
    };
    let trust = Trust::by(key.as_ref());
    let by = Checking { rt, alloc, trust };
    check_all(by, asked.sets.as_slice(), out, err)
}

// By what signature files are checked: the system and its memory, and which files may be taken.
#[derive(Clone, Copy)]
struct Checking<'a, 'b> {
    rt: &'a HostRuntime,
    alloc: Global,
    trust: Trust<'b>,
}

// Checks the files of these names, and leaves no line in a buffer.
#[tactic(auto, using(av_status::proofs::StatusLemmas::graver_ends, av_status::proofs::StatusLemmas::fault_stays))]
fn check_all<W: Write, E: Write>(
    by: Checking<'_, '_>,
    names: &[&str],
    out: &mut W,
    err: &mut E,
) -> Status
    ensures ended { IsDoneOrFault result }
    ensures good { result ≡ Done → AreGood by.entry.trust (map (λ n. n.now) names.now) (W.contents out.old) (W.contents out.new) }
{
    let Ok(mut buffer) = vec![in by.alloc; 0u8; FILE_BUFFER] else {
        return out_of_memory(err);
    };
    let worst = check_each(by, names, &mut buffer, out, err);
    if out.flush().is_err() {
        return worst.or_graver(device_failed(err));
    }
    worst
}

// Checks the files of these names, each read into the buffer.
fn check_each<W: Write, E: Write>(
    by: Checking<'_, '_>,
    names: &[&str],
    buffer: &mut [u8],
    out: &mut W,
    err: &mut E,
) -> Status
    ensures ended { IsDoneOrFault result }
    ensures good { result ≡ Done → AreGood by.entry.trust (map (λ n. n.now) names.now) (W.contents out.old) (W.contents out.new) }
{
    let mut worst = Status::Done;
    'names: for name in names {
        worst = worst.or_graver(check_one(by, name, buffer, out, err));
    }
    worst
}

// Checks the file of a name.
fn check_one<W: Write, E: Write>(
    by: Checking<'_, '_>,
    name: &str,
    buffer: &mut [u8],
    out: &mut W,
    err: &mut E,
) -> Status
    ensures ended { IsDoneOrFault result }
    ensures good { result ≡ Done → IsGood by.entry.trust name.now (W.contents out.old) (W.contents out.new) }
{
    let file = read_file(by.rt, name, buffer);
    if file.content.is_none() {
        return unread(by.rt, by.alloc, name, err);
    }
    match check_set(by.alloc, by.trust, file, out, err) {
        Ok(()) => Status::Done,
        Err(status) => status,
    }
}

/// Checks what was read of a signature file.
pub fn check_set<W: Write, E: Write>(
    alloc: Global,
    trust: Trust<'_>,
    file: Input<'_>,
    out: &mut W,
    err: &mut E,
) -> Result<(), Status>
    ensures checked { OnOk result (IsChecked trust.entry file.entry.name.now (option_copied file.entry.content) (W.contents out.old) (W.contents out.new)) }
    ensures status { IfErr result (λ status. IsFault status) }
{
    let name = file.name;
    let text = trusted_text(trust, file, err)?;
    let set = match SignatureSet::read(alloc, text) {
        Ok(set) => set,
        Err(Refusal::Fault(fault)) => return Err(bad_set_line(err, name, fault)),
        Err(Refusal::NoMemory) => return Err(out_of_memory(err)),
    };
    admit_set(&set, name, EmptySets::Refused, err)?;
    print_set(alloc, name, &set, out, err)
}

// Writes the line of a signature file that is good.
fn print_set<W: Write, E: Write>(
    alloc: Global,
    name: &str,
    set: &SignatureSet,
    out: &mut W,
    err: &mut E,
) -> Result<(), Status>
    ensures line { OnOk result (Appends (W.contents out.old) (W.contents out.new) (checked_line name.now set.now)) }
    ensures status { IfErr result (λ status. IsFault status) }
{
    let mut room = Vec::new(alloc);
    let Ok(name) = quoted_name(name.as_bytes(), &mut room) else {
        return Err(out_of_memory(err));
    };
    match print_line(name, set, out) {
        Ok(()) => Ok(()),
        Err(_) => Err(device_failed(err)),
    }
}

fn print_line<W: Write>(name: &[u8], set: &SignatureSet, out: &mut W) -> Result<(), WriteFault>
    ensures { OnOk result (Appends (W.contents out.old) (W.contents out.new) (line_of name.now set.now)) }
{
    write_parts(
        out,
        &[
            Part::Text(name),
            Part::Text(b": version ".as_slice()),
            Part::Number(set.version().get()),
            Part::Text(b", ".as_slice()),
            Part::Number(set.len() as u64),
            Part::Text(b" signatures\n".as_slice()),
        ],
    )
}

// Says why a signature file could not be read.
fn unread<E: Write>(rt: &HostRuntime, alloc: Global, name: &str, err: &mut E) -> Status
    ensures { IsFault result }
{
    match why_unread(rt, name, Source::Other) {
        Why::Unknown => unreadable(err, name),
        why => {
            say_given(alloc, name, why, err);
            Status::Device
        }
    }
}
