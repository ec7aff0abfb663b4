ghost use Rattle.std.specs.Prelude.{◌≡◌, IfErr, IsSome};
ghost use Rattle.std.specs.Io.KnownBytes.{Appends};
ghost use Rattle.av_import.specs.Import.{Taken};
ghost use Rattle.av_sigset.specs.Spelling.{spelling};
ghost use Rattle.av_status.specs.Status.{IsDoneOrFault, IsFault};
ghost use Rattle.av_status.specs.declared.status.Status.TheVariants.{Done};
ghost use Rattle.avtool.specs.Import.{Writes, status_of};

use crate::placing::put_content;
use av_base::Part;
use av_import::{Import, ImportFault, Rules};
use av_program::whole_text;
use av_status::faults::{device_failed, out_of_memory, say, text};
use av_status::status::Status;
use std::alloc::Global;
use std::io::Write;

/// Writes a signature file of this version, with what can be taken of files of other products, to standard output or into a file. If
/// nothing can be taken, nothing is written: a file without a signature would find nothing.
pub fn import_named<W: Write, E: Write>(
    rt: &HostRuntime,
    alloc: Global,
    asked: &avtool_words::Import<'_>,
    out: &mut W,
    err: &mut E,
) -> Status
    ensures done { result ≡ Done → (import : Taken) × Writes asked.now import (W.contents out.old) (W.contents out.new) }
    ensures kept { IsSome asked.now.output → W.contents out.new ≡ W.contents out.old }
    ensures ended { IsDoneOrFault result }
{
    let mut import = Import::new(
        alloc,
        Rules {
            takes_any_target: asked.taking.takes_any_target,
            has_ranges: !asked.taking.has_format_1,
        },
    );
    match take_all(rt, alloc, asked.files.as_slice(), &mut import, err) {
        Ok(()) => conclude(rt, alloc, &import, asked, out, err),
        Err(status) => status,
    }
}

// Takes what each file says, one after the other.
fn take_all<E: Write>(
    rt: &HostRuntime,
    alloc: Global,
    names: &[&str],
    import: &mut Import,
    err: &mut E,
) -> Result<(), Status>
    ensures { IfErr result (λ status. IsFault status) }
{
    'files: for name in names {
        let content = whole_text(rt, alloc, name, err)?;
        if let Err(fault) = import.take(name, content.as_slice(), err) {
            return Err(failed(err, fault));
        }
    }
    Ok(())
}

// Says how much was taken, and writes it.
fn conclude<W: Write, E: Write>(
    rt: &HostRuntime,
    alloc: Global,
    import: &Import,
    asked: &avtool_words::Import<'_>,
    out: &mut W,
    err: &mut E,
) -> Status
    ensures done { result ≡ Done → Writes asked.now import.now (W.contents out.old) (W.contents out.new) }
    ensures kept { IsSome asked.now.output → W.contents out.new ≡ W.contents out.old }
    ensures ended { IsDoneOrFault result }
{
    say(
        err,
        &[
            Part::Number(import.taken() as u64),
            text(" signatures taken, "),
            Part::Number(import.left()),
            text(" lines left out"),
        ],
    );
    if import.taken() == 0 || asked.taking.wants_all && import.left() > 0 {
        return Status::Refused;
    }
    match asked.output {
        Some(path) => write_file(rt, alloc, path, import, asked.version, err),
        None => print(import, asked.version, out, err),
    }
}

// Writes the signature file to standard output.
fn print<W: Write, E: Write>(import: &Import, version: u64, out: &mut W, err: &mut E) -> Status
    ensures done { result ≡ Done → Appends (W.contents out.old) (W.contents out.new) (spelling (record { version = version; signatures = import.now.signatures })) }
    ensures ended { IsDoneOrFault result }
{
    if let Err(fault) = import.write(version, out) {
        return failed(err, fault);
    }
    if out.flush().is_err() {
        return device_failed(err);
    }
    Status::Done
}

// Writes the signature file beside its place, and puts it there once it is whole.
fn write_file<E: Write>(
    rt: &HostRuntime,
    alloc: Global,
    path: &str,
    import: &Import,
    version: u64,
    err: &mut E,
) -> Status
    ensures { IsDoneOrFault result }
{
    let mut content = Vec::new(alloc);
    if import.write(version, &mut content).is_err() {
        return out_of_memory(err);
    }
    put_content(rt, alloc, path, content.as_slice(), err)
}

// Says why signatures were not taken, or not written.
fn failed<E: Write>(err: &mut E, fault: ImportFault) -> Status
    ensures { result ≡ status_of fault }
{
    match fault {
        ImportFault::NoMemory => out_of_memory(err),
        ImportFault::Write => device_failed(err),
    }
}
