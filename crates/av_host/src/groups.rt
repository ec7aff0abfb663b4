ghost use Rattle.std.specs.Prelude.{[], ◌≡◌, ◌≤◌, ◌<◌, IfErr, IfOk, IfSome, OnErr, length, take};
ghost use Rattle.std.specs.Option.{option_copied};
ghost use Rattle.av_files.specs.Volume.{volume_of_files};
ghost use Rattle.av_host.specs.Files.{HoldsContents};
ghost use Rattle.av_host.specs.Groups.{AreHostedInGroups, AreOpened, AreTrueSoFar};
ghost use Rattle.av_status.specs.Status.{EndsWell, IsFault};
ghost use Rattle.av_status.specs.Tally.{no_files};

use crate::host::{Host, Hosting, host_group};
use crate::opener::Group;
use av_files::contents::{Contents, GROUP_BYTES, content_of, counted_bytes};
use av_files::opened::conclude_opened;
use av_files::scanner::{FILE_BUFFER, Input};
use av_files::streams::{add_file, empty_volume};
use av_status::faults::out_of_memory;
use av_status::progress::Progress;
use av_status::status::Status;
use av_status::tally::Tally;
use av_store::Volume;
use std::alloc::Global;
use std::io::Write;
use std::time::Clock;

/// Opens files of these names, as `host_files` does those of contents that it is given, and holds one group of them at a time. A file
/// that can't be read ends it behind the lines of the groups before. Each line that was written is true, also of a run that ends with a
/// fault.
pub fn host_groups<R: Hosting, F: Contents, C: Clock, W: Write, E: Write>(
    host: &Host<'_, R>,
    files: &F,
    names: &[&str],
    out: &mut W,
    err: &mut Progress<'_, C, E>,
) -> Status
    ensures so_far { AreTrueSoFar (F.has_content files.now) host.now.signatures.now host.now.crew.openers names.now host.now.wishes no_files (W.contents out.old) (W.contents out.new) }
    ensures hosted { EndsWell result → AreHostedInGroups (F.has_content files.now) host.now.signatures.now host.now.crew.openers names.now host.now.wishes (W.contents out.old) (W.contents out.new) result }
{
    let mut tally = Tally::new();
    match open_groups(host, files, names, &mut tally, out, err) {
        Ok(ended) => conclude_opened(tally, names.len(), ended, host.wishes, err),
        Err(failed) => failed,
    }
}

// Reads and opens the files, a group after the other, as long as all goes well. Ok says how the last group ended; Err where a group
// could not be read or opened, or a line not be written.
fn open_groups<R: Hosting, F: Contents, C: Clock, W: Write, E: Write>(
    host: &Host<'_, R>,
    files: &F,
    names: &[&str],
    tally: &mut Tally,
    out: &mut W,
    err: &mut Progress<'_, C, E>,
) -> Result<Status, Status>
    ensures told { IfOk result (λ ended. AreOpened (F.has_content files.now) host.now.signatures.now host.now.crew.openers names.now host.now.wishes tally.old tally.new (W.contents out.old) (W.contents out.new) ended) }
    ensures so_far { OnErr result (AreTrueSoFar (F.has_content files.now) host.now.signatures.now host.now.crew.openers names.now host.now.wishes tally.old (W.contents out.old) (W.contents out.new)) }
    ensures failed { IfErr result (λ status. IsFault status) }
{
    let Ok(mut buffer) = vec![in host.alloc; 0u8; FILE_BUFFER] else {
        return Err(out_of_memory(err));
    };
    let mut done = 0usize;
    'groups: while done < names.len() {
        let rest = Group {
            names: &names[done..],
            before: done,
            all: names.len(),
        };
        let (volume, count) = read_group(host.alloc, files, rest, &mut buffer, err)?;
        let group = Group {
            names: &rest.names[..count],
            ..rest
        };
        let ended = host_group(host, volume, group, tally, out, err)?;
        if ended != Status::Done {
            return Ok(ended);
        }
        done += count;
    }
    Ok(Status::Done)
}

// A volume with the first of these files, as many as are a group, and how many they are.
fn read_group<F: Contents, C: Clock, E: Write>(
    alloc: Global,
    files: &F,
    rest: Group<'_>,
    buffer: &mut [u8],
    err: &mut Progress<'_, C, E>,
) -> Result<(Volume, usize), Status>
    requires { 1 ≤ length rest.names.now }
    ensures count { IfOk result (λ r. (1 ≤ r.1) × (r.1 ≤ length rest.entry.names.now)) }
    ensures files { IfOk result (λ r. HoldsContents (F.has_content files.now) (take r.1 rest.entry.names.now) r.0) }
    ensures failed { IfErr result (λ status. IsFault status) }
{
    let mut volume = empty_volume(alloc);
    match add_files(alloc, &mut volume, files, rest, buffer, err) {
        Ok(count) => Ok((volume, count)),
        Err(failed) => Err(failed),
    }
}

// Makes the first of these files streams of a volume, as many as are a group, and says how many they are.
fn add_files<F: Contents, C: Clock, E: Write>(
    alloc: Global,
    volume: &mut Volume,
    files: &F,
    rest: Group<'_>,
    buffer: &mut [u8],
    err: &mut Progress<'_, C, E>,
) -> Result<usize, Status>
    requires names { 1 ≤ length rest.names.now }
    requires empty { volume.old ≡ volume_of_files [] }
    ensures count { IfOk result (λ count. (1 ≤ count) × (count ≤ length rest.entry.names.now)) }
    ensures files { IfOk result (λ count. HoldsContents (F.has_content files.now) (take count rest.entry.names.now) volume.new) }
    ensures failed { IfErr result (λ status. IsFault status) }
{
    let mut count = 0usize;
    let mut bytes = 0usize;
    'files: for name in rest.names {
        err.step("read", rest.before.saturating_add(count), rest.all);
        let file = file_of(files, name, buffer);
        add_file(alloc, volume, file, err)?;
        count += 1;
        bytes = bytes.saturating_add(counted_bytes(file.content));
        if bytes >= GROUP_BYTES {
            break;
        }
    }
    err.wipe();
    Ok(count)
}

// A file, with its content where it can be read.
fn file_of<'a, F: Contents>(files: &F, name: &'a str, buffer: &'a mut [u8]) -> Input<'a>
    ensures name { result.name.now ≡ name.now }
    ensures content { IfSome (option_copied result.content) (λ bytes. F.has_content files.now name.now bytes) }
{
    let content = content_of(files, name, buffer);
    Input { name, content }
}
