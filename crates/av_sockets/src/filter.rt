ghost use Rattle.std.specs.Prelude.{◌≡◌, [], IfErr, IfOk, IsTrue, OnErr, OnOk, Some, map};
ghost use Rattle.std.specs.Io.KnownBytes.{Appends};
ghost use Rattle.std.specs.List.{zip};
ghost use Rattle.std.specs.Option.{option_copied, option_map};
ghost use Rattle.std.specs.List.Sorted.{IsNonDecreasingBy, IsPermutation};
ghost use Rattle.av_files.specs.Opened.{opened_lines};
ghost use Rattle.av_pend.specs.Pend.{open_of};
ghost use Rattle.av_sockets.specs.Filter.{AreFiltered, AreInOrder, AreOpenedInPart, AreTold, AreToldSoFar, GoesOn, GoesOnInPart, IsTold, IsToldInPart, OpensStreams, opened_as};
ghost use Rattle.av_sockets.specs.Run.{AreOfTheirStreams, IsContentIn, IsItsStream, IsOfItsStream, first};
ghost use Rattle.av_status.specs.Status.{EndsWell, IsFault};
ghost use Rattle.av_status.specs.Tally.{no_files};
ghost use Rattle.av_store.specs.Rows.{number_named, stream_at};

use crate::opener::Opener;
use crate::sockets::Meeting;
use av_base::{Generation, StreamId};
use av_files::contents::{Contents, content_of};
use av_files::opened::{Opened, conclude_opened, count_opened, print_opened};
use av_files::scanner::FILE_BUFFER;
use av_pend::Answer;
use av_status::faults::{not_certified, out_of_memory};
use av_status::progress::Progress;
use av_status::status::Status;
use av_status::tally::{Tally, Wishes};
use av_store::Volume;
use std::alloc::{AllocError, Global};
use std::fs::Files;
use std::io::Write;
use std::net::Net;
use std::time::Clock;

/// A filter that opens files: the system and its memory, the socket at which a service may join it, the rights of that socket, and where
/// contents come from.
#[derive(Drop)]
pub struct Filtering<'a, R, F> {
    pub rt: &'a R,
    pub alloc: Global,
    pub meeting: Meeting<'a>,
    pub mode: u32,
    pub files: &'a F,
}

// Files by their names, and where their contents come from.
#[derive(Drop)]
struct Listed<'a, 'b, F> {
    files: &'b F,
    names: &'b [&'a str],
}

/// Opens files by their names, through a filter that one service may join at a socket, and writes a line for
/// each, in the order given, as far as it is to be shown. An open that no service has answered is denied. The files are read and
/// held a group at a time, the first one before the socket is made; one that can't be read ends it behind the lines of the groups
/// before. Each line that was written is an answer of the filter, also in a run that ends with a fault, and each grant is of the content
/// that was read for the file's name.
pub fn filter_files<R: Files + Net + Clock, F: Contents, C: Clock, W: Write, E: Write>(
    filtering: Filtering<'_, R, F>,
    names: &[&str],
    wishes: Wishes,
    out: &mut W,
    err: &mut Progress<'_, C, E>,
) -> Status
    ensures so_far { AreToldSoFar (F.has_content filtering.entry.files.now) wishes no_files (W.contents out.old) first names.now (W.contents out.new) }
    ensures filtered { EndsWell result → AreFiltered (F.has_content filtering.entry.files.now) names.now wishes (W.contents out.old) (W.contents out.new) result }
{
    let Filtering {
        rt,
        alloc,
        meeting,
        mode,
        files,
    } = filtering;
    let Ok(mut opener) = Opener::new(rt, alloc, meeting, mode) else {
        return out_of_memory(err);
    };
    let named = Listed { files, names };
    let status = filter_over(&mut opener, &named, wishes, out, err);
    opener.end();
    status
}

// The same, by this opener.
fn filter_over<'a, R: Files + Net + Clock, F: Contents, C: Clock, W: Write, E: Write>(
    opener: &mut Opener<'a, R>,
    named: &Listed<'a, '_, F>,
    wishes: Wishes,
    out: &mut W,
    err: &mut Progress<'_, C, E>,
) -> Status
    requires first { opener.old.mount ≡ first }
    requires empty { opener.old.group.names.items ≡ [] }
    ensures so_far { AreToldSoFar (F.has_content named.now.files.now) wishes no_files (W.contents out.old) first named.now.names.now (W.contents out.new) }
    ensures filtered { EndsWell result → AreFiltered (F.has_content named.now.files.now) named.now.names.now wishes (W.contents out.old) (W.contents out.new) result }
{
    let mut tally = Tally::new();
    match open_all(opener, named, wishes, &mut tally, out, err) {
        Ok(()) => {
            let ended = opener.told(err);
            conclude_opened(tally, named.names.len(), ended, wishes, err)
        }
        Err(failed) => failed,
    }
}

// Reads and opens the files, a group after the other.
fn open_all<'a, R: Files + Net + Clock, F: Contents, C: Clock, W: Write, E: Write>(
    opener: &mut Opener<'a, R>,
    named: &Listed<'a, '_, F>,
    wishes: Wishes,
    tally: &mut Tally,
    out: &mut W,
    err: &mut Progress<'_, C, E>,
) -> Result<(), Status>
    requires empty { opener.old.group.names.items ≡ [] }
    requires none { opener.old.mount.volume.streams ≡ [] }
    ensures told { OnOk result
        (AreTold (F.has_content named.now.files.now) wishes tally.old (W.contents out.old) opener.old.mount named.now.names.now tally.new
        (W.contents out.new) opener.new.mount) }
    ensures so_far { OnErr result
        (AreToldSoFar (F.has_content named.now.files.now) wishes tally.old (W.contents out.old) opener.old.mount named.now.names.now (W.contents out.new)) }
    ensures failed { IfErr result (λ status. IsFault status) }
{
    let Ok(mut buffer) = vec![in opener.alloc; 0u8; FILE_BUFFER] else {
        return Err(out_of_memory(err));
    };
    let Listed { files, names } = *named;
    let mut count = 0usize;
    'files: for name in names {
        err.step("read", count, names.len());
        count = count.saturating_add(1);
        let content = content_of(files, name, &mut buffer);
        let file = Read {
            name: *name,
            content,
        };
        go_on(opener, file, wishes, tally, out, err)?;
    }
    open_group(opener, wishes, tally, out, err)
}

// A file that was read: its name, and its content, where it could be read.
#[derive(Clone, Copy)]
struct Read<'a, 'b> {
    name: &'a str,
    content: Option<&'b [u8]>,
}

// Takes a file that was read into its group, and opens the group where it is full.
fn go_on<'a, R: Files + Net + Clock, C: Clock, W: Write, E: Write>(
    opener: &mut Opener<'a, R>,
    file: Read<'a, '_>,
    wishes: Wishes,
    tally: &mut Tally,
    out: &mut W,
    err: &mut Progress<'_, C, E>,
) -> Result<(), Status>
    ensures goes_on { OnOk result
        (GoesOn wishes file.entry.name (option_copied file.entry.content) opener.old.group.names.items opener.new.group.names.items tally.old
        tally.new (W.contents out.old) (W.contents out.new) opener.old.mount opener.new.mount) }
    ensures part { OnErr result
        (GoesOnInPart wishes file.entry.name (option_copied file.entry.content) opener.old.group.names.items (W.contents out.old)
        (W.contents out.new) opener.old.mount) }
    ensures failed { IfErr result (λ status. IsFault status) }
{
    opener.add(file.name, file.content, err)?;
    if !opener.group.is_full() {
        return Ok(());
    }
    open_group(opener, wishes, tally, out, err)
}

// Opens the files of the group, once it was waited for a service, writes their lines, and takes their streams away.
fn open_group<R: Files + Net + Clock, C: Clock, W: Write, E: Write>(
    opener: &mut Opener<'_, R>,
    wishes: Wishes,
    tally: &mut Tally,
    out: &mut W,
    err: &mut Progress<'_, C, E>,
) -> Result<(), Status>
    ensures opened { OnOk result
        (OpensStreams wishes opener.old.group.names.items tally.old tally.new (W.contents out.old) (W.contents out.new)
        opener.old.mount opener.new.mount) }
    ensures part { OnErr result
        (AreOpenedInPart (IsContentIn opener.old.mount.volume.streams) wishes opener.old.group.names.items (W.contents out.old)
        (W.contents out.new) opener.old.mount) }
    ensures empty { OnOk result (opener.new.group.names.items ≡ []) }
    ensures failed { IfErr result (λ status. IsFault status) }
{
    err.wipe();
    opener.meet();
    let Ok(answers) = opener.open() else {
        return Err(out_of_memory(err));
    };
    tell(opener, answers, wishes, tally, out, err)?;
    if opener.clear().is_err() {
        return Err(out_of_memory(err));
    }
    Ok(())
}

// Writes the lines of the files of the group, and counts them.
fn tell<R: Files + Net + Clock, W: Write, E: Write>(
    opener: &Opener<'_, R>,
    answers: Vec<Answer>,
    wishes: Wishes,
    tally: &mut Tally,
    out: &mut W,
    err: &mut E,
) -> Result<(), Status>
    ensures told { OnOk result
        (IsTold (IsContentIn opener.now.mount.volume.streams) wishes opener.now.group.names.items answers.items
        opener.now.mount.volume tally.old tally.new (W.contents out.old) (W.contents out.new)) }
    ensures part { OnErr result
        (IsToldInPart (IsContentIn opener.now.mount.volume.streams) wishes opener.now.group.names.items answers.items
        opener.now.mount.volume (W.contents out.old) (W.contents out.new)) }
    ensures failed { IfErr result (λ status. IsFault status) }
{
    match print_answers(opener, answers, wishes, out, err) {
        Ok(opened) => {
            count_opened(tally, opened.as_slice());
            Ok(())
        }
        Err(failed) => Err(failed),
    }
}

// Writes the lines, in the order of the files, which is that of the opens' numbers, and gives the files with their answers. None is
// written where a grant is not of the file's stream as it is.
fn print_answers<'a, R: Files + Net + Clock, W: Write, E: Write>(
    opener: &Opener<'a, R>,
    answers: Vec<Answer>,
    wishes: Wishes,
    out: &mut W,
    err: &mut E,
) -> Result<Vec<Opened<'a>>, Status>
    ensures ordered { IfOk result (λ opened. AreInOrder opener.now.group.names.items answers.items opened.items) }
    ensures named { IfOk result (λ opened.
        AreOfTheirStreams (IsContentIn opener.now.mount.volume.streams) opener.now.mount.volume opened.items) }
    ensures printed { IfOk result (λ opened. Appends (W.contents out.old) (W.contents out.new) (opened_lines wishes opened.items)) }
    ensures part { OnErr result
        (IsToldInPart (IsContentIn opener.now.mount.volume.streams) wishes opener.now.group.names.items answers.items
        opener.now.mount.volume (W.contents out.old) (W.contents out.new)) }
    ensures failed { IfErr result (λ status. IsFault status) }
{
    let names = opener.group.names.as_slice();
    let answers = in_order(answers);
    let Ok(opened) = named(opener.alloc, names, answers.as_slice()) else {
        return Err(out_of_memory(err));
    };
    if !are_of_their_streams(opened.as_slice(), opener.volume()) {
        return Err(not_certified(err));
    }
    match print_opened(opener.alloc, opened.as_slice(), wishes, out, err) {
        Status::Done => Ok(opened),
        failed => Err(failed),
    }
}

// Whether each grant is of the stream that has the file's name, of its present generation.
fn are_of_their_streams(opened: &[Opened<'_>], volume: &Volume) -> bool
    ensures { IsTrue result → AreOfTheirStreams (IsContentIn volume.now.streams) volume.now opened.now }
{
    'files: for line in opened {
        if !is_of_its_stream(line.name, line.answer, volume) {
            return false;
        }
    }
    true
}

fn is_of_its_stream(name: &str, answer: Answer, volume: &Volume) -> bool
    ensures { IsTrue result → IsOfItsStream (IsContentIn volume.now.streams) volume.now name.now answer }
{
    match answer {
        Answer::Granted {
            stream,
            generation,
            ..
        } => is_stream_of(name, stream, generation, volume),
        _ => true,
    }
}

fn is_stream_of(name: &str, stream: StreamId, generation: Generation, volume: &Volume) -> bool
    ensures { IsTrue result → IsItsStream (IsContentIn volume.now.streams) volume.now name.now stream generation }
{
    let _of_files = volume.last_created();
    is_named(name, stream, volume) && is_of_generation(stream, generation, volume)
}

fn is_named(name: &str, stream: StreamId, volume: &Volume) -> bool
    ensures { IsTrue result → number_named name.now volume.now.streams ≡ Some stream }
{
    volume.find(name.as_bytes()) == Some(stream)
}

fn is_of_generation(stream: StreamId, generation: Generation, volume: &Volume) -> bool
    ensures { IsTrue result → option_map (λ s. s.generation) (stream_at stream volume.now.streams) ≡ Some generation }
{
    volume.generation(stream) == Some(generation)
}

// The answers in the order of their opens.
fn in_order(mut answers: Vec<Answer>) -> Vec<Answer>
    ensures same { IsPermutation answers.items result.items }
    ensures ascending { IsNonDecreasingBy open_of result.items }
{
    answers.sort_unstable_by_key(|answer| number_of(answer));
    answers
}

// Each name with the answer at its place.
fn named<'a>(
    alloc: Global,
    names: &[&'a str],
    answers: &[Answer],
) -> Result<Vec<Opened<'a>>, AllocError>
    ensures { IfOk result (λ opened. opened.items ≡ map opened_as (zip names.now answers.now)) }
{
    names
        .iter()
        .zip(answers)
        .map(|(name, answer)| Opened {
            name,
            answer: *answer,
        })
        .collect(alloc)
}

// The number of the open that is answered.
fn number_of(answer: &Answer) -> u64
    ensures { result ≡ open_of answer.now }
{
    match answer {
        Answer::Granted { open_id, .. }
        | Answer::Unscanned { open_id, .. }
        | Answer::Denied { open_id, .. } => open_id.get(),
    }
}
