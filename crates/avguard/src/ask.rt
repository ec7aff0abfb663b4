//! Asks a guard about files of names, lists and folders.

ghost use Rattle.std.specs.Prelude.{◌≡◌, ◌<◌, ◌++◌, [], ◌∷◌, false, length, map, IfErr, IfOk, IsSome, OnOk};
ghost use Rattle.std.specs.Io.KnownBytes.{Appends};
ghost use Rattle.std.specs.List.{All};
ghost use Rattle.av_base.specs.Device.{AppendsPrefix};
ghost use Rattle.av_client.specs.Asking.{AreAtTheirTags, IsOwedEach};
ghost use Rattle.av_status.specs.Status.{EndsWell, IsAsGrave, IsDoneOrFault, IsFault};
ghost use Rattle.av_status.specs.Tally.{concluded};
ghost use Rattle.av_status.specs.declared.status.Status.TheVariants.{Done};
ghost use Rattle.avguard.specs.Ask.{AreAsked, AreFoundAndAsked, AreNamedAndAsked, AreToldSoFar, IsToldSoFar, answered, asked_tally, names_found};
ghost use Rattle.avguard.specs.Told.{told_lines};

use crate::guarding::Guards;
use crate::inquiry::{Asking, Found, ask_one, asking_failed};
use crate::told::{Told, count_told, print_told};
use av_client::{Asker, Reply};
use av_files::{FILE_BUFFER, Met, Walk, conclude_opened};
use av_program::{Source, failing, is_folder, names_of, say_why};
use av_sockets::Meeting;
use av_sockets::fault::socket_failed;
use av_status::faults::{bad_entry, out_of_memory, say, text, unreadable};
use av_status::{Progress, Status, Tally, Wishes};
use avguard_words::Ask;
use std::alloc::{AllocError, Global};
use std::io::Write;

/// Asks a guard about files by their names, and writes a line for each that it answered, in the order given. One buffer holds what is
/// read of a file. Whatever the status, nothing was written but a front of these lines.
pub fn ask_named<R: Guards, W: Write, E: Write>(
    rt: &HostRuntime,
    system: &R,
    alloc: Global,
    asked: &Ask<'_>,
    out: &mut W,
    err: &mut Progress<'_, HostRuntime, E>,
) -> Status
    ensures so_far { IsToldSoFar asked.now.named.wishes (W.contents out.old) (W.contents out.new) }
    ensures asked { EndsWell result → AreNamedAndAsked asked.now (W.contents out.old) (W.contents out.new) result }
{
    let mut text = Vec::new(alloc);
    let mut tally = Tally::new();
    match names_of(
        rt,
        &asked.named,
        &mut text,
        failing(asked.finding),
        &mut tally,
        err,
    ) {
        Ok(names) => {
            let asking = &Asking {
                rt,
                system,
                alloc,
                asked,
            };
            ask_names(asking, names.as_slice(), tally.worst, out, err)
        }
        Err(status) => status,
    }
}

// The files that are asked about, and what went wrong while they were found.
#[derive(Drop)]
struct Finds {
    files: Vec<Found>,
    missed: Status,
}

// Asks about the files of these names, and about those below each that is a folder, where folders stand for files.
fn ask_names<R: Guards, W: Write, E: Write>(
    asking: &Asking<'_, R>,
    names: &[&str],
    missed: Status,
    out: &mut W,
    err: &mut Progress<'_, HostRuntime, E>,
) -> Status
    ensures so_far { IsToldSoFar asking.now.asked.now.named.wishes (W.contents out.old) (W.contents out.new) }
    ensures asked { EndsWell result → AreFoundAndAsked asking.now.asked.now.finding.is_recursive (map (λ n. n.now) names.now) missed asking.now.asked.now.named.wishes (W.contents out.old) (W.contents out.new) result }
{
    let mut finds = Finds {
        files: Vec::new(asking.alloc),
        missed,
    };
    match add_files(asking, names, &mut finds, err) {
        Ok(()) => ask_found(asking, &finds, out, err),
        Err(_) => out_of_memory(err),
    }
}

// Adds the files of these names, and those below each that is a folder, where folders stand for files.
#[tactic(auto, using(av_status::proofs::StatusLemmas::as_grave, av_status::proofs::StatusLemmas::grave_more))]
fn add_files<R: Guards, E: Write>(
    asking: &Asking<'_, R>,
    names: &[&str],
    finds: &mut Finds,
    err: &mut E,
) -> Result<(), AllocError>
    ensures since { IsAsGrave finds.old.missed finds.new.missed }
    ensures themselves { asking.now.asked.now.finding.is_recursive ≡ false → OnOk result
        ((names_found finds.new.files.items ≡ names_found finds.old.files.items ++ map (λ n. n.now) names.now)
        × (finds.new.missed ≡ finds.old.missed)) }
{
    'names: for name in names {
        if asking.asked.finding.is_recursive && is_folder(asking.rt, name) {
            let mut walk = Walk::new(asking.rt, asking.alloc, name)?;
            add_entries(asking, &mut walk, finds, err)?;
        } else {
            add_name(asking.alloc, name, &mut finds.files)?;
        }
    }
    Ok(())
}

fn add_name(alloc: Global, name: &str, files: &mut Vec<Found>) -> Result<(), AllocError>
    ensures { OnOk result (names_found files.new.items ≡ names_found files.old.items ++ name.now ∷ []) }
{
    let name = String::from_str(alloc, name)?;
    let source = Source::Named;
    files.push(Found { name, source })?;
    Ok(())
}

// Adds what a walk meets from here on.
#[tactic(auto, using(av_status::proofs::StatusLemmas::as_grave, av_status::proofs::StatusLemmas::grave_then))]
fn add_entries<R: Guards, E: Write>(
    asking: &Asking<'_, R>,
    walk: &mut Walk<'_, HostRuntime>,
    finds: &mut Finds,
    err: &mut E,
) -> Result<(), AllocError>
    ensures since { IsAsGrave finds.old.missed finds.new.missed }
{
    'entries: for _ in 0..u64::MAX {
        match walk.next()? {
            Some(Met::File(name)) => finds.files.push(Found {
                name,
                source: Source::Met,
            })?,
            Some(Met::Unreadable(path)) => {
                let path = path.as_str();
                finds.missed = finds.missed.or_graver(unreadable(err, path));
                say_why(asking.rt, asking.alloc, path, Source::Met, err);
            }
            Some(Met::NotText(path)) => {
                finds.missed = finds.missed.or_graver(bad_entry(err, path.as_slice()));
            }
            None => break,
        }
    }
    Ok(())
}

// Asks about files that were found.
fn ask_found<R: Guards, W: Write, E: Write>(
    asking: &Asking<'_, R>,
    finds: &Finds,
    out: &mut W,
    err: &mut Progress<'_, HostRuntime, E>,
) -> Status
    ensures so_far { IsToldSoFar asking.now.asked.now.named.wishes (W.contents out.old) (W.contents out.new) }
    ensures some { EndsWell result → 0 < length (names_found finds.now.files.items) }
    ensures asked { EndsWell result → AreAsked (names_found finds.now.files.items) finds.now.missed asking.now.asked.now.named.wishes (W.contents out.old) (W.contents out.new) result }
{
    let asked = asking.asked;
    let files = finds.files.as_slice();
    if files.is_empty() {
        return no_file(finds.missed, err);
    }
    let Ok(mut buffer) = vec![in asking.alloc; 0u8; FILE_BUFFER] else {
        return out_of_memory(err);
    };
    let meeting = Meeting::within(asked.opens, asked.wait);
    match Asker::connect(asking.system, asking.alloc, meeting) {
        Ok(mut asker) => ask_all(asking, &mut asker, finds, &mut buffer, out, err),
        Err(fault) => socket_failed(err, asked.opens, fault),
    }
}

// No file was found: nothing is judged, which is no good end.
fn no_file<E: Write>(missed: Status, err: &mut E) -> Status
    ensures { IsFault result }
{
    say(err, &[text("no file was asked about")]);
    match missed {
        Status::Done | Status::Found | Status::FoundInPart => Status::Refused,
        fault => fault,
    }
}

// The same, over a connection by which nothing was asked before.
fn ask_all<R: Guards, W: Write, E: Write>(
    asking: &Asking<'_, R>,
    asker: &mut Asker<'_, R>,
    finds: &Finds,
    buffer: &mut [u8],
    out: &mut W,
    err: &mut Progress<'_, HostRuntime, E>,
) -> Status
    requires { (asker.old.answers.items ≡ []) × (asker.old.owed ≡ 0) }
    ensures so_far { AreToldSoFar asker.new.answers.items asking.now.asked.now.named.wishes (W.contents out.old) (W.contents out.new) }
    ensures tags { AreAtTheirTags asker.old.answers.items → AreAtTheirTags asker.new.answers.items }
    ensures asked { EndsWell result → AreAsked (names_found finds.now.files.items) finds.now.missed asking.now.asked.now.named.wishes (W.contents out.old) (W.contents out.new) result }
{
    let mut names = Vec::new(asking.alloc);
    match ask_each(asking, asker, finds, &mut names, buffer, err) {
        Ok(ended) => {
            let ending = Ending {
                files: finds.files.as_slice().len(),
                ended: ended.or_graver(finished(asker, asking.asked.opens, err)),
                wishes: asking.asked.named.wishes,
            };
            let names = names.as_slice();
            print_answers(asking.alloc, names, asker.answers(), ending, out, err)
        }
        Err(status) => status,
    }
}

// Asks about each file in turn, and gives what went wrong of it, or of what ends it all. The names are of those that were asked about.
#[tactic(auto, using(av_status::proofs::StatusLemmas::as_grave, av_status::proofs::StatusLemmas::fault_stays, av_status::proofs::StatusLemmas::grave_then))]
fn ask_each<'b, R: Guards, E: Write>(
    asking: &Asking<'_, R>,
    asker: &mut Asker<'_, R>,
    finds: &'b Finds,
    names: &mut Vec<&'b str>,
    buffer: &mut [u8],
    err: &mut Progress<'_, HostRuntime, E>,
) -> Result<Status, Status>
    requires { (names.old.items ≡ []) × (asker.old.answers.items ≡ []) }
    ensures failed { IfErr result (λ status. IsFault status) }
    ensures tags { AreAtTheirTags asker.old.answers.items → AreAtTheirTags asker.new.answers.items }
    ensures owed { IsOwedEach asker.old.owed asker.old.answers.items → IsOwedEach asker.new.owed asker.new.answers.items }
    ensures since { IfOk result (λ ended. IsAsGrave finds.now.missed ended) }
    ensures all { IfOk result (λ ended. ended ≡ Done
        → (map (λ n. n.now) names.new.items ≡ names_found finds.now.files.items)
        × (length asker.new.answers.items ≡ length names.new.items)) }
{
    let files = finds.files.as_slice();
    let mut ended = finds.missed;
    'files: for (done, file) in files.iter().enumerate() {
        err.step("asked", done, files.len());
        let failed = match ask_one(asking, asker, file, buffer, err) {
            Ok(()) => {
                if names.push(file.name.as_str()).is_err() {
                    return Err(out_of_memory(err));
                }
                continue;
            }
            Err(failed) => failed,
        };
        ended = ended.or_graver(failed.status);
        if failed.is_last {
            break;
        }
        if !asking.asked.finding.keeps_going {
            return Err(failed.status);
        }
    }
    Ok(ended)
}

// Waits until all is answered, and gives what went wrong of it.
fn finished<R: Guards, E: Write>(
    asker: &mut Asker<'_, R>,
    socket: &str,
    err: &mut Progress<'_, HostRuntime, E>,
) -> Status
    ensures failed { IsDoneOrFault result }
    ensures tags { AreAtTheirTags asker.old.answers.items → AreAtTheirTags asker.new.answers.items }
    ensures places { length asker.new.answers.items ≡ length asker.old.answers.items }
    ensures all { IsOwedEach asker.old.owed asker.old.answers.items → result ≡ Done → All IsSome asker.new.answers.items }
{
    let heard = asker.finish();
    err.wipe();
    match heard {
        Ok(()) => Status::Done,
        Err(fault) => asking_failed(err, socket, "", fault, asker.answers()).status,
    }
}

// How a run ends that had so many files to ask about.
#[derive(Clone, Copy)]
struct Ending {
    files: usize,
    ended: Status,
    wishes: Wishes,
}

// Writes the lines of what was answered. A file that nobody judged is a fault as any other is, and the greatest counts.
#[tactic(auto, using(crate::proofs::AskLemmas::none_written))]
fn print_answers<W: Write, E: Write>(
    alloc: Global,
    names: &[&str],
    answers: &[Option<Reply>],
    ending: Ending,
    out: &mut W,
    err: &mut E,
) -> Status
    ensures lines { EndsWell result → Appends (W.contents out.old) (W.contents out.new) (told_lines ending.wishes (answered names.now answers.now)) }
    ensures ended { EndsWell result → result ≡ concluded ending.wishes (asked_tally (answered names.now answers.now) ending.files ending.ended) }
    ensures front { AppendsPrefix (W.contents out.old) (W.contents out.new) (told_lines ending.wishes (answered names.now answers.now)) }
{
    let Ok(told) = told_of(alloc, names, answers) else {
        return out_of_memory(err);
    };
    match print_told(alloc, told.as_slice(), ending.wishes, out, err) {
        Status::Done => {
            let mut tally = Tally::new();
            count_told(&mut tally, told.as_slice());
            let ended = ending.ended.or_graver(tally.worst);
            conclude_opened(tally, ending.files, ended, ending.wishes, err)
        }
        failed => failed,
    }
}

// The files that were answered.
fn told_of<'a>(
    alloc: Global,
    names: &[&'a str],
    answers: &[Option<Reply>],
) -> Result<Vec<Told<'a>>, AllocError>
    ensures { IfOk result (λ told. told.items ≡ answered names.now answers.now) }
{
    let mut told = Vec::new(alloc);
    'names: for (place, name) in names.iter().enumerate() {
        if let Some(Some(reply)) = answers.get(place) {
            let reply = *reply;
            if told.push(Told { name, reply }).is_err() {
                return Err(AllocError);
            }
        }
    }
    Ok(told)
}
