ghost use Rattle.std.specs.Prelude.{◌≡◌, IsTrue};
ghost use Rattle.std.specs.List.{AllByRecursion};
ghost use Rattle.av_host.specs.Lines.{AreDeniedRight, AreOfTheirFiles, IsDeniedRight, IsOfItsFile, IsSameStream, IsTrueDenial, IsTrueFind};
ghost use Rattle.av_match.specs.Match.{verdict};
ghost use Rattle.av_sigset.specs.Set.{patterns_of};

use crate::signatures::Signatures;
use av_base::{Cause, StreamId, Verdict};
use av_files::opened::Opened;
use av_match::Scan;
use av_pend::Answer;
use av_store::Volume;

/// Whether the stream of each grant is the one that has the file's name in the volume, with the same content and generation in the other.
pub fn are_of_their_files(opened: &[Opened<'_>], volume: &Volume, other: &Volume) -> bool
    ensures { IsTrue result → AreOfTheirFiles volume.now other.now opened.now }
{
    'files: for line in opened {
        if !is_of_its_file(line.name, line.answer, volume, other) {
            return false;
        }
    }
    true
}

fn is_of_its_file(name: &str, answer: Answer, volume: &Volume, other: &Volume) -> bool
    ensures { IsTrue result → IsOfItsFile volume.now other.now name.now answer }
{
    match answer {
        Answer::Granted { stream, .. } => is_same_stream(name, stream, volume, other),
        _ => true,
    }
}

fn is_same_stream(name: &str, stream: StreamId, volume: &Volume, other: &Volume) -> bool
    ensures { IsTrue result → IsSameStream volume.now other.now name.now stream }
{
    if volume.find(name.as_bytes()) != Some(stream) {
        return false;
    }
    let (Some(here), Some(there)) = (volume.content(stream), other.content(stream)) else {
        return false;
    };
    if here != there {
        return false;
    }
    match (volume.generation(stream), other.generation(stream)) {
        (Some(first), Some(second)) => first == second,
        _ => false,
    }
}

/// Whether a signature of the set occurs in the content of each file that was denied for that cause. Each is scanned once more.
pub fn are_denied_right(opened: &[Opened<'_>], volume: &Volume, signatures: &Signatures) -> bool
    ensures { IsTrue result → AreDeniedRight volume.now signatures.now opened.now }
{
    'files: for line in opened {
        if !is_denied_right(line.name, line.answer, volume, signatures) {
            return false;
        }
    }
    true
}

fn is_denied_right(name: &str, answer: Answer, volume: &Volume, signatures: &Signatures) -> bool
    ensures { IsTrue result → IsDeniedRight volume.now signatures.now name.now answer }
{
    match answer {
        Answer::Denied { cause, .. } => is_true_denial(name, cause, volume, signatures),
        _ => true,
    }
}

fn is_true_denial(name: &str, cause: Cause, volume: &Volume, signatures: &Signatures) -> bool
    ensures { IsTrue result → IsTrueDenial volume.now signatures.now name.now cause }
{
    match cause {
        Cause::Infected => is_infected(name, volume, signatures),
        _ => true,
    }
}

fn is_infected(name: &str, volume: &Volume, signatures: &Signatures) -> bool
    ensures { IsTrue result → IsTrueFind volume.now signatures.now name.now }
{
    let Some(stream) = volume.find(name.as_bytes()) else {
        return false;
    };
    let Some(content) = volume.content(stream) else {
        return false;
    };
    match verdict_of(signatures, content) {
        Verdict::Clean => false,
        Verdict::Infected { .. } => true,
    }
}

// The verdict of a content, in one pass.
fn verdict_of(signatures: &Signatures, content: &[u8]) -> Verdict
    ensures { result ≡ verdict (patterns_of signatures.now.signatures) content.now }
{
    let automaton = signatures.automaton();
    let mut scan = Scan::start(automaton.version(), content.len() as u64);
    let _ = scan.feed(automaton, content);
    scan.end()
}
