//! The set of a signature file that is named. A bad line is told with the file and in words, since there may be several files.

ghost use Rattle.std.specs.Prelude.{ℕ, ◌≡◌, ◌<◌, IfErr, IfOk, List, Ok, Option, length};
ghost use Rattle.av_sets.specs.Sets.{IsTextOf, IsTrusted};
ghost use Rattle.av_sigset.specs.File.{MayStand};
ghost use Rattle.av_sigset.specs.Judge.{set_of};
ghost use Rattle.av_status.specs.Status.{IsFault};

use av_base::Refusal;
use av_files::{FILE_BUFFER, admit_set};
use av_program::{Source, read_file, say_why};
use av_sets::trusted_text;
use av_sigset::SignatureSet;
use av_status::faults::{EmptySets, bad_set_line, out_of_memory};
use av_status::status::Status;
use av_trust::Trust;
use std::alloc::Global;
use std::io::Write;

/// The set of the signature file of this name, which has signatures, as far as it is trusted.
pub fn set_of<E: Write>(
    rt: &HostRuntime,
    alloc: Global,
    name: &str,
    trust: Trust<'_>,
    err: &mut E,
) -> Result<SignatureSet, Status>
    ensures trusted { IfOk result (IsTrusted trust.entry) }
    ensures some { IfOk result (λ set. 0 < length set.signatures) }
    ensures stand { IfOk result (λ set. MayStand set.signatures) }
    ensures fault { IfErr result (λ status. IsFault status) }
{
    let Ok(mut buffer) = vec![in alloc; 0u8; FILE_BUFFER] else {
        return Err(out_of_memory(err));
    };
    let text = text_named(rt, alloc, name, trust, &mut buffer, err)?;
    set_in(alloc, name, text, err)
}

/// The text of the signature file of this name, as far as it is trusted.
pub fn text_named<'a, E: Write>(
    rt: &HostRuntime,
    alloc: Global,
    name: &'a str,
    trust: Trust<'_>,
    buffer: &'a mut [u8],
    err: &mut E,
) -> Result<&'a [u8], Status>
    ensures text { IfOk result (λ text. (content : Option (List ℕ)) × IsTextOf trust.entry content text.now) }
    ensures fault { IfErr result (λ status. IsFault status) }
{
    let file = read_file(rt, name, buffer);
    let is_read = file.content.is_some();
    match trusted_text(trust, file, err) {
        Ok(text) => Ok(text),
        Err(status) => {
            if !is_read {
                say_why(rt, alloc, name, Source::Other, err);
            }
            Err(status)
        }
    }
}

/// The set that this text spells, which has signatures.
#[tactic(auto, using(crate::proofs::MergeLemmas::spelt_stands))]
pub fn set_in<E: Write>(
    alloc: Global,
    name: &str,
    text: &[u8],
    err: &mut E,
) -> Result<SignatureSet, Status>
    ensures spelt { IfOk result (λ set. set_of text.now ≡ Ok set) }
    ensures some { IfOk result (λ set. 0 < length set.signatures) }
    ensures stand { IfOk result (λ set. MayStand set.signatures) }
    ensures fault { IfErr result (λ status. IsFault status) }
{
    let set = match SignatureSet::read(alloc, text) {
        Ok(set) => set,
        Err(Refusal::Fault(fault)) => return Err(bad_set_line(err, name, fault)),
        Err(Refusal::NoMemory) => return Err(out_of_memory(err)),
    };
    match admit_set(&set, name, EmptySets::Refused, err) {
        Ok(()) => Ok(set),
        Err(status) => Err(status),
    }
}
