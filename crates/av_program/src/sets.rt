ghost use Rattle.std.specs.Prelude.{IfErr, IfOk};
ghost use Rattle.av_files.specs.Scan.{IsAdmitted};
ghost use Rattle.av_sets.specs.Sets.{IsTrusted};
ghost use Rattle.av_status.specs.Status.{IsFault};

use crate::reading::{Source, read_file, reasons, say_why};
use av_base::Refusal;
use av_files::{FILE_BUFFER, Input, MAX_FILE, admit_set};
use av_sets::read_trusted;
use av_sigset::SignatureSet;
use av_status::Status;
use av_status::faults::{EmptySets, Reasons, out_of_memory, say_set_reason};
use av_trust::{Trust, text_of};
use std::alloc::Global;
use std::io::Write;

/// The set of the signature file of this name, as far as it is trusted.
pub fn set_named<E: Write>(
    rt: &HostRuntime,
    alloc: Global,
    name: &str,
    trust: Trust<'_>,
    empty_sets: EmptySets,
    err: &mut E,
) -> Result<SignatureSet, Status>
    ensures trusted { IfOk result (IsTrusted trust.entry) }
    ensures admitted { IfOk result (IsAdmitted empty_sets) }
    ensures status { IfErr result (λ status. IsFault status) }
{
    let Ok(mut buffer) = vec![in alloc; 0u8; FILE_BUFFER] else {
        return Err(out_of_memory(err));
    };
    let file = read_file(rt, name, &mut buffer);
    match read_trusted(alloc, trust, file, err) {
        Ok(set) => match admit_set(&set, name, empty_sets, err) {
            Ok(()) => Ok(set),
            Err(status) => Err(status),
        },
        Err(status) => {
            say_why_set(rt, alloc, file, trust, err);
            Err(status)
        }
    }
}

// Gives the reason why a signature file was refused, where reasons are given.
fn say_why_set<E: Write>(
    rt: &HostRuntime,
    alloc: Global,
    file: Input<'_>,
    trust: Trust<'_>,
    err: &mut E,
) {
    let reasons = reasons(rt);
    if reasons == Reasons::Omitted {
        return;
    }
    let Some(content) = file.content else {
        say_why(rt, alloc, file.name, Source::Other, err);
        return;
    };
    if content.len() > MAX_FILE {
        return;
    }
    let Ok(text) = text_of(trust, content) else {
        return;
    };
    if let Err(Refusal::Fault(fault)) = SignatureSet::read(alloc, text) {
        say_set_reason(err, reasons, file.name, fault);
    }
}
