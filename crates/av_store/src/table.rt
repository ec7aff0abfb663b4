ghost use Rattle.std.specs.Prelude.{◌≡◌, ◌<◌, ℕ, List, [], ◌∷◌, ◌++◌, None, Some, OnOk, OnErr, IfErr, IfSome, if◌then◌else◌};
ghost use Rattle.std.specs.List.{AllByRecursion};
ghost use Rattle.std.specs.Map.{lookup};
ghost use Rattle.av_base.specs.Answers.{Steps, StepsAtOnce};
ghost use Rattle.av_store.specs.Content.{new_stream, written, cut_to};
ghost use Rattle.av_base.specs.declared.refusal.Refusal.TheVariants.{NoMemory};
ghost use Rattle.av_store.specs.Index.{at_name};
ghost use Rattle.av_store.specs.Rows.{is_same, stream_at};
ghost use Rattle.av_store.specs.Store.{stepped, removed};

use crate::content::Content;
use crate::fault::StoreFault;
use crate::stream::Stream;
use av_base::{ByteList, Generation, Limits, Refusal};
use std::alloc::Global;
use std::collections::BTreeMap;

/// Writes bytes over those of one stream from `offset` on.
pub fn write(
    rows: &mut BTreeMap<u64, Stream>,
    limits: &Limits,
    number: u64,
    offset: u64,
    bytes: &[u8],
) -> Result<(), Refusal<StoreFault>>
    ensures { Steps rows.old.entries rows.new.entries result
        (stepped rows.old.entries number (written limits.now offset bytes.now)) }
{
    let Some(stream) = rows.get_mut(&number) else {
        return Err(Refusal::Fault(StoreFault::NoStream));
    };
    stream.write(limits, offset, bytes)
}

/// Keeps the first bytes of one stream alone.
pub fn cut(
    rows: &mut BTreeMap<u64, Stream>,
    limits: &Limits,
    number: u64,
    length: u64,
) -> Result<(), StoreFault>
    ensures { StepsAtOnce rows.old.entries rows.new.entries result (stepped rows.old.entries number (cut_to limits.now length)) }
{
    let Some(stream) = rows.get_mut(&number) else {
        return Err(StoreFault::NoStream);
    };
    stream.cut(limits, length)
}

/// A new stream of this name, without bytes, under a number above those given.
pub fn add(
    alloc: Global,
    rows: &mut BTreeMap<u64, Stream>,
    names: &mut BTreeMap<Vec<u8>, u64>,
    number: u64,
    name: &[u8],
) -> Result<(), Refusal<StoreFault>>
    requires below { AllByRecursion (λ s. s.0 < number) rows.old.entries }
    requires absent { lookup (at_name name.now) names.old.entries ≡ None }
    ensures rows { OnOk result (rows.new.entries ≡ rows.old.entries ++ (number, new_stream name.now) ∷ []) }
    ensures names { OnOk result ((q : List ℕ) → lookup (at_name q) names.new.entries
        ≡ (if is_same q name.now then Some number else lookup (at_name q) names.old.entries)) }
    ensures refused { OnErr result ((rows.new.entries ≡ rows.old.entries) × (names.new.entries ≡ names.old.entries)) }
    ensures err { IfErr result (λ e. e ≡ NoMemory) }
{
    let key = name.to_vec(alloc)?;
    let stream = Stream {
        name: ByteList::copied(alloc, name)?,
        generation: Generation::new(1),
        bytes: Content::empty(alloc)?,
    };
    rows.insert(number, stream)?;
    if let Err(_refused) = names.insert(key, number) {
        let _ = rows.remove(&number);
        return Err(Refusal::NoMemory);
    }
    Ok(())
}

/// Takes one stream away, with its name.
pub fn remove(
    rows: &mut BTreeMap<u64, Stream>,
    names: &mut BTreeMap<Vec<u8>, u64>,
    number: u64,
) -> Result<(), StoreFault>
    ensures rows { StepsAtOnce rows.old.entries rows.new.entries result (removed rows.old.entries number) }
    ensures names { OnOk result (IfSome (stream_at number rows.old.entries) (λ s. (q : List ℕ)
        → lookup (at_name q) names.new.entries ≡ (if is_same q s.name then None else lookup (at_name q) names.old.entries))) }
    ensures refused { OnErr result (names.new.entries ≡ names.old.entries) }
{
    let Some(stream) = rows.remove(&number) else {
        return Err(StoreFault::NoStream);
    };
    let _ = names.remove(stream.name.as_slice());
    Ok(())
}
