ghost use Rattle.std.specs.Prelude.{◌≡◌, ◌+◌, None, Ok, IsOk, IfErr, IfOk, OnOk, OnErr};
ghost use Rattle.av_base.specs.Answers.{Answers};
ghost use Rattle.av_filter.specs.Conduct.{Changes, filter_refusal, filter_step};
ghost use Rattle.av_filter.specs.Fit.{Fits};
ghost use Rattle.av_filter.specs.Storing.{IsFaultOf, IsStored, IsUnkept, IsWhy};
ghost use Rattle.av_store.specs.Files.{Write};
ghost use Rattle.av_store.specs.Rows.{stream_at};
ghost use Rattle.av_store.specs.Store.{create_of, remove_of, write_of};

use crate::fault::FilterFault;
use crate::filter::Filter;
use av_base::{Refusal, StreamId};
use av_store::{StoreFault, Volume};
use std::alloc::Global;

/// A stream of this name comes to have this content: it is created, and written once. Where that is refused no stream is there,
/// and perhaps a number is spent.
pub(crate) fn store(
    alloc: Global,
    filter: &mut Filter,
    volume: &mut Volume,
    name: &[u8],
    content: &[u8],
) -> Result<StreamId, Refusal<StoreFault>>
    requires fits { Fits filter.old volume.old }
    ensures id { IfOk result (λ s. s ≡ volume.old.last + 1) }
    ensures stored { OnOk result (IsStored filter.old volume.old name.now content.now filter.new volume.new) }
    ensures err { OnErr result (IsUnkept filter.old volume.old filter.new volume.new) }
    ensures why { IfErr result (λ e. IsWhy volume.old name.now content.now e) }
    ensures fits { Fits filter.new volume.new }
{
    let stream = match create(alloc, filter, volume, name) {
        Ok(stream) => stream,
        Err(why) => return Err(why),
    };
    match write_once(alloc, filter, volume, stream, content) {
        Ok(()) => Ok(stream),
        Err(why) => {
            take_away(volume, stream);
            Err(why)
        }
    }
}

// It is written, from its front.
#[tactic(auto, unfolding(crate::specs::Conduct::filter_step))]
fn write_once(
    alloc: Global,
    filter: &mut Filter,
    volume: &mut Volume,
    stream: StreamId,
    content: &[u8],
) -> Result<(), Refusal<StoreFault>>
    requires fits { Fits filter.old volume.old }
    ensures table { OnOk result (filter.new ≡ (filter_step filter.old volume.old (Changes (Write stream 0 content.now))).table) }
    ensures volume { OnOk result (volume.new ≡ (filter_step filter.old volume.old (Changes (Write stream 0 content.now))).volume) }
    ensures taken { OnOk result (filter_refusal filter.old volume.old (Changes (Write stream 0 content.now)) ≡ None) }
    ensures err { OnErr result ((filter.new ≡ filter.old) × (volume.new ≡ volume.old)) }
    ensures why { IfErr result (λ e. IsFaultOf e (write_of volume.old stream 0 content.now)) }
    ensures fits { OnOk result (Fits filter.new volume.new) }
{
    match filter.write(alloc, volume, stream, 0, content) {
        Ok(_) => Ok(()),
        Err(Refusal::Fault(FilterFault::Store(fault))) => Err(Refusal::Fault(fault)),
        Err(_) => Err(Refusal::NoMemory),
    }
}

// It is taken away again.
fn take_away(volume: &mut Volume, stream: StreamId)
    requires there { IsOk (remove_of volume.old stream) }
    ensures gone { remove_of volume.old stream ≡ Ok volume.new }
{
    let _ = volume.remove(stream);
}

// A stream of this name is created.
#[tactic(auto, using(av_store::proofs::SeenLemmas::next_free))]
fn create(
    alloc: Global,
    filter: &Filter,
    volume: &mut Volume,
    name: &[u8],
) -> Result<StreamId, Refusal<StoreFault>>
    requires fits { Fits filter.now volume.old }
    ensures created { Answers volume.old volume.new result (create_of volume.old name.now) }
    ensures away { stream_at (volume.old.last + 1) volume.old.streams ≡ None }
    ensures fits { Fits filter.now volume.new }
{
    let _of_files = volume.last_created();
    volume.create(alloc, name)
}
