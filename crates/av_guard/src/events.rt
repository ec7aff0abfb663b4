ghost use Rattle.std.specs.Prelude.{◌≡◌, ◌+◌, ◌<◌, ◌≤◌, [], None, IfOk, OnOk, length, vec_len};
ghost use Rattle.std.specs.Vec.{vec_capacity};
ghost use Rattle.av_filter.specs.Call.{MeetsAlways};
ghost use Rattle.av_filter.specs.Conduct.{Changes, Disconnects, Opens, Receives, TimesOut, filter_refusal, filter_step};
ghost use Rattle.av_store.specs.Files.{Remove};
ghost use Rattle.av_store.specs.Store.{greatest};

use crate::given::Told;
use av_base::{Port, Refusal, StreamId, Version};
use av_filter::{Filter, Mounted, Out};
use av_frame::Message;
use std::alloc::{AllocError, Global};

/// Room for all that an event can answer: an answer to each open that waits, and one more.
pub(crate) fn room_for_answers(alloc: Global, filter: &Filter) -> Result<Vec<Told>, AllocError>
    ensures none { IfOk result (λ told. told.items ≡ []) }
    ensures room { IfOk result (λ told. vec_len told + (length filter.now.pended + 1) ≤ vec_capacity told) }
{
    match filter.pended_count().checked_add(1) {
        Some(most) => Vec::with_capacity(alloc, most),
        None => Err(AllocError),
    }
}

/// A message comes to the filter.
#[tactic(auto, unfolding(av_filter::specs::Conduct::filter_step))]
pub(crate) fn receive(
    alloc: Global,
    mounted: &mut Mounted,
    message: &Message,
) -> Result<Out, AllocError>
    ensures event { MeetsAlways mounted.old.table mounted.old.volume mounted.new.table mounted.new.volume result
        (filter_step mounted.old.table mounted.old.volume (Receives message.now)) }
    ensures few { IfOk result (λ out. length out.answers.items ≤ length mounted.old.table.pended + 1) }
    ensures still { mounted.new.volume ≡ mounted.old.volume }
{
    mounted.message(alloc, message)
}

/// The service of a port is lost.
#[tactic(auto, unfolding(av_filter::specs::Conduct::filter_step))]
pub(crate) fn disconnect(
    alloc: Global,
    mounted: &mut Mounted,
    port: Port,
) -> Result<Out, AllocError>
    ensures event { MeetsAlways mounted.old.table mounted.old.volume mounted.new.table mounted.new.volume result
        (filter_step mounted.old.table mounted.old.volume (Disconnects port)) }
    ensures few { IfOk result (λ out. length out.answers.items ≤ length mounted.old.table.pended + 1) }
    ensures still { mounted.new.volume ≡ mounted.old.volume }
{
    mounted.disconnect(alloc, port)
}

/// The time of a question is up.
pub(crate) fn time_out(alloc: Global, mounted: &mut Mounted, seq: u64) -> Result<Out, AllocError>
    ensures event { MeetsAlways mounted.old.table mounted.old.volume mounted.new.table mounted.new.volume result
        (filter_step mounted.old.table mounted.old.volume (TimesOut seq)) }
    ensures few { IfOk result (λ out. length out.answers.items ≤ length mounted.old.table.pended + 1) }
    ensures still { mounted.new.volume ≡ mounted.old.volume }
{
    mounted.timeout(alloc, seq)
}

/// A stream is opened, for any version.
#[tactic(auto, unfolding(av_filter::specs::Conduct::filter_step, av_filter::specs::Conduct::filter_refusal))]
pub(crate) fn open(
    alloc: Global,
    mounted: &mut Mounted,
    stream: StreamId,
) -> Result<Out, AllocError>
    requires { mounted.old.volume.opens < greatest }
    ensures event { MeetsAlways mounted.old.table mounted.old.volume mounted.new.table mounted.new.volume result
        (filter_step mounted.old.table mounted.old.volume (Opens stream 0)) }
    ensures few { IfOk result (λ out. length out.answers.items ≤ length mounted.old.table.pended + 1) }
{
    match mounted.open(alloc, stream, Version::new(0)) {
        Ok(out) => Ok(out),
        Err(Refusal::NoMemory) => Err(AllocError),
        Err(Refusal::Fault(_)) => unreachable!(),
    }
}

/// A stream is removed, which is there.
#[tactic(auto, unfolding(av_filter::specs::Conduct::filter_step, av_filter::specs::Conduct::filter_refusal))]
pub(crate) fn remove(
    alloc: Global,
    mounted: &mut Mounted,
    stream: StreamId,
) -> Result<Out, AllocError>
    ensures event { MeetsAlways mounted.old.table mounted.old.volume mounted.new.table mounted.new.volume result
        (filter_step mounted.old.table mounted.old.volume (Changes (Remove stream))) }
    ensures taken { OnOk result (filter_refusal mounted.old.table mounted.old.volume (Changes (Remove stream)) ≡ None) }
    ensures few { IfOk result (λ out. length out.answers.items ≤ length mounted.old.table.pended + 1) }
{
    match mounted.remove(alloc, stream) {
        Ok(out) => Ok(out),
        Err(_) => Err(AllocError),
    }
}
