ghost use Rattle.std.specs.Prelude.{◌≡◌, ◌≢◌, [], IfOk, OnOk};
ghost use Rattle.av_frame.specs.declared.end.End.TheVariants.{Done, Memory};
ghost use Rattle.av_sockets.specs.Run.{Adds, Leads, LeadsLate, LeadsOn, first};

use crate::duplex::{Duplex, Hearing, Saying};
use av_base::recorded::Recorded;
use av_base::{Limits, Mode, Port, Refusal, StreamId, Version};
use av_engines::{End, Exchange, Watched, serve_further};
use av_files::streams::empty_volume;
use av_filter::Mounted;
use av_pend::Answer;
use av_store::{BootSpent, StoreFault};
use std::alloc::{AllocError, Global};
use std::time::Clock;

// A fail-closed filter, on a volume of no stream: the files that are to be opened become its streams.
pub(crate) fn mount_empty(alloc: Global) -> Result<Mounted, Refusal<BootSpent>>
    ensures { IfOk result (λ m. m ≡ first) }
{
    let volume = empty_volume(alloc);
    match Mounted::mount(alloc, volume, Mode::FailClosed, Limits::greatest()) {
        Ok(mount) => Ok(mount),
        Err(refused) => Err(refused.why),
    }
}

// Makes a content a stream of this name, by one create and one write.
pub(crate) fn add(
    alloc: Global,
    mount: &mut Mounted,
    name: &[u8],
    content: &[u8],
) -> Result<StreamId, Refusal<StoreFault>>
    ensures { OnOk result (Adds mount.old mount.new name.now content.now) }
{
    mount.store(alloc, name, content)
}

// Opens these streams over the connection, once the filter is connected. Nothing ever connects its other port.
pub(crate) fn serve<C: Clock>(
    alloc: Global,
    mount: &mut Mounted,
    streams: &[StreamId],
    exchange: &mut Exchange,
    duplex: &Duplex<'_, C>,
) -> Watched
    requires idle { exchange.old.outgoing ≡ [] }
    ensures led { result.end ≢ Memory → Leads mount.old mount.new result.answers.items }
    ensures still { result.end ≢ Memory → mount.new.volume.streams ≡ mount.old.volume.streams }
    ensures idle { result.end ≡ Done → exchange.new.outgoing ≡ [] }
{
    let is_spent = mount.volume().opens_left() < streams.len() as u64;
    if is_spent || mount.filter().connected(Port::Two) {
        return Watched {
            end: End::Closed,
            answers: Vec::new(alloc),
        };
    }
    let mut reader = Recorded::new(Hearing { duplex });
    let mut writer = Recorded::new(Saying { duplex });
    serve_further(alloc, mount, streams, exchange, &mut reader, &mut writer)
}

// Opens a stream, with no service there: it is answered at once.
pub(crate) fn open(
    alloc: Global,
    mount: &mut Mounted,
    stream: StreamId,
    answers: &mut Vec<Answer>,
) -> Result<(), AllocError>
    ensures { OnOk result (LeadsOn mount.old answers.old.items mount.new answers.new.items) }
{
    let Ok(opened) = mount.open(alloc, stream, Version::new(0)) else {
        return Err(AllocError);
    };
    answers.extend_from_slice(opened.answers.as_slice())
}

// Takes a stream away, with what is known of it.
pub(crate) fn remove(alloc: Global, mount: &mut Mounted, stream: StreamId) -> Result<(), AllocError>
    ensures { OnOk result (LeadsLate mount.old mount.new) }
{
    match mount.remove(alloc, stream) {
        Ok(_) => Ok(()),
        Err(_) => Err(AllocError),
    }
}
