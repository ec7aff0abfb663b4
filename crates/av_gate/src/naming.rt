ghost use Rattle.std.specs.Prelude.{◌≡◌};
ghost use Rattle.av_gate.specs.Book.{stream_of};

use av_base::StreamId;
use av_store::Volume;

/// The stream of a name, or 0 where there is none.
pub(crate) fn stream_of(volume: &Volume, name: &[u8]) -> StreamId
    ensures { result ≡ stream_of volume.now name.now }
{
    match volume.find(name) {
        Some(stream) => stream,
        None => StreamId::new(0),
    }
}
