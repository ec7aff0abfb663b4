ghost use Rattle.std.specs.Prelude.{◌≡◌};
ghost use Rattle.av_filter_table.specs.Answering.{present_generation};

use av_base::{Generation, StreamId};
use av_store::Volume;

/// The present generation of a stream; 0 where it is not there.
pub fn generation_now(volume: &Volume, stream: StreamId) -> Generation
    ensures { result ≡ present_generation volume.now stream }
{
    match volume.generation(stream) {
        Some(generation) => generation,
        None => Generation::new(0),
    }
}
