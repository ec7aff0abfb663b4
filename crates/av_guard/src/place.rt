ghost use Rattle.std.specs.Prelude.{◌≡◌, ◌-◌};
ghost use Rattle.av_guard.specs.Place.{IsPlace, has_bytes, place_from};
ghost use Rattle.av_guard.specs.Naming.{name_of, stem_of};

use crate::naming::{Name, push_letters, stem_of};
use av_base::StreamId;
use av_store::Volume;
use std::hash::RandomState;

/// Where a content is in a volume.
#[derive(Drop)]
pub(crate) enum Place {
    /// The stream has exactly these bytes.
    Kept { stream: StreamId },
    /// No stream has them under the names before this one, which is free.
    Free { name: Name },
    /// Other contents have all its names.
    Nowhere,
}

/// How many names a content has. No look-up compares its bytes with more contents than that.
const NAMES: u64 = 16;

/// Where a content is in a volume: by its names in order, the first that is free or that a stream of the same bytes has.
/// The bytes are compared, so no answer depends on the hash. Its cost does: a look at each byte of the content, and once
/// more for each content of the same length and hash, at most 16 times. It takes no memory.
#[tactic(auto, using(crate::proofs::NameLemmas::place_step, crate::proofs::NameLemmas::place_end), unfolding(crate::specs::Naming::name_of))]
pub(crate) fn place_of(key: RandomState, volume: &Volume, content: &[u8]) -> Place
    ensures { IsPlace result (place_from 16 0 key volume.now content.now) }
{
    let mut name = stem_of(key, content);
    'names: for number in 0..NAMES {
        name.truncate(32);
        push_letters(&mut name, number);
        let Some(stream) = volume.find(name.as_slice()) else {
            return Place::Free { name };
        };
        if has_bytes(volume, stream, content) {
            return Place::Kept { stream };
        }
    }
    Place::Nowhere
}

// Whether a stream has exactly these bytes.
fn has_bytes(volume: &Volume, stream: StreamId, content: &[u8]) -> bool
    ensures { result ≡ has_bytes volume.now stream content.now }
{
    match volume.content(stream) {
        Some(bytes) => bytes == content,
        None => false,
    }
}
