//! How a guard is asked about one content: as one, or in parts.

ghost use Rattle.std.specs.Prelude.{◌≡◌, ◌+◌, length, OnOk};
ghost use Rattle.av_client.specs.Asking.{AreAtTheirTags, IsOwedEach};
ghost use Rattle.av_client.specs.Again.{next_way_of};
ghost use Rattle.av_paths.specs.Content.{again_of, chance_of, manner_of};

use av_base::device::read_into;
use av_client::{Asker, AskingFault, Chance, Reply, Way, next_way};
use av_files::{MAX_FILE, TURNS};
use std::fs::OpenFile;
use std::io::Read;
use std::net::Net;
use std::time::Clock;

// The most bytes of a content that is asked about as one where contents in parts are taken.
const SHORT: usize = 65_536;

/// How a content is asked about: as one where it has at most so many bytes, and otherwise in parts or in vain.
#[derive(Clone, Copy)]
pub struct Manner {
    /// The most bytes of one that is asked about as one.
    pub most: usize,
    /// A larger one is not sent.
    pub is_in_vain: bool,
}

/// How a file is asked about in this way, whose size is known where it can be had once more. One that can't is asked about as one where
/// it is small enough, since a reply may want that, and else in parts.
pub fn manner_of(way: Way, size: Option<u64>) -> Manner
    ensures { result ≡ manner_of way size }
{
    match (way, size) {
        (Way::Parts, Some(_)) => Manner {
            most: SHORT,
            is_in_vain: false,
        },
        (Way::One, Some(_)) => Manner {
            most: MAX_FILE,
            is_in_vain: true,
        },
        (_, None) => Manner {
            most: MAX_FILE,
            is_in_vain: false,
        },
    }
}

/// Asks about a content, of which no more is held than the buffer has room for: 1,048,578 bytes are enough.
pub fn ask_content<R: Net + Clock, C: Read + Drop>(
    asker: &mut Asker<'_, R>,
    name: &str,
    content: C,
    manner: Manner,
    buffer: &mut [u8],
) -> Result<(), AskingFault>
    ensures asked { OnOk result (length asker.new.answers.items ≡ length asker.old.answers.items + 1) }
    ensures tags { AreAtTheirTags asker.old.answers.items → AreAtTheirTags asker.new.answers.items }
    ensures owed { IsOwedEach asker.old.owed asker.old.answers.items → IsOwedEach asker.new.owed asker.new.answers.items }
{
    let mut front = content.take((manner.most as u64).saturating_add(1));
    let Ok(count) = read_into(&mut front, buffer, TURNS) else {
        return Err(AskingFault::Unread);
    };
    let begun = buffer.get(..count).unwrap_or(b"".as_slice());
    if count <= manner.most {
        return asker.ask(name, begun);
    }
    if manner.is_in_vain {
        return asker.ask_in_vain(name);
    }
    let mut whole = begun.chain(front.into_inner());
    asker.ask_in_parts(name, &mut whole)
}

/// How the content that was asked about last is asked about again, where it is. One without a size can't be had once more.
pub fn way_again(answers: &[Option<Reply>], tries: u32, size: Option<u64>) -> Option<Way>
    ensures { result ≡ again_of answers.now tries size }
{
    match answers.last() {
        Some(Some(reply)) => way_after(*reply, tries, size),
        _ => None,
    }
}

// How a content is asked about again that had this reply, where it is.
fn way_after(reply: Reply, tries: u32, size: Option<u64>) -> Option<Way>
    ensures { result ≡ next_way_of reply (chance_of tries size) }
{
    next_way(
        reply,
        Chance {
            tries,
            is_kept: size.is_some(),
            is_small: size.unwrap_or(0) <= MAX_FILE as u64,
        },
    )
}

/// The size of a file that can be opened anew. What comes through a pipe is gone once it was read.
pub fn kept_size<F: OpenFile>(file: &F) -> Option<u64> {
    match file.metadata() {
        Ok(metadata) if metadata.is_file() => Some(metadata.len()),
        _ => None,
    }
}
