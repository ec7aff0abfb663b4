//! Asks a guard about a file, over a connection by which nothing else is asked meanwhile.

ghost use Rattle.std.specs.Prelude.{◌≡◌, length, IfOk};
ghost use Rattle.av_client.specs.Asking.{AreAtTheirTags, tag_of};

use crate::content::{ask_content, kept_size, manner_of, way_again};
use crate::opening::{Opens, Place};
use av_client::{Asker, AskingFault, Reply, Way};
use av_program::open_met;

/// Asks about a regular file, and waits for the reply. Where the guard says that it is to be asked again, the file is opened anew, up to
/// three times.
pub(crate) fn ask_file<R: Opens>(
    place: &Place<'_, R>,
    asker: &mut Asker<'_, R>,
    name: &str,
    buffer: &mut [u8],
) -> Result<Reply, AskingFault>
    ensures tag { AreAtTheirTags asker.old.answers.items → IfOk result (λ reply. tag_of reply ≡ length asker.new.answers.items) }
    ensures tags { AreAtTheirTags asker.old.answers.items → AreAtTheirTags asker.new.answers.items }
{
    let way = if asker.takes_parts() {
        Way::Parts
    } else {
        Way::One
    };
    let mut size = ask_once(place, asker, name, way, buffer)?;
    'tries: for tries in 0..u32::MAX {
        let Some(way) = way_again(asker.answers(), tries, size) else {
            break;
        };
        if asker.forget_last().is_none() {
            break;
        }
        size = ask_once(place, asker, name, way, buffer)?;
    }
    answer_of(asker)
}

// Opens a file, asks about it, and waits until that is answered. It gives the file's size where it can be had once more.
fn ask_once<R: Opens>(
    place: &Place<'_, R>,
    asker: &mut Asker<'_, R>,
    name: &str,
    way: Way,
    buffer: &mut [u8],
) -> Result<Option<u64>, AskingFault>
    ensures { AreAtTheirTags asker.old.answers.items → AreAtTheirTags asker.new.answers.items }
{
    let Some(content) = open_met(place.system, name) else {
        return Err(AskingFault::Unread);
    };
    let size = kept_size(&content);
    ask_content(asker, name, content, manner_of(way, size), buffer)?;
    finish(asker)?;
    Ok(size)
}

/// The reply to what was asked about last, which is taken back: the connection keeps none.
#[tactic(auto, using(crate::proofs::ReplyLemmas::last_tag))]
pub(crate) fn answer_of<R: Opens>(asker: &mut Asker<'_, R>) -> Result<Reply, AskingFault>
    ensures tag { AreAtTheirTags asker.old.answers.items → IfOk result (λ reply. tag_of reply ≡ length asker.new.answers.items) }
    ensures tags { AreAtTheirTags asker.old.answers.items → AreAtTheirTags asker.new.answers.items }
{
    finish(asker)?;
    match asker.forget_last() {
        Some(reply) => Ok(reply),
        None => Err(AskingFault::Lost),
    }
}

// Waits until all is answered.
#[tactic(auto, using(crate::proofs::ReplyLemmas::kept_tags))]
fn finish<R: Opens>(asker: &mut Asker<'_, R>) -> Result<(), AskingFault>
    ensures { AreAtTheirTags asker.old.answers.items → AreAtTheirTags asker.new.answers.items }
{
    asker.finish()
}
