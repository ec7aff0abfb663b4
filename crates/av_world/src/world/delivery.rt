ghost use Rattle.std.specs.Prelude.{◌≡◌, IfSome, Some};
ghost use Rattle.av_history.specs.World.{member};

use av_frame::encode::encode_into;
use av_frame::laws::no_frame_begins_another;
use av_frame::{Feed, Message};
use std::alloc::Global;

/// The message at a place, counted from 1, as it comes out where it is delivered. None where none stands there, or memory
/// is refused.
#[tactic(auto, using(crate::proofs::DeliveryLemmas::carried_at))]
pub fn delivered(alloc: Global, sent: &Vec<Message>, place: u64) -> Option<Message>
    ensures { IfSome result (λ m. member sent.now.items place ≡ Some m) }
{
    let index = place.checked_sub(1)? as usize;
    carried(alloc, sent.get(index)?)
}

// What comes out where a message is carried over: its frame is fed to a fresh feed.
fn carried(alloc: Global, message: &Message) -> Option<Message>
    ensures { IfSome result (λ m. m ≡ message.now) }
{
    let mut frame = Vec::new(alloc);
    encode_into(message, &mut frame).ok()?;
    let mut feed = Feed::new(alloc);
    feed.push(frame.as_slice()).ok()?;
    no_frame_begins_another();
    let _ = message.body();
    match feed.next() {
        Ok(Some(message)) => Some(message),
        _ => None,
    }
}
