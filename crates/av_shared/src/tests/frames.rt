// Frames on their way.
use av_frame::encode::encode_into;
use av_frame::{Feed, Message};
use std::alloc::Global;

// A message as the other side reads it from its frame; None where memory is refused.
pub fn over_a_frame(alloc: Global, feed: &mut Feed, message: &Message) -> Option<Message> {
    let mut frame = Vec::new(alloc);
    encode_into(message, &mut frame).ok()?;
    feed.push(frame.as_slice()).ok()?;
    feed.next().ok()?
}
