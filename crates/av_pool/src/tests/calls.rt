// Works that a desk lends, and what comes out of a pool, as plain data.
ghost use Rattle.std.specs.Prelude.{◌≡◌};

use crate::{Giver, Stopped, Taker};
use av_base::{ByteList, Generation, Limits, MessageId, Port, StreamId, Verdict, Version};
use av_desk::{Desk, Lent, Taken};
use av_frame::{Body, Message};
use av_service::Done;
use av_sigset::{Catalogue, SignatureSet};
use std::alloc::{AllocError, Global};
use std::sync::Wait;

// A lease, and the verdict of the hit under it, if there was one.
pub type Told = (u64, Option<Verdict>);

// What a content that ends in the pattern has.
pub const HIT: Option<Verdict> = Some(Verdict::Infected {
    index: 0,
    end_at: 3,
});

// A desk where the pattern XX is published as version 1, and which is connected.
pub fn desk<R: Wait>(rt: &R, alloc: Global) -> Option<Desk> {
    let pattern: &[u8] = b"XX";
    let set = SignatureSet::from_patterns(alloc, Version::new(1), &[pattern]).ok()?;
    let mut catalogue = Catalogue::new(alloc);
    catalogue.publish(set).ok()?;
    let desk = Desk::new(alloc, 7, Port::One, catalogue, Limits::greatest()).ok()?;
    desk.connect(rt, alloc).ok()?;
    Some(desk)
}

// A work of the content of this stream, which is these bytes.
pub fn lend<R: Wait>(
    rt: &R,
    alloc: Global,
    desk: &Desk,
    stream: u64,
    bytes: &[u8],
) -> Option<Lent> {
    let id = MessageId {
        boot: 1,
        seq: stream,
    };
    let scan = Body::Scan {
        id,
        stream: StreamId::new(stream),
        generation: Generation::new(2),
        length: bytes.len() as u64,
    };
    let chunk = Body::Chunk {
        id,
        offset: 0,
        bytes: ByteList::copied(alloc, bytes).ok()?,
    };
    match received(rt, alloc, desk, scan) {
        None => {}
        Some(lent) => lent.discard(),
    }
    received(rt, alloc, desk, chunk)
}

fn received<R: Wait>(rt: &R, alloc: Global, desk: &Desk, body: Body) -> Option<Lent> {
    if !body.is_in_range() {
        return None;
    }
    match desk.message(rt, alloc, Message::new(Port::One, body)) {
        Ok(taken) => {
            let Taken { lent, note: _ } = taken;
            lent
        }
        Err(_) => None,
    }
}

// Lends a work and gives it, or wakes where none can be lent: one item in any case.
pub fn give_one<R: Wait>(
    rt: &R,
    alloc: Global,
    desk: &Desk,
    giver: &mut Giver,
    stream: u64,
    bytes: &[u8],
)
    ensures { giver.new.channel ≡ giver.old.channel }
{
    match lend(rt, alloc, desk, stream, bytes) {
        Some(lent) => giver.give(rt, lent),
        None => giver.wake(rt),
    }
}

fn told(done: Done) -> Told {
    let told = (done.lease().get(), done.hit());
    done.discard();
    told
}

// What was run next, or none at a mark.
pub fn taken<R: Wait>(rt: &R, taker: &mut Taker) -> Option<Told>
    ensures { taker.new.channel ≡ taker.old.channel }
{
    match taker.take(rt) {
        Some(done) => Some(told(done)),
        None => None,
    }
}

// What was left at the end, by lease.
pub fn left(alloc: Global, stopped: Stopped) -> Result<Vec<Told>, AllocError> {
    let Stopped { mut dones } = stopped;
    let mut all = Vec::new(alloc);
    let mut refused = false;
    while let Some(done) = dones.pop() {
        refused = all.push(told(done)).is_err() || refused;
    }
    dones.destroy_empty();
    if refused {
        return Err(AllocError);
    }
    all.sort_by_key(|told: &Told| told.0)?;
    Ok(all)
}
