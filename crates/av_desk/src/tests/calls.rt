// Calls of a desk that are to be accepted. Memory may be refused to each; it is made again then, and what it handed back is
// handed in again.
use crate::tests::said::{Said, all_said};
use crate::{Desk, DeskFault, Lent, Taken};
use av_base::{
    ByteList, Generation, LimitField, LimitValues, Limits, MessageId, Port, Refusal, Refused,
    StreamId, Version,
};
use av_fakes::{may_refuse, refuse_no_more};
use av_frame::{Body, Message};
use av_service::{Done, ServiceNote};
use av_sigset::{Catalogue, SignatureSet};
use std::alloc::{AllocError, AllocFailed, Global};
use std::sync::Wait;
use std::test::Fail;

pub fn set(alloc: Global, version: u64, pattern: &[u8]) -> Result<SignatureSet, Fail> {
    let version = Version::new(version);
    Ok(SignatureSet::from_patterns(alloc, version, &[pattern])?)
}

// The greatest limits but for this one.
pub fn limits(field: LimitField, value: u64) -> Result<Limits, Fail> {
    Ok(Limits::check(LimitValues::greatest().with(field, value))?)
}

// A catalogue with a set of this pattern as version 1.
pub fn catalogue(alloc: Global, pattern: &[u8]) -> Result<Catalogue, Fail> {
    let mut catalogue = Catalogue::new(alloc);
    match catalogue.publish(set(alloc, 1, pattern)?) {
        Ok(()) => Ok(catalogue),
        Err(_) => Err(Fail::new("a first set was refused")),
    }
}

pub fn desk_of(alloc: Global, catalogue: Catalogue, limits: Limits) -> Result<Desk, Fail> {
    desk_at(alloc, Port::One, catalogue, limits)
}

pub fn desk_at(
    alloc: Global,
    port: Port,
    catalogue: Catalogue,
    limits: Limits,
) -> Result<Desk, Fail> {
    may_refuse(alloc);
    let first = Desk::new(alloc, 7, port, catalogue, limits);
    refuse_no_more(alloc);
    match first {
        Ok(desk) => Ok(desk),
        Err(failed) => {
            let AllocFailed { value } = failed;
            Ok(Desk::new(alloc, 7, port, value, limits)?)
        }
    }
}

// A desk where a set of this pattern is published as version 1.
pub fn desk(alloc: Global, pattern: &[u8]) -> Result<Desk, Fail> {
    desk_of(alloc, catalogue(alloc, pattern)?, Limits::greatest())
}

fn message_of(port: Port, body: Body) -> Result<Message, Fail> {
    if body.is_in_range() {
        Ok(Message::new(port, body))
    } else {
        Err(Fail::new("out of range"))
    }
}

// The question of that number about the stream of that number.
pub fn scan(seq: u64, length: u64) -> Result<Message, Fail> {
    scan_at(Port::One, seq, length)
}

pub fn scan_at(port: Port, seq: u64, length: u64) -> Result<Message, Fail> {
    let body = Body::Scan {
        id: MessageId { boot: 1, seq },
        stream: StreamId::new(seq),
        generation: Generation::new(2),
        length,
    };
    message_of(port, body)
}

pub fn chunk(alloc: Global, seq: u64, offset: u64, bytes: &[u8]) -> Result<Message, Fail> {
    let body = Body::Chunk {
        id: MessageId { boot: 1, seq },
        offset,
        bytes: ByteList::copied(alloc, bytes)?,
    };
    message_of(Port::One, body)
}

pub fn connect<R: Wait>(rt: &R, alloc: Global, desk: &Desk) -> Result<ServiceNote, Fail> {
    may_refuse(alloc);
    let first = desk.connect(rt, alloc);
    refuse_no_more(alloc);
    match first {
        Err(Refusal::NoMemory) => Ok(desk.connect(rt, alloc)?),
        other => Ok(other?),
    }
}

pub fn disconnect<R: Wait>(rt: &R, alloc: Global, desk: &Desk) -> Result<ServiceNote, Fail> {
    may_refuse(alloc);
    let first = desk.disconnect(rt, alloc);
    refuse_no_more(alloc);
    match first {
        Err(Refusal::NoMemory) => Ok(desk.disconnect(rt, alloc)?),
        other => Ok(other?),
    }
}

pub fn restart<R: Wait>(rt: &R, alloc: Global, desk: &Desk) -> Result<ServiceNote, Fail> {
    may_refuse(alloc);
    let first = desk.restart(rt, alloc);
    refuse_no_more(alloc);
    match first {
        Err(Refusal::NoMemory) => Ok(desk.restart(rt, alloc)?),
        other => Ok(other?),
    }
}

pub fn publish<R: Wait>(
    rt: &R,
    alloc: Global,
    desk: &Desk,
    set: SignatureSet,
) -> Result<ServiceNote, Fail> {
    may_refuse(alloc);
    let first = desk.publish(rt, alloc, set);
    refuse_no_more(alloc);
    let again = match first {
        Ok(note) => return Ok(note),
        Err(refused) => desk.publish(rt, alloc, handed_back(refused)?),
    };
    match again {
        Ok(note) => Ok(note),
        Err(_) => Err(Fail::new("refused with memory")),
    }
}

pub fn message<R: Wait>(
    rt: &R,
    alloc: Global,
    desk: &Desk,
    message: Message,
) -> Result<Taken, Fail> {
    may_refuse(alloc);
    let first = desk.message(rt, alloc, message);
    refuse_no_more(alloc);
    let again = match first {
        Ok(taken) => return Ok(taken),
        Err(refused) => desk.message(rt, alloc, handed_back(refused)?),
    };
    match again {
        Ok(taken) => Ok(taken),
        Err(_) => Err(Fail::new("refused with memory")),
    }
}

// What was handed back for want of memory.
fn handed_back<T: Drop>(refused: Refused<T, DeskFault>) -> Result<T, Fail> {
    let Refused { value, why } = refused;
    match why {
        Refusal::NoMemory => Ok(value),
        Refusal::Fault(fault) => Err(Fail::new(fault)),
    }
}

pub fn finish<R: Wait>(
    rt: &R,
    alloc: Global,
    desk: &Desk,
    done: Done,
) -> Result<ServiceNote, Fail> {
    may_refuse(alloc);
    let first = desk.finish(rt, alloc, done);
    refuse_no_more(alloc);
    let again = match first {
        Ok(note) => return Ok(note),
        Err(refused) => {
            let Refused { value, why: _ } = refused;
            desk.finish(rt, alloc, value)
        }
    };
    match again {
        Ok(note) => Ok(note),
        Err(refused) => {
            let Refused { value, why: _ } = refused;
            value.discard();
            Err(Fail::new("refused with memory"))
        }
    }
}

// A message that lends no work.
pub fn quiet<R: Wait>(
    rt: &R,
    alloc: Global,
    desk: &Desk,
    it: Message,
) -> Result<ServiceNote, Fail> {
    let Taken { lent, note } = message(rt, alloc, desk, it)?;
    match lent {
        None => Ok(note),
        Some(lent) => {
            lent.discard();
            Err(Fail::new("a work was lent"))
        }
    }
}

// A message that lends a work.
pub fn lending<R: Wait>(rt: &R, alloc: Global, desk: &Desk, it: Message) -> Result<Lent, Fail> {
    let Taken { lent, note: _ } = message(rt, alloc, desk, it)?;
    match lent {
        Some(lent) => Ok(lent),
        None => Err(Fail::new("no work was lent")),
    }
}

pub fn take<R: Wait>(rt: &R, alloc: Global, desk: &Desk) -> Result<Vec<Said>, AllocError> {
    may_refuse(alloc);
    let first = desk.take_outgoing(rt, alloc);
    refuse_no_more(alloc);
    match first {
        Ok(messages) => all_said(alloc, messages.as_slice()),
        Err(_) => all_said(alloc, desk.take_outgoing(rt, alloc)?.as_slice()),
    }
}
