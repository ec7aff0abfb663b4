// What happens to a service, step by step, with what it says.
use crate::service::Service;
use crate::tests::calls::{self, Reserve};
use crate::tests::say::told;
use crate::work::Work;
use av_base::{
    ByteList, Generation, LimitField, LimitValues, Limits, MessageId, Port, StreamId, Version,
};
use av_frame::{Body, Message, NoChunkCause};
use av_match::Automaton;
use av_sigset::{Catalogue, SignatureSet};
use std::alloc::{AllocError, Global};
use std::collections::VecDeque;
use std::test::Fail;

// One step. Ids are of boot 1, and contents of generation 2.
#[derive(Clone, Copy)]
pub enum Step<'a> {
    Publish(u64, &'a [u8]),
    // The same behind a call that makes room for it.
    PublishInRoom(u64, &'a [u8]),
    Connect,
    // seq, stream, length
    Scan(u64, u64, u64),
    // seq, offset, bytes
    Chunk(u64, u64, &'a [u8]),
    NoChunk(u64),
    Abort(u64),
    // A message of the service, sent to it.
    Hello,
    // The message of this step comes at the other port.
    AtTheOther(&'a Step<'a>),
    // The oldest work that is out comes back.
    Finish,
    Disconnect,
    Restart,
}

// A service, and the catalogue of the sets that were published.
#[derive(Drop)]
pub struct Stand {
    pub service: Service,
    pub catalogue: Catalogue,
}

impl Stand {
    // A service of the first port at the greatest limits but this one, where nothing was published.
    pub fn new(alloc: Global, limit: (LimitField, u64)) -> Result<Stand, Fail> {
        Stand::at(alloc, Port::One, limit)
    }

    // The same at this port.
    pub fn at(alloc: Global, port: Port, limit: (LimitField, u64)) -> Result<Stand, Fail> {
        let (field, value) = limit;
        Stand::with_limits(alloc, port, LimitValues::greatest().with(field, value))
    }

    pub fn with_limits(alloc: Global, port: Port, values: LimitValues) -> Result<Stand, Fail> {
        let limits = Limits::check(values)?;
        let catalogue = Catalogue::new(alloc);
        let service = calls::start(alloc, port, &catalogue, limits)?;
        Ok(Stand { service, catalogue })
    }

    // What the service says to a step.
    pub fn answer(
        &mut self,
        alloc: Global,
        works: &mut VecDeque<Work>,
        step: Step<'_>,
    ) -> Result<String, Fail> {
        match step {
            Step::Publish(version, pattern) => {
                let version = Version::new(version);
                publish(alloc, self, works, version, &[pattern], Reserve::NotMade)
            }
            Step::PublishInRoom(version, pattern) => {
                let version = Version::new(version);
                calls::room(alloc, &mut self.service, version)?;
                publish(alloc, self, works, version, &[pattern], Reserve::Made)
            }
            Step::Connect => connect(alloc, self, works),
            Step::Finish => finish(alloc, self, works, 0),
            Step::Disconnect => told(alloc, self.service.disconnect(alloc), works),
            Step::Restart => told(alloc, self.service.restart(alloc, &self.catalogue), works),
            Step::AtTheOther(step) => {
                let other = self.service.port().other();
                message_at(alloc, self, works, other, body_of(alloc, *step)?)
            }
            _ => message(alloc, self, works, body_of(alloc, step)?),
        }
    }
}

impl Stand {
    // Whether the service says this to a step.
    pub fn says(
        &mut self,
        alloc: Global,
        works: &mut VecDeque<Work>,
        step: Step<'_>,
        want: &str,
    ) -> Result<bool, Fail> {
        Ok(self.answer(alloc, works, step)?.as_str() == want)
    }

    // The place of the first step that is answered otherwise.
    pub fn first_wrong(
        &mut self,
        alloc: Global,
        works: &mut VecDeque<Work>,
        steps: &[(Step<'_>, &str)],
    ) -> Result<Option<usize>, Fail> {
        for (i, (step, want)) in steps.iter().enumerate() {
            if !self.says(alloc, works, *step, want)? {
                return Ok(Some(i));
            }
        }
        Ok(None)
    }
}

pub fn discard_all(works: VecDeque<Work>) {
    let mut works = works;
    'each: while let Some(work) = works.pop_front() {
        work.discard();
    }
    works.destroy_empty();
}

pub fn connect(
    alloc: Global,
    stand: &mut Stand,
    works: &mut VecDeque<Work>,
) -> Result<String, Fail> {
    match calls::connect(alloc, &mut stand.service)? {
        Ok(out) => told(alloc, out, works),
        Err(fault) => Ok(format!(in alloc; "refused {fault}")?),
    }
}

// The set of these patterns is published, and the service learns of it.
pub fn publish(
    alloc: Global,
    stand: &mut Stand,
    works: &mut VecDeque<Work>,
    version: Version,
    patterns: &[&[u8]],
    room: Reserve,
) -> Result<String, Fail> {
    let set = SignatureSet::from_patterns(alloc, version, patterns)?;
    let present = match stand.service.version() {
        Some(present) => present.get(),
        None => 0,
    };
    if present >= version.get() {
        return Err(Fail::new("not above the present version"));
    }
    let said = told(
        alloc,
        calls::publish(alloc, &mut stand.service, version, room)?,
        works,
    )?;
    match stand.catalogue.publish(set) {
        Ok(()) => Ok(said),
        Err(_) => Err(Fail::new("the catalogue refuses the set")),
    }
}

pub fn message(
    alloc: Global,
    stand: &mut Stand,
    works: &mut VecDeque<Work>,
    body: Body,
) -> Result<String, Fail> {
    message_at(alloc, stand, works, stand.service.port(), body)
}

fn message_at(
    alloc: Global,
    stand: &mut Stand,
    works: &mut VecDeque<Work>,
    port: Port,
    body: Body,
) -> Result<String, Fail> {
    if !body.is_in_range() {
        return Err(Fail::new("no message"));
    }
    let message = Message::new(port, body);
    told(
        alloc,
        calls::message(alloc, &mut stand.service, &message)?,
        works,
    )
}

// The work at this place of those that are out is run, goes through a parcel as through a channel, and comes back.
pub fn finish(
    alloc: Global,
    stand: &mut Stand,
    works: &mut VecDeque<Work>,
    place: usize,
) -> Result<String, Fail> {
    let Some(work) = works.remove(place) else {
        return Err(Fail::new("no such work is out"));
    };
    let automaton = match automaton_of(alloc, &stand.catalogue, work.version()) {
        Ok(automaton) => automaton,
        Err(fail) => {
            work.discard();
            return Err(fail);
        }
    };
    let done = work.pack().unpack().run(&automaton).pack().unpack();
    told(
        alloc,
        calls::finish(alloc, &mut stand.service, done)?,
        works,
    )
}

fn automaton_of(alloc: Global, catalogue: &Catalogue, version: Version) -> Result<Automaton, Fail> {
    match catalogue.at(version) {
        Some(set) => Ok(Automaton::build(alloc, set)?),
        None => Err(Fail::new("no set of that version")),
    }
}

fn body_of(alloc: Global, step: Step<'_>) -> Result<Body, AllocError> {
    Ok(match step {
        Step::Scan(seq, stream, length) => Body::Scan {
            id: MessageId { boot: 1, seq },
            stream: StreamId::new(stream),
            generation: Generation::new(2),
            length,
        },
        Step::Chunk(seq, offset, bytes) => Body::Chunk {
            id: MessageId { boot: 1, seq },
            offset,
            bytes: ByteList::copied(alloc, bytes)?,
        },
        Step::NoChunk(seq) => Body::NoChunk {
            id: MessageId { boot: 1, seq },
            offset: 0,
            cause: NoChunkCause::NoQuestion,
        },
        Step::Abort(seq) => Body::Abort {
            id: MessageId { boot: 1, seq },
        },
        _ => Body::Hello {
            volume: 1,
            version: Version::new(1),
        },
    })
}
