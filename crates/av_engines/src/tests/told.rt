// What the first open was told.
use av_base::{Cause, Generation, OpenId, StreamId, Version};
use av_pend::Answer;

// What open 1 of stream 1 was told, where it is the only one.
#[derive(Clone, Copy)]
pub enum Told {
    Nothing,
    // Under the set of this version.
    Granted(u64),
    Denied(Cause),
}

// The service was lost before it replied.
pub const LOST: Told = Told::Denied(Cause::PortDisconnected);

impl Told {
    pub fn is(self, answers: &[Answer]) -> bool {
        match self {
            Told::Nothing => answers.is_empty(),
            Told::Granted(version) => answers == [granted(1, version)].as_slice(),
            Told::Denied(cause) => answers == [denied(1, cause)].as_slice(),
        }
    }
}

// That open of stream 1, which has `ABC`, may go on.
pub fn granted(open: u64, version: u64) -> Answer {
    granted_of(1, open, version)
}

pub fn granted_of(stream: u64, open: u64, version: u64) -> Answer {
    Answer::Granted {
        open_id: OpenId::new(open),
        least: Version::new(0),
        stream: StreamId::new(stream),
        generation: Generation::new(2),
        version: Version::new(version),
    }
}

pub fn denied(open: u64, cause: Cause) -> Answer {
    Answer::Denied {
        open_id: OpenId::new(open),
        cause,
    }
}
