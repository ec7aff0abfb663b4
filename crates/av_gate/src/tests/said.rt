// Steps of a gate, and what they say, as plain numbers.
use crate::GateFault;
use av_base::{Cause, MessageId, Port, Refusal, Verdict, Version};
use av_filter::{FilterFault, Note};
use av_frame::{Body, Message, Outcome};
use av_pend::Answer;
use av_store::StoreFault;

#[derive(Clone, Copy)]
pub enum Step<'a> {
    Open(&'a [u8]),
    // name, offset, bytes
    Write(&'a [u8], u64, &'a [u8]),
    Cleanup(&'a [u8]),
    // port, version
    Hello(Port, u64),
    Updated(Port, u64),
    // port, question, version
    Clean(Port, u64, u64),
    Timeout(u64),
    Disconnect(Port),
}

#[derive(Clone, Copy, PartialEq, Eq, Debug)]
pub enum Said {
    Quiet,
    Submitted(u64),
    Welcome,
    NoWaiter,
    NoStream,
    Other,
    AuditFull,
    Refused(StoreFault),
    NoMemory,
}

impl Said {
    pub fn is_accepted(self) -> bool {
        match self {
            Said::AuditFull | Said::Refused(_) | Said::NoMemory => false,
            _ => true,
        }
    }
}

#[derive(Clone, Copy, PartialEq, Eq, Debug)]
pub enum Told {
    Waits,
    // generation, version
    Granted(u64, u64),
    // generation, cause
    Unscanned(u64, Cause),
    Denied(Cause),
}

pub fn what_is_said(outcome: &Result<Note, Refusal<GateFault>>) -> Said {
    match outcome {
        Ok(note) => noted(note),
        Err(Refusal::NoMemory) => Said::NoMemory,
        Err(Refusal::Fault(fault)) => refused(fault),
    }
}

fn noted(note: &Note) -> Said {
    match note {
        Note::Quiet => Said::Quiet,
        Note::Submitted { open_id } => Said::Submitted(open_id.get()),
        Note::Welcome => Said::Welcome,
        Note::NoWaiter => Said::NoWaiter,
        Note::NoStream => Said::NoStream,
        _ => Said::Other,
    }
}

fn refused(fault: &GateFault) -> Said {
    match fault {
        GateFault::AuditFull => Said::AuditFull,
        GateFault::Filter(FilterFault::Store(fault)) => Said::Refused(*fault),
        GateFault::Filter(_) => Said::Other,
    }
}

pub fn what_is_told(answer: Option<&Answer>) -> Told {
    match answer {
        None => Told::Waits,
        Some(
            Answer::Granted {
                generation,
                version,
                ..
            },
        ) => Told::Granted(generation.get(), version.get()),
        Some(
            Answer::Unscanned {
                generation,
                cause,
                ..
            },
        ) => Told::Unscanned(generation.get(), *cause),
        Some(Answer::Denied { cause, .. }) => Told::Denied(*cause),
    }
}

// The message of a step that is one, where its numbers are in range.
pub fn message_of(step: Step<'_>) -> Option<Message> {
    let (port, body) = fields_of(step)?;
    if body.is_in_range() {
        Some(Message::new(port, body))
    } else {
        None
    }
}

fn fields_of(step: Step<'_>) -> Option<(Port, Body)> {
    match step {
        Step::Hello(port, version) => {
            let hello = Body::Hello {
                volume: 1,
                version: Version::new(version),
            };
            Some((port, hello))
        }
        Step::Updated(port, version) => {
            let updated = Body::Updated {
                version: Version::new(version),
            };
            Some((port, updated))
        }
        Step::Clean(port, seq, version) => {
            let reply = Body::Reply {
                id: MessageId { boot: 1, seq },
                outcome: Outcome::Judged {
                    version: Version::new(version),
                    verdict: Verdict::Clean,
                },
            };
            Some((port, reply))
        }
        _ => None,
    }
}
