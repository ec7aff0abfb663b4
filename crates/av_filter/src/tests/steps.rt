// What happens to a filter, step by step.
use av_base::{MessageId, Port, Verdict, Version};
use av_frame::{Body, FailCause, Message, Outcome};

// One step: streams, versions, boots and numbers of questions as numbers.
#[derive(Clone, Copy)]
pub enum Step<'a> {
    // stream, least version
    Open(u64, u64),
    // stream, offset, bytes
    Write(u64, u64, &'a [u8]),
    // stream, length
    Cut(u64, u64),
    Remove(u64),
    Cleanup(u64),
    // volume, version
    Hello(u64, u64),
    Updated(u64),
    // boot, question, offset, count
    Read(u64, u64, u64, u32),
    // boot, question, version
    Clean(u64, u64, u64),
    Infected(u64, u64, u64),
    // boot, question
    Failed(u64, u64),
    Abort(u64, u64),
    Timeout(u64),
    Disconnect,
    // This step comes at the second port: a message, or a disconnection.
    AtTwo(&'a Step<'a>),
}

// A step without its port, and the port.
pub fn at_port(step: Step<'_>) -> (Port, Step<'_>) {
    match step {
        Step::AtTwo(step) => (Port::Two, *step),
        _ => (Port::One, step),
    }
}

// The message that a step sends at a port, where it is one and its numbers are in range.
pub fn message_of(port: Port, step: Step<'_>) -> Option<Message> {
    let body = body_of(step)?;
    if body.is_in_range() {
        Some(Message::new(port, body))
    } else {
        None
    }
}

fn body_of(step: Step<'_>) -> Option<Body> {
    match step {
        Step::Hello(volume, version) => Some(Body::Hello {
            volume,
            version: Version::new(version),
        }),
        Step::Updated(version) => Some(Body::Updated {
            version: Version::new(version),
        }),
        Step::Read(boot, seq, offset, count) => Some(Body::Read {
            id: MessageId { boot, seq },
            offset,
            count,
        }),
        Step::Abort(boot, seq) => Some(Body::Abort {
            id: MessageId { boot, seq },
        }),
        _ => reply_of(step),
    }
}

fn reply_of(step: Step<'_>) -> Option<Body> {
    let (boot, seq, outcome) = match step {
        Step::Clean(boot, seq, version) => (boot, seq, judged(version, Verdict::Clean)),
        Step::Infected(boot, seq, version) => {
            let verdict = Verdict::Infected {
                index: 0,
                end_at: 2,
            };
            (boot, seq, judged(version, verdict))
        }
        Step::Failed(boot, seq) => {
            let cause = FailCause::JobsFull;
            (boot, seq, Outcome::Failed { cause })
        }
        _ => return None,
    };
    Some(Body::Reply {
        id: MessageId { boot, seq },
        outcome,
    })
}

fn judged(version: u64, verdict: Verdict) -> Outcome {
    Outcome::Judged {
        version: Version::new(version),
        verdict,
    }
}
