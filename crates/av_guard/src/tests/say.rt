ghost use Rattle.std.specs.Prelude.{◌≤◌};

use crate::{Answered, GuardOut};
use av_base::{MessageId, Port, Verdict, Version};
use av_frame::{Body, Message, Outcome};
use std::fmt::Write;
use std::test::Fail;

// Versions and the numbers of questions count from 1.
fn version_of(number: u64) -> Version
    ensures { 1 ≤ result }
{
    Version::new(number.max(1))
}

/// A service of this version greets.
pub(crate) fn hello(version: u64) -> Message {
    Message::hello(Port::One, 1, version_of(version))
}

/// The same at the second port.
pub(crate) fn other(version: u64) -> Message {
    Message::hello(Port::Two, 1, version_of(version))
}

pub(crate) fn updated(version: u64) -> Message {
    Message::updated(Port::One, version_of(version))
}

/// The reply to a question of boot 7.
pub(crate) fn reply(seq: u64, version: u64, infected: bool) -> Message {
    reply_of(7, seq, version, infected)
}

/// The clean reply to a question of boot 7, at the second port.
pub(crate) fn other_reply(seq: u64, version: u64) -> Message {
    let version = version_of(version);
    let verdict = Verdict::Clean;
    let id = MessageId {
        boot: 7,
        seq: seq.max(1),
    };
    Message::reply(Port::Two, id, Outcome::Judged { version, verdict })
}

/// The reply to a question of this boot.
pub(crate) fn reply_of(boot: u64, seq: u64, version: u64, infected: bool) -> Message {
    let verdict = if infected {
        Verdict::Infected {
            index: 0,
            end_at: 2,
        }
    } else {
        Verdict::Clean
    };
    let outcome = Outcome::Judged {
        version: version_of(version),
        verdict,
    };
    let id = MessageId {
        boot: boot.max(1),
        seq: seq.max(1),
    };
    Message::reply(Port::One, id, outcome)
}

/// Adds what was given out.
pub(crate) fn given_is(said: &mut String, given: &GuardOut) -> Result<(), Fail> {
    for told in given.told.as_slice() {
        write!(said, "{}.{}=", told.client, told.tag)?;
        match told.answer {
            Answered::Granted {
                generation,
                version,
            } => write!(said, "granted {} {};", generation.get(), version.get())?,
            Answered::Infected {
                version,
                signature,
                end,
            } => write!(said, "infected {} {signature} {end};", version.get())?,
            Answered::Denied { cause } => write!(said, "denied {};", cause.number())?,
            Answered::Unscanned { generation, cause } => {
                write!(said, "unscanned {} {};", generation.get(), cause.number())?
            }
        }
    }
    for message in given.messages.as_slice() {
        if message.port() == Port::Two {
            write!(said, "second ")?;
        }
        match message.body() {
            Body::Scan {
                id,
                stream,
                generation,
                length,
            } => write!(
                said,
                "scan {} {} {} {length};",
                id.seq,
                stream.get(),
                generation.get()
            )?,
            Body::Abort { id } => write!(said, "abort {};", id.seq)?,
            _ => write!(said, "other;")?,
        }
    }
    Ok(())
}
