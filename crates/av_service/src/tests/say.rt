// What a service gives out, and what its readers answer, as text.
use crate::note::ServiceNote;
use crate::out::ServiceOut;
use crate::service::Service;
use crate::work::Work;
use av_base::{MessageId, Port, Verdict};
use av_cache::Entry;
use av_frame::{Body, Message, Outcome};
use std::alloc::{AllocError, AllocFailed, Global};
use std::collections::VecDeque;
use std::test::Fail;

// What was given out: the messages, the work, which joins those that are out, and the note.
pub fn told(alloc: Global, out: ServiceOut, works: &mut VecDeque<Work>) -> Result<String, Fail> {
    let ServiceOut {
        messages,
        work,
        note,
    } = out;
    let lent = match work {
        Some(work) => lend(alloc, work, works)?,
        None => String::new(alloc),
    };
    let mut text = String::new(alloc);
    for message in &messages {
        if !text.is_empty() {
            text.push_str(", ")?;
        }
        text.push_str(line_of(alloc, message)?.as_str())?;
        text.push_str(match message.port() {
            Port::One => "",
            Port::Two => " port 2",
        })?;
    }
    text.push_str(lent.as_str())?;
    text.push_str(match note {
        ServiceNote::Quiet => "",
        ServiceNote::Repeat => "note Repeat",
        ServiceNote::Ignored => "note Ignored",
        ServiceNote::Orphan => "note Orphan",
    })?;
    Ok(text)
}

fn lend(alloc: Global, work: Work, works: &mut VecDeque<Work>) -> Result<String, Fail> {
    let (lease, id, version) = (work.lease().get(), work.id(), work.version().get());
    if let Err(failed) = works.push_back(work) {
        let AllocFailed { value } = failed;
        value.discard();
        return Err(Fail::new(AllocError));
    }
    Ok(format!(in alloc; "lease {lease} {}.{} version {version}", id.boot, id.seq)?)
}

fn line_of(alloc: Global, message: &Message) -> Result<String, AllocError> {
    match message.body() {
        Body::Hello { volume, version } => {
            format!(in alloc; "hello volume {volume} version {}", version.get())
        }
        Body::Read { id, offset, count } => {
            format!(in alloc; "read {}.{} offset {offset} count {count}", id.boot, id.seq)
        }
        Body::Reply { id, outcome } => reply_line(alloc, *id, *outcome),
        Body::Updated { version } => format!(in alloc; "updated {}", version.get()),
        _ => format!(in alloc; "a message of the filter"),
    }
}

fn reply_line(alloc: Global, id: MessageId, outcome: Outcome) -> Result<String, AllocError> {
    let (boot, seq) = (id.boot, id.seq);
    match outcome {
        Outcome::Judged { version, verdict } => {
            let verdict = verdict_text(alloc, verdict)?;
            format!(in alloc; "reply {boot}.{seq} version {} {verdict}", version.get())
        }
        Outcome::Failed { cause } => {
            format!(in alloc; "reply {boot}.{seq} failed {}", cause.number())
        }
    }
}

fn verdict_text(alloc: Global, verdict: Verdict) -> Result<String, AllocError> {
    match verdict {
        Verdict::Clean => format!(in alloc; "clean"),
        Verdict::Infected { index, end_at } => format!(in alloc; "infected {index} end {end_at}"),
    }
}

// What the readers answer, the cache from its most recent entry on.
pub fn readers(alloc: Global, service: &Service) -> Result<String, AllocError> {
    let version = match service.version() {
        Some(version) => version.get(),
        None => 0,
    };
    let (volume, port, connected, jobs) = (
        service.volume_number(),
        service.port().number(),
        service.connected(),
        service.job_count(),
    );
    let mut text = format!(in alloc;
        "volume {volume} port {port} version {version} connected {connected} jobs {jobs}"
    )?;
    for place in 0..service.cache().len() {
        if let Some(entry) = service.cache().entry(place) {
            text.push_str(entry_text(alloc, entry)?.as_str())?;
        }
    }
    Ok(text)
}

fn entry_text(alloc: Global, entry: Entry) -> Result<String, AllocError> {
    let verdict = verdict_text(alloc, entry.verdict)?;
    let (stream, generation, version) = (
        entry.stream.get(),
        entry.generation.get(),
        entry.version.get(),
    );
    format!(in alloc; ", {stream} {generation} {version} {verdict}")
}
