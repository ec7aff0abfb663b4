// What a desk sent, and what its audit says that it was asked, as plain data.
use crate::{Audit, DeskEntry, Event};
use av_base::{Lease, Verdict};
use av_frame::{Body, Message, Outcome};
use av_service::ServiceNote;
use std::alloc::{AllocError, Global};

// A message, by the number of its question where it has one.
#[derive(Clone, Copy, Debug, PartialEq, Eq)]
pub enum Said {
    Scan(u64),
    Chunk(u64, u64, usize),
    Hello(u64, u64),
    Read(u64, u64, u32),
    Judged(u64, u64, Verdict),
    Failed(u64),
    Updated(u64),
    Other,
}

// An event, with its arguments.
#[derive(Clone, Copy, Debug, PartialEq, Eq)]
pub enum Asked {
    Connect,
    Receive(Said),
    Finish(u64, Option<Verdict>),
    Publish(u64),
    Disconnect,
    Restart(u64),
}

// An event with the count of its messages, the lease of the work that it gave out, and its note.
pub type Row = (Asked, usize, Option<u64>, ServiceNote);

pub fn told(message: &Message) -> Said {
    match message.body() {
        Body::Scan { id, .. } => Said::Scan(id.seq),
        Body::Chunk { id, offset, bytes } => Said::Chunk(id.seq, *offset, bytes.len()),
        Body::Hello { volume, version } => Said::Hello(*volume, version.get()),
        Body::Read { id, offset, count } => Said::Read(id.seq, *offset, *count),
        Body::Reply { id, outcome } => match *outcome {
            Outcome::Judged { version, verdict } => Said::Judged(id.seq, version.get(), verdict),
            Outcome::Failed { .. } => Said::Failed(id.seq),
        },
        Body::Updated { version } => Said::Updated(version.get()),
        _ => Said::Other,
    }
}

pub fn all_said(alloc: Global, messages: &[Message]) -> Result<Vec<Said>, AllocError> {
    messages.iter().map(|message| told(message)).collect(alloc)
}

fn call_of(event: &Event) -> Asked {
    match event {
        Event::Connect => Asked::Connect,
        Event::Receive { message } => Asked::Receive(told(message)),
        Event::Finish { lease, scan } => Asked::Finish(lease.get(), scan.hit()),
        Event::Publish { version, .. } => Asked::Publish(version.get()),
        Event::Disconnect => Asked::Disconnect,
        Event::Restart { latest } => Asked::Restart(latest.get()),
    }
}

fn row_of(entry: &DeskEntry) -> Row {
    let lease = entry.lease().map(|lease: Lease| lease.get());
    (
        call_of(entry.event()),
        entry.messages().len(),
        lease,
        entry.note(),
    )
}

pub fn rows(alloc: Global, audit: &Audit) -> Result<Vec<Row>, AllocError> {
    audit
        .events
        .as_slice()
        .iter()
        .map(|entry| row_of(entry))
        .collect(alloc)
}
