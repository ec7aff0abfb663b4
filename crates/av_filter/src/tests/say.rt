// What a filter gives out, as text.
use crate::{FilterFault, Note, Out};
use av_base::{MessageId, Port, Refusal};
use av_frame::{Body, Message};
use av_pend::Answer;
use std::alloc::{AllocError, Global};

// What an event gives out, or why it is refused.
pub fn said(
    alloc: Global,
    outcome: Result<Out, Refusal<FilterFault>>,
) -> Result<String, AllocError> {
    match outcome {
        Ok(out) => told(alloc, &out),
        Err(Refusal::Fault(fault)) => format!(in alloc; "refused {fault}"),
        Err(Refusal::NoMemory) => Err(AllocError),
    }
}

// The answers, the messages and the note, as scripts print them.
pub fn told(alloc: Global, out: &Out) -> Result<String, AllocError> {
    let mut text = String::new(alloc);
    tell(alloc, out, &mut text)?;
    Ok(text)
}

fn tell(alloc: Global, out: &Out, text: &mut String) -> Result<(), AllocError> {
    for answer in &out.answers {
        add(text, answer_line(alloc, *answer)?.as_str())?;
    }
    for message in &out.messages {
        let mut line = message_line(alloc, message)?;
        if message.port() == Port::Two {
            line.push_str(" port 2")?;
        }
        add(text, line.as_str())?;
    }
    add(text, note_line(alloc, out.note)?.as_str())
}

fn add(text: &mut String, part: &str) -> Result<(), AllocError> {
    if !text.is_empty() && !part.is_empty() {
        text.push_str(", ")?;
    }
    text.push_str(part)
}

fn answer_line(alloc: Global, answer: Answer) -> Result<String, AllocError> {
    match answer {
        Answer::Granted {
            open_id,
            least,
            stream,
            generation,
            version,
        } => format!(in alloc;
            "open {} granted stream {} generation {} version {} least {}",
            open_id.get(),
            stream.get(),
            generation.get(),
            version.get(),
            least.get()
        ),
        Answer::Unscanned {
            open_id,
            stream,
            generation,
            cause,
        } => format!(in alloc;
            "open {} unscanned stream {} generation {} cause {}",
            open_id.get(),
            stream.get(),
            generation.get(),
            cause.number()
        ),
        Answer::Denied { open_id, cause } => {
            format!(in alloc; "open {} denied cause {}", open_id.get(), cause.number())
        }
    }
}

fn message_line(alloc: Global, message: &Message) -> Result<String, AllocError> {
    match message.body() {
        Body::Scan {
            id,
            stream,
            generation,
            length,
        } => format!(in alloc;
            "scan {}.{} stream {} generation {} length {length}",
            id.boot,
            id.seq,
            stream.get(),
            generation.get()
        ),
        Body::Chunk { id, offset, bytes } => chunk_line(alloc, *id, *offset, bytes.as_slice()),
        Body::NoChunk { id, offset, cause } => {
            let cause = cause.number();
            format!(in alloc;
                "nochunk {}.{} offset {offset} cause {cause}",
                id.boot, id.seq
            )
        }
        Body::Abort { id } => format!(in alloc; "abort {}.{}", id.boot, id.seq),
        _ => format!(in alloc; "a message of the service"),
    }
}

fn chunk_line(
    alloc: Global,
    id: MessageId,
    offset: u64,
    bytes: &[u8],
) -> Result<String, AllocError> {
    let mut text = format!(in alloc; "chunk {}.{} offset {offset} bytes", id.boot, id.seq)?;
    for byte in bytes {
        text.push_str(format!(in alloc; " {byte}")?.as_str())?;
    }
    Ok(text)
}

fn note_line(alloc: Global, note: Note) -> Result<String, AllocError> {
    match note {
        Note::Quiet => format!(in alloc; ""),
        Note::Submitted { open_id } => format!(in alloc; "number {}", open_id.get()),
        other => format!(in alloc; "note {other:?}"),
    }
}
