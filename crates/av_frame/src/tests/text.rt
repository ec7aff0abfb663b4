// Bytes from the texts of the tables, and messages as text.
use crate::decode::decode;
use crate::feed::Feed;
use crate::message::{Body, Message};
use crate::outcome::Outcome;
use av_base::{MessageId, Port, Verdict};
use std::alloc::{AllocError, Global};
use std::test::Fail;

// The bytes that a text of the tables stands for.
pub fn bytes_of(alloc: Global, text: &str) -> Result<Vec<u8>, Fail> {
    let mut bytes = Vec::new(alloc);
    put_words(&mut bytes, text)?;
    Ok(bytes)
}

fn put_words(bytes: &mut Vec<u8>, text: &str) -> Result<(), Fail> {
    for word in text.split(' ') {
        put_word(bytes, word)?;
    }
    Ok(())
}

fn put_word(bytes: &mut Vec<u8>, word: &str) -> Result<(), Fail> {
    if let Some((_, rest)) = word.split_once('[') {
        let (number, _) = rest.split_once(']').ok_or("a number ends with ]")?;
        bytes.extend_from_slice(&number.parse::<u64>()?.to_be_bytes())?;
        return Ok(());
    }
    let Some((byte, count)) = word.split_once('*') else {
        return put_digits(bytes, word);
    };
    for _ in 0..count.parse::<u64>()? {
        put_digits(bytes, byte)?;
    }
    Ok(())
}

fn put_digits(bytes: &mut Vec<u8>, word: &str) -> Result<(), Fail> {
    let mut high = None;
    for b in word.as_bytes() {
        let digit = match *b {
            b'0'..=b'9' => *b - b'0',
            b'a'..=b'f' => *b - b'a' + 10,
            _ => return Err("no hexadecimal digit".into()),
        };
        match high {
            None => high = Some(digit),
            Some(first) => {
                bytes.push(first.wrapping_mul(16).wrapping_add(digit))?;
                high = None;
            }
        }
    }
    Ok(())
}

// A body with its length in front.
pub fn framed(alloc: Global, body: &[u8]) -> Result<Vec<u8>, Fail> {
    let mut frame = Vec::new(alloc);
    frame.extend_from_slice(&u32::try_from(body.len())?.to_be_bytes())?;
    frame.extend_from_slice(body)?;
    Ok(frame)
}

// A message as scripts print it, but for a chunk's bytes, of which it says how many there are. The second port stands last.
pub fn words(alloc: Global, message: &Message) -> Result<String, AllocError> {
    let mut text = body_words(alloc, message.body())?;
    if message.port() == Port::Two {
        text.push_str(" port 2")?;
    }
    Ok(text)
}

fn body_words(alloc: Global, body: &Body) -> Result<String, AllocError> {
    match body {
        Body::Scan {
            id,
            stream,
            generation,
            length,
        } => {
            let (stream, generation) = (stream.get(), generation.get());
            format!(in alloc;
                "scan {}.{} stream {stream} generation {generation} length {length}",
                id.boot, id.seq
            )
        }
        Body::Chunk { id, offset, bytes } => {
            let count = bytes.len();
            format!(in alloc;
                "chunk {}.{} offset {offset} bytes {count}",
                id.boot, id.seq
            )
        }
        Body::NoChunk { id, offset, cause } => {
            let cause = cause.number();
            format!(in alloc;
                "nochunk {}.{} offset {offset} cause {cause}",
                id.boot, id.seq
            )
        }
        Body::Abort { id } => format!(in alloc; "abort {}.{}", id.boot, id.seq),
        Body::Hello { volume, version } => {
            format!(in alloc; "hello volume {volume} version {}", version.get())
        }
        Body::Read { id, offset, count } => {
            format!(in alloc; "read {}.{} offset {offset} count {count}", id.boot, id.seq)
        }
        Body::Reply { id, outcome } => reply_words(alloc, *id, *outcome),
        Body::Updated { version } => format!(in alloc; "updated {}", version.get()),
    }
}

fn reply_words(alloc: Global, id: MessageId, outcome: Outcome) -> Result<String, AllocError> {
    let MessageId { boot, seq } = id;
    match outcome {
        Outcome::Judged { version, verdict } => { judged_words(alloc, id, version.get(), verdict) }
        Outcome::Failed { cause } => {
            format!(in alloc; "reply {boot}.{seq} failed {}", cause.number())
        }
    }
}

fn judged_words(
    alloc: Global,
    id: MessageId,
    version: u64,
    verdict: Verdict,
) -> Result<String, AllocError> {
    let MessageId { boot, seq } = id;
    match verdict {
        Verdict::Clean => format!(in alloc; "reply {boot}.{seq} version {version} clean"),
        Verdict::Infected { index, end_at } => {
            format!(in alloc; "reply {boot}.{seq} version {version} infected {index} end {end_at}")
        }
    }
}

// What decoding answers, in words.
pub fn decoded_words(alloc: Global, body: &[u8]) -> Result<String, AllocError> {
    match decode(alloc, &body) {
        Ok(message) => words(alloc, &message),
        Err(refusal) => format!(in alloc; "{refusal}"),
    }
}

// What a feed answers next, in words.
pub fn next_words(alloc: Global, feed: &mut Feed) -> Result<String, AllocError> {
    match feed.next() {
        Ok(Some(message)) => words(alloc, &message),
        Ok(None) => format!(in alloc; "nothing"),
        Err(refusal) => format!(in alloc; "{refusal}"),
    }
}
