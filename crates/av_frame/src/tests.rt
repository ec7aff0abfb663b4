mod bodies;
mod text;

use crate::cause::{FailCause, NoChunkCause};
use crate::decode::decode;
use crate::encode::encode_into;
use crate::fault::FeedFault;
use crate::feed::Feed;
use crate::frames::read_frames;
use crate::message::Message;
use crate::outcome::Outcome;
use crate::tests::bodies::BODIES;
use crate::tests::text::{bytes_of, decoded_words, framed, next_words, words};
use av_base::{ByteList, Generation, MessageId, Port, Refusal, StreamId, Verdict, Version};
use av_fakes::{may_refuse, refuse_no_more};
use std::alloc::Global;
use std::test::Fail;

// The bytes of a body, and what it is.
fn parts<'a>(alloc: Global, line: &'a str) -> Result<(Vec<u8>, &'a str), Fail> {
    let (text, wanted) = line.split_once(" = ").ok_or("a body is something")?;
    Ok((bytes_of(alloc, text)?, wanted))
}

#[test]
fn each_body_is_its_message_or_its_fault(rt: HostRuntime) -> Result<(), Fail> {
    for line in BODIES.lines() {
        assert!(rt; is_what_it_is(rt.alloc(), line)?, "of {line}");
    }
    Ok(())
}

fn is_what_it_is(alloc: Global, line: &str) -> Result<bool, Fail> {
    let (body, wanted) = parts(alloc, line)?;
    Ok(decoded_words(alloc, &body)?.as_str() == wanted && is_written(alloc, &body)?)
}

// A body that is a message is written as its frame, behind what was there.
fn is_written(alloc: Global, body: &[u8]) -> Result<bool, Fail> {
    let Ok(message) = decode(alloc, &body) else {
        return Ok(true);
    };
    let mut out = Vec::new(alloc);
    out.push(7)?;
    encode_into(&message, &mut out)?;
    Ok(&out[1..] == framed(alloc, body)?.as_slice())
}

#[test]
fn bodies_are_the_same_where_their_bytes_are(rt: HostRuntime) -> Result<(), Fail> {
    for one in BODIES.lines() {
        for other in BODIES.lines() {
            assert!(rt;
                compares_as_its_bytes(rt.alloc(), one, other)?,
                "{one} and {other}"
            );
        }
    }
    Ok(())
}

fn compares_as_its_bytes(alloc: Global, one: &str, other: &str) -> Result<bool, Fail> {
    let (one, _) = parts(alloc, one)?;
    let (other, _) = parts(alloc, other)?;
    let (Ok(first), Ok(second)) = (decode(alloc, &one), decode(alloc, &other)) else {
        return Ok(true);
    };
    // The second byte is the port, which is no part of a body.
    let same = one[..1] == other[..1] && one[2..] == other[2..];
    Ok((first.body() == second.body()) == same)
}

#[test]
fn a_frame_comes_once_it_is_whole_however_it_is_cut(rt: HostRuntime) -> Result<(), Fail> {
    for line in BODIES.lines() {
        assert!(rt; comes_whole(rt.alloc(), line)?, "of {line}");
    }
    Ok(())
}

fn comes_whole(alloc: Global, line: &str) -> Result<bool, Fail> {
    let (body, wanted) = parts(alloc, line)?;
    if wanted == "Length" {
        return Ok(true);
    }
    comes_however_it_is_cut(alloc, &framed(alloc, &body)?, wanted)
}

fn comes_however_it_is_cut(alloc: Global, frame: &[u8], wanted: &str) -> Result<bool, Fail> {
    let mut bytewise = Feed::new(alloc);
    for cut in 0..frame.len() {
        let (front, rest) = frame.split_at(cut);
        if !comes_in_two(alloc, front, rest, wanted)?
            || !next_is(alloc, &mut bytewise, "nothing")?
        {
            return Ok(false);
        }
        bytewise.push(&frame[cut..cut + 1])?;
    }
    next_is(alloc, &mut bytewise, wanted)
}

fn comes_in_two(alloc: Global, front: &[u8], rest: &[u8], wanted: &str) -> Result<bool, Fail> {
    let mut feed = Feed::new(alloc);
    feed.push(front)?;
    if !next_is(alloc, &mut feed, "nothing")? {
        return Ok(false);
    }
    feed.push(rest)?;
    next_is(alloc, &mut feed, wanted)
}

fn next_is(alloc: Global, feed: &mut Feed, wanted: &str) -> Result<bool, Fail> {
    Ok(next_words(alloc, feed)?.as_str() == wanted)
}

const FAULTS: [(&str, &str); 7] = [
    ("00000000", "Length"),
    ("0000101b", "Length"),
    ("ffffffff", "Length"),
    ("0000000109", "Kind"),
    ("00000001 07", "Shape"),
    ("00000013 0701 [1] [1] 03", "Range"),
    ("0000000a 0803 [1]", "Range"),
];

#[test]
fn a_fault_is_told_once_and_breaks_the_feed(rt: HostRuntime) -> Result<(), Fail> {
    for (text, fault) in FAULTS {
        assert!(rt; is_told_once(rt.alloc(), text, fault)?, "of {text}");
    }
    Ok(())
}

fn is_told_once(alloc: Global, text: &str, fault: &str) -> Result<bool, Fail> {
    let mut feed = Feed::new(alloc);
    feed.push(&bytes_of(alloc, "0000000a 0801 [1]")?)?;
    feed.push(&bytes_of(alloc, text)?)?;
    Ok(
        next_is(alloc, &mut feed, "updated 1")?
            && next_is(alloc, &mut feed, fault)?
            && next_is(alloc, &mut feed, "Broken")?
            && feed.push(&[]) == Err(Refusal::Fault(FeedFault::Broken)),
    )
}

const STREAM: &str =
    "00000012 0501 [1] [1] 0000001e 0602 [1] [1] [0] 00000003 0000001b 0701 [1] [1] 00 [1] 0000002a \
     0102 [1] [1] [1] [2] [3] 0000001d 0201 [1] [1] [0] 414243 00000001 09 00";

#[test]
fn a_stream_is_the_same_frames_in_any_pieces(rt: HostRuntime) -> Result<(), Fail> {
    let stream = bytes_of(rt.alloc(), STREAM)?;
    for cut in 0..stream.len() {
        let (front, rest) = stream.split_at(cut);
        assert!(rt; tells_the_story(rt.alloc(), &[front, rest])?, "at {cut}");
    }
    Ok(())
}

#[test]
fn a_stream_is_the_same_frames_byte_by_byte(rt: HostRuntime) -> Result<(), Fail> {
    let stream = bytes_of(rt.alloc(), STREAM)?;
    let mut pieces = Vec::new(rt.alloc());
    for byte in &stream {
        pieces.push(ByteList::copied(rt.alloc(), &[*byte])?)?;
    }
    assert_eq!(rt; story(rt.alloc(), &pieces)?.as_str(), STORY);
    Ok(())
}

fn tells_the_story(alloc: Global, parts: &[&[u8]]) -> Result<bool, Fail> {
    let mut pieces = Vec::new(alloc);
    for part in parts {
        pieces.push(ByteList::copied(alloc, *part)?)?;
    }
    Ok(story(alloc, &pieces)?.as_str() == STORY)
}

const STORY: &str =
    "hello volume 1 version 1, read 1.1 offset 0 count 3 port 2, reply 1.1 version 1 clean, scan 1.1 \
     stream 1 generation 2 length 3 port 2, chunk 1.1 offset 0 bytes 3, Kind";

// The messages of a stream and its fault, in words.
fn story(alloc: Global, pieces: &[ByteList]) -> Result<String, Fail> {
    let read = read_frames(alloc, pieces)?;
    let mut text = String::new(alloc);
    for message in &read.messages {
        text.push_str(words(alloc, message)?.as_str())?;
        text.push_str(", ")?;
    }
    if let Some(fault) = read.fault {
        text.push_str(format!(in alloc; "{fault}")?.as_str())?;
    }
    Ok(text)
}

#[test]
fn messages_are_made_of_their_fields(rt: HostRuntime) -> Result<(), Fail> {
    let id = MessageId { boot: 1, seq: 2 };
    let (version, verdict) = (Version::new(3), Verdict::Clean);
    let judged = Outcome::Judged { version, verdict };
    let failed = Outcome::Failed {
        cause: FailCause::PastLength,
    };
    let bytes = ByteList::copied(rt.alloc(), b"abc")?;
    assert_eq!(rt; bytes.len(), 3);
    let (one, two) = (Port::One, Port::Two);
    let made = [
        (
            Message::scan(one, id, StreamId::new(4), Generation::new(5), 6),
            "scan 1.2 stream 4 generation 5 length 6",
        ),
        (
            Message::no_chunk(one, id, 7, NoChunkCause::PastEnd),
            "nochunk 1.2 offset 7 cause 2",
        ),
        (Message::abort(one, id), "abort 1.2"),
        (Message::hello(one, 8, version), "hello volume 8 version 3"),
        (Message::read(one, id, 9, 10), "read 1.2 offset 9 count 10"),
        (Message::reply(one, id, judged), "reply 1.2 version 3 clean"),
        (Message::reply(two, id, failed), "reply 1.2 failed 2 port 2"),
        (Message::updated(one, version), "updated 3"),
        (
            Message::chunk(one, id, 11, bytes),
            "chunk 1.2 offset 11 bytes 3",
        ),
    ];
    assert_eq!(rt; first_other(rt.alloc(), &made)?, None);
    Ok(())
}

// The place of the first message that has other words.
fn first_other(alloc: Global, made: &[(Message, &str)]) -> Result<Option<usize>, Fail> {
    for (i, (message, wanted)) in made.iter().enumerate() {
        if words(alloc, message)?.as_str() != *wanted {
            return Ok(Some(i));
        }
    }
    Ok(None)
}

// A chunk of three bytes of the question 1.1, as a body, and its words.
const CHUNK: &str = "0201 [1] [1] [0] 414243";

const CHUNK_WORDS: &str = "chunk 1.1 offset 0 bytes 3";

#[test]
fn refused_or_not_a_body_is_decoded(rt: HostRuntime) -> Result<(), Fail> {
    let body = bytes_of(rt.alloc(), CHUNK)?;
    may_refuse(rt.alloc());
    let first = decode(rt.alloc(), &body);
    refuse_no_more(rt.alloc());
    let message = match first {
        Err(Refusal::NoMemory) => decode(rt.alloc(), &body)?,
        other => other?,
    };
    assert_eq!(rt; words(rt.alloc(), &message)?.as_str(), CHUNK_WORDS);
    Ok(())
}

#[test]
fn refused_or_not_a_feed_takes_a_frame(rt: HostRuntime) -> Result<(), Fail> {
    let frame = framed(rt.alloc(), &bytes_of(rt.alloc(), CHUNK)?)?;
    let mut feed = Feed::new(rt.alloc());
    may_refuse(rt.alloc());
    let pushed = feed.push(&frame);
    refuse_no_more(rt.alloc());
    if pushed.is_err() {
        assert!(rt; pushed == Err(Refusal::NoMemory));
        assert!(rt; next_is(rt.alloc(), &mut feed, "nothing")?);
        feed.push(&frame)?;
    }
    assert!(rt; next_is(rt.alloc(), &mut feed, CHUNK_WORDS)?);
    Ok(())
}

#[test]
fn refused_or_not_a_feed_gives_a_frame(rt: HostRuntime) -> Result<(), Fail> {
    let mut feed = Feed::new(rt.alloc());
    feed.push(&framed(rt.alloc(), &bytes_of(rt.alloc(), CHUNK)?)?)?;
    may_refuse(rt.alloc());
    let given = feed.next();
    refuse_no_more(rt.alloc());
    if given.err() == Some(Refusal::NoMemory) {
        assert!(rt; next_is(rt.alloc(), &mut feed, CHUNK_WORDS)?);
    }
    assert!(rt; next_is(rt.alloc(), &mut feed, "nothing")?);
    Ok(())
}

#[test]
fn refused_or_not_a_message_is_written(rt: HostRuntime) -> Result<(), Fail> {
    let body = bytes_of(rt.alloc(), CHUNK)?;
    let message = decode(rt.alloc(), &body)?;
    let mut out = Vec::new(rt.alloc());
    may_refuse(rt.alloc());
    let written = encode_into(&message, &mut out);
    refuse_no_more(rt.alloc());
    if written.is_err() {
        assert!(rt; out.is_empty());
        encode_into(&message, &mut out)?;
    }
    assert_eq!(rt; out.as_slice(), framed(rt.alloc(), &body)?.as_slice());
    Ok(())
}

#[test]
fn refused_or_not_a_stream_is_read(rt: HostRuntime) -> Result<(), Fail> {
    let stream = bytes_of(rt.alloc(), STREAM)?;
    let pieces = [ByteList::copied(rt.alloc(), &stream)?];
    may_refuse(rt.alloc());
    let first = read_frames(rt.alloc(), &pieces);
    refuse_no_more(rt.alloc());
    if let Ok(read) = first {
        assert_eq!(rt; read.messages.len(), 5);
    }
    assert_eq!(rt; story(rt.alloc(), &pieces)?.as_str(), STORY);
    Ok(())
}
