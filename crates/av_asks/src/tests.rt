mod client_rows;
mod clients;

use crate::answer::{OpenAnswer, put_answer};
use crate::answer_feed::AnswerFeed;
use crate::ask::put_ask;
use crate::ask_feed::AskFeed;
use crate::fault::{AnswerFault, AskFault, TooLong};
use av_base::{Cause, Generation, Refusal, Version};
use av_fakes::{may_refuse, refuse_no_more};
use std::alloc::{AllocError, Global};
use std::test::Fail;

// Ask 7 about "ABC" under the label "a".
const ASK: [u8; 18] = [
    0, 0, 0, 14, 1, 0, 0, 0, 0, 0, 0, 0, 7, 1, b'a', b'A', b'B', b'C',
];

// Granted: tag 7, generation 2, version 1.
const GRANTED: [u8; 29] = [
    0, 0, 0, 25, 2, 0, 0, 0, 0, 0, 0, 0, 7, 0, 0, 0, 0, 0, 0, 0, 2, 0, 0, 0, 0, 0, 0, 0, 1,
];

// Denied: tag 8, a signature occurs.
const DENIED: [u8; 14] = [0, 0, 0, 10, 3, 0, 0, 0, 0, 0, 0, 0, 8, 2];

// Unscanned: tag 9, generation 3, the number of cause 5.
const UNSCANNED: [u8; 22] = [
    0, 0, 0, 18, 4, 0, 0, 0, 0, 0, 0, 0, 9, 0, 0, 0, 0, 0, 0, 0, 3, 5,
];

// What a feed of asks answers next, in words.
fn next_ask(alloc: Global, feed: &mut AskFeed) -> Result<String, AllocError> {
    match feed.next() {
        Ok(Some(ask)) => {
            let (label, content) = (ask.label.len(), ask.content.len());
            format!(in alloc; "{} {label} {content}", ask.tag)
        }
        Ok(None) => format!(in alloc; "nothing"),
        Err(refusal) => format!(in alloc; "{refusal}"),
    }
}

fn ask_is(alloc: Global, feed: &mut AskFeed, wanted: &str) -> Result<bool, Fail> {
    Ok(next_ask(alloc, feed)?.as_str() == wanted)
}

#[test]
fn an_ask_is_spelled_and_read(rt: HostRuntime) -> Result<(), Fail> {
    let mut out = Vec::new(rt.alloc());
    put_ask(&mut out, 7, b"a", b"ABC")?;
    assert_eq!(rt; out.as_slice(), ASK.as_slice());
    let mut feed = AskFeed::new(rt.alloc());
    feed.push(&out)?;
    let ask = feed.next()?.ok_or("an ask")?;
    assert_eq!(rt; ask.tag, 7);
    assert_eq!(rt; ask.label.as_slice(), b"a".as_slice());
    assert_eq!(rt; ask.content.as_slice(), b"ABC".as_slice());
    Ok(())
}

#[test]
fn an_ask_comes_once_it_is_whole_however_it_is_cut(rt: HostRuntime) -> Result<(), Fail> {
    for cut in 0..ASK.len() {
        assert!(rt; comes_in_two(rt.alloc(), cut)?, "at {cut}");
    }
    Ok(())
}

fn comes_in_two(alloc: Global, cut: usize) -> Result<bool, Fail> {
    let (front, rest) = ASK.split_at(cut.min(ASK.len()));
    let mut feed = AskFeed::new(alloc);
    feed.push(front)?;
    if !ask_is(alloc, &mut feed, "nothing")? || feed.is_within() != (cut > 0) {
        return Ok(false);
    }
    feed.push(rest)?;
    if feed.is_within() || !ask_is(alloc, &mut feed, "7 1 3")? {
        return Ok(false);
    }
    Ok(!feed.is_within() && ask_is(alloc, &mut feed, "nothing")?)
}

// The front of a body, how many zeros follow it, and what is answered.
const BODIES: [(&[u8], usize, &str); 16] = [
    (&[0, 0, 0, 0], 0, "Length"),
    (&[0, 0, 0, 9], 0, "Length"),
    (&[0, 0, 0, 9, 1], 8, "Length"),
    (&[0, 16, 1, 10], 0, "Length"),
    (&[255, 255, 255, 255], 0, "Length"),
    (&[0, 0, 0, 10], 0, "nothing"),
    (&[0, 16, 1, 9], 0, "nothing"),
    (&[0, 0, 0, 10, 0], 0, "Kind"),
    (&[0, 0, 0, 10, 2], 9, "Kind"),
    (&[0, 0, 0, 10, 1], 8, "nothing"),
    (&[0, 0, 0, 10, 1], 9, "0 0 0"),
    (&[0, 0, 0, 10, 1, 0, 0, 0, 0, 0, 0, 0, 1, 1], 0, "Label"),
    (&[0, 0, 0, 11, 1, 0, 0, 0, 0, 0, 0, 0, 1, 1], 1, "1 1 0"),
    (
        &[0, 16, 1, 9, 1, 0, 0, 0, 0, 0, 0, 0, 1, 255],
        1_048_831,
        "1 255 1048576",
    ),
    (
        &[0, 16, 0, 11, 1, 0, 0, 0, 0, 0, 0, 0, 1, 0],
        1_048_577,
        "Content",
    ),
    (
        &[0, 16, 0, 10, 1, 0, 0, 0, 0, 0, 0, 0, 1, 0],
        1_048_576,
        "1 0 1048576",
    ),
];

#[test]
fn each_body_is_an_ask_or_a_fault(rt: HostRuntime) -> Result<(), Fail> {
    for (front, zeros, wanted) in BODIES.as_slice() {
        assert!(rt;
            is_what_it_is(rt.alloc(), front, *zeros, wanted)?,
            "of {wanted}"
        );
    }
    Ok(())
}

fn is_what_it_is(alloc: Global, front: &[u8], zeros: usize, wanted: &str) -> Result<bool, Fail> {
    let mut feed = AskFeed::new(alloc);
    feed.push(&ASK)?;
    feed.push(front)?;
    feed.push(&vec![in alloc; 0u8; zeros]?)?;
    if !ask_is(alloc, &mut feed, "7 1 3")? || !ask_is(alloc, &mut feed, wanted)? {
        return Ok(false);
    }
    if !is_fault(wanted) {
        return Ok(feed.is_within() == (wanted == "nothing"));
    }
    Ok(
        !feed.is_within()
            && ask_is(alloc, &mut feed, "Broken")?
            && feed.push(&[]) == Err(Refusal::Fault(AskFault::Broken)),
    )
}

fn is_fault(wanted: &str) -> bool {
    wanted == "Length" || wanted == "Kind" || wanted == "Label" || wanted == "Content"
}

#[test]
fn what_is_too_long_is_not_asked(rt: HostRuntime) -> Result<(), Fail> {
    let label = vec![in rt.alloc(); b'l'; 256]?;
    let content = vec![in rt.alloc(); 0u8; 1_048_577]?;
    let mut out = Vec::new(rt.alloc());
    assert!(rt; put_ask(&mut out, 1, &label, &content) == Err(Refusal::Fault(TooLong::Label)));
    assert!(rt;
        put_ask(&mut out, 1, &label[1..], &content) == Err(Refusal::Fault(TooLong::Content))
    );
    assert!(rt; out.is_empty());
    put_ask(&mut out, 1, &label[1..], &content[1..])?;
    assert_eq!(rt; out.len(), 1_048_845);
    Ok(())
}

fn told() -> [OpenAnswer; 3] {
    [
        OpenAnswer::Granted {
            tag: 7,
            generation: Generation::new(2),
            version: Version::new(1),
        },
        OpenAnswer::Denied {
            tag: 8,
            cause: Cause::Infected,
        },
        OpenAnswer::Unscanned {
            tag: 9,
            generation: Generation::new(3),
            cause: Cause::TimedOut,
        },
    ]
}

#[test]
fn answers_are_spelled_and_read_however_they_are_cut(rt: HostRuntime) -> Result<(), Fail> {
    let mut out = Vec::new(rt.alloc());
    let told = told();
    for answer in told.as_slice() {
        put_answer(&mut out, answer)?;
    }
    let mut spelled = GRANTED.to_vec(rt.alloc())?;
    spelled.extend_from_slice(&DENIED)?;
    spelled.extend_from_slice(&UNSCANNED)?;
    assert_eq!(rt; out.as_slice(), spelled.as_slice());
    for cut in 0..out.len() {
        assert!(rt; are_heard(rt.alloc(), &out, cut)?, "at {cut}");
    }
    Ok(())
}

fn are_heard(alloc: Global, bytes: &[u8], cut: usize) -> Result<bool, Fail> {
    let (front, rest) = bytes.split_at(cut.min(bytes.len()));
    let mut feed = AnswerFeed::new(alloc);
    let mut heard = Vec::new(alloc);
    feed.push(front)?;
    hear_all(&mut feed, &mut heard)?;
    feed.push(rest)?;
    hear_all(&mut feed, &mut heard)?;
    Ok(heard.as_slice() == told().as_slice())
}

fn hear_all(feed: &mut AnswerFeed, heard: &mut Vec<OpenAnswer>) -> Result<(), Fail> {
    for _ in 0..4u8 {
        if let Some(answer) = feed.next()? {
            heard.push(answer)?;
        }
    }
    Ok(())
}

// The front of a body, how many zeros follow it, and its fault.
const NO_ANSWERS: [(&[u8], usize, AnswerFault); 13] = [
    (&[0, 0, 0, 9], 0, AnswerFault::Length),
    (&[0, 0, 0, 26], 0, AnswerFault::Length),
    (&[0, 0, 0, 10, 1], 0, AnswerFault::Kind),
    (&[0, 0, 0, 25, 5], 0, AnswerFault::Kind),
    (&[0, 0, 0, 24, 2], 23, AnswerFault::Shape),
    (&[0, 0, 0, 11, 3], 10, AnswerFault::Shape),
    (&[0, 0, 0, 17, 4], 16, AnswerFault::Shape),
    (&[0, 0, 0, 19, 4], 18, AnswerFault::Shape),
    (&[0, 0, 0, 10, 3], 9, AnswerFault::Cause),
    (
        &[0, 0, 0, 10, 3, 0, 0, 0, 0, 0, 0, 0, 0, 11],
        0,
        AnswerFault::Cause,
    ),
    (
        &[0, 0, 0, 10, 3, 0, 0, 0, 0, 0, 0, 0, 0, 255],
        0,
        AnswerFault::Cause,
    ),
    (&[0, 0, 0, 18, 4], 17, AnswerFault::Cause),
    (
        &[
            0, 0, 0, 18, 4, 0, 0, 0, 0, 0, 0, 0, 0, 0, 0, 0, 0, 0, 0, 0, 0, 11,
        ],
        0,
        AnswerFault::Cause,
    ),
];

#[test]
fn what_is_no_answer_breaks_the_feed(rt: HostRuntime) -> Result<(), Fail> {
    for (front, zeros, fault) in NO_ANSWERS.as_slice() {
        assert!(rt; breaks(rt.alloc(), front, *zeros, *fault)?, "of {fault}");
    }
    Ok(())
}

fn breaks(alloc: Global, front: &[u8], zeros: usize, fault: AnswerFault) -> Result<bool, Fail> {
    let mut feed = AnswerFeed::new(alloc);
    feed.push(front)?;
    feed.push(&vec![in alloc; 0u8; zeros]?)?;
    Ok(
        feed.next() == Err(fault)
            && feed.next() == Err(AnswerFault::Broken)
            && feed.push(&[]) == Err(Refusal::Fault(AnswerFault::Broken)),
    )
}

#[test]
fn each_cause_has_its_number(rt: HostRuntime) -> Result<(), Fail> {
    for number in 1..=10u8 {
        assert!(rt; is_denied_for(rt.alloc(), number)?, "of {number}");
    }
    Ok(())
}

fn is_denied_for(alloc: Global, number: u8) -> Result<bool, Fail> {
    let mut frame = DENIED;
    frame[13] = number;
    let mut feed = AnswerFeed::new(alloc);
    feed.push(&frame)?;
    let cause = Cause::from_number(number).ok_or("a cause")?;
    Ok(feed.next() == Ok(Some(OpenAnswer::Denied { tag: 8, cause })))
}

#[test]
fn refused_or_not_an_ask_is_spelled(rt: HostRuntime) -> Result<(), Fail> {
    let mut out = Vec::new(rt.alloc());
    may_refuse(rt.alloc());
    let first = put_ask(&mut out, 7, b"a", b"ABC");
    refuse_no_more(rt.alloc());
    if first.is_err() {
        assert!(rt; first == Err(Refusal::NoMemory) && out.is_empty());
        put_ask(&mut out, 7, b"a", b"ABC")?;
    }
    assert_eq!(rt; out.as_slice(), ASK.as_slice());
    Ok(())
}

#[test]
fn refused_or_not_an_answer_is_spelled(rt: HostRuntime) -> Result<(), Fail> {
    let mut out = Vec::new(rt.alloc());
    let [granted, _, _] = told();
    may_refuse(rt.alloc());
    let first = put_answer(&mut out, &granted);
    refuse_no_more(rt.alloc());
    if first.is_err() {
        assert!(rt; out.is_empty());
        put_answer(&mut out, &granted)?;
    }
    assert_eq!(rt; out.as_slice(), GRANTED.as_slice());
    Ok(())
}

#[test]
fn refused_or_not_an_ask_comes(rt: HostRuntime) -> Result<(), Fail> {
    let mut feed = AskFeed::new(rt.alloc());
    may_refuse(rt.alloc());
    let pushed = feed.push(&ASK);
    let given = feed.next();
    refuse_no_more(rt.alloc());
    if pushed.is_err() {
        feed.push(&ASK)?;
    }
    if !matches!(given, Ok(Some(_))) {
        assert!(rt; ask_is(rt.alloc(), &mut feed, "7 1 3")?);
    }
    assert!(rt; ask_is(rt.alloc(), &mut feed, "nothing")?);
    Ok(())
}

#[test]
fn refused_or_not_an_answer_comes(rt: HostRuntime) -> Result<(), Fail> {
    let mut feed = AnswerFeed::new(rt.alloc());
    may_refuse(rt.alloc());
    let pushed = feed.push(&DENIED);
    refuse_no_more(rt.alloc());
    if pushed.is_err() {
        assert!(rt; feed.next() == Ok(None));
        feed.push(&DENIED)?;
    }
    assert!(rt; matches!(feed.next(), Ok(Some(OpenAnswer::Denied { tag: 8, .. }))));
    Ok(())
}

#[test]
fn the_room_of_asks_that_were_taken_is_used_again(rt: HostRuntime) -> Result<(), Fail> {
    let mut feed = AskFeed::new(rt.alloc());
    feed.push(&ASK[..7])?;
    for _ in 0..10_000u32 {
        feed.push(&ASK[7..])?;
        feed.push(&ASK[..7])?;
        assert!(rt; feed.next()?.is_some());
    }
    assert!(rt; feed.is_within() && feed.room() < 1_000);
    Ok(())
}

#[test]
fn the_room_of_a_large_ask_is_given_back(rt: HostRuntime) -> Result<(), Fail> {
    let mut feed = AskFeed::new(rt.alloc());
    assert!(rt; feed.begun() == (0, 0));
    feed.push(b"\0\x01\0")?;
    assert!(rt; feed.begun() == (3, 0));
    feed.push(b"\0\x01")?;
    assert!(rt; feed.begun() == (5, 65_540));
    let rest = vec![in rt.alloc(); 0u8; 65_535]?;
    feed.push(&rest)?;
    feed.push(&ASK[..7])?;
    assert!(rt; feed.room() > 65_000 && feed.next()?.is_some());
    assert!(rt; feed.room() < 1_000 && feed.begun() == (7, ASK.len()));
    Ok(())
}
