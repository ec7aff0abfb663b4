//! The words of messages, answers, work and notes in a picture.

ghost use Rattle.std.specs.Prelude.{◌≡◌, ◌++◌, map, IfOk, OnOk};
ghost use Rattle.av_base.specs.Part.{part_text, spelt};
ghost use Rattle.av_chart.specs.Words.{about_text, answer_label, body_text, message_label, message_title, nowhere, outcome_text, told_message, told_note, port_end, told_of, told_work, verdict_word, way_word};

use crate::escape::{put_parts, shorten};
use av_base::{MessageId, Part, Port, Verdict};
use av_filter::Note as FilterNote;
use av_frame::{Body, Message, NoChunkCause, Outcome};
use av_history::{EventNote, Line, Places, Report};
use av_json::why;
use av_output::Direction;
use av_pend::Answer;
use av_world::World;
use std::alloc::{AllocError, Global};

/// Parts one behind the other, as a text of its own.
pub fn label(alloc: Global, parts: &[Part<'_>]) -> Result<Vec<u8>, AllocError>
    ensures { IfOk result (λ text. text.items ≡ spelt (map part_text parts.now)) }
{
    let mut text = Vec::new(alloc);
    put_parts(&mut text, parts)?;
    Ok(text)
}

/// The line that tells the work at a place, counted from 0, while it is lent.
pub fn told_work(alloc: Global, world: &World, index: u64) -> Result<Vec<u8>, AllocError>
    ensures { IfOk result (λ text. text.items ≡ told_work world.now index) }
{
    let before = Places {
        works: index,
        ..nowhere()
    };
    let after = Places {
        works: index.saturating_add(1),
        ..nowhere()
    };
    told(
        alloc,
        world,
        before,
        after,
        EventNote::Filter(FilterNote::Quiet),
    )
}

/// The line that tells a message of a place, counted from 0.
pub fn told_message(
    alloc: Global,
    world: &World,
    way: Direction,
    index: u64,
) -> Result<Vec<u8>, AllocError>
    ensures { IfOk result (λ text. text.items ≡ told_message world.now way index) }
{
    let next = index.saturating_add(1);
    let (before, after) = match way {
        Direction::Down => (
            Places {
                down: index,
                ..nowhere()
            },
            Places {
                down: next,
                ..nowhere()
            },
        ),
        Direction::Up => (
            Places {
                up: index,
                ..nowhere()
            },
            Places {
                up: next,
                ..nowhere()
            },
        ),
    };
    told(
        alloc,
        world,
        before,
        after,
        EventNote::Filter(FilterNote::Quiet),
    )
}

/// The word of a note.
pub fn told_note(alloc: Global, world: &World, note: EventNote) -> Result<Vec<u8>, AllocError>
    ensures { IfOk result (λ text. text.items ≡ told_note world.now note) }
{
    told(alloc, world, nowhere(), nowhere(), note)
}

fn nowhere() -> Places
    ensures { result ≡ nowhere }
{
    Places {
        answers: 0,
        down: 0,
        up: 0,
        works: 0,
    }
}

// What a world tells of these places and a note, without the end of the line.
#[tactic(auto, unfolding(crate::specs::Words::told_of))]
fn told(
    alloc: Global,
    world: &World,
    before: Places,
    after: Places,
    note: EventNote,
) -> Result<Vec<u8>, AllocError>
    ensures { IfOk result (λ text. text.items ≡ told_of world.now before after note) }
{
    let report = Report {
        line: Line::Silent,
        before,
        after,
        note,
    };
    let mut text = Vec::new(alloc);
    if world.print(&report, &mut text).is_err() {
        return Err(AllocError);
    }
    let _end = text.pop();
    Ok(text)
}

/// The word of a way.
pub fn way_word(way: Direction) -> &'static [u8]
    ensures { result.now ≡ way_word way }
{
    match way {
        Direction::Down => b"down ".as_slice(),
        Direction::Up => b"up ".as_slice(),
    }
}

/// The words of a message, and its whole line, of at most 200 characters behind its number.
#[tactic(auto, unfolding(crate::specs::Words::message_title, crate::specs::Words::numbered_text))]
pub fn message_title(
    alloc: Global,
    world: &World,
    way: Direction,
    index: u64,
) -> Result<Vec<u8>, AllocError>
    ensures { IfOk result (λ text. text.items ≡ message_title world.now way index) }
{
    let number = index.saturating_add(1);
    let head = label(
        alloc,
        &[
            Part::Text(way_word(way)),
            Part::Number(number),
            Part::Text(b" "),
        ],
    )?;
    let mut title = told_message(alloc, world, way, index)?;
    shorten(&mut title, head.len().saturating_add(200))?;
    Ok(title)
}

/// The words of a message on its arrow.
#[tactic(auto, unfolding(crate::specs::Words::message_label, crate::specs::Words::numbered_text))]
pub fn message_label(
    alloc: Global,
    way: Direction,
    number: u64,
    message: &Message,
) -> Result<Vec<u8>, AllocError>
    ensures { IfOk result (λ text. text.items ≡ message_label way number message.now) }
{
    let mut text = label(
        alloc,
        &[
            Part::Text(way_word(way)),
            Part::Number(number),
            Part::Text(b" "),
        ],
    )?;
    put_body(&mut text, message.body())?;
    text.extend_from_slice(port_end(message.port()))?;
    Ok(text)
}

/// What ends the words about a port.
pub fn port_end(port: Port) -> &'static [u8]
    ensures { result.now ≡ port_end port }
{
    match port {
        Port::One => b"".as_slice(),
        Port::Two => b" port 2".as_slice(),
    }
}

#[tactic(auto, using(std::proofs::Common::append_assoc), unfolding(crate::specs::Words::body_text, crate::specs::Words::number_text))]
fn put_body(text: &mut Vec<u8>, body: &Body) -> Result<(), AllocError>
    ensures { OnOk result (text.new.items ≡ text.old.items ++ body_text body.now) }
{
    match body {
        Body::Scan { id, generation, .. } => {
            put_of(text, b"scan ", *id)?;
            put_parts(text, &[Part::Text(b" g"), Part::Number(generation.get())])
        }
        Body::Chunk { id, offset, .. } => {
            put_of(text, b"chunk ", *id)?;
            put_parts(text, &[Part::Text(b" at "), Part::Number(*offset)])
        }
        Body::NoChunk { id, cause, .. } => {
            put_of(text, b"nochunk ", *id)?;
            match cause {
                NoChunkCause::NoQuestion => text.extend_from_slice(b" ended"),
                NoChunkCause::PastEnd => text.extend_from_slice(b" past the end"),
            }
        }
        Body::Abort { id } => put_of(text, b"abort ", *id),
        Body::Hello { version, .. } => put_parts(
            text,
            &[Part::Text(b"hello v"), Part::Number(version.get())],
        ),
        Body::Read { id, offset, .. } => {
            put_of(text, b"read ", *id)?;
            put_parts(text, &[Part::Text(b" at "), Part::Number(*offset)])
        }
        Body::Reply { id, outcome } => {
            put_of(text, b"reply ", *id)?;
            put_outcome(text, *outcome)
        }
        Body::Updated { version } => put_parts(
            text,
            &[Part::Text(b"updated v"), Part::Number(version.get())],
        ),
    }
}

// Puts a word and the question that it is about.
#[tactic(auto, unfolding(crate::specs::Words::about_text))]
fn put_of(text: &mut Vec<u8>, word: &[u8], id: MessageId) -> Result<(), AllocError>
    ensures { OnOk result (text.new.items ≡ text.old.items ++ about_text word.now id) }
{
    put_parts(
        text,
        &[
            Part::Text(word),
            Part::Number(id.boot),
            Part::Text(b"."),
            Part::Number(id.seq),
        ],
    )
}

#[tactic(auto, unfolding(crate::specs::Words::outcome_text))]
fn put_outcome(text: &mut Vec<u8>, outcome: Outcome) -> Result<(), AllocError>
    ensures { OnOk result (text.new.items ≡ text.old.items ++ outcome_text outcome) }
{
    match outcome {
        Outcome::Judged { version, verdict } => put_parts(
            text,
            &[
                Part::Text(b" v"),
                Part::Number(version.get()),
                Part::Text(verdict_word(verdict)),
            ],
        ),
        Outcome::Failed { cause } => put_parts(
            text,
            &[
                Part::Text(b" failed "),
                Part::Number(u64::from(cause.number())),
            ],
        ),
    }
}

/// A verdict in a word, behind a blank.
pub fn verdict_word(verdict: Verdict) -> &'static [u8]
    ensures { result.now ≡ verdict_word verdict }
{
    match verdict {
        Verdict::Clean => b" clean".as_slice(),
        Verdict::Infected { .. } => b" infected".as_slice(),
    }
}

/// The words of an answer.
#[tactic(auto, unfolding(crate::specs::Words::answer_label))]
pub fn answer_label(alloc: Global, answer: &Answer) -> Result<Vec<u8>, AllocError>
    ensures { IfOk result (λ text. text.items ≡ answer_label answer.now) }
{
    match *answer {
        Answer::Granted {
            open_id,
            generation,
            version,
            ..
        } => label(
            alloc,
            &[
                Part::Text(b"open "),
                Part::Number(open_id.get()),
                Part::Text(b" granted g"),
                Part::Number(generation.get()),
                Part::Text(b" v"),
                Part::Number(version.get()),
            ],
        ),
        Answer::Unscanned {
            open_id,
            generation,
            cause,
            ..
        } => label(
            alloc,
            &[
                Part::Text(b"open "),
                Part::Number(open_id.get()),
                Part::Text(b" unscanned g"),
                Part::Number(generation.get()),
                Part::Text(b": "),
                Part::Number(u64::from(cause.number())),
                Part::Text(b" "),
                Part::Text(why(cause).as_bytes()),
            ],
        ),
        Answer::Denied { open_id, cause } => label(
            alloc,
            &[
                Part::Text(b"open "),
                Part::Number(open_id.get()),
                Part::Text(b" denied: "),
                Part::Number(u64::from(cause.number())),
                Part::Text(b" "),
                Part::Text(why(cause).as_bytes()),
            ],
        ),
    }
}
