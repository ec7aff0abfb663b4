//! What a step did on the left of the port: to the volume, the opener and the filter.

ghost use Rattle.std.specs.Prelude.{◌≡◌, ◌++◌, IfOk, OnOk};
ghost use Rattle.av_chart.specs.Left.{answer_class, answer_head, answer_look, answer_text, answers_text, asked_text, asks_label, asks_text, clear_of, filter_label, filter_note, filter_pill, filter_text, left_text, noted_left, open_label, volume_label, volume_text};
ghost use Rattle.av_chart.specs.Row.{asked_lines, spanned};

use super::bars::SLOT;
use super::lanes::{put_arrow, put_pill, wide};
use super::{FILTER, OPENER, Picture, VOLUME};
use crate::escape::{put_parts, short};
use crate::happened::{Asks, FilterMark, Step, VolumeMark};
use crate::happening::{span_of, word};
use crate::label::{answer_label, label, port_end, told_note, verdict_word};
use crate::life::Moment;
use crate::mark::{Mark, Side, put_mark};
use crate::spot::Spot;
use av_base::Part;
use av_history::{EventNote, Given};
use av_pend::Answer;
use std::alloc::{AllocError, Global};

/// Puts what a step did on the left.
#[tactic(auto, using(crate::proofs::PutLemmas::put_five), unfolding(crate::specs::Left::left_text))]
pub fn put_left(
    alloc: Global,
    page: &mut Vec<u8>,
    picture: &Picture<'_, '_>,
    number: u64,
    step: &Step,
) -> Result<(), AllocError>
    ensures { OnOk result (page.new.items ≡ page.old.items ++ left_text picture.now number step.now) }
{
    let y = picture.places.y(Moment {
        step: number,
        line: 0,
    });
    let command = picture.command(step);
    put_volume(alloc, page, step.volume, command, y)?;
    put_asked(alloc, page, step.asks, command, y)?;
    put_answers(alloc, page, picture, number, step)?;
    put_filter(alloc, page, step.filter, command, y)?;
    put_noted(alloc, page, picture, step, command, y)
}

// Puts what befell the stream that a command names.
fn put_volume(
    alloc: Global,
    page: &mut Vec<u8>,
    mark: Option<VolumeMark>,
    command: &[u8],
    y: u32,
) -> Result<(), AllocError>
    ensures { OnOk result (page.new.items ≡ page.old.items ++ volume_text mark command.now y) }
{
    let Some(mark) = mark else {
        return Ok(());
    };
    let words = volume_label(alloc, mark, word(command, 1))?;
    put_pill(page, Spot { x: VOLUME, y }, &words)
}

// Puts what the opener asks, where it asks.
fn put_asked(
    alloc: Global,
    page: &mut Vec<u8>,
    asks: Option<Asks>,
    command: &[u8],
    y: u32,
) -> Result<(), AllocError>
    ensures { OnOk result (page.new.items ≡ page.old.items ++ asks_text asks command.now y) }
{
    match asks {
        Some(asks) => put_asks(alloc, page, asks, command, y),
        None => Ok(()),
    }
}

#[tactic(auto, unfolding(crate::specs::Left::volume_label))]
fn volume_label(alloc: Global, mark: VolumeMark, name: &[u8]) -> Result<Vec<u8>, AllocError>
    ensures { IfOk result (λ text. text.items ≡ volume_label mark name.now) }
{
    let name = short(alloc, name, 9)?;
    match mark {
        VolumeMark::Created => { label(alloc, &[Part::Text(&name), Part::Text(b" g1")]) }
        VolumeMark::Changed { generation, length } => {
            label(
                alloc,
                &[
                    Part::Text(&name),
                    Part::Text(b" g"),
                    Part::Number(generation),
                    Part::Text(b" "),
                    Part::Number(length),
                    Part::Text(b" B"),
                ],
            )
        }
        VolumeMark::Removed => { label(alloc, &[Part::Text(&name), Part::Text(b" removed")]) }
        VolumeMark::Judged {
            generation,
            version,
            verdict,
        } => label(
            alloc,
            &[
                Part::Text(b"judge g"),
                Part::Number(generation),
                Part::Text(b" v"),
                Part::Number(version),
                Part::Text(verdict_word(verdict)),
            ],
        ),
    }
}

// Puts what the opener asks the filter.
#[tactic(auto, using(std::proofs::Common::append_assoc), unfolding(crate::specs::Left::asked_text))]
fn put_asks(
    alloc: Global,
    page: &mut Vec<u8>,
    asks: Asks,
    command: &[u8],
    y: u32,
) -> Result<(), AllocError>
    ensures { OnOk result (page.new.items ≡ page.old.items ++ asked_text asks command.now y) }
{
    let words = asks_label(alloc, asks, command)?;
    let from = Spot { x: OPENER, y };
    put_mark(
        page,
        &Mark::Words {
            at: from.right_of(10).above(3),
            look: b" class=\"halo\"",
            words: &words,
        },
    )?;
    put_arrow(page, b"o", b"ho", from, Spot { x: FILTER, y }, Side::Right)
}

#[tactic(auto, unfolding(crate::specs::Left::asks_label))]
fn asks_label(alloc: Global, asks: Asks, command: &[u8]) -> Result<Vec<u8>, AllocError>
    ensures { IfOk result (λ text. text.items ≡ asks_label asks command.now) }
{
    let name = short(alloc, word(command, 1), 14)?;
    match asks {
        Asks::Open { open_id } => open_label(alloc, open_id, &name, word(command, 2)),
        Asks::Cleanup => label(alloc, &[Part::Text(b"cleanup "), Part::Text(&name)]),
    }
}

#[tactic(auto, unfolding(crate::specs::Left::open_label, crate::specs::Left::least_text))]
fn open_label<'a>(
    alloc: Global,
    open_id: u64,
    name: &'a [u8],
    least: &'a [u8],
) -> Result<Vec<u8>, AllocError>
    ensures { IfOk result (λ text. text.items ≡ open_label open_id name.now least.now) }
{
    let mut words = label(
        alloc,
        &[
            Part::Text(b"open "),
            Part::Number(open_id),
            Part::Text(b" "),
            Part::Text(name),
        ],
    )?;
    if !least.is_empty() {
        put_parts(&mut words, &[Part::Text(b" least "), Part::Text(least)])?;
    }
    Ok(words)
}

// Puts the answers of a step, each on its line.
fn put_answers(
    alloc: Global,
    page: &mut Vec<u8>,
    picture: &Picture<'_, '_>,
    number: u64,
    step: &Step,
) -> Result<(), AllocError>
    ensures { OnOk result (page.new.items ≡ page.old.items ++ answers_text picture.now.places.now number (asked_lines step.now) (spanned step.now.answers picture.now.world.now.answers)) }
{
    let mut line = if step.asked_lines() > 0 { 1u32 } else { 0 };
    'answers: for given in span_of(picture.world.answers(), step.answers) {
        let y = picture.places.y(Moment { step: number, line });
        put_answer(alloc, page, given, y)?;
        line = line.saturating_add(1);
    }
    Ok(())
}

#[tactic(auto, using(std::proofs::Common::append_assoc), unfolding(crate::specs::Left::answer_text))]
fn put_answer(alloc: Global, page: &mut Vec<u8>, given: &Given, y: u32) -> Result<(), AllocError>
    ensures { OnOk result (page.new.items ≡ page.old.items ++ answer_text given.now.answer y) }
{
    let words = answer_label(alloc, &given.answer)?;
    let to = Spot { x: OPENER, y };
    let from = Spot { x: FILTER, y };
    put_arrow(
        page,
        line_class(&given.answer),
        head_class(&given.answer),
        from,
        to,
        Side::Left,
    )?;
    put_mark(
        page,
        &Mark::Words {
            at: to.right_of(14).above(3),
            look: answer_look(&given.answer),
            words: &words,
        },
    )
}

fn line_class(answer: &Answer) -> &'static [u8]
    ensures { result.now ≡ answer_class answer.now }
{
    match *answer {
        Answer::Granted { .. } => b"sg".as_slice(),
        Answer::Unscanned { .. } => b"su".as_slice(),
        Answer::Denied { .. } => b"sd".as_slice(),
    }
}

fn head_class(answer: &Answer) -> &'static [u8]
    ensures { result.now ≡ answer_head answer.now }
{
    match *answer {
        Answer::Granted { .. } => b"granted".as_slice(),
        Answer::Unscanned { .. } => b"unscanned".as_slice(),
        Answer::Denied { .. } => b"denied".as_slice(),
    }
}

fn answer_look(answer: &Answer) -> &'static [u8]
    ensures { result.now ≡ answer_look answer.now }
{
    match *answer {
        Answer::Granted { .. } => b" class=\"granted halo\"".as_slice(),
        Answer::Unscanned { .. } => b" class=\"unscanned halo\"".as_slice(),
        Answer::Denied { .. } => b" class=\"denied halo\"".as_slice(),
    }
}

// Puts what befalls the filter.
fn put_filter(
    alloc: Global,
    page: &mut Vec<u8>,
    mark: Option<FilterMark>,
    command: &[u8],
    y: u32,
) -> Result<(), AllocError>
    ensures { OnOk result (page.new.items ≡ page.old.items ++ filter_text mark command.now y) }
{
    let Some(mark) = mark else {
        return Ok(());
    };
    let words = filter_label(alloc, mark, word(command, 1))?;
    put_filter_pill(page, &words, y)
}

#[tactic(auto, unfolding(crate::specs::Left::filter_pill))]
fn put_filter_pill(page: &mut Vec<u8>, words: &[u8], y: u32) -> Result<(), AllocError>
    ensures { OnOk result (page.new.items ≡ page.old.items ++ filter_pill words.now y) }
{
    put_pill(page, Spot { x: FILTER, y }.left_of(wide(words) / 2), words)
}

// How far left of the filter a note is clear of the bars, and of what befalls the filter.
fn clear_of(alloc: Global, mark: Option<FilterMark>, command: &[u8]) -> Result<u32, AllocError>
    ensures { IfOk result (λ clear. clear ≡ clear_of mark command.now) }
{
    let Some(mark) = mark else {
        return Ok(10 + SLOT * 5);
    };
    let words = filter_label(alloc, mark, word(command, 1))?;
    Ok((10 + SLOT * 5).max(wide(&words).saturating_add(20)))
}

// Puts the filter's note of a step.
#[tactic(auto, unfolding(crate::specs::Left::noted_left))]
fn put_noted(
    alloc: Global,
    page: &mut Vec<u8>,
    picture: &Picture<'_, '_>,
    step: &Step,
    command: &[u8],
    y: u32,
) -> Result<(), AllocError>
    ensures { OnOk result (page.new.items ≡ page.old.items ++ noted_left picture.now.world.now step.now command.now y) }
{
    if !step.is_noted() {
        return Ok(());
    }
    let clear = clear_of(alloc, step.filter, command)?;
    match step.note.note() {
        EventNote::Service(_) => Ok(()),
        EventNote::Filter(note) => put_note(
            alloc,
            page,
            picture,
            EventNote::Filter(note),
            Spot { x: FILTER, y }.left_of(clear),
        ),
    }
}

#[tactic(auto, unfolding(crate::specs::Left::filter_note))]
fn put_note(
    alloc: Global,
    page: &mut Vec<u8>,
    picture: &Picture<'_, '_>,
    note: EventNote,
    at: Spot,
) -> Result<(), AllocError>
    ensures { OnOk result (page.new.items ≡ page.old.items ++ filter_note picture.now.world.now note at) }
{
    let line = told_note(alloc, picture.world, note)?;
    put_mark(
        page,
        &Mark::Words {
            at: at.below(4),
            look: b" class=\"tw halo\" text-anchor=\"end\"",
            words: word(&line, 1),
        },
    )
}

#[tactic(auto, unfolding(crate::specs::Left::filter_label))]
fn filter_label(alloc: Global, mark: FilterMark, seq: &[u8]) -> Result<Vec<u8>, AllocError>
    ensures { IfOk result (λ text. text.items ≡ filter_label mark seq.now) }
{
    match mark {
        FilterMark::Boot { boot } => label(alloc, &[Part::Text(b"boot "), Part::Number(boot)]),
        FilterMark::Timeout => label(alloc, &[Part::Text(b"timeout "), Part::Text(seq)]),
        FilterMark::ServiceLost { port } => label(
            alloc,
            &[Part::Text(b"service is lost"), Part::Text(port_end(port))],
        ),
    }
}
