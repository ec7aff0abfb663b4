//! The whole picture: what is drawn, in its order.

ghost use Rattle.std.specs.Prelude.{◌≡◌, ◌≤◌, ◌-◌, ◌==◌, ◌++◌, is_none, length, IfOk, OnOk, if◌then◌else◌};
ghost use Rattle.av_chart.specs.Number.{capped};
ghost use Rattle.av_output.specs.Text.Messages.{placed};
ghost use Rattle.av_chart.specs.Bars.{behind};
ghost use Rattle.av_chart.specs.Mark.{until_text};
ghost use Rattle.av_chart.specs.Picture.{again_of, answered_told, caption_text, command_look, command_text, count_text, delivered_told, ground_text, happened_text, lost_of, messages_told, number_text, opening_text, opens_told, over_text, picture_text, refusal_text, refused_text, run_told, shown_told, size_text, step_at, step_number, step_text, steps_of, steps_text, stripe_at, stripe_text, stripes_text, style_text, title_part, told_part, told_text, typed_text, under_text, waiting};
ghost use Rattle.av_chart.specs.Row.{spanned};

use crate::escape::{put_escaped, put_parts};
use crate::happened::{Counts, Happened, Refused, Sent, Span, Step};
use crate::life::Bar;
use crate::mark::{Mark, put_mark, put_marks};
use crate::place::{GAP, Places, TOP, height_of};
use crate::spot::Spot;
use av_base::Part;
use av_world::World;
use std::alloc::{AllocError, Global};

mod bars;
mod lanes;
mod left;
mod legend;
mod messages;
mod right;
mod style;

use crate::escape::short;
use crate::happening::span_of;
use crate::label::label;
use crate::picture::bars::put_all_bars;
use crate::picture::lanes::{put_bands, put_lanes, put_names};
use crate::picture::left::put_left;
use crate::picture::legend::put_legend;
use crate::picture::messages::put_messages;
use crate::picture::right::put_right;
use crate::picture::style::STYLE;

/// Where the lanes stand, from the left edge, and the width of a picture.
pub const VOLUME: u32 = 332;

pub const OPENER: u32 = 452;

pub const FILTER: u32 = 712;

pub const PORT: u32 = 871;

pub const SERVICE: u32 = 1030;

pub const WIDTH: u32 = 1290;
/// The left margin, and the right edge of the numbers of lines.
pub const MARGIN: u32 = 14;

pub const NUMBERS: u32 = 44;

/// What is drawn: the steps from `first` on, so many, of all that happened, at their places.
#[derive(Clone, Copy)]
pub struct Picture<'p, 'a> {
    pub text: &'p [u8],
    pub happened: &'p Happened<'a>,
    pub world: &'p World,
    pub places: &'p Places,
    pub first: usize,
    pub count: usize,
}

impl<'p, 'a> Picture<'p, 'a> {
    /// The number of the step that is so many behind the first.
    pub fn number(&self, index: usize) -> u64
        ensures { result ≡ step_number self.now index }
    {
        (self.first as u64).saturating_add(index as u64)
    }

    /// The first step behind the picture.
    pub fn behind(&self) -> u64
        ensures { result ≡ behind self.now }
    {
        (self.first as u64).saturating_add(self.count as u64)
    }

    /// The text of a step's command.
    pub fn command(&self, step: &Step) -> &'p [u8]
        ensures { result.now ≡ spanned step.now.command self.now.text.now }
    {
        span_of(self.text, step.command)
    }

    /// The steps that are shown.
    pub fn steps(&self) -> &'p [Step]
        ensures { result.now ≡ steps_of self.now }
    {
        let shown = Span {
            from: self.first as u64,
            to: self.behind(),
        };
        span_of(&self.happened.steps, shown)
    }
}

/// Puts a picture with its title.
#[tactic(auto, using(crate::proofs::PutLemmas::put_three), unfolding(crate::specs::Picture::picture_text))]
pub fn put_picture(
    alloc: Global,
    page: &mut Vec<u8>,
    picture: &Picture<'_, '_>,
    title: &[u8],
) -> Result<(), AllocError>
    ensures { OnOk result (page.new.items ≡ page.old.items ++ picture_text picture.now title.now) }
{
    let told = told(alloc, picture)?;
    put_under(page, picture, title, &told)?;
    put_happened(alloc, page, picture)?;
    put_over(page, picture)
}

// Puts what stands before the lives: the beginning, the stripes, the words above, and the lanes.
#[tactic(auto, using(crate::proofs::PutLemmas::put_five), unfolding(crate::specs::Picture::under_text))]
fn put_under(
    page: &mut Vec<u8>,
    picture: &Picture<'_, '_>,
    title: &[u8],
    told: &[u8],
) -> Result<(), AllocError>
    ensures { OnOk result (page.new.items ≡ page.old.items ++ under_text picture.now title.now told.now) }
{
    put_opening(page, picture.places.bottom.saturating_add(62), title, told)?;
    put_stripes(page, picture)?;
    put_caption(page, title, told)?;
    put_lanes(page, picture.places.bottom)?;
    put_names(page, TOP - 18)
}

// Puts the lives, the messages and the steps.
#[tactic(auto, using(crate::proofs::PutLemmas::put_three), unfolding(crate::specs::Picture::happened_text))]
fn put_happened(
    alloc: Global,
    page: &mut Vec<u8>,
    picture: &Picture<'_, '_>,
) -> Result<(), AllocError>
    ensures { OnOk result (page.new.items ≡ page.old.items ++ happened_text picture.now) }
{
    put_all_bars(alloc, page, picture)?;
    put_messages(alloc, page, picture)?;
    put_steps(alloc, page, picture)
}

// Puts what stands behind them: the names again, the legend, and the end.
#[tactic(auto, using(crate::proofs::PutLemmas::put_four), unfolding(crate::specs::Picture::over_text))]
fn put_over(page: &mut Vec<u8>, picture: &Picture<'_, '_>) -> Result<(), AllocError>
    ensures { OnOk result (page.new.items ≡ page.old.items ++ over_text picture.now) }
{
    put_bands(page, picture)?;
    put_names(page, picture.places.bottom.saturating_add(16))?;
    put_legend(page, picture.places.bottom.saturating_add(42))?;
    page.extend_from_slice(b"</svg>\n")
}

// Puts the words above the picture.
#[tactic(auto, unfolding(crate::specs::Picture::caption_text))]
fn put_caption(page: &mut Vec<u8>, title: &[u8], told: &[u8]) -> Result<(), AllocError>
    ensures { OnOk result (page.new.items ≡ page.old.items ++ caption_text title.now told.now) }
{
    put_marks(
        page,
        &[
            Mark::Words {
                at: Spot { x: MARGIN, y: 24 },
                look: b" class=\"t\"",
                words: title,
            },
            Mark::Words {
                at: Spot { x: MARGIN, y: 42 },
                look: b" class=\"n\"",
                words: told,
            },
        ],
    )
}

// Puts the beginning, with the words for who can't see the picture, and its style.
#[tactic(auto, using(crate::proofs::PutLemmas::put_four), unfolding(crate::specs::Picture::opening_text))]
fn put_opening(page: &mut Vec<u8>, height: u32, title: &[u8], told: &[u8]) -> Result<(), AllocError>
    ensures { OnOk result (page.new.items ≡ page.old.items ++ opening_text height title.now told.now) }
{
    put_size(page, height)?;
    put_told(page, title, told)?;
    put_style(page)?;
    put_ground(page, height)
}

// Puts the rules of the style.
#[tactic(auto, unfolding(crate::specs::Picture::style_text))]
fn put_style(page: &mut Vec<u8>) -> Result<(), AllocError>
    ensures { OnOk result (page.new.items ≡ page.old.items ++ style_text) }
{
    page.extend_from_slice(STYLE)
}

// Puts the beginning, up to the title.
#[tactic(auto, unfolding(crate::specs::Picture::size_text))]
fn put_size(page: &mut Vec<u8>, height: u32) -> Result<(), AllocError>
    ensures { OnOk result (page.new.items ≡ page.old.items ++ size_text height) }
{
    put_parts(
        page,
        &[
            Part::Text(b"<svg xmlns=\"http://www.w3.org/2000/svg\" viewBox=\"0 0 1290 "),
            Part::Number(height as u64),
            Part::Text(b"\" width=\"1290\" height=\""),
            Part::Number(height as u64),
            Part::Text(b"\" role=\"img\" aria-labelledby=\"title told\">\n<title id=\"title\">"),
        ],
    )
}

// Puts the background, behind the style.
#[tactic(auto, unfolding(crate::specs::Picture::ground_text))]
fn put_ground(page: &mut Vec<u8>, height: u32) -> Result<(), AllocError>
    ensures { OnOk result (page.new.items ≡ page.old.items ++ ground_text height) }
{
    put_parts(
        page,
        &[
            Part::Text(b"</style>\n<rect class=\"bg\" width=\"1290\" height=\""),
            Part::Number(height as u64),
            Part::Text(b"\"/>\n"),
        ],
    )
}

// Puts the title and what is told of the run, up to the style.
#[tactic(auto, using(crate::proofs::PutLemmas::put_two), unfolding(crate::specs::Picture::told_text))]
fn put_told(page: &mut Vec<u8>, title: &[u8], told: &[u8]) -> Result<(), AllocError>
    ensures { OnOk result (page.new.items ≡ page.old.items ++ told_text title.now told.now) }
{
    put_title(page, title)?;
    put_told_part(page, told)
}

#[tactic(auto, unfolding(crate::specs::Picture::title_part))]
fn put_title(page: &mut Vec<u8>, title: &[u8]) -> Result<(), AllocError>
    ensures { OnOk result (page.new.items ≡ page.old.items ++ title_part title.now) }
{
    put_until(page, title, b"</title>\n<desc id=\"told\">")
}

#[tactic(auto, unfolding(crate::specs::Picture::told_part))]
fn put_told_part(page: &mut Vec<u8>, told: &[u8]) -> Result<(), AllocError>
    ensures { OnOk result (page.new.items ≡ page.old.items ++ told_part told.now) }
{
    put_until(page, told, b"</desc>\n<style>\n")
}

// Puts bytes as text, and what ends it.
#[tactic(auto, using(std::proofs::Common::append_assoc), unfolding(crate::specs::Mark::until_text))]
fn put_until(page: &mut Vec<u8>, bytes: &[u8], end: &[u8]) -> Result<(), AllocError>
    ensures { OnOk result (page.new.items ≡ page.old.items ++ until_text bytes.now end.now) }
{
    put_escaped(page, bytes)?;
    page.extend_from_slice(end)
}

// What is told of the whole run, in words.
#[tactic(auto, using(crate::proofs::PutLemmas::put_four), unfolding(crate::specs::Picture::run_told))]
fn told(alloc: Global, picture: &Picture<'_, '_>) -> Result<Vec<u8>, AllocError>
    ensures { IfOk result (λ text. text.items ≡ run_told picture.now) }
{
    let mut text = Vec::new(alloc);
    put_run(&mut text, picture)?;
    Ok(text)
}

// Puts what is told of the whole run.
#[tactic(auto, using(crate::proofs::PutLemmas::put_four), unfolding(crate::specs::Picture::run_told))]
fn put_run(text: &mut Vec<u8>, picture: &Picture<'_, '_>) -> Result<(), AllocError>
    ensures { OnOk result (text.new.items ≡ text.old.items ++ run_told picture.now) }
{
    put_count(text, picture.happened.steps.len() as u64, b" step", b"; ")?;
    put_opens(text, picture.happened)?;
    put_sent(text, picture.happened)?;
    put_shown(text, picture)
}

// Puts what is told of the opens.
#[tactic(auto, using(crate::proofs::PutLemmas::put_two), unfolding(crate::specs::Picture::opens_told))]
fn put_opens(text: &mut Vec<u8>, happened: &Happened<'_>) -> Result<(), AllocError>
    ensures { OnOk result (text.new.items ≡ text.old.items ++ opens_told happened.now) }
{
    let counts = happened.counts;
    let answered = counts
        .granted
        .saturating_add(counts.unscanned)
        .saturating_add(counts.denied);
    let waits = waiting(happened.opens.bars()) as u64;
    put_count(text, answered.saturating_add(waits), b" open", b": ")?;
    put_answered(text, counts, waits)
}

// Puts how many opens were told what, and how many wait.
#[tactic(auto, unfolding(crate::specs::Picture::answered_told))]
fn put_answered(text: &mut Vec<u8>, counts: Counts, waits: u64) -> Result<(), AllocError>
    ensures { OnOk result (text.new.items ≡ text.old.items ++ answered_told counts waits) }
{
    put_parts(
        text,
        &[
            Part::Number(counts.granted),
            Part::Text(b" granted, "),
            Part::Number(counts.unscanned),
            Part::Text(b" let through unscanned, "),
            Part::Number(counts.denied),
            Part::Text(b" denied, "),
            Part::Number(waits),
            Part::Text(b" waiting; "),
        ],
    )
}

// How many of these opens wait.
fn waiting(bars: &[Bar<'_>]) -> usize
    ensures value { result ≡ waiting bars.now }
    ensures bound { result ≤ length bars.now }
{
    let mut count = 0;
    for bar in bars {
        count += waits(bar);
    }
    count
}

// An open that waits, as a count.
fn waits(bar: &Bar<'_>) -> usize
    ensures value { result ≡ (if is_none bar.now.end then 1 else 0) }
    ensures bound { result ≤ 1 }
{
    if bar.end.is_none() { 1 } else { 0 }
}

// Puts what is told of the messages.
#[tactic(auto, using(crate::proofs::PutLemmas::put_two), unfolding(crate::specs::Picture::messages_told))]
fn put_sent(text: &mut Vec<u8>, happened: &Happened<'_>) -> Result<(), AllocError>
    ensures { OnOk result (text.new.items ≡ text.old.items ++ messages_told happened.now) }
{
    let messages = (happened.down.len() as u64).saturating_add(happened.up.len() as u64);
    let lost = (lost_of(&happened.down) as u64).saturating_add(lost_of(&happened.up) as u64);
    let again = again_of(&happened.down).saturating_add(again_of(&happened.up));
    put_count(text, messages, b" message", b": ")?;
    put_delivered(text, lost, again)
}

#[tactic(auto, unfolding(crate::specs::Picture::delivered_told))]
fn put_delivered(text: &mut Vec<u8>, lost: u64, again: u64) -> Result<(), AllocError>
    ensures { OnOk result (text.new.items ≡ text.old.items ++ delivered_told lost again) }
{
    put_parts(
        text,
        &[
            Part::Number(lost),
            Part::Text(b" never delivered, "),
            Part::Number(again),
            Part::Text(b" delivered again."),
        ],
    )
}

// Puts which lines are shown, where these are not all.
#[tactic(auto, unfolding(crate::specs::Picture::shown_told))]
fn put_shown(text: &mut Vec<u8>, picture: &Picture<'_, '_>) -> Result<(), AllocError>
    ensures { OnOk result (text.new.items ≡ text.old.items ++ shown_told picture.now) }
{
    let steps = picture.steps();
    if steps.len() == picture.happened.steps.len() {
        return Ok(());
    }
    let (Some(first), Some(last)) = (steps.first(), steps.last()) else {
        return Ok(());
    };
    put_parts(
        text,
        &[
            Part::Text(b" Shown: lines "),
            Part::Number(first.line),
            Part::Text(b" to "),
            Part::Number(last.line),
            Part::Text(b"."),
        ],
    )
}

// Puts how many there are of what a word names.
#[tactic(auto, using(crate::proofs::PutLemmas::put_two), unfolding(crate::specs::Picture::count_text))]
fn put_count<'a>(
    text: &mut Vec<u8>,
    count: u64,
    word: &'a [u8],
    behind: &'a [u8],
) -> Result<(), AllocError>
    ensures { OnOk result (text.new.items ≡ text.old.items ++ count_text count word.now behind.now) }
{
    let plural = if count == 1 {
        b"".as_slice()
    } else {
        b"s".as_slice()
    };
    put_parts(
        text,
        &[
            Part::Number(count),
            Part::Text(word),
            Part::Text(plural),
            Part::Text(behind),
        ],
    )
}

// How many messages never arrived.
fn lost_of(messages: &[Sent]) -> usize
    ensures value { result ≡ lost_of messages.now }
    ensures bound { result ≤ length messages.now }
{
    let mut count = 0;
    for sent in messages {
        count += is_lost(sent);
    }
    count
}

// A message that never arrived, as a count.
fn is_lost(sent: &Sent) -> usize
    ensures value { result ≡ (if length sent.now.arrivals.items == 0 then 1 else 0) }
    ensures bound { result ≤ 1 }
{
    if sent.arrivals.is_empty() { 1 } else { 0 }
}

// How many arrivals were not the first of their message.
fn again_of(messages: &[Sent]) -> u64
    ensures { result ≡ capped (again_of messages.now) }
{
    let mut again = 0u64;
    for sent in messages {
        again = again.saturating_add(repeats(sent));
    }
    again
}

// How many arrivals of a message were not the first.
fn repeats(sent: &Sent) -> u64
    ensures { result ≡ length sent.now.arrivals.items - 1 }
{
    (sent.arrivals.len() as u64).saturating_sub(1)
}

// Puts a stripe under every other row.
#[tactic(auto, unfolding(crate::specs::Picture::stripes_text))]
fn put_stripes(page: &mut Vec<u8>, picture: &Picture<'_, '_>) -> Result<(), AllocError>
    ensures { OnOk result (page.new.items ≡ page.old.items ++ stripes_text picture.now) }
{
    put_stripes_under(page, picture, picture.steps())
}

fn put_stripes_under(
    page: &mut Vec<u8>,
    picture: &Picture<'_, '_>,
    steps: &[Step],
) -> Result<(), AllocError>
    ensures { OnOk result (page.new.items ≡ page.old.items ++ placed (stripe_at picture.now) 0 steps.now) }
{
    for (index, step) in steps.iter().enumerate() {
        put_if_odd(page, picture, index, step)?;
    }
    Ok(())
}

// Puts the stripe under a row, where one stands there.
fn put_if_odd(
    page: &mut Vec<u8>,
    picture: &Picture<'_, '_>,
    index: usize,
    step: &Step,
) -> Result<(), AllocError>
    ensures { OnOk result (page.new.items ≡ page.old.items ++ stripe_at picture.now index step.now) }
{
    if index % 2 == 1 {
        put_stripe(page, picture, picture.number(index), step)?;
    }
    Ok(())
}

#[tactic(auto, unfolding(crate::specs::Picture::stripe_text))]
fn put_stripe(
    page: &mut Vec<u8>,
    picture: &Picture<'_, '_>,
    number: u64,
    step: &Step,
) -> Result<(), AllocError>
    ensures { OnOk result (page.new.items ≡ page.old.items ++ stripe_text picture.now number step.now) }
{
    put_mark(
        page,
        &Mark::Block {
            class: b"stripe",
            at: Spot {
                x: 0,
                y: picture.places.top(number).saturating_sub(GAP / 2),
            },
            width: WIDTH,
            height: height_of(step).saturating_add(GAP),
            more: b"",
        },
    )
}

// Puts the commands and what each did.
#[tactic(auto, unfolding(crate::specs::Picture::steps_text))]
fn put_steps(alloc: Global, page: &mut Vec<u8>, picture: &Picture<'_, '_>) -> Result<(), AllocError>
    ensures { OnOk result (page.new.items ≡ page.old.items ++ steps_text picture.now) }
{
    put_each_step(alloc, page, picture, picture.steps())
}

fn put_each_step(
    alloc: Global,
    page: &mut Vec<u8>,
    picture: &Picture<'_, '_>,
    steps: &[Step],
) -> Result<(), AllocError>
    ensures { OnOk result (page.new.items ≡ page.old.items ++ placed (step_at picture.now) 0 steps.now) }
{
    for (index, step) in steps.iter().enumerate() {
        put_step_at(alloc, page, picture, index, step)?;
    }
    Ok(())
}

// Puts the step that is so many behind the first.
fn put_step_at(
    alloc: Global,
    page: &mut Vec<u8>,
    picture: &Picture<'_, '_>,
    index: usize,
    step: &Step,
) -> Result<(), AllocError>
    ensures { OnOk result (page.new.items ≡ page.old.items ++ step_at picture.now index step.now) }
{
    put_step(alloc, page, picture, picture.number(index), step)
}

// Puts a command and what it did.
#[tactic(auto, using(crate::proofs::PutLemmas::put_three), unfolding(crate::specs::Picture::step_text))]
fn put_step(
    alloc: Global,
    page: &mut Vec<u8>,
    picture: &Picture<'_, '_>,
    number: u64,
    step: &Step,
) -> Result<(), AllocError>
    ensures { OnOk result (page.new.items ≡ page.old.items ++ step_text picture.now number step.now) }
{
    let y = picture.places.top(number).saturating_add(16);
    put_command(alloc, page, step, picture.command(step), y)?;
    put_left(alloc, page, picture, number, step)?;
    put_right(alloc, page, picture, number, step)
}

// Puts the number and the text of a command's line, and why it is refused.
#[tactic(auto, using(crate::proofs::PutLemmas::put_three), unfolding(crate::specs::Picture::command_text))]
fn put_command(
    alloc: Global,
    page: &mut Vec<u8>,
    step: &Step,
    command: &[u8],
    y: u32,
) -> Result<(), AllocError>
    ensures { OnOk result (page.new.items ≡ page.old.items ++ command_text step.now command.now y) }
{
    put_number(alloc, page, step.line, y)?;
    put_words(alloc, page, step.refused, command, y)?;
    put_refused(alloc, page, step.refused, y)
}

// Puts the number of a line.
#[tactic(auto, unfolding(crate::specs::Picture::number_text))]
fn put_number(alloc: Global, page: &mut Vec<u8>, line: u64, y: u32) -> Result<(), AllocError>
    ensures { OnOk result (page.new.items ≡ page.old.items ++ number_text line y) }
{
    let number = label(alloc, &[Part::Number(line)])?;
    put_mark(
        page,
        &Mark::Words {
            at: Spot { x: NUMBERS, y },
            look: b" class=\"n\" text-anchor=\"end\"",
            words: &number,
        },
    )
}

// Puts the text of a command.
#[tactic(auto, unfolding(crate::specs::Picture::typed_text))]
fn put_words(
    alloc: Global,
    page: &mut Vec<u8>,
    refused: Option<Refused>,
    command: &[u8],
    y: u32,
) -> Result<(), AllocError>
    ensures { OnOk result (page.new.items ≡ page.old.items ++ typed_text refused command.now y) }
{
    let words = short(alloc, command, 27)?;
    put_mark(
        page,
        &Mark::Titled {
            at: Spot { x: NUMBERS + 8, y },
            look: command_look(refused),
            title: command,
            words: &words,
        },
    )
}

// A command is grey where it is refused.
fn command_look(refused: Option<Refused>) -> &'static [u8]
    ensures { result.now ≡ command_look refused }
{
    match refused {
        Some(_) => b" class=\"n\"".as_slice(),
        None => b"".as_slice(),
    }
}

// Puts why a command is refused, where it is.
fn put_refused(
    alloc: Global,
    page: &mut Vec<u8>,
    refused: Option<Refused>,
    y: u32,
) -> Result<(), AllocError>
    ensures { OnOk result (page.new.items ≡ page.old.items ++ refused_text refused y) }
{
    match refused {
        Some(why) => put_refusal(alloc, page, why, y),
        None => Ok(()),
    }
}

#[tactic(auto, unfolding(crate::specs::Picture::refusal_text))]
fn put_refusal(alloc: Global, page: &mut Vec<u8>, why: Refused, y: u32) -> Result<(), AllocError>
    ensures { OnOk result (page.new.items ≡ page.old.items ++ refusal_text why y) }
{
    let word = match why {
        Refused::Step(fault) => fault.word(),
        Refused::Judge(fault) => fault.word(),
    };
    let words = label(
        alloc,
        &[Part::Text(b"refused "), Part::Text(word.as_bytes())],
    )?;
    put_mark(
        page,
        &Mark::Words {
            at: Spot { x: VOLUME - 62, y },
            look: b" class=\"r halo\"",
            words: &words,
        },
    )
}
