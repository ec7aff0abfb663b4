//! What a step did on the right of the port: to the service and its works.

ghost use Rattle.std.specs.Prelude.{◌≡◌, ◌++◌, IfOk, OnOk};
ghost use Rattle.av_chart.specs.Right.{back_text, back_words, lent_label, lent_text, noted_right, ran_text, right_text, service_label, service_pill, service_text, told_text};
ghost use Rattle.av_chart.specs.Row.{is_noted};

use super::bars::SLOT;
use super::lanes::{put_arrow, put_pill, wide};
use super::{Picture, SERVICE};
use crate::happened::{ServiceMark, Step};
use crate::happening::word;
use crate::label::{label, port_end, told_note};
use crate::life::{Bar, Moment};
use crate::mark::{Mark, Side, put_mark};
use crate::spot::Spot;
use av_base::Part;
use av_history::EventNote;
use std::alloc::{AllocError, Global};

/// Where the service's notes and works are told.
const TOLD: u32 = SERVICE + 96;

/// Puts what a step did on the right.
#[tactic(auto, using(crate::proofs::PutLemmas::put_four), unfolding(crate::specs::Right::right_text))]
pub fn put_right(
    alloc: Global,
    page: &mut Vec<u8>,
    picture: &Picture<'_, '_>,
    number: u64,
    step: &Step,
) -> Result<(), AllocError>
    ensures { OnOk result (page.new.items ≡ page.old.items ++ right_text picture.now number step.now) }
{
    let y = picture.places.y(Moment {
        step: number,
        line: 0,
    });
    put_service(alloc, page, step.service, y)?;
    put_noted(alloc, page, picture, step, y)?;
    put_lent(alloc, page, picture, step.lent, y)?;
    put_ran(alloc, page, picture, step, y)
}

// Puts what befalls the service.
fn put_service(
    alloc: Global,
    page: &mut Vec<u8>,
    mark: Option<ServiceMark>,
    y: u32,
) -> Result<(), AllocError>
    ensures { OnOk result (page.new.items ≡ page.old.items ++ service_text mark y) }
{
    let Some(mark) = mark else {
        return Ok(());
    };
    let words = service_label(alloc, mark)?;
    put_service_pill(page, &words, y)
}

#[tactic(auto, unfolding(crate::specs::Right::service_pill))]
fn put_service_pill(page: &mut Vec<u8>, words: &[u8], y: u32) -> Result<(), AllocError>
    ensures { OnOk result (page.new.items ≡ page.old.items ++ service_pill words.now y) }
{
    put_pill(page, Spot { x: TOLD, y }.right_of(wide(words) / 2), words)
}

// Puts the service's note of a step.
fn put_noted(
    alloc: Global,
    page: &mut Vec<u8>,
    picture: &Picture<'_, '_>,
    step: &Step,
    y: u32,
) -> Result<(), AllocError>
    ensures { OnOk result (page.new.items ≡ page.old.items ++ noted_right picture.now.world.now step.now y) }
{
    if !step.is_noted() {
        return Ok(());
    }
    let EventNote::Service(note) = step.note.note() else {
        return Ok(());
    };
    let line = told_note(alloc, picture.world, EventNote::Service(note))?;
    put_told(page, b" class=\"tw halo\"", word(&line, 1), y)
}

#[tactic(auto, unfolding(crate::specs::Right::service_label))]
fn service_label(alloc: Global, mark: ServiceMark) -> Result<Vec<u8>, AllocError>
    ensures { IfOk result (λ text. text.items ≡ service_label mark) }
{
    match mark {
        ServiceMark::FilterLost { port } => label(
            alloc,
            &[Part::Text(b"filter is lost"), Part::Text(port_end(port))],
        ),
        ServiceMark::Restart { port } => label(
            alloc,
            &[Part::Text(b"restart"), Part::Text(port_end(port))],
        ),
        ServiceMark::Set {
            version,
            signatures,
        } => label(
            alloc,
            &[
                Part::Text(b"set v"),
                Part::Number(version),
                Part::Text(b", "),
                Part::Number(signatures),
                Part::Text(if signatures == 1 {
                    b" signature".as_slice()
                } else {
                    b" signatures".as_slice()
                }),
            ],
        ),
    }
}

// Puts words right of the works.
#[tactic(auto, unfolding(crate::specs::Right::told_text))]
fn put_told(page: &mut Vec<u8>, look: &[u8], words: &[u8], y: u32) -> Result<(), AllocError>
    ensures { OnOk result (page.new.items ≡ page.old.items ++ told_text look.now words.now y) }
{
    put_mark(
        page,
        &Mark::Words {
            at: Spot { x: TOLD, y }.below(4),
            look,
            words,
        },
    )
}

// Puts the piece of work that was lent.
fn put_lent(
    alloc: Global,
    page: &mut Vec<u8>,
    picture: &Picture<'_, '_>,
    index: Option<usize>,
    y: u32,
) -> Result<(), AllocError>
    ensures { OnOk result (page.new.items ≡ page.old.items ++ lent_text picture.now.happened.now.works_told.items index y) }
{
    let Some(index) = index else {
        return Ok(());
    };
    let Some(line) = picture.happened.works_told.get(index) else {
        return Ok(());
    };
    let words = lent_label(alloc, line)?;
    put_told(page, b" class=\"halo\"", &words, y)
}

// The words of work that was lent, of the line that told it.
#[tactic(auto, unfolding(crate::specs::Right::lent_label))]
fn lent_label(alloc: Global, line: &[u8]) -> Result<Vec<u8>, AllocError>
    ensures { IfOk result (λ text. text.items ≡ lent_label line.now) }
{
    label(
        alloc,
        &[
            Part::Text(b"work "),
            Part::Text(word(line, 1)),
            Part::Text(b": "),
            Part::Text(word(line, 7)),
            Part::Text(b" B from "),
            Part::Text(word(line, 5)),
        ],
    )
}

// Puts the piece of work that comes back.
fn put_ran(
    alloc: Global,
    page: &mut Vec<u8>,
    picture: &Picture<'_, '_>,
    step: &Step,
    y: u32,
) -> Result<(), AllocError>
    ensures { OnOk result
        (page.new.items ≡ page.old.items ++ ran_text picture.now.happened.now.works step.now.ran (is_noted step.now.note) y) }
{
    let Some(index) = step.ran else {
        return Ok(());
    };
    let Some(bar) = picture.happened.works.bars().get(index) else {
        return Ok(());
    };
    put_back(alloc, page, bar, step.is_noted(), y)
}

// Puts that a piece of work comes back: an arrow from its bar, and words unless a note stands there.
#[tactic(auto, using(std::proofs::Common::append_assoc), unfolding(crate::specs::Right::back_text))]
fn put_back(
    alloc: Global,
    page: &mut Vec<u8>,
    bar: &Bar<'_>,
    is_noted: bool,
    y: u32,
) -> Result<(), AllocError>
    ensures { OnOk result (page.new.items ≡ page.old.items ++ back_text bar.now is_noted y) }
{
    let from = Spot { x: SERVICE + 50, y }.right_of(bar.slot.saturating_mul(SLOT));
    put_arrow(page, b"o", b"ho", from, Spot { x: SERVICE, y }, Side::Left)?;
    put_back_words(alloc, page, bar, is_noted, y)
}

#[tactic(auto, unfolding(crate::specs::Right::back_words))]
fn put_back_words(
    alloc: Global,
    page: &mut Vec<u8>,
    bar: &Bar<'_>,
    is_noted: bool,
    y: u32,
) -> Result<(), AllocError>
    ensures { OnOk result (page.new.items ≡ page.old.items ++ back_words bar.now is_noted y) }
{
    if is_noted {
        return Ok(());
    }
    let words = label(
        alloc,
        &[
            Part::Text(b"work "),
            Part::Number(bar.id.seq),
            Part::Text(b" comes back"),
        ],
    )?;
    put_told(page, b" class=\"n halo\"", &words, y)
}
