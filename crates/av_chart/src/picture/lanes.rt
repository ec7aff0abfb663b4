//! The lanes, their names, and the shapes that several parts of a picture have.

ghost use Rattle.std.specs.Prelude.{◌≡◌, ◌++◌, OnOk};
ghost use Rattle.av_output.specs.Text.Messages.{placed};
ghost use Rattle.av_chart.specs.Arrow.{arrow_text, cross_text};
ghost use Rattle.av_chart.specs.Lanes.{band_at, band_of_names, lane_text, lanes_text, name_text, names_text, pill_text, wide};
ghost use Rattle.av_chart.specs.Mark.{mark_text};
ghost use Rattle.av_chart.specs.Picture.{band_over, bands_text, step_number};

use super::{FILTER, OPENER, PORT, Picture, SERVICE, VOLUME};
use crate::happened::Step;
use crate::mark::{Mark, Side, put_mark, put_marks};
use crate::place::{HEADS, TOP};
use crate::spot::Spot;
use std::alloc::AllocError;

/// The look of words that stand round their spot.
const MIDDLE: &[u8] = b" text-anchor=\"middle\"";

const NAME: &[u8] = b" class=\"h halo\" text-anchor=\"middle\"";

/// Puts the lanes, down to the end of the last row.
#[tactic(auto, unfolding(crate::specs::Lanes::lanes_text))]
pub fn put_lanes(page: &mut Vec<u8>, bottom: u32) -> Result<(), AllocError>
    ensures { OnOk result (page.new.items ≡ page.old.items ++ lanes_text bottom) }
{
    put_marks(
        page,
        &[
            lane(b"l", VOLUME, bottom),
            lane(b"l", OPENER, bottom),
            lane(b"l", FILTER, bottom),
            lane(b"l", SERVICE, bottom),
            lane(b"l spent", PORT, bottom),
        ],
    )
}

#[tactic(auto, unfolding(crate::specs::Lanes::lane_text))]
fn lane(class: &[u8], x: u32, bottom: u32) -> Mark<'_>
    ensures { mark_text result ≡ lane_text class.now x bottom }
{
    Mark::Line {
        class,
        from: Spot { x, y: TOP - 12 },
        to: Spot { x, y: bottom },
    }
}

/// Puts the names of the lanes.
#[tactic(auto, unfolding(crate::specs::Lanes::names_text))]
pub fn put_names(page: &mut Vec<u8>, y: u32) -> Result<(), AllocError>
    ensures { OnOk result (page.new.items ≡ page.old.items ++ names_text y) }
{
    put_marks(
        page,
        &[
            name(b"volume", VOLUME, y),
            name(b"opener", OPENER, y),
            name(b"filter", FILTER, y),
            name(b"port", PORT, y),
            name(b"service", SERVICE, y),
        ],
    )
}

#[tactic(auto, unfolding(crate::specs::Lanes::name_text))]
fn name(words: &[u8], x: u32, y: u32) -> Mark<'_>
    ensures { mark_text result ≡ name_text words.now x y }
{
    Mark::Words {
        at: Spot { x, y },
        look: NAME,
        words,
    }
}

/// Puts the names of the lanes again, in bands between the rows.
#[tactic(auto, unfolding(crate::specs::Picture::bands_text))]
pub fn put_bands(page: &mut Vec<u8>, picture: &Picture<'_, '_>) -> Result<(), AllocError>
    ensures { OnOk result (page.new.items ≡ page.old.items ++ bands_text picture.now) }
{
    put_bands_over(page, picture, picture.steps())
}

fn put_bands_over(
    page: &mut Vec<u8>,
    picture: &Picture<'_, '_>,
    steps: &[Step],
) -> Result<(), AllocError>
    ensures { OnOk result (page.new.items ≡ page.old.items ++ placed (band_over picture.now) 0 steps.now) }
{
    for (index, _step) in steps.iter().enumerate() {
        put_band_over(page, picture, index)?;
    }
    Ok(())
}

// Puts the band above the row of a step, which is so many behind the first, where one stands there.
fn put_band_over(
    page: &mut Vec<u8>,
    picture: &Picture<'_, '_>,
    index: usize,
) -> Result<(), AllocError>
    ensures { OnOk result (page.new.items ≡ page.old.items ++ band_at picture.now.places.now (step_number picture.now index) index) }
{
    if index > 0 && index % HEADS == 0 {
        let top = picture.places.top(picture.number(index));
        put_band(page, top.saturating_sub(14))?;
    }
    Ok(())
}

// Puts the names of the lanes in a band.
#[tactic(auto, using(crate::proofs::PutLemmas::put_two), unfolding(crate::specs::Lanes::band_of_names))]
fn put_band(page: &mut Vec<u8>, y: u32) -> Result<(), AllocError>
    ensures { OnOk result (page.new.items ≡ page.old.items ++ band_of_names y) }
{
    put_mark(
        page,
        &Mark::Band {
            y: y.saturating_sub(14),
        },
    )?;
    put_names(page, y)
}

/// Puts words in a pill round a spot.
#[tactic(auto, unfolding(crate::specs::Lanes::pill_text))]
pub fn put_pill(page: &mut Vec<u8>, at: Spot, words: &[u8]) -> Result<(), AllocError>
    ensures { OnOk result (page.new.items ≡ page.old.items ++ pill_text at words.now) }
{
    let half = (wide(words) / 2).saturating_add(7);
    put_marks(
        page,
        &[
            Mark::Block {
                class: b"pill",
                at: at.left_of(half).above(9),
                width: half.saturating_mul(2),
                height: 17,
                more: b" rx=\"8\"",
            },
            Mark::Words {
                at: at.below(4),
                look: MIDDLE,
                words,
            },
        ],
    )
}

/// About how wide words are.
pub fn wide(words: &[u8]) -> u32
    ensures { result ≡ wide words.now }
{
    match u32::try_from(words.len()) {
        Ok(count) => count.saturating_mul(7),
        Err(_) => u32::MAX,
    }
}

/// Puts the cross at which a message that never arrives ends.
#[tactic(auto, unfolding(crate::specs::Arrow::cross_text))]
pub fn put_cross(page: &mut Vec<u8>, at: Spot) -> Result<(), AllocError>
    ensures { OnOk result (page.new.items ≡ page.old.items ++ cross_text at) }
{
    put_marks(
        page,
        &[
            Mark::Line {
                class: b"x",
                from: at.left_of(5).above(5),
                to: at.right_of(5).below(5),
            },
            Mark::Line {
                class: b"x",
                from: at.left_of(5).below(5),
                to: at.right_of(5).above(5),
            },
        ],
    )
}

/// Puts an arrow.
#[tactic(auto, unfolding(crate::specs::Arrow::arrow_text))]
pub fn put_arrow(
    page: &mut Vec<u8>,
    class: &[u8],
    head: &[u8],
    from: Spot,
    to: Spot,
    side: Side,
) -> Result<(), AllocError>
    ensures { OnOk result (page.new.items ≡ page.old.items ++ arrow_text class.now head.now from to side) }
{
    put_marks(
        page,
        &[
            Mark::Line { class, from, to },
            Mark::Head {
                class: head,
                tip: to,
                side,
            },
        ],
    )
}
