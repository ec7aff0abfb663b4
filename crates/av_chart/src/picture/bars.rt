//! The bars of what lives, beside their lanes.

ghost use Rattle.std.specs.Prelude.{◌≡◌, ◌-◌, ◌++◌, max, IfOk, OnOk};
ghost use Rattle.av_chart.specs.Bars.{all_bars_text, bar_shown, bar_title, bars_text, class_of, edge_of, end_at, ended_text, how_text, life_bar, life_text, reaches, told_by};
ghost use Rattle.av_chart.specs.Place.{y_of};

use super::{FILTER, OPENER, Picture, SERVICE};
use crate::escape::put_parts;
use crate::label::label;
use crate::life::{Bar, End, How, Moment};
use crate::mark::{Mark, put_mark};
use crate::place::Places;
use crate::spot::Spot;
use av_base::Part;
use std::alloc::{AllocError, Global};

/// The width of a place beside a lane.
pub const SLOT: u32 = 8;

/// What lives beside a lane.
#[derive(Clone, Copy)]
pub enum Kind {
    Open,
    Question,
    Job,
    Work,
}

/// Puts the bars of opens, questions, jobs and works.
#[tactic(auto, using(crate::proofs::PutLemmas::put_four), unfolding(crate::specs::Bars::all_bars_text))]
pub fn put_all_bars(
    alloc: Global,
    page: &mut Vec<u8>,
    picture: &Picture<'_, '_>,
) -> Result<(), AllocError>
    ensures { OnOk result (page.new.items ≡ page.old.items ++ all_bars_text picture.now) }
{
    put_bars(
        alloc,
        page,
        picture,
        Kind::Open,
        picture.happened.opens.bars(),
    )?;
    put_bars(
        alloc,
        page,
        picture,
        Kind::Question,
        picture.happened.questions.bars(),
    )?;
    put_bars(
        alloc,
        page,
        picture,
        Kind::Job,
        picture.happened.jobs.bars(),
    )?;
    put_bars(
        alloc,
        page,
        picture,
        Kind::Work,
        picture.happened.works.bars(),
    )
}

// Puts the bars of one kind that reach into the picture.
fn put_bars(
    alloc: Global,
    page: &mut Vec<u8>,
    picture: &Picture<'_, '_>,
    kind: Kind,
    bars: &[Bar<'_>],
) -> Result<(), AllocError>
    ensures { OnOk result (page.new.items ≡ page.old.items ++ bars_text picture.now kind bars.now) }
{
    for bar in bars {
        put_shown(alloc, page, picture, kind, bar)?;
    }
    Ok(())
}

// Puts a bar, where it reaches into the picture.
fn put_shown(
    alloc: Global,
    page: &mut Vec<u8>,
    picture: &Picture<'_, '_>,
    kind: Kind,
    bar: &Bar<'_>,
) -> Result<(), AllocError>
    ensures { OnOk result (page.new.items ≡ page.old.items ++ bar_shown picture.now kind bar.now) }
{
    if reaches(picture, bar) {
        put_bar(alloc, page, picture, kind, bar)?;
    }
    Ok(())
}

// When a life ends; what never ended ends behind the picture.
fn end_at(picture: &Picture<'_, '_>, end: Option<End>) -> Moment
    ensures { result ≡ end_at picture.now end }
{
    match end {
        Some(end) => end.at,
        None => Moment {
            step: picture.behind(),
            line: 0,
        },
    }
}

// Whether a life reaches into the picture.
fn reaches(picture: &Picture<'_, '_>, bar: &Bar<'_>) -> bool
    ensures { result ≡ reaches picture.now bar.now }
{
    end_at(picture, bar.end).step >= picture.first as u64 && bar.begin.step < picture.behind()
}

#[tactic(auto, unfolding(crate::specs::Bars::life_bar))]
fn put_bar(
    alloc: Global,
    page: &mut Vec<u8>,
    picture: &Picture<'_, '_>,
    kind: Kind,
    bar: &Bar<'_>,
) -> Result<(), AllocError>
    ensures { OnOk result (page.new.items ≡ page.old.items ++ life_bar picture.now kind bar.now) }
{
    let title = title_of(alloc, picture, kind, bar)?;
    put_mark(
        page,
        &Mark::Bar {
            class: class_of(kind),
            at: Spot {
                x: left_of(kind, bar.slot),
                y: picture.places.y(bar.begin),
            },
            height: height_between(picture.places, bar.begin, end_at(picture, bar.end)),
            title: &title,
        },
    )
}

// How high a bar is, from one moment to another: at least 4.
fn height_between(places: &Places, begin: Moment, end: Moment) -> u32
    ensures { result ≡ max (y_of places.now end - y_of places.now begin) 4 }
{
    places.y(end).saturating_sub(places.y(begin)).max(4)
}

fn class_of(kind: Kind) -> &'static [u8]
    ensures { result.now ≡ class_of kind }
{
    match kind {
        Kind::Open => b"bo".as_slice(),
        Kind::Question => b"bq".as_slice(),
        Kind::Job => b"bj".as_slice(),
        Kind::Work => b"bw".as_slice(),
    }
}

// The left edge of a bar at a place beside its lane.
fn left_of(kind: Kind, slot: u32) -> u32
    ensures { result ≡ edge_of kind slot }
{
    let far = slot.saturating_mul(SLOT).saturating_add(4);
    match kind {
        Kind::Open => OPENER.saturating_sub(far).saturating_sub(SLOT - 2),
        Kind::Question => FILTER.saturating_sub(far).saturating_sub(SLOT - 2),
        Kind::Job => SERVICE.saturating_add(far),
        Kind::Work => (SERVICE + 44).saturating_add(far),
    }
}

// What lives, and how it ended.
#[tactic(auto, unfolding(crate::specs::Bars::bar_title))]
fn title_of(
    alloc: Global,
    picture: &Picture<'_, '_>,
    kind: Kind,
    bar: &Bar<'_>,
) -> Result<Vec<u8>, AllocError>
    ensures { IfOk result (λ title. title.items ≡ bar_title picture.now kind bar.now) }
{
    let mut title = life_of(alloc, picture, kind, bar)?;
    put_ended(&mut title, bar.end)?;
    Ok(title)
}

// Puts whether a life ended, and how.
#[tactic(auto, unfolding(crate::specs::Bars::ended_text))]
fn put_ended(title: &mut Vec<u8>, end: Option<End>) -> Result<(), AllocError>
    ensures { OnOk result (title.new.items ≡ title.old.items ++ ended_text end) }
{
    match end {
        None => title.extend_from_slice(b", not ended"),
        Some(end) => put_how(title, end.how),
    }
}

#[tactic(auto, unfolding(crate::specs::Bars::how_text))]
fn put_how(title: &mut Vec<u8>, how: How) -> Result<(), AllocError>
    ensures { OnOk result (title.new.items ≡ title.old.items ++ how_text how) }
{
    match how {
        How::Granted => title.extend_from_slice(b", granted"),
        How::Unscanned => title.extend_from_slice(b", unscanned"),
        How::Denied => title.extend_from_slice(b", denied"),
        How::Aborted => title.extend_from_slice(b", aborted"),
        How::Clean => title.extend_from_slice(b", clean"),
        How::Infected => title.extend_from_slice(b", infected"),
        How::Failed => title.extend_from_slice(b", failed"),
        How::Ended => title.extend_from_slice(b", ended"),
        How::Dropped => title.extend_from_slice(b", dropped"),
        How::Run => title.extend_from_slice(b", run"),
        How::Byte(byte) => put_parts(title, &[Part::Text(b", "), Part::Number(byte)]),
    }
}

#[tactic(auto, unfolding(crate::specs::Bars::life_text))]
fn life_of(
    alloc: Global,
    picture: &Picture<'_, '_>,
    kind: Kind,
    bar: &Bar<'_>,
) -> Result<Vec<u8>, AllocError>
    ensures { IfOk result (λ title. title.items ≡ life_text picture.now kind bar.now) }
{
    match kind {
        Kind::Open => label(
            alloc,
            &[
                Part::Text(b"open "),
                Part::Number(bar.id.seq),
                Part::Text(b" of "),
                Part::Text(bar.name),
            ],
        ),
        Kind::Question => label(
            alloc,
            &[
                Part::Text(b"question "),
                Part::Number(bar.id.boot),
                Part::Text(b"."),
                Part::Number(bar.id.seq),
                Part::Text(b": "),
                Part::Text(bar.name),
                Part::Text(b" generation "),
                Part::Number(bar.generation),
            ],
        ),
        Kind::Job => label(
            alloc,
            &[
                Part::Text(b"job of "),
                Part::Number(bar.id.boot),
                Part::Text(b"."),
                Part::Number(bar.id.seq),
            ],
        ),
        Kind::Work => work_of(alloc, picture, bar.id.seq),
    }
}

// The line that told a piece of work.
fn work_of(alloc: Global, picture: &Picture<'_, '_>, number: u64) -> Result<Vec<u8>, AllocError>
    ensures { IfOk result (λ title. title.items ≡ told_by picture.now number) }
{
    match picture
        .happened
        .works_told
        .get(number.saturating_sub(1) as usize)
    {
        Some(line) => Vec::from_slice(alloc, line),
        None => Ok(Vec::new(alloc)),
    }
}
