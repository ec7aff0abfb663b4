//! The arrows of messages.

ghost use Rattle.std.specs.Prelude.{◌≡◌, ◌+◌, ◌++◌, map, slice_get, vec_len, IfOk, OnOk};
ghost use Rattle.std.specs.List.{list_any};
ghost use Rattle.av_base.specs.Part.{spelt};
ghost use Rattle.av_output.specs.Text.Messages.{placed};
ghost use Rattle.av_chart.specs.Arrow.{arrival_text, arrival_words, arrives_at, back, class_of, crossed_text, cut_text, goal_of, head_of, leaves_at, leaving_text, look_of, look_of_departure, lost_text, manner_of, near_text, side_of, start_of, towards};
ghost use Rattle.av_chart.specs.Number.{capped};
ghost use Rattle.av_chart.specs.Messages.{arrival_at, arrival_shown, arrivals_text, bodies_on, departure_shown, departure_text, is_shown, leaving_line, manner_at, message_at, message_shown, message_text, messages_text, near_arrival, sent_by_step, sent_on, sent_text, step_late, step_messages, step_spent};
ghost use Rattle.av_chart.specs.Place.{shows};

use super::lanes::{put_cross, wide};
use super::{FILTER, PORT, Picture, SERVICE};
use crate::happened::{Happened, REACH, Sent, Span, Step};
use crate::happening::span_of;
use crate::label::{message_label, message_title};
use crate::life::Moment;
use crate::mark::{Mark, Side, put_mark, put_marks};
use crate::place::Places;
use crate::spot::Spot;
use av_output::Direction;
use std::alloc::{AllocError, Global};

// The lane on which the messages of a way leave.
fn start(way: Direction) -> u32
    ensures { result ≡ start_of way }
{
    match way {
        Direction::Down => FILTER,
        Direction::Up => SERVICE,
    }
}

// The lane on which they arrive.
fn goal(way: Direction) -> u32
    ensures { result ≡ goal_of way }
{
    match way {
        Direction::Down => SERVICE,
        Direction::Up => FILTER,
    }
}

fn side(way: Direction) -> Side
    ensures { result ≡ side_of way }
{
    match way {
        Direction::Down => Side::Right,
        Direction::Up => Side::Left,
    }
}

// The class of the heads of their arrows.
fn head(way: Direction) -> &'static [u8]
    ensures { result.now ≡ head_of way }
{
    match way {
        Direction::Down => b"hd".as_slice(),
        Direction::Up => b"hu".as_slice(),
    }
}

// The class of a line, by what the arrival brings.
fn class(way: Direction, manner: Manner) -> &'static [u8]
    ensures { result.now ≡ class_of way manner }
{
    match (way, manner) {
        (Direction::Down, Manner::Plain) => b"d".as_slice(),
        (Direction::Down, Manner::Again) => b"d again".as_slice(),
        (Direction::Down, Manner::Spent) => b"d spent".as_slice(),
        (Direction::Up, Manner::Plain) => b"u".as_slice(),
        (Direction::Up, Manner::Again) => b"u again".as_slice(),
        (Direction::Up, Manner::Spent) => b"u spent".as_slice(),
    }
}

// So far from a spot towards the goal.
fn towards(way: Direction, spot: Spot, by: u32) -> Spot
    ensures { result ≡ towards way spot by }
{
    match way {
        Direction::Down => spot.right_of(by),
        Direction::Up => spot.left_of(by),
    }
}

// So far from a spot away from the goal.
fn back(way: Direction, spot: Spot, by: u32) -> Spot
    ensures { result ≡ back way spot by }
{
    match way {
        Direction::Down => spot.left_of(by),
        Direction::Up => spot.right_of(by),
    }
}

// How an arrival is drawn.
#[derive(Clone, Copy)]
pub enum Manner {
    Plain,
    Again,
    Spent,
}

// A message that is drawn, with its words.
#[derive(Clone, Copy)]
struct Shown<'m> {
    way: Direction,
    sent: &'m Sent,
    words: &'m [u8],
    title: &'m [u8],
}

/// Puts the messages, as they were sent.
#[tactic(auto, unfolding(crate::specs::Messages::messages_text))]
pub fn put_messages(
    alloc: Global,
    page: &mut Vec<u8>,
    picture: &Picture<'_, '_>,
) -> Result<(), AllocError>
    ensures { OnOk result (page.new.items ≡ page.old.items ++ messages_text picture.now) }
{
    put_by_steps(alloc, page, picture, &picture.happened.steps)
}

fn put_by_steps(
    alloc: Global,
    page: &mut Vec<u8>,
    picture: &Picture<'_, '_>,
    steps: &[Step],
) -> Result<(), AllocError>
    ensures { OnOk result (page.new.items ≡ page.old.items ++ spelt (map (sent_by_step picture.now) steps.now)) }
{
    for step in steps {
        put_by_step(alloc, page, picture, step)?;
    }
    Ok(())
}

// Puts the messages that a step sent.
#[tactic(auto, using(std::proofs::Common::append_assoc), unfolding(crate::specs::Messages::sent_by_step))]
fn put_by_step(
    alloc: Global,
    page: &mut Vec<u8>,
    picture: &Picture<'_, '_>,
    step: &Step,
) -> Result<(), AllocError>
    ensures { OnOk result (page.new.items ≡ page.old.items ++ sent_by_step picture.now step.now) }
{
    put_sent(alloc, page, picture, Direction::Down, step.down)?;
    put_sent(alloc, page, picture, Direction::Up, step.up)
}

// The messages of a way.
fn sent_on<'h>(happened: &'h Happened<'_>, way: Direction) -> &'h [Sent]
    ensures { result.now ≡ sent_on happened.now way }
{
    match way {
        Direction::Down => happened.down.as_slice(),
        Direction::Up => happened.up.as_slice(),
    }
}

// Puts the messages of one way that a step sent.
#[tactic(auto, unfolding(crate::specs::Messages::step_messages))]
fn put_sent(
    alloc: Global,
    page: &mut Vec<u8>,
    picture: &Picture<'_, '_>,
    way: Direction,
    span: Span,
) -> Result<(), AllocError>
    ensures { OnOk result (page.new.items ≡ page.old.items ++ step_messages picture.now way span) }
{
    let messages = span_of(sent_on(picture.happened, way), span);
    put_each(alloc, page, picture, way, span, messages)
}

fn put_each(
    alloc: Global,
    page: &mut Vec<u8>,
    picture: &Picture<'_, '_>,
    way: Direction,
    span: Span,
    messages: &[Sent],
) -> Result<(), AllocError>
    ensures { OnOk result (page.new.items ≡ page.old.items ++ placed (message_at picture.now way span) 0 messages.now) }
{
    for (order, sent) in messages.iter().enumerate() {
        let index = place_in(span, order);
        put_if_shown(alloc, page, picture, way, index, sent)?;
    }
    Ok(())
}

// The place of the message that is so many behind the first of a span.
fn place_in(span: Span, order: usize) -> u64
    ensures { result ≡ capped (span.from + order) }
{
    span.from.saturating_add(order as u64)
}

// Puts the message at a place, where it is shown.
fn put_if_shown(
    alloc: Global,
    page: &mut Vec<u8>,
    picture: &Picture<'_, '_>,
    way: Direction,
    index: u64,
    sent: &Sent,
) -> Result<(), AllocError>
    ensures { OnOk result (page.new.items ≡ page.old.items ++ message_shown picture.now way index sent.now) }
{
    if is_shown(picture, sent) {
        put_message(alloc, page, picture, way, index, sent)?;
    }
    Ok(())
}

// Whether a message is sent or arrives in the picture.
fn is_shown(picture: &Picture<'_, '_>, sent: &Sent) -> bool
    ensures { result ≡ is_shown picture.now sent.now }
{
    picture.places.shows(sent.at.step) || any_shown(picture.places, &sent.arrivals)
}

// Whether one of these steps is shown.
fn any_shown(places: &Places, steps: &[u64]) -> bool
    ensures { result ≡ list_any (shows places.now) steps.now }
{
    for step in steps {
        if places.shows(*step) {
            return true;
        }
    }
    false
}

fn put_message(
    alloc: Global,
    page: &mut Vec<u8>,
    picture: &Picture<'_, '_>,
    way: Direction,
    index: u64,
    sent: &Sent,
) -> Result<(), AllocError>
    ensures { OnOk result
        (page.new.items ≡ page.old.items ++ message_text picture.now way sent.now index (slice_get (bodies_on picture.now.world.now way) index)) }
{
    let all = match way {
        Direction::Down => picture.world.down(),
        Direction::Up => picture.world.up(),
    };
    let Some(message) = all.get(index as usize) else {
        return Ok(());
    };
    let words = message_label(alloc, way, index.saturating_add(1), message)?;
    let title = message_title(alloc, picture.world, way, index)?;
    let shown = Shown {
        way,
        sent,
        words: &words,
        title: &title,
    };
    put_shown(alloc, page, picture, shown)
}

// Puts the departure of a message and its arrivals.
#[tactic(auto, using(std::proofs::Common::append_assoc), unfolding(crate::specs::Messages::sent_text))]
fn put_shown(
    alloc: Global,
    page: &mut Vec<u8>,
    picture: &Picture<'_, '_>,
    shown: Shown<'_>,
) -> Result<(), AllocError>
    ensures { OnOk result
        (page.new.items ≡ page.old.items ++ sent_text picture.now shown.entry.way shown.entry.sent.now shown.entry.words.now shown.entry.title.now) }
{
    put_if_left(page, picture, shown)?;
    put_arrivals(alloc, page, picture, shown)
}

// Puts the departure of a message, where it is shown.
fn put_if_left(
    page: &mut Vec<u8>,
    picture: &Picture<'_, '_>,
    shown: Shown<'_>,
) -> Result<(), AllocError>
    ensures { OnOk result
        (page.new.items ≡ page.old.items ++ departure_shown picture.now shown.entry.way shown.entry.sent.now shown.entry.words.now shown.entry.title.now) }
{
    if picture.places.shows(shown.sent.at.step) {
        put_departure(page, picture, shown)?;
    }
    Ok(())
}

// Puts the arrivals of a message that have arrows of their own.
fn put_arrivals(
    alloc: Global,
    page: &mut Vec<u8>,
    picture: &Picture<'_, '_>,
    shown: Shown<'_>,
) -> Result<(), AllocError>
    ensures { OnOk result
        (page.new.items ≡ page.old.items ++ arrivals_text picture.now shown.entry.way shown.entry.sent.now shown.entry.words.now) }
{
    put_each_arrival(alloc, page, picture, shown, &shown.sent.arrivals)
}

fn put_each_arrival(
    alloc: Global,
    page: &mut Vec<u8>,
    picture: &Picture<'_, '_>,
    shown: Shown<'_>,
    arrivals: &[u64],
) -> Result<(), AllocError>
    ensures { OnOk result (page.new.items ≡ page.old.items
        ++ placed (arrival_shown picture.now shown.entry.way shown.entry.sent.now shown.entry.words.now) 0 arrivals.now) }
{
    for (order, at) in arrivals.iter().enumerate() {
        put_if_own(alloc, page, picture, shown, order, *at)?;
    }
    Ok(())
}

// Puts the arrival of such an order, unless it is not shown, or its arrow stands already.
fn put_if_own(
    alloc: Global,
    page: &mut Vec<u8>,
    picture: &Picture<'_, '_>,
    shown: Shown<'_>,
    order: usize,
    at: u64,
) -> Result<(), AllocError>
    ensures { OnOk result
        (page.new.items ≡ page.old.items ++ arrival_shown picture.now shown.entry.way shown.entry.sent.now shown.entry.words.now order at) }
{
    if picture.places.shows(at) && (order > 0 || near_arrival(picture, shown.sent).is_none()) {
        put_arrival(alloc, page, picture, shown, at, order > 0)?;
    }
    Ok(())
}

// The first arrival of a message, where one arrow shows it.
fn near_arrival(picture: &Picture<'_, '_>, sent: &Sent) -> Option<u64>
    ensures { result ≡ near_arrival picture.now sent.now }
{
    let first = *sent.arrivals.as_slice().first()?;
    let spans = first.saturating_sub(sent.at.step);
    if picture.places.shows(sent.at.step) && picture.places.shows(first) && spans <= REACH {
        Some(first)
    } else {
        None
    }
}

// How the arrival in a step is drawn.
fn arrival_manner(picture: &Picture<'_, '_>, at: u64, is_again: bool) -> Manner
    ensures { result ≡ manner_at picture.now at is_again }
{
    make_manner(is_spent(picture, at), is_again)
}

// Whether the message that arrives in a step brings nothing any more.
fn is_spent(picture: &Picture<'_, '_>, at: u64) -> bool
    ensures { result ≡ step_spent (slice_get picture.now.happened.now.steps.items at) }
{
    let Some(step) = picture.happened.steps.get(at as usize) else {
        return false;
    };
    match step.arrival {
        Some(arrival) => arrival.is_spent,
        None => false,
    }
}

fn make_manner(is_spent: bool, is_again: bool) -> Manner
    ensures { result ≡ manner_of is_spent is_again }
{
    if is_spent {
        Manner::Spent
    } else if is_again {
        Manner::Again
    } else {
        Manner::Plain
    }
}

// How much lower than its line a message leaves its lane.
fn late(picture: &Picture<'_, '_>, sent: &Sent) -> u32
    ensures { result ≡ step_late (slice_get picture.now.happened.now.steps.items sent.now.at.step) }
{
    match picture.happened.steps.get(sent.at.step as usize) {
        Some(step) => step.late(),
        None => 0,
    }
}

// Where a message leaves its lane, so much lower than its line.
fn departure(places: &Places, way: Direction, sent: Moment, late: u32) -> Spot
    ensures { result ≡ leaves_at places.now way sent late }
{
    Spot {
        x: start(way),
        y: places.y(sent),
    }
    .below(late)
}

// Where a message arrives in a step.
fn arrival(places: &Places, way: Direction, at: u64) -> Spot
    ensures { result ≡ arrives_at places.now way at }
{
    Spot {
        x: goal(way),
        y: places.y(Moment { step: at, line: 0 }),
    }
}

// Puts a message that leaves, with its words.
#[tactic(auto, using(std::proofs::Common::append_assoc), unfolding(crate::specs::Messages::departure_text))]
fn put_departure(
    page: &mut Vec<u8>,
    picture: &Picture<'_, '_>,
    shown: Shown<'_>,
) -> Result<(), AllocError>
    ensures { OnOk result
        (page.new.items ≡ page.old.items ++ departure_text picture.now shown.entry.way shown.entry.sent.now shown.entry.words.now shown.entry.title.now) }
{
    let low = late(picture, shown.sent);
    let from = departure(picture.places, shown.way, shown.sent.at, low);
    let near = near_arrival(picture, shown.sent);
    put_leaving_line(page, picture, shown, from, near)?;
    put_leaving_words(page, shown.way, from, shown.title, shown.words)
}

// Puts the line on which a message leaves.
fn put_leaving_line(
    page: &mut Vec<u8>,
    picture: &Picture<'_, '_>,
    shown: Shown<'_>,
    from: Spot,
    near: Option<u64>,
) -> Result<(), AllocError>
    ensures { OnOk result
        (page.new.items ≡ page.old.items ++ leaving_line picture.now shown.entry.way shown.entry.words.now from near (vec_len shown.entry.sent.now.arrivals)) }
{
    match near {
        Some(at) => {
            let manner = arrival_manner(picture, at, false);
            put_near(page, picture.places, shown.way, manner, from, at)
        }
        None => {
            if shown.sent.arrivals.is_empty() {
                put_lost(page, shown.way, shown.words, from)
            } else {
                put_cut(page, shown.way, from)
            }
        }
    }
}

// Puts the words of a message where it leaves.
#[tactic(auto, unfolding(crate::specs::Arrow::leaving_text))]
fn put_leaving_words(
    page: &mut Vec<u8>,
    way: Direction,
    from: Spot,
    title: &[u8],
    words: &[u8],
) -> Result<(), AllocError>
    ensures { OnOk result (page.new.items ≡ page.old.items ++ leaving_text way from title.now words.now) }
{
    put_mark(
        page,
        &Mark::Titled {
            at: towards(way, from, 28).above(3),
            look: look_of_departure(way),
            title,
            words,
        },
    )
}

// Puts one arrow from where a message leaves to where it arrives.
#[tactic(auto, unfolding(crate::specs::Arrow::near_text))]
fn put_near(
    page: &mut Vec<u8>,
    places: &Places,
    way: Direction,
    manner: Manner,
    from: Spot,
    at: u64,
) -> Result<(), AllocError>
    ensures { OnOk result (page.new.items ≡ page.old.items ++ near_text way manner from (arrives_at places.now way at)) }
{
    let to = arrival(places, way, at);
    put_marks(
        page,
        &[
            Mark::Bent {
                class: class(way, manner),
                from,
                leaves: towards(way, from, 24),
                arrives: back(way, to, 18),
                to,
            },
            Mark::Head {
                class: head(way),
                tip: to,
                side: side(way),
            },
        ],
    )
}

// Puts the line of a message that never arrives: it ends in a cross, clear of its words.
fn put_lost(page: &mut Vec<u8>, way: Direction, words: &[u8], from: Spot) -> Result<(), AllocError>
    ensures { OnOk result (page.new.items ≡ page.old.items ++ lost_text way words.now from) }
{
    let reach = wide(words).saturating_add(36).max(SERVICE - PORT);
    put_crossed(page, way, from, towards(way, from, reach))
}

// Puts a line that ends in a cross.
#[tactic(auto, using(crate::proofs::PutLemmas::put_two), unfolding(crate::specs::Arrow::crossed_text))]
fn put_crossed(page: &mut Vec<u8>, way: Direction, from: Spot, end: Spot) -> Result<(), AllocError>
    ensures { OnOk result (page.new.items ≡ page.old.items ++ crossed_text way from end) }
{
    put_mark(
        page,
        &Mark::Line {
            class: class(way, Manner::Plain),
            from,
            to: end,
        },
    )?;
    put_cross(page, end)
}

// Puts the line of a message that arrives elsewhere: it ends in a dot at the port.
#[tactic(auto, unfolding(crate::specs::Arrow::cut_text))]
fn put_cut(page: &mut Vec<u8>, way: Direction, from: Spot) -> Result<(), AllocError>
    ensures { OnOk result (page.new.items ≡ page.old.items ++ cut_text way from) }
{
    let to = Spot { x: PORT, y: from.y };
    put_marks(
        page,
        &[
            Mark::Line {
                class: class(way, Manner::Plain),
                from,
                to,
            },
            Mark::Dot {
                class: head(way),
                at: to,
            },
        ],
    )
}

// Puts an arrival that begins at a dot at the port, with its words.
#[tactic(auto, unfolding(crate::specs::Messages::arrival_at))]
fn put_arrival(
    alloc: Global,
    page: &mut Vec<u8>,
    picture: &Picture<'_, '_>,
    shown: Shown<'_>,
    at: u64,
    is_again: bool,
) -> Result<(), AllocError>
    ensures { OnOk result
        (page.new.items ≡ page.old.items ++ arrival_at picture.now shown.entry.way shown.entry.words.now at is_again) }
{
    let words = arrival_words(alloc, is_again, shown.words)?;
    let manner = arrival_manner(picture, at, is_again);
    put_arrow_from_port(page, picture.places, shown.way, manner, at, &words)
}

// The words of an arrival: whether it comes late or again, and those of its message.
fn arrival_words(alloc: Global, is_again: bool, words: &[u8]) -> Result<Vec<u8>, AllocError>
    ensures { IfOk result (λ text. text.items ≡ arrival_words is_again words.now) }
{
    let mut text = Vec::new(alloc);
    if is_again {
        text.extend_from_slice(b"again ")?;
    } else {
        text.extend_from_slice(b"late ")?;
    }
    text.extend_from_slice(words)?;
    Ok(text)
}

#[tactic(auto, unfolding(crate::specs::Arrow::arrival_text))]
fn put_arrow_from_port(
    page: &mut Vec<u8>,
    places: &Places,
    way: Direction,
    manner: Manner,
    at: u64,
    words: &[u8],
) -> Result<(), AllocError>
    ensures { OnOk result (page.new.items ≡ page.old.items ++ arrival_text way manner (arrives_at places.now way at) words.now) }
{
    let to = arrival(places, way, at);
    let from = Spot { x: PORT, y: to.y };
    put_marks(
        page,
        &[
            Mark::Dot {
                class: head(way),
                at: from,
            },
            Mark::Line {
                class: class(way, manner),
                from,
                to,
            },
            Mark::Head {
                class: head(way),
                tip: to,
                side: side(way),
            },
            Mark::Words {
                at: back(way, to, 22).above(3),
                look: look_of_arrival(way),
                words,
            },
        ],
    )
}

// The look of a message's words where it leaves, and where it arrives.
fn look_of_departure(way: Direction) -> &'static [u8]
    ensures { result.now ≡ look_of_departure way }
{
    match way {
        Direction::Down => b" class=\"td halo\"".as_slice(),
        Direction::Up => b" class=\"tu halo\" text-anchor=\"end\"".as_slice(),
    }
}

fn look_of_arrival(way: Direction) -> &'static [u8]
    ensures { result.now ≡ look_of way }
{
    match way {
        Direction::Down => b" class=\"td halo\" text-anchor=\"end\"".as_slice(),
        Direction::Up => b" class=\"tu halo\"".as_slice(),
    }
}
