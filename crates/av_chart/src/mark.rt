//! The marks that a picture is made of, each with its text.

ghost use Rattle.std.specs.Prelude.{◌≡◌, ◌++◌, OnOk};
ghost use Rattle.av_chart.specs.Mark.{path_text, band_text, bar_text, bent_text, block_text, corner_text, dot_text, head_text, line_text, bar_size_text, size_text, mark_text, marks_text, next_spot_text, place_text, spot_text, title_text, titled_text, words_text};

use crate::escape::{put_escaped, put_parts};
use crate::spot::Spot;
use av_base::Part;
use std::alloc::AllocError;

/// The end at which an arrow has its head.
#[derive(Clone, Copy)]
pub enum Side {
    Left,
    Right,
}

/// One mark. A `class` is the name of a color and a form in the picture's style; a `look` is the attributes of words, each led by
/// a blank. `words` and `title` may have any bytes.
#[derive(Clone, Copy)]
pub enum Mark<'a> {
    /// Words at a spot.
    Words {
        at: Spot,
        look: &'a [u8],
        words: &'a [u8],
    },
    /// Words that tell more to who points at them.
    Titled {
        at: Spot,
        look: &'a [u8],
        title: &'a [u8],
        words: &'a [u8],
    },
    /// A straight line.
    Line {
        class: &'a [u8],
        from: Spot,
        to: Spot,
    },
    /// A line of three parts.
    Bent {
        class: &'a [u8],
        from: Spot,
        leaves: Spot,
        arrives: Spot,
        to: Spot,
    },
    /// The head of an arrow.
    Head {
        class: &'a [u8],
        tip: Spot,
        side: Side,
    },
    /// A dot at which an arrow is cut.
    Dot {
        class: &'a [u8],
        at: Spot,
    },
    /// A block of a color, with more attributes, each led by a blank.
    Block {
        class: &'a [u8],
        at: Spot,
        width: u32,
        height: u32,
        more: &'a [u8],
    },
    /// A bar of something that lives.
    Bar {
        class: &'a [u8],
        at: Spot,
        height: u32,
        title: &'a [u8],
    },
    /// A band from the left edge to the right one.
    Band {
        y: u32,
    },
}

/// Puts the text of a mark.
pub fn put_mark(page: &mut Vec<u8>, mark: &Mark<'_>) -> Result<(), AllocError>
    ensures { OnOk result (page.new.items ≡ page.old.items ++ mark_text mark.now) }
{
    match *mark {
        Mark::Words { at, look, words } => put_words(page, at, look, words),
        Mark::Titled {
            at,
            look,
            title,
            words,
        } => put_titled(page, at, look, title, words),
        Mark::Line { class, from, to } => put_line(page, class, from, to),
        Mark::Bent {
            class,
            from,
            leaves,
            arrives,
            to,
        } => put_bent(page, class, from, leaves, arrives, to),
        Mark::Head { class, tip, side } => put_head(page, class, tip, side),
        Mark::Dot { class, at } => put_dot(page, class, at),
        Mark::Block {
            class,
            at,
            width,
            height,
            more,
        } => put_block(page, class, at, width, height, more),
        Mark::Bar {
            class,
            at,
            height,
            title,
        } => put_bar(page, class, at, height, title),
        Mark::Band { y } => put_band(page, y),
    }
}

/// Puts the texts of marks in their order.
pub fn put_marks(page: &mut Vec<u8>, marks: &[Mark<'_>]) -> Result<(), AllocError>
    ensures { OnOk result (page.new.items ≡ page.old.items ++ marks_text marks.now) }
{
    for mark in marks {
        put_mark(page, mark)?;
    }
    Ok(())
}

#[tactic(auto, using(crate::proofs::PutLemmas::put_three), unfolding(crate::specs::Mark::words_text))]
fn put_words(page: &mut Vec<u8>, at: Spot, look: &[u8], words: &[u8]) -> Result<(), AllocError>
    ensures { OnOk result (page.new.items ≡ page.old.items ++ words_text at look.now words.now) }
{
    put_place(page, at, look)?;
    put_escaped(page, words)?;
    page.extend_from_slice(b"</text>\n")
}

#[tactic(auto, using(crate::proofs::PutLemmas::put_four), unfolding(crate::specs::Mark::titled_text))]
fn put_titled(
    page: &mut Vec<u8>,
    at: Spot,
    look: &[u8],
    title: &[u8],
    words: &[u8],
) -> Result<(), AllocError>
    ensures { OnOk result (page.new.items ≡ page.old.items ++ titled_text at look.now title.now words.now) }
{
    put_place(page, at, look)?;
    put_title(page, title)?;
    put_escaped(page, words)?;
    page.extend_from_slice(b"</text>\n")
}

// Puts the beginning of words: where they stand and how they look.
#[tactic(auto, unfolding(crate::specs::Mark::place_text))]
fn put_place(page: &mut Vec<u8>, at: Spot, look: &[u8]) -> Result<(), AllocError>
    ensures { OnOk result (page.new.items ≡ page.old.items ++ place_text at look.now) }
{
    put_parts(
        page,
        &[
            Part::Text(b"<text x=\""),
            Part::Number(at.x as u64),
            Part::Text(b"\" y=\""),
            Part::Number(at.y as u64),
            Part::Text(b"\""),
            Part::Text(look),
            Part::Text(b">"),
        ],
    )
}

#[tactic(auto, using(crate::proofs::PutLemmas::put_three), unfolding(crate::specs::Mark::title_text))]
fn put_title(page: &mut Vec<u8>, title: &[u8]) -> Result<(), AllocError>
    ensures { OnOk result (page.new.items ≡ page.old.items ++ title_text title.now) }
{
    page.extend_from_slice(b"<title>")?;
    put_escaped(page, title)?;
    page.extend_from_slice(b"</title>")
}

#[tactic(auto, unfolding(crate::specs::Mark::line_text))]
fn put_line(page: &mut Vec<u8>, class: &[u8], from: Spot, to: Spot) -> Result<(), AllocError>
    ensures { OnOk result (page.new.items ≡ page.old.items ++ line_text class.now from to) }
{
    put_parts(
        page,
        &[
            Part::Text(b"<path class=\""),
            Part::Text(class),
            Part::Text(b"\" d=\"M"),
            Part::Number(from.x as u64),
            Part::Text(b" "),
            Part::Number(from.y as u64),
            Part::Text(b" L"),
            Part::Number(to.x as u64),
            Part::Text(b" "),
            Part::Number(to.y as u64),
            Part::Text(b"\"/>\n"),
        ],
    )
}

// Puts the beginning of a path.
#[tactic(auto, unfolding(crate::specs::Mark::path_text))]
fn put_path(page: &mut Vec<u8>, class: &[u8]) -> Result<(), AllocError>
    ensures { OnOk result (page.new.items ≡ page.old.items ++ path_text class.now) }
{
    put_parts(
        page,
        &[
            Part::Text(b"<path class=\""),
            Part::Text(class),
            Part::Text(b"\" d=\"M"),
        ],
    )
}

#[tactic(auto, using(crate::proofs::PutLemmas::put_six), unfolding(crate::specs::Mark::bent_text))]
fn put_bent(
    page: &mut Vec<u8>,
    class: &[u8],
    from: Spot,
    leaves: Spot,
    arrives: Spot,
    to: Spot,
) -> Result<(), AllocError>
    ensures { OnOk result (page.new.items ≡ page.old.items ++ bent_text class.now from leaves arrives to) }
{
    put_path(page, class)?;
    put_spot(page, from)?;
    put_next_spot(page, leaves)?;
    put_next_spot(page, arrives)?;
    put_next_spot(page, to)?;
    page.extend_from_slice(b"\"/>\n")
}

#[tactic(auto, using(crate::proofs::PutLemmas::put_five), unfolding(crate::specs::Mark::head_text))]
fn put_head(page: &mut Vec<u8>, class: &[u8], tip: Spot, side: Side) -> Result<(), AllocError>
    ensures { OnOk result (page.new.items ≡ page.old.items ++ head_text class.now tip side) }
{
    let back = match side {
        Side::Right => tip.left_of(8),
        Side::Left => tip.right_of(8),
    };
    put_path(page, class)?;
    put_spot(page, tip)?;
    put_next_spot(page, back.above(4))?;
    put_next_spot(page, back.below(4))?;
    page.extend_from_slice(b" Z\"/>\n")
}

#[tactic(auto, using(crate::proofs::PutLemmas::put_two), unfolding(crate::specs::Mark::next_spot_text))]
fn put_next_spot(page: &mut Vec<u8>, spot: Spot) -> Result<(), AllocError>
    ensures { OnOk result (page.new.items ≡ page.old.items ++ next_spot_text spot) }
{
    page.extend_from_slice(b" L")?;
    put_spot(page, spot)
}

#[tactic(auto, unfolding(crate::specs::Mark::spot_text))]
fn put_spot(page: &mut Vec<u8>, spot: Spot) -> Result<(), AllocError>
    ensures { OnOk result (page.new.items ≡ page.old.items ++ spot_text spot) }
{
    put_parts(
        page,
        &[
            Part::Number(spot.x as u64),
            Part::Text(b" "),
            Part::Number(spot.y as u64),
        ],
    )
}

#[tactic(auto, unfolding(crate::specs::Mark::dot_text))]
fn put_dot(page: &mut Vec<u8>, class: &[u8], at: Spot) -> Result<(), AllocError>
    ensures { OnOk result (page.new.items ≡ page.old.items ++ dot_text class.now at) }
{
    put_parts(
        page,
        &[
            Part::Text(b"<circle class=\""),
            Part::Text(class),
            Part::Text(b"\" cx=\""),
            Part::Number(at.x as u64),
            Part::Text(b"\" cy=\""),
            Part::Number(at.y as u64),
            Part::Text(b"\" r=\"3\"/>\n"),
        ],
    )
}

#[tactic(auto, using(crate::proofs::PutLemmas::put_two), unfolding(crate::specs::Mark::block_text))]
fn put_block(
    page: &mut Vec<u8>,
    class: &[u8],
    at: Spot,
    width: u32,
    height: u32,
    more: &[u8],
) -> Result<(), AllocError>
    ensures { OnOk result (page.new.items ≡ page.old.items ++ block_text class.now at width height more.now) }
{
    put_corner(page, class, at)?;
    put_size(page, width, height, more)
}

// Puts the size of a block, and what else it has.
#[tactic(auto, unfolding(crate::specs::Mark::size_text))]
fn put_size(page: &mut Vec<u8>, width: u32, height: u32, more: &[u8]) -> Result<(), AllocError>
    ensures { OnOk result (page.new.items ≡ page.old.items ++ size_text width height more.now) }
{
    put_parts(
        page,
        &[
            Part::Number(width as u64),
            Part::Text(b"\" height=\""),
            Part::Number(height as u64),
            Part::Text(b"\""),
            Part::Text(more),
            Part::Text(b"/>\n"),
        ],
    )
}

#[tactic(auto, using(crate::proofs::PutLemmas::put_four), unfolding(crate::specs::Mark::bar_text))]
fn put_bar(
    page: &mut Vec<u8>,
    class: &[u8],
    at: Spot,
    height: u32,
    title: &[u8],
) -> Result<(), AllocError>
    ensures { OnOk result (page.new.items ≡ page.old.items ++ bar_text class.now at height title.now) }
{
    put_corner(page, class, at)?;
    put_bar_size(page, height)?;
    put_title(page, title)?;
    page.extend_from_slice(b"</rect>\n")
}

#[tactic(auto, unfolding(crate::specs::Mark::bar_size_text))]
fn put_bar_size(page: &mut Vec<u8>, height: u32) -> Result<(), AllocError>
    ensures { OnOk result (page.new.items ≡ page.old.items ++ bar_size_text height) }
{
    put_parts(
        page,
        &[
            Part::Text(b"6\" height=\""),
            Part::Number(height as u64),
            Part::Text(b"\" rx=\"2\">"),
        ],
    )
}

// Puts the beginning of a block, up to its width.
#[tactic(auto, unfolding(crate::specs::Mark::corner_text))]
fn put_corner(page: &mut Vec<u8>, class: &[u8], at: Spot) -> Result<(), AllocError>
    ensures { OnOk result (page.new.items ≡ page.old.items ++ corner_text class.now at) }
{
    put_parts(
        page,
        &[
            Part::Text(b"<rect class=\""),
            Part::Text(class),
            Part::Text(b"\" x=\""),
            Part::Number(at.x as u64),
            Part::Text(b"\" y=\""),
            Part::Number(at.y as u64),
            Part::Text(b"\" width=\""),
        ],
    )
}

#[tactic(auto, unfolding(crate::specs::Mark::band_text))]
fn put_band(page: &mut Vec<u8>, y: u32) -> Result<(), AllocError>
    ensures { OnOk result (page.new.items ≡ page.old.items ++ band_text y) }
{
    put_parts(
        page,
        &[
            Part::Text(b"<rect class=\"pill\" x=\"-1\" y=\""),
            Part::Number(y as u64),
            Part::Text(b"\" width=\"1292\" height=\"20\"/>\n"),
        ],
    )
}
