ghost use Rattle.std.specs.Prelude.{◌≡◌, ◌+◌, ◌<◌, ◌^◌, count_by, length, map, position, IfErr, IfOk, IfSome, Ok, OnOk};
ghost use Rattle.av_base.specs.Device.{Writes};
ghost use Rattle.av_chart.specs.Chart.{Draws, HaveSlots, IsDrawn, IsEarly, IsNotDrawn, IsOfDrawing, IsPicture, IsRunDrawn, IsTrueOf, Leaves, Shows, asks, begun};
ghost use Rattle.av_chart.specs.Fault.{IsOfReads};
ghost use Rattle.av_chart.specs.Picture.{picture_text};
ghost use Rattle.av_chart.specs.Place.{StandAt, bottom_of};
ghost use Rattle.av_chart.specs.Row.{height_of};
ghost use Rattle.av_chart.specs.Story.{story_of};
ghost use Rattle.av_script.specs.Output.{IsOfRead};

use crate::fault::ChartFault;
use crate::happened::{Happened, Span, Step};
use crate::happening::{run_lines, span_of};
use crate::life::Moment;
use crate::picture::{Picture, put_picture};
use crate::place::{Places, height_of};
use av_base::device::write_text;
use av_base::recorded::RecordedRead;
use av_script::Script;
use av_script::run_script::read_script;
use av_world::World;
use std::alloc::{AllocError, Global};
use std::io::Write;

/// The lines of a script whose commands are drawn, from 1. All of them: from 1 to `u64::MAX`.
#[derive(Clone, Copy, Debug)]
pub struct Lines {
    pub from: u64,
    pub to: u64,
}

impl Lines {
    // Whether the line of a step is one of them.
    fn ask(self, step: &Step) -> bool
        ensures { result ≡ asks self step.now }
    {
        step.line >= self.from && step.line <= self.to
    }
}

/// Reads a script whole, runs it and writes its picture, an SVG, with this title. Where that fails nothing was written, but
/// where a write failed: there it was a front of the picture.
pub fn write_chart<R: RecordedRead, W: Write>(
    alloc: Global,
    title: &[u8],
    lines: Lines,
    reader: &mut R,
    writer: &mut W,
    turns: u64,
) -> Result<(), ChartFault>
    ensures ok { OnOk result (IsOfRead (R.remaining reader.old) (Draws lines title.now (W.contents writer.old) (W.contents writer.new))) }
    ensures fault { IfErr result (λ f. IfSome (R.remaining reader.old) (IsTrueOf lines f)) }
    ensures device { IfErr result (λ f. IsOfReads f (R.has_failed reader.new) turns (R.reads reader.old) (R.reads reader.new)) }
    ensures err { IfErr result (Leaves (R.remaining reader.old) lines title.now (W.contents writer.old) (W.contents writer.new)) }
{
    let page = read_page(alloc, title, lines, reader, turns)?;
    write_page(writer, &page)
}

// Reads a script whole, runs it and gives its picture.
fn read_page<R: RecordedRead>(
    alloc: Global,
    title: &[u8],
    lines: Lines,
    reader: &mut R,
    turns: u64,
) -> Result<Vec<u8>, ChartFault>
    ensures ok { IfOk result (λ page. IsOfRead (R.remaining reader.old) (λ text. IsPicture lines title.now text page.items)) }
    ensures fault { IfErr result (λ f. IfSome (R.remaining reader.old) (IsTrueOf lines f)) }
    ensures device { IfErr result (λ f. IsOfReads f (R.has_failed reader.new) turns (R.reads reader.old) (R.reads reader.new)) }
    ensures early { IfErr result IsEarly }
{
    let (text, script) = match read_script(alloc, reader, turns) {
        Ok(read) => read,
        Err(fault) => return Err(ChartFault::from(fault)),
    };
    page_of(alloc, &script, title, lines, &text)
}

// Writes a page.
fn write_page<W: Write>(writer: &mut W, page: &[u8]) -> Result<(), ChartFault>
    ensures writes { Writes result (W.contents writer.old) (W.contents writer.new) page.now }
    ensures fault { IfErr result (λ f. f ≡ ChartFault.Write) }
{
    if write_text(writer, page).is_err() || writer.flush().is_err() {
        return Err(ChartFault::Write);
    }
    Ok(())
}

// Runs a script in a new world and gives its picture.
fn page_of(
    alloc: Global,
    script: &Script,
    title: &[u8],
    lines: Lines,
    text: &[u8],
) -> Result<Vec<u8>, ChartFault>
    requires { 1 + length text.now < 2 ^ 64 }
    ensures ok { IfOk result (λ page. IsRunDrawn (begun script.now) lines title.now text.now page.items) }
    ensures fault { IfErr result (IsOfDrawing (begun script.now) lines text.now) }
{
    let mut world = World::new(alloc, script.number(), script.mode(), script.limits())?;
    let drawn = draw(alloc, &mut world, title, lines, text);
    world.close();
    drawn
}

// Runs a script's text and gives its picture.
fn draw(
    alloc: Global,
    world: &mut World,
    title: &[u8],
    lines: Lines,
    text: &[u8],
) -> Result<Vec<u8>, ChartFault>
    requires { 1 + length text.now < 2 ^ 64 }
    ensures ok { IfOk result (λ page. IsRunDrawn world.old lines title.now text.now page.items) }
    ensures fault { IfErr result (IsOfDrawing world.old lines text.now) }
{
    let mut happened = Happened::new(alloc);
    run_lines(alloc, world, text, &mut happened)?;
    draw_lines(alloc, world, title, lines, text, &mut happened)
}

// Gives the picture of the steps of these lines.
fn draw_lines(
    alloc: Global,
    world: &World,
    title: &[u8],
    lines: Lines,
    text: &[u8],
    happened: &mut Happened<'_>,
) -> Result<Vec<u8>, ChartFault>
    ensures ok { IfOk result (λ page. IsDrawn world.now (story_of happened.old) lines title.now text.now page.items) }
    ensures fault { IfErr result (IsNotDrawn lines (story_of happened.old)) }
{
    let Some((first, count)) = shown(&happened.steps, lines) else {
        return Err(ChartFault::NoLines);
    };
    let behind = (first as u64).saturating_add(count as u64);
    take_slots(
        happened,
        Moment {
            step: behind,
            line: 0,
        },
    );
    let span = Span {
        from: first as u64,
        to: behind,
    };
    let places = places_of(alloc, first, span_of(&happened.steps, span))?;
    let picture = Picture {
        text,
        happened,
        world,
        places: &places,
        first,
        count,
    };
    Ok(page_with(alloc, &picture, title)?)
}

// The page of a picture.
fn page_with(alloc: Global, picture: &Picture<'_, '_>, title: &[u8]) -> Result<Vec<u8>, AllocError>
    ensures { IfOk result (λ page. page.items ≡ picture_text picture.now title.now) }
{
    let mut page = Vec::new(alloc);
    put_picture(alloc, &mut page, picture, title)?;
    Ok(page)
}

// Gives each bar its place beside its lane; what has not ended holds it up to the last moment.
fn take_slots(happened: &mut Happened<'_>, last: Moment)
    ensures story { story_of happened.new ≡ story_of happened.old }
    ensures slots { HaveSlots last happened.new }
{
    happened.opens.take_slots(last);
    happened.questions.take_slots(last);
    happened.jobs.take_slots(last);
    happened.works.take_slots(last);
}

// The first step of these lines, and how many there are, where there is one.
fn shown(steps: &[Step], lines: Lines) -> Option<(usize, usize)>
    ensures { Shows lines steps.now result }
{
    let first = first_of(steps, lines)?;
    Some((first, count_of(steps, lines)))
}

// The first step of these lines.
fn first_of(steps: &[Step], lines: Lines) -> Option<usize>
    ensures { result ≡ position (asks lines) steps.now }
{
    steps.iter().position(|step| lines.ask(step))
}

// How many steps these lines have.
fn count_of(steps: &[Step], lines: Lines) -> usize
    ensures { result ≡ count_by (asks lines) steps.now }
{
    steps.iter().filter(|step| lines.ask(step)).count()
}

// Where the rows of steps stand, the first of which has this number.
fn places_of(alloc: Global, first: usize, steps: &[Step]) -> Result<Places, AllocError>
    ensures first { IfOk result (λ p. p.first ≡ first) }
    ensures tops { IfOk result (λ p. StandAt p.tops.items (map height_of steps.now)) }
    ensures bottom { IfOk result (λ p. p.bottom ≡ bottom_of (map height_of steps.now)) }
{
    let mut heights = Vec::new(alloc);
    for step in steps {
        heights.push(height_of(step))?;
    }
    Places::of(alloc, first as u64, &heights)
}
