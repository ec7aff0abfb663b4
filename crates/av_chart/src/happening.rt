//! How a script's run becomes what happened.

ghost use Rattle.std.specs.Prelude.{◌≡◌, ◌+◌, ◌-◌, ◌<◌, ◌^◌, ◌++◌, true, Some, fold, length, map, OnOk};
ghost use Rattle.av_base.specs.Line.{lines_of};
ghost use Rattle.av_script.specs.CommandObjects.{said_world};
ghost use Rattle.av_script.specs.Script.Grammar.{line_of};
ghost use Rattle.av_script.specs.Script.Statement.{is_told, meaning};
ghost use Rattle.av_script.specs.CommandText.{command_world};
ghost use Rattle.av_history.specs.World.{after, step_of};
ghost use Rattle.av_chart.specs.Marks.{asks_of};
ghost use Rattle.av_chart.specs.Row.{spanned};
ghost use Rattle.av_chart.specs.Story.{accepted, counted, did_after, named, quiet, step_of as told_step, story_after, story_of, with_step, works_lines};
ghost use Rattle.av_chart.specs.Told.{Judges, Mounted, Steps, did_of, tells, told_from, told_of, world_after};
ghost use Rattle.av_chart.specs.Words.{word_at};

use crate::happened::{Counts, FilterMark, Happened, Refused, Span, Step};
use crate::happening::lives::{take_jobs, take_opens, take_questions, take_works};
use crate::happening::marks::{
    Deed, asks_of, deed_of, filter_mark, judged_mark, lent_of, ran_of, said_of, service_mark,
    volume_mark,
};
use crate::happening::posts::{arrival_in, take_down, take_up};
use crate::label::told_work;
use av_base::Refusal;
use av_base::line::{first_line, first_piece};
use av_history::{Event, Given, JudgeFault, Judged, Line, Report, StepFault};
use av_pend::Answer;
use av_script::command::Command;
use av_script::reading::read_statement;
use av_script::statement::Statement;
use av_world::World;
use std::alloc::{AllocError, Global};

pub mod lives;
pub mod marks;
pub mod posts;

/// A line of the script: its number, from 1, the places of its text, and the text.
#[derive(Clone, Copy)]
pub struct Row<'a> {
    pub line: u64,
    pub command: Span,
    pub text: &'a [u8],
}

impl Row<'_> {
    // The step of it, which has done nothing yet.
    fn step(self) -> Step
        ensures { result ≡ quiet (told_of self.entry Mounted) }
    {
        Step::new(self.line, self.command)
    }
}

/// Runs the lines of a script's text in turn, and takes what happens.
pub fn run_lines<'a>(
    alloc: Global,
    world: &mut World,
    text: &'a [u8],
    happened: &mut Happened<'a>,
) -> Result<(), AllocError>
    requires { 1 + length text.now < 2 ^ 64 }
    ensures world { OnOk result (world.new ≡ world_after world.old (lines_of text.now)) }
    ensures happened { OnOk result (story_of happened.new
        ≡ fold story_after (story_of happened.old) (told_from world.old 1 0 (lines_of text.now))) }
{
    let mut rest = text;
    let mut line = 1u64;
    let mut from = 0u64;
    'lines: while !rest.is_empty() {
        let (first, below) = first_line(rest);
        let to = from + first.len() as u64;
        let row = Row {
            line,
            command: span(from, to),
            text: first,
        };
        run_line(alloc, world, happened, row)?;
        rest = below;
        line += 1;
        from = to + 1;
    }
    Ok(())
}

// Runs a line.
fn run_line<'a>(
    alloc: Global,
    world: &mut World,
    happened: &mut Happened<'a>,
    row: Row<'a>,
) -> Result<(), AllocError>
    ensures world { OnOk result (world.new ≡ said_world world.old (line_of row.entry.text.now)) }
    ensures happened { OnOk result (story_of happened.new
        ≡ fold story_after (story_of happened.old) (tells world.old (told_of row.entry) (line_of row.entry.text.now))) }
{
    match read_statement(row.text) {
        Some(statement) if statement.is_told() => {
            run_statement(alloc, world, happened, row, statement)
        }
        _ => Ok(()),
    }
}

// Runs a statement that does something.
fn run_statement<'a>(
    alloc: Global,
    world: &mut World,
    happened: &mut Happened<'a>,
    row: Row<'a>,
    statement: Statement<'_>,
) -> Result<(), AllocError>
    requires { is_told (meaning statement) ≡ true }
    ensures world { OnOk result (world.new ≡ said_world world.old (Some (meaning statement.entry))) }
    ensures happened { OnOk result (story_of happened.new
        ≡ fold story_after (story_of happened.old) (tells world.old (told_of row.entry) (Some (meaning statement.entry)))) }
{
    match statement.command(alloc)? {
        Some(command) => run_command(alloc, world, happened, row, command),
        None => take_volume(happened, row),
    }
}

// Runs a command.
fn run_command<'a>(
    alloc: Global,
    world: &mut World,
    happened: &mut Happened<'a>,
    row: Row<'a>,
    command: Command,
) -> Result<(), AllocError>
    ensures world { OnOk result (world.new ≡ command_world world.old command) }
    ensures happened { OnOk result (story_of happened.new
        ≡ story_after (story_of happened.old) (told_of row.entry (did_of world.old command))) }
{
    match command {
        Command::Step(event) => run_event(alloc, world, happened, row, event),
        Command::Judge { name } => {
            let judged = world.judge(name.as_slice());
            take_judged(happened, row, judged)
        }
    }
}

// Takes a judgement.
fn take_judged<'a>(
    happened: &mut Happened<'a>,
    row: Row<'a>,
    judged: Result<Judged, JudgeFault>,
) -> Result<(), AllocError>
    ensures { OnOk result (story_of happened.new
        ≡ did_after (story_of happened.old) (told_of row.entry (Judges judged)) (Judges judged)) }
{
    let mut step = row.step();
    match judged {
        Ok(judged) => step.volume = Some(judged_mark(judged)),
        Err(fault) => step.refused = Some(Refused::Judge(fault)),
    }
    happened.add(step)
}

// Takes the line of the volume, which mounts the filter.
fn take_volume<'a>(happened: &mut Happened<'a>, row: Row<'a>) -> Result<(), AllocError>
    ensures { OnOk result (story_of happened.new
        ≡ did_after (story_of happened.old) (told_of row.entry Mounted) Mounted) }
{
    let mut step = row.step();
    step.filter = Some(FilterMark::Boot { boot: 1 });
    happened.add(step)
}

// Takes the refusal of a command.
fn take_refused<'a>(
    happened: &mut Happened<'a>,
    row: Row<'a>,
    fault: StepFault,
) -> Result<(), AllocError>
    ensures { OnOk result (story_of happened.new
        ≡ with_step (story_of happened.old) (record (quiet (told_of row.entry Mounted)) { refused = Some (Refused.Step fault) })) }
{
    let mut step = row.step();
    step.refused = Some(Refused::Step(fault));
    happened.add(step)
}

// Lets an event happen.
fn run_event<'a>(
    alloc: Global,
    world: &mut World,
    happened: &mut Happened<'a>,
    row: Row<'a>,
    event: Event,
) -> Result<(), AllocError>
    ensures world { OnOk result (world.new ≡ after world.old event) }
    ensures happened { OnOk result (story_of happened.new
        ≡ story_after (story_of happened.old) (told_of row.entry (Steps event (step_of world.old event)))) }
{
    let deed = deed_of(&event);
    match world.step(alloc, event) {
        Ok(report) => take_report(alloc, world, happened, row, deed, &report),
        Err(refused) => match refused.why {
            Refusal::Fault(fault) => take_refused(happened, row, fault),
            Refusal::NoMemory => Err(AllocError),
        },
    }
}

// Takes what an accepted step did.
fn take_report<'a>(
    alloc: Global,
    world: &World,
    happened: &mut Happened<'a>,
    row: Row<'a>,
    deed: Deed,
    report: &Report,
) -> Result<(), AllocError>
    ensures { OnOk result (story_of happened.new
        ≡ accepted (story_of happened.old) (told_of row.entry Mounted) deed report.now world.now) }
{
    let step = step_of(world, happened, row, deed, report);
    let at = happened.steps.len() as u64;
    let name = word(row.text, 1);
    let given = span_of(world.answers(), step.answers);
    take_name(&mut happened.names, report.line, name)?;
    let down = span_of(world.down(), step.down).len();
    let up = span_of(world.up(), step.up).len();
    take_down(alloc, &mut happened.down, deed, at, down)?;
    take_up(alloc, &mut happened.up, deed, at, down, up)?;
    take_opens(&mut happened.opens, &step, at, name, given, report.note)?;
    take_questions(
        &mut happened.questions,
        &happened.names,
        world,
        &step,
        at,
        deed,
    )?;
    take_jobs(&mut happened.jobs, world, &step, at, deed)?;
    take_works(&mut happened.works, report, at, deed)?;
    take_lines(alloc, &mut happened.works_told, world, report)?;
    take_counts(&mut happened.counts, given);
    happened.add(step)
}

// What a step is.
fn step_of<'a>(
    world: &World,
    happened: &Happened<'a>,
    row: Row<'a>,
    deed: Deed,
    report: &Report,
) -> Step
    ensures { result ≡ told_step (story_of happened.now) (told_of row.entry Mounted) deed report.now world.now }
{
    let answers = span(report.before.answers, report.after.answers);
    let note = said_of(report.note);
    Step {
        line: row.line,
        command: row.command,
        refused: None,
        volume: volume_mark(report.line),
        asks: asks_of(deed, span_of(world.answers(), answers), report.note),
        filter: filter_mark(deed, report.line),
        service: service_mark(deed, report.line),
        note,
        answers,
        down: span(report.before.down, report.after.down),
        up: span(report.before.up, report.after.up),
        arrival: arrival_in(happened, deed, note),
        lent: lent_of(report),
        ran: ran_of(deed),
    }
}

// Takes the name of a stream that is created.
fn take_name<'a>(names: &mut Vec<&'a [u8]>, line: Line, name: &'a [u8]) -> Result<(), AllocError>
    ensures { OnOk result (map (λ n. n.now) names.new.items ≡ named line name.now (map (λ n. n.now) names.old.items)) }
{
    match line {
        Line::Created { .. } => names.push(name)?,
        _ => {}
    }
    Ok(())
}

// Takes the lines that told the works of a step.
fn take_lines(
    alloc: Global,
    told: &mut Vec<Vec<u8>>,
    world: &World,
    report: &Report,
) -> Result<(), AllocError>
    ensures { OnOk result (map (λ t. t.items) told.new.items ≡ map (λ t. t.items) told.old.items
        ++ works_lines world.now report.now.before.works (report.now.after.works - report.now.before.works)) }
{
    for index in report.before.works..report.after.works {
        told.push(told_work(alloc, world, index)?)?;
    }
    Ok(())
}

// Counts answers.
fn take_counts(counts: &mut Counts, given: &[Given])
    ensures { counts.new ≡ fold (λ c g. counted c g.answer) counts.old given.now }
{
    for one in given {
        count(counts, &one.answer);
    }
}

fn count(counts: &mut Counts, answer: &Answer)
    ensures { counts.new ≡ counted counts.old answer.now }
{
    match *answer {
        Answer::Granted { .. } => counts.granted = counts.granted.saturating_add(1),
        Answer::Unscanned { .. } => counts.unscanned = counts.unscanned.saturating_add(1),
        Answer::Denied { .. } => counts.denied = counts.denied.saturating_add(1),
    }
}

// A run of places.
fn span(from: u64, to: u64) -> Span
    ensures { result ≡ record { from = from; to = to } }
{
    Span { from, to }
}

/// What stands in a list at these places, as far as it is there.
pub fn span_of<T>(items: &[T], span: Span) -> &[T]
    ensures { result.now ≡ spanned span items.now }
{
    let end = span.to.min(items.len() as u64);
    if span.from >= end {
        return &items[..0];
    }
    &items[span.from as usize..end as usize]
}

/// The word of a line at this place, counted from 0; nothing where there are fewer.
#[tactic(auto, using(crate::proofs::LoopLemmas::get_behind))]
pub fn word(line: &[u8], place: usize) -> &[u8]
    ensures { result.now ≡ word_at place line.now }
{
    let mut rest = Some(line);
    let mut before = place;
    'words: while before > 0 {
        rest = match rest {
            Some(words) => first_piece(words, b' ').1,
            None => None,
        };
        before -= 1;
    }
    match rest {
        Some(words) => first_piece(words, b' ').0,
        None => &line[..0],
    }
}
