//! Lives of a run: which begin and end in a step.

ghost use Rattle.std.specs.Prelude.{◌≡◌, ◌+◌, ◌-◌, None, Some, length, map, OnOk};
ghost use Rattle.std.specs.Option.{option_copied};
ghost use Rattle.av_base.specs.declared.port.Port.TheVariants.{One};
ghost use Rattle.av_frame.specs.declared.message.Body.{Body};
ghost use Rattle.av_output.specs.Text.Answers.{is_answered};
ghost use Rattle.av_chart.specs.Life.{lives_of};
ghost use Rattle.av_chart.specs.Marks.{submitted_id};
ghost use Rattle.av_chart.specs.Row.{asked_lines, is_noted, spanned};
ghost use Rattle.av_chart.specs.Story.{answered, asked, how_answered, how_replied, how_worked, in_turn, jobs_over, lent, message_drops, moment, name_in, number_id, opened, questions_over, reply_ends, run_ends, worked};

use crate::happened::Step;
use crate::happening::marks::{Deed, id_of, submitted_id};
use crate::happening::posts::{member_of, moment};
use crate::happening::span_of;
use crate::life::{Bar, End, How, Lives, Moment};
use av_base::{MessageId, Port, Verdict};
use av_frame::{Body, Message, Outcome};
use av_history::{EventNote, Given, Report};
use av_output::Direction;
use av_pend::Answer;
use av_world::World;
use std::alloc::AllocError;

/// Opens that were answered end, each on the line of its answer, and one that was submitted and waits begins.
pub fn take_opens<'a>(
    opens: &mut Lives<'a>,
    step: &Step,
    at: u64,
    name: &'a [u8],
    given: &[Given],
    note: EventNote,
) -> Result<(), AllocError>
    ensures { OnOk result (lives_of opens.new ≡ opened at name.now (submitted_id note) given.now
        (in_turn (answered at) (asked_lines step.now) given.now (lives_of opens.old))) }
{
    end_answered(opens, at, step.asked_lines() as usize, given);
    open(opens, at, name, submitted_id(note), given)
}

// Opens that were answered end, the first on this line.
fn end_answered(opens: &mut Lives<'_>, at: u64, first: usize, given: &[Given])
    ensures { lives_of opens.new ≡ in_turn (answered at) first given.now (lives_of opens.old) }
{
    for (index, one) in given.iter().enumerate() {
        let end = End {
            at: moment(at, first, index),
            how: how_answered(&one.answer),
        };
        opens.end(Port::One, number_id(id_of(&one.answer)), end);
    }
}

// How an answer ends its open.
fn how_answered(answer: &Answer) -> How
    ensures { result ≡ how_answered answer.now }
{
    match *answer {
        Answer::Granted { .. } => How::Granted,
        Answer::Unscanned { .. } => How::Unscanned,
        Answer::Denied { .. } => How::Denied,
    }
}

// An open that was submitted begins, where it waits.
fn open<'a>(
    opens: &mut Lives<'a>,
    at: u64,
    name: &'a [u8],
    open_id: u64,
    given: &[Given],
) -> Result<(), AllocError>
    ensures { OnOk result (lives_of opens.new ≡ opened at name.now open_id given.now (lives_of opens.old)) }
{
    if open_id == 0 || is_answered(open_id, given) {
        return Ok(());
    }
    opens.begin(bar(Port::One, number_id(open_id), name, 0, moment(at, 0, 0)))
}

// Whether the open of this number is answered by one of these.
fn is_answered(open_id: u64, given: &[Given]) -> bool
    ensures { result ≡ is_answered open_id given.now }
{
    given.iter().any(|one| id_of(&one.answer) == open_id)
}

// The id of what has a number alone.
fn number_id(number: u64) -> MessageId
    ensures { result ≡ number_id number }
{
    MessageId {
        boot: 0,
        seq: number,
    }
}

// A life that has no end.
fn bar(port: Port, id: MessageId, name: &[u8], generation: u64, begin: Moment) -> Bar<'_>
    ensures port { result.port ≡ port }
    ensures id { result.id ≡ id }
    ensures name { result.name.now ≡ name.now }
    ensures generation { result.generation ≡ generation }
    ensures begin { result.begin ≡ begin }
    ensures lives { result.end ≡ None }
{
    Bar {
        port,
        id,
        name,
        generation,
        begin,
        end: None,
        slot: 0,
    }
}

/// Questions that a step asked begin, and those that it ended do.
pub fn take_questions<'a>(
    questions: &mut Lives<'a>,
    names: &[&'a [u8]],
    world: &World,
    step: &Step,
    at: u64,
    deed: Deed,
) -> Result<(), AllocError>
    ensures { OnOk result (lives_of questions.new ≡ questions_over world.now at step.now.note deed
        (in_turn (asked (map (λ n. n.now) names.now) at) 0 (spanned step.now.down world.now.down) (lives_of questions.old))) }
{
    ask(questions, names, at, span_of(world.down(), step.down))?;
    end_questions(questions, world, step, at, deed);
    Ok(())
}

// Questions that messages ask or abort begin and end.
fn ask<'a>(
    questions: &mut Lives<'a>,
    names: &[&'a [u8]],
    at: u64,
    messages: &[Message],
) -> Result<(), AllocError>
    ensures { OnOk result (lives_of questions.new
        ≡ in_turn (asked (map (λ n. n.now) names.now) at) 0 messages.now (lives_of questions.old)) }
{
    for (index, message) in messages.iter().enumerate() {
        ask_one(questions, names, at, index, message)?;
    }
    Ok(())
}

fn ask_one<'a>(
    questions: &mut Lives<'a>,
    names: &[&'a [u8]],
    at: u64,
    line: usize,
    message: &Message,
) -> Result<(), AllocError>
    ensures { OnOk result (lives_of questions.new
        ≡ asked (map (λ n. n.now) names.now) at line message.now (lives_of questions.old)) }
{
    let (at, port) = (moment(at, 0, line), message.port());
    match message.body() {
        Body::Scan {
            id,
            stream,
            generation,
            ..
        } => {
            let name = name_of(names, stream.get());
            questions.begin(bar(port, *id, name, generation.get(), at))
        }
        Body::Abort { id } => {
            questions.end(
                port,
                *id,
                End {
                    at,
                    how: How::Aborted,
                },
            );
            Ok(())
        }
        _ => Ok(()),
    }
}

// The name of a stream.
fn name_of<'a>(names: &[&'a [u8]], stream: u64) -> &'a [u8]
    ensures { result.now ≡ name_in (map (λ n. n.now) names.now) stream }
{
    match member_of(names, stream) {
        Some(name) => *name,
        None => b"?".as_slice(),
    }
}

// Questions that a step ended without a message of its own end.
fn end_questions(questions: &mut Lives<'_>, world: &World, step: &Step, at: u64, deed: Deed)
    ensures { lives_of questions.new ≡ questions_over world.now at step.now.note deed (lives_of questions.old) }
{
    match deed {
        Deed::Deliver {
            way: Direction::Up,
            place,
        } => {
            if !step.is_noted() {
                end_replied(questions, member_of(world.up(), place), at);
            }
        }
        Deed::DisconnectFilter { port } => questions.end_at(port, over(at)),
        Deed::RestartFilter => questions.end_all(over(at)),
        _ => {}
    }
}

// The end of what a step ended without a word.
fn over(at: u64) -> End
    ensures { result ≡ record { at = moment at 0; how = How.Ended } }
{
    End {
        at: moment(at, 0, 0),
        how: How::Ended,
    }
}

// The question that a reply is about ends.
fn end_replied(questions: &mut Lives<'_>, message: Option<&Message>, at: u64)
    ensures { lives_of questions.new ≡ reply_ends at (option_copied message.entry) (lives_of questions.old) }
{
    let Some(message) = message else {
        return;
    };
    if let Body::Reply { id, outcome } = message.body() {
        let end = End {
            at: moment(at, 0, 0),
            how: how_replied(*outcome),
        };
        questions.end(message.port(), *id, end);
    }
}

// How a question ended, as its reply told.
fn how_replied(outcome: Outcome) -> How
    ensures { result ≡ how_replied outcome }
{
    match outcome {
        Outcome::Judged {
            verdict: Verdict::Clean,
            ..
        } => How::Clean,
        Outcome::Judged { .. } => How::Infected,
        Outcome::Failed { .. } => How::Failed,
    }
}

/// Jobs that a step began begin, and those that it ended do.
pub fn take_jobs(
    jobs: &mut Lives<'_>,
    world: &World,
    step: &Step,
    at: u64,
    deed: Deed,
) -> Result<(), AllocError>
    ensures { OnOk result (lives_of jobs.new ≡ jobs_over world.now at step.now.note deed
        (in_turn (worked at) (length (spanned step.now.down world.now.down)) (spanned step.now.up world.now.up) (lives_of jobs.old))) }
{
    let first = span_of(world.down(), step.down).len();
    work(jobs, at, first, span_of(world.up(), step.up))?;
    end_jobs(jobs, world, step, at, deed);
    Ok(())
}

// Jobs that messages ask for or reply to begin and end.
fn work(jobs: &mut Lives<'_>, at: u64, first: usize, messages: &[Message]) -> Result<(), AllocError>
    ensures { OnOk result (lives_of jobs.new ≡ in_turn (worked at) first messages.now (lives_of jobs.old)) }
{
    for (index, message) in messages.iter().enumerate() {
        work_one(jobs, at, first, index, message)?;
    }
    Ok(())
}

fn work_one(
    jobs: &mut Lives<'_>,
    at: u64,
    first: usize,
    behind: usize,
    message: &Message,
) -> Result<(), AllocError>
    ensures { OnOk result (lives_of jobs.new ≡ worked at (first + behind) message.now (lives_of jobs.old)) }
{
    let (at, port) = (moment(at, first, behind), message.port());
    match message.body() {
        Body::Read { id, .. } => jobs.begin(bar(port, *id, b"".as_slice(), 0, at)),
        Body::Reply { id, outcome } => {
            let end = End {
                at,
                how: how_worked(*outcome),
            };
            jobs.end(port, *id, end);
            Ok(())
        }
        _ => Ok(()),
    }
}

// How a job ended, as its reply tells.
fn how_worked(outcome: Outcome) -> How
    ensures { result ≡ how_worked outcome }
{
    match outcome {
        Outcome::Judged {
            verdict: Verdict::Clean,
            ..
        } => How::Clean,
        Outcome::Judged {
            verdict: Verdict::Infected { end_at, .. },
            ..
        } => How::Byte(end_at),
        Outcome::Failed { .. } => How::Failed,
    }
}

// Jobs that a step ended without a message of its own end.
fn end_jobs(jobs: &mut Lives<'_>, world: &World, step: &Step, at: u64, deed: Deed)
    ensures { lives_of jobs.new ≡ jobs_over world.now at step.now.note deed (lives_of jobs.old) }
{
    match deed {
        Deed::Deliver {
            way: Direction::Down,
            place,
        } => {
            if !step.is_noted() {
                drop_job(jobs, member_of(world.down(), place), at);
            }
        }
        Deed::DisconnectService { port } | Deed::RestartService { port } => {
            jobs.end_at(port, dropped(at));
        }
        _ => {}
    }
}

// The job that a message drops ends.
fn drop_job(jobs: &mut Lives<'_>, message: Option<&Message>, at: u64)
    ensures { lives_of jobs.new ≡ message_drops at (option_copied message.entry) (lives_of jobs.old) }
{
    let Some(message) = message else {
        return;
    };
    match message.body() {
        Body::Abort { id } => jobs.end(message.port(), *id, dropped(at)),
        Body::NoChunk { id, .. } => jobs.end(message.port(), *id, dropped(at)),
        _ => {}
    }
}

// The end of what is dropped in a step.
fn dropped(at: u64) -> End
    ensures { result ≡ record { at = moment at 0; how = How.Dropped } }
{
    End {
        at: moment(at, 0, 0),
        how: How::Dropped,
    }
}

/// The work that a step ran ends, and those that it lent begin.
pub fn take_works(
    works: &mut Lives<'_>,
    report: &Report,
    at: u64,
    deed: Deed,
) -> Result<(), AllocError>
    ensures { OnOk result (lives_of works.new
        ≡ lent at report.now.before.works (report.now.after.works - report.now.before.works) (run_ends at deed (lives_of works.old))) }
{
    end_run(works, at, deed);
    for index in report.before.works..report.after.works {
        let id = number_id(index.saturating_add(1));
        works.begin(bar(Port::One, id, b"".as_slice(), 0, moment(at, 0, 0)))?;
    }
    Ok(())
}

// The work that was run ends.
fn end_run(works: &mut Lives<'_>, at: u64, deed: Deed)
    ensures { lives_of works.new ≡ run_ends at deed (lives_of works.old) }
{
    if let Deed::Run { place } = deed {
        let end = End {
            at: moment(at, 0, 0),
            how: How::Run,
        };
        works.end(Port::One, number_id(place), end);
    }
}
