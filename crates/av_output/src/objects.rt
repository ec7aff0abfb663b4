//! What a step tells, as JSON: an object for each line that `print_report` writes.

ghost use Rattle.av_json.specs.Member.{Puts};
ghost use Rattle.av_output.specs.Objects.{opens_tokens, sent_tokens, told_tokens};

mod answer;
pub mod line;
mod message;
mod note;
mod work;

use crate::lists::Lists;
use crate::message::Direction;
use crate::objects::answer::{put_answers, put_pended};
use crate::objects::line::put_line;
use crate::objects::message::put_messages;
use crate::objects::note::put_note;
use crate::objects::work::put_works;
use crate::part::part;
use av_history::given::Given;
use av_history::report::Report;
use json::Writer;
use std::alloc::{AllocError, Global};

/// Puts the objects of a step, by the world's lists after it.
pub fn put_report(
    alloc: Global,
    report: &Report,
    lists: Lists<'_>,
    line: &mut Writer,
) -> Result<(), AllocError>
    ensures { Puts result line.old line.new (told_tokens report.now lists.entry.answers.now lists.entry.down.now lists.entry.up.now lists.entry.works.now) }
{
    put_line(&report.line, line)?;
    put_opens(report, lists.answers, line)?;
    put_sent(alloc, report, lists, line)?;
    put_note(report.note, line)
}

// Puts the answers of a step, and whether its open waits.
fn put_opens(report: &Report, answers: &[Given], line: &mut Writer) -> Result<(), AllocError>
    ensures { Puts result line.old line.new (opens_tokens report.now answers.now) }
{
    let given = part(answers, report.before.answers, report.after.answers);
    put_answers(given, line)?;
    put_pended(report.note, given, line)
}

// Puts the messages and the work of a step.
fn put_sent(
    alloc: Global,
    report: &Report,
    lists: Lists<'_>,
    line: &mut Writer,
) -> Result<(), AllocError>
    ensures { Puts result line.old line.new (sent_tokens report.now lists.entry.down.now lists.entry.up.now lists.entry.works.now) }
{
    let Report { before, after, .. } = *report;
    let Lists {
        down,
        up,
        works,
        ..
    } = lists;
    put_messages(alloc, Direction::Down, down, before.down, after.down, line)?;
    put_messages(alloc, Direction::Up, up, before.up, after.up, line)?;
    put_works(alloc, works, before.works, after.works, line)
}
