ghost use Rattle.av_base.specs.Device.{Writes};
ghost use Rattle.av_output.specs.Text.{opens_text, sent_text, told_text};

use crate::answer::{print_answers, print_pended};
use crate::line::print_line;
use crate::lists::Lists;
use crate::message::{Direction, print_messages};
use crate::note::print_note;
use crate::part::part;
use crate::work::print_works;
use av_base::WriteFault;
use av_history::given::Given;
use av_history::report::Report;
use std::io::Write;

/// Writes the lines of a step, by the world's lists after it. It takes no memory.
pub fn print_report<W: Write>(
    report: &Report,
    lists: Lists<'_>,
    writer: &mut W,
) -> Result<(), WriteFault>
    ensures { Writes result (W.contents writer.old) (W.contents writer.new) (told_text report.now lists.entry.answers.now lists.entry.down.now lists.entry.up.now lists.entry.works.now) }
{
    print_line(&report.line, writer)?;
    print_opens(report, lists.answers, writer)?;
    print_sent(report, lists, writer)?;
    print_note(report.note, writer)
}

// Writes the answers of a step, and whether its open waits.
fn print_opens<W: Write>(
    report: &Report,
    answers: &[Given],
    writer: &mut W,
) -> Result<(), WriteFault>
    ensures { Writes result (W.contents writer.old) (W.contents writer.new) (opens_text report.now answers.now) }
{
    let given = part(answers, report.before.answers, report.after.answers);
    print_answers(given, writer)?;
    print_pended(report.note, given, writer)
}

// Writes the messages and the work of a step.
fn print_sent<W: Write>(report: &Report, lists: Lists<'_>, writer: &mut W) -> Result<(), WriteFault>
    ensures { Writes result (W.contents writer.old) (W.contents writer.new) (sent_text report.now lists.entry.down.now lists.entry.up.now lists.entry.works.now) }
{
    let Report { before, after, .. } = *report;
    let Lists {
        down,
        up,
        works,
        ..
    } = lists;
    print_messages(Direction::Down, down, before.down, after.down, writer)?;
    print_messages(Direction::Up, up, before.up, after.up, writer)?;
    print_works(works, before.works, after.works, writer)
}
