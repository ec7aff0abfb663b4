ghost use Rattle.std.specs.Prelude.{◌≡◌};
ghost use Rattle.av_base.specs.Device.{Writes};
ghost use Rattle.av_pend.specs.declared.answer.Answer.TheVariants.{Denied, Granted, Unscanned};
ghost use Rattle.av_output.specs.Text.Answers.{answer_text, answers_text, is_answered, pended_text, submitted_text};

use av_base::parts::write_parts;
use av_base::{Cause, Generation, OpenId, Part, StreamId, Version, WriteFault};
use av_filter::note::Note as FilterNote;
use av_history::given::Given;
use av_history::report::EventNote;
use av_pend::Answer;
use std::io::Write;

/// Writes the lines of answers.
pub fn print_answers<W: Write>(answers: &[Given], writer: &mut W) -> Result<(), WriteFault>
    ensures { Writes result (W.contents writer.old) (W.contents writer.new) (answers_text answers.now) }
{
    for given in answers {
        print_answer(&given.answer, writer)?;
    }
    Ok(())
}

fn print_answer<W: Write>(answer: &Answer, writer: &mut W) -> Result<(), WriteFault>
    ensures { Writes result (W.contents writer.old) (W.contents writer.new) (answer_text answer.now) }
{
    match *answer {
        Answer::Granted {
            open_id,
            least,
            stream,
            generation,
            version,
        } => print_granted(open_id, least, stream, generation, version, writer),
        Answer::Unscanned {
            open_id,
            stream,
            generation,
            cause,
        } => print_unscanned(open_id, stream, generation, cause, writer),
        Answer::Denied { open_id, cause } => print_denied(open_id, cause, writer),
    }
}

fn print_granted<W: Write>(
    open_id: OpenId,
    least: Version,
    stream: StreamId,
    generation: Generation,
    version: Version,
    writer: &mut W,
) -> Result<(), WriteFault>
    ensures { Writes result (W.contents writer.old) (W.contents writer.new)
        (answer_text (Granted open_id least stream generation version)) }
{
    write_parts(
        writer,
        &[
            Part::Text(b"open "),
            Part::Number(open_id.get()),
            Part::Text(b" granted stream "),
            Part::Number(stream.get()),
            Part::Text(b" generation "),
            Part::Number(generation.get()),
            Part::Text(b" version "),
            Part::Number(version.get()),
            Part::Text(b" least "),
            Part::Number(least.get()),
            Part::Text(b"\n"),
        ],
    )
}

fn print_unscanned<W: Write>(
    open_id: OpenId,
    stream: StreamId,
    generation: Generation,
    cause: Cause,
    writer: &mut W,
) -> Result<(), WriteFault>
    ensures { Writes result (W.contents writer.old) (W.contents writer.new) (answer_text (Unscanned open_id stream generation cause)) }
{
    write_parts(
        writer,
        &[
            Part::Text(b"open "),
            Part::Number(open_id.get()),
            Part::Text(b" unscanned stream "),
            Part::Number(stream.get()),
            Part::Text(b" generation "),
            Part::Number(generation.get()),
            Part::Text(b" cause "),
            Part::Number(u64::from(cause.number())),
            Part::Text(b"\n"),
        ],
    )
}

fn print_denied<W: Write>(open_id: OpenId, cause: Cause, writer: &mut W) -> Result<(), WriteFault>
    ensures { Writes result (W.contents writer.old) (W.contents writer.new) (answer_text (Denied open_id cause)) }
{
    write_parts(
        writer,
        &[
            Part::Text(b"open "),
            Part::Number(open_id.get()),
            Part::Text(b" denied cause "),
            Part::Number(u64::from(cause.number())),
            Part::Text(b"\n"),
        ],
    )
}

/// Writes that the open of a note waits, where the note has one and these answers have none for it.
pub fn print_pended<W: Write>(
    note: EventNote,
    answers: &[Given],
    writer: &mut W,
) -> Result<(), WriteFault>
    ensures { Writes result (W.contents writer.old) (W.contents writer.new) (pended_text note answers.now) }
{
    match note {
        EventNote::Filter(note) => print_submitted(note, answers, writer),
        EventNote::Service(_) => Ok(()),
    }
}

fn print_submitted<W: Write>(
    note: FilterNote,
    answers: &[Given],
    writer: &mut W,
) -> Result<(), WriteFault>
    ensures { Writes result (W.contents writer.old) (W.contents writer.new) (submitted_text note answers.now) }
{
    let FilterNote::Submitted { open_id } = note else {
        return Ok(());
    };
    if is_answered(open_id, answers) {
        return Ok(());
    }
    write_parts(
        writer,
        &[
            Part::Text(b"open "),
            Part::Number(open_id.get()),
            Part::Text(b" pended\n"),
        ],
    )
}

/// Whether the open of this number has its answer among these.
pub fn is_answered(open_id: OpenId, answers: &[Given]) -> bool
    ensures { result ≡ is_answered open_id answers.now }
{
    answers
        .iter()
        .any(|given| given.answer.open_id() == open_id)
}
