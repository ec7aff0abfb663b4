ghost use Rattle.av_json.specs.Member.{Puts};
ghost use Rattle.av_pend.specs.declared.answer.Answer.TheVariants.{Denied, Granted, Unscanned};
ghost use Rattle.av_output.specs.Objects.Answers.{answer_tokens, answers_tokens, pended_tokens, submitted_tokens};

use crate::answer::is_answered;
use av_base::{Cause, Generation, OpenId, StreamId, Version};
use av_filter::note::Note as FilterNote;
use av_history::given::Given;
use av_history::report::EventNote;
use av_json::{Member, put_object, why};
use av_pend::Answer;
use json::Writer;
use std::alloc::AllocError;

/// Puts the objects of answers.
pub fn put_answers(answers: &[Given], line: &mut Writer) -> Result<(), AllocError>
    ensures { Puts result line.old line.new (answers_tokens answers.now) }
{
    for given in answers {
        put_answer(&given.answer, line)?;
    }
    Ok(())
}

fn put_answer(answer: &Answer, line: &mut Writer) -> Result<(), AllocError>
    ensures { Puts result line.old line.new (answer_tokens answer.now) }
{
    match *answer {
        Answer::Granted {
            open_id,
            least,
            stream,
            generation,
            version,
        } => put_granted(open_id, least, stream, generation, version, line),
        Answer::Unscanned {
            open_id,
            stream,
            generation,
            cause,
        } => put_unscanned(open_id, stream, generation, cause, line),
        Answer::Denied { open_id, cause } => put_denied(open_id, cause, line),
    }
}

fn put_granted(
    open_id: OpenId,
    least: Version,
    stream: StreamId,
    generation: Generation,
    version: Version,
    line: &mut Writer,
) -> Result<(), AllocError>
    ensures { Puts result line.old line.new (answer_tokens (Granted open_id least stream generation version)) }
{
    put_object(
        line,
        &[
            Member::Text("is", "granted"),
            Member::Number("open", open_id.get()),
            Member::Number("stream", stream.get()),
            Member::Number("generation", generation.get()),
            Member::Number("version", version.get()),
            Member::Number("least", least.get()),
        ],
    )
}

fn put_unscanned(
    open_id: OpenId,
    stream: StreamId,
    generation: Generation,
    cause: Cause,
    line: &mut Writer,
) -> Result<(), AllocError>
    ensures { Puts result line.old line.new (answer_tokens (Unscanned open_id stream generation cause)) }
{
    put_object(
        line,
        &[
            Member::Text("is", "unscanned"),
            Member::Number("open", open_id.get()),
            Member::Number("stream", stream.get()),
            Member::Number("generation", generation.get()),
            Member::Number("cause", u64::from(cause.number())),
            Member::Text("why", why(cause)),
        ],
    )
}

fn put_denied(open_id: OpenId, cause: Cause, line: &mut Writer) -> Result<(), AllocError>
    ensures { Puts result line.old line.new (answer_tokens (Denied open_id cause)) }
{
    put_object(
        line,
        &[
            Member::Text("is", "denied"),
            Member::Number("open", open_id.get()),
            Member::Number("cause", u64::from(cause.number())),
            Member::Text("why", why(cause)),
        ],
    )
}

/// Puts that the open of a note waits, where the note has one and these answers have none for it.
pub fn put_pended(note: EventNote, answers: &[Given], line: &mut Writer) -> Result<(), AllocError>
    ensures { Puts result line.old line.new (pended_tokens note answers.now) }
{
    match note {
        EventNote::Filter(note) => put_submitted(note, answers, line),
        EventNote::Service(_) => Ok(()),
    }
}

fn put_submitted(note: FilterNote, answers: &[Given], line: &mut Writer) -> Result<(), AllocError>
    ensures { Puts result line.old line.new (submitted_tokens note answers.now) }
{
    let FilterNote::Submitted { open_id } = note else {
        return Ok(());
    };
    if is_answered(open_id, answers) {
        return Ok(());
    }
    put_object(
        line,
        &[
            Member::Text("is", "pended"),
            Member::Number("open", open_id.get()),
        ],
    )
}
