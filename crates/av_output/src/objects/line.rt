ghost use Rattle.av_json.specs.Member.{Puts};
ghost use Rattle.av_output.specs.Objects.Lines.{judged_tokens, line_tokens};
ghost use Rattle.av_history.specs.declared.report.Line.TheVariants.{Changed, Published};

use av_base::{Generation, StreamId, Verdict, Version};
use av_history::report::{Judged, Line};
use av_json::{Member, put_object};
use json::Writer;
use std::alloc::AllocError;

/// Puts the object of a step's own line, if it has one.
pub fn put_line(own: &Line, line: &mut Writer) -> Result<(), AllocError>
    ensures { Puts result line.old line.new (line_tokens own.now) }
{
    match *own {
        Line::Silent => Ok(()),
        Line::Published {
            version,
            signatures,
        } => put_published(version, signatures, line),
        Line::Created { stream } => put_object(
            line,
            &[
                Member::Text("is", "stream"),
                Member::Number("stream", stream.get()),
                Member::Number("generation", 1),
            ],
        ),
        Line::Changed {
            stream,
            generation,
            length,
        } => put_changed(stream, generation, length, line),
        Line::Removed { stream } => put_object(
            line,
            &[
                Member::Text("is", "removed"),
                Member::Number("stream", stream.get()),
            ],
        ),
        Line::Booted { boot } => put_object(
            line,
            &[Member::Text("is", "boot"), Member::Number("boot", boot)],
        ),
    }
}

fn put_published(version: Version, signatures: u64, line: &mut Writer) -> Result<(), AllocError>
    ensures { Puts result line.old line.new (line_tokens (Published version signatures)) }
{
    put_object(
        line,
        &[
            Member::Text("is", "set"),
            Member::Number("version", version.get()),
            Member::Number("signatures", signatures),
        ],
    )
}

fn put_changed(
    stream: StreamId,
    generation: Generation,
    length: u64,
    line: &mut Writer,
) -> Result<(), AllocError>
    ensures { Puts result line.old line.new (line_tokens (Changed stream generation length)) }
{
    put_object(
        line,
        &[
            Member::Text("is", "stream"),
            Member::Number("stream", stream.get()),
            Member::Number("generation", generation.get()),
            Member::Number("length", length),
        ],
    )
}

/// Puts the object of a judgement.
pub fn put_judged(judged: &Judged, line: &mut Writer) -> Result<(), AllocError>
    ensures { Puts result line.old line.new (judged_tokens judged.now) }
{
    let stream = Member::Number("stream", judged.stream.get());
    let generation = Member::Number("generation", judged.generation.get());
    let version = Member::Number("version", judged.version.get());
    match judged.verdict {
        Verdict::Clean => put_object(
            line,
            &[
                Member::Text("is", "judge"),
                stream,
                generation,
                version,
                Member::Text("verdict", "clean"),
            ],
        ),
        Verdict::Infected { index, end_at } => put_object(
            line,
            &[
                Member::Text("is", "judge"),
                stream,
                generation,
                version,
                Member::Text("verdict", "infected"),
                Member::Number("index", u64::from(index)),
                Member::Number("end", end_at),
            ],
        ),
    }
}
