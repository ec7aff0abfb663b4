//! What a message or lent work tells, apart from the form in which it is told.

ghost use Rattle.std.specs.Prelude.{◌≡◌, ◌∷◌};
ghost use Rattle.av_output.specs.Told.{Id as IdField, held, held_fields, of_kind, outcome_fields, told_of, work_fields};

use crate::told::Field::{Bytes, Id, Nothing, Number, Plain, Word};
use av_base::{MessageId, Verdict};
use av_frame::{Body, Outcome};
use av_service::Work;

/// A field. An object gives it by its name, and a line as each kind of field says.
#[derive(Clone, Copy)]
pub enum Field<'a> {
    /// A question's id: two members, and a word.
    Id(MessageId),
    /// A number behind its name.
    Number(&'a str, u64),
    /// Digits of bytes behind their name.
    Bytes(&'a str, &'a [u8]),
    /// A number without its name.
    Plain(&'a str, u64),
    /// A word without its name.
    Word(&'a str, &'a str),
    /// Room that no field takes.
    Nothing,
}

/// The word of a kind, and its fields in turn.
#[derive(Clone, Copy)]
pub struct Told<'a> {
    pub kind: &'a str,
    pub fields: [Field<'a>; 5],
}

/// What is told of a kind.
pub fn of_kind<'a>(kind: &'a str, fields: [Field<'a>; 5]) -> Told<'a>
    ensures { held result ≡ of_kind kind.now (held_fields fields.entry) }
{
    Told { kind, fields }
}

/// What a message tells.
pub fn told_of(body: &Body) -> Told<'_>
    ensures { held result ≡ told_of body.now }
{
    match body {
        Body::Scan {
            id,
            stream,
            generation,
            length,
        } => of_kind(
            "scan",
            [
                Id(*id),
                Number("stream", stream.get()),
                Number("generation", generation.get()),
                Number("length", *length),
                Nothing,
            ],
        ),
        Body::Chunk { id, offset, bytes } => of_kind(
            "chunk",
            [
                Id(*id),
                Number("offset", *offset),
                Bytes("bytes", bytes.as_slice()),
                Nothing,
                Nothing,
            ],
        ),
        Body::NoChunk { id, offset, cause } => of_kind(
            "nochunk",
            [
                Id(*id),
                Number("offset", *offset),
                Number("cause", u64::from(cause.number())),
                Nothing,
                Nothing,
            ],
        ),
        Body::Abort { id } => of_kind("abort", [Id(*id), Nothing, Nothing, Nothing, Nothing]),
        Body::Hello { volume, version } => of_kind(
            "hello",
            [
                Number("volume", *volume),
                Number("version", version.get()),
                Nothing,
                Nothing,
                Nothing,
            ],
        ),
        Body::Read { id, offset, count } => of_kind(
            "read",
            [
                Id(*id),
                Number("offset", *offset),
                Number("count", u64::from(*count)),
                Nothing,
                Nothing,
            ],
        ),
        Body::Reply { id, outcome } => of_kind("reply", reply_fields(*id, outcome)),
        Body::Updated { version } => of_kind(
            "updated",
            [
                Plain("version", version.get()),
                Nothing,
                Nothing,
                Nothing,
                Nothing,
            ],
        ),
    }
}

fn reply_fields(id: MessageId, outcome: &Outcome) -> [Field<'_>; 5]
    ensures { held_fields result ≡ IdField id ∷ outcome_fields outcome.now }
{
    match *outcome {
        Outcome::Judged { version, verdict } => match verdict {
            Verdict::Clean => [
                Id(id),
                Number("version", version.get()),
                Word("verdict", "clean"),
                Nothing,
                Nothing,
            ],
            Verdict::Infected { index, end_at } => [
                Id(id),
                Number("version", version.get()),
                Word("verdict", "infected"),
                Plain("index", u64::from(index)),
                Number("end", end_at),
            ],
        },
        Outcome::Failed { cause } => [
            Id(id),
            Word("verdict", "failed"),
            Plain("cause", u64::from(cause.number())),
            Nothing,
            Nothing,
        ],
    }
}

/// The fields of lent work: its job's id, where its bytes begin, and how many they are.
pub fn work_fields(work: &Work) -> [Field<'_>; 5]
    ensures { held_fields result ≡ work_fields work.now }
{
    [
        Id(work.id()),
        Number("offset", work.offset()),
        Number("length", work.length()),
        Nothing,
        Nothing,
    ]
}
