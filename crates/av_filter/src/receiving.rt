ghost use Rattle.std.specs.Prelude.{◌≡◌, ◌≤◌, ◌<◌, IfOk, drop, length, take};
ghost use Rattle.av_base.specs.declared.limits.TheConstants.{MAX_CHUNK, MAX_LENGTH};
ghost use Rattle.av_filter.specs.Call.{MeetsAlways, Reacts};
ghost use Rattle.av_filter.specs.Fit.{Fits};
ghost use Rattle.av_filter.specs.Receiving.{greeted, reads, receives, receives_at, replies};
ghost use Rattle.av_filter_table.specs.Answering.{MayJudge};
ghost use Rattle.av_filter_table.specs.Table.{question_on};
ghost use Rattle.av_frame.specs.Message.{IsInRange, IsPart};
ghost use Rattle.av_frame.specs.declared.message.Body.TheVariants.{Read};

use crate::asking_again::ask_again;
use crate::closing::{refuse, settle};
use crate::note::Note;
use crate::out::Out;
use crate::running::running_on;
use av_base::{ByteList, Cause, MessageId, Port, Version};
use av_filter_table::FilterTable;
use av_frame::{Body, Message, NoChunkCause, Outcome};
use av_store::Volume;
use std::alloc::{AllocError, Global};
use std::cmp::min;

// A message of the scanning service of a port.
#[tactic(auto, unfolding(crate::specs::Receiving::receives_at))]
pub(crate) fn receive(
    table: &mut FilterTable,
    alloc: Global,
    volume: &Volume,
    message: &Message,
) -> Result<Out, AllocError>
    requires fits { Fits table.old volume.now }
    requires leasts { MayJudge table.old.floor table.old.pended }
    ensures { MeetsAlways table.old volume.now table.new volume.now result (receives table.old volume.now message.now) }
{
    let port = message.port();
    match message.body() {
        Body::Hello {
            volume: number,
            version,
        } => Ok(greet(table, alloc, volume, port, *number, *version)),
        Body::Updated { version } => {
            table.raise(*version);
            Ok(Out::says(alloc, Note::Quiet))
        }
        Body::Read { id, offset, count } => {
            let wanted = Wanted {
                id: *id,
                offset: *offset,
                count: *count,
            };
            read(table, alloc, volume, port, wanted)
        }
        Body::Reply { id, outcome } => reply(table, alloc, volume, port, *id, *outcome),
        _ => Ok(Out::says(alloc, Note::Ignored)),
    }
}

// The service greets.
#[tactic(auto, unfolding(crate::specs::Receiving::greeted))]
fn greet(
    table: &mut FilterTable,
    alloc: Global,
    volume: &Volume,
    port: Port,
    number: u64,
    version: Version,
) -> Out
    ensures { Reacts result table.new volume.now (greeted table.old volume.now port number version) }
{
    if number != volume.number() {
        return Out::says(alloc, Note::WrongVolume);
    }
    let connected = table.connected();
    if connected.is_open(port) {
        return Out::says(alloc, Note::Connected);
    }
    if version.get() < table.floor().get() {
        return Out::says(alloc, Note::OldVersion);
    }
    table.set_connected(connected.with(port));
    table.raise(version);
    Out::says(alloc, Note::Welcome)
}

// So many bytes of the content of a question, from a place on.
#[derive(Clone, Copy)]
struct Wanted {
    id: MessageId,
    offset: u64,
    count: u32,
}

// The service reads content of a question.
#[tactic(auto, unfolding(crate::specs::Receiving::reads))]
fn read(
    table: &FilterTable,
    alloc: Global,
    volume: &Volume,
    port: Port,
    wanted: Wanted,
) -> Result<Out, AllocError>
    requires asked { IsInRange (Read wanted.id wanted.offset wanted.count) }
    ensures { IfOk result
        (λ out. Reacts out table.now volume.now
        (reads table.now volume.now port wanted.id wanted.offset wanted.count
        (question_on port wanted.id table.now.questions))) }
{
    let Wanted { id, offset, count } = wanted;
    let Some(question) = running_on(table, port, id) else {
        return Out::sends(
            alloc,
            Message::no_chunk(port, id, offset, NoChunkCause::NoQuestion),
        );
    };
    let Some(bytes) = volume.content(question.stream) else {
        return Out::sends(
            alloc,
            Message::no_chunk(port, id, offset, NoChunkCause::PastEnd),
        );
    };
    if bytes.len() as u64 <= offset {
        return Out::sends(
            alloc,
            Message::no_chunk(port, id, offset, NoChunkCause::PastEnd),
        );
    }
    let _ranges = volume.limits();
    let most = min(u64::from(count), table.limits().values().chunk);
    let chunk = part(alloc, bytes, offset, most)?;
    Out::sends(alloc, Message::chunk(port, id, offset, chunk))
}

// The service replies.
#[tactic(auto, unfolding(crate::specs::Receiving::replies))]
fn reply(
    table: &mut FilterTable,
    alloc: Global,
    volume: &Volume,
    port: Port,
    id: MessageId,
    outcome: Outcome,
) -> Result<Out, AllocError>
    requires fits { Fits table.old volume.now }
    requires leasts { MayJudge table.old.floor table.old.pended }
    ensures { MeetsAlways table.old volume.now table.new volume.now result
        (replies table.old volume.now outcome (question_on port id table.old.questions)) }
{
    let Some(question) = running_on(table, port, id) else {
        return Ok(Out::says(alloc, Note::NoWaiter));
    };
    match outcome {
        Outcome::Failed { .. } => {
            let answers = refuse(table, alloc, volume, &question, Cause::ScanFailed)?;
            Ok(Out::gives(answers, Vec::new(alloc)))
        }
        Outcome::Judged { version, verdict } => {
            if version.get() < table.floor().get() {
                return ask_again(table, alloc, volume, &question);
            }
            let answers = settle(table, alloc, &question, version, verdict)?;
            Ok(Out::gives(answers, Vec::new(alloc)))
        }
    }
}

// Bytes of a content from a place in it on, at most so many of them.
fn part(alloc: Global, bytes: &[u8], offset: u64, most: u64) -> Result<ByteList, AllocError>
    requires inside { offset < length bytes.now }
    requires size { length bytes.now ≤ MAX_LENGTH }
    requires most { (1 ≤ most) × (most ≤ MAX_CHUNK) }
    ensures bytes { IfOk result (λ chunk. chunk ≡ take most (drop offset bytes.now)) }
    ensures part { IfOk result (λ chunk. IsPart offset chunk) }
{
    let rest = &bytes[offset as usize..];
    let count = min(most as usize, rest.len());
    ByteList::copied(alloc, &rest[..count])
}
