ghost use Rattle.std.specs.Prelude.{◌≡◌, ◌<◌, true, None, IfOk, IfSome, OnErr, OnOk, OnSome, is_some, length};
ghost use Rattle.av_filter.specs.Fit.{IsThere};
ghost use Rattle.av_filter.specs.Ready.{IsRunning};
ghost use Rattle.av_filter_table.specs.Answering.{present_bytes, present_generation};
ghost use Rattle.av_filter_table.specs.Asking.{asks};
ghost use Rattle.av_filter_table.specs.Table.{next_id, asking, has_room, question_at, question_of, question_on, sequence_left};
ghost use Rattle.av_frame.specs.Message.{IsId, via};
ghost use Rattle.av_frame.specs.declared.message.Body.TheVariants.{Scan};
ghost use Rattle.av_store.specs.Rows.{stream_at};

use av_base::{MessageId, Port, StreamId};
use av_filter_table::present::generation_now;
use av_filter_table::{FilterTable, Question};
use av_frame::Message;
use av_store::Volume;
use std::alloc::AllocError;

// The question of an id, if it runs.
pub(crate) fn running_at(table: &FilterTable, id: MessageId) -> Option<Question>
    ensures found { result ≡ question_at id table.now.questions }
    ensures runs { IfSome result (λ q. IsRunning table.now q) }
{
    let (_boot, _last) = (table.boot(), table.sequence());
    table.question_at(id)
}

// The question of an id, if it runs on this port.
pub(crate) fn running_on(table: &FilterTable, port: Port, id: MessageId) -> Option<Question>
    ensures found { result ≡ question_on port id table.now.questions }
    ensures runs { IfSome result (λ q. IsRunning table.now q) }
{
    let _in_order = table.boot();
    let question = running_at(table, id)?;
    if question.port != port {
        return None;
    }
    Some(question)
}

// The question that runs of a stream.
pub(crate) fn running_of(table: &FilterTable, stream: StreamId) -> Option<Question>
    ensures found { result ≡ question_of stream table.now.questions }
    ensures runs { IfSome result (λ q. IsRunning table.now q) }
    ensures stream { IfSome result (λ q. q.stream ≡ stream) }
{
    let (_boot, _last) = (table.boot(), table.sequence());
    table.question_of(stream)
}

// The message that asks on a port for the scan of a stream's present content.
pub(crate) fn scan_message(volume: &Volume, port: Port, id: MessageId, stream: StreamId) -> Message
    requires id { IsId id }
    requires there { IsThere volume.now.streams stream }
    ensures { result ≡ via port (Scan id stream (present_generation volume.now stream) (length (present_bytes volume.now stream))) }
{
    let _ranges = volume.limits();
    Message::scan(
        port,
        id,
        stream,
        generation_now(volume, stream),
        length_now(volume, stream),
    )
}

// Asks on a port for the scan of a stream that none runs of.
#[tactic(auto, unfolding(av_filter_table::specs::Asking::asks))]
pub(crate) fn ask_scan(
    table: &mut FilterTable,
    volume: &Volume,
    port: Port,
    stream: StreamId,
) -> Result<MessageId, AllocError>
    requires none { question_of stream table.old.questions ≡ None }
    requires left { sequence_left table.old ≡ true }
    requires room { length table.old.questions < table.old.limits.questions }
    ensures id { IfOk result (λ id. id ≡ next_id table.old) }
    ensures can { OnOk result (IsId (next_id table.old)) }
    ensures table { OnOk result (table.new ≡ asks table.old volume.now port stream) }
    ensures err { OnErr result (table.new ≡ table.old) }
{
    let _mounted = table.boot();
    table.ask(port, stream, generation_now(volume, stream))
}

// Whether a stream is there.
pub(crate) fn is_there(volume: &Volume, stream: StreamId) -> bool
    ensures { result ≡ is_some (stream_at stream volume.now.streams) }
{
    volume.generation(stream).is_some()
}

// The present length of a stream; 0 where it is not there.
fn length_now(volume: &Volume, stream: StreamId) -> u64
    ensures { result ≡ length (present_bytes volume.now stream) }
{
    match volume.length(stream) {
        Some(length) => length,
        None => 0,
    }
}

// Where one question more would be asked, if it can be: on the least connected port.
pub(crate) fn asking(table: &FilterTable) -> Option<Port>
    ensures port { result ≡ asking table.now }
    ensures room { OnSome result (length table.now.questions < table.now.limits.questions) }
    ensures left { OnSome result (sequence_left table.now ≡ true) }
{
    let has_place = (table.question_count() as u64) < table.limits().values().questions;
    if has_place && sequence_left(table) {
        return table.connected().least();
    }
    None
}

// Whether a number is left for a question.
pub(crate) fn sequence_left(table: &FilterTable) -> bool
    ensures { result ≡ sequence_left table.now }
{
    table.sequence() < u64::MAX
}

// Whether one open more can be held.
pub(crate) fn has_room(table: &FilterTable) -> bool
    ensures { result ≡ has_room table.now }
{
    (table.pended_count() as u64) < table.limits().values().pended
}
