ghost use Rattle.std.specs.Prelude.{◌≡◌, ◌≤◌, ◌<◌, ◌+◌, ◌++◌, ◌&&◌, true, [], None, OnSome, filter, length, vec_len, if◌then◌else◌};
ghost use Rattle.std.specs.List.{list_any};
ghost use Rattle.std.specs.Vec.{vec_capacity};
ghost use Rattle.av_base.specs.declared.cause.Cause.TheVariants.{Unsettled};
ghost use Rattle.av_filter.specs.Again.{again};
ghost use Rattle.av_filter.specs.Call.{MeetsAlways};
ghost use Rattle.av_filter.specs.Fit.{Fits, IsThere};
ghost use Rattle.av_filter.specs.Ready.{IsRunning};
ghost use Rattle.av_filter_table.specs.Answering.{by_mode};
ghost use Rattle.av_filter_table.specs.Asking.{asked_again, is_held, is_lost};
ghost use Rattle.av_filter_table.specs.Ports.{least_port};
ghost use Rattle.av_filter_table.specs.Table.{next_id, opens_of, sequence_left};
ghost use Rattle.av_frame.specs.Message.{IsId};

use crate::closing::{close, room_for};
use crate::ending::Ending;
use crate::out::Out;
use crate::running::{scan_message, sequence_left};
use av_base::{MessageId, Port};
use av_filter_table::{FilterTable, Question};
use av_frame::Message;
use av_pend::Answer;
use av_store::Volume;
use std::alloc::{AllocError, Global};

// A question whose answer came too late is asked again.
pub(crate) fn ask_again(
    table: &mut FilterTable,
    alloc: Global,
    volume: &Volume,
    question: &Question,
) -> Result<Out, AllocError>
    requires fits { Fits table.old volume.now }
    requires runs { IsRunning table.old question.now }
    ensures { MeetsAlways table.old volume.now table.new volume.now result (again table.old volume.now question.now []) }
{
    let mut answers = room_for(table, alloc, question)?;
    let mut messages = Vec::with_capacity(alloc, 1)?;
    ask_or_close(table, volume, question, &mut answers, &mut messages);
    Ok(Out::gives(answers, messages))
}

// A question ends, and is asked again for those of its opens that have a rescan left, if that can be; else all are answered. What
// it gives out goes where there is room for it.
#[tactic(auto, unfolding(crate::specs::Again::again_at))]
pub(crate) fn ask_or_close(
    table: &mut FilterTable,
    volume: &Volume,
    question: &Question,
    answers: &mut Vec<Answer>,
    messages: &mut Vec<Message>,
)
    requires runs { IsRunning table.old question.now }
    requires there { IsThere volume.now.streams question.now.stream }
    requires answer_room { vec_len answers.old + length (opens_of question.now.id table.old.pended) ≤ vec_capacity answers.old }
    requires message_room { vec_len messages.old < vec_capacity messages.old }
    ensures table { table.new ≡ (again table.old volume.now question.now []).table }
    ensures answers { answers.new.items ≡ answers.old.items ++ (again table.old volume.now question.now []).answers }
    ensures messages { messages.new.items ≡ messages.old.items ++ (again table.old volume.now question.now []).messages }
    ensures answer_capacity { vec_capacity answers.new ≡ vec_capacity answers.old }
    ensures message_capacity { vec_capacity messages.new ≡ vec_capacity messages.old }
{
    match port_again(table, question) {
        Some(port) => {
            let id = ask_anew(table, volume, port, question, answers);
            messages.push_reserved(scan_message(volume, port, id, question.stream));
        }
        None => close(table, volume, question, Ending::Unsettled, answers),
    }
}

// Where a question is asked again, if it is: an open of it has a rescan left, and a number is left.
fn port_again(table: &FilterTable, question: &Question) -> Option<Port>
    requires { IsRunning table.now question.now }
    ensures port { result ≡ (if list_any (is_held question.now.id) table.now.pended && sequence_left table.now
        then least_port table.now.connected else None) }
    ensures left { OnSome result (sequence_left table.now ≡ true) }
{
    if table.has_rescan_left(question.id.seq) && sequence_left(table) {
        return table.connected().least();
    }
    None
}

// Asks a question anew, and answers those of its opens that have no rescan left.
fn ask_anew(
    table: &mut FilterTable,
    volume: &Volume,
    port: Port,
    question: &Question,
    answers: &mut Vec<Answer>,
) -> MessageId
    requires runs { IsRunning table.old question.now }
    requires left { sequence_left table.old ≡ true }
    requires room { vec_len answers.old + length (opens_of question.now.id table.old.pended) ≤ vec_capacity answers.old }
    ensures id { result ≡ next_id table.old }
    ensures can { IsId (next_id table.old) }
    ensures answers { answers.new.items
        ≡ answers.old.items ++ by_mode table.old volume.now Unsettled (filter (is_lost question.now.id) table.old.pended) }
    ensures table { table.new ≡ asked_again table.old volume.now port question.now }
    ensures capacity { vec_capacity answers.new ≡ vec_capacity answers.old }
{
    let _mounted = table.boot();
    table.ask_again(volume, port, question.id.seq, answers)
}
