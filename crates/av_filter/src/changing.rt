ghost use Rattle.std.specs.Prelude.{◌≡◌, ◌<◌, ◌∷◌, [], true, None, Ok, IsSome, OnOk, OnErr, OnSome, length, if◌then◌else◌};
ghost use Rattle.std.specs.Option.{option_map};
ghost use Rattle.av_filter.specs.Again.{again};
ghost use Rattle.av_filter.specs.Call.{Meets, MeetsAlways};
ghost use Rattle.av_filter.specs.Changing.{changed_volume, changes, cleaned, removed, rewritten};
ghost use Rattle.av_filter.specs.Conduct.{Changes, filter_refusal};
ghost use Rattle.av_filter.specs.Ready.{IsRunning};
ghost use Rattle.av_filter.specs.declared.fault.FilterFault.{FilterFault};
ghost use Rattle.av_filter.specs.declared.fault.FilterFault.TheVariants as fault;
ghost use Rattle.av_filter_table.specs.Rewriting.{change_by};
ghost use Rattle.av_filter_table.specs.Table.{asking, context_of, is_modified, question_of, sequence_left};
ghost use Rattle.av_frame.specs.Message.{via};
ghost use Rattle.av_frame.specs.declared.message.Body.TheVariants.{Abort};
ghost use Rattle.std.specs.Result.{result_err};
ghost use Rattle.av_store.specs.Files.{Remove};
ghost use Rattle.av_store.specs.Rows.{stream_at};
ghost use Rattle.av_store.specs.Seen.{change_of};

use crate::asking_again::ask_or_close;
use crate::closing::{close, room_for};
use crate::ending::Ending;
use crate::fault::FilterFault;
use crate::note::Note;
use crate::out::Out;
use crate::running::{ask_scan, asking, is_there, running_of, scan_message};
use av_base::{Port, Refusal, StreamId};
use av_context::ContextState;
use av_filter_table::{FilterTable, Question, Rewriting};
use av_frame::Message;
use av_store::{StoreFault, Volume};
use std::alloc::{AllocError, Global};

// A stream is written or cut. The volume changes once there is room for all else, and before anything else does.
#[tactic(auto, unfolding(crate::specs::Changing::rewritten))]
pub(crate) fn rewrite(
    table: &mut FilterTable,
    alloc: Global,
    volume: &mut Volume,
    stream: StreamId,
    rewriting: Rewriting<'_>,
) -> Result<Out, Refusal<FilterFault>>
    ensures { Meets table.old volume.old table.new volume.new result
        (option_map fault.Store (result_err (change_of volume.old (change_by stream rewriting.entry)))) (rewritten table.old
        (changed_volume volume.old (change_by stream rewriting.entry)) stream (question_of stream table.old.questions)) }
{
    if let Some(fault) = rewriting.refusal(volume, stream) {
        return Err(Refusal::Fault(FilterFault::Store(fault)));
    }
    let Some(question) = running_of(table, stream) else {
        table.modify(volume, stream, rewriting)?;
        return Ok(Out::says(alloc, Note::Quiet));
    };
    Ok(rewrite_asked(table, alloc, volume, &question, rewriting)?)
}

// A stream that is being scanned is written or cut: its question is asked again.
fn rewrite_asked(
    table: &mut FilterTable,
    alloc: Global,
    volume: &mut Volume,
    question: &Question,
    rewriting: Rewriting<'_>,
) -> Result<Out, AllocError>
    requires runs { IsRunning table.old question.now }
    requires accepted { result_err (change_of volume.old (change_by question.now.stream rewriting)) ≡ None }
    ensures { MeetsAlways table.old volume.old table.new volume.new result (again table.old
        (changed_volume volume.old (change_by question.now.stream rewriting.entry)) question.now (via question.now.port (Abort question.now.id) ∷ [])) }
{
    let mut answers = room_for(table, alloc, question)?;
    let mut messages = Vec::with_capacity(alloc, 2)?;
    accept(rewriting, volume, question.stream)?;
    messages.push_reserved(Message::abort(question.port, question.id));
    ask_or_close(table, volume, question, &mut answers, &mut messages);
    Ok(Out::gives(answers, messages))
}

// A change that the volume accepts, where it has the memory.
fn accept(rewriting: Rewriting<'_>, volume: &mut Volume, stream: StreamId) -> Result<(), AllocError>
    requires { result_err (change_of volume.old (change_by stream rewriting)) ≡ None }
    ensures ok { OnOk result (change_of volume.old (change_by stream rewriting.entry) ≡ Ok volume.new) }
    ensures err { OnErr result (volume.new ≡ volume.old) }
{
    match rewriting.apply(volume, stream) {
        Ok(()) => Ok(()),
        Err(_) => Err(AllocError),
    }
}

// A stream is removed.
#[tactic(auto, unfolding(crate::specs::Changing::changes, crate::specs::Changing::removed, crate::specs::Conduct::filter_refusal, av_store::specs::Seen::change_of))]
pub(crate) fn remove(
    table: &mut FilterTable,
    alloc: Global,
    volume: &mut Volume,
    stream: StreamId,
) -> Result<Out, Refusal<FilterFault>>
    ensures { Meets table.old volume.old table.new volume.new result
        (filter_refusal table.old volume.old (Changes (Remove stream))) (changes table.old volume.old (Remove stream)) }
{
    if !is_there(volume, stream) {
        return Err(Refusal::Fault(FilterFault::Store(StoreFault::NoStream)));
    }
    let Some(question) = running_of(table, stream) else {
        table.forget_context(stream);
        take_away(volume, stream);
        return Ok(Out::says(alloc, Note::Quiet));
    };
    let mut answers = room_for(table, alloc, &question)?;
    let abort = Message::abort(question.port, question.id);
    let mut messages = Vec::with_capacity(alloc, 1)?;
    take_away(volume, stream);
    close(table, volume, &question, Ending::Removed, &mut answers);
    messages.push(abort).unwrap();
    Ok(Out::gives(answers, messages))
}

// A stream that is there goes.
#[tactic(auto, unfolding(av_store::specs::Seen::change_of))]
fn take_away(volume: &mut Volume, stream: StreamId)
    requires { IsSome (stream_at stream volume.old.streams) }
    ensures { change_of volume.old (Remove stream) ≡ Ok volume.new }
{
    match volume.remove(stream) {
        Ok(()) => {}
        Err(_) => unreachable!(),
    }
}

// The last of those who wrote to a stream has closed it: it is asked about, where it was written and a question can be asked.
#[tactic(auto, unfolding(crate::specs::Changing::cleaned))]
pub(crate) fn clean_up(
    table: &mut FilterTable,
    alloc: Global,
    volume: &Volume,
    stream: StreamId,
) -> Result<Out, AllocError>
    ensures { MeetsAlways table.old volume.now table.new volume.now result
        (cleaned table.old volume.now stream (stream_at stream volume.now.streams)) }
{
    if !is_there(volume, stream) {
        return Ok(Out::says(alloc, Note::NoStream));
    }
    let Some(port) = port_to_ask(table, stream) else {
        return Ok(Out::says(alloc, Note::Quiet));
    };
    let mut messages = Vec::with_capacity(alloc, 1)?;
    let id = ask_scan(table, volume, port, stream)?;
    messages
        .push(scan_message(volume, port, id, stream))
        .unwrap();
    Ok(Out::gives(Vec::new(alloc), messages))
}

// Where a stream is asked about, if it was written and a question can be asked.
fn port_to_ask(table: &FilterTable, stream: StreamId) -> Option<Port>
    ensures port { result ≡ (if is_modified (context_of table.now.contexts stream) then asking table.now else None) }
    ensures unasked { OnSome result (question_of stream table.now.questions ≡ None) }
    ensures room { OnSome result (length table.now.questions < table.now.limits.questions) }
    ensures left { OnSome result (sequence_left table.now ≡ true) }
{
    let _scanned_by_their_questions = table.boot();
    match table.state_of(stream) {
        Some(ContextState::Modified) => asking(table),
        _ => None,
    }
}
