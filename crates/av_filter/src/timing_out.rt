ghost use Rattle.av_filter.specs.Call.{MeetsAlways};
ghost use Rattle.av_filter.specs.Conduct.{times_out};
ghost use Rattle.av_filter_table.specs.FilterTable.{id_of};
ghost use Rattle.av_filter_table.specs.Table.{question_at};

use crate::closing::refuse;
use crate::note::Note;
use crate::out::Out;
use crate::running::running_at;
use av_base::{Cause, MessageId};
use av_filter_table::FilterTable;
use av_frame::Message;
use av_store::Volume;
use std::alloc::{AllocError, Global};

// A question's time is up.
#[tactic(auto, unfolding(crate::specs::Conduct::times_out))]
pub(crate) fn time_out(
    table: &mut FilterTable,
    alloc: Global,
    volume: &Volume,
    seq: u64,
) -> Result<Out, AllocError>
    ensures { MeetsAlways table.old volume.now table.new volume.now result
        (times_out table.old volume.now (question_at (id_of table.old.boot seq) table.old.questions)) }
{
    let id = MessageId {
        boot: table.boot(),
        seq,
    };
    let Some(question) = running_at(table, id) else {
        return Ok(Out::says(alloc, Note::NoWaiter));
    };
    let abort = Message::abort(question.port, question.id);
    let mut messages = Vec::with_capacity(alloc, 1)?;
    let answers = refuse(table, alloc, volume, &question, Cause::TimedOut)?;
    messages.push(abort).unwrap();
    Ok(Out::gives(answers, messages))
}
