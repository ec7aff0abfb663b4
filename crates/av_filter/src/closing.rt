ghost use Rattle.std.specs.Prelude.{◌≡◌, ◌≤◌, ◌+◌, ◌++◌, [], Some, IsSome, IfOk, OnOk, OnErr, length, vec_len};
ghost use Rattle.std.specs.Vec.{vec_capacity};
ghost use Rattle.av_context.specs.declared.context_state.ContextState.TheVariants.{Modified};
ghost use Rattle.av_filter.specs.Ending.{all_told, answer_of, context_after};
ghost use Rattle.av_filter.specs.Ready.{IsRunning};
ghost use Rattle.av_filter_table.specs.Answering.{MayJudge, all_judged, by_mode};
ghost use Rattle.av_filter_table.specs.Asking.{ended, settled};
ghost use Rattle.av_filter_table.specs.FilterTable.{id_of};
ghost use Rattle.av_filter_table.specs.Table.{opens_of, other_opens, question_at};

use crate::ending::Ending;
use av_base::{Cause, Mode, Verdict, Version};
use av_context::ContextState;
use av_filter_table::answering::{refuse_question, settle_question};
use av_filter_table::present::generation_now;
use av_filter_table::{FilterTable, Question};
use av_pend::pended_open::MOST_RESCANS;
use av_pend::{Answer, PendedOpen};
use av_store::Volume;
use std::alloc::{AllocError, Global};

// Room for the answers to a question's opens.
pub(crate) fn room_for(
    table: &FilterTable,
    alloc: Global,
    question: &Question,
) -> Result<Vec<Answer>, AllocError>
    requires { IsRunning table.now question.now }
    ensures empty { IfOk result (λ answers. answers.items ≡ []) }
    ensures len { IfOk result (λ answers. vec_len answers ≡ 0) }
    ensures room { IfOk result (λ answers. vec_capacity answers ≡ length (opens_of question.now.id table.now.pended)) }
{
    Vec::with_capacity(alloc, table.opens_of(question.id.seq))
}

// Ends a question that can't be judged for this cause: its opens are answered by the mode, in order.
pub(crate) fn refuse(
    table: &mut FilterTable,
    alloc: Global,
    volume: &Volume,
    question: &Question,
    cause: Cause,
) -> Result<Vec<Answer>, AllocError>
    requires { IsRunning table.old question.now }
    ensures answers { IfOk result
        (λ answers. answers.items ≡ by_mode table.old volume.now cause (opens_of question.now.id table.old.pended)) }
    ensures table { OnOk result (table.new ≡ ended table.old question.now (Some Modified)) }
    ensures err { OnErr result (table.new ≡ table.old) }
{
    refuse_question(
        table,
        alloc,
        volume,
        question.id.seq,
        cause,
        ContextState::Modified,
    )
}

// Ends a question by its verdict under a version that is not below the floor: its opens are answered, and the verdict is
// kept.
pub(crate) fn settle(
    table: &mut FilterTable,
    alloc: Global,
    question: &Question,
    version: Version,
    verdict: Verdict,
) -> Result<Vec<Answer>, AllocError>
    requires runs { IsRunning table.old question.now }
    requires floor { table.old.floor ≤ version }
    requires leasts { MayJudge table.old.floor table.old.pended }
    ensures answers { IfOk result (λ answers. answers.items
        ≡ all_judged verdict question.now.generation version (opens_of question.now.id table.old.pended)) }
    ensures table { OnOk result (table.new ≡ settled table.old question.now version verdict) }
    ensures err { OnErr result (table.new ≡ table.old) }
{
    settle_question(table, alloc, question.id.seq, version, verdict)
}

// Ends a question that runs: its opens are answered in order, and the context of its stream is what the ending leaves.
// The answers go where there is room for them.
pub(crate) fn close(
    table: &mut FilterTable,
    volume: &Volume,
    question: &Question,
    ending: Ending,
    answers: &mut Vec<Answer>,
)
    requires runs { IsRunning table.old question.now }
    requires room { vec_len answers.old + length (opens_of question.now.id table.old.pended) ≤ vec_capacity answers.old }
    ensures answers { answers.new.items
        ≡ answers.old.items ++ all_told table.old volume.now ending (opens_of question.now.id table.old.pended) }
    ensures table { table.new ≡ ended table.old question.now (context_after ending) }
    ensures capacity { vec_capacity answers.new ≡ vec_capacity answers.old }
{
    let number = question.id.seq;
    answer_opens(table, volume, number, ending, answers);
    match ending {
        Ending::Removed => table.end_removed(number),
        Ending::Unsettled => table.end_question(number, ContextState::Modified),
    }
}

// Answers the opens of a question in order, and takes them out.
fn answer_opens(
    table: &mut FilterTable,
    volume: &Volume,
    question: u64,
    ending: Ending,
    answers: &mut Vec<Answer>,
)
    requires there { IsSome (question_at (id_of table.old.boot question) table.old.questions) }
    requires room { vec_len answers.old + length (opens_of (id_of table.old.boot question) table.old.pended)
        ≤ vec_capacity answers.old }
    ensures answers { answers.new.items ≡ answers.old.items
        ++ all_told table.old volume.now ending (opens_of (id_of table.old.boot question) table.old.pended) }
    ensures table { table.new ≡ record table.old { pended = other_opens (id_of table.old.boot question) table.old.pended } }
    ensures capacity { vec_capacity answers.new ≡ vec_capacity answers.old }
{
    let mode = table.mode();
    'opens: while let Some(held) = table.take_open(question) {
        answers.push_reserved(answer(held, mode, volume, ending));
    }
}

// The answer to an open whose question ends so.
fn answer(held: PendedOpen, mode: Mode, volume: &Volume, ending: Ending) -> Answer
    ensures { result ≡ answer_of mode volume.now ending held }
{
    match ending {
        Ending::Removed => held.deny(Cause::StreamRemoved),
        Ending::Unsettled => {
            let cause = if held.rescans() >= MOST_RESCANS {
                Cause::Unsettled
            } else {
                Cause::Busy
            };
            let generation = generation_now(volume, held.stream());
            held.refuse(mode, generation, cause)
        }
    }
}
