ghost use Rattle.std.specs.Prelude.{◌≡◌, [], ◌+◌, ◌≤◌, ◌++◌, length, vec_len, vec_capacity, Some, IsSome, IfSome, IfOk, OnOk, OnErr};
ghost use Rattle.av_filter_table.specs.Asking.{ended, settled, lost_contexts};
ghost use Rattle.av_filter_table.specs.Answering.{all_judged, by_mode, judged, MayJudge};
ghost use Rattle.av_filter_table.specs.FilterTable.{id_of};
ghost use Rattle.av_filter_table.specs.Table.{question_at, opens_of, other_opens};

use crate::filter_table::FilterTable;
use crate::present::generation_now;
use av_base::{Cause, Generation, MessageId, Verdict, Version};
use av_context::ContextState;
use av_pend::{Answer, PendedOpen};
use av_store::Volume;
use std::alloc::{AllocError, Global};

/// Answers the opens of a question that can't be judged, in order, and takes them out. The cost grows with their count, and a
/// logarithm for each; so it does in each call of this module that names a question.
pub fn refuse_opens(
    table: &mut FilterTable,
    volume: &Volume,
    question: u64,
    answers: &mut Vec<Answer>,
    cause: Cause,
)
    requires there { IsSome (question_at (id_of table.old.boot question) table.old.questions) }
    requires room { vec_len answers.old + length (opens_of (id_of table.old.boot question) table.old.pended)
        ≤ vec_capacity answers.old }
    ensures answers { answers.new.items
        ≡ answers.old.items ++ by_mode table.old volume.now cause (opens_of (id_of table.old.boot question) table.old.pended) }
    ensures table { table.new ≡ record table.old { pended = other_opens (id_of table.old.boot question) table.old.pended } }
    ensures capacity { vec_capacity answers.new ≡ vec_capacity answers.old }
{
    let mode = table.mode();
    'opens: while let Some(held) = table.take_open(question) {
        let generation = generation_now(volume, held.stream());
        answers.push_reserved(held.refuse(mode, generation, cause));
    }
}

/// Ends a question that can't be judged: its opens are answered, and the context of its stream has this state. So ends a
/// question whose time is up, or that the service failed to scan. Where memory is refused nothing changes.
pub fn refuse_question(
    table: &mut FilterTable,
    alloc: Global,
    volume: &Volume,
    question: u64,
    cause: Cause,
    state: ContextState,
) -> Result<Vec<Answer>, AllocError>
    requires { IsSome (question_at (id_of table.old.boot question) table.old.questions) }
    ensures answers { IfOk result (λ answers. answers.items
        ≡ by_mode table.old volume.now cause (opens_of (id_of table.old.boot question) table.old.pended)) }
    ensures table { OnOk result (IfSome (question_at (id_of table.old.boot question) table.old.questions)
        (λ q. table.new ≡ ended table.old q (Some state))) }
    ensures err { OnErr result (table.new ≡ table.old) }
{
    let mut answers = Vec::with_capacity(alloc, table.opens_of(question))?;
    refuse_opens(table, volume, question, &mut answers, cause);
    table.end_question(question, state);
    Ok(answers)
}

/// Answers all opens, which can't be judged, in the order of their numbers, and takes them out. So does the loss of the service.
/// The cost grows with their count, and a logarithm for each.
pub fn refuse_all(table: &mut FilterTable, volume: &Volume, answers: &mut Vec<Answer>, cause: Cause)
    requires { vec_len answers.old + length table.old.pended ≤ vec_capacity answers.old }
    ensures answers { answers.new.items ≡ answers.old.items ++ by_mode table.old volume.now cause table.old.pended }
    ensures table { table.new ≡ record table.old { pended = [] } }
    ensures capacity { vec_capacity answers.new ≡ vec_capacity answers.old }
{
    let mode = table.mode();
    'opens: while let Some(held) = table.pop_open() {
        let generation = generation_now(volume, held.stream());
        answers.push_reserved(held.refuse(mode, generation, cause));
    }
}

/// Answers the opens of a question by its verdict, in order, and takes them out: clean content is let through, infected
/// content is kept out.
pub fn judge_opens(
    table: &mut FilterTable,
    question: u64,
    generation: Generation,
    version: Version,
    verdict: Verdict,
    answers: &mut Vec<Answer>,
)
    requires there { IsSome (question_at (id_of table.old.boot question) table.old.questions) }
    requires leasts { MayJudge version (opens_of (id_of table.old.boot question) table.old.pended) }
    requires room { vec_len answers.old + length (opens_of (id_of table.old.boot question) table.old.pended)
        ≤ vec_capacity answers.old }
    ensures answers { answers.new.items ≡ answers.old.items
        ++ all_judged verdict generation version (opens_of (id_of table.old.boot question) table.old.pended) }
    ensures table { table.new ≡ record table.old { pended = other_opens (id_of table.old.boot question) table.old.pended } }
    ensures capacity { vec_capacity answers.new ≡ vec_capacity answers.old }
{
    'judged: while let Some(held) = table.take_open(question) {
        answers.push_reserved(judge(held, generation, version, verdict));
    }
}

/// The answer to an open by a verdict under a version that is new enough for it.
pub fn judge(held: PendedOpen, generation: Generation, version: Version, verdict: Verdict) -> Answer
    requires { held.least ≤ version }
    ensures { result ≡ judged verdict generation version held }
{
    match verdict {
        Verdict::Clean => held.grant(generation, version),
        Verdict::Infected { .. } => held.deny(Cause::Infected),
    }
}

/// Ends a question with its verdict under a version, which becomes the floor: its opens are answered, and the context of its
/// stream and the cache keep the verdict. Where memory is refused nothing changes.
pub fn settle_question(
    table: &mut FilterTable,
    alloc: Global,
    question: u64,
    version: Version,
    verdict: Verdict,
) -> Result<Vec<Answer>, AllocError>
    requires there { IsSome (question_at (id_of table.old.boot question) table.old.questions) }
    requires floor { table.old.floor ≤ version }
    requires leasts { MayJudge version table.old.pended }
    ensures answers { IfOk result
        (λ answers. IfSome (question_at (id_of table.old.boot question) table.old.questions) (λ q. answers.items
        ≡ all_judged verdict q.generation version (opens_of (id_of table.old.boot question) table.old.pended))) }
    ensures table { OnOk result (IfSome (question_at (id_of table.old.boot question) table.old.questions)
        (λ q. table.new ≡ settled table.old q version verdict)) }
    ensures err { OnErr result (table.new ≡ table.old) }
{
    let id = MessageId {
        boot: table.boot(),
        seq: question,
    };
    let Some(asked) = table.question_at(id) else {
        unreachable!()
    };
    let generation = asked.generation;
    let mut answers = Vec::with_capacity(alloc, table.opens_of(question))?;
    table.put(asked.stream, generation, version, verdict)?;
    judge_opens(table, question, generation, version, verdict, &mut answers);
    table.end_question(question, ContextState::Judged { version, verdict });
    table.raise(version);
    Ok(answers)
}

/// Ends all questions, where no open waits any more: their scans are lost, and the contexts of their streams are Modified. The
/// cost grows with the count of questions, and a logarithm for each.
pub fn lose_questions(table: &mut FilterTable)
    requires { table.old.pended ≡ [] }
    ensures { table.new ≡ record table.old { contexts = lost_contexts table.old.questions table.old.contexts; questions = [] } }
{
    'questions: while let Some(_ended) = table.pop_question(ContextState::Modified) {}
}

/// Ends a table at the end of the program: each open that is held is denied, and nobody hears of it. The cost grows with the
/// counts of opens, of questions and of contexts, and a logarithm for each.
pub fn abandon(mut table: FilterTable) {
    'denied: while let Some(held) = table.pop_open() {
        let _unheard = held.deny(Cause::FilterRestart);
    }
    lose_questions(&mut table);
    table.end();
}
