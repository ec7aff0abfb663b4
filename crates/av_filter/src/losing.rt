ghost use Rattle.std.specs.Prelude.{◌≡◌, ◌≤◌, ◌+◌, ◌++◌, None, Some, IsSome, length, vec_len};
ghost use Rattle.std.specs.List.{AllByRecursion};
ghost use Rattle.std.specs.List.Sorted.{IsNonDecreasingBy, IsPermutation};
ghost use Rattle.std.specs.Vec.{vec_capacity};
ghost use Rattle.av_filter.specs.Call.{MeetsAlways};
ghost use Rattle.av_filter.specs.Conduct.{again_each, disconnects};
ghost use Rattle.av_filter.specs.Fit.{Stands};
ghost use Rattle.av_filter_table.specs.Orderly.{AreInOrder};
ghost use Rattle.av_filter_table.specs.Ports.{least_port, without_port};
ghost use Rattle.av_filter_table.specs.Table.{question_at};
ghost use Rattle.av_pend.specs.Pend.{open_of};

use crate::asking_again::ask_or_close;
use crate::out::Out;
use av_base::{Cause, Port};
use av_filter_table::answering::{lose_questions, refuse_all};
use av_filter_table::{FilterTable, Question};
use av_frame::Message;
use av_pend::Answer;
use av_store::Volume;
use std::alloc::{AllocError, Global};

// The service of a port is lost.
#[tactic(auto, unfolding(crate::specs::Conduct::disconnects))]
pub(crate) fn disconnect(
    table: &mut FilterTable,
    alloc: Global,
    volume: &Volume,
    port: Port,
) -> Result<Out, AllocError>
    requires { Stands table.old volume.now }
    ensures { MeetsAlways table.old volume.now table.new volume.now result (disconnects table.old volume.now port) }
{
    match table.connected().without(port).least() {
        Some(_left) => move_questions(table, alloc, volume, port),
        None => lose_all(table, alloc, volume, port),
    }
}

// No port is left: each scan that runs is lost, and each open is answered.
#[tactic(auto, unfolding(crate::specs::Conduct::disconnects_to, crate::specs::Conduct::loses_all))]
fn lose_all(
    table: &mut FilterTable,
    alloc: Global,
    volume: &Volume,
    port: Port,
) -> Result<Out, AllocError>
    requires { least_port (without_port port table.old.connected) ≡ None }
    ensures { MeetsAlways table.old volume.now table.new volume.now result (disconnects table.old volume.now port) }
{
    let mut answers = Vec::with_capacity(alloc, table.pended_count())?;
    refuse_all(table, volume, &mut answers, Cause::PortDisconnected);
    lose_questions(table);
    table.set_connected(table.connected().without(port));
    Ok(Out::gives(answers, Vec::new(alloc)))
}

// The other port is left: the questions of this one are asked again there, one after the other, and what that answers stands in
// the order in which the opens were submitted.
#[tactic(auto, unfolding(crate::specs::Conduct::disconnects_to, crate::specs::Conduct::moves))]
fn move_questions(
    table: &mut FilterTable,
    alloc: Global,
    volume: &Volume,
    port: Port,
) -> Result<Out, AllocError>
    requires stands { Stands table.old volume.now }
    requires left { IsSome (least_port (without_port port table.old.connected)) }
    ensures { MeetsAlways table.old volume.now table.new volume.now result (disconnects table.old volume.now port) }
{
    let lost = table.questions_on(alloc, port)?;
    let mut answers = Vec::with_capacity(alloc, table.pended_count())?;
    let mut messages = Vec::with_capacity(alloc, lost.len())?;
    table.set_connected(table.connected().without(port));
    move_each(table, volume, &lost, &mut answers, &mut messages);
    sort_by_open(&mut answers);
    Ok(Out::gives(answers, messages))
}

// Each of these questions is asked again, the first one first.
fn move_each(
    table: &mut FilterTable,
    volume: &Volume,
    lost: &[Question],
    answers: &mut Vec<Answer>,
    messages: &mut Vec<Message>,
)
    requires stands { Stands table.old volume.now }
    requires order { AreInOrder lost.now }
    requires run { AllByRecursion (λ q. question_at q.id table.old.questions ≡ Some q) lost.now }
    requires answer_room { vec_len answers.old + length table.old.pended ≤ vec_capacity answers.old }
    requires message_room { vec_len messages.old + length lost.now ≤ vec_capacity messages.old }
    ensures table { table.new ≡ (again_each table.old volume.now lost.now).table }
    ensures answers { answers.new.items ≡ answers.old.items ++ (again_each table.old volume.now lost.now).answers }
    ensures messages { messages.new.items ≡ messages.old.items ++ (again_each table.old volume.now lost.now).messages }
{
    'lost: for question in lost {
        let (_boot, _last) = (table.boot(), table.sequence());
        ask_or_close(table, volume, question, answers, messages);
    }
}

// Answers in the order of the opens that they are for. It takes no memory.
fn sort_by_open(answers: &mut Vec<Answer>)
    ensures moved { IsPermutation answers.old.items answers.new.items }
    ensures sorted { IsNonDecreasingBy open_of answers.new.items }
{
    answers.sort_unstable_by_key(open_of);
}

// The number of the open that an answer is for.
fn open_of(answer: &Answer) -> u64
    ensures { result ≡ open_of answer.now }
{
    answer.open_id().get()
}
