ghost use Rattle.std.specs.Prelude.{◌+◌, ◌^◌, ◌≡◌, ◌++◌, ◌∷◌, ◌<◌, [], IsSome, IfSome, IfNone, OnOk, OnErr, IfErr, length, filter, vec_len, vec_capacity, ◌≤◌};
ghost use Rattle.std.specs.List.{AllByRecursion, list_any};
ghost use Rattle.av_base.specs.declared.cause.Cause.TheVariants.{Unsettled};
ghost use Rattle.av_filter_table.specs.Asking.{is_held, is_lost, asked_again};
ghost use Rattle.av_base.specs.declared.message_id.MessageId.{MessageId};
ghost use Rattle.av_filter_table.specs.Answering.{by_mode};
ghost use Rattle.av_filter_table.specs.Table.{next_id, question_at, opens_of, other_opens};
ghost use Rattle.av_filter_table.specs.FilterTable.{id_of, open_numbers};

use super::FilterTable;
use crate::asked::Asked;
use crate::chains;
use crate::moving::{Renewal, move_opens};
use crate::present::generation_now;
use av_base::{MessageId, Port};
use av_context::ContextState;
use av_pend::{Answer, PendedOpen};
use av_store::Volume;
use std::alloc::AllocFailed;

impl FilterTable {
    /// Holds an open under a question that runs. The cost grows with the logarithms of the counts of questions and of opens.
    /// Where memory is refused nothing changes, and the open comes back.
    pub fn add_open(
        &mut self,
        question: u64,
        held: PendedOpen,
    ) -> Result<(), AllocFailed<PendedOpen>>
        requires there { IsSome (question_at (id_of self.old.boot question) self.old.questions) }
        requires last { AllByRecursion (λ n. n < held.open_id) (open_numbers self.old.pended) }
        ensures ok { OnOk result (self.new
            ≡ record self.old {
              pended = self.old.pended
                  ++ record { question = id_of self.old.boot question; held = held } ∷ [];
            }) }
        ensures err { OnErr result (self.new ≡ self.old) }
        ensures back { IfErr result (λ failed. failed.value ≡ held) }
    {
        let _numbers_ascend = self.questions.len();
        let number = held.open_id().get();
        chains::append(
            &mut self.questions,
            &mut self.pended,
            question,
            number,
            held,
        )
    }

    /// Takes the first open of a question that runs out. The cost grows with the logarithms of the counts of questions and of
    /// opens.
    pub fn take_open(&mut self, question: u64) -> Option<PendedOpen>
        requires { IsSome (question_at (id_of self.old.boot question) self.old.questions) }
        ensures none { IfNone result (opens_of (id_of self.old.boot question) self.old.pended ≡ []) }
        ensures unchanged { IfNone result (self.new ≡ self.old) }
        ensures some { IfSome result
            (λ held. opens_of (id_of self.old.boot question) self.old.pended
            ≡ record { question = id_of self.old.boot question; held = held }
            ∷ opens_of (id_of self.old.boot question) self.new.pended) }
        ensures others { other_opens (id_of self.old.boot question) self.new.pended
            ≡ other_opens (id_of self.old.boot question) self.old.pended }
        ensures rest { self.new ≡ record self.old { pended = self.new.pended } }
    {
        let _numbers_ascend = self.questions.len();
        chains::take_first(&mut self.questions, &mut self.pended, question)
    }

    /// Takes the first of all opens out, whatever it waits for. The cost grows with the logarithms of the counts of questions
    /// and of opens.
    pub fn pop_open(&mut self) -> Option<PendedOpen>
        ensures none { IfNone result ((self.old.pended ≡ []) × (self.new ≡ self.old)) }
        ensures some { IfSome result (λ held. (id : MessageId)
            × (self.old.pended ≡ record { question = id; held = held } ∷ self.new.pended)) }
        ensures rest { self.new ≡ record self.old { pended = self.new.pended } }
    {
        chains::pop_first(&mut self.questions, &mut self.pended)
    }

    /// How many opens wait for a question that runs. At once, but for finding the question.
    pub fn opens_of(&self, question: u64) -> usize
        requires { IsSome (question_at (id_of self.now.boot question) self.now.questions) }
        ensures { result ≡ length (opens_of (id_of self.now.boot question) self.now.pended) }
    {
        let _numbers_ascend = self.questions.len();
        let Some(asked) = self.questions.row(question) else {
            unreachable!()
        };
        asked.opens
    }

    /// Whether an open that waits for a question has a rescan left. The cost grows with the count of the question's opens, and
    /// a logarithm for each.
    pub fn has_rescan_left(&self, question: u64) -> bool
        requires { IsSome (question_at (id_of self.now.boot question) self.now.questions) }
        ensures { result ≡ list_any (is_held (id_of self.now.boot question)) self.now.pended }
    {
        let _numbers_ascend = self.questions.len();
        chains::has_rescan_left(&self.questions, &self.pended, question)
    }

    /// Asks anew on a port for a question that runs: it ends, and its opens wait for a new question, of the present content of its
    /// stream, each with one rescan more. Those with no rescan left are answered. The cost grows with the count of its opens, and a
    /// logarithm for each. It takes no memory.
    pub fn ask_again(
        &mut self,
        volume: &Volume,
        port: Port,
        question: u64,
        answers: &mut Vec<Answer>,
    ) -> MessageId
        requires there { IsSome (question_at (id_of self.old.boot question) self.old.questions) }
        requires left { self.old.sequence + 1 < 2 ^ 64 }
        requires room { vec_len answers.old + length (opens_of (id_of self.old.boot question) self.old.pended)
            ≤ vec_capacity answers.old }
        ensures id { result ≡ next_id self.old }
        ensures answers { answers.new.items ≡ answers.old.items
            ++ by_mode self.old volume.now Unsettled (filter (is_lost (id_of self.old.boot question)) self.old.pended) }
        ensures table { IfSome (question_at (id_of self.old.boot question) self.old.questions)
            (λ q. self.new ≡ asked_again self.old volume.now port q) }
        ensures capacity { vec_capacity answers.new ≡ vec_capacity answers.old }
    {
        let _numbers_ascend = self.questions.len();
        let Some(asked) = self.questions.row(question) else {
            unreachable!()
        };
        let stream = asked.stream;
        let generation = generation_now(volume, stream);
        let seq = self.sequence + 1;
        let id = MessageId {
            boot: self.boot,
            seq,
        };
        let context = self.contexts.share(stream, ContextState::Scanning(id));
        let _in_range = self.limits.values();
        let row = Asked::new(stream, generation, port);
        self.questions.insert(seq, row, context);
        move_opens(
            &mut self.questions,
            &mut self.pended,
            Renewal {
                old: question,
                new: seq,
            },
            self.mode,
            volume,
            answers,
        );
        let Some((_ended, context)) = self.questions.remove(question) else {
            unreachable!()
        };
        self.contexts.release(stream, context);
        self.sequence = seq;
        id
    }
}
