ghost use Rattle.av_context.specs.Contexts.{set_at};
ghost use Rattle.av_context.specs.declared.context_state.ContextState.TheVariants.{Scanning};
ghost use Rattle.std.specs.Prelude.{◌+◌, ◌^◌, IfOk, ◌≡◌, ◌++◌, ◌∷◌, ◌<◌, [], None, Some, IsSome, length, IfSome, IfNone, OnOk, OnErr, IfErr};
ghost use Rattle.std.specs.List.{AllByRecursion};
ghost use Rattle.av_filter_table.specs.Asking.{ended};
ghost use Rattle.av_numbered.specs.Numbered.{IsAscending};
ghost use Rattle.av_filter_table.specs.Table.{next_id, on_port, question_of, question_at, opens_of};
ghost use Rattle.av_filter_table.specs.FilterTable.{id_of, open_numbers};

use super::FilterTable;
use crate::asked::Asked;
use crate::chains;
use crate::question::Question;
use av_base::{Generation, MessageId, Port, StreamId};
use av_context::ContextState;
use av_pend::PendedOpen;
use std::alloc::{AllocError, AllocFailed, Global};

impl FilterTable {
    /// The question of an id, if it runs. The cost grows with the logarithm of the count of questions.
    pub fn question_at(&self, id: MessageId) -> Option<Question>
        ensures { result ≡ question_at id self.now.questions }
    {
        let _numbers_ascend = self.questions.len();
        if id.boot != self.boot {
            return None;
        }
        let asked = self.questions.row(id.seq)?;
        Some(asked.question(self.boot, id.seq))
    }

    /// The question that runs of a stream, if there is one: the stream's context names it. The cost grows with the logarithms
    /// of the counts of streams and of questions.
    pub fn question_of(&self, stream: StreamId) -> Option<Question>
        ensures { result ≡ question_of stream self.now.questions }
    {
        let _numbers_ascend = self.questions.len();
        let state = self.contexts.state_of(stream)?;
        let ContextState::Scanning(id) = state else {
            return None;
        };
        let question = self.question_at(id)?;
        let named = question.stream.get();
        let wanted = stream.get();
        if named != wanted {
            return None;
        }
        Some(question)
    }

    /// Asks on a port for a scan of a stream that none runs of: a new question, which no open waits for yet. The cost grows with
    /// the logarithms of the counts of streams and of questions. Where memory is refused nothing changes.
    pub fn ask(
        &mut self,
        port: Port,
        stream: StreamId,
        generation: Generation,
    ) -> Result<MessageId, AllocError>
        requires none { question_of stream self.old.questions ≡ None }
        requires left { self.old.sequence + 1 < 2 ^ 64 }
        requires room { length self.old.questions < self.old.limits.questions }
        ensures id { IfOk result (λ id. id ≡ next_id self.old) }
        ensures ok { OnOk result (self.new
            ≡ record self.old {
              sequence = self.old.sequence
                  + 1;
              contexts = set_at self.old.contexts stream (Some (Scanning (next_id self.old)));
              questions = self.old.questions
                  ++ record { id = next_id self.old; port = port; stream = stream; generation = generation } ∷ [];
            }) }
        ensures err { OnErr result (self.new ≡ self.old) }
    {
        let seq = self.sequence + 1;
        let id = MessageId {
            boot: self.boot,
            seq,
        };
        let context = self.contexts.hold(stream, ContextState::Scanning(id))?;
        let _in_range = self.limits.values();
        let row = Asked::new(stream, generation, port);
        self.questions.insert(seq, row, context);
        self.sequence = seq;
        Ok(id)
    }

    /// Asks on a port for a scan of a stream that none runs of, for an open that waits for it. The cost grows with the logarithms
    /// of the counts of streams, of questions and of opens. Where memory is refused nothing changes, and the open comes back.
    pub fn ask_for(
        &mut self,
        port: Port,
        stream: StreamId,
        generation: Generation,
        held: PendedOpen,
    ) -> Result<MessageId, AllocFailed<PendedOpen>>
        requires none { question_of stream self.old.questions ≡ None }
        requires left { self.old.sequence + 1 < 2 ^ 64 }
        requires room { length self.old.questions < self.old.limits.questions }
        requires last { AllByRecursion (λ n. n < held.open_id) (open_numbers self.old.pended) }
        ensures id { IfOk result (λ id. id ≡ next_id self.old) }
        ensures ok { OnOk result (self.new
            ≡ record self.old {
              sequence = self.old.sequence
                  + 1;
              contexts = set_at self.old.contexts stream (Some (Scanning (next_id self.old)));
              questions = self.old.questions
                  ++ record { id = next_id self.old; port = port; stream = stream; generation = generation } ∷ [];
              pended = self.old.pended
                  ++ record { question = next_id self.old; held = held } ∷ [];
            }) }
        ensures err { OnErr result (self.new ≡ self.old) }
        ensures back { IfErr result (λ failed. failed.value ≡ held) }
    {
        let _numbers_ascend = self.questions.len();
        let seq = self.sequence + 1;
        let id = MessageId {
            boot: self.boot,
            seq,
        };
        let number = held.open_id().get();
        let old = self.contexts.state_of(stream);
        let Ok(context) = self.contexts.hold(stream, ContextState::Scanning(id)) else {
            return Err(AllocFailed { value: held });
        };
        let _in_range = self.limits.values();
        let row = Asked::new(stream, generation, port);
        self.questions.insert(seq, row, context);
        if let Err(failed) = chains::append(
            &mut self.questions,
            &mut self.pended,
            seq,
            number,
            held,
        ) {
            let Some((_asked, context)) = self.questions.remove(seq) else {
                unreachable!()
            };
            self.contexts.undo_hold(stream, context, old);
            return Err(failed);
        }
        self.sequence = seq;
        Ok(id)
    }

    /// The questions of a port, in the order of their ids. The cost grows with the count of all questions.
    pub fn questions_on(&self, alloc: Global, port: Port) -> Result<Vec<Question>, AllocError>
        ensures { IfOk result (λ qs. qs.items ≡ on_port port self.now.questions) }
    {
        let mut found = Vec::new(alloc);
        'questions: for place in 0..self.questions.len() {
            let Some((seq, asked)) = self.questions.nth(place) else {
                unreachable!()
            };
            if asked.port == port {
                found.push(asked.question(self.boot, seq))?;
            }
        }
        Ok(found)
    }

    /// Ends a question that no open waits for. The context of its stream has this state from now on. The cost grows with the
    /// logarithm of the count of questions.
    pub fn end_question(&mut self, question: u64, state: ContextState)
        requires there { IsSome (question_at (id_of self.old.boot question) self.old.questions) }
        requires none { opens_of (id_of self.old.boot question) self.old.pended ≡ [] }
        ensures { IfSome (question_at (id_of self.old.boot question) self.old.questions)
            (λ q. self.new ≡ ended self.old q (Some state)) }
    {
        let _numbers_ascend = self.questions.len();
        let Some((asked, context)) = self.questions.remove(question) else {
            unreachable!()
        };
        self.contexts.give_back(asked.stream, context, state);
    }

    /// Ends a question that no open waits for, and whose stream is gone: it has no context from now on. The cost grows with the
    /// logarithms of the counts of streams and of questions.
    pub fn end_removed(&mut self, question: u64)
        requires there { IsSome (question_at (id_of self.old.boot question) self.old.questions) }
        requires none { opens_of (id_of self.old.boot question) self.old.pended ≡ [] }
        ensures { IfSome (question_at (id_of self.old.boot question) self.old.questions) (λ q. self.new ≡ ended self.old q None) }
    {
        let _numbers_ascend = self.questions.len();
        let Some((asked, context)) = self.questions.remove(question) else {
            unreachable!()
        };
        self.contexts.forget(asked.stream, context);
    }

    /// Ends the last of all questions, where no open waits any more. The context of its stream has this state from now on. The
    /// cost grows with the logarithm of the count of streams.
    pub fn pop_question(&mut self, state: ContextState) -> Option<Question>
        requires { self.old.pended ≡ [] }
        ensures none { IfNone result ((self.old.questions ≡ []) × (self.new ≡ self.old)) }
        ensures some { IfSome result (λ q. (self.old.questions ≡ self.new.questions ++ q ∷ [])
            × (self.new ≡ record self.old {
              contexts = set_at self.old.contexts q.stream
                  (Some state);
              questions = self.new.questions;
            })) }
        ensures ascend { IfSome result (λ _. IsAscending self.old.contexts) }
    {
        let _numbers_ascend = self.questions.len();
        let (seq, last, context) = self.questions.pop_last()?;
        self.contexts.give_back(last.stream, context, state);
        Some(last.question(self.boot, seq))
    }
}
