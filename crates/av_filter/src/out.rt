ghost use Rattle.std.specs.Prelude.{◌≡◌, ◌∷◌, [], IfOk};
ghost use Rattle.av_filter.specs.declared.note.Note.TheVariants.{Quiet, Submitted};

use crate::note::Note;
use av_base::OpenId;
use av_frame::Message;
use av_pend::Answer;
use std::alloc::{AllocError, Global};

/// What an event of the filter gives out: answers by their opens' order of submission, messages in the order in which they
/// are to be sent, and a note.
#[derive(Debug, Drop)]
pub struct Out {
    pub answers: Vec<Answer>,
    pub messages: Vec<Message>,
    pub note: Note,
}

impl Out {
    // A note alone. Takes no memory.
    pub(crate) fn says(alloc: Global, note: Note) -> Out
        ensures answers { result.answers.items ≡ [] }
        ensures messages { result.messages.items ≡ [] }
        ensures note { result.note ≡ note }
    {
        Out {
            answers: Vec::new(alloc),
            messages: Vec::new(alloc),
            note,
        }
    }

    // One message alone.
    pub(crate) fn sends(alloc: Global, message: Message) -> Result<Out, AllocError>
        ensures answers { IfOk result (λ out. out.answers.items ≡ []) }
        ensures messages { IfOk result (λ out. out.messages.items ≡ message ∷ []) }
        ensures note { IfOk result (λ out. out.note ≡ Quiet) }
    {
        let mut messages = Vec::with_capacity(alloc, 1)?;
        messages.push(message).unwrap();
        Ok(Out {
            answers: Vec::new(alloc),
            messages,
            note: Note::Quiet,
        })
    }

    // Answers and messages.
    pub(crate) fn gives(answers: Vec<Answer>, messages: Vec<Message>) -> Out
        ensures answers { result.answers ≡ answers }
        ensures messages { result.messages ≡ messages }
        ensures note { result.note ≡ Quiet }
    {
        Out {
            answers,
            messages,
            note: Note::Quiet,
        }
    }

    // The answer to the open of this number.
    pub(crate) fn answers(alloc: Global, answers: Vec<Answer>, open_id: OpenId) -> Out
        ensures answers { result.answers ≡ answers }
        ensures messages { result.messages.items ≡ [] }
        ensures note { result.note ≡ Submitted open_id }
    {
        Out {
            answers,
            messages: Vec::new(alloc),
            note: Note::Submitted { open_id },
        }
    }

    // The open of this number waits, for a question that runs.
    pub(crate) fn pends(alloc: Global, open_id: OpenId) -> Out
        ensures answers { result.answers.items ≡ [] }
        ensures messages { result.messages.items ≡ [] }
        ensures note { result.note ≡ Submitted open_id }
    {
        Out::asks(alloc, Vec::new(alloc), open_id)
    }

    // The open of this number waits, for a question that is asked now.
    pub(crate) fn asks(alloc: Global, messages: Vec<Message>, open_id: OpenId) -> Out
        ensures answers { result.answers.items ≡ [] }
        ensures messages { result.messages ≡ messages }
        ensures note { result.note ≡ Submitted open_id }
    {
        Out {
            answers: Vec::new(alloc),
            messages,
            note: Note::Submitted { open_id },
        }
    }
}
