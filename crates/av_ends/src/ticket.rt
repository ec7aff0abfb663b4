ghost use Rattle.std.specs.Prelude.{◌≡◌, Some, None, Ok, IfOk, IfErr, MatchOption, true};
ghost use Rattle.std.specs.Arc.{arc_value};
ghost use Rattle.av_ends.specs.Answers.{fits};
ghost use Rattle.av_ends.specs.Tickets.{IsNoteOf};

use crate::ticket_note::TicketNote;
use av_base::{Cause, OpenId, Version};
use av_pend::Answer;
use once_cell::race::OnceBox;
use std::alloc::{AllocError, Global};
use std::sync::Arc;

/// What the caller of an open holds until it is answered: the open's number, the least version that may grant it, and the cell
/// in which the answer is shown.
#[derive(Drop)]
pub struct Ticket {
    cell: Arc<OnceBox<Answer>, Global>,
    open_id: OpenId,
    least: Version,
}

/// The other end of a ticket, of whoever answers the open. The room for the answer is made with it, so that answering takes no
/// memory.
#[derive(Drop)]
pub struct Due {
    cell: Arc<OnceBox<Answer>, Global>,
    spare: Box<Answer>,
}

/// That an open was answered, and how.
#[derive(Clone, Copy, Debug, PartialEq, Eq)]
pub struct Receipt {
    pub open_id: OpenId,
    pub answer: Answer,
}

impl Due {
    /// Shows the answer to whoever polls the ticket from now on.
    pub fn show(self, answer: Answer) {
        let Due { cell, mut spare } = self;
        *spare = answer;
        let _ = cell.set(spare);
    }
}

impl Ticket {
    /// A ticket for an open, and its other end.
    pub fn new(alloc: Global, open_id: OpenId, least: Version) -> Result<(Ticket, Due), AllocError>
        ensures { IfOk result (λ r. (r.0.open_id ≡ open_id) × (r.0.least ≡ least) × (arc_value r.1.cell ≡ arc_value r.0.cell)) }
    {
        let unsaid = Answer::Denied {
            open_id,
            cause: Cause::NotConnected,
        };
        let spare = Box::new(alloc, unsaid)?;
        let cell = Arc::new(alloc, OnceBox::new(alloc))?;
        let theirs = Arc::try_clone(&cell)?;
        let ticket = Ticket {
            cell,
            open_id,
            least,
        };
        Ok((
            ticket,
            Due {
                cell: theirs,
                spare,
            },
        ))
    }

    /// The number of the open.
    pub fn open_id(&self) -> OpenId
        ensures { result ≡ self.now.open_id }
    {
        self.open_id
    }

    /// The least version that may grant the open.
    pub fn least(&self) -> Version
        ensures { result ≡ self.now.least }
    {
        self.least
    }

    /// A note that knows nothing yet.
    pub fn note(&self) -> TicketNote
        ensures { IsNoteOf self.now result × (result.note.known ≡ None) }
    {
        TicketNote::new(self.cell.note(), self.open_id, self.least)
    }

    /// The answer, once there is one; it takes no lock. Only an answer to this open is shown, and a grant only with this open's
    /// least and of a version not below it. A note that knows an answer is always shown that answer.
    pub fn poll(&self, note: &mut TicketNote) -> Option<&Answer>
        requires { IsNoteOf self.now note.old }
        ensures same { IsNoteOf self.now note.new }
        ensures shown { MatchOption result ((note.old.note.known ≡ None) × (note.new.note.known ≡ None))
            (λ r. (note.new.note.known ≡ Some r.now) × (fits self.now.open_id self.now.least r.now ≡ true)) }
        ensures known { (a : _) → note.old.note.known ≡ Some a → note.new.note.known ≡ Some a }
    {
        let mut trial = note.note.again();
        let answer = self.cell.get_as(&mut trial)?;
        if !self.takes(answer) {
            return None;
        }
        *note = TicketNote::new(trial, self.open_id, self.least);
        Some(answer)
    }

    /// Two notes of one ticket that know an answer know the same.
    pub fn agree(&self, note: &mut TicketNote, other: TicketNote)
        requires { IsNoteOf self.now note.old × IsNoteOf self.now other }
        ensures kept { note.new ≡ note.old }
        ensures same { (a b : _) → note.old.note.known ≡ Some a → other.note.known ≡ Some b → a ≡ b }
    {
        note.note.compare(other.note);
    }

    /// Ends the ticket once its open is answered. It is handed back, with the note, only where the note knows no answer.
    pub fn receipt(self, mut note: TicketNote) -> Result<Receipt, (Ticket, TicketNote)>
        requires { IsNoteOf self note }
        ensures ok { IfOk result (λ r. (r.open_id ≡ self.open_id) × (fits self.open_id self.least r.answer ≡ true)) }
        ensures known { (a : _) → note.note.known ≡ Some a → result ≡ Ok (record { open_id = self.open_id; answer = a }) }
        ensures back { IfErr result (λ e. (e.0 ≡ self) × (e.1 ≡ note) × (note.note.known ≡ None)) }
    {
        match self.poll(&mut note) {
            Some(answer) => Ok(Receipt {
                open_id: self.open_id,
                answer: *answer,
            }),
            None => Err((self, note)),
        }
    }

    // Whether an answer is to this open, and grants it nothing below its least.
    fn takes(&self, answer: &Answer) -> bool
        ensures { result ≡ fits self.now.open_id self.now.least answer.now }
    {
        match *answer {
            Answer::Granted {
                open_id,
                least,
                stream: _,
                generation: _,
                version,
            } => open_id == self.open_id && least == self.least && self.least <= version,
            Answer::Unscanned {
                open_id,
                stream: _,
                generation: _,
                cause: _,
            } => open_id == self.open_id,
            Answer::Denied { open_id, cause: _ } => open_id == self.open_id,
        }
    }
}
