ghost use Rattle.std.specs.Prelude.{◌≡◌, true};
ghost use Rattle.av_ends.specs.Answers.{known_fits};

use av_base::{OpenId, Version};
use av_pend::Answer;
use once_cell::race::Note;

/// What one holder has been shown by one ticket: nothing yet, or an answer that fits the ticket. It takes no memory.
#[derive(Drop)]
pub struct TicketNote {
    pub(crate) note: Note<Answer>,
    open_id: OpenId,
    least: Version,
    pub ghost fitting: { known_fits open_id least note.known ≡ true },
}

impl TicketNote {
    pub(crate) fn new(note: Note<Answer>, open_id: OpenId, least: Version) -> TicketNote
        requires { known_fits open_id least note.known ≡ true }
        ensures { (result.note ≡ note) × (result.open_id ≡ open_id) × (result.least ≡ least) }
    {
        TicketNote {
            note,
            open_id,
            least,
        }
    }
}
