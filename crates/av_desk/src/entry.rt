ghost use Rattle.std.specs.Prelude.{◌≡◌, ◌++◌, ◌∷◌, ◌<◌, [], map, vec_len, IfNone, IfSome, None};
ghost use Rattle.std.specs.Option.{option_to_list};
ghost use Rattle.std.specs.Vec.{vec_capacity};
ghost use Rattle.av_desk.specs.Book.{given};
ghost use Rattle.av_desk.specs.Entry.{IsLentAs, call_of};

use crate::event::Event;
use crate::given::GivenWork;
use av_base::{Lease, Version};
use av_frame::Message;
use av_service::{ContentScan, ServiceNote, ServiceOut, Work};
use std::marker::Model;

/// One event of an audit, with what it gave out.
#[derive(Drop)]
pub struct DeskEntry {
    event: Event,
    messages: Vec<Message>,
    given: Option<GivenWork>,
    note: ServiceNote,
}

impl Model for DeskEntry {
    ghost use Rattle.av_desk.specs.Entry.{call_of, works_given};
    ghost use Rattle.av_service.specs.Audit.{ServiceEntry};

    ghost Value = { ServiceEntry };

    ghost view = { λ e. record {
      call = call_of e.event;
      messages = e.messages.items;
      works = works_given e.given;
      note = e.note;
    } };
}

impl DeskEntry {
    /// What happened.
    pub fn event(&self) -> &Event
        ensures { call_of result.now ≡ self.now.call }
    {
        &self.event
    }

    /// The messages that it sent, in their order.
    pub fn messages(&self) -> &[Message]
        ensures { result.now ≡ self.now.messages }
    {
        self.messages.as_slice()
    }

    /// The lease of the work that it gave out, if it gave one.
    pub fn lease(&self) -> Option<Lease>
        ensures { option_to_list result ≡ map (λ k. k.lease) self.now.works }
    {
        match &self.given {
            Some(given) => Some(given.lease()),
            None => None,
        }
    }

    /// The work that it gave out, if it gave one: its lease, the version of its set, and its scan so far.
    pub fn lent(&self) -> Option<(Lease, Version, ContentScan)>
        ensures some { IfSome result (λ r. IsLentAs self.now.works r.0 r.1 r.2) }
        ensures none { IfNone result (self.now.works ≡ []) }
    {
        match &self.given {
            Some(given) => Some((given.lease(), given.version(), given.scan())),
            None => None,
        }
    }

    /// Its note.
    pub fn note(&self) -> ServiceNote
        ensures { result ≡ self.now.note }
    {
        self.note
    }
}

/// Keeps an event with what the service gave out, of which the work and the note go on. Takes no memory.
pub(crate) fn keep(
    entries: &mut Vec<DeskEntry>,
    event: Event,
    out: ServiceOut,
) -> (Option<Work>, ServiceNote)
    requires { vec_len entries.old < vec_capacity entries.old }
    ensures entries { entries.new.items ≡ entries.old.items ++ given (call_of event) out ∷ [] }
    ensures work { result.0 ≡ out.work }
    ensures note { result.1 ≡ out.note }
{
    let ServiceOut {
        messages,
        work,
        note,
    } = out;
    let given = GivenWork::of(&work);
    entries.push_reserved(DeskEntry {
        event,
        messages,
        given,
        note,
    });
    (work, note)
}

/// The same of an event that gives out no work.
pub(crate) fn keep_silent(
    entries: &mut Vec<DeskEntry>,
    event: Event,
    out: ServiceOut,
) -> ServiceNote
    requires room { vec_len entries.old < vec_capacity entries.old }
    requires silent { out.work ≡ None }
    ensures entries { entries.new.items ≡ entries.old.items ++ given (call_of event) out ∷ [] }
    ensures note { result ≡ out.note }
{
    let (work, note) = keep(entries, event, out);
    match work {
        None => note,
        Some(_) => unreachable!(),
    }
}
