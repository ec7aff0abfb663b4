ghost use Rattle.std.specs.Prelude.{◌≡◌};
ghost use Rattle.av_gate.specs.Calls.{event_of};

use crate::call::Event;
use av_filter::{Note, Out};
use av_frame::Message;
use av_pend::Answer;
use std::marker::Model;

/// One event of an audit, with all that the filter gave out.
#[derive(Debug, Drop)]
pub struct GateEntry {
    event: Event,
    out: Out,
}

impl Model for GateEntry {
    ghost use Rattle.av_filter.specs.Audit.{FilterEntry};
    ghost use Rattle.av_gate.specs.Calls.{event_of};

    ghost Value = { FilterEntry };

    ghost view = { λ x. record {
      event = event_of x.event;
      answers = x.out.answers.items;
      messages = x.out.messages.items;
      note = x.out.note;
    } };
}

impl GateEntry {
    pub(crate) fn new(event: Event, out: Out) -> GateEntry
        ensures { result ≡ record {
          event = event_of event;
          answers = out.answers.items;
          messages = out.messages.items;
          note = out.note;
        } }
    {
        GateEntry { event, out }
    }

    /// What happened.
    pub fn event(&self) -> &Event
        ensures { event_of result.now ≡ self.now.event }
    {
        &self.event
    }

    /// The answers given, by their opens' order of submission.
    pub fn answers(&self) -> &[Answer]
        ensures { result.now ≡ self.now.answers }
    {
        self.out.answers.as_slice()
    }

    /// The messages sent, in their order.
    pub fn messages(&self) -> &[Message]
        ensures { result.now ≡ self.now.messages }
    {
        self.out.messages.as_slice()
    }

    /// What was told beside them.
    pub fn note(&self) -> Note
        ensures { result ≡ self.now.note }
    {
        self.out.note
    }
}
