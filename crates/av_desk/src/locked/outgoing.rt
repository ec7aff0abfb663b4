ghost use Rattle.std.specs.Prelude.{◌≡◌, ◌≢◌, ◌≤◌, ◌<◌, IfOk, MatchBool, OnOk, OnErr, [], drop, length};
ghost use Rattle.av_desk.specs.Book.{messages_of, waiting_of};

use super::Locked;
use crate::entry::DeskEntry;
use av_frame::Message;
use std::alloc::{AllocError, Global};

impl Locked {
    /// Whether a message waits. Events that sent none are passed over for good, so that none is looked at twice.
    pub fn has_outgoing(&mut self) -> bool
        ensures told { MatchBool result (waiting_of self.old ≢ []) (waiting_of self.old ≡ []) }
        ensures sent { self.new ≡ record self.old { sent = self.new.sent } }
        ensures waiting { waiting_of self.new ≡ waiting_of self.old }
    {
        self.sent += quiet_ones(&self.events[self.sent..]);
        self.sent < self.events.len()
    }

    /// Takes out the messages that wait, in the order in which they were sent. Where memory is refused, they stay.
    pub fn take_outgoing(&mut self, alloc: Global) -> Result<Vec<Message>, AllocError>
        ensures ok { IfOk result (λ v. v.items ≡ waiting_of self.old) }
        ensures after { OnOk result (self.new ≡ record self.old { sent = length self.old.events }) }
        ensures err { OnErr result (self.new ≡ self.old) }
    {
        let messages = all_messages(alloc, &self.events[self.sent..])?;
        self.sent = self.events.len();
        Ok(messages)
    }
}

// How many events there are before the first that sent a message.
fn quiet_ones(entries: &[DeskEntry]) -> usize
    ensures within { result ≤ length entries.now }
    ensures stopped { result < length entries.now → messages_of entries.now ≢ [] }
    ensures waiting { messages_of (drop result entries.now) ≡ messages_of entries.now }
{
    let mut count = 0;
    for entry in entries {
        if !entry.messages().is_empty() {
            return count;
        }
        count += 1;
    }
    count
}

// The messages of these events.
fn all_messages(alloc: Global, entries: &[DeskEntry]) -> Result<Vec<Message>, AllocError>
    ensures { IfOk result (λ v. v.items ≡ messages_of entries.now) }
{
    let mut messages = Vec::new(alloc);
    for entry in entries {
        messages.extend_with_clones(entry.messages())?;
    }
    Ok(messages)
}
