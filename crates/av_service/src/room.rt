ghost use Rattle.std.specs.Prelude.{◌≡◌, ◌≤◌, ◌<◌, [], OnErr, OnOk, vec_len};
ghost use Rattle.std.specs.Vec.{vec_capacity};

use av_frame::Message;
use std::alloc::{AllocError, Global};
use std::marker::Model;
use std::mem;

/// Memory for so many messages.
#[derive(Drop)]
pub(crate) struct Room {
    // None.
    messages: Vec<Message>,
}

impl Model for Room {
    ghost use Rattle.std.specs.Prelude.{ℕ, ◌≡◌, []};
    ghost use Rattle.std.specs.Vec.{vec_capacity};

    ghost Value = { ℕ };

    ghost view = { λ r. vec_capacity r.messages };

    ghost invariant = { λ r. r.messages.items ≡ [] };
}

impl Room {
    // For none. Takes no memory.
    pub(crate) fn new(alloc: Global) -> Room {
        Room {
            messages: Vec::new(alloc),
        }
    }

    // Makes it as large as this, where it is not.
    pub(crate) fn reserve(&mut self, count: usize) -> Result<(), AllocError>
        ensures ok { OnOk result (count ≤ self.new) }
        ensures less { OnErr result (self.old < count) }
        ensures err { OnErr result (self.new ≡ self.old) }
    {
        self.messages.reserve_exact(count)?;
        Ok(())
    }

    // All of it, as a list of no message.
    pub(crate) fn take(&mut self, alloc: Global) -> Vec<Message>
        ensures none { result.items ≡ [] }
        ensures len { vec_len result ≡ 0 }
        ensures room { vec_capacity result ≡ self.old }
    {
        mem::replace(&mut self.messages, Vec::new(alloc))
    }
}
