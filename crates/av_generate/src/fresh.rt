ghost use Rattle.std.specs.Prelude.{◌≡◌, IfOk};
ghost use Rattle.std.specs.String.{string_bytes};
ghost use Rattle.av_generate.specs.Course.{fresh_of, fresh_words};

use crate::words::numbered;
use av_history::Places;
use std::alloc::{AllocError, Global};

/// The last of what a step sent or lent, by its place.
#[derive(Clone, Copy, Debug)]
pub enum Fresh {
    Down(u64),
    Up(u64),
    Work(u64),
}

impl Fresh {
    /// What a step sent or lent, if it did: a message to the service, else one to the filter, else work.
    pub fn of(before: Places, after: Places) -> Option<Fresh>
        ensures { result ≡ fresh_of before after }
    {
        if before.down < after.down {
            Some(Fresh::Down(after.down))
        } else if before.up < after.up {
            Some(Fresh::Up(after.up))
        } else if before.works < after.works {
            Some(Fresh::Work(after.works))
        } else {
            None
        }
    }

    /// The words that carry it on.
    pub fn words(self, alloc: Global) -> Result<String, AllocError>
        ensures { IfOk result (λ t. string_bytes t ≡ fresh_words self) }
    {
        match self {
            Fresh::Down(place) => numbered(alloc, "down ", place),
            Fresh::Up(place) => numbered(alloc, "up ", place),
            Fresh::Work(place) => numbered(alloc, "work ", place),
        }
    }
}
