ghost use Rattle.std.specs.Prelude.{◌≡◌, [], OnErr, OnOk};
ghost use Rattle.av_peers.specs.Watches.{IsNext, IsWatched, Watching};
ghost use Rattle.av_turns.specs.Waits.{Ends};

use av_turns::Waits;
use std::alloc::{AllocError, Global};
use std::marker::Model;

/// Which clients want to be told of a newer version, and than which one: each client of one.
#[derive(Drop)]
pub struct Watches {
    named: Waits,
}

impl Model for Watches {
    ghost use Rattle.av_peers.specs.Watches.{CanBeNewer, Watching};

    ghost Value = { Watching };

    ghost view = { λ w. w.named };

    ghost invariant = { λ w. CanBeNewer w.named };
}

impl Watches {
    /// Nobody wants to be told.
    pub fn new(alloc: Global) -> Watches
        ensures { result ≡ [] }
    {
        Watches {
            named: Waits::new(alloc),
        }
    }

    /// A client wants to be told of a newer version than this one, and no more of what it named before. There is none than the greatest.
    pub fn watch(&mut self, client: u64, version: u64) -> Result<(), AllocError>
        ensures ok { OnOk result (IsWatched self.old self.new client version) }
        ensures err { OnErr result (self.new ≡ self.old) }
    {
        if version == u64::MAX {
            self.named.end(client);
            return Ok(());
        }
        self.named.begin(client, version)
    }

    /// A client wants to be told nothing.
    pub fn forget(&mut self, client: u64)
        ensures { Ends self.old self.new client }
    {
        self.named.end(client);
    }

    /// A client that named an older version than this one. It wants to be told nothing more.
    pub fn next(&mut self, floor: u64) -> Option<u64>
        ensures { IsNext self.old self.new floor result }
    {
        self.named.late(1, floor)
    }
}
