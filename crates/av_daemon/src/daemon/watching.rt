//! Clients that want to be told of a newer version.

ghost use Rattle.std.specs.Prelude.{OnOk};
ghost use Rattle.av_daemon.specs.Passing.{KeepsFilter};

use super::asking::Broken;
use super::{Daemon, FIRST, Stop, millis};
use av_guard::Guard;
use av_turns as turns;
use std::fs::Files;
use std::net::Net;
use std::time::{Clock, Duration};

impl<'a, R: Files + Net + Clock> Daemon<'a, R> {
    // A client wants to be told, once, of a newer version than this one. What it asked so before is forgotten.
    pub(super) fn watch(
        &mut self,
        guard: &mut Guard,
        client: u64,
        wanted: Watch,
        now: Duration,
    ) -> Result<bool, Broken> {
        let goes_on = self.count(client, turns::Thing::Said(0), now)?;
        let Some(who) = self.clients.get_mut(&client.saturating_add(FIRST)) else {
            return Err(Broken::Client);
        };
        who.watch = Some(wanted.tag);
        self.watches.watch(client, wanted.version)?;
        self.tell_newer(guard, now)?;
        Ok(goes_on)
    }

    // Tells each client that waits for a newer version than it named, where the guard's is newer now.
    pub(super) fn tell_newer(&mut self, guard: &mut Guard, now: Duration) -> Result<(), Stop>
        ensures guard { OnOk result (KeepsFilter guard.old guard.new) }
    {
        let floor = guard.floor();
        'watches: for _ in 0..u64::MAX {
            let Some(client) = self.watches.next(floor.get()) else {
                return Ok(());
            };
            let connection = client.saturating_add(FIRST);
            let Some(who) = self.clients.get_mut(&connection) else {
                continue;
            };
            let before = who.line.waiting();
            let done = who.tell_newer(floor);
            let bytes = who.line.waiting().saturating_sub(before);
            if done.is_err() {
                self.lose(guard, client)?;
                continue;
            }
            self.turns.answered(client, bytes as u64, millis(now))?;
            self.wants_to_send(connection)?;
        }
        Ok(())
    }
}

/// What a client wants to be told, under a tag: of a newer version than this one.
#[derive(Clone, Copy)]
pub(super) struct Watch {
    pub tag: u64,
    pub version: u64,
}
