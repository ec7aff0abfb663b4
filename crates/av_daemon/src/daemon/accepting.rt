//! Who comes to a door.

ghost use Rattle.std.specs.Prelude.{◌≡◌, OnOk};
ghost use Rattle.av_daemon.specs.Telling.{connection_for};
ghost use Rattle.av_peers.specs.Clients.{IsLost};
ghost use Rattle.av_daemon.specs.Passing.{KeepsFilter};

use super::{AT_ONCE, Daemon, FIRST, Stop, millis};
use crate::door::Door;
use av_guard::Guard;
use av_log::LogEntry;
use av_peers::client::{Client, Place};
use av_peers::line::{Connection, LEAST};
use av_turns::Admitted;
use mio::net::UnixStream;
use std::fs::Files;
use std::net::Net;
use std::time::{Clock, Duration};

impl<'a, R: Files + Net + Clock> Daemon<'a, R> {
    // Lets in some of those who wait at a door: services first, so that clients can't keep them out.
    pub(super) fn accept(&mut self, guard: &mut Guard, now: Duration) -> Result<(), Stop> {
        'services: for _ in 0..AT_ONCE {
            let Some(stream) = self.doors.service.next() else {
                break;
            };
            self.accept_service(stream, now)?;
        }
        'parts: for _ in 0..AT_ONCE {
            let Some(stream) = next_of(&mut self.doors.parts) else {
                break;
            };
            self.accept_parts(guard, stream, now)?;
        }
        'opens: for _ in 0..AT_ONCE {
            let Some(stream) = self.doors.opens.next() else {
                break;
            };
            let client = Client::of_opens(self.alloc, Connection::new(self.alloc, stream, LEAST));
            self.admit(guard, client, now)?;
        }
        'clamd: for _ in 0..AT_ONCE {
            let Some(stream) = next_of(&mut self.doors.clamd) else {
                break;
            };
            let client = Client::of_clamd(self.alloc, Connection::new(self.alloc, stream, LEAST));
            self.admit(guard, client, now)?;
        }
        'looks: for _ in 0..AT_ONCE {
            let Some(stream) = next_of(&mut self.doors.status) else {
                break;
            };
            self.tell_report(guard, stream, now);
        }
        Ok(())
    }

    // A client is there, where there is a place for it. The longest idle one may have to leave it.
    fn admit(&mut self, guard: &mut Guard, client: Client, now: Duration) -> Result<(), Stop> {
        let Some(number) = guard.client() else {
            return Ok(());
        };
        match self.turns.accepted(number, client.kind(), millis(now))? {
            Admitted::Admit => {}
            Admitted::Instead(idle) => {
                self.happened(&LogEntry::Crowded);
                self.remove(guard, idle)?;
            }
            Admitted::Away => {
                guard.client_lost(number);
                return Ok(());
            }
        }
        self.enter(guard, number, client)
    }

    fn enter(&mut self, guard: &mut Guard, number: u64, mut client: Client) -> Result<(), Stop> {
        let connection = number.saturating_add(FIRST);
        let is_told = client
            .line
            .register(self.doors.poll.registry(), connection)
            .is_ok();
        if !is_told || self.clients.insert(connection, client).is_err() {
            self.turns.closed(number);
            guard.client_lost(number);
            return Ok(());
        }
        self.turns.told_readable(number)?;
        Ok(())
    }

    // A client is gone, of which the turns know already: it is told nothing any more, and what it began is dropped.
    pub(super) fn remove(&mut self, guard: &mut Guard, client: u64) -> Result<(), Stop>
        ensures guard { OnOk result (KeepsFilter guard.old guard.new) }
        ensures clients { OnOk result (IsLost (connection_for client) self.old.clients.entries self.new.clients.entries) }
    {
        guard.client_lost(client);
        self.watches.forget(client);
        let connection = client.saturating_add(FIRST);
        if let Some(who) = self.clients.remove(&connection) {
            if who.place == Place::Parked {
                self.parked.retain(|parked| *parked != client);
            }
        }
        self.drop_contents(client)
    }

    // A client is gone.
    pub(super) fn lose(&mut self, guard: &mut Guard, client: u64) -> Result<(), Stop>
        ensures guard { OnOk result (KeepsFilter guard.old guard.new) }
        ensures clients { OnOk result (IsLost (connection_for client) self.old.clients.entries self.new.clients.entries) }
    {
        self.turns.closed(client);
        self.remove(guard, client)
    }
}

// Who came to a door, where there is such a door.
fn next_of(door: &mut Option<Door>) -> Option<UnixStream> {
    door.as_mut()?.next()
}
