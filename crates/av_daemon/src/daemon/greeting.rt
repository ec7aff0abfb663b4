//! Who comes as a scanning service: it greets at a port, and is the service there, or stands by, or is turned away.

ghost use Rattle.std.specs.Prelude.{OnOk};
ghost use Rattle.av_daemon.specs.Hearing.{MoreIsHeard, guest_number};

use super::{Daemon, GUESTS, Stop, connection_of, guest_connection, millis, place_of};
use av_arrival::{TurnedAway, put_refusal};
use av_base::Port;
use av_peers::line::{Connection, LEAST};
use av_peers::service::{Gone, ServicePeer};
use av_turns::{Arrived, Nth};
use mio::net::UnixStream;
use std::fs::Files;
use std::net::Net;
use std::time::{Clock, Duration};

impl<'a, R: Files + Net + Clock> Daemon<'a, R> {
    // One that may be a scanning service: it is waited for to greet, or turned away where two wait already.
    pub(super) fn accept_service(&mut self, stream: UnixStream, now: Duration) -> Result<(), Stop> {
        let mut line = Connection::new(self.alloc, stream, LEAST);
        let Some(guest) = self.turns.service_came(millis(now)) else {
            put_refusal(&mut line.waiting, TurnedAway::Full)?;
            let _ = line.send(now);
            return Ok(());
        };
        let connection = guest_connection(guest);
        let is_told = line
            .register(self.doors.poll.registry(), connection)
            .is_ok();
        let service = ServicePeer::new(self.alloc, line, now);
        if !is_told || self.services.insert(connection, service).is_err() {
            self.turns.guest_lost(guest);
            return Ok(());
        }
        self.goes_on = true;
        Ok(())
    }

    // Reads a piece of what each guest has, up to its greeting, which is kept. What follows that is read once it is a service.
    pub(super) fn read_guests(&mut self, now: Duration) -> Result<(), Stop> {
        'guests: for guest in GUESTS {
            match self.hear_guest(guest, now) {
                Ok(Some(port)) => self.greet(guest, port, now)?,
                Ok(None) => self.goes_on = self.goes_on || self.is_heard_on(guest),
                Err(Gone) => self.lose_guest(guest),
            }
        }
        Ok(())
    }

    // The port at which a guest greeted just now.
    fn hear_guest(&mut self, guest: Nth, now: Duration) -> Result<Option<Port>, Gone>
        ensures { OnOk result (MoreIsHeard (guest_number guest) self.old.services.entries self.new.services.entries) }
    {
        match self.services.get_mut(&guest_connection(guest)) {
            Some(service) => service.hear_greeting(&mut self.buffer, now),
            None => Ok(None),
        }
    }

    // Whether more can be read of a guest at once.
    fn is_heard_on(&self, guest: Nth) -> bool {
        match self.services.get(&guest_connection(guest)) {
            Some(service) => !service.keeps_greeting() && service.line.may_read(),
            None => false,
        }
    }

    // A guest greeted just now at this port.
    fn greet(&mut self, guest: Nth, port: Port, now: Duration) -> Result<(), Stop> {
        let arrived = self.turns.service_greeted(guest, place_of(port));
        match arrived {
            Arrived::Place => {
                self.take_place(guest, port);
                Ok(())
            }
            Arrived::Successor => Ok(()),
            Arrived::Away => self.send_away(guest, now),
        }
    }

    // A guest that greeted is the service of a port from now on. Its greeting is passed on when it is read next.
    pub(super) fn take_place(&mut self, guest: Nth, port: Port) {
        let Some(mut service) = self.services.remove(&guest_connection(guest)) else {
            return;
        };
        let connection = connection_of(port);
        let is_told = service
            .line
            .register_again(self.doors.poll.registry(), connection)
            .is_ok();
        if !is_told || self.services.insert(connection, service).is_err() {
            let _ = self.turns.service_lost(place_of(port));
            return;
        }
        self.goes_on = true;
    }

    // A guest is told that the place is taken and another one stands by.
    fn send_away(&mut self, guest: Nth, now: Duration) -> Result<(), Stop> {
        if let Some(mut service) = self.services.remove(&guest_connection(guest)) {
            put_refusal(&mut service.line.waiting, TurnedAway::Full)?;
            let _ = service.line.send(now);
        }
        Ok(())
    }

    // A guest is gone.
    pub(super) fn lose_guest(&mut self, guest: Nth) {
        let _ = self.services.remove(&guest_connection(guest));
        self.turns.guest_lost(guest);
    }
}
