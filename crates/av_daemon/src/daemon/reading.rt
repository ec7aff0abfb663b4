//! What comes from the scanning services.

ghost use Rattle.std.specs.Prelude.{OnOk};
ghost use Rattle.av_daemon.specs.Hearing.{IsHeard, MoreIsHeard, TakesOf, number_at, unheard_at};
ghost use Rattle.av_daemon.specs.Passing.{IsGiven, IsLosing, IsLosingOne};

use super::{Daemon, PORTS, Stop, connection_of, millis, place_of};
use av_arrival::{TurnedAway, put_refusal};
use av_base::Port;
use av_frame::{Body, Message};
use av_guard::Guard;
use av_log::LogEntry;
use av_peers::service::{Claim, Whole, claim_of};
use std::collections::BTreeMap;
use std::fs::Files;
use std::net::Net;
use std::time::{Clock, Duration};

// Whether a service stays after what it said.
#[derive(Clone, Copy, Debug, PartialEq, Eq)]
enum Stay {
    Stays,
    IsLost,
}

impl<'a, R: Files + Net + Clock> Daemon<'a, R> {
    // Reads a piece of what each service has, and takes its messages.
    pub(super) fn read_services(&mut self, guard: &mut Guard, now: Duration) -> Result<(), Stop> {
        self.read_guests(now)?;
        'ports: for port in PORTS {
            self.read_service(guard, port, now)?;
        }
        Ok(())
    }

    // Reads a piece of what the service of a port has, and takes its messages.
    fn read_service(&mut self, guard: &mut Guard, port: Port, now: Duration) -> Result<(), Stop>
        ensures { OnOk result (IsHeard port self.old.services.entries guard.old guard.new) }
    {
        let is_gone = self.hear_service(port, now);
        if self.take_messages(guard, port, now)? == Stay::IsLost {
            return Ok(());
        }
        if is_gone {
            return self.lose_service(guard, port, now);
        }
        if let Some(service) = self.services.get(&connection_of(port)) {
            self.goes_on = self.goes_on || service.goes_on();
        }
        Ok(())
    }

    // Reads a piece of what the service of a port has, where it may be read. Whether its connection is of no more use.
    fn hear_service(&mut self, port: Port, now: Duration) -> bool
        ensures { MoreIsHeard (number_at port) self.old.services.entries self.new.services.entries }
    {
        let Some(service) = self.services.get_mut(&connection_of(port)) else {
            return false;
        };
        if !service.goes_on() {
            return false;
        }
        service.hear(&mut self.buffer, now).is_err()
    }

    // Takes the messages of a service that are whole, its greeting first.
    fn take_messages(&mut self, guard: &mut Guard, port: Port, now: Duration) -> Result<Stay, Stop>
        ensures { OnOk result (TakesOf (unheard_at (number_at port) self.old.services.entries) guard.old guard.new) }
    {
        let Some(service) = self.services.get_mut(&connection_of(port)) else {
            return Ok(Stay::Stays);
        };
        let Whole { messages, is_gone } = service.take_whole(self.alloc);
        'messages: for message in messages.as_slice() {
            if self.take_message(guard, port, message, now)? == Stay::IsLost {
                return Ok(Stay::IsLost);
            }
        }
        if is_gone {
            self.lose_service(guard, port, now)?;
            return Ok(Stay::IsLost);
        }
        Ok(Stay::Stays)
    }

    // A message of the service of a port. One that names the other port, or claims a set that is not believed, loses it its place.
    fn take_message(
        &mut self,
        guard: &mut Guard,
        port: Port,
        message: &Message,
        now: Duration,
    ) -> Result<Stay, Stop>
        ensures { OnOk result (IsGiven message.now guard.old guard.new) }
    {
        if message.port() != port {
            self.lose_service(guard, port, now)?;
            return Ok(Stay::IsLost);
        }
        let claim = claim_of(message);
        if let Some(claim) = &claim {
            if let Some(why) = self.belief.refusal(claim, guard.floor()) {
                self.turn_away(guard, port, claim, why, now)?;
                return Ok(Stay::IsLost);
            }
        }
        let first = self.replied(port, message, now);
        let was_connected = guard.connected(port);
        let Ok(given) = guard.message(self.alloc, message) else {
            self.lose_service(guard, port, now)?;
            return Ok(Stay::IsLost);
        };
        self.tell_newer(guard, now)?;
        self.settle(guard, given, first)?;
        if !guard.connected(port) {
            self.lose_service(guard, port, now)?;
            return Ok(Stay::IsLost);
        }
        if let Some(claim) = &claim {
            self.claimed(port, claim, was_connected, now);
        }
        self.end_outdated(guard, port, now)
    }

    // A service that was asked a question replied to it. When the first byte of its ask came, or now: a question that is asked again
    // has no more time.
    fn replied(&mut self, port: Port, message: &Message, now: Duration) -> u64 {
        let Body::Reply { id, .. } = message.body() else {
            return millis(now);
        };
        let seq = id.seq;
        if self.was_asked(port.other(), seq) {
            return millis(now);
        }
        self.turns.replied(place_of(port), seq);
        let Some(service) = self.services.get_mut(&connection_of(port)) else {
            return millis(now);
        };
        match service.asked.replied(seq, now) {
            Some(question) => question.first,
            None => millis(now),
        }
    }

    // Whether the service of a port was asked a question that it has not answered.
    pub(super) fn was_asked(&self, port: Port, seq: u64) -> bool {
        match self.services.get(&connection_of(port)) {
            Some(service) => service.asked.has(seq),
            None => false,
        }
    }

    // A service named the version of its set, which is believed.
    fn claimed(&mut self, port: Port, claim: &Claim, was_connected: bool, now: Duration) {
        if let Some(service) = self.services.get_mut(&connection_of(port)) {
            service.claims(claim);
        }
        match claim {
            Claim::Greeting(version) => {
                if !was_connected {
                    self.greeted = Some(self.greeted.unwrap_or(now));
                    let version = *version;
                    self.happened(&LogEntry::Connected { port, version });
                }
            }
            Claim::Newer(version) => {
                let version = *version;
                self.happened(&LogEntry::Newer { port, version });
            }
        }
    }

    // The service that is asked first has to have the newest set, since its verdicts would grant nothing: else it is turned away.
    // Whether the service of this port stays.
    fn end_outdated(&mut self, guard: &mut Guard, port: Port, now: Duration) -> Result<Stay, Stop>
        ensures { OnOk result (IsLosingOne guard.old guard.new) }
    {
        let asked = if guard.connected(Port::One) {
            Port::One
        } else {
            Port::Two
        };
        let floor = guard.floor();
        let is_outdated = match self.services.get(&connection_of(asked)) {
            Some(service) => !service.keeps_greeting() && service.is_outdated(floor),
            None => false,
        };
        if !is_outdated {
            return Ok(Stay::Stays);
        }
        self.refuse(asked, TurnedAway::Older(floor), now)?;
        self.lose_service(guard, asked, now)?;
        if asked == port {
            return Ok(Stay::IsLost);
        }
        Ok(Stay::Stays)
    }

    // A service is told why it is turned away.
    fn turn_away(
        &mut self,
        guard: &mut Guard,
        port: Port,
        claim: &Claim,
        why: TurnedAway,
        now: Duration,
    ) -> Result<(), Stop>
        ensures { OnOk result (IsLosing port guard.old guard.new) }
    {
        if let Some(entry) = refused(claim, &why) {
            self.happened(&entry);
        }
        self.refuse(port, why, now)?;
        self.lose_service(guard, port, now)
    }

    fn refuse(&mut self, port: Port, why: TurnedAway, now: Duration) -> Result<(), Stop> {
        if let Some(service) = self.services.get_mut(&connection_of(port)) {
            put_refusal(&mut service.line.waiting, why)?;
            let _ = service.line.send(now);
        }
        Ok(())
    }

    // The service of a port is gone. Its questions are asked at the other, as far as they have time left, or end; and one that stood
    // by has its place at once.
    pub(super) fn lose_service(
        &mut self,
        guard: &mut Guard,
        port: Port,
        now: Duration,
    ) -> Result<(), Stop>
        ensures { OnOk result (IsLosing port guard.old guard.new) }
    {
        let mut firsts = BTreeMap::new(self.alloc);
        if let Some(mut service) = self.services.remove(&connection_of(port)) {
            'questions: for _ in 0..u64::MAX {
                let Some((seq, question)) = service.asked.next() else {
                    break;
                };
                self.turns.question_over(seq);
                firsts.insert(question.stream, question.first)?;
            }
        }
        let successor = self.turns.service_lost(place_of(port));
        if guard.connected(port) {
            self.happened(&LogEntry::Lost(port));
            let given = guard.service_lost(self.alloc, port)?;
            self.settle_moved(guard, given, &firsts, now)?;
        }
        if !self.has_service(guard) {
            self.greeted = None;
            self.lose_parts(guard, now)?;
        }
        if let Some(guest) = successor {
            self.take_place(guest, port);
        }
        Ok(())
    }

    // Whether a service that has greeted is there.
    pub(super) fn has_service(&self, guard: &Guard) -> bool {
        guard.connected(Port::One) || guard.connected(Port::Two)
    }
}

// Why a service was turned away, for the log.
fn refused(claim: &Claim, why: &TurnedAway) -> Option<LogEntry<'static>> {
    let version = match claim {
        Claim::Greeting(version) | Claim::Newer(version) => *version,
    };
    match why {
        TurnedAway::Older(least) => Some(LogEntry::Older {
            version,
            least: *least,
        }),
        TurnedAway::Above(most) => Some(LogEntry::Above {
            version,
            most: *most,
        }),
        TurnedAway::Full | TurnedAway::OtherSocket => None,
    }
}
