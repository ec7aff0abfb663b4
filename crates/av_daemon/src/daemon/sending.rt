//! What goes out, and who is waited for too long.

ghost use Rattle.std.specs.Prelude.{◌≡◌, OnOk};
ghost use Rattle.av_daemon.specs.Late.{is_late};
ghost use Rattle.av_daemon.specs.Passing.{HappensOnce, IsLosing};
ghost use Rattle.av_filter.specs.Conduct.{TimesOut};

use super::telling::Reply;
use super::{
    Daemon, FIRST, PORTS, RELAYING, SERVING, SPARE, Stop, connection_of, millis, place_of, port_of,
};
use av_base::{Cause, Port};
use av_guard::Guard;
use av_log::LogEntry;
use av_peers::told::{LargeTold, unjudged};
use av_turns::{Late, Why};
use std::fs::Files;
use std::net::Net;
use std::time::{Clock, Duration};

impl<'a, R: Files + Net + Clock> Daemon<'a, R> {
    // Sends what waits, as far as it is taken.
    pub(super) fn send(&mut self, guard: &mut Guard, now: Duration) -> Result<(), Stop> {
        'sending: for _ in 0..u64::MAX {
            let Some(number) = self.sending.pop_front() else {
                break;
            };
            match number {
                SERVING => self.send_to_service(guard, Port::One, now)?,
                SPARE => self.send_to_service(guard, Port::Two, now)?,
                RELAYING => self.send_to_parts(guard, now)?,
                _ => self.send_to(guard, number, now)?,
            }
        }
        self.call_parked(now)?;
        self.goes_on = self.goes_on || !self.parked.is_empty() && self.has_room();
        Ok(())
    }

    fn send_to(&mut self, guard: &mut Guard, number: u64, now: Duration) -> Result<(), Stop> {
        let Some(client) = self.clients.get_mut(&number) else {
            return Ok(());
        };
        client.is_sending = false;
        let before = client.line.waiting();
        let stands = client.line.send(now);
        let count = before.saturating_sub(client.line.waiting());
        let is_over = client.is_over();
        let who = number.saturating_sub(FIRST);
        if !stands || is_over {
            return self.lose(guard, who);
        }
        self.turns.written(who, count as u64, millis(now))?;
        Ok(())
    }

    fn send_to_service(
        &mut self,
        guard: &mut Guard,
        port: Port,
        now: Duration,
    ) -> Result<(), Stop> {
        let Some(service) = self.services.get_mut(&connection_of(port)) else {
            return Ok(());
        };
        service.is_sending = false;
        let stands = service.line.send(now);
        let goes_on = service.goes_on();
        if !stands {
            return self.lose_service(guard, port, now);
        }
        self.goes_on = self.goes_on || goes_on;
        Ok(())
    }

    // Ends what the turns say is late, and services that are waited for too long.
    pub(super) fn end_late(&mut self, guard: &mut Guard, now: Duration) -> Result<(), Stop> {
        'late: for _ in 0..u64::MAX {
            match self.turns.late(millis(now)) {
                Late::Nothing => break,
                Late::Question(seq) => self.end_question(guard, seq, now)?,
                Late::Service(place) => self.end_service(guard, port_of(place), now)?,
                Late::Guest(guest) => {
                    self.happened(&LogEntry::Silent);
                    self.lose_guest(guest);
                }
                Late::Deny { client, tag } => {
                    let answer = unjudged(self.mode, Cause::TimedOut);
                    let told = LargeTold::Answered(answer);
                    self.tell(guard, Reply { client, tag, told }, now)?;
                }
                Late::Close { client, why } => self.close(guard, client, why, now)?,
            }
        }
        self.end_late_contents(guard, now)?;
        'ports: for port in PORTS {
            self.end_late_service(guard, port, now)?;
        }
        Ok(())
    }

    // The time of a question is up, which counts as a miss of the service that was asked.
    fn end_question(&mut self, guard: &mut Guard, seq: u64, now: Duration) -> Result<(), Stop>
        ensures { OnOk result (HappensOnce (TimesOut seq) guard.old guard.new) }
    {
        'ports: for port in PORTS {
            if self.was_asked(port, seq) {
                self.turns.missed(place_of(port));
            }
        }
        let given = guard.time_up(self.alloc, seq)?;
        self.settle(guard, given, millis(now))
    }

    // A service that takes nothing, or ends no frame, is lost; and so is one that answers none of its questions for half of the wait,
    // where the other can be asked: so they have time left there.
    fn end_late_service(&mut self, guard: &mut Guard, port: Port, now: Duration) -> Result<(), Stop>
        ensures { OnOk result (IsLosing port guard.old guard.new) }
    {
        let (since, quiet) = match self.services.get(&connection_of(port)) {
            Some(service) => (service.since(), service.asked.since()),
            None => (None, None),
        };
        if is_late(since, now, self.wait) {
            return self.lose_service(guard, port, now);
        }
        if guard.connected(port.other()) && is_late(quiet, now, self.patience) {
            self.happened(&LogEntry::Quiet(port));
            return self.lose_service(guard, port, now);
        }
        Ok(())
    }

    // A service answered none of many questions in a row.
    fn end_service(&mut self, guard: &mut Guard, port: Port, now: Duration) -> Result<(), Stop>
        ensures { OnOk result (IsLosing port guard.old guard.new) }
    {
        self.happened(&LogEntry::Stuck(port));
        self.lose_service(guard, port, now)
    }

    // A client is closed, of which the turns know already. A client of clamd that said nothing is told so.
    pub(super) fn close(
        &mut self,
        guard: &mut Guard,
        client: u64,
        why: Why,
        now: Duration,
    ) -> Result<(), Stop> {
        if let Some(who) = self.clients.get_mut(&client.saturating_add(FIRST)) {
            let is_silent = matches!(why, Why::SaidNothing | Why::Idle);
            if is_silent && who.time_out().is_ok() {
                let _ = who.line.send(now);
            }
        }
        self.remove(guard, client)
    }
}

// Whether who is waited for since then is waited for too long.
pub(super) fn is_late(since: Option<Duration>, now: Duration, wait: Duration) -> bool
    ensures { result ≡ is_late since now wait }
{
    match since {
        Some(since) => now.saturating_sub(since).as_nanos() >= wait.as_nanos(),
        None => false,
    }
}
