//! What the guard says of itself.

use super::{Daemon, FIRST};
use crate::process::memory;
use av_base::Version;
use av_guard::Guard;
use av_health::{Report, report_bytes};
use av_peers::line::{Connection, LEAST};
use mio::net::UnixStream;
use std::fs::Files;
use std::net::Net;
use std::time::{Clock, Duration};

impl<'a, R: Files + Net + Clock> Daemon<'a, R> {
    // Tells one who came for it how the guard is now, and closes the connection. Nothing is waited for: what is not taken at once is lost.
    pub(super) fn tell_report(&mut self, guard: &Guard, stream: UnixStream, now: Duration) {
        let Ok(bytes) = report_bytes(self.alloc, &self.report(guard, now)) else {
            return;
        };
        let mut line = Connection::new(self.alloc, stream, LEAST);
        if line.waiting.extend_from_slice(bytes.as_slice()).is_ok() {
            let _ = line.send(now);
        }
    }

    fn report(&self, guard: &Guard, now: Duration) -> Report {
        Report {
            ready: if self.has_service(guard) { 1 } else { 0 },
            version: guard.floor().get(),
            services: self.services.len() as u64,
            clients: self.clients.len() as u64,
            unanswered: self.unanswered(),
            questions: guard.question_count() as u64,
            contents: guard.kept_count(),
            content_bytes: guard.kept_bytes(),
            counts: self.counts,
            uptime_seconds: now.saturating_sub(self.begun).as_secs(),
            service_seconds: match self.greeted {
                Some(greeted) => now.saturating_sub(greeted).as_secs(),
                None => 0,
            },
            memory_bytes: memory(self.rt),
            parts: if self.large.takes_parts() { 1 } else { 0 },
            open_contents: self.large.len() as u64,
            signatures: self.names.count_of(guard.floor()),
            version_time: self.adopted.seconds(),
        }
    }

    // Takes up the version that grants now, with the set that has its names.
    pub(super) fn adopt(&mut self, version: Version) {
        if self.adopted.is(version) {
            return;
        }
        let seconds = match self.rt.since_1970() {
            Ok(time) => time.as_secs(),
            Err(_) => 0,
        };
        self.adopted.take_up(version, seconds);
        self.names.follow(self.rt, self.alloc, version);
    }

    // Tells a client of clamd how the guard is now.
    pub(super) fn tell_about(&mut self, guard: &Guard, client: u64) {
        let is_ready = self.has_service(guard);
        let Some(who) = self.clients.get_mut(&client.saturating_add(FIRST)) else {
            return;
        };
        if who.is_of_clamd() {
            let waiting = guard.question_count() as u64;
            who.learn(self.adopted.about(is_ready, waiting));
        }
    }

    // How many asks of those who are connected have no answer.
    fn unanswered(&self) -> u64 {
        let mut count = 0u64;
        for client in self.clients.values() {
            count = count.saturating_add(client.owed() as u64);
        }
        count
    }
}
