//! What clients ask: each in its turn, and from the line.

ghost use Rattle.std.specs.Prelude.{◌≡◌, OnOk};
ghost use Rattle.av_daemon.specs.Telling.{IsAskedOrDenied, IsAskedOrStands, IsTaken};
ghost use Rattle.av_peers.specs.Clients.{IsSilent};

use super::relaying::Beginning;
use super::telling::Reply;
use super::watching::Watch;
use super::{ASKS, Daemon, FIRST, RELAYED, Stop, TURNS, millis};
use av_base::{ByteList, Cause, Refusal};
use av_clamd::Sending;
use av_guard::{AskFault, Class, Guard};
use av_log::AskNote;
use av_peers::client::{Lost, Thing};
use av_peers::told::{LargeTold, unjudged};
use av_turns as turns;
use av_turns::{Next, Parsed, Standing};
use std::alloc::AllocError;
use std::fs::Files;
use std::mem;
use std::net::Net;
use std::time::{Clock, Duration};

// What goes no further in a turn.
#[derive(Drop)]
pub(super) enum Broken {
    // The client, or the second connection of the service, which is closed.
    Client,
    // The guard, which ends.
    Guard(Stop),
}

impl From<Lost> for Broken {
    fn from(_lost: Lost) -> Broken {
        Broken::Client
    }
}

impl From<AllocError> for Broken {
    fn from(_error: AllocError) -> Broken {
        Broken::Client
    }
}

impl From<Stop> for Broken {
    fn from(stop: Stop) -> Broken {
        Broken::Guard(stop)
    }
}

impl<'a, R: Files + Net + Clock> Daemon<'a, R> {
    // Gives each client that may be read now a turn.
    pub(super) fn serve(&mut self, guard: &mut Guard, now: Duration) -> Result<(), Stop> {
        'turns: for _ in 0..self.turns.ready().min(TURNS) {
            match self.turns.next() {
                Next::Turn { client, bytes, .. } => self.serve_one(guard, client, bytes, now)?,
                Next::Later => {}
                Next::Nobody => break,
            }
        }
        Ok(())
    }

    // The turn of a client. The shared buffer is taken out meanwhile.
    fn serve_one(
        &mut self,
        guard: &mut Guard,
        client: u64,
        bytes: u64,
        now: Duration,
    ) -> Result<(), Stop> {
        let mut buffer = mem::replace(&mut self.buffer, Vec::new(self.alloc));
        let served = self.serve_with(guard, client, bytes, &mut buffer, now);
        self.buffer = buffer;
        match served {
            Ok(()) => self.settle_client(guard, client, now),
            Err(Broken::Client) => self.lose(guard, client),
            Err(Broken::Guard(stop)) => Err(stop),
        }
    }

    // Reads a piece, where nothing is left of before, and hears it.
    fn serve_with(
        &mut self,
        guard: &mut Guard,
        client: u64,
        bytes: u64,
        buffer: &mut Vec<u8>,
        now: Duration,
    ) -> Result<(), Broken> {
        if self.must_wait(client) {
            return self.end_turn(client, b"", now);
        }
        self.is_served(client);
        let Some(who) = self.clients.get_mut(&client.saturating_add(FIRST)) else {
            return Err(Broken::Client);
        };
        let kept = who.take_kept(self.alloc);
        if !kept.is_empty() {
            return self.serve_piece(guard, client, kept.as_slice(), now);
        }
        let count = self.read(client, bytes, buffer, now)?;
        let piece = buffer.get(..count).unwrap_or(b"".as_slice());
        self.serve_piece(guard, client, piece, now)
    }

    // Reads at most so many bytes of a client, for which there is room. What is to come of a part needs no room: it goes on as it comes.
    fn read(
        &mut self,
        client: u64,
        bytes: u64,
        buffer: &mut Vec<u8>,
        now: Duration,
    ) -> Result<usize, Broken> {
        let kept = self.turns.room(client);
        let Some(who) = self.clients.get_mut(&client.saturating_add(FIRST)) else {
            return Err(Broken::Client);
        };
        let most = match who.part_left() {
            0 => bytes.min(kept) as usize,
            left => left.min(RELAYED),
        };
        let room = buffer.len().min(most);
        if room == 0 || who.is_done() {
            return Ok(0);
        }
        let count = who.read(&mut buffer[..room])?;
        let more = who.line.may_read() && !who.is_done();
        let counted = kept.min(count as u64);
        self.turns.read(client, counted, more, millis(now))?;
        Ok(count)
    }

    // Hears a piece that came, and keeps what is left of it.
    fn serve_piece(
        &mut self,
        guard: &mut Guard,
        client: u64,
        piece: &[u8],
        now: Duration,
    ) -> Result<(), Broken> {
        self.tell_about(guard, client);
        let taken = self.hear(guard, client, piece, now)?;
        let rest = piece.get(taken..).unwrap_or(b"".as_slice());
        self.end_turn(client, rest, now)
    }

    // What is left of a client's piece is kept.
    fn end_turn(&mut self, client: u64, rest: &[u8], now: Duration) -> Result<(), Broken> {
        let Some(who) = self.clients.get_mut(&client.saturating_add(FIRST)) else {
            return Err(Broken::Client);
        };
        if !rest.is_empty() {
            who.keep(rest)?;
        }
        let left = self.left_of(client)?;
        self.turns.turn_over(client, left, millis(now))?;
        Ok(())
    }

    // Hears one thing after another, as long as the turn goes on, and says how many bytes of the piece that took.
    fn hear(
        &mut self,
        guard: &mut Guard,
        client: u64,
        piece: &[u8],
        now: Duration,
    ) -> Result<usize, Broken> {
        let sending = if self.large.takes_parts() {
            Sending::InParts
        } else {
            Sending::Whole
        };
        let mut taken = 0usize;
        'things: for _ in 0..u64::MAX {
            let Some(who) = self.clients.get_mut(&client.saturating_add(FIRST)) else {
                return Err(Broken::Client);
            };
            let rest = piece.get(taken..).unwrap_or(b"".as_slice());
            if rest.is_empty() || who.is_done() {
                break;
            }
            match who.hear(rest, sending) {
                Err(Lost) => {
                    who.end()?;
                    break;
                }
                Ok((count, said)) => {
                    taken = taken.saturating_add(count);
                    if let Some(thing) = said {
                        if !self.take(guard, client, thing, now)? {
                            return Ok(taken);
                        }
                    }
                }
            }
        }
        Ok(piece.len())
    }

    // Does what a client said, and says whether its turn goes on.
    fn take(
        &mut self,
        guard: &mut Guard,
        client: u64,
        thing: Thing<'_>,
        now: Duration,
    ) -> Result<bool, Broken>
        ensures { OnOk result (IsTaken client thing.entry guard.old guard.new self.old.clients.entries self.new.clients.entries) }
    {
        match thing {
            Thing::Begun { tag, label, first } => {
                let begun = Beginning { tag, label, first };
                self.begin_content(guard, client, begun, now)
            }
            Thing::Part(some) => {
                self.bring(guard, client, some, now)?;
                Ok(true)
            }
            Thing::Ended(ending) => {
                self.end_content(guard, client, ending, now)?;
                Ok(true)
            }
            Thing::Watches { tag, version } => {
                self.watch(guard, client, Watch { tag, version }, now)
            }
            Thing::Said(bytes) => self.count(client, turns::Thing::Said(bytes as u64), now),
            Thing::Asked {
                tag,
                label,
                content,
            } => {
                self.counts.asked();
                self.keep_note(client, tag, label, content.len() as u64);
                self.ask(guard, client, tag, content, now)
            }
        }
    }

    // Asks about a content that is known, or about which the service is asked already. Another one stands in line. Says whether the
    // client's turn goes on.
    fn ask(
        &mut self,
        guard: &mut Guard,
        client: u64,
        tag: u64,
        content: Vec<u8>,
        now: Duration,
    ) -> Result<bool, Broken>
        ensures { OnOk result (IsAskedOrStands client tag content.items guard.old guard.new self.old.clients.entries self.new.clients.entries) }
    {
        if guard.class(&content) == Class::New {
            return self.stand(client, tag, content, now);
        }
        match guard.ask(self.alloc, client, tag, content) {
            Ok(given) => {
                let goes_on = self.count(client, turns::Thing::Known, now);
                self.waits(client);
                self.settle(guard, given, millis(now))?;
                goes_on
            }
            Err(refused) => match refused.why {
                Refusal::Fault(AskFault::Busy) => self.stand(client, tag, refused.value, now),
                _ => Err(Broken::Client),
            },
        }
    }

    // What a client asks about is kept for the line of the answer, where there is a log.
    pub(super) fn keep_note(&mut self, client: u64, tag: u64, label: Option<ByteList>, bytes: u64)
        ensures { IsSilent self.old.clients.entries self.new.clients.entries }
    {
        if self.recorder.is_none() {
            return;
        }
        if let Some(who) = self.clients.get_mut(&client.saturating_add(FIRST)) {
            let _ = who.notes.put(AskNote { tag, bytes, label });
        }
    }

    // The turns count what a client said, and say whether its turn goes on.
    pub(super) fn count(
        &mut self,
        client: u64,
        thing: turns::Thing,
        now: Duration,
    ) -> Result<bool, Broken>
        ensures { self.new.clients ≡ self.old.clients }
    {
        match self.turns.parsed(client, thing, millis(now)) {
            Ok(Parsed::GoesOn) => Ok(true),
            Ok(Parsed::TurnEnds) => Ok(false),
            Err(_) => Err(Broken::Client),
        }
    }

    // An ask stands in line.
    fn stand(
        &mut self,
        client: u64,
        tag: u64,
        content: Vec<u8>,
        now: Duration,
    ) -> Result<bool, Broken>
        ensures { OnOk result (IsSilent self.old.clients.entries self.new.clients.entries) }
    {
        let goes_on = self.count(client, turns::Thing::New { tag, content }, now)?;
        self.waits(client);
        Ok(goes_on)
    }

    // A client waits for one answer more.
    pub(super) fn waits(&mut self, client: u64)
        ensures { IsSilent self.old.clients.entries self.new.clients.entries }
    {
        if let Some(who) = self.clients.get_mut(&client.saturating_add(FIRST)) {
            who.asked();
        }
    }

    // A client is closed where it is over, and else sent what it was told. What it began and will not end is dropped.
    fn settle_client(&mut self, guard: &mut Guard, client: u64, now: Duration) -> Result<(), Stop> {
        let connection = client.saturating_add(FIRST);
        let Some(who) = self.clients.get(&connection) else {
            return Ok(());
        };
        if who.is_done() && who.within.is_some() {
            self.break_off(client, now)?;
        }
        let Some(who) = self.clients.get(&connection) else {
            return Ok(());
        };
        let (is_over, waits) = (who.is_over(), who.line.waiting() > 0);
        if is_over {
            return self.lose(guard, client);
        }
        if waits {
            self.wants_to_send(connection)
        } else {
            Ok(())
        }
    }

    // Asks what stands in line, as long as the guard and the turns let it.
    pub(super) fn ask_line(&mut self, guard: &mut Guard, now: Duration) -> Result<(), Stop> {
        'asks: for _ in 0..ASKS {
            if !guard.may_ask() {
                return Ok(());
            }
            let Ok(Some(standing)) = self.turns.next_in_line() else {
                return Ok(());
            };
            self.ask_standing(guard, standing, now)?;
        }
        self.goes_on = true;
        Ok(())
    }

    fn ask_standing(
        &mut self,
        guard: &mut Guard,
        standing: Standing,
        now: Duration,
    ) -> Result<(), Stop>
        ensures { OnOk result (IsAskedOrDenied standing self.old.mode guard.old self.old.clients.entries self.new.clients.entries) }
    {
        let Standing {
            client,
            tag,
            first,
            content,
        } = standing;
        match guard.ask(self.alloc, client, tag, content) {
            Ok(given) => self.settle(guard, given, first),
            Err(refused) => match refused.why {
                Refusal::Fault(_) => {
                    let told = LargeTold::Answered(unjudged(self.mode, Cause::Busy));
                    self.tell(guard, Reply { client, tag, told }, now)
                }
                Refusal::NoMemory => self.lose(guard, client),
            },
        }
    }

    // Lets contents go that nobody waits for, where more is kept than is to be.
    pub(super) fn make_room(&mut self, guard: &mut Guard, now: Duration) -> Result<(), Stop> {
        'contents: for _ in 0..u64::MAX {
            match guard.make_room(self.alloc)? {
                Some(given) => self.settle(guard, given, millis(now))?,
                None => return Ok(()),
            }
        }
        Ok(())
    }
}
