ghost use Rattle.std.specs.Prelude.{◌≡◌, ◌≤◌, ◌+◌, min, [], ℕ, is_some, length, false, None, IfSome, OnOk, OnErr};
ghost use Rattle.av_turns.specs.Client.{answered, came, new_of, over, room_of, told, written};
ghost use Rattle.av_turns.specs.Clients.{AreGranted, at, EachIsFit, NobodyIsForgotten, shared_in, Steps};
ghost use Rattle.av_turns.specs.Counts.{AreCounted};
ghost use Rattle.av_turns.specs.Line.{EachIsInLine};
ghost use Rattle.av_turns.specs.Questions.{Asks, Ends, question_at};
ghost use Rattle.av_turns.specs.Places.{came_of, greeted_of, left_of, lost_of, place_at, with_misses};
ghost use Rattle.av_turns.specs.Turns.{Accepts, Closes, IsApart, Nexts, nobody_yet, Tells};

mod asking;
mod lateness;
mod parsing;

use crate::budget::Budget;
use crate::client::{Client, Kind, Left};
use crate::clients::{Clients, Granted, Look};
use crate::limits::{KNOWNS, LEAST_TURN, PIECE, ROUND, ROUND_KNOWNS};
use crate::line::WaitingLine;
use crate::places::{Arrived, Nth, Places};
use crate::questions::Questions;
use std::alloc::{AllocError, Global};
use std::collections::VecDeque;
use std::marker::Model;

/// Who may be read next and how much, which asks wait, whose time is up, and which places are taken. Times are in milliseconds,
/// and later calls have later times.
#[derive(Drop)]
pub struct Turns {
    alloc: Global,
    most_clients: u64,
    wait: u64,
    clients: Clients,
    smalls: WaitingLine,
    larges: WaitingLine,
    // How many small asks left the line behind the last large one.
    passed: u64,
    // Clients that came with one ask while they had none in line. Some of them may have none any more.
    ahead: VecDeque<u64>,
    // One of them may go ahead: the last ask that left the line did so in its turn.
    may_jump: bool,
    questions: Questions,
    places: Places,
    budget: Budget,
}

/// What came of a client at the door.
#[derive(Clone, Copy, Debug, PartialEq, Eq)]
pub enum Admitted {
    /// It is let in.
    Admit,
    /// It is let in in place of this one, which is to be closed, and is forgotten already.
    Instead(u64),
    /// It is to be closed.
    Away,
}

/// Whose turn it is.
#[derive(Clone, Copy, Debug, PartialEq, Eq)]
pub enum Next {
    /// This client's.
    Turn {
        /// The client.
        client: u64,
        /// The most bytes to be read now. 0: nothing is to be read, since a whole thing is in what was read.
        bytes: u64,
        /// The most known asks and commands.
        asks: u64,
    },
    /// Ask again: the client in front may not be read, and left the ring.
    Later,
    /// Nobody may be read.
    Nobody,
}

/// A thing that was parsed of a client's input.
#[derive(Drop)]
pub enum Thing {
    /// A command, whose answer put so many bytes into the client's output.
    Said(u64),
    /// An ask whose content is known: it is answered at once.
    Known,
    /// Another ask. It stands in line.
    New {
        /// The client's word for it.
        tag: u64,
        /// What is to be judged.
        content: Vec<u8>,
    },
}

/// Whether the turn goes on.
#[derive(Clone, Copy, Debug, PartialEq, Eq)]
pub enum Parsed {
    /// Another thing may be parsed.
    GoesOn,
    /// The turn is over.
    TurnEnds,
}

/// Why a client is to be closed.
#[derive(Clone, Copy, Debug, PartialEq, Eq)]
pub enum Why {
    /// It did not take its output.
    TookNothing,
    /// It did not end what it began.
    SaidNothing,
    /// A client of clamd's protocol sent no command.
    Idle,
}

/// Something whose time is up.
#[derive(Clone, Copy, Debug, PartialEq, Eq)]
pub enum Late {
    /// A question, which runs no more.
    Question(u64),
    /// The service of a place, which is to be lost.
    Service(Nth),
    /// One that waits at the services' door and did not greet, which is to be lost.
    Guest(Nth),
    /// An ask in line, which is there no more.
    Deny {
        /// Whose it is.
        client: u64,
        /// The client's word for it.
        tag: u64,
    },
    /// A client, which is to be closed, and is forgotten already.
    Close {
        /// The client.
        client: u64,
        /// What it did not do.
        why: Why,
    },
    /// Nothing.
    Nothing,
}

impl Model for Turns {
    ghost use Rattle.std.specs.Prelude.{◌≤◌, length};
    ghost use Rattle.av_turns.specs.Counts.{AreCounted};
    ghost use Rattle.av_turns.specs.Turns.{All};

    ghost Value = { All };

    ghost view = { λ t. record { clients = t.clients; smalls = t.smalls; larges = t.larges; passed = t.passed; may_jump = t.may_jump; most = t.most_clients; wait = t.wait; places = t.places; questions = t.questions; budget = t.budget } };

    ghost invariant = { λ t. (length t.clients.clients ≤ t.most_clients) × AreCounted t.clients.clients t.smalls.asks t.larges.asks };
}

impl Turns {
    /// Nobody is there. At most so many clients are let in, and each, each ask and each question has so many milliseconds.
    pub fn new(alloc: Global, most_clients: u64, wait: u64) -> Turns
        ensures { result ≡ nobody_yet most_clients wait }
    {
        Turns {
            alloc,
            most_clients,
            wait,
            clients: Clients::new(alloc, wait),
            smalls: WaitingLine::new(alloc),
            larges: WaitingLine::new(alloc),
            passed: 0,
            ahead: VecDeque::new(alloc),
            may_jump: true,
            questions: Questions::new(alloc),
            places: Places::new(),
            budget: Budget::of(0),
        }
    }

    /// A client is at the door. Its number is greater than those before it.
    pub fn accepted(&mut self, client: u64, kind: Kind, now: u64) -> Result<Admitted, AllocError>
        ensures { Accepts self.old self.new client (new_of kind now) result }
    {
        if self.clients.get(client).is_some() {
            return Ok(Admitted::Away);
        }
        if self.clients.count() < self.most_clients {
            self.clients.admit(client, Client::new(kind, now))?;
            return Ok(Admitted::Admit);
        }
        let Some(victim) = self.clients.longest_idle() else {
            return Ok(Admitted::Away);
        };
        self.clients.admit(client, Client::new(kind, now))?;
        self.clients.lost(victim);
        self.smalls.forget(victim);
        self.larges.forget(victim);
        Ok(Admitted::Instead(victim))
    }

    /// A read of this client may bring something.
    pub fn told_readable(&mut self, client: u64) -> Result<(), AllocError>
        ensures ok { OnOk result (Tells self.old self.new client (told)) }
        ensures err { OnErr result (self.new ≡ self.old) }
    {
        let Some(counts) = self.clients.get(client) else {
            return Ok(());
        };
        self.clients.put(client, counts.told())
    }

    /// Whose turn it is.
    pub fn next(&mut self) -> Next
        ensures { Nexts self.old self.new result }
    {
        let client = match self.clients.next() {
            Look::Turn(client) => client,
            Look::Later => return Next::Later,
            Look::Nobody => return Next::Nobody,
        };
        let Some(counts) = self.clients.get(client) else {
            unreachable!()
        };
        let many = self.clients.ready().max(1);
        let asks = (ROUND_KNOWNS / many).clamp(1, KNOWNS);
        let bytes = (ROUND / many).clamp(LEAST_TURN, PIECE).min(counts.room());
        self.budget = Budget::of(asks);
        let bytes = if counts.inside { 0 } else { bytes };
        Next::Turn {
            client,
            bytes,
            asks,
        }
    }

    /// So many bytes were read of the client whose turn it is, and there may be more.
    pub fn read(&mut self, client: u64, count: u64, more: bool, now: u64) -> Result<(), AllocError>
        requires room { IfSome (at self.old.clients.clients client) (λ c. count ≤ room_of c) }
        ensures ok { OnOk result (Tells self.old self.new client (came count more now)) }
        ensures err { OnErr result (self.new ≡ self.old) }
    {
        let Some(counts) = self.clients.get(client) else {
            return Ok(());
        };
        self.clients.put(client, counts.came(count, more, now))
    }

    /// The turn of a client is over, and this is left of its input. Shares of the pool are given to those that wait for one.
    pub fn turn_over(&mut self, client: u64, left: Left, now: u64) -> Result<(), AllocError>
        ensures ok { OnOk result (Steps self.old.clients self.new.clients client (over left now) × IsApart self.old self.new) }
        ensures err { OnErr result (self.new ≡ self.old) }
    {
        let Some(counts) = self.clients.get(client) else {
            return Ok(());
        };
        self.clients.put(client, counts.over(left, now))?;
        self.grant();
        Ok(())
    }

    // Shares are given to those that wait for one, as long as the pool has them.
    fn grant(&mut self)
        ensures given { AreGranted self.old.clients self.new.clients }
        ensures apart { IsApart self.old self.new }
        ensures there { (q : ℕ) → is_some (at self.new.clients.clients q) ≡ is_some (at self.old.clients.clients q) }
    {
        while self.clients.grant() == Granted::Given {}
    }

    /// A question was asked, about an ask whose first byte came then, of so many bytes.
    pub fn asked(&mut self, seq: u64, first: u64, bytes: u64) -> Result<(), AllocError>
        ensures ok { OnOk result (question_at self.old.questions.running seq ≡ None → Asks self.old.questions self.new.questions seq (min (first + self.old.wait) 18446744073709551615) bytes) }
        ensures rest { self.new ≡ record self.old { questions = self.new.questions } }
        ensures err { OnErr result (self.new ≡ self.old) }
    {
        self.questions
            .asked(seq, first.saturating_add(self.wait), bytes)
    }

    /// The service of a place replied to a question.
    pub fn replied(&mut self, place: Nth, seq: u64)
        ensures ends { Ends self.old.questions self.new.questions seq }
        ensures rest { self.new ≡ record self.old { places = with_misses place 0 self.old.places; questions = self.new.questions } }
    {
        self.places.replied(place);
        self.questions.over(seq);
    }

    /// A question that the service of a place was asked had no reply in its time.
    pub fn missed(&mut self, place: Nth)
        ensures { self.new ≡ record self.old { places = with_misses place (min ((place_at place self.old.places).misses + 1) 18446744073709551615) self.old.places } }
    {
        self.places.missed(place)
    }

    /// A question runs no more.
    pub fn question_over(&mut self, seq: u64)
        ensures ends { Ends self.old.questions self.new.questions seq }
        ensures rest { self.new ≡ record self.old { questions = self.new.questions } }
    {
        self.questions.over(seq);
    }

    /// An answer that a client waits for came, and put so many bytes into its output.
    pub fn answered(&mut self, client: u64, bytes: u64, now: u64) -> Result<(), AllocError>
        ensures ok { OnOk result (Tells self.old self.new client (answered bytes now)) }
        ensures err { OnErr result (self.new ≡ self.old) }
    {
        let Some(counts) = self.clients.get(client) else {
            return Ok(());
        };
        self.clients.put(client, counts.answered(bytes, now))
    }

    /// A client took so many bytes of its output.
    pub fn written(&mut self, client: u64, count: u64, now: u64) -> Result<(), AllocError>
        ensures ok { OnOk result (Tells self.old self.new client (written count now)) }
        ensures err { OnErr result (self.new ≡ self.old) }
    {
        let Some(counts) = self.clients.get(client) else {
            return Ok(());
        };
        self.clients.put(client, counts.written(count, now))
    }

    /// A client is gone.
    pub fn closed(&mut self, client: u64)
        ensures closes { Closes self.old self.new client }
        ensures gone { at self.new.clients.clients client ≡ None }
    {
        self.clients.lost(client);
        self.smalls.forget(client);
        self.larges.forget(client);
        self.grant();
    }

    /// A client that may be read is in the ring, and one that has an ask in line is in the order of those.
    pub fn nobody_is_forgotten(&self)
        ensures read { NobodyIsForgotten self.now.clients }
        ensures small { EachIsInLine self.now.smalls }
        ensures large { EachIsInLine self.now.larges }
    {
        self.clients.nobody_is_forgotten();
        self.smalls.nobody_is_forgotten();
        self.larges.nobody_is_forgotten();
    }

    /// What is counted of each client's asks in line are those asks: when the first byte of the next one came, and how many there are.
    /// So a deadline that `late` and `timer` count is that of an ask in line.
    pub fn asks_are_counted(&self)
        ensures { AreCounted self.now.clients.clients self.now.smalls.asks self.now.larges.asks }
    {
        let _most = self.most_clients;
    }

    /// At most so many clients are there as may be.
    pub fn places_are_kept(&self)
        ensures { length self.now.clients.clients ≤ self.now.most }
    {
        let _most = self.most_clients;
    }

    /// Each client has its floor and its share, and the shares have the pool.
    pub fn memory_is_bounded(&self)
        ensures each { EachIsFit self.now.clients }
        ensures pool { shared_in self.now.clients.clients ≤ 67108864 }
    {
        self.clients.memory_is_bounded()
    }

    /// How many bytes may be read of a client now.
    pub fn room(&self, client: u64) -> u64
        ensures { IfSome (at self.now.clients.clients client) (λ c. result ≡ room_of c) }
    {
        match self.clients.get(client) {
            Some(counts) => counts.room(),
            None => 0,
        }
    }

    /// How many clients are in the ring of those to be read. Some of them may not be read any more.
    pub fn ready(&self) -> u64
        ensures { result ≡ length self.now.clients.ring }
    {
        self.clients.ready()
    }

    /// One is at the services' door: the guest that it is, unless two wait there already.
    pub fn service_came(&mut self, now: u64) -> Option<Nth>
        ensures guest { result ≡ (came_of now self.old.places).0 }
        ensures state { self.new ≡ record self.old { places = (came_of now self.old.places).1 } }
    {
        self.places.came(now)
    }

    /// A guest greets at a place: what becomes of it.
    pub fn service_greeted(&mut self, guest: Nth, place: Nth) -> Arrived
        ensures arrived { result ≡ (greeted_of guest place self.old.places).0 }
        ensures state { self.new ≡ record self.old { places = (greeted_of guest place self.old.places).1 } }
    {
        self.places.greeted(guest, place)
    }

    /// The service of a place is lost: the guest that has the place from now on, where one stood by.
    pub fn service_lost(&mut self, place: Nth) -> Option<Nth>
        ensures promoted { result ≡ (lost_of place self.old.places).0 }
        ensures state { self.new ≡ record self.old { places = (lost_of place self.old.places).1 } }
    {
        self.places.lost(place)
    }

    /// A guest is gone.
    pub fn guest_lost(&mut self, guest: Nth)
        ensures { self.new ≡ record self.old { places = left_of guest self.old.places } }
    {
        self.places.guest_lost(guest)
    }
}
