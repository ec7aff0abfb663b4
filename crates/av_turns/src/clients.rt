ghost use Rattle.std.specs.Prelude.{◌≡◌, ◌≤◌, ◌<◌, ◌+◌, ◌||◌, ℕ, true, false, None, [], length, is_some, OnOk, OnErr, IfSome, IfNone, IsSome, IsSomeAnd, nat_eq, if◌then◌else◌};
ghost use Rattle.std.specs.VecDeque.{deque_len, deque_capacity};
ghost use Rattle.std.specs.Ordering.{nat_cmp};
ghost use Rattle.std.specs.BTreeMap.{is_at, insert_entry};
ghost use Rattle.std.specs.Map.{remove_entry, set_value};
ghost use Rattle.std.specs.Set.{remove_key};
ghost use Rattle.av_turns.specs.Client.{IsFit, settled};
ghost use Rattle.av_turns.specs.Clients.{Admits, at, EachIsFit, entered, GrantsOne, is_due, is_once, IsGone, IsNoneBefore, IsNoneDue, IsServed, longer, longest_idle, shared_in, Looks, NobodyIsForgotten, NobodyMayTurn, Puts, waiting};

use crate::client::Client;
use crate::limits::POOL;
use crate::times::Times;
use std::alloc::{AllocError, Global};
use std::collections::{BTreeMap, VecDeque};
use std::marker::Model;

/// The clients: what is counted of each, who is read next, who waits for a share of the pool, and whose time is up next.
#[derive(Drop)]
pub struct Clients {
    wait: u64,
    clients: BTreeMap<u64, Client>,
    ring: VecDeque<u64>,
    wants: VecDeque<u64>,
    shared: u64,
    due: Times,
}

/// What a look at the front of the ring came to.
#[derive(Clone, Copy, Debug, PartialEq, Eq)]
pub enum Look {
    /// It is this client's turn.
    Turn(u64),
    /// The client in front may not be read, and left the ring.
    Later,
    /// Nobody may be read.
    Nobody,
}

/// What a look at the front of those that wait for a share came to.
#[derive(Clone, Copy, Debug, PartialEq, Eq)]
pub enum Granted {
    /// It has its share.
    Given,
    /// Nobody waits, or the pool has too little for the first.
    Waits,
    /// Memory is refused.
    NoMemory,
}

impl Model for Clients {
    ghost use Rattle.av_turns.specs.Clients.{IsSound, State};

    ghost Value = { State };

    ghost view = { λ c. record { clients = c.clients.entries; ring = c.ring.items; wants = c.wants.items; shared = c.shared; wait = c.wait } };

    ghost invariant = { λ c. IsSound (record { clients = c.clients.entries; ring = c.ring.items; wants = c.wants.items; shared = c.shared; wait = c.wait }) c.due };
}

impl Clients {
    /// Nobody yet. Each client has so many milliseconds.
    pub fn new(alloc: Global, wait: u64) -> Clients
        ensures { result ≡ record { clients = []; ring = []; wants = []; shared = 0; wait = wait } }
    {
        Clients {
            wait,
            clients: BTreeMap::new(alloc),
            ring: VecDeque::new(alloc),
            wants: VecDeque::new(alloc),
            shared: 0,
            due: Times::new(alloc),
        }
    }

    /// What is counted of a client.
    pub fn get(&self, number: u64) -> Option<Client>
        ensures value { result ≡ at self.now.clients number }
        ensures fit { IfSome result (λ c. IsFit c) }
    {
        self.clients.get(&number).copied()
    }

    /// How many there are.
    pub fn count(&self) -> u64
        ensures { result ≡ length self.now.clients }
    {
        self.clients.len() as u64
    }

    /// How many are in the ring.
    pub fn ready(&self) -> u64
        ensures { result ≡ length self.now.ring }
    {
        self.ring.len() as u64
    }

    /// A client is let in. Its number is another than those that are there.
    pub fn admit(&mut self, number: u64, client: Client) -> Result<(), AllocError>
        requires fresh { at self.old.clients number ≡ None }
        requires fit { IsFit client }
        requires bare { (client.is_ready ≡ false) × (client.share ≡ 0) × (client.want ≡ 0) }
        ensures ok { OnOk result (Admits self.old self.new number client) }
        ensures err { OnErr result (self.new ≡ self.old) }
        ensures count { OnOk result (length self.new.clients ≡ length self.old.clients + 1) }
        ensures others { (q : ℕ) → is_some (at self.old.clients q) ≡ true → is_some (at self.new.clients q) ≡ true }
    {
        self.ring.reserve(1)?;
        self.due.change(number, None, client.due(self.wait))?;
        let may_turn = client.may_turn();
        let marked = Client {
            is_ready: may_turn,
            ..client
        };
        match self.clients.insert(number, marked) {
            Ok(_) => {}
            Err(_) => {
                self.due.forget(number, client.due(self.wait));
                return Err(AllocError);
            }
        }
        let _ = enter(&mut self.ring, number, false, may_turn);
        Ok(())
    }

    /// This is counted of a client now.
    pub fn put(&mut self, number: u64, client: Client) -> Result<(), AllocError>
        requires same { IsSomeAnd (at self.old.clients number) (λ c. (client.is_ready ≡ c.is_ready) × (client.share ≡ c.share)) }
        requires fit { IsFit client }
        ensures ok { OnOk result (IfSome (at self.old.clients number) (λ was. Puts self.old self.new number was (settled client))) }
        ensures err { OnErr result (self.new ≡ self.old) }
        ensures count { length self.new.clients ≡ length self.old.clients }
    {
        let Some(old) = self.clients.get(&number).copied() else {
            return Ok(());
        };
        let client = client.settled();
        self.ring.reserve(1)?;
        self.wants.reserve(1)?;
        self.due
            .change(number, old.due(self.wait), client.due(self.wait))?;
        wait_for(&mut self.wants, number, old.want, client.want);
        let is_ready = enter(&mut self.ring, number, client.is_ready, client.may_turn());
        self.shared = self.shared.saturating_sub(old.share - client.share);
        let marked = Client { is_ready, ..client };
        set(&mut self.clients, number, marked);
        Ok(())
    }

    /// A look at the ring's front.
    pub fn next(&mut self) -> Look
        ensures exact { Looks self.old self.new result }
        ensures nobody { result ≡ Look.Nobody → NobodyMayTurn self.old }
        ensures count { length self.new.clients ≡ length self.old.clients }
    {
        let Some(number) = self.ring.front().copied() else {
            return Look::Nobody;
        };
        let Some(client) = self.clients.get(&number).copied() else {
            unreachable!()
        };
        if client.may_turn() {
            self.ring.rotate_left(1);
            return Look::Turn(number);
        }
        let left = Client {
            is_ready: false,
            ..client
        };
        set(&mut self.clients, number, left);
        let _ = self.ring.pop_front();
        Look::Later
    }

    /// A share is given to whoever waits for one first, where the pool has so much.
    pub fn grant(&mut self) -> Granted
        ensures given { result ≡ Granted.Given → GrantsOne self.old self.new }
        ensures less { result ≡ Granted.Given → length self.new.wants < length self.old.wants }
        ensures waits { result ≡ Granted.Waits → (self.new ≡ self.old) × IsServed self.new }
        ensures err { result ≡ Granted.NoMemory → self.new ≡ self.old }
        ensures there { (q : ℕ) → is_some (at self.new.clients q) ≡ is_some (at self.old.clients q) }
        ensures count { length self.new.clients ≡ length self.old.clients }
    {
        let Some(number) = self.wants.front().copied() else {
            return Granted::Waits;
        };
        let Some(client) = self.clients.get(&number).copied() else {
            unreachable!()
        };
        if client.want > POOL - self.shared {
            return Granted::Waits;
        }
        if self.ring.reserve(1).is_err() {
            return Granted::NoMemory;
        }
        let granted = client.granted();
        let is_ready = enter(&mut self.ring, number, granted.is_ready, granted.may_turn());
        let marked = Client {
            is_ready,
            ..granted
        };
        set(&mut self.clients, number, marked);
        self.shared += client.want;
        let _ = self.wants.pop_front();
        Granted::Given
    }

    /// A client is gone.
    pub fn lost(&mut self, number: u64)
        ensures some { IfSome (at self.old.clients number) (λ _. IsGone self.old self.new number) }
        ensures none { IfNone (at self.old.clients number) (self.new ≡ self.old) }
        ensures others { (q : ℕ) → at self.new.clients q ≡ (if nat_eq q number then None else at self.old.clients q) }
        ensures gone { at self.new.clients number ≡ None }
        ensures count { is_some (at self.old.clients number) ≡ true → length self.new.clients + 1 ≡ length self.old.clients }
        ensures less { length self.new.clients ≤ length self.old.clients }
    {
        let Some(client) = self.clients.get(&number).copied() else {
            return;
        };
        let _ = self.clients.remove(&number);
        self.due.forget(number, client.due(self.wait));
        self.shared = self.shared.saturating_sub(client.share);
        take_out(&mut self.ring, number);
        take_out(&mut self.wants, number);
    }

    /// When the first client's time is up, and whose it is.
    pub fn first_due(&self) -> Option<(u64, u64)>
        ensures some { IfSome result (λ first. IsNoneBefore self.now first.0) }
        ensures none { result ≡ None → IsNoneDue self.now }
        ensures whose { IfSome result (λ first. is_due self.now.wait (at self.now.clients first.1) first.0 ≡ true) }
    {
        let _wait = self.wait;
        self.due.first()
    }

    /// Who is idle longest. The cost is the count of clients.
    pub fn longest_idle(&self) -> Option<u64>
        ensures is { result ≡ longest_idle self.now.clients }
        ensures there { IfSome result (λ who. is_some (at self.now.clients who) ≡ true) }
    {
        let mut longest: Option<(u64, u64)> = None;
        for (number, client) in &self.clients {
            longest = longer(longest, *number, client.idle);
        }
        match longest {
            Some((_, number)) => Some(number),
            None => None,
        }
    }

    /// The clients' memory is bounded: each has its floor and its share, and the shares have the pool.
    pub fn memory_is_bounded(&self)
        ensures each { EachIsFit self.now }
        ensures pool { shared_in self.now.clients ≤ 67108864 }
    {
        let _shared = self.shared;
    }

    /// A client that may be read is in the ring.
    pub fn nobody_is_forgotten(&self)
        ensures { NobodyIsForgotten self.now }
    {
        let _count = self.clients.len();
    }
}

// Whoever is idle longer.
fn longer(longest: Option<(u64, u64)>, number: u64, idle: Option<u64>) -> Option<(u64, u64)>
    ensures { result ≡ longer longest number idle }
{
    let Some(since) = idle else {
        return longest;
    };
    match longest {
        Some((first, who)) => {
            if since < first {
                Some((since, number))
            } else {
                Some((first, who))
            }
        }
        None => Some((since, number)),
    }
}

// This is counted of a client now.
fn set(clients: &mut BTreeMap<u64, Client>, number: u64, client: Client)
    requires { IsSome (at clients.old.entries number) }
    ensures is { clients.new.entries ≡ set_value (is_at (nat_cmp number)) clients.old.entries client }
    ensures there { (q : ℕ) → is_some (at clients.new.entries q) ≡ is_some (at clients.old.entries q) }
    ensures count { length clients.new.entries ≡ length clients.old.entries }
{
    if let Some(slot) = clients.get_mut(&number) {
        *slot = client;
    }
}

// A client that is not in the ring and may be read is behind the others: whether it is there.
fn enter(ring: &mut VecDeque<u64>, number: u64, was: bool, may: bool) -> bool
    requires { deque_len ring.old < deque_capacity ring.old }
    ensures ring { ring.new.items ≡ entered was may number ring.old.items }
    ensures is { result ≡ (was || may) }
{
    if was || !may {
        return was;
    }
    ring.push_back(number).unwrap();
    true
}

// A client that wants a share now is behind the others, and one that wants none is not there.
fn wait_for(wants: &mut VecDeque<u64>, number: u64, was: u64, is: u64)
    requires { deque_len wants.old < deque_capacity wants.old }
    ensures { wants.new.items ≡ waiting was is number wants.old.items }
{
    if is == 0 {
        if was > 0 {
            take_out(wants, number);
        }
        return;
    }
    if was == 0 {
        wants.push_back(number).unwrap();
    }
}

// The queue without a number.
pub(crate) fn take_out(queue: &mut VecDeque<u64>, number: u64)
    ensures { queue.new.items ≡ remove_key (nat_eq number) queue.old.items }
{
    let mut at = 0;
    while at < queue.len() {
        if queue[at] == number {
            let _ = queue.remove(at);
            return;
        }
        at += 1;
    }
}
