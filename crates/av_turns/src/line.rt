ghost use Rattle.std.specs.Prelude.{◌≡◌, ℕ, ◌||◌, true, false, None, Some, [], ◌∷◌, ◌++◌, nat_eq, is_some, length, OnOk, OnErr, IfErr, IfSome, IfNone, slice_get};
ghost use Rattle.std.specs.Option.{option_map};
ghost use Rattle.av_turns.specs.Line.{asked_of, Drops, EachIsInLine, Forgets, IsBare, IsFirst, IsNobodyInLine, Looks, Pulls, queue_at, queue_of, Same, SameAsks, Sets, Stands, Takes};

use crate::clients::take_out;
use crate::queue::{Queue, QueuedAsk};
use std::alloc::Global;
use std::collections::{BTreeMap, VecDeque};
use std::marker::Model;

/// The asks that wait, client by client: of the client in front one is taken, and it is behind the others. A client whose last
/// ask was taken leaves once it is in front again.
#[derive(Drop)]
pub struct WaitingLine {
    asks: BTreeMap<u64, Queue>,
    order: VecDeque<u64>,
}

/// An ask that left the line.
#[derive(Drop)]
pub struct Standing {
    /// Whose it is.
    pub client: u64,
    /// The client's word for it.
    pub tag: u64,
    /// When its first byte came.
    pub first: u64,
    /// What is to be judged.
    pub content: Vec<u8>,
}

/// What a look at the order came to.
#[derive(Clone, Copy, Debug, PartialEq, Eq)]
pub enum Found {
    /// This ask is taken next.
    Front(First),
    /// The client in front has no ask, and left the order.
    Later,
    /// No ask is in line.
    Nobody,
}

/// The ask that is taken next.
#[derive(Clone, Copy, Debug, PartialEq, Eq)]
pub struct First {
    /// Whose it is.
    pub client: u64,
    /// How long its content is.
    pub length: u64,
    /// When the first byte of the client's ask behind it came.
    pub next: Option<u64>,
}

impl Model for WaitingLine {
    ghost use Rattle.av_turns.specs.Line.{Lined, IsOrdered};

    ghost Value = { Lined };

    ghost view = { λ l. record { asks = l.asks.entries; order = l.order.items } };

    ghost invariant = { λ l. IsOrdered l.asks.entries l.order.items };
}

impl WaitingLine {
    /// Nobody waits.
    pub fn new(alloc: Global) -> WaitingLine
        ensures { result ≡ record { asks = []; order = [] } }
    {
        WaitingLine {
            asks: BTreeMap::new(alloc),
            order: VecDeque::new(alloc),
        }
    }

    /// An ask is in line. It is passed back where memory is refused.
    pub fn stand(&mut self, alloc: Global, client: u64, ask: QueuedAsk) -> Result<(), QueuedAsk>
        ensures ok { OnOk result (Stands self.old self.new client (asked_of ask)) }
        ensures err { IfErr result (λ a. (asked_of a ≡ asked_of ask) × Same self.old self.new) }
    {
        if self.asks.contains_key(&client) {
            return push_to(&mut self.asks, client, ask);
        }
        if self.order.reserve(1).is_err() {
            return Err(ask);
        }
        begin(&mut self.asks, alloc, client, ask)?;
        self.order.push_back(client).unwrap();
        Ok(())
    }

    /// A look at the order.
    pub fn look(&mut self) -> Found
        ensures exact { Looks self.old self.new result }
        ensures nobody { result ≡ Found.Nobody → IsNobodyInLine self.old }
    {
        let Some(client) = self.order.front().copied() else {
            return Found::Nobody;
        };
        let Some(length) = length_of(&self.asks, client) else {
            drop_from(&mut self.asks, client);
            let _ = self.order.pop_front();
            return Found::Later;
        };
        let next = second_of(&self.asks, client);
        Found::Front(First {
            client,
            length,
            next,
        })
    }

    /// The first ask of the client in front is taken.
    pub fn take(&mut self) -> Option<Standing>
        ensures some { IfSome result (λ s. Takes self.old self.new s.client (record { tag = s.tag; first = s.first; content = s.content.items })) }
        ensures none { IfNone result (Same self.old self.new × IsBare self.old) }
    {
        let client = self.order.front().copied()?;
        let Some(ask) = pop_from(&mut self.asks, client) else {
            return None;
        };
        self.order.rotate_left(1);
        let QueuedAsk {
            tag,
            first,
            content,
        } = ask;
        Some(Standing {
            client,
            tag,
            first,
            content,
        })
    }

    /// How long the first ask of a client is, and when the first byte of the one behind it came.
    pub fn first_of(&self, client: u64) -> Option<First>
        ensures some { IfSome result (λ f. (f.client ≡ client) × IsFirst self.now.asks f) }
        ensures none { IfNone result (queue_of self.now.asks client ≡ []) }
    {
        let length = length_of(&self.asks, client)?;
        let next = second_of(&self.asks, client);
        Some(First {
            client,
            length,
            next,
        })
    }

    /// The first ask of a client leaves the line out of its turn.
    pub fn pull(&mut self, client: u64) -> Option<Standing>
        ensures some { IfSome result (λ s. (s.client ≡ client) × Pulls self.old self.new client (record { tag = s.tag; first = s.first; content = s.content.items })) }
        ensures none { IfNone result (Same self.old self.new × (queue_of self.old.asks client ≡ [])) }
    {
        let QueuedAsk {
            tag,
            first,
            content,
        } = pop_from(&mut self.asks, client)?;
        Some(Standing {
            client,
            tag,
            first,
            content,
        })
    }

    /// The last ask of a client, which was put in line just now, is passed back.
    pub fn take_back(&mut self, client: u64) -> Option<QueuedAsk>
        ensures some { IfSome result (λ a. queue_of self.old.asks client ≡ queue_of self.new.asks client ++ asked_of a ∷ []) }
        ensures none { IfNone result (queue_of self.old.asks client ≡ []) }
        ensures others { (q : ℕ) → nat_eq q client ≡ false → queue_of self.new.asks q ≡ queue_of self.old.asks q }
    {
        pop_last_from(&mut self.asks, client)
    }

    /// A client is gone, with its asks.
    pub fn forget(&mut self, client: u64)
        ensures { Forgets self.old self.new client }
    {
        drop_from(&mut self.asks, client);
        take_out(&mut self.order, client);
    }

    /// Whoever has an ask in line is in the order, in which each is taken in turn.
    pub fn nobody_is_forgotten(&self)
        ensures { EachIsInLine self.now }
    {
        let _count = self.order.len();
    }
}

// One more ask of a client that is there.
fn push_to(asks: &mut BTreeMap<u64, Queue>, client: u64, ask: QueuedAsk) -> Result<(), QueuedAsk>
    requires { is_some (queue_at asks.old.entries client) ≡ true }
    ensures ok { OnOk result (Sets asks.old.entries asks.new.entries client (queue_of asks.old.entries client ++ asked_of ask ∷ [])) }
    ensures err { IfErr result (λ a. (asked_of a ≡ asked_of ask) × SameAsks asks.old.entries asks.new.entries) }
    ensures there { (q : ℕ) → is_some (queue_at asks.new.entries q) ≡ is_some (queue_at asks.old.entries q) }
{
    let Some(queue) = asks.get_mut(&client) else {
        return Err(ask);
    };
    queue.push(ask)
}

// The first ask of a client that was not there.
fn begin(
    asks: &mut BTreeMap<u64, Queue>,
    alloc: Global,
    client: u64,
    ask: QueuedAsk,
) -> Result<(), QueuedAsk>
    requires { queue_at asks.old.entries client ≡ None }
    ensures ok { OnOk result (Sets asks.old.entries asks.new.entries client (asked_of ask ∷ [])) }
    ensures err { IfErr result (λ a. (asked_of a ≡ asked_of ask) × SameAsks asks.old.entries asks.new.entries) }
    ensures there { OnOk result ((q : ℕ) → is_some (queue_at asks.new.entries q) ≡ (is_some (queue_at asks.old.entries q) || nat_eq q client)) }
    ensures away { OnErr result ((q : ℕ) → is_some (queue_at asks.new.entries q) ≡ is_some (queue_at asks.old.entries q)) }
{
    let mut queue = Queue::new(alloc);
    queue.push(ask)?;
    match asks.insert(client, queue) {
        Ok(_) => Ok(()),
        Err(failed) => {
            let (_, mut queue) = failed.value;
            let Some(ask) = queue.pop() else {
                unreachable!()
            };
            Err(ask)
        }
    }
}

// The first ask of a client leaves.
fn pop_from(asks: &mut BTreeMap<u64, Queue>, client: u64) -> Option<QueuedAsk>
    ensures some { IfSome result (λ a. (queue_of asks.old.entries client ≡ asked_of a ∷ queue_of asks.new.entries client)) }
    ensures none { IfNone result ((queue_of asks.old.entries client ≡ []) × SameAsks asks.old.entries asks.new.entries) }
    ensures others { (q : ℕ) → nat_eq q client ≡ false → queue_of asks.new.entries q ≡ queue_of asks.old.entries q }
    ensures there { (q : ℕ) → is_some (queue_at asks.new.entries q) ≡ is_some (queue_at asks.old.entries q) }
{
    let queue = asks.get_mut(&client)?;
    queue.pop()
}

// The last ask of a client leaves.
fn pop_last_from(asks: &mut BTreeMap<u64, Queue>, client: u64) -> Option<QueuedAsk>
    ensures some { IfSome result (λ a. (queue_of asks.old.entries client ≡ queue_of asks.new.entries client ++ asked_of a ∷ [])) }
    ensures none { IfNone result (queue_of asks.old.entries client ≡ []) }
    ensures others { (q : ℕ) → nat_eq q client ≡ false → queue_of asks.new.entries q ≡ queue_of asks.old.entries q }
    ensures there { (q : ℕ) → is_some (queue_at asks.new.entries q) ≡ is_some (queue_at asks.old.entries q) }
{
    let queue = asks.get_mut(&client)?;
    queue.pop_last()
}

// A client's asks are dropped.
fn drop_from(asks: &mut BTreeMap<u64, Queue>, client: u64)
    ensures { Drops asks.old.entries asks.new.entries client }
{
    let _ = asks.remove(&client);
}

// How long a client's first ask is.
fn length_of(asks: &BTreeMap<u64, Queue>, client: u64) -> Option<u64>
    ensures { result ≡ option_map (λ a. length a.content) (slice_get (queue_of asks.now.entries client) 0) }
{
    asks.get(&client)?.length()
}

// When the first byte of a client's second ask came.
fn second_of(asks: &BTreeMap<u64, Queue>, client: u64) -> Option<u64>
    ensures { result ≡ option_map (λ a. a.first) (slice_get (queue_of asks.now.entries client) 1) }
{
    asks.get(&client)?.second()
}
