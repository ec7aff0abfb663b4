ghost use Rattle.std.specs.Prelude.{◌≡◌, IfOk, IfErr, IfSome, OnOk, if◌then◌else◌};
ghost use Rattle.av_turns.specs.Budget.{is_spent, spent};
ghost use Rattle.av_turns.specs.Clients.{at};
ghost use Rattle.av_turns.specs.Line.{asked_of};
ghost use Rattle.av_turns.specs.Turns.{IsBack, IsNew, IsUnchanged, Parses, ParsesKnown, WaitsLarge, WaitsSmall};

use super::{Parsed, Thing, Turns};
use crate::budget::Budget;
use crate::client::reply;
use crate::queue::QueuedAsk;

impl Turns {
    /// A thing was parsed of the client whose turn it is. It is passed back where memory is refused, the turn is over, or the
    /// content is longer than what came: the client is to be closed.
    pub fn parsed(&mut self, client: u64, thing: Thing, now: u64) -> Result<Parsed, Thing>
        ensures ok { IfOk result (λ p. Parses self.old self.new client now thing p) }
        ensures err { IfErr result (λ back. IsBack thing back × IsUnchanged self.old self.new) }
    {
        match thing {
            Thing::Said(bytes) => self.parsed_command(client, bytes, now),
            Thing::Known => self.parsed_known(client),
            Thing::New { tag, content } => self.parsed_new(client, tag, content, now),
        }
    }

    fn parsed_command(&mut self, client: u64, bytes: u64, now: u64) -> Result<Parsed, Thing>
        ensures ok { IfOk result (λ p. Parses self.old self.new client now (Thing.Said bytes) p) }
        ensures err { IfErr result (λ back. (back ≡ Thing.Said bytes) × (self.new ≡ self.old)) }
    {
        let Some(counts) = self.clients.get(client) else {
            return Err(Thing::Said(bytes));
        };
        if !counts.may_parse() || self.budget.is_spent() {
            return Err(Thing::Said(bytes));
        }
        match self.clients.put(client, counts.said(bytes, now)) {
            Ok(()) => {}
            Err(_) => return Err(Thing::Said(bytes)),
        }
        Ok(self.spend(bytes))
    }

    fn parsed_known(&mut self, client: u64) -> Result<Parsed, Thing>
        ensures ok { IfOk result (λ p. ParsesKnown self.old self.new client p) }
        ensures err { IfErr result (λ back. (back ≡ Thing.Known) × (self.new ≡ self.old)) }
    {
        let Some(counts) = self.clients.get(client) else {
            return Err(Thing::Known);
        };
        if !counts.may_parse() || self.budget.is_spent() {
            return Err(Thing::Known);
        }
        match self.clients.put(client, counts.asked()) {
            Ok(()) => {}
            Err(_) => return Err(Thing::Known),
        }
        Ok(self.spend(reply(counts.kind)))
    }

    fn parsed_new(
        &mut self,
        client: u64,
        tag: u64,
        content: Vec<u8>,
        now: u64,
    ) -> Result<Parsed, Thing>
        ensures ok { IfOk result (λ p. Parses self.old self.new client now (Thing.New tag content) p) }
        ensures err { IfErr result (λ back. IsNew tag content.items back × IsUnchanged self.old self.new) }
    {
        let Some(counts) = self.clients.get(client) else {
            return Err(Thing::New { tag, content });
        };
        let first = counts.first.unwrap_or(now);
        let ask = QueuedAsk {
            tag,
            first,
            content,
        };
        if counts.filling {
            return match self.stand_large(client, ask) {
                Ok(()) => Ok(Parsed::TurnEnds),
                Err(ask) => Err(thing_of(ask)),
            };
        }
        match self.stand_small(client, ask) {
            Ok(()) => Ok(Parsed::TurnEnds),
            Err(ask) => Err(thing_of(ask)),
        }
    }

    // A thing was parsed, and put so many bytes into the output: whether the turn goes on.
    fn spend(&mut self, bytes: u64) -> Parsed
        ensures left { self.new ≡ record self.old { budget = spent bytes self.old.budget } }
        ensures ends { result ≡ (if is_spent self.new.budget then Parsed.TurnEnds else Parsed.GoesOn) }
    {
        self.budget = self.budget.spend(bytes);
        if self.budget.is_spent() {
            Parsed::TurnEnds
        } else {
            Parsed::GoesOn
        }
    }

    // A small ask of a client is in line.
    fn stand_small(&mut self, client: u64, ask: QueuedAsk) -> Result<(), QueuedAsk>
        ensures ok { OnOk result (IfSome (at self.old.clients.clients client) (λ c. WaitsSmall self.old self.new client c (asked_of ask))) }
        ensures err { IfErr result (λ back. (asked_of back ≡ asked_of ask) × IsUnchanged self.old self.new) }
    {
        let Some(counts) = self.clients.get(client) else {
            return Err(ask);
        };
        let (length, first) = (ask.content.len() as u64, ask.first);
        if length > counts.input || !counts.may_parse() || self.budget.is_spent() {
            return Err(ask);
        }
        self.smalls.stand(self.alloc, client, ask)?;
        match self.clients.put(client, counts.small_stood(length, first)) {
            Ok(()) => {}
            Err(_) => {
                let Some(ask) = self.smalls.take_back(client) else {
                    unreachable!()
                };
                return Err(ask);
            }
        }
        self.budget = Budget::of(0);
        self.let_ahead(client, counts.line);
        Ok(())
    }

    // A client that had so many small asks in line may go ahead of the others where that was none. There is no place in front for
    // more than there are clients.
    fn let_ahead(&mut self, client: u64, line: u64)
        ensures { self.new ≡ self.old }
    {
        if line == 0 && (self.ahead.len() as u64) < self.clients.count() {
            let _ = self.ahead.push_back(client);
        }
    }

    // A large ask of a client is in line.
    fn stand_large(&mut self, client: u64, ask: QueuedAsk) -> Result<(), QueuedAsk>
        ensures ok { OnOk result (IfSome (at self.old.clients.clients client) (λ c. WaitsLarge self.old self.new client c (asked_of ask))) }
        ensures err { IfErr result (λ back. (asked_of back ≡ asked_of ask) × IsUnchanged self.old self.new) }
    {
        let Some(counts) = self.clients.get(client) else {
            return Err(ask);
        };
        let (length, first) = (ask.content.len() as u64, ask.first);
        if length > counts.input || !counts.may_parse() || self.budget.is_spent() {
            return Err(ask);
        }
        self.larges.stand(self.alloc, client, ask)?;
        match self.clients.put(client, counts.large_stood(length, first)) {
            Ok(()) => {}
            Err(_) => {
                let Some(ask) = self.larges.take_back(client) else {
                    unreachable!()
                };
                return Err(ask);
            }
        }
        self.budget = Budget::of(0);
        Ok(())
    }
}

// An ask as the thing that was parsed.
fn thing_of(ask: QueuedAsk) -> Thing
    ensures { result ≡ Thing.New ask.tag ask.content }
{
    let QueuedAsk {
        tag,
        first: _,
        content,
    } = ask;
    Thing::New { tag, content }
}
