ghost use Rattle.std.specs.Prelude.{◌≡◌, ◌≤◌, true, IfSome, IfNone};
ghost use Rattle.std.specs.Option.{option_map};
ghost use Rattle.av_turns.specs.Clients.{at, is_due, IsNoneBefore, IsNoneDue};
ghost use Rattle.av_turns.specs.Questions.{IsNoneAsked, IsNoneAskedBefore};
ghost use Rattle.av_turns.specs.Places.{is_over, IsNotAfter, since_of, stuck_of, unheard_of};
ghost use Rattle.av_turns.specs.Times.{after};
ghost use Rattle.av_turns.specs.declared.places.Nth.{Nth};
ghost use Rattle.av_turns.specs.Turns.{IsDeadline, Lates, LosesLarge, LosesSmall, standing_of, why_of};

use super::{Late, Turns, Why};
use crate::client::{Client, earlier};
use crate::line::Standing;

impl Turns {
    /// One thing whose time is up.
    pub fn late(&mut self, now: u64) -> Late
        ensures exact { Lates self.old self.new now result }
        ensures stuck { IfSome (stuck_of self.old.places) (λ place. result ≡ Late.Service place) }
        ensures unheard { stuck_of self.old.places ≡ None → IfSome (unheard_of self.old.wait now self.old.places) (λ guest. result ≡ Late.Guest guest) }
    {
        if let Some(place) = self.places.stuck() {
            return Late::Service(place);
        }
        if let Some(guest) = self.places.unheard(self.wait, now) {
            return Late::Guest(guest);
        }
        if let Some((due, seq)) = self.questions.first_due() {
            if due <= now {
                self.questions.over(seq);
                return Late::Question(seq);
            }
        }
        match self.clients.first_due() {
            Some((due, client)) => {
                if due <= now {
                    return self.late_client(client, due, now);
                }
                Late::Nothing
            }
            None => Late::Nothing,
        }
    }

    // The time of a client, or of its ask in line, is up.
    fn late_client(&mut self, client: u64, due: u64, now: u64) -> Late
        requires due { is_due self.old.clients.wait (at self.old.clients.clients client) due ≡ true }
        requires late { due ≤ now }
        ensures exact { Lates self.old self.new now result }
        ensures something { result ≡ Late.Nothing → ⊥ }
        ensures service { (place : Nth) → result ≡ Late.Service place → ⊥ }
        ensures guest { (guest : Nth) → result ≡ Late.Guest guest → ⊥ }
    {
        let _due = due;
        let Some(counts) = self.clients.get(client) else {
            unreachable!()
        };
        if is_up(counts.next_small, self.wait, now) {
            if let Some(standing) = self.deny_small(client) {
                let tag = standing.tag;
                return Late::Deny { client, tag };
            }
        }
        if is_up(counts.next_large, self.wait, now) {
            if let Some(standing) = self.deny_large(client) {
                let tag = standing.tag;
                return Late::Deny { client, tag };
            }
        }
        let why = why_of(counts, self.wait, now);
        self.closed(client);
        Late::Close { client, why }
    }

    // The first small ask of a client leaves the line.
    fn deny_small(&mut self, client: u64) -> Option<Standing>
        ensures some { IfSome result (λ s. LosesSmall self.old self.new client (standing_of s)) }
        ensures none { IfNone result (self.new ≡ self.old) }
    {
        let counts = self.clients.get(client)?;
        let front = self.smalls.first_of(client)?;
        self.clients
            .put(client, counts.small_left(front.length, front.next))
            .ok()?;
        let Some(standing) = self.smalls.pull(client) else {
            unreachable!()
        };
        self.grant();
        Some(standing)
    }

    // The large ask of a client leaves the line.
    fn deny_large(&mut self, client: u64) -> Option<Standing>
        ensures some { IfSome result (λ s. LosesLarge self.old self.new client (standing_of s)) }
        ensures none { IfNone result (self.new ≡ self.old) }
    {
        let counts = self.clients.get(client)?;
        let front = self.larges.first_of(client)?;
        self.clients
            .put(client, counts.large_left(front.length))
            .ok()?;
        let Some(standing) = self.larges.pull(client) else {
            unreachable!()
        };
        self.grant();
        Some(standing)
    }

    /// When `late` is to be asked next. Nothing is late before.
    pub fn timer(&self) -> Option<u64>
        ensures deadline { IfSome result (λ time. IsDeadline self.now time) }
        ensures some { IfSome result (λ time. IsNoneBefore self.now.clients time) }
        ensures none { result ≡ None → IsNoneDue self.now.clients }
        ensures question { IfSome result (λ time. IsNoneAskedBefore self.now.questions time) }
        ensures unasked { result ≡ None → IsNoneAsked self.now.questions }
        ensures service { IsNotAfter result (after (since_of self.now.places) self.now.wait) }
    {
        let clients = time_of(self.clients.first_due());
        let questions = time_of(self.questions.first_due());
        earlier(self.places.due(self.wait), earlier(questions, clients))
    }
}

// Whether so long has passed.
fn is_up(from: Option<u64>, wait: u64, now: u64) -> bool
    ensures { result ≡ is_over (after from wait) now }
{
    match from {
        Some(from) => from.saturating_add(wait) <= now,
        None => false,
    }
}

// What a client did not do.
fn why_of(counts: Client, wait: u64, now: u64) -> Why
    ensures { result ≡ why_of wait now counts }
{
    if is_up(counts.waits, wait, now) {
        return Why::TookNothing;
    }
    if is_up(counts.first, wait, now) {
        return Why::SaidNothing;
    }
    Why::Idle
}

fn time_of(first: Option<(u64, u64)>) -> Option<u64>
    ensures { result ≡ option_map (λ x. x.0) first }
{
    match first {
        Some((time, _)) => Some(time),
        None => None,
    }
}
