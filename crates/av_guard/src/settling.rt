ghost use Rattle.std.specs.Prelude.{◌≡◌, ◌≤◌, ◌+◌, ◌++◌, length, vec_len, None, OnErr, OnOk};
ghost use Rattle.std.specs.Vec.{vec_capacity};
ghost use Rattle.av_guard.specs.Counts.{AreCounted};
ghost use Rattle.av_guard.specs.Telling.{left_by, told_by, told_one};
ghost use Rattle.av_context.specs.Contexts.{at, with, without};
ghost use Rattle.av_pend.specs.Pend.{open_of};

use crate::answered::Answered;
use crate::given::{GuardOut, Told};
use crate::shelf::Shelf;
use crate::waiter::Waiter;
use av_filter::{Filter, Out};
use av_pend::Answer;
use std::alloc::AllocError;
use std::collections::{BTreeMap, BTreeSet};

/// What the filter has given out, told to those who wait, for which there is room.
#[tactic(auto, unfolding(crate::specs::Telling::told_by, crate::specs::Telling::left_by))]
pub(crate) fn settle(
    filter: &Filter,
    clients: &BTreeSet<u64>,
    waiting: &mut BTreeMap<u64, Waiter>,
    shelf: &mut Shelf,
    told: Vec<Told>,
    out: Out,
) -> GuardOut
    requires counted { AreCounted shelf.old.waits waiting.old.entries }
    requires room { vec_len told + length out.answers.items ≤ vec_capacity told }
    ensures told { result.told.items ≡ told.items ++ told_by clients.now.keys filter.now waiting.old.entries out.answers.items }
    ensures messages { result.messages.items ≡ out.messages.items }
    ensures waiting { waiting.new.entries ≡ left_by waiting.old.entries out.answers.items }
    ensures counted { AreCounted shelf.new.waits waiting.new.entries }
    ensures shelf { (shelf.new.count ≡ shelf.old.count) × (shelf.new.bytes ≡ shelf.old.bytes) }
{
    let mut told = told;
    let Out {
        answers,
        messages,
        note: _,
    } = out;
    'answers: for answer in answers.as_slice() {
        tell(filter, clients, waiting, shelf, &mut told, answer);
    }
    GuardOut { told, messages }
}

// An answer is told to the one who waits for it, where the client is still there.
fn tell(
    filter: &Filter,
    clients: &BTreeSet<u64>,
    waiting: &mut BTreeMap<u64, Waiter>,
    shelf: &mut Shelf,
    told: &mut Vec<Told>,
    answer: &Answer,
)
    requires counted { AreCounted shelf.old.waits waiting.old.entries }
    requires room { vec_len told.old + 1 ≤ vec_capacity told.old }
    ensures told { told.new.items
        ≡ told.old.items ++ told_one clients.now.keys filter.now answer.now (at waiting.old.entries (open_of answer.now)) }
    ensures len { vec_len told.new ≤ vec_len told.old + 1 }
    ensures capacity { vec_capacity told.new ≡ vec_capacity told.old }
    ensures waiting { waiting.new.entries ≡ without waiting.old.entries (open_of answer.now) }
    ensures counted { AreCounted shelf.new.waits waiting.new.entries }
    ensures shelf { (shelf.new.count ≡ shelf.old.count) × (shelf.new.bytes ≡ shelf.old.bytes) }
{
    let Some(waiter) = leave(waiting, shelf, answer.open_id().get()) else {
        return;
    };
    if clients.contains(&waiter.client) {
        told.push_reserved(Told {
            client: waiter.client,
            tag: waiter.tag,
            answer: Answered::of(filter, waiter.stream, answer),
        });
    }
}

/// One comes to wait for the open of this number, for which nobody waits.
pub(crate) fn enter(
    waiting: &mut BTreeMap<u64, Waiter>,
    shelf: &mut Shelf,
    number: u64,
    waiter: Waiter,
) -> Result<(), AllocError>
    requires counted { AreCounted shelf.old.waits waiting.old.entries }
    requires free { at waiting.old.entries number ≡ None }
    ensures ok { OnOk result (waiting.new.entries ≡ with waiting.old.entries number waiter) }
    ensures err { OnErr result (waiting.new.entries ≡ waiting.old.entries) }
    ensures counted { AreCounted shelf.new.waits waiting.new.entries }
    ensures shelf { (shelf.new.count ≡ shelf.old.count) × (shelf.new.bytes ≡ shelf.old.bytes) }
{
    let stream = waiter.stream;
    match shelf.wait(stream) {
        Ok(()) => {}
        Err(refused) => return Err(refused),
    }
    match waiting.insert(number, waiter) {
        Ok(_) => Ok(()),
        Err(_) => {
            shelf.wake(stream);
            Err(AllocError)
        }
    }
}

/// Nobody waits for the open of this number any more; who did.
pub(crate) fn leave(
    waiting: &mut BTreeMap<u64, Waiter>,
    shelf: &mut Shelf,
    number: u64,
) -> Option<Waiter>
    requires counted { AreCounted shelf.old.waits waiting.old.entries }
    ensures value { result ≡ at waiting.old.entries number }
    ensures waiting { waiting.new.entries ≡ without waiting.old.entries number }
    ensures counted { AreCounted shelf.new.waits waiting.new.entries }
    ensures shelf { (shelf.new.count ≡ shelf.old.count) × (shelf.new.bytes ≡ shelf.old.bytes) }
{
    match waiting.remove(&number) {
        Some(waiter) => {
            shelf.wake(waiter.stream);
            Some(waiter)
        }
        None => None,
    }
}
