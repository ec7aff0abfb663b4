ghost use Rattle.std.specs.Prelude.{◌≡◌, ◌++◌, ◌∷◌, [], length, vec_len, vec_capacity, ◌+◌, ◌≤◌, OnOk, OnErr, IsSomeAnd, if◌then◌else◌};
ghost use Rattle.av_large.specs.State.{numbers_of, others, theirs};
ghost use Rattle.av_large.specs.Calls.{all_lost};
ghost use Rattle.av_large.specs.Index.{Ascends, HasTheirs, is_of};
ghost use Rattle.av_parts.specs.Judge.{at, with, without};

use crate::answer::{Answer, Told};
use crate::content::Content;
use crate::index::{Index, Numbers};
use av_base::Cause;
use std::alloc::{AllocError, Global};
use std::collections::BTreeMap;
use std::marker::Model;

/// The contents without an answer, by their numbers. Each call costs a logarithm for each content that it touches.
#[derive(Drop)]
pub(crate) struct Held {
    contents: BTreeMap<u64, Content>,
    index: Index,
}

impl Model for Held {
    ghost use Rattle.std.specs.Prelude.{ℕ, List};
    ghost use Rattle.av_large.specs.Index.{IsIndexed};
    ghost use Rattle.av_large.specs.declared.content.Content.{Content};

    ghost Value = { List (ℕ × Content) };

    ghost view = { λ h. h.contents.entries };

    ghost invariant = { λ h. IsIndexed h.contents.entries h.index };
}

impl Held {
    pub(crate) fn new(alloc: Global) -> Held
        ensures { result ≡ [] }
    {
        Held {
            contents: BTreeMap::new(alloc),
            index: Index::new(alloc),
        }
    }

    pub(crate) fn len(&self) -> usize
        ensures { result ≡ length self.now }
    {
        self.contents.len()
    }

    /// The content of this number.
    pub(crate) fn get(&self, number: u64) -> Option<Content>
        ensures { result ≡ at self.now number }
    {
        self.contents.get(&number).copied()
    }

    /// A content comes to be held. (Where memory is refused, the index may have a number for which there is no content.)
    pub(crate) fn hold(&mut self, number: u64, content: Content) -> Result<(), AllocError>
        ensures ok { OnOk result (self.new ≡ with self.old number content) }
        ensures err { OnErr result (self.new ≡ self.old) }
    {
        self.index.add(content.client, number)?;
        match self.contents.insert(number, content) {
            Ok(_) => Ok(()),
            Err(_) => Err(AllocError),
        }
    }

    /// A content that is held has changed. Its client stays.
    pub(crate) fn set(&mut self, number: u64, content: Content)
        requires { IsSomeAnd (at self.old number) (λ c. c.client ≡ content.client) }
        ensures { self.new ≡ with self.old number content }
    {
        if self.contents.insert(number, content).is_err() {
            unreachable!()
        }
    }

    /// A content is held no more.
    pub(crate) fn remove(&mut self, number: u64)
        ensures { self.new ≡ without self.old number }
    {
        if let Some(content) = self.contents.remove(&number) {
            self.index.forget(content.client, number);
        }
    }
}

// Each content is told that its service is lost, and none is held any more.
pub(crate) fn lose_all(held: &mut Held, told: &mut Vec<Told>) -> Result<(), AllocError>
    ensures ok { OnOk result (held.new ≡ []) }
    ensures told { OnOk result (told.new.items ≡ told.old.items ++ all_lost held.old) }
    ensures err { OnErr result ((held.new ≡ held.old) × (told.new.items ≡ told.old.items)) }
{
    told.reserve(held.contents.len())?;
    tell_all(&mut held.contents, told);
    held.index.clear();
    Ok(())
}

// Tells each content, for whose answers there is room.
fn tell_all(contents: &mut BTreeMap<u64, Content>, told: &mut Vec<Told>)
    requires { vec_len told.old + length contents.old.entries ≤ vec_capacity told.old }
    ensures contents { contents.new.entries ≡ [] }
    ensures told { told.new.items ≡ told.old.items ++ all_lost contents.old.entries }
{
    'contents: while let Some((_, content)) = contents.pop_first() {
        let cause = Cause::PortDisconnected;
        told.push(content.tell(Answer::Unjudged { cause })).unwrap();
    }
}

// The contents of a client are held no more, and their numbers are appended.
pub(crate) fn drop_all(
    held: &mut Held,
    client: u64,
    dropped: &mut Vec<u64>,
) -> Result<(), AllocError>
    ensures ok { OnOk result (held.new ≡ others client held.old) }
    ensures dropped { OnOk result (dropped.new.items ≡ dropped.old.items ++ numbers_of (theirs client held.old)) }
    ensures err { OnErr result ((held.new ≡ held.old) × (dropped.new.items ≡ dropped.old.items)) }
{
    let _ordered = held.contents.len();
    dropped.reserve(held.index.len_of(client))?;
    let numbers = held.index.take(client);
    take_out(&mut held.contents, client, numbers, dropped);
    Ok(())
}

// Takes out the contents of a client, which have some of these numbers, and for whose numbers there is room.
fn take_out(
    contents: &mut BTreeMap<u64, Content>,
    client: u64,
    mut numbers: Numbers,
    dropped: &mut Vec<u64>,
)
    requires room { vec_len dropped.old + length numbers ≤ vec_capacity dropped.old }
    requires theirs { HasTheirs client contents.old.entries numbers }
    ensures contents { contents.new.entries ≡ others client contents.old.entries }
    ensures dropped { dropped.new.items ≡ dropped.old.items ++ numbers_of (theirs client contents.old.entries) }
{
    let _ordered = contents.len();
    'numbers: while let Some(number) = numbers.pop() {
        take_one(contents, client, number, dropped);
    }
}

// Takes out the content of this number if it is of this client.
fn take_one(contents: &mut BTreeMap<u64, Content>, client: u64, number: u64, dropped: &mut Vec<u64>)
    requires room { vec_len dropped.old + 1 ≤ vec_capacity dropped.old }
    ensures contents { contents.new.entries ≡ (if is_of client (at contents.old.entries number) then without contents.old.entries number else contents.old.entries) }
    ensures dropped { dropped.new.items ≡ (if is_of client (at contents.old.entries number) then dropped.old.items ++ number ∷ [] else dropped.old.items) }
    ensures len { vec_len dropped.new ≤ vec_len dropped.old + 1 }
    ensures capacity { vec_capacity dropped.old ≤ vec_capacity dropped.new }
    ensures ordered { Ascends contents.new.entries }
{
    let is_theirs = match contents.get(&number) {
        Some(content) => content.client == client,
        None => false,
    };
    if is_theirs {
        let _ = contents.remove(&number);
        dropped.push(number).unwrap();
    }
    let _ordered = contents.len();
}
