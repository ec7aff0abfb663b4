ghost use Rattle.std.specs.Prelude.{◌≡◌, ◌<◌, [], length, None, Some, IsSome, IfSome, IfOk, OnErr, if◌then◌else◌};
ghost use Rattle.std.specs.List.Sorted.{IsStrictlySortedBy};
ghost use Rattle.std.specs.Map.{keys_of};
ghost use Rattle.std.specs.Ordering.{nat_cmp};
ghost use Rattle.std.specs.Option.{option_and_then, option_map};
ghost use Rattle.av_context.specs.Calls.{is_spent};
ghost use Rattle.av_context.specs.Context.{detached, fresh, most_references, passed};
ghost use Rattle.av_context.specs.Contexts.{at, change, IsAttached, PutsAt};

use crate::context::Context;
use crate::context_state::ContextState;
use slab::Slab;
use std::alloc::{AllocError, Global};
use std::marker::Model;

// The contexts by key. A key that is free again is given to a later context.
#[derive(Drop)]
pub struct Rows {
    slab: Slab<Context>,
}

impl Model for Rows {
    ghost use Rattle.std.specs.Prelude.{ℕ, List};
    ghost use Rattle.slab.specs.Slab.{entries};
    ghost use Rattle.av_context.specs.declared.context.Context.{Context};

    ghost Value = { List (ℕ × Context) };

    ghost view = { λ r. entries r.slab };
}

impl Rows {
    pub fn new(alloc: Global) -> Rows
        ensures { result ≡ [] }
    {
        Rows {
            slab: Slab::new(alloc),
        }
    }

    // The context at a key.
    pub fn get(&self, key: usize) -> Option<Context>
        ensures { result ≡ at self.now key }
    {
        self.slab.get(key).copied()
    }

    // The context at a key, where its count can rise.
    pub fn referable(&self, key: usize) -> Option<Context>
        requires { IsSome (at self.now key) }
        ensures value { result ≡ (if is_spent (at self.now key) then None else at self.now key) }
        ensures found { IfSome result (λ c. at self.now key ≡ Some c) }
        ensures room { IfSome result (λ c. c.references < most_references) }
    {
        let Some(row) = self.get(key) else {
            unreachable!()
        };
        if row.references == u64::MAX {
            return None;
        }
        Some(row)
    }

    // Puts a new context of this state, with one reference, at a key that was free.
    pub fn insert(&mut self, state: ContextState) -> Result<usize, AllocError>
        ensures free { IfOk result (λ key. at self.old key ≡ None) }
        ensures ok { IfOk result (λ key. PutsAt self.old self.new key (Some (fresh state))) }
        ensures err { OnErr result (self.new ≡ self.old) }
    {
        self.slab.reserve(1)?;
        Ok(self.slab.insert_reserved(Context::fresh(state)))
    }

    // Puts this at a key that has a context.
    pub fn put(&mut self, key: usize, slot: Option<Context>)
        requires { IsSome (at self.old key) }
        ensures { PutsAt self.old self.new key slot }
    {
        match slot {
            Some(context) => {
                if let Some(row) = self.slab.get_mut(key) {
                    *row = context;
                }
            }
            None => {
                let _ = self.slab.try_remove(key);
            }
        }
    }

    // The reference of an attachment of the context at a key passes to the caller.
    pub fn pass(&mut self, key: usize)
        requires { IsAttached self.old key }
        ensures puts { PutsAt self.old self.new key (option_map passed (at self.old key)) }
        ensures whole { self.new ≡ change (λ c. Some (passed c)) self.old key }
    {
        let Some(row) = self.get(key) else {
            unreachable!()
        };
        self.put(key, Some(row.passed()));
    }

    // An attachment of the context at a key ends.
    pub fn detach(&mut self, key: usize)
        requires { IsAttached self.old key }
        ensures { PutsAt self.old self.new key (option_and_then detached (at self.old key)) }
    {
        let Some(row) = self.get(key) else {
            unreachable!()
        };
        self.put(key, row.detached());
    }

    // How many contexts there are.
    pub fn len(&self) -> usize
        ensures len { result ≡ length self.now }
        ensures ascend { IsStrictlySortedBy nat_cmp (keys_of self.now) }
    {
        self.slab.len()
    }
}
