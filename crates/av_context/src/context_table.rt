ghost use Rattle.std.specs.Prelude.{◌≡◌, ◌↔◌, ◌<◌, ℕ, [], length, None, Some, Err, IsSome, IsTrue, IfSome, IfOk, OnErr};
ghost use Rattle.std.specs.Option.{option_and_then, option_map};
ghost use Rattle.av_base.specs.declared.refusal.Refusal.TheVariants.{NoMemory};
ghost use Rattle.av_base.specs.Answers.{Answers, AnswersAtOnce, StepsAtOnce};
ghost use Rattle.av_context.specs.Context.{fresh, loosened};
ghost use Rattle.av_context.specs.Contexts.{Contexts, no_contexts, at, with, IsHeld, IsAttached, IsSound, AreCounted, attachments_to, all_detached};
ghost use Rattle.av_context.specs.Calls.{set_keep, set_replace, refer_at, get, delete, delete_all, release, set_state, state_at, state_of};

use crate::context::Context;
use crate::context_fault::ContextFault;
use crate::context_ref::{ContextRef, Set};
use crate::context_state::ContextState;
use crate::rows::Rows;
use av_base::{Refusal, StreamId};
use std::alloc::{AllocError, Global};
use std::collections::BTreeMap;
use std::marker::Model;

/// Contexts, each with the count of its references, and which of them is attached to which stream. A count is the context's
/// attachments and the references that were given out and are not yet released. The table keeps the allocator that it was
/// made with.
#[derive(Drop)]
pub struct ContextTable {
    rows: Rows,
    attachments: BTreeMap<StreamId, usize>,
}

impl Model for ContextTable {
    ghost use Rattle.av_context.specs.Contexts.{Contexts, AreCounted, attachments_to};

    ghost Value = { Contexts };

    ghost view = { λ t. record { contexts = t.rows; attachments = t.attachments.entries } };

    ghost invariant = { λ t. AreCounted t.rows (attachments_to t.attachments.entries) };
}

impl ContextTable {
    /// A table of no contexts. It takes no memory yet.
    pub fn new(alloc: Global) -> ContextTable
        ensures { result ≡ no_contexts }
    {
        ContextTable {
            rows: Rows::new(alloc),
            attachments: BTreeMap::new(alloc),
        }
    }

    /// A new context that is attached nowhere: the reference that is given out is its only one. The cost does not depend on
    /// how many contexts there are.
    pub fn allocate(&mut self, state: ContextState) -> Result<ContextRef, AllocError>
        ensures free { IfOk result (λ context. at self.old.contexts context ≡ None) }
        ensures ok { IfOk result
            (λ context. self.new ≡ record self.old { contexts = with self.old.contexts context (fresh state) }) }
        ensures err { OnErr result (self.new ≡ self.old) }
    {
        let key = self.rows.insert(state)?;
        Ok(ContextRef { key })
    }

    /// The state of a context. At once.
    pub fn state(&self, context: &ContextRef) -> ContextState
        requires { IsHeld self.now context.now }
        ensures { state_at self.now context.now ≡ Some result }
    {
        let Some(row) = self.rows.get(context.key) else {
            unreachable!()
        };
        row.state
    }

    /// Sets the state of a context. At once.
    pub fn set_state(&mut self, context: &ContextRef, state: ContextState)
        requires { IsHeld self.old context.now }
        ensures { self.new ≡ set_state self.old context.now state }
    {
        let Some(row) = self.rows.get(context.key) else {
            unreachable!()
        };
        self.rows.put(context.key, Some(Context { state, ..row }));
    }

    /// How many references to a context there are, attachments included. At once.
    pub fn references(&self, context: &ContextRef) -> u64
        requires { IsHeld self.now context.now }
        ensures { option_map (λ c. c.references) (at self.now.contexts context.now) ≡ Some result }
    {
        let Some(row) = self.rows.get(context.key) else {
            unreachable!()
        };
        row.references
    }

    /// Whether the table has the context of a reference, with a count above its attachments. Every call that takes a
    /// reference asks this. It can't tell apart the references of two tables. At once.
    pub fn holds(&self, context: &ContextRef) -> bool
        ensures { IsTrue result ↔ IsHeld self.now context.now }
    {
        match self.rows.get(context.key) {
            Some(row) => row.attached < row.references,
            None => false,
        }
    }

    /// The state of the context that is attached to a stream, where one is. It gives no reference. The cost grows with the
    /// logarithm of the count of attachments.
    pub fn state_of(&self, stream: StreamId) -> Option<ContextState>
        ensures { result ≡ state_of self.now stream }
    {
        let key = self.attached_key(stream)?;
        let row = self.rows.get(key)?;
        Some(row.state)
    }

    /// How many contexts there are. At once.
    pub fn len(&self) -> usize
        ensures len { result ≡ length self.now.contexts }
        ensures sound { IsSound self.now }
    {
        let _streams_ascend = self.attachments.len();
        self.rows.len()
    }

    /// Takes a reference back. With its last reference a context is gone. At once.
    pub fn release(&mut self, context: ContextRef)
        requires { IsHeld self.old context }
        ensures { self.new ≡ release self.old context }
    {
        let ContextRef { key } = context;
        let Some(row) = self.rows.get(key) else {
            unreachable!()
        };
        self.rows.put(key, row.released());
    }

    /// Attaches a context to a stream that has none; what a stream has stays, and a reference to that is given out. Refused
    /// with `RefsSpent` where the count of the one that is to be attached, or of the one that stays, is at 2^64 - 1. The cost
    /// grows with the logarithm of the count of attachments.
    pub fn set_keep(
        &mut self,
        stream: StreamId,
        context: &ContextRef,
    ) -> Result<Set, Refusal<ContextFault>>
        requires { IsHeld self.old context.now }
        ensures answer { Answers self.old self.new result (set_keep self.old stream context.now) }
        ensures memory { result ≡ Err NoMemory → at self.old.attachments stream ≡ None }
    {
        if let Some(old) = self.attached_key(stream) {
            return match self.refer(old) {
                Ok(old) => Ok(Set::AlreadyDefined(old)),
                Err(fault) => Err(Refusal::Fault(fault)),
            };
        }
        let Some(row) = self.rows.referable(context.key) else {
            return Err(Refusal::Fault(ContextFault::RefsSpent));
        };
        self.attachments.insert(stream, context.key)?;
        self.rows.put(context.key, Some(row.attached()));
        Ok(Set::Attached)
    }

    /// Attaches a context to a stream, also in place of another one: the reference of that attachment is then the caller's.
    /// Refused with `RefsSpent` where the count of the context is at 2^64 - 1. The cost grows with the logarithm of the count
    /// of attachments.
    pub fn set_replace(
        &mut self,
        stream: StreamId,
        context: &ContextRef,
    ) -> Result<Option<ContextRef>, Refusal<ContextFault>>
        requires { IsHeld self.old context.now }
        ensures answer { Answers self.old self.new result (set_replace self.old stream context.now) }
        ensures memory { result ≡ Err NoMemory → at self.old.attachments stream ≡ None }
    {
        let Some(row) = self.rows.referable(context.key) else {
            return Err(Refusal::Fault(ContextFault::RefsSpent));
        };
        let old = self.attachments.insert(stream, context.key)?;
        self.rows.put(context.key, Some(row.attached()));
        let Some(key) = old else {
            return Ok(None);
        };
        self.rows.pass(key);
        Ok(Some(ContextRef { key }))
    }

    /// A reference to the context that is attached to a stream: `NotFound` where none is, `RefsSpent` where its count is at
    /// 2^64 - 1. The cost grows with the logarithm of the count of attachments.
    pub fn get(&mut self, stream: StreamId) -> Result<ContextRef, ContextFault>
        ensures { AnswersAtOnce self.old self.new result (get self.old stream) }
    {
        let Some(key) = self.attached_key(stream) else {
            return Err(ContextFault::NotFound);
        };
        self.refer(key)
    }

    /// Ends the attachment of a stream, and with its last reference a context: `NotFound` where none is attached. The cost
    /// grows with the logarithm of the count of attachments.
    pub fn delete(&mut self, stream: StreamId) -> Result<(), ContextFault>
        ensures { StepsAtOnce self.old self.new result (delete self.old stream) }
    {
        let Some(key) = self.attached_key(stream) else {
            return Err(ContextFault::NotFound);
        };
        let _ = self.attachments.remove(&stream);
        self.rows.detach(key);
        Ok(())
    }

    /// Ends every attachment, as `delete` of each stream would, and at the cost of those. A context stays where references to
    /// it were given out.
    pub fn delete_all(&mut self)
        ensures all { self.new ≡ delete_all self.old }
        ensures each { (k : ℕ) → at self.new.contexts k ≡ option_and_then loosened (at self.old.contexts k) }
    {
        detach_all(&mut self.rows, &mut self.attachments);
    }

    // The key of the context that is attached to a stream.
    fn attached_key(&self, stream: StreamId) -> Option<usize>
        ensures value { result ≡ at self.now.attachments stream }
        ensures there { IfSome result (λ key. IsAttached self.now.contexts key) }
    {
        self.attachments.get(&stream).copied()
    }

    // A new reference to the context at a key.
    fn refer(&mut self, key: usize) -> Result<ContextRef, ContextFault>
        requires { IsSome (at self.old.contexts key) }
        ensures { AnswersAtOnce self.old self.new result (refer_at self.old key) }
    {
        let Some(row) = self.rows.referable(key) else {
            return Err(ContextFault::RefsSpent);
        };
        self.rows.put(key, Some(row.referred()));
        Ok(ContextRef { key })
    }
}

// Ends each attachment in turn.
fn detach_all(rows: &mut Rows, attachments: &mut BTreeMap<StreamId, usize>)
    requires { AreCounted rows.old (attachments_to attachments.old.entries) }
    ensures rows { rows.new ≡ all_detached attachments.old.entries rows.old }
    ensures attachments { attachments.new.entries ≡ [] }
    ensures each { (k : ℕ) → at rows.new k ≡ option_and_then loosened (at rows.old k) }
    ensures counted { AreCounted rows.new (attachments_to []) }
{
    'attachments: while let Some((_, key)) = attachments.pop_first() {
        rows.detach(key);
    }
}
