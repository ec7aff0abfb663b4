ghost use Rattle.std.specs.Prelude.{◌≡◌, ℕ, length, ◌+◌, ◌-◌, ◌<◌, ◌≤◌, ◌^◌, [], Some, None, IsSome, IsSomeAnd, IfSome, IfOk, OnErr};
ghost use Rattle.std.specs.Option.{option_map};
ghost use Rattle.av_context.specs.Contexts.{at, PutsAt};
ghost use Rattle.av_numbered.specs.Numbered.{IsAscending};
ghost use Rattle.av_filter_table.specs.StreamContexts.{Known, given_back, known_again, let_loose, held_of, known_of, AreAttached};

use av_base::StreamId;
use av_context::{ContextFault, ContextRef, ContextState, ContextTable, Set};
use std::alloc::{AllocError, Global};
use std::marker::Model;

/// What is known of each stream, as counted contexts. Each is attached to one stream; a reference that is given out is a
/// hold on it, and comes back by `give_back`.
#[derive(Drop)]
pub struct StreamContexts {
    table: ContextTable,
}

impl Model for StreamContexts {
    ghost use Rattle.std.specs.Prelude.{ℕ, List};
    ghost use Rattle.av_filter_table.specs.StreamContexts.{Known, known_of, AreAttached};

    ghost Value = { List (ℕ × Known) };

    ghost view = { λ t. known_of t.table };

    ghost invariant = { λ t. AreAttached t.table };
}

impl StreamContexts {
    /// Nothing is known. It takes no memory yet.
    pub fn new(alloc: Global) -> StreamContexts
        ensures { result ≡ [] }
    {
        let table = ContextTable::new(alloc);
        let _is_sound = table.len();
        StreamContexts { table }
    }

    /// The state of a stream's context, where it has one. The cost grows with the logarithm of the count of streams.
    pub fn state_of(&self, stream: StreamId) -> Option<ContextState>
        ensures { result ≡ option_map (λ m. m.state) (at self.now stream) }
    {
        self.table.state_of(stream)
    }

    /// Gives a reference to a stream's context, which has this state from now on; a stream with none gets one. Only that
    /// takes memory.
    pub fn hold(&mut self, stream: StreamId, state: ContextState) -> Result<ContextRef, AllocError>
        requires { held_of (at self.old stream) < 2 ^ 63 }
        ensures ok { IfOk result
            (λ context. PutsAt self.old self.new stream
            (Some (record { key = context; state = state; held = held_of (at self.old stream) + 1 }))) }
        ensures ascend { IsAscending self.old }
        ensures same { IfOk result (λ context. IfSome (at self.old stream) (λ m. m.key ≡ context)) }
        ensures err { OnErr result (self.new ≡ self.old) }
    {
        match self.table.get(stream) {
            Ok(context) => {
                self.table.set_state(&context, state);
                let _is_sound = self.table.len();
                Ok(context)
            }
            Err(ContextFault::NotFound) => attach(&mut self.table, stream, state),
            Err(ContextFault::RefsSpent) => unreachable!(),
        }
    }

    /// Gives one more reference to the context of a stream that has one, which has this state from now on. It takes no memory.
    pub fn share(&mut self, stream: StreamId, state: ContextState) -> ContextRef
        requires there { IsSome (at self.old stream) }
        requires few { held_of (at self.old stream) < 2 ^ 63 }
        ensures puts { PutsAt self.old self.new stream
            (Some (record { key = result; state = state; held = held_of (at self.old stream) + 1 })) }
        ensures ascend { IsAscending self.old }
        ensures same { IfSome (at self.old stream) (λ m. m.key ≡ result) }
    {
        let Ok(shared) = self.table.get(stream) else {
            unreachable!()
        };
        self.table.set_state(&shared, state);
        let _is_sound = self.table.len();
        shared
    }

    /// Takes a reference to a stream's context back, which has this state from now on.
    pub fn give_back(&mut self, stream: StreamId, context: ContextRef, state: ContextState)
        requires { IsSomeAnd (at self.old stream) (λ m. (m.key ≡ context) × (1 ≤ m.held)) }
        ensures puts { PutsAt self.old self.new stream (option_map (given_back state) (at self.old stream)) }
        ensures ascend { IsAscending self.old }
    {
        self.table.set_state(&context, state);
        self.table.release(context);
        let _is_sound = self.table.len();
    }

    /// Takes a reference to a stream's context back, whose state stays.
    pub fn release(&mut self, stream: StreamId, context: ContextRef)
        requires { IsSomeAnd (at self.old stream) (λ m. (m.key ≡ context) × (1 ≤ m.held)) }
        ensures { PutsAt self.old self.new stream (option_map let_loose (at self.old stream)) }
    {
        let _of_stream = stream;
        self.table.release(context);
        let _is_sound = self.table.len();
    }

    /// Takes the only reference to a stream's context back, and the context is gone.
    pub fn forget(&mut self, stream: StreamId, context: ContextRef)
        requires { IsSomeAnd (at self.old stream) (λ m. (m.key ≡ context) × (m.held ≡ 1)) }
        ensures { PutsAt self.old self.new stream None }
    {
        self.table.release(context);
        match self.table.delete(stream) {
            Ok(()) => {}
            Err(_) => unreachable!(),
        }
        let _is_sound = self.table.len();
    }

    /// Lets a stream's context go, if it has one, to which no reference is out.
    pub fn detach(&mut self, stream: StreamId)
        requires { held_of (at self.old stream) ≡ 0 }
        ensures { PutsAt self.old self.new stream None }
    {
        let _none_is_gone_already = self.table.delete(stream);
        let _is_sound = self.table.len();
    }

    /// Ends every attachment, and so every context: no reference is out.
    pub fn end(self)
        requires { (s : ℕ) → held_of (at self s) ≡ 0 }
    {
        let StreamContexts { mut table } = self;
        table.delete_all();
        if table.len() != 0 {
            unreachable!()
        }
    }

    /// How many streams have a context. At once.
    pub fn len(&self) -> usize
        ensures len { result ≡ length self.now }
        ensures ascend { IsAscending self.now }
    {
        self.table.len()
    }

    /// Takes back the reference that `hold` gave, as if it had not been called; `old` is the state before it.
    pub fn undo_hold(&mut self, stream: StreamId, context: ContextRef, old: Option<ContextState>)
        requires { IsSomeAnd (at self.old stream) (λ m. (m.key ≡ context) × (m.held ≡ 1)) }
        ensures { PutsAt self.old self.new stream (option_map (known_again context) old) }
    {
        match old {
            Some(state) => self.give_back(stream, context, state),
            None => self.forget(stream, context),
        }
    }
}

// Makes a context of this state, attaches it to a stream that has none, and gives a reference to it.
fn attach(
    table: &mut ContextTable,
    stream: StreamId,
    state: ContextState,
) -> Result<ContextRef, AllocError>
    requires none { at table.old.attachments stream ≡ None }
    requires once { AreAttached table.old }
    ensures ok { IfOk result
        (λ context. PutsAt (known_of table.old) (known_of table.new) stream
        (Some (record { key = context; state = state; held = 1 }))) }
    ensures once { AreAttached table.new }
    ensures err { OnErr result (table.new ≡ table.old) }
{
    let context = table.allocate(state)?;
    match table.set_keep(stream, &context) {
        Ok(Set::Attached) => {
            let _is_sound = table.len();
            Ok(context)
        }
        Ok(Set::AlreadyDefined(_other)) => unreachable!(),
        Err(_) => {
            table.release(context);
            Err(AllocError)
        }
    }
}
