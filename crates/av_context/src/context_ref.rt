use std::marker::Model;

/// A reference to a context of one table. It can be neither copied nor let go: `ContextTable::release` spends it.
pub struct ContextRef {
    pub(crate) key: usize,
}

impl Model for ContextRef {
    ghost use Rattle.std.specs.Prelude.{ℕ};

    ghost Value = { ℕ };

    ghost view = { λ r. r.key };
}

/// What became of a context that was to be attached to a stream.
pub enum Set {
    /// It is attached.
    Attached,
    /// Another one was attached before, and stays: this is a new reference to that one.
    AlreadyDefined(ContextRef),
}
