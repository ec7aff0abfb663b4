ghost use Rattle.std.specs.Prelude.{◌≡◌, ◌+◌, ◌-◌, ◌<◌, ◌≤◌, Some};
ghost use Rattle.av_context.specs.Context.{fresh, referred, attached, passed, released, detached, most_references};

use crate::context_fault::ContextFault;
use crate::context_state::ContextState;

/// One context of a table, as contracts see it: its state, how many references there are, and how many of these are
/// attachments to streams.
#[derive(Clone, Copy, Debug, PartialEq, Eq)]
pub struct Context {
    pub state: ContextState,
    pub references: u64,
    pub attached: u64,
}

impl Context {
    // A new context, with the one reference that is given out.
    pub(crate) fn fresh(state: ContextState) -> Context
        ensures { result ≡ fresh state }
    {
        Context {
            state,
            references: 1,
            attached: 0,
        }
    }

    // With one reference more.
    pub(crate) fn referred(self) -> Context
        requires { self.references < most_references }
        ensures { result ≡ referred self }
    {
        Context {
            references: self.references + 1,
            ..self
        }
    }

    // With one attachment more, which counts.
    pub(crate) fn attached(self) -> Context
        requires room { self.references < most_references }
        requires counted { self.attached ≤ self.references }
        ensures { result ≡ attached self }
    {
        Context {
            references: self.references + 1,
            attached: self.attached + 1,
            ..self
        }
    }

    // With one attachment less, whose reference stays.
    pub(crate) fn passed(self) -> Context
        requires { 1 ≤ self.attached }
        ensures { result ≡ passed self }
    {
        Context {
            attached: self.attached - 1,
            ..self
        }
    }

    // With one reference less; nothing at the last one.
    pub(crate) fn released(self) -> Option<Context>
        requires { 1 ≤ self.references }
        ensures { result ≡ released self }
    {
        if self.references == 1 {
            return None;
        }
        Some(Context {
            references: self.references - 1,
            ..self
        })
    }

    // With one attachment less, and its reference; nothing at the last one.
    pub(crate) fn detached(self) -> Option<Context>
        requires some { 1 ≤ self.attached }
        requires counted { self.attached ≤ self.references }
        ensures { result ≡ detached self }
    {
        if self.references == 1 {
            return None;
        }
        Some(Context {
            references: self.references - 1,
            attached: self.attached - 1,
            ..self
        })
    }
}
