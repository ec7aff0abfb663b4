//! Files as they are opened by their names.

use av_quarantine::Seen;
use std::io::Write;

/// How a file came to be scanned.
#[derive(Clone, Copy, Debug, PartialEq, Eq)]
pub enum Origin {
    /// The user named it.
    Named,
    /// A walk met it.
    Met,
}

/// Where files come from. Several threads open them at a time.
pub trait Opening<F>: Copy + Send + Sync + 'static {
    ghost use Rattle.std.specs.Prelude.{ℕ, List, IfSome};

    // This was opened as the file of this name. Code over any `Opening` learns this from `opened` alone.
    ghost is_of: { Self → List ℕ → F → Type 0 };

    /// The file of this name, open, where it can be.
    fn opened(&self, name: &str, origin: Origin) -> Option<F>
        ensures { IfSome result (is_of self.now name.now) };

    /// Which file an open one is, where the system says so.
    fn seen(&self, file: &F) -> Option<Seen>;

    /// Gives the reason why a file could not be read, where that is wanted.
    fn explain<E: Write>(&self, name: &str, origin: Origin, err: &mut E);
}
