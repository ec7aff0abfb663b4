ghost use Rattle.std.specs.Prelude.{◌≡◌, List, [], None, Option, Some};
ghost use Rattle.av_engines.specs.Fresh.{Gives, come};
ghost use Rattle.av_sigset.specs.Set.{NumberedSet};

use av_base::{Refusal, Version};
use av_sigset::{CatalogueFault, SignatureSet};

/// Where the newer sets of a service that runs come from.
pub trait Fresh {
    // The sets that are still to come, in order, where they are known.
    ghost coming: { Self → Option (List NumberedSet) };

    /// The set that has come, if one has. It is asked for before each message and each read, so it does not wait.
    fn next(&mut self) -> Option<SignatureSet>
        ensures { Gives (coming self.old) (coming self.new) (come result) };

    /// Learns that the set of this version, which came last, is published.
    fn published(&mut self, version: Version)
        ensures { coming self.new ≡ coming self.old };

    /// Learns that the set of this version, which came last, is not published, and why.
    fn refused(&mut self, version: Version, why: Refusal<CatalogueFault>)
        ensures { coming self.new ≡ coming self.old };
}

/// No set comes.
impl Fresh for () {
    ghost coming = { λ _. Some [] };

    fn next(&mut self) -> Option<SignatureSet>
        ensures { result ≡ None }
    {
        None
    }

    fn published(&mut self, _version: Version) {}

    fn refused(&mut self, _version: Version, _why: Refusal<CatalogueFault>) {}
}
