ghost use Rattle.std.specs.Prelude.{◌≡◌, [], None, Some};
ghost use Rattle.std.specs.Option.{option_map};
ghost use Rattle.std.specs.Arc.{arc_value};
ghost use Rattle.av_parts.specs.Looks.{IsSeen, Looks};

use av_match::Automaton;
use std::alloc::Global;
use std::sync::Arc;

/// Where the newer sets of a service that runs come from.
pub trait Newest {
    // What each look will give, where it is known.
    ghost looks: { Self → Looks };

    /// The newest set, if one has come since the last look. It is asked for behind each read, so it does not wait.
    fn newer(&mut self) -> Option<Arc<Automaton, Global>>
        ensures { IsSeen (looks self.old) (looks self.new) (option_map arc_value result) };
}

/// No set comes.
impl Newest for () {
    ghost looks = { λ _. Some [] };

    fn newer(&mut self) -> Option<Arc<Automaton, Global>>
        ensures { result ≡ None }
    {
        None
    }
}
