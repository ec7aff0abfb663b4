ghost use Rattle.std.specs.Prelude.{◌≡◌};
ghost use Rattle.av_script.specs.Script.Statement.{bare_event, named_command, numbered_event};

use crate::command::Command;
use av_base::{ByteList, Port};
use av_history::event::Event;

/// A verb that a name follows, and nothing else.
#[derive(Clone, Copy)]
pub enum NameVerb {
    Create,
    Remove,
    Cleanup,
    Judge,
}

impl NameVerb {
    /// The command on the stream of this name.
    pub fn command(self, name: ByteList) -> Command
        ensures { result ≡ named_command self name }
    {
        match self {
            NameVerb::Create => Command::Step(Event::Create { name }),
            NameVerb::Remove => Command::Step(Event::Remove { name }),
            NameVerb::Cleanup => Command::Step(Event::Cleanup { name }),
            NameVerb::Judge => Command::Judge { name },
        }
    }
}

/// A verb that a number follows, and nothing else.
#[derive(Clone, Copy)]
pub enum NumberVerb {
    Down,
    Up,
    Work,
    Timeout,
}

impl NumberVerb {
    /// The event of this number.
    pub fn event(self, number: u64) -> Event
        ensures { result ≡ numbered_event self number }
    {
        match self {
            NumberVerb::Down => Event::Down { place: number },
            NumberVerb::Up => Event::Up { place: number },
            NumberVerb::Work => Event::Run { place: number },
            NumberVerb::Timeout => Event::Timeout { seq: number },
        }
    }
}

/// A verb with the side and the port that it names, if it does.
#[derive(Clone, Copy)]
pub enum BareVerb {
    Connect { port: Port },
    DisconnectFilter { port: Port },
    DisconnectService { port: Port },
    RestartFilter,
    RestartService { port: Port },
}

impl BareVerb {
    /// Its event.
    pub fn event(self) -> Event
        ensures { result ≡ bare_event self }
    {
        match self {
            BareVerb::Connect { port } => Event::Connect { port },
            BareVerb::DisconnectFilter { port } => Event::DisconnectFilter { port },
            BareVerb::DisconnectService { port } => Event::DisconnectService { port },
            BareVerb::RestartFilter => Event::RestartFilter,
            BareVerb::RestartService { port } => Event::RestartService { port },
        }
    }
}
