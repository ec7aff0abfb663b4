ghost use Rattle.std.specs.Prelude.{List};
ghost use Rattle.av_world.specs.Request.{Asks, Names};
ghost use Rattle.av_history.specs.declared.event.Event.{Event};

use super::serving::ServiceCall;
use super::stage::Stage;
use av_base::{Port, StreamId, Version};
use av_filter::FilterCall;
use av_history::event::Event;
use av_history::fault::StepFault;
use av_history::pattern::Patterns;

/// What an event asks for, its name looked up.
#[derive(Clone, Copy)]
pub enum Request<'a> {
    Publish {
        version: Version,
        patterns: &'a Patterns,
    },
    Filter {
        call: FilterCall<'a>,
    },
    Service {
        port: Port,
        call: ServiceCall<'a>,
    },
    /// Places are counted from 1.
    Down {
        place: u64,
    },
    Up {
        place: u64,
    },
    Run {
        place: u64,
    },
}

impl Stage {
    // The stream of a name: NoSuchName.
    fn named(&self, name: &[u8]) -> Result<StreamId, StepFault>
        ensures { Names self.now.volume.streams name.now result }
    {
        match self.volume().find(name) {
            Some(stream) => Ok(stream),
            None => Err(StepFault::NoSuchName),
        }
    }

    /// What an event asks for: NoSuchName. It costs the logarithm of the count of streams.
    #[tactic(auto, using(crate::proofs::RequestLemmas::connects), unfolding(av_history::specs::World::step_of))]
    pub fn request<'a>(&self, event: &'a Event) -> Result<Request<'a>, StepFault>
        ensures { (h : List Event) → Asks h self.now event.now result }
    {
        let call = match event {
            Event::Publish { version, patterns } => {
                return Ok(Request::Publish {
                    version: *version,
                    patterns,
                });
            }
            Event::Down { place } => return Ok(Request::Down { place: *place }),
            Event::Up { place } => return Ok(Request::Up { place: *place }),
            Event::Run { place } => return Ok(Request::Run { place: *place }),
            Event::Connect { port } => return Ok(Request::Service {
                port: *port,
                call: ServiceCall::Connect,
            }),
            Event::DisconnectService { port } => return Ok(Request::Service {
                port: *port,
                call: ServiceCall::Disconnect,
            }),
            Event::RestartService { port } => return Ok(Request::Service {
                port: *port,
                call: ServiceCall::Restart,
            }),
            Event::Create { name } => FilterCall::Create {
                name: name.as_slice(),
            },
            Event::Write {
                name,
                offset,
                bytes,
            } => FilterCall::Write {
                stream: self.named(name.as_slice())?,
                offset: *offset,
                bytes: bytes.as_slice(),
            },
            Event::Cut { name, length } => FilterCall::Cut {
                stream: self.named(name.as_slice())?,
                length: *length,
            },
            Event::Remove { name } => FilterCall::Remove {
                stream: self.named(name.as_slice())?,
            },
            Event::Open { name, least } => FilterCall::Open {
                stream: self
                    .volume()
                    .find(name.as_slice())
                    .unwrap_or(StreamId::new(0)),
                least: *least,
            },
            Event::Cleanup { name } => FilterCall::Cleanup {
                stream: self.named(name.as_slice())?,
            },
            Event::Timeout { seq } => FilterCall::Timeout { seq: *seq },
            Event::DisconnectFilter { port } => FilterCall::Disconnect { port: *port },
            Event::RestartFilter => FilterCall::Restart,
        };
        Ok(Request::Filter { call })
    }
}
