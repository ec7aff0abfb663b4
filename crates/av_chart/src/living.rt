//! Where lives are found that have no end.

ghost use Rattle.std.specs.Prelude.{◌≡◌, ◌<◌, None, Some, is_some, IfNone, IfSome, OnErr, OnOk};
ghost use Rattle.av_base.specs.declared.port.Port.TheVariants.{One, Two};
ghost use Rattle.av_chart.specs.Living.{HasNone, Stays, Writes, count_at, place_at};

use av_base::{MessageId, Port};
use std::alloc::{AllocError, Global};
use std::collections::BTreeMap;

/// The places of lives, by port and id.
#[derive(Drop)]
pub struct Living {
    one: BTreeMap<MessageId, usize>,
    two: BTreeMap<MessageId, usize>,
}

impl Living {
    /// Nothing is found.
    pub fn new(alloc: Global) -> Living
        ensures one { HasNone (place_at result) One }
        ensures two { HasNone (place_at result) Two }
    {
        Living {
            one: BTreeMap::new(alloc),
            two: BTreeMap::new(alloc),
        }
    }

    /// Whether this one is found. It costs a logarithm.
    pub fn has(&self, port: Port, id: MessageId) -> bool
        ensures { result ≡ is_some (place_at self.now port id) }
    {
        match port {
            Port::One => self.one.contains_key(&id),
            Port::Two => self.two.contains_key(&id),
        }
    }

    /// This one is found at a place from now on.
    pub fn put(&mut self, port: Port, id: MessageId, place: usize) -> Result<(), AllocError>
        ensures ok { OnOk result (Writes (place_at self.old) (place_at self.new) port id (Some place)) }
        ensures err { OnErr result (Stays (place_at self.old) (place_at self.new)) }
    {
        match port {
            Port::One => self.one.insert(id, place)?,
            Port::Two => self.two.insert(id, place)?,
        };
        Ok(())
    }

    /// The place at which this one is found, no more from now on.
    pub fn take(&mut self, port: Port, id: MessageId) -> Option<usize>
        ensures place { result ≡ place_at self.old port id }
        ensures rest { Writes (place_at self.old) (place_at self.new) port id None }
    {
        match port {
            Port::One => self.one.remove(&id),
            Port::Two => self.two.remove(&id),
        }
    }

    /// The same of the first one of a port.
    pub fn take_first(&mut self, port: Port) -> Option<(MessageId, usize)>
        ensures place { IfSome result (λ r. place_at self.old port r.0 ≡ Some r.1) }
        ensures rest { IfSome result (λ r. Writes (place_at self.old) (place_at self.new) port r.0 None) }
        ensures fewer { IfSome result (λ r. count_at self.new port < count_at self.old port) }
        ensures none { IfNone result (HasNone (place_at self.old) port) }
        ensures same { IfNone result (Stays (place_at self.old) (place_at self.new)) }
    {
        match port {
            Port::One => self.one.pop_first(),
            Port::Two => self.two.pop_first(),
        }
    }
}
