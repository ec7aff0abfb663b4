use crate::port_counts::PortCounts;
use av_base::Port;
use std::sync::Condvar;

/// Where those wait who wait for messages of a port.
#[derive(Drop)]
pub(crate) struct PortWaits {
    one: Condvar,
    two: Condvar,
}

impl PortWaits {
    pub(crate) fn new() -> PortWaits {
        PortWaits {
            one: Condvar::new(),
            two: Condvar::new(),
        }
    }

    /// Those who wait for messages of this port.
    pub(crate) fn at(&self, port: Port) -> &Condvar {
        match port {
            Port::One => &self.one,
            Port::Two => &self.two,
        }
    }

    /// Wakes those at whose port there are messages.
    pub(crate) fn wake(&self, messages: PortCounts) {
        for port in [Port::One, Port::Two] {
            if messages.at(port) > 0 {
                self.at(port).notify_all();
            }
        }
    }

    /// Wakes all.
    pub(crate) fn wake_all(&self) {
        self.one.notify_all();
        self.two.notify_all();
    }
}
