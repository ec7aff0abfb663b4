ghost use Rattle.std.specs.Prelude.{◌≡◌};
ghost use Rattle.av_gate.specs.PortCounts.{count_at, no_counts, with_count};

use av_base::Port;

/// A count for each of the two ports.
#[derive(Clone, Copy, Debug, PartialEq, Eq)]
pub struct PortCounts {
    pub one: usize,
    pub two: usize,
}

impl PortCounts {
    /// Nothing at either port.
    pub fn none() -> PortCounts
        ensures { result ≡ no_counts }
    {
        PortCounts { one: 0, two: 0 }
    }

    /// The count of a port.
    pub fn at(self, port: Port) -> usize
        ensures { result ≡ count_at port self }
    {
        match port {
            Port::One => self.one,
            Port::Two => self.two,
        }
    }

    /// The same with another count of one port.
    pub fn with(self, port: Port, count: usize) -> PortCounts
        ensures { result ≡ with_count port count self }
    {
        match port {
            Port::One => PortCounts { one: count, ..self },
            Port::Two => PortCounts { two: count, ..self },
        }
    }
}
