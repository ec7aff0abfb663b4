ghost use Rattle.std.specs.Prelude.{◌≡◌};
ghost use Rattle.av_filter_table.specs.Ports.{is_open, least_port, none_open, with_port, without_port};

use av_base::Port;

/// Which of the two ports are connected.
#[derive(Clone, Copy, Debug, PartialEq, Eq)]
pub struct Ports {
    pub one: bool,
    pub two: bool,
}

impl Ports {
    /// Neither is connected.
    pub fn none() -> Ports
        ensures { result ≡ none_open }
    {
        Ports {
            one: false,
            two: false,
        }
    }

    /// Whether a port is connected.
    pub fn is_open(self, port: Port) -> bool
        ensures { result ≡ is_open port self }
    {
        match port {
            Port::One => self.one,
            Port::Two => self.two,
        }
    }

    /// The same with one port connected.
    pub fn with(self, port: Port) -> Ports
        ensures { result ≡ with_port port self }
    {
        match port {
            Port::One => Ports { one: true, ..self },
            Port::Two => Ports { two: true, ..self },
        }
    }

    /// The same without a port.
    pub fn without(self, port: Port) -> Ports
        ensures { result ≡ without_port port self }
    {
        match port {
            Port::One => Ports { one: false, ..self },
            Port::Two => Ports { two: false, ..self },
        }
    }

    /// The least connected port, where one is: questions are asked there.
    pub fn least(self) -> Option<Port>
        ensures { result ≡ least_port self }
    {
        if self.one {
            return Some(Port::One);
        }
        if self.two {
            return Some(Port::Two);
        }
        None
    }
}
