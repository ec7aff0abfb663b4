ghost use Rattle.std.specs.Prelude.{◌≡◌};
ghost use Rattle.av_base.specs.Port.{other, port_number, port_of};

/// One of the two places at which a scanning service connects to a filter. Frames write it as its number.
#[derive(Clone, Copy, Debug, PartialEq, Eq)]
pub enum Port {
    /// The one that questions go to where both are connected.
    One = 1,
    /// The spare.
    Two = 2,
}

impl Port {
    /// The number that stands for the port.
    pub fn number(self) -> u8
        ensures { result ≡ port_number self }
    {
        self as u8
    }

    /// The port of this number, where there is one.
    pub fn from_number(number: u8) -> Option<Port>
        ensures { result ≡ port_of number }
    {
        match number {
            1 => Some(Port::One),
            2 => Some(Port::Two),
            _ => None,
        }
    }

    /// The other port.
    pub fn other(self) -> Port
        ensures { result ≡ other self }
    {
        match self {
            Port::One => Port::Two,
            Port::Two => Port::One,
        }
    }
}
