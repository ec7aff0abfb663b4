ghost use Rattle.std.specs.Prelude.{◌≡◌, ◌↔◌, IsSome, IfSome};
ghost use Rattle.av_base.specs.Cause.{number_of, IsCauseNumber};

/// Why an open was not granted. Scripts print a cause as its number.
#[derive(Clone, Copy, Debug, PartialEq, Eq)]
pub enum Cause {
    /// There is no such stream.
    NoStream = 1,
    /// A signature occurs in its content.
    Infected = 2,
    /// No scanning service is connected.
    NotConnected = 3,
    /// Pended opens or questions are at their limit, or the numbers of questions are spent.
    Busy = 4,
    /// The scan was not answered in time.
    TimedOut = 5,
    /// The scanning service was lost while the scan ran.
    PortDisconnected = 6,
    /// The scanning service could not scan.
    ScanFailed = 7,
    /// The content was scanned anew eight times, and was overtaken each time.
    Unsettled = 8,
    /// The stream was removed while the scan ran.
    StreamRemoved = 9,
    /// The filter was restarted while the scan ran.
    FilterRestart = 10,
}

impl Cause {
    /// The number that stands for the cause, from 1 to 10.
    pub fn number(self) -> u8
        ensures { result ≡ number_of self }
    {
        self as u8
    }

    /// The cause of this number, where there is one.
    pub fn from_number(number: u8) -> Option<Cause>
        ensures some { IsSome result ↔ IsCauseNumber number }
        ensures value { IfSome result (λ cause. number_of cause ≡ number) }
    {
        match number {
            1 => Some(Cause::NoStream),
            2 => Some(Cause::Infected),
            3 => Some(Cause::NotConnected),
            4 => Some(Cause::Busy),
            5 => Some(Cause::TimedOut),
            6 => Some(Cause::PortDisconnected),
            7 => Some(Cause::ScanFailed),
            8 => Some(Cause::Unsettled),
            9 => Some(Cause::StreamRemoved),
            10 => Some(Cause::FilterRestart),
            _ => None,
        }
    }
}
