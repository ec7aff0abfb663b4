ghost use Rattle.std.specs.Prelude.{◌≡◌};
ghost use Rattle.av_status.specs.Status.{graver_status, number_of};

/// How the program ends. The number is the process's exit status.
#[derive(Clone, Copy, Debug, PartialEq, Eq)]
pub enum Status {
    /// All was done.
    Done,
    /// The input was refused.
    Refused,
    /// The words of the command line were not understood.
    Usage,
    /// Memory was refused.
    Memory,
    /// A file or a stream failed.
    Device,
    /// All was done, and something is infected, of which the user wanted to be told so.
    Found,
    /// Something is infected, of which the user wanted to be told so, and some files were not scanned.
    FoundInPart,
}

impl Status {
    /// The exit status, from 0 to 6.
    pub fn number(self) -> u8
        ensures { result ≡ number_of self }
    {
        self as u8
    }

    /// The one of two statuses that has the greater number.
    pub fn or_graver(self, other: Status) -> Status
        ensures { result ≡ graver_status self other }
    {
        if self.number() < other.number() {
            other
        } else {
            self
        }
    }
}
