use av_script::RunFault;
use std::alloc::AllocError;
use thiserror::Error;

/// Why no picture of a script's run was written.
#[derive(Clone, Copy, Debug, PartialEq, Eq, Error)]
pub enum ChartFault {
    /// The script was not read: a read failed, or as many were made as were allowed. Nothing was written.
    #[error("device")]
    Read,
    /// The script is longer than 1,048,576 bytes. Nothing was written.
    #[error("script too long")]
    TooLong,
    /// This line is the first that is none of a script. Nothing was written.
    #[error("line {line}: bad script")]
    BadScript { line: u64 },
    /// No command stands in the lines that are to be drawn. Nothing was written.
    #[error("no command in these lines")]
    NoLines,
    /// Memory was refused. Nothing was written.
    #[error("no memory")]
    NoMemory,
    /// A write failed, or took no byte. A front of the picture was written.
    #[error("device")]
    Write,
}

impl From<AllocError> for ChartFault {
    ghost use Rattle.std.specs.Prelude.{◌≡◌};
    ghost use Rattle.av_chart.specs.declared.fault.ChartFault.TheVariants.{NoMemory};

    ghost from_gives = { λ _ e. e ≡ NoMemory };

    fn from(_e: AllocError) -> ChartFault {
        ChartFault::NoMemory
    }
}

impl From<RunFault> for ChartFault {
    ghost use Rattle.std.specs.Prelude.{◌≡◌};
    ghost use Rattle.av_chart.specs.Fault.{fault_of};

    ghost from_gives = { λ fault e. e ≡ fault_of fault };

    fn from(fault: RunFault) -> ChartFault {
        match fault {
            RunFault::Read | RunFault::Write => ChartFault::Read,
            RunFault::TooLong => ChartFault::TooLong,
            RunFault::BadScript { line } => ChartFault::BadScript { line },
            RunFault::NoMemory => ChartFault::NoMemory,
        }
    }
}
