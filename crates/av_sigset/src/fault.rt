ghost use Rattle.std.specs.Prelude.{◌≡◌};
ghost use Rattle.av_sigset.specs.Fault.{number_of};

use thiserror::Error;

/// What is wrong with a signature file, each kind under its number. docs/FORMATS.md has the order in which a line is judged.
#[derive(Clone, Copy, Debug, PartialEq, Eq)]
pub enum SetFaultKind {
    /// Line 1 is neither `avsig 1` nor `avsig 2`.
    Header = 1,
    /// Line 2 isn't `version` and a decimal number from 1 to 2^64 - 1.
    Version = 2,
    /// What stands before the first space isn't a name, or there is no space.
    Name = 3,
    /// What stands behind the space isn't pairs of hexadecimal digits.
    Hex = 4,
    /// The pattern has no byte, or more than 64.
    Length = 5,
    /// The name stood before.
    Duplicate = 6,
    /// It is signature 1,025, or the patterns have more than 16,384 bytes in all.
    TooMany = 7,
    /// No LF ends the line, or line 1 or 2 is missing.
    Unended = 8,
    /// The first and the last place at which a match may begin aren't two decimal numbers, the second at least the first
    /// and at most 1,048,575.
    Range = 9,
}

impl SetFaultKind {
    /// The number by which fault lines name the kind, from 1 to 9.
    pub fn number(self) -> u8
        ensures { result ≡ number_of self }
    {
        self as u8
    }
}

/// The first bad line of a signature file, counted from 1, and what is wrong with it. Of a set that is made of
/// patterns without names it is the line that the pattern would have in a file: signature i stands on line i + 3.
#[derive(Clone, Copy, Debug, PartialEq, Eq, Error)]
#[error("set line {line}: kind {}", .kind.number())]
pub struct SetFault {
    pub line: u64,
    pub kind: SetFaultKind,
}

/// Why a set is not published.
#[derive(Clone, Copy, Debug, PartialEq, Eq, Error)]
pub enum CatalogueFault {
    /// The version isn't above that of the set published last.
    #[error("OldVersion")]
    OldVersion,
    /// The catalogue holds 4,096 sets.
    #[error("CatalogueFull")]
    CatalogueFull,
}

/// A bad line.
pub fn bad_line(line: u64, kind: SetFaultKind) -> SetFault
    ensures { result ≡ record { line = line; kind = kind } }
{
    SetFault { line, kind }
}
