ghost use Rattle.std.specs.Prelude.{◌≡◌};
ghost use Rattle.av_sigset.specs.Judge.{format_of, header_of};

/// The formats of a signature file, which its first line tells.
#[derive(Clone, Copy, Debug, PartialEq, Eq)]
pub enum Format {
    /// A line is a name and bytes: `avsig 1`.
    One,
    /// A line may name a span behind the bytes: `avsig 2`.
    Two,
}

/// The format whose first line this is.
pub fn format_of(line: &[u8]) -> Option<Format>
    ensures { result ≡ format_of line.now }
{
    if line == b"avsig 1".as_slice() {
        return Some(Format::One);
    }
    if line == b"avsig 2".as_slice() {
        return Some(Format::Two);
    }
    None
}

/// The first line of a file of this format.
pub fn header_of(format: Format) -> &'static [u8]
    ensures { result.now ≡ header_of format }
{
    match format {
        Format::One => b"avsig 1".as_slice(),
        Format::Two => b"avsig 2".as_slice(),
    }
}
