ghost use Rattle.av_sigset.specs.File.{JudgesFiles};

/// The law that a file is judged to be a set exactly where it spells that set: an `avsig 1` line, the version's line,
/// and a line for each signature, with names that differ and patterns in their ranges.
pub fn files_are_judged()
    ensures { JudgesFiles }
{}
