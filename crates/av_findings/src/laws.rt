//! What the list of all verdicts means, and worked examples of it.
ghost use Rattle.av_findings.specs.Examples.{AreExamples};
ghost use Rattle.av_findings.specs.Laws.{ListsExactly};

/// A hit is in the list exactly if its signature ends at that place, and at none before.
pub fn lists_exactly()
    ensures { ListsExactly }
{}

/// The worked examples.
pub fn examples()
    ensures { AreExamples }
{}
