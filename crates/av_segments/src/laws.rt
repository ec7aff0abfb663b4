//! What joining means, and worked examples of it.
ghost use Rattle.av_segments.specs.Examples.{AreExamples};
ghost use Rattle.av_segments.specs.Laws.{SegmentsJoin, VerdictsJoin};

/// The verdict of a content that is cut in two.
pub fn verdicts_join()
    ensures { VerdictsJoin }
{}

/// What is kept of two stretches joins to what is kept of both in one.
pub fn segments_join()
    ensures { SegmentsJoin }
{}

/// The worked examples.
pub fn examples()
    ensures { AreExamples }
{}
