//! What a move of a file keeps, whatever comes of its steps.
ghost use Rattle.av_quarantine.specs.Laws.{KeepsNames, MovesOnlyJudged, RemovesOnlyJudged};

/// The old name is removed only after the new one was made, and compared with the file that was judged. All names with a lower
/// number were taken.
pub fn removes_only_judged()
    ensures { RemovesOnlyJudged }
{}

/// A file is moved only by these steps.
pub fn moves_only_judged()
    ensures { MovesOnlyJudged }
{}

/// The file has a name at each step. If it is moved, it has its new name alone; if not, its old one.
pub fn keeps_names()
    ensures { KeepsNames }
{}
