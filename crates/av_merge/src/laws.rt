//! The laws of a merge.
ghost use Rattle.av_merge.specs.Laws.{ClashesAreTrue, CleanUnderEach, LooksForTheSame, MayStandTogether, OccursUnderOne};

/// The merge looks for exactly what one of the sets looks for.
pub fn looks_for_the_same()
    ensures { LooksForTheSame }
{}

/// A pattern of the merge occurs in a content exactly where a pattern of one of the sets does.
pub fn occurs_under_one()
    ensures { OccursUnderOne }
{}

/// A content is clean under the merge exactly if it is clean under each of the sets.
pub fn clean_under_each()
    ensures { CleanUnderEach }
{}

/// The merge of sets that may each stand in a signature file may stand in one.
pub fn may_stand_together()
    ensures { MayStandTogether }
{}

/// A clash is of the signature that it numbers with one of the set that it numbers.
pub fn clashes_are_true()
    ensures { ClashesAreTrue }
{}
