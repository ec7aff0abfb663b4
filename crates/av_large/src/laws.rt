//! Laws, each the contract of a function that does nothing: a call hands its law to the caller.

ghost use Rattle.av_large.specs.Laws.{LargeAsksAreAnsweredOnce, NothingFollowsTheEnd, NumbersRise, WordsGrantAtTheFloor};
ghost use Rattle.av_large.specs.Promise.{JudgedGrantsAreClean, JudgesSayRight, LargeGrantsAreClean};

/// Only a word of the service grants, and each grant names the guard's floor of its moment.
pub fn words_grant_at_the_floor()
    ensures { WordsGrantAtTheFloor }
{}

/// Of a client that stays, each content that it began was told, or has no answer yet, and only one of these.
pub fn large_asks_are_answered_once()
    ensures { LargeAsksAreAnsweredOnce }
{}

/// Numbers rise, so none is given twice. Behind the end of a content nothing of it is sent but that it is dropped, and behind that
/// nothing.
pub fn numbers_rise()
    ensures rise { NumbersRise }
    ensures follow { NothingFollowsTheEnd }
{}

/// A grant is of a content that its client wrote whole under its tag, and that is clean under a set of the version that is named.
/// It is assumed that each word was right of orders that were sent over its connection, as each word of a judge is that got them. Where
/// a judge of av_parts said each, nothing more is assumed.
pub fn large_grants_are_clean()
    ensures grants { LargeGrantsAreClean }
    ensures judges { JudgesSayRight }
    ensures together { JudgedGrantsAreClean }
{}
