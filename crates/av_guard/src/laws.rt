//! What holds of every ask, and of every list of calls.
ghost use Rattle.av_guard.specs.Answering.{AsksAreAnsweredOnce};
ghost use Rattle.av_guard.specs.Laws.{OpensItsBytes};
ghost use Rattle.av_guard.specs.Run.{GuardsHaveHistory};

/// The stream that is opened for a content that is kept has exactly the bytes that were asked about, whatever the hash.
pub fn asks_open_their_bytes()
    ensures { OpensItsBytes }
{}

/// Of every list of calls of a guard that was just made, each as its contract says: there is a history of its filter, a legal audit
/// that leads to the guard's table and volume, whose messages are those that the calls gave out. Each answer that they told is to
/// an ask that was taken, by its client and tag; and a grant stands in the history, of generation 2 of a stream whose content of
/// that generation is the one that was asked about; and so does an answer that lets an open through unscanned.
pub fn guards_have_history()
    ensures { GuardsHaveHistory }
{}

/// Of every list of calls of a guard that was just made, and each client that has not left: as often as it asked under a tag, and was
/// not refused, it was told under it or waits, each ask in one of these two ways.
pub fn asks_are_answered_once()
    ensures { AsksAreAnsweredOnce }
{}
