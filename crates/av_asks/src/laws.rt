//! Laws of asks and answers, each the contract of a function that does nothing: a call hands its law to the caller.

ghost use Rattle.av_asks.specs.Spelling.{IsAnswer, IsAsk, answer_frame, ask_frame};
ghost use Rattle.av_asks.specs.Reading.{answer_front, ask_front};
ghost use Rattle.av_asks.specs.ContentAnswers.{IsContentAnswer, content_answer_front, content_frame};
ghost use Rattle.av_asks.specs.ContentLaws.{AsksAreReadBack, BeginsAreReadBack, EndsAreReadBack, IsCutAnywhere, PartsAreReadBack, WatchesAreReadBack};
ghost use Rattle.av_asks.specs.Laws.{FaultStays, GivesOneThing, GivesSomething, GoesOn, IsReadBack, ReadsSpellings};

/// An ask that is spelled is read back, and what is read as an ask is spelled so.
pub fn asks_are_read_back()
    ensures read_back { IsReadBack ask_front ask_frame IsAsk }
    ensures exactly { ReadsSpellings ask_front ask_frame IsAsk }
{}

/// An answer that is spelled is read back, and what is read as an answer is spelled so.
pub fn answers_are_read_back()
    ensures read_back { IsReadBack answer_front answer_frame IsAnswer }
    ensures exactly { ReadsSpellings answer_front answer_frame IsAnswer }
{}

/// A stream of asks gives one list of asks and one end, and pushed in pieces the same as at once.
pub fn asks_come_however_they_are_cut()
    ensures something { GivesSomething ask_front }
    ensures one_thing { GivesOneThing ask_front }
    ensures goes_on { GoesOn ask_front }
    ensures fault { FaultStays ask_front }
{}

/// A stream of answers gives one list of answers and one end, and pushed in pieces the same as at once.
pub fn answers_come_however_they_are_cut()
    ensures something { GivesSomething answer_front }
    ensures one_thing { GivesOneThing answer_front }
    ensures goes_on { GoesOn answer_front }
    ensures fault { FaultStays answer_front }
{}

/// What a client says in two pieces is heard as what it says at once, wherever it is cut.
pub fn clients_are_heard_however_they_are_cut()
    ensures { IsCutAnywhere }
{}

/// A content in parts is heard as it was spelled, and what asks about another one or for a newer version within it as outside.
pub fn contents_are_read_back()
    ensures begins { BeginsAreReadBack }
    ensures parts { PartsAreReadBack }
    ensures ends { EndsAreReadBack }
    ensures asks { AsksAreReadBack }
    ensures watches { WatchesAreReadBack }
{}

/// An answer to a content in parts that is spelled is read back.
pub fn content_answers_are_read_back()
    ensures { IsReadBack content_answer_front content_frame IsContentAnswer }
{}

/// A stream of such answers gives one list of answers and one end, and pushed in pieces the same as at once.
pub fn content_answers_come_however_they_are_cut()
    ensures something { GivesSomething content_answer_front }
    ensures one_thing { GivesOneThing content_answer_front }
    ensures goes_on { GoesOn content_answer_front }
    ensures fault { FaultStays content_answer_front }
{}
