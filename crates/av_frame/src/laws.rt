//! Laws of the grammar of frames, each the contract of a function that does nothing: a call hands its law to the caller.

ghost use Rattle.av_frame.specs.Laws.{BeginsWithOneFrame, FaultStays, FramesGoOn, HasOneSpelling, IsReadBack, NoFrameBeginsAnother, ReadsSpellings, SpellsOneList, SpellsOneMessage};

/// What is spelled is read back.
pub fn spelling_is_read_back()
    ensures read_back { IsReadBack }
    ensures exactly { ReadsSpellings }
{}

/// A message has one spelling, and a spelling one message.
pub fn one_spelling_is_one_message()
    ensures spelling { HasOneSpelling }
    ensures message { SpellsOneMessage }
{}

/// No frame is a proper prefix of another frame, so a stream of frames is cut in one way.
pub fn no_frame_begins_another()
    ensures prefix { NoFrameBeginsAnother }
    ensures stream { BeginsWithOneFrame }
{}

/// A string of bytes spells one list of frames. As more bytes come, the messages stay and others follow, until a fault is
/// met, which then stays.
pub fn bytes_spell_one_list()
    ensures list { SpellsOneList }
    ensures go_on { FramesGoOn }
    ensures fault { FaultStays }
{}
