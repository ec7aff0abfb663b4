//! Laws of what is heard, each the contract of a function that does nothing: a call hands its law to the caller.

ghost use Rattle.av_clamd.specs.Laws.{AsksAboutTheWhole, BeginsLittle, HandsNoPathOut, IsCutAnywhere, IsOkForCleanAlone, IsPathOkForCleanAlone, PartsAreTheWhole, StaysLess, StaysLittle};

/// What comes in two pieces is heard as what comes at once, wherever it is cut.
pub fn it_is_heard_however_it_is_cut()
    ensures { IsCutAnywhere }
{}

/// Whatever a client sends, at most a command and a content are kept of it, and each content that is asked about is within
/// its limit: 1,048,576 bytes, and 65,536 while contents go in parts. Of a content that comes in parts none is kept.
pub fn little_is_kept()
    ensures new { BeginsLittle }
    ensures stays { StaysLittle }
    ensures less { StaysLess }
{}

/// A content is asked about as it was sent where it is small enough to be collected. A larger one comes in parts where contents go
/// in parts: what came of it first and all bytes behind, up to its end, are what was sent.
pub fn contents_are_what_was_sent()
    ensures whole { AsksAboutTheWhole }
    ensures parts { PartsAreTheWhole }
{}

/// A door that refuses paths hands none out, whatever a client sends.
pub fn a_refused_path_is_not_handed_out()
    ensures { HandsNoPathOut }
{}

/// `stream: OK` is spelled for a content that was granted, and for nothing else, whatever a signature's name is. So is `PATH: OK`, and no
/// other path or name makes that reply.
pub fn ok_is_spelled_for_clean_alone()
    ensures stream { IsOkForCleanAlone }
    ensures path { IsPathOkForCleanAlone }
{}
