//! Laws of both readers and of the judge, each the contract of a function that does nothing: a call hands its law to the caller.

ghost use Rattle.av_parts.specs.Course.{BringsBytewise, HoldsFew, JudgesAreRight};
ghost use Rattle.av_parts.specs.Heard;
ghost use Rattle.av_parts.specs.Listening.{IsCutAnywhere};
ghost use Rattle.av_parts.specs.ReadBack.{KeepsFewWords, KeepsLittle, OrdersAreReadBack, WordsAreReadBack};
ghost use Rattle.av_parts.specs.Serving.{AreOneStream};
ghost use Rattle.av_parts.specs.WordsHeard;

/// Orders that come in two pieces are heard as those that come at once, wherever they are cut.
pub fn orders_are_heard_however_they_are_cut()
    ensures cut { IsCutAnywhere Heard.heard_of }
    ensures bytes { BringsBytewise }
{}

/// Words that come in two pieces are heard as those that come at once, wherever they are cut.
pub fn words_are_heard_however_they_are_cut()
    ensures { IsCutAnywhere WordsHeard.heard_of }
{}

/// An order whose frame is written is read as itself.
pub fn orders_are_read_back()
    ensures { OrdersAreReadBack }
{}

/// What a service says is read as itself, if its fields are in range: the greeting first, and words after it.
pub fn words_are_read_back()
    ensures { WordsAreReadBack }
{}

/// Whatever comes, a reader keeps less than one front of a frame.
pub fn little_is_kept()
    ensures orders { KeepsLittle }
    ensures words { KeepsFewWords }
{}

/// Each word that a judge says was right of the orders that had come.
pub fn judges_are_right()
    ensures { JudgesAreRight }
{}

/// A judge holds 4,096 contents at most.
pub fn judges_hold_few()
    ensures { HoldsFew }
{}

/// However what comes is cut into reads, the orders that are obeyed are those of the whole.
pub fn reads_are_one_stream()
    ensures { AreOneStream }
{}
