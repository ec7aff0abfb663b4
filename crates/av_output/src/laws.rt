//! What holds of the texts of every report.
ghost use Rattle.av_output.specs.Back.{JudgementTellsText, ObjectsTellText};

/// Text and JSON never disagree: the objects of a report lead back to its lines, and that of a judgement to its line.
pub fn objects_tell_text()
    ensures report { ObjectsTellText }
    ensures judgement { JudgementTellsText }
{}
