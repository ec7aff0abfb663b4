//! What the definitions of a picture's texts give, as calls that do nothing.

ghost use Rattle.av_chart.specs.Escape.{EscapesAll};
ghost use Rattle.av_chart.specs.Examples.{WorkedExamples};
ghost use Rattle.av_chart.specs.OneBar.{IsWorked, OpensHaveOneBar};

/// Bytes that were escaped have no sign of XML but in one of its four entities, and are printable ASCII.
pub fn escaped_are_xml()
    ensures { EscapesAll }
{}

/// The definitions give lines of a stored picture, and what happens in small runs.
pub fn worked_examples()
    ensures { WorkedExamples }
{}

/// Over every run of a script: no two bars are of one open and none gets two answers, each bar and answer is of an open that was
/// submitted, and an open waits exactly where its bar has no end.
pub fn each_open_has_one_bar()
    ensures runs { OpensHaveOneBar }
    ensures worked { IsWorked }
{}
