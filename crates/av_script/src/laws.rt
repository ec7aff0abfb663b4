//! What worked scripts print.
ghost use Rattle.av_script.specs.PortExamples.{AreExamples};
ghost use Rattle.av_script.specs.PortScripts.{AreWorked as ArePrinted};

/// What worked scripts print where a spare is connected, from their text to each line; what is held and asked behind them, what
/// finishes them, and that the audits of three sides can be legal.
pub fn worked_ports()
    ensures printed { ArePrinted }
    ensures held { AreExamples }
{}
