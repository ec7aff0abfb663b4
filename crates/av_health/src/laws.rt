//! What holds of every report.
ghost use Rattle.av_health.specs.Report.{ReportsAreReadBack};

/// The bytes of a report are read as that report.
pub fn reports_are_read_back()
    ensures { ReportsAreReadBack }
{}
