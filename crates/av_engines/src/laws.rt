//! What pins the texts of the engines.
ghost use Rattle.av_engines.specs.Examples.{AreWorked};

/// The worked run of both engines is what their definitions compute.
pub fn engines_are_worked()
    ensures { AreWorked }
{}
