//! When the place of the log's file is looked at.

ghost use Rattle.std.specs.Prelude.{◌≡◌};
ghost use Rattle.av_log.specs.Pace.{is_due};

/// Whether to look whether the file is still at its place, which was looked at last at this time, in milliseconds: once a second at most.
pub fn is_due(looked: Option<u64>, now: u64) -> bool
    ensures { result ≡ is_due looked now }
{
    match looked {
        None => true,
        Some(looked) => looked > now || now - looked >= 1_000,
    }
}
