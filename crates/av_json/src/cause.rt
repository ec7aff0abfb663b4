ghost use Rattle.std.specs.Prelude.{◌≡◌};
ghost use Rattle.av_json.specs.Cause.{why_of};

use av_base::Cause;

/// A cause in words, as objects have it beside its number.
pub fn why(cause: Cause) -> &'static str
    ensures { result.now ≡ why_of cause }
{
    match cause {
        Cause::NoStream => "no stream",
        Cause::Infected => "infected",
        Cause::NotConnected => "not connected",
        Cause::Busy => "busy",
        Cause::TimedOut => "timed out",
        Cause::PortDisconnected => "service lost",
        Cause::ScanFailed => "scan failed",
        Cause::Unsettled => "unsettled",
        Cause::StreamRemoved => "removed",
        Cause::FilterRestart => "filter restarted",
    }
}
