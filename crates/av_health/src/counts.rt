//! How many asks there were, and how they were answered.

ghost use Rattle.std.specs.Prelude.{◌≡◌};
ghost use Rattle.av_health.specs.Counts.{asked, dropped, timed_out, told};

use av_base::Cause;
use av_log::Judged;

/// Numbers since a guard began. None goes past the greatest.
#[derive(Clone, Copy, Debug, PartialEq, Eq)]
pub struct Counts {
    /// Contents that were asked about.
    pub asks: u64,
    /// Answers that granted: a content is clean under the newest set.
    pub grants: u64,
    /// Answers that denied, infected contents among them.
    pub denials: u64,
    /// Answers that let a content through which nobody judged.
    pub unscanned: u64,
    /// Of the last two, those whose time was up.
    pub timeouts: u64,
    /// Lines of the log, or for standard error, that were dropped.
    pub dropped_lines: u64,
}

impl Counts {
    /// Nothing was asked yet.
    pub fn new() -> Counts
        ensures { result ≡ record { asks = 0; grants = 0; denials = 0; unscanned = 0; timeouts = 0; dropped_lines = 0 } }
    {
        Counts {
            asks: 0,
            grants: 0,
            denials: 0,
            unscanned: 0,
            timeouts: 0,
            dropped_lines: 0,
        }
    }

    /// A content is asked about.
    pub fn asked(&mut self)
        ensures { self.new ≡ asked self.old }
    {
        self.asks = self.asks.saturating_add(1);
    }

    /// An answer is told.
    pub fn told(&mut self, judged: Judged)
        ensures { self.new ≡ told judged self.old }
    {
        match judged {
            Judged::Granted { .. } => self.grants = self.grants.saturating_add(1),
            Judged::Infected { .. } => self.denials = self.denials.saturating_add(1),
            Judged::Denied { cause } => {
                self.denials = self.denials.saturating_add(1);
                self.timed_out(cause);
            }
            Judged::Unscanned { cause } => {
                self.unscanned = self.unscanned.saturating_add(1);
                self.timed_out(cause);
            }
            Judged::LargeDenied { .. } => self.denials = self.denials.saturating_add(1),
            Judged::LargeUnscanned { .. } => self.unscanned = self.unscanned.saturating_add(1),
        }
    }

    fn timed_out(&mut self, cause: Cause)
        ensures { self.new ≡ timed_out cause self.old }
    {
        if cause == Cause::TimedOut {
            self.timeouts = self.timeouts.saturating_add(1);
        }
    }

    /// So many lines were dropped.
    pub fn dropped(&mut self, lines: u64)
        ensures { self.new ≡ dropped lines self.old }
    {
        self.dropped_lines = self.dropped_lines.saturating_add(lines);
    }
}
