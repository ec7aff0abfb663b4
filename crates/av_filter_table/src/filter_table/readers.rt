ghost use Rattle.std.specs.Prelude.{◌≡◌, length, ◌≤◌};
ghost use Rattle.av_base.specs.Limits.{AreInRange};
ghost use Rattle.av_filter_table.specs.FilterTable.{IsRising, open_numbers};
ghost use Rattle.av_numbered.specs.Numbered.{IsAscending};
ghost use Rattle.av_filter_table.specs.Orderly.{IsOrderly};
ghost use Rattle.av_filter_table.specs.Table.{mounted, raised};

use super::FilterTable;
use crate::ports::Ports;
use av_base::{Limits, Mode, Version};
use av_cache::VerdictCache;

impl FilterTable {
    /// What becomes of an open that can't be judged.
    pub fn mode(&self) -> Mode
        ensures { result ≡ self.now.mode }
    {
        self.mode
    }

    /// The limits, all in range.
    pub fn limits(&self) -> Limits
        ensures value { result ≡ self.now.limits }
        ensures in_range { AreInRange self.now.limits }
    {
        let _in_range = self.limits.values();
        self.limits
    }

    /// The number of the boot, which each id of a question has.
    pub fn boot(&self) -> u64
        ensures value { result ≡ self.now.boot }
        ensures mounted { 1 ≤ self.now.boot }
        ensures orderly { IsOrderly self.now }
    {
        let _numbers_ascend = self.questions.len();
        let _streams_ascend = self.contexts.len();
        self.boot
    }

    /// The number of the last question.
    pub fn sequence(&self) -> u64
        ensures { result ≡ self.now.sequence }
    {
        self.sequence
    }

    /// Which ports are connected.
    pub fn connected(&self) -> Ports
        ensures { result ≡ self.now.connected }
    {
        self.connected
    }

    /// Notes which ports are connected from now on.
    pub fn set_connected(&mut self, connected: Ports)
        ensures { self.new ≡ record self.old { connected = connected } }
    {
        self.connected = connected;
    }

    /// The floor: no version below it grants.
    pub fn floor(&self) -> Version
        ensures { result ≡ self.now.floor }
    {
        self.floor
    }

    /// Raises the floor to a version, where that is higher.
    pub fn raise(&mut self, version: Version)
        ensures { self.new ≡ raised version self.old }
    {
        if self.floor.get() < version.get() {
            self.floor = version;
        }
    }

    /// The verdicts that were kept, to be read.
    pub fn cache(&self) -> &VerdictCache
        ensures { result.now ≡ record { capacity = self.now.limits.cache; entries = self.now.cache } }
    {
        &self.cache
    }

    /// How many streams have a context. At once.
    pub fn context_count(&self) -> usize
        ensures len { result ≡ length self.now.contexts }
        ensures ascend { IsAscending self.now.contexts }
    {
        self.contexts.len()
    }

    /// How many questions run.
    pub fn question_count(&self) -> usize
        ensures { result ≡ length self.now.questions }
    {
        self.questions.len()
    }

    /// How many opens are held.
    pub fn pended_count(&self) -> usize
        ensures len { result ≡ length self.now.pended }
        ensures ascend { IsRising (open_numbers self.now.pended) }
    {
        self.pended.len()
    }
}
