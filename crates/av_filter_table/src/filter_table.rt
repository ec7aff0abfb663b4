mod changing;
mod contexts;
mod opens;
mod questions;
mod readers;

ghost use Rattle.std.specs.Prelude.{IfOk, ◌≡◌, [], ◌≤◌};
ghost use Rattle.av_filter_table.specs.Table.{mounted};

use crate::asked::Asked;
use crate::ports::Ports;
use crate::stream_contexts::StreamContexts;
use crate::waits::Waits;
use av_base::{Limits, Mode, Version};
use av_cache::VerdictCache;
use av_context::ContextRef;
use av_numbered::{Bounded, Numbered};
use av_pend::PendedOpen;
use std::alloc::{AllocError, Global};
use std::marker::Model;

/// Where a filter keeps its table: questions and held opens as rows of slabs, found by number, with the context reference of
/// each question and each held open beside; the opens of one question as a chain; what is known of streams; the cache.
pub struct FilterTable {
    mode: Mode,
    limits: Limits,
    boot: u64,
    sequence: u64,
    connected: Ports,
    floor: Version,
    contexts: StreamContexts,
    questions: Bounded<Asked, ContextRef>,
    pended: Numbered<Waits, PendedOpen>,
    cache: VerdictCache,
}

impl Model for FilterTable {
    ghost use Rattle.av_filter_table.specs.Table.{Table};
    ghost use Rattle.av_filter_table.specs.FilterTable.{questions_of, pended_of, IsSound};
    ghost use Rattle.av_filter_table.specs.StreamContexts.{states};

    ghost Value = { Table };

    ghost view = { λ t. record {
      mode = t.mode;
      limits = t.limits;
      boot = t.boot;
      sequence = t.sequence;
      connected = t.connected;
      floor = t.floor;
      contexts = states t.contexts;
      questions = questions_of t.boot t.questions;
      pended = pended_of t.boot t.pended;
      cache = t.cache.entries;
    } };

    ghost invariant = { λ t. IsSound t.boot t.sequence t.cache.capacity t.limits t.questions t.pended t.contexts };
}

impl FilterTable {
    /// The table of a filter just mounted, for the boot of this number: nothing is held. The greatest part of its memory, the
    /// cache's, is taken here.
    pub fn new(
        alloc: Global,
        mode: Mode,
        limits: Limits,
        boot: u64,
    ) -> Result<FilterTable, AllocError>
        requires { 1 ≤ boot }
        ensures { IfOk result (λ table. table ≡ mounted mode limits boot) }
    {
        let cache = VerdictCache::new(alloc, limits.values().cache as usize)?;
        Ok(FilterTable {
            mode,
            limits,
            boot,
            sequence: 0,
            connected: Ports::none(),
            floor: Version::new(0),
            contexts: StreamContexts::new(alloc),
            questions: Bounded::new(alloc)?,
            pended: Numbered::new(alloc),
            cache,
        })
    }

    /// Ends the table, where no question runs and no open waits, and with it every context. The cost grows with the count of
    /// contexts, and a logarithm for each.
    pub fn end(self)
        requires questions { self.questions ≡ [] }
        requires pended { self.pended ≡ [] }
    {
        let FilterTable {
            mode: _,
            limits: _,
            boot: _,
            sequence: _,
            connected: _,
            floor: _,
            contexts,
            questions,
            pended,
            cache: _,
        } = self;
        contexts.end();
        questions.end();
        pended.end();
    }
}
