//! What the thread of a service's first connection does for the second one: it tells that the service has greeted, and hands over each
//! set that is published.

use crate::duplex::{Duplex, Hearing};
use crate::second::Second;
use crate::watch::Watch;
use av_base::{Refusal, Version};
use av_engines::Fresh;
use av_sigset::{CatalogueFault, SignatureSet};
use std::alloc::Global;
use std::fs::Files;
use std::io;
use std::io::{Read, Write};
use std::sync::Wait;
use std::time::Clock;

/// The reading end of the first connection. Before its first read the greeting goes out.
#[derive(Drop)]
pub(crate) struct Greeting<'a, 'b, R> {
    pub(crate) rt: &'a R,
    pub(crate) duplex: &'b Duplex<'a, R>,
    pub(crate) second: Option<&'b Second>,
}

impl<'a, 'b, R: Clock + Wait> Read for Greeting<'a, 'b, R> {
    fn read(&mut self, buf: &mut [u8]) -> io::Result<usize> {
        let mut hearing = Hearing {
            duplex: self.duplex,
        };
        let Some(second) = self.second else {
            return hearing.read(buf);
        };
        if second.is_silent() {
            self.duplex.finish()?;
            second.greeted(self.rt);
        }
        hearing.read(buf)
    }
}

/// Newer sets, of which each that is published is handed over.
#[derive(Drop)]
pub(crate) struct Sharing<'a, 'b, R, E> {
    pub(crate) rt: &'a R,
    pub(crate) alloc: Global,
    pub(crate) watch: Watch<'a, 'b, R, E>,
    pub(crate) second: Option<&'b Second>,
    // A copy of the set that came last.
    pub(crate) kept: Option<SignatureSet>,
}

impl<'a, 'b, R: Files + Clock + Wait, E: Write> Fresh for Sharing<'a, 'b, R, E> {
    ghost use Rattle.std.specs.Prelude.{None};

    ghost coming = { λ _. None };

    fn next(&mut self) -> Option<SignatureSet> {
        if let Some(second) = self.second {
            if second.was_bad() {
                self.watch.say_bad_frame();
            }
        }
        let set = self.watch.next()?;
        self.kept = if self.second.is_some() {
            set.copied(self.alloc).ok()
        } else {
            None
        };
        Some(set)
    }

    fn published(&mut self, version: Version) {
        self.watch.published(version);
        if let Some(second) = self.second {
            second.published(self.rt, self.kept.take());
        }
    }

    fn refused(&mut self, version: Version, why: Refusal<CatalogueFault>) {
        self.kept = None;
        self.watch.refused(version, why);
    }
}
