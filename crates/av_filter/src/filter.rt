ghost use Rattle.std.specs.Prelude.{◌≡◌, ◌↔◌, [], Ok, Err, IsOk, IfErr, IfOk, OnErr, OnOk, length};
ghost use Rattle.av_base.specs.Answers.{Reads};
ghost use Rattle.av_filter.specs.Call.{Meets, MeetsAlways, Reacts};
ghost use Rattle.av_filter.specs.Changing.{changes, cleaned};
ghost use Rattle.av_filter.specs.Conduct.{Changes, Opens, TimesOut, disconnects, filter_refusal, filter_step, restarts};
ghost use Rattle.av_filter.specs.Fit.{Fits, IsCoherent, RunOnOpen};
ghost use Rattle.av_filter.specs.Opening.{opened};
ghost use Rattle.av_filter.specs.Receiving.{receives};
ghost use Rattle.av_filter.specs.Verdict.{verdict_of};
ghost use Rattle.av_filter_table.specs.Ports.{is_open};
ghost use Rattle.av_filter_table.specs.Table.{context_of, mounted};
ghost use Rattle.av_store.specs.Files.{Cut, Remove, Write};
ghost use Rattle.av_store.specs.Rows.{stream_at};
ghost use Rattle.av_store.specs.Store.{mount_of};

use crate::ending_all::{self, mount_next};
use crate::fault::FilterFault;
use crate::out::Out;
use crate::timing_out::time_out;
use crate::{changing, losing, opening, receiving};
use av_base::{Limits, Mode, Port, Refusal, Refused, StreamId, Verdict, Version};
use av_cache::VerdictCache;
use av_context::ContextState;
use av_filter_table::answering::abandon;
use av_filter_table::{FilterTable, Rewriting};
use av_frame::Message;
use av_store::{BootSpent, Volume};
use std::alloc::{AllocError, Global};
use std::marker::Model;

/// The filter of one volume. Each event is given the volume that it was mounted on; where an event is refused, for a fault or
/// for want of memory, filter and volume are as before. A filter holds opens that are owed an answer, so it can't be let go:
/// `release` or `abandon` ends it.
pub struct Filter {
    table: FilterTable,
}

impl Model for Filter {
    ghost use Rattle.av_filter.specs.Fit.{IsCoherent, RunOnOpen};
    ghost use Rattle.av_filter_table.specs.Table.{Table};

    ghost Value = { Table };

    ghost view = { λ f. f.table };

    ghost invariant = { λ f. IsCoherent f.table × RunOnOpen f.table };
}

impl Filter {
    /// A filter of a volume, in the volume's next boot: BootSpent, NoMemory. It knows of no stream, and no service is
    /// connected. Most of its memory, the cache's, is taken here.
    pub fn mount(
        alloc: Global,
        volume: &mut Volume,
        mode: Mode,
        limits: Limits,
    ) -> Result<Filter, Refusal<BootSpent>>
        ensures ok { IfOk result (λ f. (f ≡ mounted mode limits volume.new.boot)
            × (mount_of volume.old ≡ Ok (volume.new.boot, volume.new))) }
        ensures err { OnErr result (volume.new ≡ volume.old) }
        ensures why { IfErr result (λ e. Reads (Err e) (mount_of volume.old)) }
        ensures fits { IfOk result (λ f. Fits f volume.new) }
    {
        let last = volume.boot();
        if last == u64::MAX {
            return Err(Refusal::Fault(BootSpent));
        }
        let table = FilterTable::new(alloc, mode, limits, last + 1)?;
        mount_next(volume);
        Ok(Filter { table })
    }

    /// An open of a stream, which no version below `least` may grant: OpensSpent, NoMemory. It is answered at once, by what is
    /// known of the stream's present content, or it is held until a question of it ends. Its note has its number. The cost
    /// grows with the logarithm of the counts of streams, questions and held opens.
    #[tactic(auto, unfolding(crate::specs::Conduct::filter_refusal))]
    pub fn open(
        &mut self,
        alloc: Global,
        volume: &mut Volume,
        stream: StreamId,
        least: Version,
    ) -> Result<Out, Refusal<FilterFault>>
        requires fits { Fits self.old volume.old }
        ensures event { Meets self.old volume.old self.new volume.new result
            (filter_refusal self.old volume.old (Opens stream least)) (opened self.old volume.old stream least) }
        ensures fits { OnOk result (Fits self.new volume.new) }
    {
        if volume.opens_left() == 0 {
            return Err(Refusal::Fault(FilterFault::OpensSpent));
        }
        let out = opening::open(&mut self.table, alloc, volume, stream, least)?;
        opening::take_number(volume);
        Ok(out)
    }

    /// Writes bytes over those of a stream from `offset` on, as the volume does: the volume's faults, NoMemory. What is known
    /// of the stream is gone, and a question that runs of it is asked again. The cost is that of the volume, and a logarithm
    /// for each open that waits for the stream.
    #[tactic(auto, unfolding(crate::specs::Conduct::filter_refusal, crate::specs::Changing::changes))]
    pub fn write(
        &mut self,
        alloc: Global,
        volume: &mut Volume,
        stream: StreamId,
        offset: u64,
        bytes: &[u8],
    ) -> Result<Out, Refusal<FilterFault>>
        requires fits { Fits self.old volume.old }
        ensures event { Meets self.old volume.old self.new volume.new result (filter_refusal self.old volume.old
            (Changes (Write stream offset bytes.now))) (changes self.old volume.old (Write stream offset bytes.now)) }
        ensures fits { OnOk result (Fits self.new volume.new) }
    {
        let rewriting = Rewriting::Write { offset, bytes };
        changing::rewrite(&mut self.table, alloc, volume, stream, rewriting)
    }

    /// Keeps the first `length` bytes of a stream alone, as the volume does: the volume's faults, NoMemory. Else as `write`.
    #[tactic(auto, unfolding(crate::specs::Conduct::filter_refusal, crate::specs::Changing::changes))]
    pub fn cut(
        &mut self,
        alloc: Global,
        volume: &mut Volume,
        stream: StreamId,
        length: u64,
    ) -> Result<Out, Refusal<FilterFault>>
        requires fits { Fits self.old volume.old }
        ensures event { Meets self.old volume.old self.new volume.new result (filter_refusal self.old volume.old
            (Changes (Cut stream length))) (changes self.old volume.old (Cut stream length)) }
        ensures fits { OnOk result (Fits self.new volume.new) }
    {
        let rewriting = Rewriting::Cut { length };
        changing::rewrite(&mut self.table, alloc, volume, stream, rewriting)
    }

    /// Takes a stream away, as the volume does: NoStream, NoMemory. Its opens are denied. The cost is a logarithm, and one
    /// more for each open that waited for the stream.
    pub fn remove(
        &mut self,
        alloc: Global,
        volume: &mut Volume,
        stream: StreamId,
    ) -> Result<Out, Refusal<FilterFault>>
        requires fits { Fits self.old volume.old }
        ensures event { Meets self.old volume.old self.new volume.new result
            (filter_refusal self.old volume.old (Changes (Remove stream))) (changes self.old volume.old (Remove stream)) }
        ensures fits { OnOk result (Fits self.new volume.new) }
    {
        changing::remove(&mut self.table, alloc, volume, stream)
    }

    /// The last of those who wrote to a stream has closed it: it is asked about now, where it was written and a question can
    /// be asked. At the cost of a logarithm.
    pub fn cleanup(
        &mut self,
        alloc: Global,
        volume: &Volume,
        stream: StreamId,
    ) -> Result<Out, AllocError>
        requires fits { Fits self.old volume.now }
        ensures event { MeetsAlways self.old volume.now self.new volume.now result
            (cleaned self.old volume.now stream (stream_at stream volume.now.streams)) }
        ensures fits { OnOk result (Fits self.new volume.now) }
    {
        changing::clean_up(&mut self.table, alloc, volume, stream)
    }

    /// A message of the scanning service; those that only a filter sends are noted as Ignored. A read costs the bytes that it
    /// sends, a reply a logarithm for each open that it answers.
    pub fn message(
        &mut self,
        alloc: Global,
        volume: &Volume,
        message: &Message,
    ) -> Result<Out, AllocError>
        requires fits { Fits self.old volume.now }
        ensures event { MeetsAlways self.old volume.now self.new volume.now result (receives self.old volume.now message.now) }
        ensures fits { OnOk result (Fits self.new volume.now) }
    {
        receiving::receive(&mut self.table, alloc, volume, message)
    }

    /// The time of the question of this number in this boot is up. It costs a logarithm for each open that it answers.
    #[tactic(auto, unfolding(crate::specs::Conduct::filter_step))]
    pub fn timeout(&mut self, alloc: Global, volume: &Volume, seq: u64) -> Result<Out, AllocError>
        requires fits { Fits self.old volume.now }
        ensures event { MeetsAlways self.old volume.now self.new volume.now result
            (filter_step self.old volume.now (TimesOut seq)) }
        ensures fits { OnOk result (Fits self.new volume.now) }
    {
        time_out(&mut self.table, alloc, volume, seq)
    }

    /// The service of a port is lost. Where the other port is connected, each question of the lost one is asked again there, in
    /// the order of their ids, for those of its opens that have a rescan left; else every question ends, and every open is answered
    /// by the mode. It costs a logarithm for each question and open, and the count of all questions.
    pub fn disconnect(
        &mut self,
        alloc: Global,
        volume: &Volume,
        port: Port,
    ) -> Result<Out, AllocError>
        requires fits { Fits self.old volume.now }
        ensures event { MeetsAlways self.old volume.now self.new volume.now result (disconnects self.old volume.now port) }
        ensures fits { OnOk result (Fits self.new volume.now) }
    {
        losing::disconnect(&mut self.table, alloc, volume, port)
    }

    /// Mounts the filter anew, in its place: BootSpent, NoMemory. Every open is answered by the mode, and nothing is known
    /// any more. It costs a logarithm for each open and question, and a new cache.
    pub fn remount(&mut self, alloc: Global, volume: &mut Volume) -> Result<Out, Refusal<BootSpent>>
        ensures ok { IfOk result (λ out. Reacts out self.new volume.new (restarts self.old volume.old)) }
        ensures err { OnErr result ((self.new ≡ self.old) × (volume.new ≡ volume.old)) }
        ensures why { IfErr result (λ e. Reads (Err e) (mount_of volume.old)) }
        ensures fits { OnOk result (Fits self.new volume.new) }
    {
        ending_all::remount(&mut self.table, alloc, volume)
    }

    /// Mounts the filter anew, as `remount` does: BootSpent, NoMemory, the filter handed back.
    pub fn restart(
        self,
        alloc: Global,
        volume: &mut Volume,
    ) -> Result<(Filter, Out), Refused<Filter, BootSpent>>
        ensures ok { IfOk result (λ r. Reacts r.1 r.0 volume.new (restarts self volume.old)) }
        ensures err { IfErr result (λ e. (e.value ≡ self) × (volume.new ≡ volume.old)) }
        ensures why { IfErr result (λ e. Reads (Err e.why) (mount_of volume.old)) }
        ensures fits { IfOk result (λ r. Fits r.0 volume.new) }
    {
        let mut filter = self;
        match filter.remount(alloc, volume) {
            Ok(out) => Ok((filter, out)),
            Err(why) => Err(Refused { value: filter, why }),
        }
    }

    /// Ends the filter, where no question runs; then no open waits either. Else it is handed back. It takes no memory.
    pub fn release(self) -> Result<(), Filter>
        ensures ok { IsOk result ↔ (self.questions ≡ []) }
        ensures held { IfErr result (λ f. f ≡ self) }
    {
        if self.table.question_count() > 0 {
            return Err(self);
        }
        self.abandon();
        Ok(())
    }

    /// Ends the filter at the end of a program: each open that is held is denied, and nobody hears of it.
    pub fn abandon(self) {
        let Filter { table } = self;
        abandon(table);
    }

    /// Whether what can't be judged is denied or let through.
    pub fn mode(&self) -> Mode
        ensures { result ≡ self.now.mode }
    {
        self.table.mode()
    }

    /// The limits that it keeps to.
    pub fn limits(&self) -> Limits
        ensures { result ≡ self.now.limits }
    {
        self.table.limits()
    }

    /// The floor: no version below it grants an open.
    pub fn floor(&self) -> Version
        ensures { result ≡ self.now.floor }
    {
        self.table.floor()
    }

    /// Whether a scanning service is connected at a port.
    pub fn connected(&self, port: Port) -> bool
        ensures { result ≡ is_open port self.now.connected }
    {
        self.table.connected().is_open(port)
    }

    /// How many questions run. At once. Its contract says what holds of every filter.
    pub fn question_count(&self) -> usize
        ensures count { result ≡ length self.now.questions }
        ensures coherent { IsCoherent self.now }
        ensures run { RunOnOpen self.now }
    {
        self.table.question_count()
    }

    /// How many opens are held. At once.
    pub fn pended_count(&self) -> usize
        ensures { result ≡ length self.now.pended }
    {
        self.table.pended_count()
    }

    /// The verdicts that it keeps.
    pub fn cache(&self) -> &VerdictCache
        ensures { result.now.entries ≡ self.now.cache }
    {
        self.table.cache()
    }

    /// The verdict that is known of a stream's present content, with the version that gave it, which may be below the floor.
    /// It takes no memory, and the logarithm of the count of streams.
    pub fn verdict_at(&self, stream: StreamId) -> Option<(Version, Verdict)>
        ensures { result ≡ verdict_of (context_of self.now.contexts stream) }
    {
        let state = self.table.state_of(stream)?;
        let ContextState::Judged { version, verdict } = state else {
            return None;
        };
        Some((version, verdict))
    }
}
