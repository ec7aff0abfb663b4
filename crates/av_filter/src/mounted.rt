ghost use Rattle.std.specs.Prelude.{◌≡◌, ◌↔◌, ◌+◌, [], Err, IsOk, IfErr, IfOk, OnErr, OnOk};
ghost use Rattle.av_base.specs.Answers.{Answers, Reads};
ghost use Rattle.av_filter.specs.Asking.{Calls, event_called};
ghost use Rattle.av_filter.specs.Call.{Meets, MeetsAlways, Reacts};
ghost use Rattle.av_filter.specs.Changing.{changes, cleaned};
ghost use Rattle.av_filter.specs.Conduct.{Changes, Opens, TimesOut, disconnects, filter_refusal, filter_step, restarts};
ghost use Rattle.av_filter.specs.Fit.{Fits, IsCoherent};
ghost use Rattle.av_filter.specs.Opening.{opened};
ghost use Rattle.av_filter.specs.Receiving.{receives};
ghost use Rattle.av_filter.specs.Storing.{IsStored, IsUnkept, IsWhy};
ghost use Rattle.av_filter_table.specs.Table.{mounted};
ghost use Rattle.av_store.specs.Files.{Cut, Remove, Write};
ghost use Rattle.av_store.specs.Rows.{stream_at};
ghost use Rattle.av_store.specs.Store.{create_of, mount_of};

use crate::call::FilterCall;
use crate::fault::FilterFault;
use crate::filter::Filter;
use crate::out::Out;
use crate::storing::store;
use av_base::{Limits, Mode, Port, Refusal, Refused, StreamId, Version};
use av_frame::Message;
use av_store::{BootSpent, StoreFault, Volume};
use std::alloc::{AllocError, Global};
use std::marker::Model;

/// A filter and the volume that it is mounted on, as one value: each event of the filter is one of this volume. Each call
/// costs and does what the call of the same name of `Filter` does, or of `Volume`. A refused call changes nothing. It holds
/// opens that are owed an answer, so it can't be dropped: `release` or `abandon` ends it.
pub struct Mounted {
    filter: Filter,
    volume: Volume,
}

impl Model for Mounted {
    ghost use Rattle.av_filter.specs.Fit.{Fits};
    ghost use Rattle.av_filter.specs.Mount.{Mount};

    ghost Value = { Mount };

    ghost view = { λ m. record { table = m.filter; volume = m.volume } };

    ghost invariant = { λ m. Fits m.filter m.volume };
}

impl Mounted {
    /// Mounts a filter on a volume, in the volume's next boot: BootSpent, NoMemory, the volume handed back. It knows of no
    /// stream, and no service is connected.
    pub fn mount(
        alloc: Global,
        volume: Volume,
        mode: Mode,
        limits: Limits,
    ) -> Result<Mounted, Refused<Volume, BootSpent>>
        ensures ok { IfOk result (λ m. (m.table ≡ mounted mode limits m.volume.boot)
            × (mount_of volume ≡ Ok (m.volume.boot, m.volume))) }
        ensures back { IfErr result (λ e. e.value ≡ volume) }
        ensures why { IfErr result (λ e. Reads (Err e.why) (mount_of volume)) }
    {
        let mut volume = volume;
        match Filter::mount(alloc, &mut volume, mode, limits) {
            Ok(filter) => Ok(Mounted { filter, volume }),
            Err(why) => Err(Refused { value: volume, why }),
        }
    }

    /// Creates a stream of this name: the volume's faults, NoMemory. The filter has nothing to do.
    pub fn create(&mut self, alloc: Global, name: &[u8]) -> Result<StreamId, Refusal<StoreFault>>
        ensures volume { Answers self.old.volume self.new.volume result (create_of self.old.volume name.now) }
        ensures table { self.new.table ≡ self.old.table }
    {
        self.volume.create(alloc, name)
    }

    /// Creates a stream of this name, and writes it once: the volume's faults, NoMemory. Where the write is refused the stream
    /// is taken away again, and its number is spent.
    pub fn store(
        &mut self,
        alloc: Global,
        name: &[u8],
        content: &[u8],
    ) -> Result<StreamId, Refusal<StoreFault>>
        ensures id { IfOk result (λ s. s ≡ self.old.volume.last + 1) }
        ensures stored { OnOk result
            (IsStored self.old.table self.old.volume name.now content.now self.new.table self.new.volume) }
        ensures err { OnErr result (IsUnkept self.old.table self.old.volume self.new.table self.new.volume) }
        ensures why { IfErr result (λ e. IsWhy self.old.volume name.now content.now e) }
    {
        store(alloc, &mut self.filter, &mut self.volume, name, content)
    }

    /// Opens a stream, which no version below `least` may grant: OpensSpent, NoMemory.
    pub fn open(
        &mut self,
        alloc: Global,
        stream: StreamId,
        least: Version,
    ) -> Result<Out, Refusal<FilterFault>>
        ensures event { Meets self.old.table self.old.volume self.new.table self.new.volume result
            (filter_refusal self.old.table self.old.volume (Opens stream least))
            (opened self.old.table self.old.volume stream least) }
    {
        self.filter.open(alloc, &mut self.volume, stream, least)
    }

    /// Writes bytes over those of a stream from `offset` on: the volume's faults, NoMemory.
    pub fn write(
        &mut self,
        alloc: Global,
        stream: StreamId,
        offset: u64,
        bytes: &[u8],
    ) -> Result<Out, Refusal<FilterFault>>
        ensures event { Meets self.old.table self.old.volume self.new.table self.new.volume result
            (filter_refusal self.old.table self.old.volume (Changes (Write stream offset bytes.now)))
            (changes self.old.table self.old.volume (Write stream offset bytes.now)) }
    {
        self.filter
            .write(alloc, &mut self.volume, stream, offset, bytes)
    }

    /// Keeps the first `length` bytes of a stream alone: the volume's faults, NoMemory.
    pub fn cut(
        &mut self,
        alloc: Global,
        stream: StreamId,
        length: u64,
    ) -> Result<Out, Refusal<FilterFault>>
        ensures event { Meets self.old.table self.old.volume self.new.table self.new.volume result
            (filter_refusal self.old.table self.old.volume (Changes (Cut stream length)))
            (changes self.old.table self.old.volume (Cut stream length)) }
    {
        self.filter.cut(alloc, &mut self.volume, stream, length)
    }

    /// Takes a stream away: NoStream, NoMemory. Its opens are denied.
    pub fn remove(&mut self, alloc: Global, stream: StreamId) -> Result<Out, Refusal<FilterFault>>
        ensures event { Meets self.old.table self.old.volume self.new.table self.new.volume result
            (filter_refusal self.old.table self.old.volume (Changes (Remove stream)))
            (changes self.old.table self.old.volume (Remove stream)) }
    {
        self.filter.remove(alloc, &mut self.volume, stream)
    }

    /// The last of those who wrote to a stream has closed it.
    pub fn cleanup(&mut self, alloc: Global, stream: StreamId) -> Result<Out, AllocError>
        ensures event { MeetsAlways self.old.table self.old.volume self.new.table self.new.volume result
            (cleaned self.old.table self.old.volume stream (stream_at stream self.old.volume.streams)) }
        ensures still { self.new.volume ≡ self.old.volume }
    {
        self.filter.cleanup(alloc, &self.volume, stream)
    }

    /// A message of the scanning service comes.
    pub fn message(&mut self, alloc: Global, message: &Message) -> Result<Out, AllocError>
        ensures event { MeetsAlways self.old.table self.old.volume self.new.table self.new.volume result
            (receives self.old.table self.old.volume message.now) }
        ensures still { self.new.volume ≡ self.old.volume }
    {
        self.filter.message(alloc, &self.volume, message)
    }

    /// The time of the question of this number in this boot is up.
    pub fn timeout(&mut self, alloc: Global, seq: u64) -> Result<Out, AllocError>
        ensures event { MeetsAlways self.old.table self.old.volume self.new.table self.new.volume result
            (filter_step self.old.table self.old.volume (TimesOut seq)) }
        ensures still { self.new.volume ≡ self.old.volume }
    {
        self.filter.timeout(alloc, &self.volume, seq)
    }

    /// The service of a port is lost.
    pub fn disconnect(&mut self, alloc: Global, port: Port) -> Result<Out, AllocError>
        ensures event { MeetsAlways self.old.table self.old.volume self.new.table self.new.volume result
            (disconnects self.old.table self.old.volume port) }
        ensures still { self.new.volume ≡ self.old.volume }
    {
        self.filter.disconnect(alloc, &self.volume, port)
    }

    /// Mounts the filter anew, in its place: BootSpent, NoMemory.
    pub fn remount(&mut self, alloc: Global) -> Result<Out, Refusal<BootSpent>>
        ensures ok { IfOk result (λ out. Reacts out self.new.table self.new.volume (restarts self.old.table self.old.volume)) }
        ensures err { OnErr result (self.new ≡ self.old) }
        ensures why { IfErr result (λ e. Reads (Err e) (mount_of self.old.volume)) }
    {
        self.filter.remount(alloc, &mut self.volume)
    }

    /// Lets the filter, or the volume below it, do what it is asked. None where that is refused.
    pub fn ask(&mut self, alloc: Global, call: &FilterCall<'_>) -> Option<Out>
        ensures { Calls self.old.table self.old.volume self.new.table self.new.volume (event_called call.now) result }
    {
        let _coherent = self.filter.question_count();
        self.filter.ask(alloc, &mut self.volume, call)
    }

    /// The filter. Its contract says what holds of every mounted filter.
    pub fn filter(&self) -> &Filter
        ensures value { result.now ≡ self.now.table }
        ensures coherent { IsCoherent self.now.table }
        ensures fits { Fits self.now.table self.now.volume }
    {
        let _coherent = self.filter.question_count();
        &self.filter
    }

    /// The volume.
    pub fn volume(&self) -> &Volume
        ensures { result.now ≡ self.now.volume }
    {
        &self.volume
    }

    /// Ends the filter, where no question runs, and gives the volume back. Else all is handed back. It takes no memory.
    pub fn release(self) -> Result<Volume, Mounted>
        ensures ok { IsOk result ↔ (self.table.questions ≡ []) }
        ensures volume { IfOk result (λ v. v ≡ self.volume) }
        ensures held { IfErr result (λ m. m ≡ self) }
    {
        let Mounted { filter, volume } = self;
        match filter.release() {
            Ok(()) => Ok(volume),
            Err(filter) => Err(Mounted { filter, volume }),
        }
    }

    /// Ends the filter, and gives the volume back: each open that is held is denied, and nobody hears of it.
    pub fn abandon(self) -> Volume
        ensures { result ≡ self.volume }
    {
        let Mounted { filter, volume } = self;
        filter.abandon();
        volume
    }
}
