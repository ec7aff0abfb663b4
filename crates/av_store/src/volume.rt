ghost use Rattle.std.specs.Prelude.{◌≡◌, ◌-◌, ◌<◌, ◌≤◌, None, IfNone, IfOk, length, map};
ghost use Rattle.std.specs.Option.{option_map, option_copied};
ghost use Rattle.av_base.specs.Answers.{Answers, AnswersAtOnce, Steps, StepsAtOnce, Reads};
ghost use Rattle.std.specs.Result.{result_err};
ghost use Rattle.av_store.specs.Store.{Store, greatest, is_name, is_printable, create_of, write_of, cut_of, remove_of, read_of, mount_of, open_number_of, empty_store};
ghost use Rattle.av_store.specs.Bounds.{AreInBounds};
ghost use Rattle.av_store.specs.Rows.{stream_at, number_named};
ghost use Rattle.av_store.specs.Sound.{IsOfFiles};

use crate::fault::{BootSpent, OpensSpent, StoreFault};
use crate::stream::Stream;
use crate::table;
use av_base::{ByteList, Generation, Limits, OpenId, Refusal, StreamId};
use std::alloc::{AllocError, Global};
use std::collections::BTreeMap;
use std::marker::Model;

/// Streams of bytes under names, in memory, with the counters that outlive a mount: the boots and the open numbers.
/// Each call by name or by number costs the logarithm of the number of streams.
#[derive(Drop)]
pub struct Volume {
    number: u64,
    boot: u64,
    opens: u64,
    last: u64,
    limits: Limits,
    rows: BTreeMap<u64, Stream>,
    names: BTreeMap<Vec<u8>, u64>,
}

impl Model for Volume {
    ghost use Rattle.av_store.specs.Store.{Store};
    ghost use Rattle.av_store.specs.Index.{IsIndexed};
    ghost use Rattle.av_store.specs.Sound.{IsSound};

    ghost Value = { Store };

    ghost view = { λ v. record {
      number = v.number;
      boot = v.boot;
      opens = v.opens;
      last = v.last;
      limits = v.limits;
      streams = v.rows.entries;
    } };

    ghost invariant = { λ v. IsIndexed v.names.entries v.rows.entries v.last × IsSound v.limits v.last v.rows.entries };
}

impl Volume {
    /// A volume of this number without a stream, never mounted. It takes no memory.
    pub fn new(alloc: Global, number: u64, limits: Limits) -> Volume
        ensures { result ≡ empty_store number limits }
    {
        let _in_range = limits.values();
        Volume {
            number,
            boot: 0,
            opens: 0,
            last: 0,
            limits,
            rows: BTreeMap::new(alloc),
            names: BTreeMap::new(alloc),
        }
    }

    /// Its number. It takes no memory.
    pub fn number(&self) -> u64
        ensures { result ≡ self.now.number }
    {
        self.number
    }

    /// The limits that it keeps to. It takes no memory.
    pub fn limits(&self) -> Limits
        ensures value { result ≡ self.now.limits }
        ensures bounds { AreInBounds self.now }
    {
        self.limits
    }

    /// How often it was mounted: the boot of the last mount. It takes no memory.
    pub fn boot(&self) -> u64
        ensures { result ≡ self.now.boot }
    {
        self.boot
    }

    /// A new stream of this name at generation 1, without bytes: BadName, Exists, Full, NoMemory. Streams are numbered
    /// from 1, and no number is given twice; a removal makes room for another stream.
    pub fn create(&mut self, alloc: Global, name: &[u8]) -> Result<StreamId, Refusal<StoreFault>>
        ensures { Answers self.old self.new result (create_of self.old name.now) }
    {
        if let Some(fault) = self.create_refusal(name) {
            return Err(Refusal::Fault(fault));
        }
        table::add(alloc, &mut self.rows, &mut self.names, self.last + 1, name)?;
        self.last += 1;
        Ok(StreamId::new(self.last))
    }

    /// The fault that `create` would answer for this name, where there is one. It takes no memory.
    pub fn create_refusal(&self, name: &[u8]) -> Option<StoreFault>
        ensures fault { result ≡ result_err (create_of self.now name.now) }
        ensures free { IfNone result (number_named name.now self.now.streams ≡ None) }
        ensures number { IfNone result (self.now.last < greatest) }
    {
        if !is_name(name) {
            return Some(StoreFault::BadName);
        }
        if self.names.contains_key(name) {
            return Some(StoreFault::Exists);
        }
        if self.rows.len() as u64 >= self.limits.values().streams || self.last == u64::MAX {
            return Some(StoreFault::Full);
        }
        None
    }

    /// Writes bytes over those from `offset` on, in place, and raises the generation by 1, for no bytes too: NoStream,
    /// Hole where `offset` is past the end, TooLarge where the end would pass the limit, GenerationSpent, NoMemory. It
    /// costs the bytes written, and the stream's where its memory has to move to grow.
    pub fn write(
        &mut self,
        id: StreamId,
        offset: u64,
        bytes: &[u8],
    ) -> Result<(), Refusal<StoreFault>>
        ensures { Steps self.old self.new result (write_of self.old id offset bytes.now) }
    {
        table::write(&mut self.rows, &self.limits, id.get(), offset, bytes)
    }

    /// The fault that `write` would answer, where there is one. It takes no memory.
    pub fn write_refusal(&self, id: StreamId, offset: u64, bytes: &[u8]) -> Option<StoreFault>
        ensures { result ≡ result_err (write_of self.now id offset bytes.now) }
    {
        let Some(stream) = self.rows.get(&id.get()) else {
            return Some(StoreFault::NoStream);
        };
        stream.write_refusal(&self.limits, offset, bytes)
    }

    /// Keeps the first `length` bytes alone and raises the generation by 1: NoStream, Hole where there are fewer,
    /// GenerationSpent. It takes no memory.
    pub fn cut(&mut self, id: StreamId, length: u64) -> Result<(), StoreFault>
        ensures { StepsAtOnce self.old self.new result (cut_of self.old id length) }
    {
        table::cut(&mut self.rows, &self.limits, id.get(), length)
    }

    /// The fault that `cut` would answer, where there is one. It takes no memory.
    pub fn cut_refusal(&self, id: StreamId, length: u64) -> Option<StoreFault>
        ensures { result ≡ result_err (cut_of self.now id length) }
    {
        let Some(stream) = self.rows.get(&id.get()) else {
            return Some(StoreFault::NoStream);
        };
        stream.cut_refusal(&self.limits, length)
    }

    /// Takes a stream away, with its name: NoStream. It takes no memory.
    pub fn remove(&mut self, id: StreamId) -> Result<(), StoreFault>
        ensures { StepsAtOnce self.old self.new result (remove_of self.old id) }
    {
        table::remove(&mut self.rows, &mut self.names, id.get())
    }

    /// The fault that `remove` would answer, where there is one. It takes no memory.
    pub fn remove_refusal(&self, id: StreamId) -> Option<StoreFault>
        ensures { result ≡ result_err (remove_of self.now id) }
    {
        match self.rows.get(&id.get()) {
            Some(_) => None,
            None => Some(StoreFault::NoStream),
        }
    }

    /// A copy of the bytes that are there from `offset` on, at most `count`: NoStream, Hole where `offset` is past the
    /// end, NoMemory. It costs the bytes that it gives.
    pub fn read(
        &self,
        alloc: Global,
        id: StreamId,
        offset: u64,
        count: u64,
    ) -> Result<ByteList, Refusal<StoreFault>>
        ensures { Reads result (read_of self.now id offset count) }
    {
        let Some(stream) = self.rows.get(&id.get()) else {
            return Err(Refusal::Fault(StoreFault::NoStream));
        };
        stream.read(alloc, offset, count)
    }

    /// The present bytes of a stream, where they lie. It takes no memory and copies nothing.
    pub fn content(&self, id: StreamId) -> Option<&[u8]>
        ensures { option_copied result ≡ option_map (λ s. s.bytes) (stream_at id self.now.streams) }
    {
        let stream = self.rows.get(&id.get())?;
        Some(stream.bytes.as_slice())
    }

    /// The stream of this name, where one is there. It takes no memory.
    pub fn find(&self, name: &[u8]) -> Option<StreamId>
        ensures { result ≡ number_named name.now self.now.streams }
    {
        let number = self.names.get(name)?;
        Some(StreamId::new(*number))
    }

    /// The present generation of a stream. It takes no memory.
    pub fn generation(&self, id: StreamId) -> Option<Generation>
        ensures { result ≡ option_map (λ s. s.generation) (stream_at id self.now.streams) }
    {
        let stream = self.rows.get(&id.get())?;
        Some(stream.generation)
    }

    /// The present length of a stream in bytes. It takes no memory.
    pub fn length(&self, id: StreamId) -> Option<u64>
        ensures { result ≡ option_map (λ s. length s.bytes) (stream_at id self.now.streams) }
    {
        let stream = self.rows.get(&id.get())?;
        Some(stream.bytes.len() as u64)
    }

    /// The stream that was created last, removed or not; 0 where none was. It takes no memory.
    pub fn last_created(&self) -> StreamId
        ensures value { result ≡ self.now.last }
        ensures files { IsOfFiles self.now }
    {
        StreamId::new(self.last)
    }

    /// Each stream that is there with its present generation, in the order of their numbers. It costs their count.
    pub fn generations(&self, alloc: Global) -> Result<Vec<(StreamId, Generation)>, AllocError>
        ensures { IfOk result (λ all. all.items ≡ map (λ x. (x.0, x.1.generation)) self.now.streams) }
    {
        self.rows
            .iter()
            .map(|(number, stream)| (StreamId::new(*number), stream.generation))
            .collect(alloc)
    }

    /// The next boot, counted from 1: BootSpent at 2^64 - 1. It takes no memory.
    pub fn mount(&mut self) -> Result<u64, BootSpent>
        ensures { AnswersAtOnce self.old self.new result (mount_of self.old) }
    {
        if self.boot == u64::MAX {
            return Err(BootSpent);
        }
        self.boot += 1;
        Ok(self.boot)
    }

    /// The next open number, counted from 1: OpensSpent at 2^64 - 1. It takes no memory.
    pub fn take_open_number(&mut self) -> Result<OpenId, OpensSpent>
        ensures { AnswersAtOnce self.old self.new result (open_number_of self.old) }
    {
        if self.opens == u64::MAX {
            return Err(OpensSpent);
        }
        self.opens += 1;
        Ok(OpenId::new(self.opens))
    }

    /// How many open numbers `take_open_number` has given, which is the last one. It takes no memory.
    pub fn opens(&self) -> u64
        ensures { result ≡ self.now.opens }
    {
        self.opens
    }

    /// How many open numbers `take_open_number` can still give. It takes no memory.
    pub fn opens_left(&self) -> u64
        ensures left { result ≡ greatest - self.now.opens }
        ensures within { self.now.opens ≤ greatest }
    {
        u64::MAX - self.opens
    }

    /// A volume that is equal to this one. It costs the names and numbers of its streams: the two have each content in common until
    /// one of them writes to it.
    pub fn copy(&self) -> Result<Volume, AllocError>
        ensures { IfOk result (λ v. v ≡ self.now) }
    {
        Ok(Volume {
            number: self.number,
            boot: self.boot,
            opens: self.opens,
            last: self.last,
            limits: self.limits,
            rows: self.rows.clone()?,
            names: self.names.clone()?,
        })
    }
}

// Whether a stream may have this name.
fn is_name(name: &[u8]) -> bool
    ensures { result ≡ is_name name.now }
{
    !name.is_empty() && name.len() <= 255 && is_printable(name)
}

// Whether each byte is from 33 to 126.
fn is_printable(name: &[u8]) -> bool
    ensures { result ≡ is_printable name.now }
{
    name.iter().all(|b| 33 <= *b && *b <= 126)
}
