ghost use Rattle.std.specs.Prelude.{◌≡◌, ◌-◌, ◌<◌, ◌^◌, IfNone};
ghost use Rattle.av_base.specs.Answers.{Reads, Steps, StepsAtOnce};
ghost use Rattle.av_store.specs.Content.{bytes_read, written, cut_to};
ghost use Rattle.std.specs.Result.{result_err};

use crate::content::Content;
use crate::fault::StoreFault;
use av_base::{ByteList, Generation, Limits, Refusal};
use std::alloc::Global;

/// A stream of a volume: its name, and its present generation and bytes.
#[derive(Clone, Debug, Drop)]
pub struct Stream {
    pub name: ByteList,
    pub generation: Generation,
    pub bytes: Content,
}

impl Stream {
    /// Writes bytes over those from `offset` on: Hole, TooLarge, GenerationSpent, NoMemory.
    pub fn write(
        &mut self,
        limits: &Limits,
        offset: u64,
        bytes: &[u8],
    ) -> Result<(), Refusal<StoreFault>>
        ensures { Steps self.old self.new result (written limits.now offset bytes.now self.old) }
    {
        if let Some(fault) = self.write_refusal(limits, offset, bytes) {
            return Err(Refusal::Fault(fault));
        }
        self.bytes.overwrite(offset as usize, bytes)?;
        self.generation = Generation::new(self.generation.get() + 1);
        Ok(())
    }

    /// Why a write is refused, where it is for a fault.
    pub fn write_refusal(&self, limits: &Limits, offset: u64, bytes: &[u8]) -> Option<StoreFault>
        ensures fault { result ≡ result_err (written limits.now offset bytes.now self.now) }
        ensures generation { IfNone result (self.now.generation < 2 ^ 64 - 1) }
    {
        let limits = limits.values();
        if offset > self.bytes.len() as u64 {
            return Some(StoreFault::Hole);
        }
        if offset + bytes.len() as u64 > limits.length {
            return Some(StoreFault::TooLarge);
        }
        if self.generation.get() >= limits.generation {
            return Some(StoreFault::GenerationSpent);
        }
        None
    }

    /// Keeps the first `length` bytes alone: Hole, GenerationSpent.
    pub fn cut(&mut self, limits: &Limits, length: u64) -> Result<(), StoreFault>
        ensures { StepsAtOnce self.old self.new result (cut_to limits.now length self.old) }
    {
        if let Some(fault) = self.cut_refusal(limits, length) {
            return Err(fault);
        }
        self.bytes.truncate(length as usize);
        self.generation = Generation::new(self.generation.get() + 1);
        Ok(())
    }

    /// Why a cut is refused, where it is.
    pub fn cut_refusal(&self, limits: &Limits, length: u64) -> Option<StoreFault>
        ensures fault { result ≡ result_err (cut_to limits.now length self.now) }
        ensures generation { IfNone result (self.now.generation < 2 ^ 64 - 1) }
    {
        if length > self.bytes.len() as u64 {
            return Some(StoreFault::Hole);
        }
        if self.generation.get() >= limits.values().generation {
            return Some(StoreFault::GenerationSpent);
        }
        None
    }

    /// The bytes that are there from `offset` on, at most `count`: Hole, NoMemory.
    pub fn read(
        &self,
        alloc: Global,
        offset: u64,
        count: u64,
    ) -> Result<ByteList, Refusal<StoreFault>>
        ensures { Reads result (bytes_read offset count self.now) }
    {
        let bytes = self.bytes.as_slice();
        if offset > bytes.len() as u64 {
            return Err(Refusal::Fault(StoreFault::Hole));
        }
        let rest = &bytes[offset as usize..];
        let taken = count.min(rest.len() as u64);
        Ok(ByteList::copied(alloc, &rest[..taken as usize])?)
    }
}
