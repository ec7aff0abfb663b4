ghost use Rattle.std.specs.Prelude.{◌≡◌, ◌≤◌, ◌↔◌, IsOk, OnOk};
ghost use Rattle.av_base.specs.Limits.{AreInRange, checked, field_checked, greatest_values, with_field};

use std::marker::Model;
use thiserror::Error;

/// Limits as they are asked for. Each is to be 1 or more, and at most the constant of its name.
#[derive(Clone, Copy, Debug, PartialEq, Eq)]
pub struct LimitValues {
    /// Streams of a volume at one time.
    pub streams: u64,
    /// Bytes of one stream.
    pub length: u64,
    /// The greatest generation of a stream.
    pub generation: u64,
    /// Questions of a filter at one time.
    pub questions: u64,
    /// Pended opens of a filter at one time.
    pub pended: u64,
    /// Scans of a service at one time.
    pub jobs: u64,
    /// Entries of each verdict cache.
    pub cache: u64,
    /// Bytes of one chunk of content.
    pub chunk: u64,
    /// Events of an audit.
    pub audit: u64,
}

/// A field of the limits.
#[derive(Clone, Copy, Debug, PartialEq, Eq)]
pub enum LimitField {
    Streams,
    Length,
    Generation,
    Questions,
    Pended,
    Jobs,
    Cache,
    Chunk,
    Audit,
}

/// Why limits are refused: the first bad field, in the order of `LimitValues`.
#[derive(Clone, Copy, Debug, PartialEq, Eq, Error)]
pub enum LimitFault {
    #[error("the limit {which:?} is 0")]
    LimitZero { which: LimitField },
    #[error("the limit {which:?} is too large")]
    LimitTooLarge { which: LimitField },
}

pub const MAX_STREAMS: u64 = 65_536;

pub const MAX_LENGTH: u64 = 1_048_576;

pub const MAX_GENERATION: u64 = 281_474_976_710_655;

pub const MAX_QUESTIONS: u64 = 1_024;

pub const MAX_PENDED: u64 = 4_096;

pub const MAX_JOBS: u64 = 256;

pub const MAX_CACHE: u64 = 4_096;

pub const MAX_CHUNK: u64 = 4_096;

pub const MAX_AUDIT: u64 = 1_048_576;

impl LimitValues {
    /// The greatest value of each field, which the programs use where nothing else is said.
    pub fn greatest() -> LimitValues
        ensures { result ≡ greatest_values }
    {
        LimitValues {
            streams: MAX_STREAMS,
            length: MAX_LENGTH,
            generation: MAX_GENERATION,
            questions: MAX_QUESTIONS,
            pended: MAX_PENDED,
            jobs: MAX_JOBS,
            cache: MAX_CACHE,
            chunk: MAX_CHUNK,
            audit: MAX_AUDIT,
        }
    }

    /// The same values, with another one in one field. It may be out of range.
    pub fn with(self, which: LimitField, value: u64) -> LimitValues
        ensures { result ≡ with_field which value self }
    {
        let mut values = self;
        match which {
            LimitField::Streams => values.streams = value,
            LimitField::Length => values.length = value,
            LimitField::Generation => values.generation = value,
            LimitField::Questions => values.questions = value,
            LimitField::Pended => values.pended = value,
            LimitField::Jobs => values.jobs = value,
            LimitField::Cache => values.cache = value,
            LimitField::Chunk => values.chunk = value,
            LimitField::Audit => values.audit = value,
        }
        values
    }
}

/// Limits that are in range: `check` is the only way to make them, so whoever holds them need not test them again.
#[derive(Clone, Copy, Debug, PartialEq, Eq)]
pub struct Limits {
    values: LimitValues,
}

impl Model for Limits {
    ghost use Rattle.av_base.specs.declared.limits.LimitValues.{LimitValues};
    ghost use Rattle.av_base.specs.Limits.{AreInRange};

    ghost Value = { LimitValues };

    ghost view = { λ l. l.values };

    ghost invariant = { λ l. AreInRange l.values };

    ghost inverse = { λ v. record { values = v } };
}

impl Limits {
    /// The limits, where each is in range, and else the first fault. It takes no memory.
    pub fn check(values: LimitValues) -> Result<Limits, LimitFault>
        ensures exact { result ≡ checked values }
        ensures in_range { IsOk result ↔ AreInRange values }
    {
        in_range(LimitField::Streams, values.streams, MAX_STREAMS)?;
        in_range(LimitField::Length, values.length, MAX_LENGTH)?;
        in_range(LimitField::Generation, values.generation, MAX_GENERATION)?;
        in_range(LimitField::Questions, values.questions, MAX_QUESTIONS)?;
        in_range(LimitField::Pended, values.pended, MAX_PENDED)?;
        in_range(LimitField::Jobs, values.jobs, MAX_JOBS)?;
        in_range(LimitField::Cache, values.cache, MAX_CACHE)?;
        in_range(LimitField::Chunk, values.chunk, MAX_CHUNK)?;
        in_range(LimitField::Audit, values.audit, MAX_AUDIT)?;
        Ok(Limits { values })
    }

    /// The greatest limits.
    pub fn greatest() -> Limits
        ensures { result ≡ greatest_values }
    {
        Limits {
            values: LimitValues::greatest(),
        }
    }

    /// The values, all in range.
    pub fn values(&self) -> LimitValues
        ensures value { result ≡ self.now }
        ensures in_range { AreInRange self.now }
    {
        self.values
    }
}

// The fault of one field, if there is one.
fn in_range(which: LimitField, value: u64, greatest: u64) -> Result<(), LimitFault>
    ensures exact { result ≡ field_checked which value greatest }
    ensures ok { OnOk result ((1 ≤ value) × (value ≤ greatest)) }
{
    if value == 0 {
        return Err(LimitFault::LimitZero { which });
    }
    if value > greatest {
        return Err(LimitFault::LimitTooLarge { which });
    }
    Ok(())
}
