//! Readers and writers that keep whether the last call of them failed, so that a contract can say that a device did.

ghost use Rattle.std.specs.Prelude.{◌≡◌, ◌≤◌, ◌<◌, length, is_err, true, IfOk, IfSome, IsErrOf};
ghost use Rattle.std.specs.Io.{ReadsAtMost, WritesAtMost};
ghost use Rattle.std.specs.Io.KnownBytes.{Keeps, ReadConsumes, WriteAppends};
ghost use Rattle.av_base.specs.Device.{Writes};
ghost use Rattle.av_base.specs.Recorded.{IsReadFault, counted, has_taken_none};

use crate::device::{ReadFault, WriteFault};
use std::alloc::Global;
use std::io;
use std::io::{Read, Write};

/// A reader that keeps how often it was read, and whether the last read failed.
pub trait RecordedRead: Read {
    ghost use Rattle.std.specs.Prelude.{ℕ, Bool};

    // How many reads were made, up to `u64::MAX`.
    ghost reads: { Self → ℕ };
    // Whether the last one failed.
    ghost has_failed: { Self → Bool };

    /// Reads as `read` does.
    fn read_recorded(&mut self, buf: &mut [u8]) -> io::Result<usize>
        ensures bound { ReadsAtMost result buf.new }
        ensures bytes { ReadConsumes (Self.remaining self.old) (Self.remaining self.new) result buf.new }
        ensures reads { let old = reads self.old in let new = reads self.new in new ≡ counted old }
        ensures failed { let new = has_failed self.new in new ≡ is_err result };
}

/// A writer that keeps whether the last write or flush failed, or took no byte.
pub trait RecordedWrite: Write {
    ghost use Rattle.std.specs.Prelude.{Bool};

    // Whether the last write or flush failed, or took no byte.
    ghost has_failed: { Self → Bool };

    /// Writes as `write` does.
    fn write_recorded(&mut self, buf: &[u8]) -> io::Result<usize>
        ensures bound { WritesAtMost result buf.now }
        ensures bytes { WriteAppends (Self.contents self.old) (Self.contents self.new) result buf.now }
        ensures failed { let new = has_failed self.new in new ≡ has_taken_none result };

    /// Flushes as `flush` does.
    fn flush_recorded(&mut self) -> io::Result<()>
        ensures bytes { Keeps (Self.contents self.old) (Self.contents self.new) }
        ensures failed { let new = has_failed self.new in new ≡ is_err result };
}

/// A reader or a writer with a record of its calls.
#[derive(Drop)]
pub struct Recorded<D> {
    /// What is asked by these calls. What else asks it is not recorded.
    pub device: D,
    reads: u64,
    has_failed: bool,
}

impl<D> Recorded<D> {
    /// A device of which nothing was asked yet.
    pub fn new(device: D) -> Recorded<D>
        ensures { result.device ≡ device }
    {
        Recorded {
            device,
            reads: 0,
            has_failed: false,
        }
    }
}

impl<D: Read> Read for Recorded<D> {
    ghost remaining = { λ r. D.remaining r.device };

    fn read(&mut self, buf: &mut [u8]) -> io::Result<usize> {
        self.read_recorded(buf)
    }
}

impl<D: Read> RecordedRead for Recorded<D> {
    ghost reads = { λ r. r.reads };

    ghost has_failed = { λ r. r.has_failed };

    fn read_recorded(&mut self, buf: &mut [u8]) -> io::Result<usize> {
        let outcome = self.device.read(buf);
        self.reads = self.reads.saturating_add(1);
        self.has_failed = outcome.is_err();
        outcome
    }
}

impl<D: Write> Write for Recorded<D> {
    ghost contents = { λ w. D.contents w.device };

    fn write(&mut self, buf: &[u8]) -> io::Result<usize> {
        self.write_recorded(buf)
    }

    fn flush(&mut self) -> io::Result<()> {
        self.flush_recorded()
    }
}

impl<D: Write> RecordedWrite for Recorded<D> {
    ghost has_failed = { λ w. w.has_failed };

    fn write_recorded(&mut self, buf: &[u8]) -> io::Result<usize> {
        let outcome = self.device.write(buf);
        self.has_failed = !matches!(&outcome, Ok(count) if *count != 0);
        outcome
    }

    fn flush_recorded(&mut self) -> io::Result<()> {
        let outcome = self.device.flush();
        self.has_failed = outcome.is_err();
        outcome
    }
}

/// All bytes that a reader has left, where they are at most `limit` and end within `turns` reads; the read that finds
/// the end counts as one. The first of a failing read and a byte too many decides between the faults. Device is the fault only
/// where the last read failed, or as many reads were made as are allowed.
pub fn read_whole<R: RecordedRead>(
    alloc: Global,
    reader: &mut R,
    limit: usize,
    turns: u64,
) -> Result<Vec<u8>, ReadFault>
    ensures whole { IfOk result (λ bytes. IfSome (R.remaining reader.old) (λ input. bytes.items ≡ input)) }
    ensures short { IfOk result (λ bytes. length bytes.items ≤ limit) }
    ensures long { IsErrOf result ReadFault.TooLong → IfSome (R.remaining reader.old) (λ input. limit < length input) }
    ensures device { IsErrOf result ReadFault.Device
        → IsReadFault (R.has_failed reader.new) turns (R.reads reader.old) (R.reads reader.new) }
{
    let mut bytes = Vec::new(alloc);
    let mut piece = [0u8; 4096];
    'reads: for _ in 0..turns {
        let Ok(count) = reader.read_recorded(&mut piece) else {
            return Err(ReadFault::Device);
        };
        if count == 0 {
            return Ok(bytes);
        }
        if count > limit - bytes.len() {
            return Err(ReadFault::TooLong);
        }
        bytes.extend_from_slice(&piece[..count])?;
    }
    Err(ReadFault::Device)
}

/// Writes a text, as [`crate::device::write_text`] does. It fails only where the last write did, or took no byte.
pub fn write_text<W: RecordedWrite>(writer: &mut W, text: &[u8]) -> Result<(), WriteFault>
    ensures writes { Writes result (W.contents writer.old) (W.contents writer.new) text.now }
    ensures failed { is_err result ≡ true → W.has_failed writer.new ≡ true }
{
    let mut at = 0;
    'writes: while at < text.len() {
        let Ok(count) = writer.write_recorded(&text[at..]) else {
            return Err(WriteFault);
        };
        if count == 0 {
            return Err(WriteFault);
        }
        at += count;
    }
    Ok(())
}
