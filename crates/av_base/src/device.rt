//! Whole texts from readers and to writers, which may fail at any byte.

ghost use Rattle.std.specs.Prelude.{◌≡◌, ◌≢◌, ◌≤◌, ◌<◌, length, take, Err, IfOk, IfSome, IsErrOf};
ghost use Rattle.av_base.specs.Device.{Writes};

use std::alloc::AllocError;
use std::io::{Read, Write};
use thiserror::Error;

/// Why an input was not read.
#[derive(Clone, Copy, Debug, PartialEq, Eq, Error)]
pub enum ReadFault {
    /// A read failed, or as many reads were made as were allowed.
    #[error("device")]
    Device,
    /// The input is longer than its limit.
    #[error("too long")]
    TooLong,
    #[error("no memory")]
    NoMemory,
}

impl From<AllocError> for ReadFault {
    ghost use Rattle.std.specs.Prelude.{◌≡◌};
    ghost use Rattle.av_base.specs.declared.device.ReadFault.TheVariants.{NoMemory};

    ghost from_gives = { λ _ e. e ≡ NoMemory };

    fn from(_e: AllocError) -> ReadFault {
        ReadFault::NoMemory
    }
}

/// A write failed, or took no byte. What was written before it is out.
#[derive(Clone, Copy, Debug, PartialEq, Eq, Error)]
#[error("device")]
pub struct WriteFault;

/// Reads all bytes that a reader has left into the front of a buffer, which can be used again and again, and answers how many
/// they are. They must be fewer than the buffer holds, since only a read behind the last byte finds the end. Otherwise as
/// [`crate::recorded::read_whole`], without memory.
pub fn read_into<R: Read>(reader: &mut R, buffer: &mut [u8], turns: u64) -> Result<usize, ReadFault>
    ensures whole { IfOk result (λ count. IfSome (R.remaining reader.old) (λ input. take count buffer.new ≡ input)) }
    ensures short { IfOk result (λ count. count < length buffer.new) }
    ensures size { length buffer.new ≡ length buffer.old }
    ensures long { IsErrOf result ReadFault.TooLong
        → IfSome (R.remaining reader.old) (λ input. length buffer.old ≤ length input) }
    ensures memory { result ≢ Err ReadFault.NoMemory }
{
    let mut count = 0;
    'reads: for _ in 0..turns {
        if count == buffer.len() {
            return Err(ReadFault::TooLong);
        }
        let Ok(more) = reader.read(&mut buffer[count..]) else {
            return Err(ReadFault::Device);
        };
        if more == 0 {
            return Ok(count);
        }
        count += more;
    }
    Err(ReadFault::Device)
}

/// Writes a text. Where that fails, the front of the text was written and nothing else.
pub fn write_text<W: Write>(writer: &mut W, text: &[u8]) -> Result<(), WriteFault>
    ensures { Writes result (W.contents writer.old) (W.contents writer.new) text.now }
{
    let mut at = 0;
    'writes: while at < text.len() {
        let Ok(count) = writer.write(&text[at..]) else {
            return Err(WriteFault);
        };
        if count == 0 {
            return Err(WriteFault);
        }
        at += count;
    }
    Ok(())
}
